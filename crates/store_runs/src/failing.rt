// Calls on the files that fail, once and from then on.
ghost use Rattle.std.specs.Prelude.{◌≡◌, None};
ghost use Rattle.store_shared.specs.Caller.{content_of};

use crate::fixtures::{TEXT, owned, room_of};
use cache_key::Which;
use outside::MemoryFiles;
use std::alloc::Global;
use std::test::Fail;
use store_shared::{AloneStore, StoreCalls, Stored};

// What is stored for a second url. Both entries have 42 bytes.
const OTHER: &[u8] = b"P6\n2 1\n255\n\x00\xff\x00\xff\xff\x00";

// Whether a read of a url finds nothing, fails, or finds just these bytes.
fn reads_right(
    alloc: Global,
    store: &mut AloneStore<MemoryFiles>,
    url: &[u8; 3],
    payload: &[u8],
) -> Result<bool, Fail>
    ensures content { content_of store.new ≡ content_of store.old }
{
    let room = room_of(alloc, url)?;
    match store.fetch(alloc, &room, Which::SourceBytes) {
        Ok(Some(bytes)) => Ok(bytes.as_slice() == payload),
        Ok(None) | Err(_) => Ok(true),
    }
}

// Stores an entry of a url.
fn store_of(
    alloc: Global,
    store: &mut AloneStore<MemoryFiles>,
    url: &[u8; 3],
    payload: &[u8],
) -> Result<Stored, Fail>
    requires untold { content_of store.old ≡ None }
    ensures content { content_of store.new ≡ content_of store.old }
{
    let room = room_of(alloc, url)?;
    Ok(store.store(alloc, &room, Which::SourceBytes, payload))
}

// Whether no read of both urls finds wrong bytes.
fn read_both(alloc: Global, store: &mut AloneStore<MemoryFiles>) -> Result<bool, Fail>
    ensures content { content_of store.new ≡ content_of store.old }
{
    let red = reads_right(alloc, store, b"red", TEXT)?;
    let two = reads_right(alloc, store, b"two", OTHER)?;
    Ok(red && two)
}

// Stores both entries, with a read of the first between. Whether that read is right, and whether both were stored.
fn store_both(alloc: Global, store: &mut AloneStore<MemoryFiles>) -> Result<(bool, bool), Fail>
    requires untold { content_of store.old ≡ None }
    ensures content { content_of store.new ≡ content_of store.old }
{
    let first = store_of(alloc, store, b"red", TEXT)?;
    let right = reads_right(alloc, store, b"red", TEXT)?;
    let second = store_of(alloc, store, b"two", OTHER)?;
    Ok((right, first == Stored::Stored && second == Stored::Stored))
}

// Whether a start on these files, no call of which fails, reads both entries right and stores the second where it has none.
fn starts_right(alloc: Global, files: MemoryFiles) -> Result<bool, Fail> {
    let mut store = owned(alloc, files, 50)?;
    let right = read_both(alloc, &mut store)?;
    let again = store_of(alloc, &mut store, b"two", OTHER)?;
    Ok(right && (again == Stored::Stored || again == Stored::Already))
}

// Two entries are stored in a cache that has room for one, each between reads of both. The calls of these numbers on the files fail.
// True where no read finds wrong bytes, then and after a start without failures; and whether all went well.
fn run(alloc: Global, fail: Vec<u64>) -> Result<(bool, bool), Fail> {
    let mut store = owned(alloc, MemoryFiles::new(fail), 50)?;
    let (between, well) = store_both(alloc, &mut store)?;
    let behind = read_both(alloc, &mut store)?;
    let files = store.into_store().into_files();
    let last = files.changes();
    let again = starts_right(alloc, files.image(alloc, last, 0)?)?;
    Ok((between && behind && again, well))
}

// How many of the runs did not go well, if no read found wrong bytes. In the run of a number so many calls fail, from the one of
// that number on.
fn failing_runs(alloc: Global, runs: u64, count: u64) -> Result<u64, Fail> {
    let mut failing: u64 = 0;
    for first in 0..runs {
        let mut fail = Vec::new(alloc);
        for number in 0..count {
            fail.push(number.saturating_add(first))?;
        }
        let (right, well) = run(alloc, fail)?;
        if !right {
            return Err(Fail::new("wrong bytes were read"));
        }
        if !well {
            failing = failing.saturating_add(1);
        }
    }
    Ok(failing)
}

// The start makes 11 calls, each of the two edits 5, the eviction of the first entry 2, and each of the two reads that find one 3:
// 29 calls. Without the six of the reads that is 23.
#[test]
fn each_call_fails_once(rt: HostRuntime) -> Result<(), Fail> {
    assert_eq!(rt; failing_runs(rt.alloc(), 40, 1)?, 23);
    Ok(())
}

// The last call of the eviction is the 26th.
#[test]
fn each_call_fails_from_then_on(rt: HostRuntime) -> Result<(), Fail> {
    assert_eq!(rt; failing_runs(rt.alloc(), 40, 100)?, 26);
    Ok(())
}
