// A run of thirty mixed calls: a stop behind each of its bytes, and each of its calls on the files failing.
use crate::files::{edit, key, started, text_of};
use disk_lru::DiskLru;
use outside::MemoryFiles;
use std::alloc::Global;
use std::test::Fail;

// What is done with the cache in a step of the run.
enum Step {
    // an edit with these bytes that is committed: three calls
    Put(&'static [u8], &'static [u8]),
    // an edit with these bytes that is given up: three calls
    GiveUp(&'static [u8], &'static [u8]),
    Get(&'static [u8]),
    Remove(&'static [u8]),
    Rebuild,
    Trim,
}

// Thirty calls, with how many changes of the files were made when each step has ended. The start makes three.
const STEPS: [Step; 14] = [
    Step::Put(b"a", b"abc"), // 8: DIRTY, the edit's file, its bytes, its name, CLEAN
    Step::Put(b"b", b"de"), // 13
    Step::Get(b"a"), // 14: READ
    Step::GiveUp(b"a", b"xyz"), // 19: DIRTY, the edit's file, its bytes, no file, CLEAN
    Step::Put(b"a", b"q"), // 24
    Step::Remove(b"b"), // 26: no file, REMOVE
    Step::GiveUp(b"c", b"r"), // 31
    Step::Put(b"c", b"rst"), // 36
    Step::Get(b"b"), // 36: it has no entry
    Step::Put(b"b", b"uv"), // 41
    Step::Rebuild, // 46: a new file, its text, two names, no old file
    Step::Get(b"c"), // 47
    Step::Put(b"a", b"wxyz"), // 52
    Step::Trim, // 54: no file, REMOVE
];

// What is offered from so many changes on: the values of `a`, `b` and `c`, and the lines of a new journal after which each of them
// was read.
const OFFERED: [(usize, &[u8]); 15] = [
    (0, b"|||"),
    (8, b"abc|||CLEAN a 3\nREAD a\n"),
    (13, b"abc|de||CLEAN a 3\nCLEAN b 2\nREAD a\nREAD b\n"),
    (14, b"abc|de||CLEAN b 2\nCLEAN a 3\nREAD a\nREAD b\n"),
    (15, b"|de||CLEAN b 2\nREAD b\n"),
    (19, b"abc|de||CLEAN b 2\nCLEAN a 3\nREAD a\nREAD b\n"),
    (20, b"|de||CLEAN b 2\nREAD b\n"),
    (24, b"q|de||CLEAN b 2\nCLEAN a 1\nREAD a\nREAD b\n"),
    (25, b"q|||CLEAN a 1\nREAD a\n"),
    (36, b"q||rst|CLEAN a 1\nCLEAN c 3\nREAD a\nREAD c\n"),
    (
        41,
        b"q|uv|rst|CLEAN a 1\nCLEAN c 3\nCLEAN b 2\nREAD a\nREAD b\nREAD c\n",
    ),
    (
        47,
        b"q|uv|rst|CLEAN a 1\nCLEAN b 2\nCLEAN c 3\nREAD a\nREAD b\nREAD c\n",
    ),
    (48, b"|uv|rst|CLEAN b 2\nCLEAN c 3\nREAD b\nREAD c\n"),
    (
        52,
        b"wxyz|uv|rst|CLEAN b 2\nCLEAN c 3\nCLEAN a 4\nREAD a\nREAD b\nREAD c\n",
    ),
    (53, b"wxyz||rst|CLEAN c 3\nCLEAN a 4\nREAD a\nREAD c\n"),
];

// Whether each call of the step succeeded.
fn call(alloc: Global, disk: &mut DiskLru<MemoryFiles>, step: &Step) -> Result<bool, Fail> {
    match step {
        Step::Put(of, bytes) => Ok(edit(alloc, disk, &key(of)?, bytes, true)),
        Step::GiveUp(of, bytes) => Ok(edit(alloc, disk, &key(of)?, bytes, false)),
        Step::Get(of) => Ok(disk.get(alloc, &key(of)?).is_ok()),
        Step::Remove(of) => Ok(disk.remove(alloc, &key(of)?).is_ok()),
        Step::Rebuild => Ok(disk.rebuild(alloc).is_ok()),
        Step::Trim => Ok(disk.trim_one(alloc).is_ok()),
    }
}

// The files after a start and the thirty calls, where the calls on files of these numbers fail; and whether all succeeded.
fn run(alloc: Global, fail: Vec<u64>) -> Result<(MemoryFiles, bool), Fail> {
    let mut disk = match DiskLru::start(alloc, MemoryFiles::new(fail), 6) {
        Ok(disk) => disk,
        Err(refused) => return Ok((refused.files, false)),
    };
    let mut ok = true;
    for step in &STEPS {
        ok = call(alloc, &mut disk, step)? && ok;
    }
    Ok((disk.into_files(), ok))
}

// A cache that was started on what a stop left.
fn started_at(
    alloc: Global,
    files: &MemoryFiles,
    change: usize,
    cut: usize,
) -> Result<DiskLru<MemoryFiles>, Fail> {
    if change > files.changes() || cut > files.appended(change) {
        return Err(Fail::new("no such stop"));
    }
    started(alloc, files.image(alloc, change, cut)?, 100)
}

// What is offered after a start on what a stop left, as `OFFERED` tells it.
fn offered_at(
    alloc: Global,
    files: &MemoryFiles,
    change: usize,
    cut: usize,
) -> Result<Vec<u8>, Fail> {
    let mut disk = started_at(alloc, files, change, cut)?;
    disk.rebuild(alloc)?;
    let mut text = Vec::new(alloc);
    for letter in [b"a", b"b", b"c"] {
        if let Some(bytes) = disk.get(alloc, &key(letter)?)? {
            text.extend_from_slice(&bytes)?;
        }
        text.push(b'|')?;
    }
    let journal = text_of(alloc, &mut disk.into_files(), b"journal")?;
    if let Some(lines) = journal.get(31..) {
        text.extend_from_slice(lines)?;
    }
    Ok(text)
}

// Whether this is offered at each stop from so many changes on.
fn all_offer(alloc: Global, files: &MemoryFiles, from: usize, want: &[u8]) -> Result<bool, Fail> {
    let mut ok = true;
    for change in from..files.changes().saturating_add(1) {
        for cut in 0..files.appended(change).max(1) {
            ok = offered_at(alloc, files, change, cut)?.as_slice() == want && ok;
        }
    }
    Ok(ok)
}

// What is offered after so many changes of the run.
fn offered_after(change: usize) -> &'static [u8] {
    let mut offered = OFFERED[0].1;
    for (from, next) in &OFFERED {
        if *from <= change {
            offered = next;
        }
    }
    offered
}

// Whether each stop within these changes of the run, and each stop of a start on what it left, offers what is wanted.
fn stops_are_right(alloc: Global, from: usize, to: usize) -> Result<bool, Fail> {
    let (files, mut ok) = run(alloc, Vec::new(alloc))?;
    for change in from..to {
        for cut in 0..files.appended(change).max(1) {
            let left = change.saturating_add(cut.min(1));
            let after = started_at(alloc, &files, change, cut)?.into_files();
            ok = all_offer(alloc, &after, left, offered_after(change))? && ok;
        }
    }
    Ok(ok && files.changes() == 54)
}

#[test]
fn stops_up_to_the_removal_offer_what_was_committed(rt: HostRuntime) -> Result<(), Fail> {
    assert!(rt; stops_are_right(rt.alloc(), 0, 24)?);
    Ok(())
}

#[test]
fn stops_up_to_the_rebuild_offer_what_was_committed(rt: HostRuntime) -> Result<(), Fail> {
    assert!(rt; stops_are_right(rt.alloc(), 24, 41)?);
    Ok(())
}

#[test]
fn stops_from_the_rebuild_on_offer_what_was_committed(rt: HostRuntime) -> Result<(), Fail> {
    assert!(rt; stops_are_right(rt.alloc(), 41, 55)?);
    Ok(())
}

// Whether the key is not offered, or has one of these values, each of which was handed to a commit.
fn was_handed(
    alloc: Global,
    disk: &mut DiskLru<MemoryFiles>,
    letter: &[u8],
    handed: &[&[u8]],
) -> Result<bool, Fail> {
    let Some(value) = disk.get(alloc, &key(letter)?)? else {
        return Ok(true);
    };
    let mut ok = false;
    for bytes in handed {
        ok = *bytes == value.as_slice() || ok;
    }
    Ok(ok)
}

// Whether each stop offers only what was handed to a commit, whole.
fn all_was_handed(alloc: Global, files: &MemoryFiles) -> Result<bool, Fail> {
    let mut ok = true;
    for change in 0..files.changes().saturating_add(1) {
        for cut in 0..files.appended(change).max(1) {
            let mut disk = started_at(alloc, files, change, cut)?;
            ok = was_handed(alloc, &mut disk, b"a", &[b"abc", b"q", b"wxyz"])? && ok;
            ok = was_handed(alloc, &mut disk, b"b", &[b"de", b"uv"])? && ok;
            ok = was_handed(alloc, &mut disk, b"c", &[b"rst"])? && ok;
        }
    }
    Ok(ok)
}

// How many of these runs have a failing call. In the run of a number so many calls on the files fail, from the one of that number
// on.
fn failing_runs(alloc: Global, from: u64, to: u64, count: u64) -> Result<u64, Fail> {
    let mut failing: u64 = 0;
    for first in from..to {
        let mut fail = Vec::new(alloc);
        for number in 0..count {
            fail.push(number.saturating_add(first))?;
        }
        let (files, ok) = run(alloc, fail)?;
        if !all_was_handed(alloc, &files)? {
            return Ok(0);
        }
        if !ok {
            failing = failing.saturating_add(1);
        }
    }
    Ok(failing)
}

// Each call on the files fails in turn. There are 66: the start makes 11, each of the eight edits 5, each of the two uses of an
// entry 3, the removal and the eviction 2 each, and the rebuild 5.
#[test]
fn each_of_the_first_calls_fails_once(rt: HostRuntime) -> Result<(), Fail> {
    assert_eq!(rt; failing_runs(rt.alloc(), 0, 33, 1)?, 33);
    Ok(())
}

#[test]
fn each_of_the_last_calls_fails_once(rt: HostRuntime) -> Result<(), Fail> {
    assert_eq!(rt; failing_runs(rt.alloc(), 33, 67, 1)?, 33);
    Ok(())
}

#[test]
fn each_call_fails_from_then_on(rt: HostRuntime) -> Result<(), Fail> {
    assert_eq!(rt; failing_runs(rt.alloc(), 0, 67, 100)?, 66);
    Ok(())
}
