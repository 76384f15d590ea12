// The bytes of entries, and what is answered without a call on the files.
ghost use Rattle.std.specs.Prelude.{◌≡◌, [], None};
ghost use Rattle.store_shared.specs.Caller.{content_of};

use crate::fixtures::{
    ENTRY, TEXT, all_from, entry_file, journal_of, name, owned, room_of, text_of,
};
use cache_key::Which;
use disk_store::{Store, truth};
use outside::{MemoryFiles, Told};
use std::alloc::Global;
use std::test::Fail;
use store_shared::{AloneStore, StoreCalls, Stored};

// How many calls a start makes on no files.
const START_CALLS: u64 = 11;

// Whether the journal has just these lines.
fn has_lines(
    alloc: Global,
    files: &mut MemoryFiles,
    lines: &[(&[u8], &[u8])],
) -> Result<bool, Fail> {
    Ok(text_of(alloc, files, b"journal")?.as_slice() == journal_of(alloc, lines)?.as_slice())
}

// Whether the entry of `red` has these bytes.
fn finds(alloc: Global, store: &mut AloneStore<MemoryFiles>, payload: &[u8]) -> Result<bool, Fail>
    ensures content { content_of store.new ≡ content_of store.old }
{
    let room = room_of(alloc, b"red")?;
    let found = store.fetch(alloc, &room, Which::SourceBytes)?;
    Ok(found.is_some_and(|bytes| bytes.as_slice() == payload))
}

// Whether the store has no entry of `red` of this kind.
fn finds_nothing(
    alloc: Global,
    store: &mut AloneStore<MemoryFiles>,
    which: Which,
) -> Result<bool, Fail>
    ensures content { content_of store.new ≡ content_of store.old }
{
    let room = room_of(alloc, b"red")?;
    Ok(store.fetch(alloc, &room, which)?.is_none())
}

// Stores the entry of `red`.
fn store_red(alloc: Global, store: &mut AloneStore<MemoryFiles>) -> Result<Stored, Fail>
    requires untold { content_of store.old ≡ None }
{
    let room = room_of(alloc, b"red")?;
    Ok(store.store(alloc, &room, Which::SourceBytes, TEXT))
}

// The files of a store in which the entry of `red` was looked for and then stored, if it was not found before.
fn stored_once(alloc: Global) -> Result<MemoryFiles, Fail> {
    let mut store = owned(alloc, MemoryFiles::new(Vec::new(alloc)), 1000)?;
    if !finds_nothing(alloc, &mut store, Which::SourceBytes)? {
        return Err(Fail::new("an entry in a new store"));
    }
    match store_red(alloc, &mut store)? {
        Stored::Stored => Ok(store.into_store().into_files()),
        _ => Err(Fail::new("not stored")),
    }
}

#[test]
fn an_entry_is_written(rt: HostRuntime) -> Result<(), Fail> {
    let alloc = rt.alloc();
    let mut files = stored_once(alloc)?;
    assert!(rt; text_of(alloc, &mut files, &entry_file(alloc)?)?.as_slice() == ENTRY);
    assert!(rt; has_lines(alloc, &mut files, &[(b"DIRTY ", b""), (b"CLEAN ", b" 42")])?);
    Ok(())
}

// The files of a store that was started again, and whose entry of `red` was read, if no other was found.
fn fetched_once(alloc: Global) -> Result<MemoryFiles, Fail> {
    let mut store = owned(alloc, stored_once(alloc)?, 1000)?;
    if !finds(alloc, &mut store, TEXT)? {
        return Err(Fail::new("other bytes"));
    }
    if !finds_nothing(alloc, &mut store, Which::Outcome)? {
        return Err(Fail::new("an entry of the other kind"));
    }
    Ok(store.into_store().into_files())
}

#[test]
fn an_entry_is_read(rt: HostRuntime) -> Result<(), Fail> {
    let alloc = rt.alloc();
    let mut files = fetched_once(alloc)?;
    let lines: [(&[u8], &[u8]); 3] = [(b"DIRTY ", b""), (b"CLEAN ", b" 42"), (b"READ ", b"")];
    assert!(rt; has_lines(alloc, &mut files, &lines)?);
    Ok(())
}

// The files of a cache whose entry of `red` has the envelope of another signature.
fn foreign_files(alloc: Global) -> Result<MemoryFiles, Fail> {
    let mut files = MemoryFiles::new(Vec::new(alloc));
    let lines: [(&[u8], &[u8]); 2] = [(b"DIRTY ", b""), (b"CLEAN ", b" 42")];
    files.put(alloc, &name(b"journal")?, &journal_of(alloc, &lines)?)?;
    let mut foreign = ENTRY.to_vec(alloc)?;
    foreign[20] = b'2';
    files.put(alloc, &name(&entry_file(alloc)?)?, &foreign)?;
    Ok(files)
}

// The files of a store that finds nothing in a foreign envelope, and stores nothing over it.
fn already_there(alloc: Global) -> Result<MemoryFiles, Fail> {
    let mut store = owned(alloc, foreign_files(alloc)?, 1000)?;
    if !finds_nothing(alloc, &mut store, Which::SourceBytes)? {
        return Err(Fail::new("bytes of a foreign envelope"));
    }
    match store_red(alloc, &mut store)? {
        Stored::Already => Ok(store.into_store().into_files()),
        _ => Err(Fail::new("another answer")),
    }
}

#[test]
fn a_foreign_envelope_is_nothing(rt: HostRuntime) -> Result<(), Fail> {
    let alloc = rt.alloc();
    let mut files = already_there(alloc)?;
    let lines: [(&[u8], &[u8]); 3] = [(b"DIRTY ", b""), (b"CLEAN ", b" 42"), (b"READ ", b"")];
    assert!(rt; has_lines(alloc, &mut files, &lines)?);
    Ok(())
}

// The answer of a store of that much room, whose files fail from the first call after the start on.
fn answer_within(alloc: Global, room: u64) -> Result<Stored, Fail> {
    let files = MemoryFiles::new(all_from(alloc, START_CALLS)?);
    let mut store = owned(alloc, files, room)?;
    store_red(alloc, &mut store)
}

#[test]
fn too_large_is_told_without_a_call(rt: HostRuntime) -> Result<(), Fail> {
    let alloc = rt.alloc();
    assert!(rt; answer_within(alloc, 41)? == Stored::TooLarge);
    assert!(rt; answer_within(alloc, 42)? == Stored::Failed);
    Ok(())
}

// Whether a store that is off answers so, and makes no call on its files.
fn answers_off(alloc: Global, store: Store<MemoryFiles>) -> Result<bool, Fail>
    requires fresh { store.history ≡ [] }
    requires opened { store.world ≡ store.opening }
    requires untold { store.opening.content ≡ None }
{
    let is_off = store.is_off();
    let mut store = AloneStore::new(store);
    let none = finds_nothing(alloc, &mut store, Which::SourceBytes)?;
    let off = store_red(alloc, &mut store)? == Stored::Off;
    let calls = store.into_store().into_files().changes();
    Ok(is_off && none && off && calls == 0)
}

#[test]
fn a_store_that_is_made_off_has_nothing(rt: HostRuntime) -> Result<(), Fail> {
    let alloc = rt.alloc();
    let never = MemoryFiles::new(Vec::new(alloc));
    assert!(rt; answers_off(alloc, Store::off(alloc, never, Told::nothing()))?);
    Ok(())
}

#[test]
fn a_store_whose_start_fails_has_nothing(rt: HostRuntime) -> Result<(), Fail> {
    let alloc = rt.alloc();
    let failing = MemoryFiles::new(all_from(alloc, 0)?);
    let Ok(store) = Store::start(alloc, failing, 1000, Told::nothing()) else {
        return Err(Fail::new("no memory for a start"));
    };
    assert!(rt; answers_off(alloc, store)?);
    Ok(())
}

// Whether a start for the truth of a run gives a store that is on.
fn is_on_for_its_truth(alloc: Global, told: Told) -> bool {
    let files = MemoryFiles::new(Vec::new(alloc));
    let told = truth(told, &files);
    match Store::start(alloc, files, 1000, told) {
        Ok(store) => !store.is_off(),
        Err(_) => false,
    }
}

#[test]
fn a_store_starts_for_the_truth_of_its_run(rt: HostRuntime) -> Result<(), Fail> {
    assert!(rt; is_on_for_its_truth(rt.alloc(), Told::nothing()));
    Ok(())
}
