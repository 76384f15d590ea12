// The calls of the disk cache, as the events of the store make them.
ghost use Rattle.std.specs.Prelude.{ℕ, List};
ghost use Rattle.disk_lru.specs.State.{IsOpen};
ghost use Rattle.store_world.specs.DiskCalls.{Gets, Begins, EvictsAll};
ghost use Rattle.store_world.specs.Laws.{CanBegin};
ghost use Rattle.disk_store.specs.DiskEvents.{MayBeginAfterEvicting, BeginsAfterEvicting, EvictsAfterCommit};

use disk_lru::{BeginRefused, DiskFault, DiskLru, Edit};
use journal_lines::Key;
use outside::Files;
use std::alloc::Global;
use store_world::{Chunk, evictions_go_on};

/// Reads an entry.
pub fn get<F: Files>(
    alloc: Global,
    disk: &mut DiskLru<F>,
    key: &Key,
) -> Result<Option<Chunk>, DiskFault>
    ensures { Gets key.now disk.old result disk.new }
{
    match disk.get(alloc, key) {
        Ok(Some(bytes)) => Ok(Some(Chunk::new(bytes))),
        Ok(None) => Ok(None),
        Err(fault) => Err(fault),
    }
}

/// Evicts while there is too much.
pub fn evict_all<F: Files>(alloc: Global, disk: &mut DiskLru<F>) -> Result<(), DiskFault>
    ensures { (gone : List (List ℕ)) × EvictsAll gone disk.old result disk.new }
{
    evictions_go_on();
    'over: while disk.trim_one(alloc)? {}
    Ok(())
}

// Begins an edit of a key that is not under edit and for which there is room.
fn begin<F: Files>(alloc: Global, disk: &mut DiskLru<F>, key: &Key) -> Result<Edit, DiskFault>
    requires { CanBegin key.now disk.old }
    ensures { Begins key.now disk.old result disk.new }
{
    match disk.begin(alloc, key) {
        Ok(edit) => Ok(edit),
        Err(BeginRefused::Failed) => Err(DiskFault::Failed),
        Err(BeginRefused::Memory) => Err(DiskFault::Memory),
        Err(BeginRefused::Busy(_)) => unreachable!(),
        Err(BeginRefused::TooMany) => unreachable!(),
    }
}

/// Evicts while there is too much, and then begins an edit of the key.
pub fn evict_and_begin<F: Files>(
    alloc: Global,
    disk: &mut DiskLru<F>,
    key: &Key,
) -> Result<Edit, DiskFault>
    requires { MayBeginAfterEvicting key.now disk.old }
    ensures { BeginsAfterEvicting key.now disk.old result disk.new }
{
    evict_all(alloc, disk)?;
    begin(alloc, disk, key)
}

/// Ends an edit with what was written to it, and then evicts while there is too much.
pub fn commit_and_evict<F: Files>(
    alloc: Global,
    disk: &mut DiskLru<F>,
    edit: Edit,
) -> Result<(), DiskFault>
    requires { IsOpen edit disk.old.cache }
    ensures { EvictsAfterCommit edit.key disk.old result disk.new }
{
    disk.commit(alloc, edit)?;
    evict_all(alloc, disk)
}
