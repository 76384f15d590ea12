// The start of a disk cache.
ghost use Rattle.std.specs.Prelude.{◌≡◌, ◌≤◌, ℕ, List, None, Err, IfOk, IfErr, IsOk};
ghost use Rattle.outside.specs.Causes.{HasCause};
ghost use Rattle.disk_table.specs.Table.{eldest_over};
ghost use Rattle.cache_folder.specs.Offered.{offered};
ghost use Rattle.cache_folder.specs.Images.{IfKnown, WasKnown, Runs};
ghost use Rattle.cache_folder.specs.Starts.{HasNoEdits, OffersSame, IsOpen};
ghost use Rattle.cache_folder.specs.Tables.{edit_at};
ghost use Rattle.disk_lru.specs.State.{entries, edits};
ghost use Rattle.disk_lru.specs.Past.{at_start};
ghost use Rattle.disk_lru.specs.Started.{IsStarted, IsFresh, OffersNoMore};
ghost use Rattle.disk_lru.specs.inside.Evicting.{IsEvicting, SamePast};

use crate::cache::OpenCache;
use crate::disk::DiskLru;
use crate::refusals::{DiskFault, StartRefused};
use cache_folder::{CacheTable, calls_keep_others, start};
use outside::Files;
use std::alloc::Global;
use std::snapshot::Snapshot;

// A cache of files that were opened. The snapshot is of the files before that.
fn of_opened<F: Files>(
    files: F,
    table: CacheTable,
    maximum: u64,
    before: &Snapshot<F>,
) -> DiskLru<F>
    requires opened { IfKnown (F.history files) (λ k. IsOpen k.held table) }
    requires free { HasNoEdits table }
    requires moments { IfKnown (F.history before.now.value)
        (λ h. Runs (OffersSame h.held) h (F.history files)) }
    requires known { WasKnown (F.history before.now.value) (F.history files) }
    ensures past { result.past ≡ at_start (F.history before.now.value) }
    ensures evicting { IfKnown (F.history before.now.value)
        (λ h. IsEvicting maximum (offered h.held) result) }
    ensures free { HasNoEdits result.cache.table }
    ensures maximum { result.cache.maximum ≡ maximum }
    ensures faults { result.cache.faults ≡ F.faults files }
{
    let cache = OpenCache::of_parts(files, table, maximum, false);
    DiskLru::of_start(cache, before)
}

// Evicts entries while there is too much.
fn evict_all<F: Files>(alloc: Global, disk: &mut DiskLru<F>) -> Result<(), DiskFault>
    requires { IfKnown disk.old.past.entry
        (λ h. IsEvicting disk.old.cache.maximum (offered h.held) disk.old) }
    ensures started { IsOk result → IfKnown disk.new.past.entry
        (λ h. IsStarted disk.old.cache.maximum h disk.new) }
    ensures idle { IsOk result → eldest_over disk.old.cache.maximum disk.new.cache.table.table ≡ None }
    ensures edits { IsOk result → edits disk.new.cache ≡ edits disk.old.cache }
    ensures past { SamePast disk.old disk.new result }
    ensures maximum { disk.new.cache.maximum ≡ disk.old.cache.maximum }
    ensures cause { HasCause disk.old.cache.faults disk.new.cache.faults (result ≡ Err DiskFault.Failed) }
{
    'over: while disk.trim_one(alloc)? {}
    Ok(())
}

impl<F: Files> DiskLru<F> {
    /// Starts a cache on the files, with the most bytes that its entries may have together. What the folder offers is the list
    /// of the cache; the eldest are dropped while they are too many. All other files go, and the journal is rebuilt where it does
    /// not say just these entries. Where there is no journal, or a bad one, the folder is emptied.
    ///
    /// Where a call on the files fails, or for want of memory, the files come back as the steps up to then left them.
    pub fn start(alloc: Global, files: F, maximum: u64) -> Result<DiskLru<F>, StartRefused<F>>
        ensures started { IfOk result (λ disk. IfKnown (F.history files) (λ h. IsStarted maximum h disk)) }
        ensures idle { IfOk result (λ disk. eldest_over maximum disk.cache.table.table ≡ None) }
        ensures free { IfOk result (λ disk. HasNoEdits disk.cache.table) }
        ensures closed { IfOk result (λ disk. (key : List ℕ) → edit_at key (entries disk.cache) ≡ None) }
        ensures past { IfOk result (λ disk. IsFresh (F.history files) disk.past) }
        ensures maximum { IfOk result (λ disk. disk.cache.maximum ≡ maximum) }
        ensures later { IfOk result (λ disk. F.faults files ≤ disk.cache.faults) }
        ensures refused { IfErr result
            (λ refused. OffersNoMore (F.history files) (F.history refused.files)) }
        ensures known { IfErr result (λ refused. WasKnown (F.history files) (F.history refused.files)) }
        ensures cause { IfErr result (λ refused. HasCause (F.faults files) (F.faults refused.files)
            (refused.fault ≡ DiskFault.Failed)) }
    {
        calls_keep_others();
        let before = Snapshot::of(&files);
        let mut files = files;
        let table = match start::open(alloc, &mut files) {
            Ok(table) => table,
            Err(fault) => {
                return Err(StartRefused {
                    files,
                    fault: fault.into(),
                });
            }
        };
        let mut disk = of_opened(files, table, maximum, &before);
        match evict_all(alloc, &mut disk) {
            Ok(()) => Ok(disk),
            Err(fault) => {
                disk.promise();
                Err(StartRefused {
                    files: disk.into_files(),
                    fault,
                })
            }
        }
    }
}
