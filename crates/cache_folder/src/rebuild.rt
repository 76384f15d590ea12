// Rebuilds of the journal.
ghost use Rattle.std.specs.Prelude.{◌≡◌, ◌++◌, length, Some, Err, IsOk};
ghost use Rattle.std.specs.FinMap.{insert};
ghost use Rattle.outside.specs.Causes.{HasCause};
ghost use Rattle.outside.specs.Files.{FolderHistory};
ghost use Rattle.journal_lines.specs.Journal.{header, text_of};
ghost use Rattle.cache_folder.specs.Offered.{journal_tmp};
ghost use Rattle.cache_folder.specs.Journals.{HasOneJournal, line_count};
ghost use Rattle.cache_folder.specs.Images.{IfKnown, WasKnown, Runs};
ghost use Rattle.cache_folder.specs.Tables.{kept, lines_for};
ghost use Rattle.cache_folder.specs.Sound.{IsKept, RebuildWay, Done, listed};

use crate::names;
use crate::table::CacheTable;
use journal_lines::text_is_its_lines;
use outside::{FileFault, Files};
use std::alloc::Global;
use std::snapshot::Snapshot;

// Writes the new journal beside the old one.
fn write_new<F: Files>(alloc: Global, files: &mut F, table: &CacheTable) -> Result<(), FileFault>
    requires { IfKnown (F.history files.old) (λ h. IsKept h.held (kept table.now)) }
    ensures ways { IfKnown (F.history files.old)
        (λ h. Runs (RebuildWay h.held (kept table.now)) h (F.history files.new)) }
    ensures ok { IsOk result → IfKnown (F.history files.old)
        (λ h. IfKnown (F.history files.new) (λ k.
        k.held ≡ insert h.held journal_tmp (header ++ text_of (lines_for (kept table.now))))) }
    ensures known { WasKnown (F.history files.old) (F.history files.new) }
    ensures cause { HasCause (F.faults files.old) (F.faults files.new) (result ≡ Err FileFault.Failed) }
{
    text_is_its_lines();
    let tmp = names::journal_tmp();
    let text = table.journal_text(alloc)?;
    files.make(alloc, &tmp)?;
    files.append(alloc, &tmp, &text)
}

// Puts the new journal in the place of the old one. The snapshot is of the files before the new one was written.
fn swap<F: Files>(
    alloc: Global,
    files: &mut F,
    table: &CacheTable,
    _before: &Snapshot<F>,
) -> Result<(), FileFault>
    requires kept { IfKnown (F.history _before.now.value) (λ h. IsKept h.held (kept table.now)) }
    requires new { IfKnown (F.history files.old)
        (λ k. IfKnown (F.history _before.now.value)
        (λ h. k.held ≡ insert h.held journal_tmp (header ++ text_of (lines_for (kept table.now))))) }
    ensures ways { IfKnown (F.history _before.now.value)
        (λ h. IfKnown (F.history files.old) (λ k.
        Runs (RebuildWay h.held (kept table.now)) k (F.history files.new))) }
    ensures ok { IsOk result → IfKnown (F.history _before.now.value)
        (λ h. IfKnown (F.history files.old) (λ k.
        Done (F.history files.new) (kept table.now) (listed h.held (kept table.now)))) }
    ensures lines { IsOk result → IfKnown (F.history _before.now.value)
        (λ h. IfKnown (F.history files.old) (λ k.
        IfKnown (F.history files.new) (λ m. line_count m.held ≡ length (kept table.now)))) }
    ensures alone { IsOk result → IfKnown (F.history files.new) (λ k. HasOneJournal k.held) }
    ensures known { WasKnown (F.history files.old) (F.history files.new) }
    ensures cause { HasCause (F.faults files.old) (F.faults files.new) (result ≡ Err FileFault.Failed) }
{
    text_is_its_lines();
    let journal = names::journal();
    let tmp = names::journal_tmp();
    let bkp = names::journal_bkp();
    files.rename(alloc, &journal, &bkp)?;
    files.rename(alloc, &tmp, &journal)?;
    files.delete(alloc, &bkp)?;
    Ok(())
}

/// Writes a new journal of the table. Each moment of it offers what was offered, or the table's list; and whatever the journal
/// said before, in the end the files are sound.
pub fn rebuild<F: Files>(alloc: Global, files: &mut F, table: &CacheTable) -> Result<(), FileFault>
    requires { IfKnown (F.history files.old) (λ h. IsKept h.held (kept table.now)) }
    ensures ways { IfKnown (F.history files.old)
        (λ h. Runs (RebuildWay h.held (kept table.now)) h (F.history files.new)) }
    ensures ok { IsOk result → IfKnown (F.history files.old)
        (λ h. Done (F.history files.new) (kept table.now) (listed h.held (kept table.now))) }
    ensures lines { IsOk result → IfKnown (F.history files.new)
        (λ k. line_count k.held ≡ length (kept table.now)) }
    ensures alone { IsOk result → IfKnown (F.history files.new) (λ k. HasOneJournal k.held) }
    ensures known { WasKnown (F.history files.old) (F.history files.new) }
    ensures cause { HasCause (F.faults files.old) (F.faults files.new) (result ≡ Err FileFault.Failed) }
{
    let before = Snapshot::of(files);
    write_new(alloc, files, table)?;
    swap(alloc, files, table, &before)
}
