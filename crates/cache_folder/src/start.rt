// The start of a cache on its files.
ghost use Rattle.std.specs.Prelude.{◌≡◌, ◌≢◌, ◌&&◌, not, [], length, false, Some, None, Err, IfOk, IsOk};
ghost use Rattle.std.specs.FinMap.{get};
ghost use Rattle.outside.specs.Causes.{HasCause};
ghost use Rattle.disk_table.specs.Table.{no_entries, is_due};
ghost use Rattle.cache_folder.specs.Offered.{journal_bkp, offered};
ghost use Rattle.cache_folder.specs.Images.{IfKnown, WasKnown, Runs};
ghost use Rattle.cache_folder.specs.Starts.{HasNoEdits, OffersSame, IsOpen};
ghost use Rattle.cache_folder.specs.inside.Loading.{IsRead, IsSwept, IsReady, is_whole};

use crate::journal_reader::{Unread, read_journal};
use crate::rebuild::rebuild;
use crate::table::CacheTable;
use crate::{changes, leftovers, names};
use journal_lines::{Rest, text_is_its_lines};
use outside::{FileFault, Files};
use std::alloc::Global;

// A table with no key.
fn empty_table(alloc: Global) -> Result<CacheTable, FileFault>
    ensures table { IfOk result (λ table. table.table ≡ no_entries) }
    ensures memory { result ≢ Err FileFault.Failed }
{
    match CacheTable::new(alloc) {
        Ok(table) => Ok(table),
        Err(_) => Err(FileFault::Memory),
    }
}

// An empty table, after the bad journal was taken away, if there is one.
fn without_journal<F: Files>(alloc: Global, files: &mut F) -> Result<CacheTable, FileFault>
    requires alone { IfKnown (F.history files.old) (λ h. get h.held journal_bkp ≡ None) }
    requires bad { IfKnown (F.history files.old) (λ h. offered h.held ≡ []) }
    ensures moments { IfKnown (F.history files.old) (λ h. Runs (OffersSame h.held) h (F.history files.new)) }
    ensures read { IfOk result (λ table. IfKnown (F.history files.new)
        (λ k. IsRead k.held table.table false)) }
    ensures free { IfOk result (λ table. HasNoEdits table) }
    ensures known { WasKnown (F.history files.old) (F.history files.new) }
    ensures cause { HasCause (F.faults files.old) (F.faults files.new) (result ≡ Err FileFault.Failed) }
{
    let journal = names::journal();
    let table = empty_table(alloc)?;
    changes::delete(alloc, files, &journal)?;
    Ok(table)
}

// Whether a text is not cut.
fn is_whole(rest: Rest) -> bool
    ensures { result ≡ is_whole rest }
{
    match rest {
        Rest::Whole => true,
        Rest::Cut => false,
    }
}

// The table that the journal leaves, and whether its text is whole. A bad journal is taken away.
fn read_table<F: Files>(alloc: Global, files: &mut F) -> Result<(CacheTable, bool), FileFault>
    requires { IfKnown (F.history files.old) (λ h. get h.held journal_bkp ≡ None) }
    ensures moments { IfKnown (F.history files.old) (λ h. Runs (OffersSame h.held) h (F.history files.new)) }
    ensures read { IfOk result (λ read. IfKnown (F.history files.new)
        (λ k. IsRead k.held read.0.table read.1)) }
    ensures free { IfOk result (λ read. HasNoEdits read.0) }
    ensures known { WasKnown (F.history files.old) (F.history files.new) }
    ensures cause { HasCause (F.faults files.old) (F.faults files.new) (result ≡ Err FileFault.Failed) }
{
    text_is_its_lines();
    match read_journal(alloc, files) {
        Ok((table, rest)) => Ok((table, is_whole(rest))),
        Err(Unread::Bad) => Ok((without_journal(alloc, files)?, false)),
        Err(Unread::Refused(fault)) => Err(fault),
    }
}

// Whether the journal says the table, where its text is whole or not and keys were dropped or not.
fn is_sound(whole: bool, dropped: bool) -> bool
    ensures { result ≡ whole && not dropped }
{
    whole && !dropped
}

// Leaves the entries whose files are there, and their files. Tells whether the journal says just these entries.
fn tidy<F: Files>(
    alloc: Global,
    files: &mut F,
    table: &mut CacheTable,
    whole: bool,
) -> Result<bool, FileFault>
    requires read { IfKnown (F.history files.old) (λ h. IsRead h.held table.old.table whole) }
    requires free { HasNoEdits table.old }
    ensures moments { IfKnown (F.history files.old) (λ h. Runs (OffersSame h.held) h (F.history files.new)) }
    ensures swept { IfOk result (λ sound. IfKnown (F.history files.new)
        (λ k. IsSwept k.held table.new.table sound)) }
    ensures free { HasNoEdits table.new }
    ensures known { WasKnown (F.history files.old) (F.history files.new) }
    ensures cause { HasCause (F.faults files.old) (F.faults files.new) (result ≡ Err FileFault.Failed) }
{
    let dropped = leftovers::discard_stale(alloc, files, table)?;
    leftovers::sweep(alloc, files, table)?;
    Ok(is_sound(whole, dropped))
}

// Writes a new journal of the table.
fn new_journal<F: Files>(
    alloc: Global,
    files: &mut F,
    table: &mut CacheTable,
) -> Result<(), FileFault>
    requires ready { IfKnown (F.history files.old) (λ h. IsReady h.held table.old) }
    requires free { HasNoEdits table.old }
    ensures moments { IfKnown (F.history files.old) (λ h. Runs (OffersSame h.held) h (F.history files.new)) }
    ensures opened { IsOk result → IfKnown (F.history files.new) (λ k. IsOpen k.held table.new) }
    ensures entries { table.new.table.entries ≡ table.old.table.entries }
    ensures lines { IsOk result → table.new.table.lines ≡ length table.old.table.entries }
    ensures free { HasNoEdits table.new }
    ensures known { WasKnown (F.history files.old) (F.history files.new) }
    ensures cause { HasCause (F.faults files.old) (F.faults files.new) (result ≡ Err FileFault.Failed) }
{
    let _few = table.keys();
    rebuild(alloc, files, table)?;
    table.rebuilt();
    Ok(())
}

// The table that the journal leaves, and whether its text is whole. No other journal stands beside it.
fn find_table<F: Files>(alloc: Global, files: &mut F) -> Result<(CacheTable, bool), FileFault>
    ensures moments { IfKnown (F.history files.old) (λ h. Runs (OffersSame h.held) h (F.history files.new)) }
    ensures read { IfOk result (λ read. IfKnown (F.history files.new)
        (λ k. IsRead k.held read.0.table read.1)) }
    ensures free { IfOk result (λ read. HasNoEdits read.0) }
    ensures known { WasKnown (F.history files.old) (F.history files.new) }
    ensures cause { HasCause (F.faults files.old) (F.faults files.new) (result ≡ Err FileFault.Failed) }
{
    leftovers::settle_journals(alloc, files)?;
    read_table(alloc, files)
}

// Leaves the files of the entries whose files are there, and a journal that says just these.
fn settle<F: Files>(
    alloc: Global,
    files: &mut F,
    table: &mut CacheTable,
    whole: bool,
) -> Result<(), FileFault>
    requires read { IfKnown (F.history files.old) (λ h. IsRead h.held table.old.table whole) }
    requires free { HasNoEdits table.old }
    ensures moments { IfKnown (F.history files.old) (λ h. Runs (OffersSame h.held) h (F.history files.new)) }
    ensures opened { IsOk result → IfKnown (F.history files.new) (λ k. IsOpen k.held table.new) }
    ensures free { HasNoEdits table.new }
    ensures known { WasKnown (F.history files.old) (F.history files.new) }
    ensures cause { HasCause (F.faults files.old) (F.faults files.new) (result ≡ Err FileFault.Failed) }
{
    let sound = tidy(alloc, files, table, whole)?;
    let _once = table.keys();
    if sound {
        return Ok(());
    }
    new_journal(alloc, files, table)
}

// Writes a new journal where its lines have become too many.
fn renew_journal<F: Files>(
    alloc: Global,
    files: &mut F,
    table: &mut CacheTable,
) -> Result<(), FileFault>
    requires opened { IfKnown (F.history files.old) (λ h. IsOpen h.held table.old) }
    requires free { HasNoEdits table.old }
    ensures moments { IfKnown (F.history files.old) (λ h. Runs (OffersSame h.held) h (F.history files.new)) }
    ensures opened { IsOk result → IfKnown (F.history files.new) (λ k. IsOpen k.held table.new) }
    ensures settled { IsOk result → is_due table.new.table ≡ false }
    ensures free { HasNoEdits table.new }
    ensures known { WasKnown (F.history files.old) (F.history files.new) }
    ensures cause { HasCause (F.faults files.old) (F.faults files.new) (result ≡ Err FileFault.Failed) }
{
    if !table.due() {
        return Ok(());
    }
    new_journal(alloc, files, table)
}

/// Opens the files of a cache, and answers the table of what they offer. Each moment of it offers what was offered. Afterwards
/// the journal says the table, and no other file is there than the journal and those of the entries.
///
/// The steps: `journal.bkp` takes the journal's name where there is no journal, and else goes; `journal.tmp` goes; the journal is
/// read, and a bad one is taken away; keys that were left dirty, or whose file is missing or has another length, are dropped; all
/// other files go; and a new journal is written where there was none that is whole, where a key was dropped, or where its lines
/// have become too many.
pub fn open<F: Files>(alloc: Global, files: &mut F) -> Result<CacheTable, FileFault>
    ensures moments { IfKnown (F.history files.old) (λ h. Runs (OffersSame h.held) h (F.history files.new)) }
    ensures opened { IfOk result (λ table. IfKnown (F.history files.new) (λ k. IsOpen k.held table)) }
    ensures settled { IfOk result (λ table. is_due table.table ≡ false) }
    ensures free { IfOk result (λ table. HasNoEdits table) }
    ensures known { WasKnown (F.history files.old) (F.history files.new) }
    ensures cause { HasCause (F.faults files.old) (F.faults files.new) (result ≡ Err FileFault.Failed) }
{
    let (found, whole) = find_table(alloc, files)?;
    let mut table = found;
    settle(alloc, files, &mut table, whole)?;
    renew_journal(alloc, files, &mut table)?;
    Ok(table)
}
