// What a start takes away: journals that a rebuild left, keys without their files, and files of no entry.
ghost use Rattle.std.specs.Prelude.{◌≡◌, ◌≢◌, ◌++◌, ◌∷◌, [], not, true, false, List, ℕ, Some, None, Ok, Err, IfOk, IsOk, IfSome, IfNone, IsSome, if◌then◌else◌};
ghost use Rattle.std.specs.FinMap.{get};
ghost use Rattle.std.specs.List.{AllByRecursion};
ghost use Rattle.outside.specs.Causes.{HasCause};
ghost use Rattle.journal_lines.specs.Keys.{is_key};
ghost use Rattle.disk_table.specs.UseOrder.{is_known};
ghost use Rattle.disk_table.specs.Table.{clean_length};
ghost use Rattle.cache_folder.specs.Offered.{journal_name, journal_bkp, value_name, offered};
ghost use Rattle.cache_folder.specs.Images.{IfKnown, WasKnown, Runs};
ghost use Rattle.cache_folder.specs.Starts.{HasNoEdits, OffersSame, has_value, entries_staying, keys_dropped, without_all, IsEntryFile, Belongs, IsTidy};
ghost use Rattle.cache_folder.specs.inside.Leaving.{Sweeps, AreKnown, AreClean, IsNoEntryFile, IsForeign};

use crate::table::CacheTable;
use crate::{changes, names};
use journal_lines::Key;
use outside::{FileFault, Files, Name};
use std::alloc::Global;

// Leaves one journal at most: `journal.bkp` takes its name where there is none, and else it goes.
fn settle_backup<F: Files>(alloc: Global, files: &mut F) -> Result<(), FileFault>
    ensures moments { IfKnown (F.history files.old) (λ h. Runs (OffersSame h.held) h (F.history files.new)) }
    ensures alone { IsOk result → IfKnown (F.history files.new) (λ k. get k.held journal_bkp ≡ None) }
    ensures known { WasKnown (F.history files.old) (F.history files.new) }
    ensures cause { HasCause (F.faults files.old) (F.faults files.new) (result ≡ Err FileFault.Failed) }
{
    let journal = names::journal();
    let backup = names::journal_bkp();
    let found = files.length(alloc, &journal)?;
    if found.is_some() {
        return changes::delete(alloc, files, &backup);
    }
    changes::rename(alloc, files, &backup, &journal)
}

/// Leaves no journal but `journal`. Each moment of it offers what was offered.
pub fn settle_journals<F: Files>(alloc: Global, files: &mut F) -> Result<(), FileFault>
    ensures moments { IfKnown (F.history files.old) (λ h. Runs (OffersSame h.held) h (F.history files.new)) }
    ensures alone { IsOk result → IfKnown (F.history files.new) (λ k. get k.held journal_bkp ≡ None) }
    ensures known { WasKnown (F.history files.old) (F.history files.new) }
    ensures cause { HasCause (F.faults files.old) (F.faults files.new) (result ≡ Err FileFault.Failed) }
{
    let tmp = names::journal_tmp();
    settle_backup(alloc, files)?;
    changes::delete(alloc, files, &tmp)
}

// Whether the key was left dirty, or its file is missing or has another length.
fn is_stale<F: Files>(
    alloc: Global,
    files: &mut F,
    key: &Key,
    table: &CacheTable,
) -> Result<bool, FileFault>
    ensures stale { IfOk result (λ stale. IfKnown (F.history files.old)
        (λ h. stale ≡ not (has_value h.held key.now (clean_length key.now table.now.table.entries)))) }
    ensures same { F.history files.new ≡ F.history files.old }
    ensures cause { HasCause (F.faults files.old) (F.faults files.new) (result ≡ Err FileFault.Failed) }
{
    let Some(length) = table.length_of(key) else {
        return Ok(true);
    };
    let value = names::value(key);
    match files.length(alloc, &value)? {
        Some(found) => Ok(found != length),
        None => Ok(true),
    }
}

// Adds the key where it is stale.
fn add_stale<F: Files>(
    alloc: Global,
    files: &mut F,
    key: &Key,
    table: &CacheTable,
    stale: &mut Vec<Key>,
) -> Result<(), FileFault>
    ensures keys { IsOk result → IfKnown (F.history files.old) (λ h. stale.new.items ≡ stale.old.items
        ++ (if has_value h.held key.now (clean_length key.now table.now.table.entries) then []
        else key.now ∷ [])) }
    ensures same { F.history files.new ≡ F.history files.old }
    ensures cause { HasCause (F.faults files.old) (F.faults files.new) (result ≡ Err FileFault.Failed) }
{
    if !is_stale(alloc, files, key, table)? {
        return Ok(());
    }
    match stale.push(*key) {
        Ok(_) => Ok(()),
        Err(_) => Err(FileFault::Memory),
    }
}

// The keys that are stale, the eldest first.
fn stale_keys<F: Files>(
    alloc: Global,
    files: &mut F,
    table: &CacheTable,
) -> Result<Vec<Key>, FileFault>
    ensures keys { IfOk result (λ keys. IfKnown (F.history files.old)
        (λ h. keys.items ≡ keys_dropped h.held table.now.table.entries)) }
    ensures same { F.history files.new ≡ F.history files.old }
    ensures cause { HasCause (F.faults files.old) (F.faults files.new) (result ≡ Err FileFault.Failed) }
{
    let mut stale = Vec::new(alloc);
    for key in table.keys() {
        add_stale(alloc, files, &key, table, &mut stale)?;
    }
    Ok(stale)
}

// Takes the keys out.
fn discard_all(table: &mut CacheTable, keys: &[Key])
    requires { HasNoEdits table.old }
    ensures entries { table.new.table.entries ≡ without_all keys.now table.old.table.entries }
    ensures free { HasNoEdits table.new }
{
    for key in keys {
        table.discard(key);
    }
}

/// Takes the keys out that are stale, and tells whether there are any.
pub fn discard_stale<F: Files>(
    alloc: Global,
    files: &mut F,
    table: &mut CacheTable,
) -> Result<bool, FileFault>
    requires { HasNoEdits table.old }
    ensures entries { IsOk result → IfKnown (F.history files.old)
        (λ h. table.new.table.entries ≡ entries_staying h.held table.old.table.entries) }
    ensures none { result ≡ Ok false → table.new ≡ table.old }
    ensures free { HasNoEdits table.new }
    ensures same { F.history files.new ≡ F.history files.old }
    ensures cause { HasCause (F.faults files.old) (F.faults files.new) (result ≡ Err FileFault.Failed) }
{
    let stale = stale_keys(alloc, files, table)?;
    if stale.is_empty() {
        let _once = table.keys();
        return Ok(false);
    }
    let _once = table.keys();
    discard_all(table, &stale);
    Ok(true)
}

// The key whose value the file is: what stands before `.0`, where that is a key.
fn key_of_file(name: &Name) -> Option<Key>
    ensures some { IfSome result (λ key. name.now ≡ value_name key) }
    ensures none { IfNone result ((key : List ℕ) → is_key key ≡ true → name.now ≢ value_name key) }
{
    let bytes = name.bytes();
    if bytes.len() < 2 {
        return None;
    }
    let (front, back) = bytes.split_at(bytes.len() - 2);
    if back != b".0".as_slice() {
        return None;
    }
    Key::read(front)
}

// Whether the file is that of an entry.
fn is_entry_file(name: &Name, table: &CacheTable) -> bool
    ensures yes { result ≡ true → IsEntryFile name.now table.now.table.entries }
    ensures no { result ≡ false → AreClean table.now.table.entries
        → IsNoEntryFile name.now table.now.table.entries }
{
    match key_of_file(name) {
        None => false,
        Some(key) => table.length_of(&key).is_some(),
    }
}

// Whether the file is the journal or that of an entry.
fn stays(name: &Name, table: &CacheTable) -> bool
    ensures yes { result ≡ true → Belongs name.now table.now.table.entries }
    ensures no { result ≡ false → AreClean table.now.table.entries
        → IsForeign name.now table.now.table.entries }
{
    if name.bytes() == b"journal".as_slice() {
        return true;
    }
    is_entry_file(name, table)
}

// Takes the file away, unless it is the journal or that of an entry.
fn sweep_file<F: Files>(
    alloc: Global,
    files: &mut F,
    name: &Name,
    table: &CacheTable,
) -> Result<(), FileFault>
    requires clean { IfKnown (F.history files.old) (λ h. AreClean table.now.table.entries) }
    requires alone { IfKnown (F.history files.old) (λ h. get h.held journal_bkp ≡ None) }
    requires offers { IfKnown (F.history files.old) (λ h. AreKnown (offered h.held) table.now.table.entries) }
    ensures moments { IfKnown (F.history files.old)
        (λ h. Runs (Sweeps table.now.table.entries h.held) h (F.history files.new)) }
    ensures gone { IsOk result → IfKnown (F.history files.new)
        (λ k. IsSome (get k.held name.now) → Belongs name.now table.now.table.entries) }
    ensures known { WasKnown (F.history files.old) (F.history files.new) }
    ensures cause { HasCause (F.faults files.old) (F.faults files.new) (result ≡ Err FileFault.Failed) }
{
    if stays(name, table) {
        return Ok(());
    }
    changes::delete(alloc, files, name)
}

/// Takes each file away that is not the journal and not that of an entry.
pub fn sweep<F: Files>(alloc: Global, files: &mut F, table: &CacheTable) -> Result<(), FileFault>
    requires clean { IfKnown (F.history files.old) (λ h. AreClean table.now.table.entries) }
    requires alone { IfKnown (F.history files.old) (λ h. get h.held journal_bkp ≡ None) }
    requires offers { IfKnown (F.history files.old) (λ h. AreKnown (offered h.held) table.now.table.entries) }
    ensures moments { IfKnown (F.history files.old)
        (λ h. Runs (Sweeps table.now.table.entries h.held) h (F.history files.new)) }
    ensures tidy { IsOk result → IfKnown (F.history files.new) (λ k. IsTidy k.held table.now.table.entries) }
    ensures known { WasKnown (F.history files.old) (F.history files.new) }
    ensures cause { HasCause (F.faults files.old) (F.faults files.new) (result ≡ Err FileFault.Failed) }
{
    let found = files.names(alloc)?;
    for name in &found {
        sweep_file(alloc, files, name, table)?;
    }
    Ok(())
}
