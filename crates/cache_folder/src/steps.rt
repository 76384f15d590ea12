// The steps of each call on the files.
ghost use Rattle.std.specs.Prelude.{◌≡◌, ◌+◌, ◌^◌, ◌<◌, ◌≤◌, ℕ, List, [], ◌++◌, length, Some, None, Err, IsOk, IsSome};
ghost use Rattle.std.specs.FinMap.{get};
ghost use Rattle.outside.specs.Causes.{HasCause};
ghost use Rattle.outside.specs.Files.{Changes, appended};
ghost use Rattle.journal_lines.specs.Lines.{spelled, HasShortLengths};
ghost use Rattle.journal_lines.specs.Journal.{ended};
ghost use Rattle.disk_table.specs.UseOrder.{IsShort, without, value_at, used};
ghost use Rattle.cache_folder.specs.Offered.{journal_name, value_name, edit_name};
ghost use Rattle.cache_folder.specs.Steps.{Doubt, Commit, Use, Drop, stepped};
ghost use Rattle.cache_folder.specs.Images.{IfKnown, WasKnown, Runs};
ghost use Rattle.cache_folder.specs.Tables.{kept, begun, committed, aborted, grown_edit, line_back, edit_at, len_at};
ghost use Rattle.cache_folder.specs.Sound.{IsSound, AddsLines, MayLose, Way, Ways, Does, Done, listed, abort_step, text_at};

use crate::names;
use crate::table::CacheTable;
use journal_lines::{Key, Line, text_is_its_lines, write_line};
use outside::{FileFault, Files};
use std::alloc::Global;
use std::snapshot::Snapshot;

// Adds a line to the journal, in one append.
pub fn add_line<F: Files>(alloc: Global, files: &mut F, line: &Line) -> Result<(), FileFault>
    requires short { HasShortLengths line.now }
    requires journal { IfKnown (F.history files.old) (λ h. IsSome (get h.held journal_name)) }
    ensures files { Changes (appended journal_name (ended (spelled line.now))) (F.history files.old)
        (F.history files.new) result }
    ensures cause { HasCause (F.faults files.old) (F.faults files.new) (result ≡ Err FileFault.Failed) }
{
    let journal = names::journal();
    let text = write_line(line);
    files.append(alloc, &journal, text.bytes())
}

/// Begins an edit: the line, and then the edit's file. The snapshot is of the table before the edit was opened in it.
pub fn begin<F: Files>(
    alloc: Global,
    files: &mut F,
    key: &Key,
    _before: &Snapshot<CacheTable>,
) -> Result<(), FileFault>
    requires room { length (begun key.now (kept _before.now.value)) ≤ 16400 }
    requires sound { IfKnown (F.history files.old) (λ h. IsSound h.held (kept _before.now.value)) }
    ensures ways { Ways key.now (kept _before.now.value) (λ f. Doubt key.now) (F.history files.old)
        (F.history files.new) }
    ensures ok { IsOk result → Does (kept _before.now.value) (λ f. Doubt key.now)
        (begun key.now (kept _before.now.value)) (F.history files.old) (F.history files.new) }
    ensures empty { IsOk result → IfKnown (F.history files.old)
        (λ h. IfKnown (F.history files.new) (λ k. text_at k.held (edit_name key.now) ≡ [])) }
    ensures lines { IsOk result → AddsLines 1 (F.history files.old) (F.history files.new) }
    ensures known { WasKnown (F.history files.old) (F.history files.new) }
    ensures cause { HasCause (F.faults files.old) (F.faults files.new) (result ≡ Err FileFault.Failed) }
{
    text_is_its_lines();
    let edit = names::edit(key);
    add_line(alloc, files, &Line::Dirty(*key))?;
    files.make(alloc, &edit)
}

/// Ends an edit: its file takes the name of the entry's, and then the line.
pub fn commit<F: Files>(
    alloc: Global,
    files: &mut F,
    key: &Key,
    written: u64,
    table: &CacheTable,
) -> Result<(), FileFault>
    requires short { written < 2 ^ 40 }
    requires edit { edit_at key.now (kept table.now) ≡ Some written }
    requires sound { IfKnown (F.history files.old) (λ h. IsSound h.held (kept table.now)) }
    ensures ways { Ways key.now (kept table.now) (λ f. Commit key.now (text_at f (edit_name key.now)))
        (F.history files.old) (F.history files.new) }
    ensures ok { IsOk result → Does (kept table.now)
        (λ f. Commit key.now (text_at f (edit_name key.now)))
        (committed key.now written (kept table.now)) (F.history files.old) (F.history files.new) }
    ensures lines { IsOk result → AddsLines 1 (F.history files.old) (F.history files.new) }
    ensures known { WasKnown (F.history files.old) (F.history files.new) }
    ensures cause { HasCause (F.faults files.old) (F.faults files.new) (result ≡ Err FileFault.Failed) }
{
    text_is_its_lines();
    let from = names::edit(key);
    let to = names::value(key);
    files.rename(alloc, &from, &to)?;
    add_line(alloc, files, &Line::Clean(*key, written))
}

// The line after an edit was given up.
fn line_back(key: &Key, old: Option<u64>) -> Line
    ensures { result ≡ line_back key.now old }
{
    match old {
        Some(length) => Line::Clean(*key, length),
        None => Line::Remove(*key),
    }
}

/// Gives an edit up: its file goes, and then the line.
pub fn abort<F: Files>(
    alloc: Global,
    files: &mut F,
    key: &Key,
    old: Option<u64>,
    table: &CacheTable,
) -> Result<(), FileFault>
    requires short { IsShort old }
    requires edit { IsSome (edit_at key.now (kept table.now)) }
    requires old { len_at key.now (kept table.now) ≡ old }
    requires sound { IfKnown (F.history files.old) (λ h. IsSound h.held (kept table.now)) }
    ensures ways { Ways key.now (kept table.now) (λ f. abort_step old key.now) (F.history files.old)
        (F.history files.new) }
    ensures ok { IsOk result → Does (kept table.now) (λ f. abort_step old key.now)
        (aborted old key.now (kept table.now)) (F.history files.old) (F.history files.new) }
    ensures lines { IsOk result → AddsLines 1 (F.history files.old) (F.history files.new) }
    ensures known { WasKnown (F.history files.old) (F.history files.new) }
    ensures cause { HasCause (F.faults files.old) (F.faults files.new) (result ≡ Err FileFault.Failed) }
{
    text_is_its_lines();
    let edit = names::edit(key);
    let line = line_back(key, old);
    files.delete(alloc, &edit)?;
    add_line(alloc, files, &line)
}

/// Uses an entry: the line alone.
pub fn touch<F: Files>(
    alloc: Global,
    files: &mut F,
    key: &Key,
    table: &CacheTable,
) -> Result<(), FileFault>
    requires known { IsSome (value_at key.now (kept table.now)) }
    requires sound { IfKnown (F.history files.old) (λ h. IsSound h.held (kept table.now)) }
    ensures ways { Ways key.now (kept table.now) (λ f. Use key.now) (F.history files.old)
        (F.history files.new) }
    ensures ok { IsOk result → Does (kept table.now) (λ f. Use key.now) (used key.now (kept table.now))
        (F.history files.old) (F.history files.new) }
    ensures lines { IsOk result → AddsLines 1 (F.history files.old) (F.history files.new) }
    ensures known { WasKnown (F.history files.old) (F.history files.new) }
    ensures cause { HasCause (F.faults files.old) (F.faults files.new) (result ≡ Err FileFault.Failed) }
{
    text_is_its_lines();
    let _key = key.bytes();
    add_line(alloc, files, &Line::Read(*key))
}

/// Takes an entry out: its file goes, and then the line.
pub fn remove<F: Files>(
    alloc: Global,
    files: &mut F,
    key: &Key,
    table: &CacheTable,
) -> Result<(), FileFault>
    requires sound { IfKnown (F.history files.old) (λ h. IsSound h.held (kept table.now)) }
    ensures ways { Ways key.now (kept table.now) (λ f. Drop key.now) (F.history files.old)
        (F.history files.new) }
    ensures ok { IsOk result → Does (kept table.now) (λ f. Drop key.now)
        (without key.now (kept table.now)) (F.history files.old) (F.history files.new) }
    ensures lines { IsOk result → AddsLines 1 (F.history files.old) (F.history files.new) }
    ensures left { IfKnown (F.history files.old)
        (λ h. IfKnown (F.history files.new) (λ k. MayLose key.now h.held k.held)) }
    ensures gone { IsOk result
        → IfKnown (F.history files.new) (λ k. get k.held (value_name key.now) ≡ None) }
    ensures known { WasKnown (F.history files.old) (F.history files.new) }
    ensures cause { HasCause (F.faults files.old) (F.faults files.new) (result ≡ Err FileFault.Failed) }
{
    text_is_its_lines();
    let value = names::value(key);
    files.delete(alloc, &value)?;
    add_line(alloc, files, &Line::Remove(*key))
}

/// Adds bytes to an edit, which has `written` of them. It is no step of the list.
pub fn write<F: Files>(
    alloc: Global,
    files: &mut F,
    key: &Key,
    written: u64,
    bytes: &[u8],
    table: &CacheTable,
) -> Result<(), FileFault>
    requires edit { edit_at key.now (kept table.now) ≡ Some written }
    requires small { written + length bytes.now < 2 ^ 40 }
    requires sound { IfKnown (F.history files.old) (λ h. IsSound h.held (kept table.now)) }
    ensures ways { IfKnown (F.history files.old)
        (λ h. Runs (Way key.now h.held (listed h.held (kept table.now))
        (listed h.held (kept table.now))) h (F.history files.new)) }
    ensures ok { IsOk result → IfKnown (F.history files.old)
        (λ h. Done (F.history files.new) (grown_edit key.now (written + length bytes.now)
        (kept table.now)) (listed h.held (kept table.now))) }
    ensures text { IsOk result → IfKnown (F.history files.old)
        (λ h. IfKnown (F.history files.new) (λ k. text_at k.held (edit_name key.now) ≡ text_at h.held
        (edit_name key.now) ++ bytes.now)) }
    ensures lines { IsOk result → AddsLines 0 (F.history files.old) (F.history files.new) }
    ensures known { WasKnown (F.history files.old) (F.history files.new) }
    ensures cause { HasCause (F.faults files.old) (F.faults files.new) (result ≡ Err FileFault.Failed) }
{
    text_is_its_lines();
    let edit = names::edit(key);
    files.append(alloc, &edit, bytes)
}
