// Files in memory.
ghost use Rattle.std.specs.Prelude.{◌≡◌, ◌≢◌, ◌<◌, ◌≤◌, ◌++◌, ◌∷◌, ◌↔◌, [], drop, Some, Ok, Err, OnOk, OnErr, IfOk, length, is_some, IsSome, is_ok, false, vec_len, vec_capacity, if◌then◌else◌};
ghost use Rattle.std.specs.Option.{option_map};
ghost use Rattle.std.specs.Result.{result_unwrap_or};
ghost use Rattle.std.specs.FinMap.{get};
ghost use Rattle.outside.specs.Calls.{FailsNext, Caused, no_calls};
ghost use Rattle.outside.specs.Files.{FolderHistory, WhereKnown, IsListing, Reads, ReadsFile, made, appended, renamed, deleted};
ghost use Rattle.outside.specs.MemoryFiles.{history_of, held_by, no_changes, after_file_call, MakesCall, ChangesBy, IsStop, IsPrefixOf, next_length, stopped};
ghost use Rattle.outside.specs.declared.changes.Change.{Change};
ghost use Rattle.outside.specs.declared.changes.Change.TheVariants.{Made, Appended, Renamed, Deleted, Placed};

use crate::calls::Calls;
use crate::changes::{Change, FileBytes, stopped};
use crate::files::{FileFault, Files};
use crate::names::Name;
use crate::stored::{StoredFiles, bytes_at, make_change, names_of};
use faults::NoMemory;
use std::alloc::{AllocError, Global};
use std::collections::BTreeMap;
use std::marker::Model;

/// Files in memory, for tests and for callers that are proved over them. It keeps each change that is made.
///
/// Its calls of `Files` are numbered from 0, and those of the numbers that it was made with answer
/// `FileFault::Failed`, and change nothing.
#[derive(Drop)]
pub struct MemoryFiles {
    files: StoredFiles,
    changes: Vec<Change>,
    calls: Calls,
}

impl Model for MemoryFiles {
    ghost use Rattle.std.specs.Prelude.{◌≡◌};
    ghost use Rattle.outside.specs.MemoryFiles.{FilesState, history_of};
    ghost use Rattle.outside.specs.Stored.{folder_of};

    ghost Value = { FilesState };

    ghost view = { λ s. record { changes = s.changes.items; calls = s.calls } };

    ghost invariant = { λ s. folder_of s.files.entries ≡ (history_of s.changes.items).held };
}

// Keeps a change that there is room for.
fn keep(changes: &mut Vec<Change>, change: Change)
    requires { vec_len changes.old < vec_capacity changes.old }
    ensures { changes.new.items ≡ changes.old.items ++ change ∷ [] }
{
    let _ = changes.push(change);
}

// Moves a part of some bytes into a slice.
fn read_part(bytes: &[u8], at: u64, into: &mut [u8]) -> usize
    requires { 0 < length into.old }
    ensures { Reads bytes.now at result into.old into.new }
{
    if at >= bytes.len() as u64 {
        return 0;
    }
    let (_, rest) = bytes.split_at(at as usize);
    let count = into.len().min(rest.len());
    into[..count].copy_from_slice(&rest[..count]);
    count
}

impl MemoryFiles {
    /// No files. Calls of the numbers `fail` fail. It takes no memory.
    pub fn new(fail: Vec<u64>) -> MemoryFiles
        ensures { result ≡ no_changes fail.items }
    {
        MemoryFiles {
            files: BTreeMap::new(*fail.allocator()),
            changes: Vec::new(*fail.allocator()),
            calls: Calls::new(fail),
        }
    }

    /// How many changes were made.
    pub fn changes(&self) -> usize
        ensures { result ≡ length self.now.changes }
    {
        self.changes.len()
    }

    /// How many bytes the change of this number, from 0, appended: 0 where it is no append, or not made.
    pub fn appended(&self, change: usize) -> usize
        ensures { result ≡ next_length (drop change self.now.changes) }
    {
        match self.changes.get(change) {
            Some(Change::Appended(_, bytes)) => bytes.as_slice().len(),
            _ => 0,
        }
    }

    /// Puts a file with these bytes there at once, in the place of one of its name. This is one change, and
    /// no call of `Files`: it has no number and does not fail.
    pub fn put(&mut self, alloc: Global, name: &Name, bytes: &[u8]) -> Result<(), NoMemory>
        ensures ok { OnOk result (self.new ≡ record self.old {
          changes = self.old.changes ++ Placed name.now bytes.now ∷ [];
        }) }
        ensures err { OnErr result (self.new ≡ self.old) }
    {
        let copy = FileBytes::new(bytes.to_vec(alloc)?);
        Ok(self.make_change(alloc, Change::Placed(*name, copy))?)
    }

    /// The files after the first `change` whole changes and `cut` bytes of what the next one appends: what a
    /// stop of the process there would have left. `changes` and `appended` say which of these there are. No
    /// call was made on the files that come back.
    pub fn image(&self, alloc: Global, change: usize, cut: usize) -> Result<MemoryFiles, NoMemory>
        requires { IsStop change cut self.now.changes }
        ensures changes { IfOk result (λ files. files ≡ record {
          changes = stopped change cut self.now.changes;
          calls = no_calls [];
        }) }
        ensures prefix { IfOk result
            (λ files. IsPrefixOf (history_of files.changes) (history_of self.now.changes)) }
    {
        let made = stopped(alloc, &self.changes, change, cut)?;
        Ok(MemoryFiles::of_changes(alloc, made)?)
    }

    // The files that some changes leave.
    fn of_changes(alloc: Global, changes: Vec<Change>) -> Result<MemoryFiles, AllocError>
        ensures { IfOk result (λ files. files ≡ record { changes = changes.items; calls = no_calls [] }) }
    {
        let mut files = MemoryFiles::new(Vec::new(alloc));
        for change in changes {
            files.make_change(alloc, change)?;
        }
        Ok(files)
    }

    // Makes a change and keeps it.
    fn make_change(&mut self, alloc: Global, change: Change) -> Result<(), AllocError>
        ensures ok { OnOk result (self.new ≡ record self.old { changes = self.old.changes ++ change ∷ [] }) }
        ensures err { OnErr result (self.new ≡ self.old) }
    {
        self.changes.reserve(1)?;
        make_change(alloc, &mut self.files, &change)?;
        keep(&mut self.changes, change);
        Ok(())
    }

    // Counts a call of `Files`, which may be one that fails.
    fn count_call(&mut self) -> Result<(), FileFault>
        ensures changes { self.new.changes ≡ self.old.changes }
        ensures listed { (result ≡ Err FileFault.Failed) ↔ FailsNext self.old.calls }
        ensures counted { self.new.calls ≡ after_file_call result self.old.calls }
        ensures cause { Caused self.old.calls self.new.calls (result ≡ Err FileFault.Failed) }
        ensures fault { result ≢ Err FileFault.Memory }
    {
        if self.calls.fails_next() {
            self.calls.count_failure();
            return Err(FileFault::Failed);
        }
        self.calls.count_call();
        Ok(())
    }

    // A call of `Files` that makes a change.
    fn call(&mut self, alloc: Global, change: Change) -> Result<(), FileFault>
        ensures call { MakesCall (change ∷ []) self.old self.new result }
        ensures cause { Caused self.old.calls self.new.calls (result ≡ Err FileFault.Failed) }
    {
        self.count_call()?;
        self.make_change(alloc, change)?;
        Ok(())
    }

    // Copies bytes and appends them.
    fn append_copy(&mut self, alloc: Global, name: &Name, bytes: &[u8]) -> Result<(), AllocError>
        ensures ok { OnOk result (self.new ≡ record self.old {
          changes = self.old.changes ++ Appended name.now bytes.now ∷ [];
        }) }
        ensures err { OnErr result (self.new ≡ self.old) }
    {
        let copy = FileBytes::new(bytes.to_vec(alloc)?);
        self.make_change(alloc, Change::Appended(*name, copy))
    }
}

impl Files for MemoryFiles {
    ghost history = { λ s. Some (history_of s.changes) };

    ghost faults = { λ s. s.calls.faults };

    fn names(&mut self, alloc: Global) -> Result<Vec<Name>, FileFault>
        ensures names { IfOk result (λ names. IsListing names.items (held_by self.old)) }
        ensures same { self.new.changes ≡ self.old.changes }
        ensures call { MakesCall [] self.old self.new result }
        ensures cause { Caused self.old.calls self.new.calls (result ≡ Err FileFault.Failed) }
    {
        self.count_call()?;
        Ok(names_of(alloc, &self.files)?)
    }

    fn length(&mut self, _alloc: Global, name: &Name) -> Result<Option<u64>, FileFault>
        ensures length { IfOk result (λ found.
            found ≡ option_map length (get (held_by self.old) name.now)) }
        ensures same { self.new.changes ≡ self.old.changes }
        ensures call { MakesCall [] self.old self.new result }
        ensures cause { Caused self.old.calls self.new.calls (result ≡ Err FileFault.Failed) }
    {
        self.count_call()?;
        let bytes = bytes_at(&self.files, name);
        Ok(bytes.map(|bytes| bytes.len() as u64))
    }

    fn read_at(
        &mut self,
        _alloc: Global,
        name: &Name,
        at: u64,
        into: &mut [u8],
    ) -> Result<Option<usize>, FileFault>
        requires { 0 < length into.old }
        ensures bytes { IfOk result (λ count.
            ReadsFile (get (held_by self.old) name.now) at count into.old into.new) }
        ensures same { self.new.changes ≡ self.old.changes }
        ensures call { MakesCall [] self.old self.new result }
        ensures cause { Caused self.old.calls self.new.calls (result ≡ Err FileFault.Failed) }
    {
        self.count_call()?;
        match bytes_at(&self.files, name) {
            None => Ok(None),
            Some(bytes) => Ok(Some(read_part(bytes, at, into))),
        }
    }

    fn make(&mut self, alloc: Global, name: &Name) -> Result<(), FileFault>
        ensures files { ChangesBy (made name.now) self.old self.new result }
        ensures call { MakesCall (Made name.now ∷ []) self.old self.new result }
        ensures cause { Caused self.old.calls self.new.calls (result ≡ Err FileFault.Failed) }
    {
        self.call(alloc, Change::Made(*name))
    }

    fn append(&mut self, alloc: Global, name: &Name, bytes: &[u8]) -> Result<(), FileFault>
        ensures files { ChangesBy (appended name.now bytes.now) self.old self.new result }
        ensures call { MakesCall (Appended name.now bytes.now ∷ []) self.old self.new result }
        ensures cause { Caused self.old.calls self.new.calls (result ≡ Err FileFault.Failed) }
    {
        self.count_call()?;
        self.append_copy(alloc, name, bytes)?;
        Ok(())
    }

    fn rename(&mut self, alloc: Global, from: &Name, to: &Name) -> Result<bool, FileFault>
        ensures found { IfOk result (λ found. found ≡ is_some (get (held_by self.old) from.now)) }
        ensures files { ChangesBy (renamed from.now to.now) self.old self.new result }
        ensures call { MakesCall (if result_unwrap_or result false then Renamed from.now to.now ∷ [] else [])
            self.old self.new result }
        ensures cause { Caused self.old.calls self.new.calls (result ≡ Err FileFault.Failed) }
    {
        if bytes_at(&self.files, from).is_none() {
            self.count_call()?;
            return Ok(false);
        }
        self.call(alloc, Change::Renamed(*from, *to))?;
        Ok(true)
    }

    fn delete(&mut self, alloc: Global, name: &Name) -> Result<bool, FileFault>
        ensures found { IfOk result (λ found. found ≡ is_some (get (held_by self.old) name.now)) }
        ensures files { ChangesBy (deleted name.now) self.old self.new result }
        ensures call { MakesCall (if result_unwrap_or result false then Deleted name.now ∷ [] else [])
            self.old self.new result }
        ensures cause { Caused self.old.calls self.new.calls (result ≡ Err FileFault.Failed) }
    {
        if bytes_at(&self.files, name).is_none() {
            self.count_call()?;
            return Ok(false);
        }
        self.call(alloc, Change::Deleted(*name))?;
        Ok(true)
    }
}
