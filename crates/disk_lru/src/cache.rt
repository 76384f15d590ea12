// A disk cache without its past.
ghost use Rattle.std.specs.Prelude.{◌≡◌, ◌⊎◌, ◌+◌, ◌<◌, ◌≤◌, ◌^◌, ◌++◌, ℕ, length, List, [], Bool, true, false, Ok, Some, None, Err, IsOk, IsErr, IsSome, IfOk, IfSome, is_err, is_some, set};
ghost use Rattle.std.specs.Option.{option_map};
ghost use Rattle.std.specs.FinMap.{get};
ghost use Rattle.outside.specs.Causes.{HasCause};
ghost use Rattle.disk_table.specs.UseOrder.{IsOnce, is_known, without, used};
ghost use Rattle.disk_table.specs.Table.{edit_of, free_edit, is_full_for, eldest_over};
ghost use Rattle.cache_folder.specs.Images.{IfKnown};
ghost use Rattle.cache_folder.specs.Offered.{value_name, edit_name};
ghost use Rattle.cache_folder.specs.Steps.{answer_at};
ghost use Rattle.cache_folder.specs.Sound.{text_at};
ghost use Rattle.cache_folder.specs.Tables.{kept, len_at, edit_at, is_offered, begun, committed, aborted, grown_edit};
ghost use Rattle.disk_lru.specs.State.{CacheState, entries, edits, list_of, Offers, AnswersFor, IsSettled};
ghost use Rattle.disk_lru.specs.Calls.{Steps, no_steps, begin_steps, commit_steps, abort_steps, use_steps, drop_steps, CallOn, StillAnswers, Makes, Fails, Stays, Forgets, ClosesEdit, Unchanged};
ghost use Rattle.disk_lru.specs.Trims.{AddsNoOther};
ghost use Rattle.disk_lru.specs.Staying.{HasEntry};
ghost use Rattle.disk_lru.specs.inside.Kept.{Keeps};
ghost use Rattle.disk_lru.specs.inside.Rebuilds.{Rebuilds, Took};

use crate::edit::Edit;
use crate::refusals::DiskFault;
use cache_folder::{CacheTable, calls_keep_others, reading, rebuild, steps};
use journal_lines::Key;
use outside::{FileFault, Files};
use std::alloc::Global;
use std::marker::Model;
use std::snapshot::Snapshot;

/// The files of a disk cache with its table.
#[derive(Drop)]
pub struct OpenCache<F: Files> {
    files: F,
    table: CacheTable,
    maximum: u64,
    due: bool,
}

impl<F: Files> Model for OpenCache<F> {
    ghost use Rattle.std.specs.Coded.{codes};
    ghost use Rattle.disk_lru.specs.State.{CacheState, folder_code};
    ghost use Rattle.disk_lru.specs.inside.Kept.{Keeps};

    ghost Value = { CacheState };

    ghost coded = { Prim.hlevel (codes, folder_code) };

    ghost view = { λ s. record {
      history = F.history s.files;
      faults = F.faults s.files;
      table =
          s.table;
      maximum = s.maximum;
      due = s.due;
    } };

    ghost invariant = { λ s. Keeps (F.history s.files) s.table s.due };
}

impl<F: Files> OpenCache<F> {
    /// Files with the table of their entries.
    pub fn of_parts(files: F, table: CacheTable, maximum: u64, due: bool) -> OpenCache<F>
        requires { Keeps (F.history files) table due }
        ensures { result ≡ record {
          history = F.history files;
          faults = F.faults files;
          table = table;
          maximum = maximum;
          due = due;
        } }
    {
        OpenCache {
            files,
            table,
            maximum,
            due,
        }
    }

    // Writes a new journal of the table.
    fn new_journal(&mut self, alloc: Global) -> Result<(), FileFault>
        ensures rebuilds { Rebuilds self.old self.new }
        ensures ready { IsOk result → self.new.due ≡ false }
        ensures settled { IsOk result → IsSettled self.new }
        ensures offers_now { IsOk result → IfKnown self.new.history (λ k. Offers k.held self.new) }
        ensures failed { IsErr result → self.new.due ≡ true }
        ensures cause { HasCause self.old.faults self.new.faults (result ≡ Err FileFault.Failed) }
    {
        calls_keep_others();
        self.due = true;
        rebuild::rebuild(alloc, &mut self.files, &self.table)?;
        self.table.rebuilt();
        self.due = false;
        Ok(())
    }

    // Writes a new journal where a failure made it due.
    fn rebuild_due(&mut self, alloc: Global) -> Result<(), FileFault>
        ensures rebuilds { Rebuilds self.old self.new }
        ensures ready { IsOk result → self.new.due ≡ false }
        ensures failed { IsErr result → self.new.due ≡ true }
        ensures cause { HasCause self.old.faults self.new.faults (result ≡ Err FileFault.Failed) }
    {
        if !self.due {
            return Ok(());
        }
        self.new_journal(alloc)
    }

    // Forgets the key of a call that failed.
    fn fail(&mut self, key: &Key)
        ensures forgets { Forgets key.now self.old self.new }
        ensures files { (self.new.history ≡ self.old.history) × (self.new.faults ≡ self.old.faults) }
        ensures maximum { self.new.maximum ≡ self.old.maximum }
    {
        calls_keep_others();
        self.table.forget(key);
        self.due = true;
    }

    // Rebuilds the journal where a failure made it due; and where that fails, forgets the key.
    fn ready(&mut self, alloc: Global, key: &Key) -> Result<(), FileFault>
        ensures ok { IsOk result → Rebuilds self.old self.new × (self.new.due ≡ false) }
        ensures fails { IsErr result → (meant : Steps) → Fails key.now meant self.old self.new }
        ensures maximum { self.new.maximum ≡ self.old.maximum }
        ensures cause { HasCause self.old.faults self.new.faults (result ≡ Err FileFault.Failed) }
    {
        calls_keep_others();
        let result = self.rebuild_due(alloc);
        if result.is_err() {
            self.fail(key);
        }
        result
    }

    /// Rebuilds the journal where its lines have become too many. Where that fails it is due before the next call's first write.
    pub fn settle(&mut self, alloc: Global)
        ensures rebuilds { Rebuilds self.old self.new }
        ensures settled { IsSettled self.new }
    {
        if self.table.due() {
            let _ = self.new_journal(alloc);
        }
    }

    // Begins an edit of the key, where no rebuild is due.
    fn begin_now(&mut self, alloc: Global, key: &Key) -> Result<u64, FileFault>
        requires ready { self.old.due ≡ false }
        requires closed { edit_of key.now (edits self.old) ≡ None }
        requires room { is_full_for key.now self.old.table.table ≡ false }
        ensures ok { IsOk result → entries self.new ≡ begun key.now (entries self.old) }
        ensures edits { IfOk result (λ number. edits self.new ≡ set (edits self.old) number
            (Some key.now)) }
        ensures free { IfOk result (λ number. free_edit (edits self.old) ≡ Some number) }
        ensures open { IfOk result (λ number. edit_of key.now (edits self.new) ≡ Some number) }
        ensures within { IfOk result (λ number. number < 16) }
        ensures empty { IsOk result → IfKnown self.new.history
            (λ k. text_at k.held (edit_name key.now) ≡ []) }
        ensures took { IsOk result → Took key.now (begin_steps key.now) self.old self.new }
        ensures fails { IsErr result → Fails key.now (begin_steps key.now) self.old self.new }
        ensures maximum { self.new.maximum ≡ self.old.maximum }
        ensures cause { HasCause self.old.faults self.new.faults (result ≡ Err FileFault.Failed) }
    {
        calls_keep_others();
        let before = Snapshot::of(&self.table);
        match self.table.begin(key) {
            Ok(number) => match steps::begin(alloc, &mut self.files, key, &before) {
                Ok(()) => Ok(number),
                Err(fault) => {
                    self.table.forget(key);
                    self.due = true;
                    Err(fault)
                }
            },
            Err(_) => {
                self.table.forget(key);
                self.due = true;
                Err(FileFault::Memory)
            }
        }
    }

    // Ends the edit of the key, where no rebuild is due.
    fn commit_now(&mut self, alloc: Global, key: &Key, number: u64) -> Result<(), FileFault>
        requires ready { self.old.due ≡ false }
        requires open { edit_of key.now (edits self.old) ≡ Some number }
        ensures ok { IsOk result → (n : ℕ) → edit_at key.now (entries self.old) ≡ Some n
            → entries self.new ≡ committed key.now n (entries self.old) }
        ensures edit { ClosesEdit key.now self.old self.new }
        ensures took { IsOk result → Took key.now (commit_steps key.now) self.old self.new }
        ensures fails { IsErr result → Fails key.now (commit_steps key.now) self.old self.new }
        ensures maximum { self.new.maximum ≡ self.old.maximum }
        ensures cause { HasCause self.old.faults self.new.faults (result ≡ Err FileFault.Failed) }
    {
        calls_keep_others();
        let written = self.table.written_by(number, key);
        match steps::commit(alloc, &mut self.files, key, written, &self.table) {
            Ok(()) => {
                self.table.commit(number, key, written);
                Ok(())
            }
            Err(fault) => {
                self.table.forget(key);
                self.due = true;
                Err(fault)
            }
        }
    }

    // Gives the edit of the key up, where no rebuild is due.
    fn abort_now(&mut self, alloc: Global, key: &Key, number: u64) -> Result<(), FileFault>
        requires ready { self.old.due ≡ false }
        requires open { edit_of key.now (edits self.old) ≡ Some number }
        ensures ok { IsOk result → entries self.new ≡ aborted (len_at key.now (entries self.old))
            key.now (entries self.old) }
        ensures edit { ClosesEdit key.now self.old self.new }
        ensures took { IsOk result → Took key.now (abort_steps key.now self.old) self.old self.new }
        ensures fails { IsErr result → Fails key.now (abort_steps key.now self.old) self.old self.new }
        ensures maximum { self.new.maximum ≡ self.old.maximum }
        ensures cause { HasCause self.old.faults self.new.faults (result ≡ Err FileFault.Failed) }
    {
        calls_keep_others();
        let _written = self.table.written_by(number, key);
        let old = self.table.clean(key);
        match steps::abort(alloc, &mut self.files, key, old, &self.table) {
            Ok(()) => {
                self.table.abort(number, key, old);
                Ok(())
            }
            Err(fault) => {
                self.table.forget(key);
                self.due = true;
                Err(fault)
            }
        }
    }

    // Adds bytes to the edit of the key, where no rebuild is due.
    fn write_now(
        &mut self,
        alloc: Global,
        key: &Key,
        number: u64,
        bytes: &[u8],
    ) -> Result<(), FileFault>
        requires ready { self.old.due ≡ false }
        requires within { number < 16 }
        requires open { edit_of key.now (edits self.old) ≡ Some number }
        requires small { (n : ℕ) → edit_at key.now (entries self.old) ≡ Some n
            → n + length bytes.now < 2 ^ 40 }
        ensures ok { IsOk result → (n : ℕ) → edit_at key.now (entries self.old) ≡ Some n
            → entries self.new ≡ grown_edit key.now (n + length bytes.now) (entries self.old) }
        ensures edits { IsOk result → edits self.new ≡ edits self.old }
        ensures took { IsOk result → Took key.now no_steps self.old self.new }
        ensures fails { IsErr result → Fails key.now no_steps self.old self.new }
        ensures text { IsOk result → IfKnown self.old.history
            (λ h. IfKnown self.new.history (λ k. text_at k.held (edit_name key.now) ≡ text_at h.held
            (edit_name key.now) ++ bytes.now)) }
        ensures maximum { self.new.maximum ≡ self.old.maximum }
        ensures cause { HasCause self.old.faults self.new.faults (result ≡ Err FileFault.Failed) }
    {
        calls_keep_others();
        let written = self.table.written_by(number, key);
        match steps::write(alloc, &mut self.files, key, written, bytes, &self.table) {
            Ok(()) => {
                self.table.grow(number, key, written + bytes.len() as u64);
                Ok(())
            }
            Err(fault) => {
                self.table.forget(key);
                self.due = true;
                Err(fault)
            }
        }
    }

    // Takes the entry of the key out, where no rebuild is due.
    fn remove_now(&mut self, alloc: Global, key: &Key) -> Result<(), FileFault>
        requires ready { self.old.due ≡ false }
        requires known { is_known key.now (entries self.old) ≡ true }
        ensures ok { IsOk result → entries self.new ≡ without key.now (entries self.old) }
        ensures edit { ClosesEdit key.now self.old self.new }
        ensures took { IsOk result → Took key.now (drop_steps key.now) self.old self.new }
        ensures fails { IsErr result → Fails key.now (drop_steps key.now) self.old self.new }
        ensures maximum { self.new.maximum ≡ self.old.maximum }
        ensures cause { HasCause self.old.faults self.new.faults (result ≡ Err FileFault.Failed) }
    {
        calls_keep_others();
        match steps::remove(alloc, &mut self.files, key, &self.table) {
            Ok(()) => {
                self.table.forget(key);
                Ok(())
            }
            Err(fault) => {
                self.table.forget(key);
                self.due = true;
                Err(fault)
            }
        }
    }

    // Takes the entry of a key out that has to go, where no rebuild is due. Where that fails the key stays.
    fn trim_now(&mut self, alloc: Global, key: &Key) -> Result<(), FileFault>
        requires ready { self.old.due ≡ false }
        requires known { is_known key.now (entries self.old) ≡ true }
        ensures ok { IsOk result → entries self.new ≡ without key.now (entries self.old) }
        ensures edit { IsOk result → ClosesEdit key.now self.old self.new }
        ensures files { IsOk result → AddsNoOther self.old self.new }
        ensures took { IsOk result → Took key.now (drop_steps key.now) self.old self.new }
        ensures stays { IsErr result → Stays key.now self.old self.new }
        ensures due { IsErr result → self.new.due ≡ true }
        ensures maximum { self.new.maximum ≡ self.old.maximum }
        ensures cause { HasCause self.old.faults self.new.faults (result ≡ Err FileFault.Failed) }
    {
        calls_keep_others();
        match steps::remove(alloc, &mut self.files, key, &self.table) {
            Ok(()) => {
                self.table.forget(key);
                Ok(())
            }
            Err(fault) => {
                self.due = true;
                Err(fault)
            }
        }
    }

    // Uses the entry of the key, where no rebuild is due.
    fn touch_now(&mut self, alloc: Global, key: &Key) -> Result<(), FileFault>
        requires ready { self.old.due ≡ false }
        requires known { is_known key.now (entries self.old) ≡ true }
        ensures ok { IsOk result → entries self.new ≡ used key.now (entries self.old) }
        ensures edits { IsOk result → edits self.new ≡ edits self.old }
        ensures took { IsOk result → Took key.now (use_steps key.now) self.old self.new }
        ensures fails { IsErr result → Fails key.now (use_steps key.now) self.old self.new }
        ensures maximum { self.new.maximum ≡ self.old.maximum }
        ensures cause { HasCause self.old.faults self.new.faults (result ≡ Err FileFault.Failed) }
    {
        calls_keep_others();
        match steps::touch(alloc, &mut self.files, key, &self.table) {
            Ok(()) => {
                self.table.touch(key);
                Ok(())
            }
            Err(fault) => {
                self.table.forget(key);
                self.due = true;
                Err(fault)
            }
        }
    }

    // Uses the entry of a known key.
    fn use_entry(&mut self, alloc: Global, key: &Key) -> Result<(), FileFault>
        requires known { is_known key.now (entries self.old) ≡ true }
        ensures ok { IsOk result → entries self.new ≡ used key.now (entries self.old) }
        ensures edits { IsOk result → edits self.new ≡ edits self.old }
        ensures makes { IsOk result → Makes key.now (use_steps key.now) self.old self.new }
        ensures fails { IsErr result → Fails key.now (use_steps key.now) self.old self.new }
        ensures maximum { self.new.maximum ≡ self.old.maximum }
        ensures cause { HasCause self.old.faults self.new.faults (result ≡ Err FileFault.Failed) }
    {
        calls_keep_others();
        self.ready(alloc, key)?;
        self.touch_now(alloc, key)?;
        self.settle(alloc);
        Ok(())
    }

    // The bytes of the key's value, or none where its file is missing.
    fn read_value(&mut self, alloc: Global, key: &Key) -> Result<Option<Vec<u8>>, FileFault>
        ensures same { Unchanged self.old self.new }
        ensures bytes { IfKnown self.old.history (λ h. IfOk result (λ found.
            option_map (λ v. v.items) found ≡ get h.held (value_name key.now))) }
        ensures cause { HasCause self.old.faults self.new.faults (result ≡ Err FileFault.Failed) }
    {
        reading::read(alloc, &mut self.files, key)
    }

    /// Reads the entry of the key, which has a readable value and is not under edit, and uses it. None comes where its file is
    /// missing.
    pub fn get(&mut self, alloc: Global, key: &Key) -> Result<Option<Vec<u8>>, FileFault>
        requires offered { is_offered key.now (entries self.old) ≡ true }
        ensures none { IfOk result (λ found. found ≡ None → Unchanged self.old self.new) }
        ensures bytes { IfKnown self.old.history (λ h. IfOk result (λ found.
            option_map (λ v. v.items) found ≡ get h.held (value_name key.now))) }
        ensures ok { IfOk result (λ found. IsSome found
            → entries self.new ≡ used key.now (entries self.old)) }
        ensures edits { IsOk result → edits self.new ≡ edits self.old }
        ensures makes { IfOk result (λ found.
            IsSome found → Makes key.now (use_steps key.now) self.old self.new) }
        ensures fails { IsErr result → Fails key.now (use_steps key.now) self.old self.new }
        ensures maximum { self.new.maximum ≡ self.old.maximum }
        ensures cause { HasCause self.old.faults self.new.faults (result ≡ Err FileFault.Failed) }
    {
        calls_keep_others();
        match self.read_value(alloc, key) {
            Ok(None) => Ok(None),
            Ok(Some(bytes)) => {
                self.use_entry(alloc, key)?;
                Ok(Some(bytes))
            }
            Err(fault) => {
                self.fail(key);
                Err(fault)
            }
        }
    }

    /// Begins an edit of the key, which has none and for which there is room, and answers its number.
    pub fn begin(&mut self, alloc: Global, key: &Key) -> Result<u64, FileFault>
        requires closed { edit_of key.now (edits self.old) ≡ None }
        requires room { is_full_for key.now self.old.table.table ≡ false }
        ensures ok { IsOk result → entries self.new ≡ begun key.now (entries self.old) }
        ensures edits { IfOk result (λ number. edits self.new ≡ set (edits self.old) number
            (Some key.now)) }
        ensures free { IfOk result (λ number. free_edit (edits self.old) ≡ Some number) }
        ensures open { IfOk result (λ number. edit_of key.now (edits self.new) ≡ Some number) }
        ensures within { IfOk result (λ number. number < 16) }
        ensures empty { IsOk result → IfKnown self.new.history
            (λ k. text_at k.held (edit_name key.now) ≡ []) }
        ensures makes { IsOk result → Makes key.now (begin_steps key.now) self.old self.new }
        ensures fails { IsErr result → Fails key.now (begin_steps key.now) self.old self.new }
        ensures maximum { self.new.maximum ≡ self.old.maximum }
        ensures cause { HasCause self.old.faults self.new.faults (result ≡ Err FileFault.Failed) }
    {
        calls_keep_others();
        self.ready(alloc, key)?;
        let number = self.begin_now(alloc, key)?;
        self.settle(alloc);
        Ok(number)
    }

    /// Takes the entry of a known key out that has to go.
    pub fn trim(&mut self, alloc: Global, key: &Key) -> Result<(), FileFault>
        requires known { is_known key.now (entries self.old) ≡ true }
        ensures ok { IsOk result → entries self.new ≡ without key.now (entries self.old) }
        ensures edits { edit_of key.now (edits self.old) ≡ None → edits self.new ≡ edits self.old }
        ensures files { IsOk result → AddsNoOther self.old self.new }
        ensures makes { IsOk result → Makes key.now (drop_steps key.now) self.old self.new }
        ensures stays { IsErr result → Stays key.now self.old self.new }
        ensures due { IsErr result → self.new.due ≡ true }
        ensures maximum { self.new.maximum ≡ self.old.maximum }
        ensures cause { HasCause self.old.faults self.new.faults (result ≡ Err FileFault.Failed) }
    {
        calls_keep_others();
        self.rebuild_due(alloc)?;
        self.trim_now(alloc, key)?;
        self.settle(alloc);
        Ok(())
    }

    /// The eldest key that is not under edit, where the cache has more than it may.
    pub fn eldest_over(&self) -> Option<Key>
        ensures key { result ≡ eldest_over self.now.maximum self.now.table.table }
        ensures known { IfSome result (λ key. is_known key (entries self.now) ≡ true) }
        ensures closed { IfSome result (λ key. edit_of key (edits self.now) ≡ None) }
    {
        self.table.eldest_over(self.maximum)
    }

    /// Each key has one entry, and there are at most 16,400.
    pub fn keys_are_few(&self)
        ensures once { IsOnce (entries self.now) }
        ensures few { length (entries self.now) ≤ 16400 }
    {
        calls_keep_others();
        let _keys = self.table.keys();
    }

    /// Whether the key has an entry.
    pub fn knows(&self, key: &Key) -> bool
        ensures { result ≡ is_known key.now (entries self.now) }
    {
        self.table.knows(key)
    }

    /// The open edit of the key, by its number.
    pub fn edit_of(&self, key: &Key) -> Option<u64>
        ensures { result ≡ edit_of key.now (edits self.now) }
    {
        self.table.edit_of(key)
    }

    /// Whether there is no room for an edit of the key, which is not under edit.
    pub fn is_full_for(&self, key: &Key) -> bool
        ensures { result ≡ is_full_for key.now self.now.table.table }
    {
        self.table.is_full_for(key)
    }

    /// Ends the edit of the key.
    pub fn commit(&mut self, alloc: Global, key: &Key, number: u64) -> Result<(), FileFault>
        requires open { edit_of key.now (edits self.old) ≡ Some number }
        ensures ok { IsOk result → (n : ℕ) → edit_at key.now (entries self.old) ≡ Some n
            → entries self.new ≡ committed key.now n (entries self.old) }
        ensures edit { ClosesEdit key.now self.old self.new }
        ensures stored { IsOk result → IfKnown self.old.history (λ h. IfKnown self.new.history (λ k.
            HasEntry (key.now, text_at h.held (edit_name key.now)) k.held self.new)) }
        ensures makes { IsOk result → Makes key.now (commit_steps key.now) self.old self.new }
        ensures fails { IsErr result → Fails key.now (commit_steps key.now) self.old self.new }
        ensures maximum { self.new.maximum ≡ self.old.maximum }
        ensures cause { HasCause self.old.faults self.new.faults (result ≡ Err FileFault.Failed) }
    {
        calls_keep_others();
        self.ready(alloc, key)?;
        self.commit_now(alloc, key, number)?;
        self.settle(alloc);
        Ok(())
    }

    /// Gives the edit of the key up.
    pub fn abort(&mut self, alloc: Global, key: &Key, number: u64) -> Result<(), FileFault>
        requires open { edit_of key.now (edits self.old) ≡ Some number }
        ensures ok { IsOk result → entries self.new ≡ aborted (len_at key.now (entries self.old))
            key.now (entries self.old) }
        ensures edit { ClosesEdit key.now self.old self.new }
        ensures makes { IsOk result → Makes key.now (abort_steps key.now self.old) self.old self.new }
        ensures fails { IsErr result → Fails key.now (abort_steps key.now self.old) self.old self.new }
        ensures maximum { self.new.maximum ≡ self.old.maximum }
        ensures cause { HasCause self.old.faults self.new.faults (result ≡ Err FileFault.Failed) }
    {
        calls_keep_others();
        self.ready(alloc, key)?;
        self.abort_now(alloc, key, number)?;
        self.settle(alloc);
        Ok(())
    }

    /// Takes the entry of the key out.
    pub fn remove(&mut self, alloc: Global, key: &Key) -> Result<(), FileFault>
        requires known { is_known key.now (entries self.old) ≡ true }
        ensures ok { IsOk result → entries self.new ≡ without key.now (entries self.old) }
        ensures edit { ClosesEdit key.now self.old self.new }
        ensures makes { IsOk result → Makes key.now (drop_steps key.now) self.old self.new }
        ensures fails { IsErr result → Fails key.now (drop_steps key.now) self.old self.new }
        ensures maximum { self.new.maximum ≡ self.old.maximum }
        ensures cause { HasCause self.old.faults self.new.faults (result ≡ Err FileFault.Failed) }
    {
        calls_keep_others();
        self.ready(alloc, key)?;
        self.remove_now(alloc, key)?;
        self.settle(alloc);
        Ok(())
    }

    /// Adds bytes to the edit of the key.
    pub fn write(
        &mut self,
        alloc: Global,
        key: &Key,
        number: u64,
        bytes: &[u8],
    ) -> Result<(), FileFault>
        requires within { number < 16 }
        requires open { edit_of key.now (edits self.old) ≡ Some number }
        requires small { (n : ℕ) → edit_at key.now (entries self.old) ≡ Some n
            → n + length bytes.now < 2 ^ 40 }
        ensures ok { IsOk result → (n : ℕ) → edit_at key.now (entries self.old) ≡ Some n
            → entries self.new ≡ grown_edit key.now (n + length bytes.now) (entries self.old) }
        ensures edits { IsOk result → edits self.new ≡ edits self.old }
        ensures text { IsOk result → IfKnown self.old.history
            (λ h. IfKnown self.new.history (λ k. text_at k.held (edit_name key.now) ≡ text_at h.held
            (edit_name key.now) ++ bytes.now)) }
        ensures makes { IsOk result → Makes key.now no_steps self.old self.new }
        ensures fails { IsErr result → Fails key.now no_steps self.old self.new }
        ensures maximum { self.new.maximum ≡ self.old.maximum }
        ensures cause { HasCause self.old.faults self.new.faults (result ≡ Err FileFault.Failed) }
    {
        calls_keep_others();
        self.ready(alloc, key)?;
        self.write_now(alloc, key, number, bytes)?;
        self.settle(alloc);
        Ok(())
    }

    /// Whether the key has a readable value and is not under edit.
    pub fn has(&self, key: &Key) -> bool
        ensures offered { result ≡ is_offered key.now (entries self.now) }
        ensures list { IfKnown self.now.history (λ k. AnswersFor key.now k.held self.now
            → result ≡ is_some (answer_at key.now (list_of k.held self.now))) }
    {
        calls_keep_others();
        self.table.has(key)
    }

    /// Writes a new journal of the table's entries, the eldest first.
    pub fn rebuild(&mut self, alloc: Global) -> Result<(), FileFault>
        ensures rebuilds { Rebuilds self.old self.new }
        ensures call { (key : List ℕ) → CallOn key no_steps no_steps self.old self.new }
        ensures answers { (any : List ℕ) → StillAnswers any self.old self.new }
        ensures makes { IsOk result → (key : List ℕ) → Makes key no_steps self.old self.new }
        ensures due { IsErr result → self.new.due ≡ true }
        ensures cause { HasCause self.old.faults self.new.faults (result ≡ Err FileFault.Failed) }
    {
        calls_keep_others();
        self.new_journal(alloc)
    }

    /// Hands the files back.
    pub fn into_files(self) -> F
        ensures { (F.history result ≡ self.history) × (F.faults result ≡ self.faults) }
    {
        let OpenCache { files, .. } = self;
        files
    }
}
