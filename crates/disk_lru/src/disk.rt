// A disk cache.
ghost use Rattle.std.specs.Prelude.{◌≡◌, ◌⊎◌, ◌+◌, ◌<◌, ◌≤◌, ◌^◌, ◌++◌, ℕ, length, List, [], Bool, true, false, Ok, Some, None, Err, IsOk, IsErr, IsSome, IsErrOf, IfOk, IfSome, ◌↔◌, is_err, is_some, set, if◌then◌else◌};
ghost use Rattle.std.specs.Option.{option_map};
ghost use Rattle.std.specs.FinMap.{get};
ghost use Rattle.outside.specs.Causes.{HasCause};
ghost use Rattle.disk_table.specs.UseOrder.{IsOnce, is_known, without, used};
ghost use Rattle.disk_table.specs.Table.{edit_of, free_edit, is_full_for, eldest_over};
ghost use Rattle.cache_folder.specs.Images.{IfKnown, WasKnown, Runs};
ghost use Rattle.cache_folder.specs.Offered.{value_name, edit_name, offered};
ghost use Rattle.cache_folder.specs.Steps.{answer_at};
ghost use Rattle.cache_folder.specs.Sound.{text_at};
ghost use Rattle.cache_folder.specs.Tables.{kept, len_at, edit_at, is_offered, begun, committed, aborted, grown_edit};
ghost use Rattle.disk_lru.specs.State.{CacheState, entries, edits, list_of, AnswersFor, IsOpen, IsSettled};
ghost use Rattle.disk_lru.specs.Calls.{Steps, no_steps, begin_steps, commit_steps, abort_steps, use_steps, drop_steps, CallOn, StillAnswers, Makes, Fails, Stays, ClosesEdit, Unchanged};
ghost use Rattle.disk_lru.specs.Faults.{get_acts, begin_acts, begin_failed, remove_acts, remove_failed, trim_acts};
ghost use Rattle.disk_lru.specs.Trims.{Trims, AddsNoOther};
ghost use Rattle.disk_lru.specs.Staying.{HasEntry};
ghost use Rattle.disk_lru.specs.Past.{PastValue, DiskState, Promise, opening, after_calls, at_start, steps_at, after_call};

use crate::cache::OpenCache;
use crate::edit::Edit;
use crate::past::{ListStep, Past, note, started};
use crate::refusals::{BeginRefused, DiskFault, RemoveRefused};
use cache_folder::calls_keep_others;
use journal_lines::Key;
use outside::{FileFault, Files};
use std::alloc::Global;
use std::marker::Model;
use std::snapshot::Snapshot;

/// A disk cache over files. For contracts alone it keeps what it has done since it was started.
#[derive(Drop)]
pub struct DiskLru<F: Files> {
    cache: OpenCache<F>,
    past: Snapshot<Past>,
}

impl<F: Files> Model for DiskLru<F> {
    ghost use Rattle.std.specs.Coded.{codes};
    ghost use Rattle.disk_lru.specs.State.{folder_code};
    ghost use Rattle.disk_lru.specs.Past.{DiskState, Promise};

    ghost Value = { DiskState };

    ghost coded = { Prim.hlevel (codes, folder_code) };

    ghost view = { λ s. record { cache = s.cache; past = s.past.value } };

    ghost invariant = { λ s. Promise (record { cache = s.cache; past = s.past.value }) };
}

impl<F: Files> DiskLru<F> {
    // A cache that was started just now. The snapshot is of the files when `start` was called.
    pub fn of_start(cache: OpenCache<F>, before: &Snapshot<F>) -> DiskLru<F>
        requires known { WasKnown (F.history before.now.value) cache.history }
        requires moments { IfKnown (F.history before.now.value) (λ h.
            Runs (λ c. offered c ≡ offered h.held) h cache.history) }
        requires list { IfKnown (F.history before.now.value) (λ h. IfKnown cache.history (λ k.
            list_of k.held cache ≡ opening h)) }
        requires answers { IfKnown cache.history (λ k. (key : List ℕ) → AnswersFor key k.held cache) }
        ensures cache { result.cache ≡ cache }
        ensures past { result.past ≡ at_start (F.history before.now.value) }
    {
        DiskLru {
            cache,
            past: started(before),
        }
    }

    /// What the files offer at each moment since `start` was called; and that each key has one entry, and there are at most 16,400.
    pub fn promise(&self)
        ensures promise { Promise self.now }
        ensures once { IsOnce (entries self.now.cache) }
        ensures few { length (entries self.now.cache) ≤ 16400 }
    {
        self.cache.keys_are_few();
    }

    /// Whether the key has a readable entry and is not under edit. Where no call has failed, this is what the list of the cache
    /// answers; after a failure too, for each key but one whose eviction failed, since its file may be gone.
    pub fn has(&self, key: &Key) -> bool
        ensures offered { result ≡ is_offered key.now (entries self.now.cache) }
        ensures list { IfKnown self.now.cache.history (λ k. AnswersFor key.now k.held self.now.cache
            → result ≡ is_some (answer_at key.now (list_of k.held self.now.cache))) }
        ensures calls { self.now.past.failed ≡ false → IfKnown self.now.past.entry (λ h.
            result ≡ is_some (answer_at key.now (after_calls (opening h) self.now.past.calls))) }
    {
        calls_keep_others();
        self.cache.has(key)
    }

    // Reads the entry of a key that is offered.
    fn get_offered(&mut self, alloc: Global, key: &Key) -> Result<Option<Vec<u8>>, FileFault>
        requires { is_offered key.now (entries self.old.cache) ≡ true }
        ensures none { IfOk result (λ found. found ≡ None
            → self.new ≡ record self.old {
              cache = record self.old.cache
                  { faults = self.new.cache.faults };
            }) }
        ensures bytes { IfKnown self.old.cache.history (λ h. IfOk result (λ found.
            option_map (λ v. v.items) found ≡ get h.held (value_name key.now))) }
        ensures ok { IfOk result (λ found. IsSome found
            → entries self.new.cache ≡ used key.now (entries self.old.cache)) }
        ensures edits { IsOk result → edits self.new.cache ≡ edits self.old.cache }
        ensures makes { IfOk result (λ found. IsSome found
            → Makes key.now (use_steps key.now) self.old.cache self.new.cache) }
        ensures fails { IsErr result → Fails key.now (use_steps key.now) self.old.cache self.new.cache }
        ensures past { IfOk result (λ found. IsSome found
            → self.new.past ≡ after_call (steps_at self.old.cache.history (use_steps key.now)) false
            self.old.past) }
        ensures past_err { IsErr result
            → self.new.past ≡ after_call (steps_at self.old.cache.history (use_steps key.now)) true
            self.old.past }
        ensures maximum { self.new.cache.maximum ≡ self.old.cache.maximum }
        ensures cause { HasCause self.old.cache.faults self.new.cache.faults
            (result ≡ Err FileFault.Failed) }
    {
        let before = Snapshot::of(&self.cache);
        match self.cache.get(alloc, key) {
            Ok(None) => Ok(None),
            Ok(Some(bytes)) => {
                note(&mut self.past, before, ListStep::Use(*key), false);
                Ok(Some(bytes))
            }
            Err(fault) => {
                note(&mut self.past, before, ListStep::Use(*key), true);
                Err(fault)
            }
        }
    }

    /// Reads the entry of the key: its file, and then the journal gets a line READ and the key is the most recent. None comes
    /// exactly where the key has no readable value, is under edit, or its file is missing; then nothing has changed. Where a
    /// failure made a rebuild due, that comes after the reads and before the line.
    pub fn get(&mut self, alloc: Global, key: &Key) -> Result<Option<Vec<u8>>, DiskFault>
        ensures bytes { IfKnown self.old.cache.history
            (λ h. IfOk result (λ found. option_map (λ v. v.items) found
            ≡ (if is_offered key.now (entries self.old.cache) then get h.held (value_name key.now)
            else None))) }
        ensures list { IfKnown self.old.cache.history (λ h. IfOk result (λ found.
            option_map (λ v. v.items) found ≡ answer_at key.now (list_of h.held self.old.cache))) }
        ensures calls { self.old.past.failed ≡ false → IfKnown self.old.past.entry (λ h. IfOk result (λ found.
            option_map (λ v. v.items) found
            ≡ answer_at key.now (after_calls (opening h) self.old.past.calls))) }
        ensures offered { IfOk result (λ found. IsSome found
            → is_offered key.now (entries self.old.cache) ≡ true) }
        ensures none { IfOk result (λ found. found ≡ None
            → self.new ≡ record self.old {
              cache = record self.old.cache
                  { faults = self.new.cache.faults };
            }) }
        ensures ok { IfOk result (λ found. IsSome found
            → entries self.new.cache ≡ used key.now (entries self.old.cache)) }
        ensures edits { IsOk result → edits self.new.cache ≡ edits self.old.cache }
        ensures makes { IfOk result (λ found. IsSome found
            → Makes key.now (use_steps key.now) self.old.cache self.new.cache) }
        ensures err { IsErr result → is_offered key.now (entries self.old.cache) ≡ true }
        ensures fails { IsErr result → Fails key.now (use_steps key.now) self.old.cache self.new.cache }
        ensures past { IfOk result (λ found. IsSome found
            → self.new.past ≡ after_call (steps_at self.old.cache.history (use_steps key.now)) false
            self.old.past) }
        ensures past_err { IsErr result
            → self.new.past ≡ after_call (steps_at self.old.cache.history (use_steps key.now)) true
            self.old.past }
        ensures maximum { self.new.cache.maximum ≡ self.old.cache.maximum }
        ensures cause { HasCause self.old.cache.faults self.new.cache.faults
            (result ≡ Err DiskFault.Failed) }
    {
        calls_keep_others();
        if !self.cache.has(key) {
            return Ok(None);
        }
        let found = self.get_offered(alloc, key)?;
        Ok(found)
    }

    // Begins an edit of the key, which has none and for which there is room.
    fn begin_edit(&mut self, alloc: Global, key: &Key) -> Result<Edit, FileFault>
        requires closed { edit_of key.now (edits self.old.cache) ≡ None }
        requires room { is_full_for key.now self.old.cache.table.table ≡ false }
        ensures key { IfOk result (λ edit. edit.key ≡ key.now) }
        ensures open { IfOk result (λ edit. IsOpen edit self.new.cache) }
        ensures free { IfOk result (λ edit. free_edit (edits self.old.cache) ≡ Some edit.number) }
        ensures edits { IfOk result (λ edit.
            edits self.new.cache ≡ set (edits self.old.cache) edit.number (Some key.now)) }
        ensures ok { IsOk result → entries self.new.cache ≡ begun key.now (entries self.old.cache) }
        ensures empty { IsOk result
            → IfKnown self.new.cache.history (λ k. text_at k.held (edit_name key.now) ≡ []) }
        ensures makes { IsOk result → Makes key.now (begin_steps key.now) self.old.cache
            self.new.cache }
        ensures fails { IsErr result → Fails key.now (begin_steps key.now) self.old.cache
            self.new.cache }
        ensures past { self.new.past ≡ after_call
            (steps_at self.old.cache.history (begin_steps key.now))
            (is_err result) self.old.past }
        ensures maximum { self.new.cache.maximum ≡ self.old.cache.maximum }
        ensures cause { HasCause self.old.cache.faults self.new.cache.faults
            (result ≡ Err FileFault.Failed) }
    {
        let before = Snapshot::of(&self.cache);
        let result = self.cache.begin(alloc, key);
        note(
            &mut self.past,
            before,
            ListStep::Begin(*key),
            result.is_err(),
        );
        let number = result?;
        Ok(Edit::open(key, number))
    }

    /// Begins an edit of the key, with no bytes: the journal gets a line DIRTY, and then its file is made. Until the edit is
    /// ended a stop loses what was readable of the key. Busy comes exactly where the key is under edit; TooMany exactly where
    /// it is not, and 16 edits are open or there are 16,400 keys and this one is new.
    pub fn begin(&mut self, alloc: Global, key: &Key) -> Result<Edit, BeginRefused>
        ensures busy { (number : ℕ) → IsErrOf result (BeginRefused.Busy number) ↔
            (edit_of key.now (edits self.old.cache) ≡ Some number) }
        ensures too_many { IsErrOf result BeginRefused.TooMany ↔
            (is_full_for key.now self.old.cache.table.table ≡ true) }
        ensures idle { begin_acts result ≡ false → self.new ≡ self.old }
        ensures key { IfOk result (λ edit. edit.key ≡ key.now) }
        ensures open { IfOk result (λ edit. IsOpen edit self.new.cache) }
        ensures free { IfOk result (λ edit. free_edit (edits self.old.cache) ≡ Some edit.number) }
        ensures edits { IfOk result (λ edit.
            edits self.new.cache ≡ set (edits self.old.cache) edit.number (Some key.now)) }
        ensures ok { IsOk result → entries self.new.cache ≡ begun key.now (entries self.old.cache) }
        ensures empty { IsOk result
            → IfKnown self.new.cache.history (λ k. text_at k.held (edit_name key.now) ≡ []) }
        ensures makes { IsOk result → Makes key.now (begin_steps key.now) self.old.cache
            self.new.cache }
        ensures fails { begin_failed result ≡ true
            → Fails key.now (begin_steps key.now) self.old.cache self.new.cache }
        ensures past { begin_acts result ≡ true
            → self.new.past ≡ after_call (steps_at self.old.cache.history (begin_steps key.now))
            (is_err result) self.old.past }
        ensures maximum { self.new.cache.maximum ≡ self.old.cache.maximum }
        ensures cause { HasCause self.old.cache.faults self.new.cache.faults
            (result ≡ Err BeginRefused.Failed) }
    {
        if let Some(number) = self.cache.edit_of(key) {
            return Err(BeginRefused::Busy(number));
        }
        if self.cache.is_full_for(key) {
            return Err(BeginRefused::TooMany);
        }
        let edit = self.begin_edit(alloc, key)?;
        Ok(edit)
    }

    /// Ends the edit with the bytes that were written to it: its file takes the name of the entry's, and the journal gets a line
    /// CLEAN. Where a failure made a rebuild due, that comes first; one that is due by the number of lines comes last.
    pub fn commit(&mut self, alloc: Global, edit: Edit) -> Result<(), DiskFault>
        requires { IsOpen edit self.old.cache }
        ensures ok { IsOk result → (n : ℕ) → edit_at edit.key (entries self.old.cache) ≡ Some n
            → entries self.new.cache ≡ committed edit.key n (entries self.old.cache) }
        ensures edit { ClosesEdit edit.key self.old.cache self.new.cache }
        ensures stored { IsOk result → IfKnown self.old.cache.history (λ h.
            IfKnown self.new.cache.history (λ k.
            HasEntry (edit.key, text_at h.held (edit_name edit.key)) k.held self.new.cache)) }
        ensures makes { IsOk result → Makes edit.key (commit_steps edit.key) self.old.cache
            self.new.cache }
        ensures fails { IsErr result → Fails edit.key (commit_steps edit.key) self.old.cache
            self.new.cache }
        ensures past { self.new.past ≡ after_call
            (steps_at self.old.cache.history (commit_steps edit.key))
            (is_err result) self.old.past }
        ensures maximum { self.new.cache.maximum ≡ self.old.cache.maximum }
        ensures cause { HasCause self.old.cache.faults self.new.cache.faults
            (result ≡ Err DiskFault.Failed) }
    {
        let (key, number, _) = edit.into_parts();
        let before = Snapshot::of(&self.cache);
        let result = self.cache.commit(alloc, &key, number);
        note(
            &mut self.past,
            before,
            ListStep::Commit(key),
            result.is_err(),
        );
        result?;
        Ok(())
    }

    /// Adds bytes to the edit. A call that fails closes it.
    pub fn write(&mut self, alloc: Global, edit: &mut Edit, bytes: &[u8]) -> Result<(), DiskFault>
        requires open { IsOpen edit.old self.old.cache }
        requires small { (n : ℕ) → edit_at edit.old.key (entries self.old.cache) ≡ Some n
            → n + length bytes.now < 2 ^ 40 }
        ensures token { edit.new ≡ record edit.old { closed = is_err result } }
        ensures ok { IsOk result → (n : ℕ) → edit_at edit.old.key (entries self.old.cache) ≡ Some n
            → entries self.new.cache ≡ grown_edit edit.old.key (n + length bytes.now)
            (entries self.old.cache) }
        ensures edits { IsOk result → edits self.new.cache ≡ edits self.old.cache }
        ensures text { IsOk result → IfKnown self.old.cache.history
            (λ h. IfKnown self.new.cache.history (λ k.
            text_at k.held (edit_name edit.old.key) ≡ text_at h.held (edit_name edit.old.key) ++ bytes.now)) }
        ensures makes { IsOk result → Makes edit.old.key no_steps self.old.cache self.new.cache }
        ensures fails { IsErr result → Fails edit.old.key no_steps self.old.cache self.new.cache }
        ensures past { self.new.past ≡ after_call (steps_at self.old.cache.history no_steps)
            (is_err result) self.old.past }
        ensures maximum { self.new.cache.maximum ≡ self.old.cache.maximum }
        ensures cause { HasCause self.old.cache.faults self.new.cache.faults
            (result ≡ Err DiskFault.Failed) }
    {
        let key = *edit.key();
        let number = edit.number();
        let before = Snapshot::of(&self.cache);
        let result = self.cache.write(alloc, &key, number, bytes);
        note(&mut self.past, before, ListStep::Nothing, result.is_err());
        if result.is_err() {
            edit.close();
        }
        result?;
        Ok(())
    }

    /// Gives the edit up: its file goes, and the journal gets a line CLEAN with the length of what was readable, or REMOVE. An
    /// edit that a failed write closed is given up already.
    pub fn abort(&mut self, alloc: Global, edit: Edit) -> Result<(), DiskFault>
        requires { edit.closed ≡ false → IsOpen edit self.old.cache }
        ensures closed { edit.closed ≡ true → IsOk result × (self.new ≡ self.old) }
        ensures ok { edit.closed ≡ false → IsOk result → entries self.new.cache
            ≡ aborted (len_at edit.key (entries self.old.cache)) edit.key (entries self.old.cache) }
        ensures edit { edit.closed ≡ false → ClosesEdit edit.key self.old.cache self.new.cache }
        ensures makes { edit.closed ≡ false → IsOk result
            → Makes edit.key (abort_steps edit.key self.old.cache) self.old.cache self.new.cache }
        ensures fails { IsErr result
            → Fails edit.key (abort_steps edit.key self.old.cache) self.old.cache self.new.cache }
        ensures past { edit.closed ≡ false → self.new.past
            ≡ after_call (steps_at self.old.cache.history (abort_steps edit.key self.old.cache))
            (is_err result) self.old.past }
        ensures maximum { self.new.cache.maximum ≡ self.old.cache.maximum }
        ensures cause { HasCause self.old.cache.faults self.new.cache.faults
            (result ≡ Err DiskFault.Failed) }
    {
        let (key, number, closed) = edit.into_parts();
        if closed {
            return Ok(());
        }
        let before = Snapshot::of(&self.cache);
        let result = self.cache.abort(alloc, &key, number);
        note(
            &mut self.past,
            before,
            ListStep::Abort(key),
            result.is_err(),
        );
        result?;
        Ok(())
    }

    // Takes the entry of a known key out.
    fn remove_known(&mut self, alloc: Global, key: &Key) -> Result<(), FileFault>
        requires { is_known key.now (entries self.old.cache) ≡ true }
        ensures ok { IsOk result → entries self.new.cache ≡ without key.now (entries self.old.cache) }
        ensures edit { ClosesEdit key.now self.old.cache self.new.cache }
        ensures makes { IsOk result → Makes key.now (drop_steps key.now) self.old.cache self.new.cache }
        ensures fails { IsErr result → Fails key.now (drop_steps key.now) self.old.cache
            self.new.cache }
        ensures past { self.new.past ≡ after_call (steps_at self.old.cache.history (drop_steps key.now))
            (is_err result) self.old.past }
        ensures maximum { self.new.cache.maximum ≡ self.old.cache.maximum }
        ensures cause { HasCause self.old.cache.faults self.new.cache.faults
            (result ≡ Err FileFault.Failed) }
    {
        let before = Snapshot::of(&self.cache);
        let result = self.cache.remove(alloc, key);
        note(
            &mut self.past,
            before,
            ListStep::Drop(*key),
            result.is_err(),
        );
        result
    }

    /// Takes the entry of the key out: its file goes, and the journal gets a line REMOVE. False comes exactly where the key has
    /// no entry, and Busy exactly where it is under edit.
    pub fn remove(&mut self, alloc: Global, key: &Key) -> Result<bool, RemoveRefused>
        ensures busy { (number : ℕ) → IsErrOf result (RemoveRefused.Busy number) ↔
            (edit_of key.now (edits self.old.cache) ≡ Some number) }
        ensures found { IfOk result (λ removed. removed ≡ is_known key.now (entries self.old.cache)) }
        ensures idle { remove_acts result ≡ false → self.new ≡ self.old }
        ensures ok { result ≡ Ok true → entries self.new.cache ≡ without key.now
            (entries self.old.cache) }
        ensures edits { remove_acts result ≡ true → ClosesEdit key.now self.old.cache self.new.cache }
        ensures makes { result ≡ Ok true → Makes key.now (drop_steps key.now) self.old.cache
            self.new.cache }
        ensures fails { remove_failed result ≡ true
            → Fails key.now (drop_steps key.now) self.old.cache self.new.cache }
        ensures past { remove_acts result ≡ true
            → self.new.past ≡ after_call (steps_at self.old.cache.history (drop_steps key.now))
            (is_err result) self.old.past }
        ensures maximum { self.new.cache.maximum ≡ self.old.cache.maximum }
        ensures cause { HasCause self.old.cache.faults self.new.cache.faults
            (result ≡ Err RemoveRefused.Failed) }
    {
        if let Some(number) = self.cache.edit_of(key) {
            return Err(RemoveRefused::Busy(number));
        }
        if !self.cache.knows(key) {
            return Ok(false);
        }
        self.remove_known(alloc, key)?;
        Ok(true)
    }

    // Takes the entry of a known key out that has to go.
    fn trim_known(&mut self, alloc: Global, key: &Key) -> Result<(), FileFault>
        requires { is_known key.now (entries self.old.cache) ≡ true }
        ensures ok { IsOk result → entries self.new.cache ≡ without key.now (entries self.old.cache) }
        ensures edits { edit_of key.now (edits self.old.cache) ≡ None
            → edits self.new.cache ≡ edits self.old.cache }
        ensures files { IsOk result → AddsNoOther self.old.cache self.new.cache }
        ensures makes { IsOk result → Makes key.now (drop_steps key.now) self.old.cache self.new.cache }
        ensures stays { IsErr result → Stays key.now self.old.cache self.new.cache }
        ensures due { IsErr result → self.new.cache.due ≡ true }
        ensures past { self.new.past ≡ after_call (steps_at self.old.cache.history (drop_steps key.now))
            (is_err result) self.old.past }
        ensures maximum { self.new.cache.maximum ≡ self.old.cache.maximum }
        ensures cause { HasCause self.old.cache.faults self.new.cache.faults
            (result ≡ Err FileFault.Failed) }
    {
        let before = Snapshot::of(&self.cache);
        let result = self.cache.trim(alloc, key);
        note(
            &mut self.past,
            before,
            ListStep::Drop(*key),
            result.is_err(),
        );
        result
    }

    /// Evicts the eldest entry that is not under edit, where the readable values are together longer than the maximum or there
    /// are more than 16,384 keys. False comes exactly where neither holds, or all keys are under edit. An eviction that fails
    /// keeps its key, whose file may be gone.
    pub fn trim_one(&mut self, alloc: Global) -> Result<bool, DiskFault>
        ensures over { IfOk result (λ gone. gone ≡ is_some
            (eldest_over self.old.cache.maximum self.old.cache.table.table)) }
        ensures err { IsErr result → IsSome (eldest_over self.old.cache.maximum
            self.old.cache.table.table) }
        ensures idle { trim_acts result ≡ false → self.new ≡ self.old }
        ensures key { IfSome (eldest_over self.old.cache.maximum self.old.cache.table.table) (λ key.
            Trims key result self.old self.new) }
        ensures maximum { self.new.cache.maximum ≡ self.old.cache.maximum }
        ensures cause { HasCause self.old.cache.faults self.new.cache.faults
            (result ≡ Err DiskFault.Failed) }
    {
        let Some(key) = self.cache.eldest_over() else {
            return Ok(false);
        };
        self.trim_known(alloc, &key)?;
        Ok(true)
    }

    /// Writes a new journal of the table's entries, the eldest first.
    pub fn rebuild(&mut self, alloc: Global) -> Result<(), DiskFault>
        ensures entries { entries self.new.cache ≡ entries self.old.cache }
        ensures edits { edits self.new.cache ≡ edits self.old.cache }
        ensures call { (key : List ℕ) → CallOn key no_steps no_steps self.old.cache self.new.cache }
        ensures answers { (any : List ℕ) → StillAnswers any self.old.cache self.new.cache }
        ensures makes { IsOk result → (key : List ℕ)
            → Makes key no_steps self.old.cache self.new.cache }
        ensures due { IsErr result → self.new.cache.due ≡ true }
        ensures past { self.new.past ≡ after_call (steps_at self.old.cache.history no_steps)
            (is_err result) self.old.past }
        ensures maximum { self.new.cache.maximum ≡ self.old.cache.maximum }
        ensures cause { HasCause self.old.cache.faults self.new.cache.faults
            (result ≡ Err DiskFault.Failed) }
    {
        let before = Snapshot::of(&self.cache);
        let result = self.cache.rebuild(alloc);
        note(&mut self.past, before, ListStep::Nothing, result.is_err());
        result?;
        Ok(())
    }

    /// Hands the files back.
    pub fn into_files(self) -> F
        ensures { (F.history result ≡ self.cache.history) × (F.faults result ≡ self.cache.faults) }
    {
        let DiskLru { cache, .. } = self;
        cache.into_files()
    }
}
