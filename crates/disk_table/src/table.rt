// The table: entries, open edits and the count of lines.
ghost use Rattle.std.specs.Prelude.{◌≡◌, ◌≤◌, ◌<◌, ◌↔◌, ℕ, List, true, false, length, Some, IsSome, IfSome, IfOk, OnErr, IsErrOf, if◌then◌else◌};
ghost use Rattle.journal_lines.specs.Lines.{HasShortLengths};
ghost use Rattle.disk_table.specs.UseOrder.{IsOnce, IsShort, is_known, size_of};
ghost use Rattle.disk_table.specs.Table.{no_entries, key_in, counted, has_room_for, after_line, edit_of, is_under_edit, free_edit, key_of_edit, is_full_for, clean_length, opened, closed, touched, forgotten, keys_in, eldest_closed, eldest_over, is_due};

use crate::edits::Edits;
use crate::order::{Keys, MOST_KEYS, UseOrder};
use faults::NoMemory;
use journal_lines::{Key, Line};
use std::alloc::Global;
use std::marker::Model;

// More keys than so many have the eldest evicted.
const MOST_ENTRIES: usize = 16_384;

// A rebuild is due from so many redundant lines on.
const REBUILD_AT: u64 = 2_000;

/// Why an edit was refused.
#[derive(Clone, Copy, Debug, PartialEq, Eq)]
pub enum EditRefused {
    /// The key is under edit, by this number.
    Busy(u64),
    /// 16 edits are open, or there are 16,400 keys and this one is new.
    TooMany,
    Memory,
}

impl From<NoMemory> for EditRefused {
    ghost use Rattle.disk_table.specs.declared.table.EditRefused.TheVariants.{Memory};

    ghost from_gives = { λ _ refused. refused ≡ Memory };

    fn from(_error: NoMemory) -> EditRefused {
        EditRefused::Memory
    }
}

/// What a disk cache keeps in memory: its entries in order of use, each with the length of its readable value in bytes or
/// without one; its open edits, at most 16; and how many lines its journal has after the header. A line is counted by each
/// call whose line the journal gets. After `new` only `apply` and `open_edit` take memory, at a new key.
#[derive(Drop)]
pub struct DiskTable {
    order: UseOrder,
    edits: Edits,
    lines: u64,
}

impl Model for DiskTable {
    ghost use Rattle.disk_table.specs.Table.{TableValue};
    ghost use Rattle.disk_table.specs.inside.Kept.{AreKnown};

    ghost Value = { TableValue };

    ghost view = { λ t. record { entries = t.order; edits = t.edits; lines = t.lines } };

    ghost invariant = { λ t. AreKnown t.order t.edits };
}

// One line more.
fn counted(lines: u64) -> u64
    ensures { result ≡ counted lines }
{
    lines.saturating_add(1)
}

impl DiskTable {
    /// A table with no entry, with room in its map for the 16,400 keys that there may be.
    pub fn new(alloc: Global) -> Result<DiskTable, NoMemory>
        ensures { IfOk result (λ table. table ≡ no_entries) }
    {
        Ok(DiskTable {
            order: UseOrder::new(alloc)?,
            edits: Edits::new(),
            lines: 0,
        })
    }

    /// Does what a line of the journal says, and counts it. False comes exactly where its key would be the 16,401st.
    pub fn apply(&mut self, line: &Line) -> Result<bool, NoMemory>
        requires short { HasShortLengths line.now }
        requires closed { is_under_edit (key_in line.now) self.old.edits ≡ false }
        ensures applied { IfOk result (λ applied. applied ≡ has_room_for line.now self.old) }
        ensures table { IfOk result (λ applied.
            self.new ≡ (if applied then after_line line.now self.old else self.old)) }
        ensures err { OnErr result (self.new ≡ self.old) }
        ensures memory { OnErr result (is_known (key_in line.now) self.old.entries ≡ false) }
        ensures room_first { OnErr result (has_room_for line.now self.old ≡ true) }
    {
        if !self.order.replay(line)? {
            return Ok(false);
        }
        self.lines = counted(self.lines);
        Ok(true)
    }

    /// The length of the key's readable value in bytes, under edit too.
    pub fn clean(&self, key: &Key) -> Option<u64>
        ensures length { result ≡ clean_length key.now self.now.entries }
        ensures short { IsShort result }
    {
        self.order.clean(key)
    }

    /// Whether the key has an entry.
    pub fn knows(&self, key: &Key) -> bool
        ensures { result ≡ is_known key.now self.now.entries }
    {
        self.order.find(key).is_some()
    }

    /// The open edit of the key, by its number from 0 to 15.
    pub fn edit_of(&self, key: &Key) -> Option<u64>
        ensures number { result ≡ edit_of key.now self.now.edits }
        ensures key { IfSome result (λ edit. key_of_edit edit self.now.edits ≡ Some key.now) }
        ensures within { IfSome result (λ edit. edit < 16) }
        ensures known { IsSome result → is_known key.now self.now.entries ≡ true }
    {
        self.edits.of(key)
    }

    /// Whether there is no room for an edit of the key, which is not under edit: 16 edits are open, or there are 16,400 keys and
    /// this one is new.
    pub fn is_full_for(&self, key: &Key) -> bool
        ensures { result ≡ is_full_for key.now self.now }
    {
        if self.edits.of(key).is_some() {
            return false;
        }
        if self.edits.free().is_none() {
            return true;
        }
        self.order.find(key).is_none() && self.order.len() >= MOST_KEYS
    }

    /// Begins an edit of the key, and answers the least number that no open edit has. The key is the most recent and keeps
    /// its readable length; a new one has none. Memory is wanted at a new key alone.
    pub fn open_edit(&mut self, key: &Key) -> Result<u64, EditRefused>
        ensures table { IfOk result (λ edit. self.new ≡ opened key.now edit self.old) }
        ensures number { IfOk result (λ edit. free_edit self.old.edits ≡ Some edit) }
        ensures within { IfOk result (λ edit. edit < 16) }
        ensures busy { (edit : ℕ) → IsErrOf result (EditRefused.Busy edit) ↔
            (edit_of key.now self.old.edits ≡ Some edit) }
        ensures too_many { IsErrOf result EditRefused.TooMany ↔ (is_full_for key.now self.old ≡ true) }
        ensures memory { IsErrOf result EditRefused.Memory → is_known key.now self.old.entries ≡ false }
        ensures err { OnErr result (self.new ≡ self.old) }
    {
        if let Some(edit) = self.edits.of(key) {
            return Err(EditRefused::Busy(edit));
        }
        let Some(edit) = self.edits.free() else {
            return Err(EditRefused::TooMany);
        };
        let clean = self.order.clean(key);
        if !self.order.put(key, clean)? {
            return Err(EditRefused::TooMany);
        }
        self.edits.open(edit, key);
        self.lines = counted(self.lines);
        Ok(edit)
    }

    /// Ends an open edit. With a length in bytes its key is clean with it and the most recent; without one it is forgotten.
    pub fn close_edit(&mut self, edit: u64, length: Option<u64>)
        requires open { IsSome (key_of_edit edit self.old.edits) }
        requires short { IsShort length }
        ensures table { (key : List ℕ) → key_of_edit edit self.old.edits ≡ Some key
            → self.new ≡ closed key edit length self.old }
        ensures free { (key : List ℕ) → key_of_edit edit self.old.edits ≡ Some key
            → is_under_edit key self.new.edits ≡ false }
    {
        let Some(key) = self.edits.key_of(edit) else {
            return;
        };
        self.order.end_with(&key, length);
        self.edits.close(edit);
        self.lines = counted(self.lines);
    }

    /// Makes a known key the most recent.
    pub fn touch(&mut self, key: &Key)
        ensures { self.new ≡ touched key.now self.old }
    {
        if self.order.find(key).is_some() {
            self.order.touch(key);
            self.lines = counted(self.lines);
        }
    }

    /// Takes a known key out.
    pub fn forget(&mut self, key: &Key)
        requires { is_under_edit key.now self.old.edits ≡ false }
        ensures { self.new ≡ forgotten key.now self.old }
    {
        if self.order.find(key).is_some() {
            self.order.forget(key);
            self.lines = counted(self.lines);
        }
    }

    // The eldest key that is not under edit.
    fn eldest_closed(&self) -> Option<Key>
        ensures { result ≡ eldest_closed self.now.edits (keys_in self.now.entries) }
    {
        for key in self.order.keys() {
            if self.edits.of(&key).is_none() {
                return Some(key);
            }
        }
        None
    }

    /// The eldest key that is not under edit, where the lengths are together above the maximum in bytes or there are more
    /// than 16,384 keys.
    pub fn eldest_over(&self, maximum: u64) -> Option<Key>
        ensures { result ≡ eldest_over maximum self.now }
    {
        if self.order.size() <= maximum && self.order.len() <= MOST_ENTRIES {
            return None;
        }
        self.eldest_closed()
    }

    /// Whether a rebuild of the journal is due: it has at least 2,000 redundant lines, and at least as many as there are
    /// keys.
    pub fn due(&self) -> bool
        ensures { result ≡ is_due self.now }
    {
        let keys = self.order.len() as u64;
        let redundant = self.lines.saturating_sub(keys);
        redundant >= REBUILD_AT && redundant >= keys
    }

    /// What the readable lengths are together, in bytes.
    pub fn size(&self) -> u64
        ensures { result ≡ size_of self.now.entries }
    {
        self.order.size()
    }

    /// The keys, the eldest first.
    pub fn keys(&self) -> Keys<'_>
        ensures keys { result ≡ keys_in self.now.entries }
        ensures once { IsOnce self.now.entries }
        ensures few { length self.now.entries ≤ 16400 }
    {
        self.order.keys()
    }

    /// The journal was rebuilt: it has a line for each key.
    pub fn rebuilt(&mut self)
        ensures { self.new ≡ record self.old { lines = length self.old.entries } }
    {
        self.lines = self.order.len() as u64;
    }
}
