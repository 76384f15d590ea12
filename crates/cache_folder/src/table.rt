// The table of a disk cache with its open edits.
ghost use Rattle.std.specs.Prelude.{◌≡◌, ◌≢◌, ◌≤◌, ◌<◌, ◌+◌, ◌^◌, ◌++◌, ◌↔◌, ℕ, List, [], length, true, false, Some, None, IsSome, IfSome, IfOk, OnOk, OnErr, IsErrOf, MatchOption, set, if◌then◌else◌};
ghost use lib.ListN.{replicate};
ghost use Rattle.journal_lines.specs.Keys.{is_key};
ghost use Rattle.journal_lines.specs.Lines.{spelled, HasShortLengths};
ghost use Rattle.journal_lines.specs.Journal.{header, ended, text_of};
ghost use Rattle.disk_table.specs.UseOrder.{IsOnce, IsShort, is_known, without, used};
ghost use Rattle.disk_table.specs.Table.{no_entries, edit_of, free_edit, is_full_for, is_under_edit, eldest_over, is_due, has_room_for, after_line, clean_length, keys_in};
ghost use Rattle.cache_folder.specs.Starts.{HasNoEdits};
ghost use Rattle.cache_folder.specs.Tables.{CountsLine, kept, len_at, edit_at, is_offered, begun, committed, aborted, grown_edit, closed_at, hidden, line_for, lines_for};

use disk_table::{DiskTable, EditRefused, Keys};
use faults::NoMemory;
use journal_lines::{Key, Line, write_line};
use std::alloc::{AllocError, Global};
use std::marker::Model;

/// What a disk cache keeps in memory: the table of its keys, and how many bytes each open edit has. Contracts see what is
/// `kept` of each key: the length of its readable value in bytes, and how many bytes its open edit has.
#[derive(Drop)]
pub struct CacheTable {
    table: DiskTable,
    written: [u64; 16],
}

impl Model for CacheTable {
    ghost use Rattle.std.specs.Prelude.{◌≡◌, ◌<◌, ◌^◌, length};
    ghost use Rattle.std.specs.List.{AllByRecursion};
    ghost use Rattle.cache_folder.specs.Tables.{CacheTableValue};

    ghost Value = { CacheTableValue };

    ghost view = { λ t. record { table = t.table; written = t.written } };

    ghost invariant = { λ t. (length t.written ≡ 16) × AllByRecursion (λ n. n < 2 ^ 40) t.written };
}

impl CacheTable {
    /// A table with no key.
    pub fn new(alloc: Global) -> Result<CacheTable, NoMemory>
        ensures table { IfOk result (λ t. t.table ≡ no_entries) }
        ensures kept { IfOk result (λ t. kept t ≡ []) }
    {
        Ok(CacheTable {
            table: DiskTable::new(alloc)?,
            written: [0; 16],
        })
    }

    /// The length of the key's readable value in bytes, under edit too.
    pub fn clean(&self, key: &Key) -> Option<u64>
        ensures length { result ≡ len_at key.now (kept self.now) }
        ensures short { IsShort result }
    {
        self.table.clean(key)
    }

    /// Whether the key has an entry.
    pub fn knows(&self, key: &Key) -> bool
        ensures { result ≡ is_known key.now (kept self.now) }
    {
        self.table.knows(key)
    }

    /// The open edit of the key, by its number.
    pub fn edit_of(&self, key: &Key) -> Option<u64>
        ensures number { result ≡ edit_of key.now self.now.table.edits }
        ensures within { IfSome result (λ number. number < 16) }
        ensures none { result ≡ None → edit_at key.now (kept self.now) ≡ None }
        ensures some { IsSome result → IsSome (edit_at key.now (kept self.now)) }
    {
        self.table.edit_of(key)
    }

    /// How many bytes the open edit of the key has.
    pub fn written(&self, key: &Key) -> Option<u64>
        ensures written { result ≡ edit_at key.now (kept self.now) }
        ensures short { IsShort result }
    {
        match self.table.edit_of(key) {
            Some(number) => Some(self.written[number as usize]),
            None => None,
        }
    }

    /// How many bytes the open edit of this number and key has.
    pub fn written_by(&self, number: u64, key: &Key) -> u64
        requires { edit_of key.now self.now.table.edits ≡ Some number }
        ensures written { edit_at key.now (kept self.now) ≡ Some result }
        ensures short { result < 2 ^ 40 }
    {
        let _open = self.edit_of(key);
        match self.written(key) {
            Some(written) => written,
            None => unreachable!(),
        }
    }

    /// Whether the key has a readable value and is not under edit.
    pub fn has(&self, key: &Key) -> bool
        ensures { result ≡ is_offered key.now (kept self.now) }
    {
        self.clean(key).is_some() && !self.written(key).is_some()
    }

    /// Whether there is no room for an edit of the key, which is not under edit.
    pub fn is_full_for(&self, key: &Key) -> bool
        ensures { result ≡ is_full_for key.now self.now.table }
    {
        self.table.is_full_for(key)
    }

    /// Begins an edit of the key, with no bytes, and answers the least number that no open edit has.
    pub fn begin(&mut self, key: &Key) -> Result<u64, EditRefused>
        ensures kept { IfOk result (λ number. kept self.new ≡ begun key.now (kept self.old)) }
        ensures number { IfOk result (λ number. free_edit self.old.table.edits ≡ Some number) }
        ensures edits { IfOk result (λ number. self.new.table.edits ≡ set self.old.table.edits number
            (Some key.now)) }
        ensures open { IfOk result (λ number. edit_of key.now self.new.table.edits ≡ Some number) }
        ensures back { IfOk result (λ number.
            closed_at (Some number) self.new.table.edits ≡ self.old.table.edits) }
        ensures others { IfOk result (λ number. (k : List ℕ) → k ≢ key.now
            → edit_of k self.new.table.edits ≡ edit_of k self.old.table.edits) }
        ensures within { IfOk result (λ number. number < 16) }
        ensures few { IfOk result (λ number. length (begun key.now (kept self.old)) ≤ 16400) }
        ensures lines { IfOk result (λ number. CountsLine self.old self.new) }
        ensures busy { (number : ℕ) → IsErrOf result (EditRefused.Busy number)
            ↔ (edit_of key.now self.old.table.edits ≡ Some number) }
        ensures too_many { IsErrOf result EditRefused.TooMany
            ↔ (is_full_for key.now self.old.table ≡ true) }
        ensures err { OnErr result (self.new ≡ self.old) }
    {
        let number = self.table.open_edit(key)?;
        let _few = self.table.keys();
        self.written[number as usize] = 0;
        Ok(number)
    }

    /// The open edit of the key has so many bytes now.
    pub fn grow(&mut self, number: u64, key: &Key, length: u64)
        requires within { number < 16 }
        requires short { length < 2 ^ 40 }
        requires open { edit_of key.now self.old.table.edits ≡ Some number }
        ensures kept { kept self.new ≡ grown_edit key.now length (kept self.old) }
        ensures table { self.new.table ≡ self.old.table }
    {
        self.written[number as usize] = length;
    }

    /// Ends the edit of the key with this length in bytes.
    pub fn commit(&mut self, number: u64, key: &Key, length: u64)
        requires open { edit_of key.now self.old.table.edits ≡ Some number }
        requires short { length < 2 ^ 40 }
        ensures kept { kept self.new ≡ committed key.now length (kept self.old) }
        ensures edits { self.new.table.edits ≡ set self.old.table.edits number None }
        ensures closed { edit_of key.now self.new.table.edits ≡ None }
        ensures others { (k : List ℕ) → k ≢ key.now
            → edit_of k self.new.table.edits ≡ edit_of k self.old.table.edits }
        ensures lines { CountsLine self.old self.new }
    {
        self.table.close_edit(number, Some(length));
    }

    /// Gives the edit of the key up: what was readable stays so, and without that the key is gone.
    pub fn abort(&mut self, number: u64, key: &Key, old: Option<u64>)
        requires open { edit_of key.now self.old.table.edits ≡ Some number }
        requires old { old ≡ len_at key.now (kept self.old) }
        requires short { IsShort old }
        ensures kept { kept self.new ≡ aborted old key.now (kept self.old) }
        ensures edits { self.new.table.edits ≡ set self.old.table.edits number None }
        ensures closed { edit_of key.now self.new.table.edits ≡ None }
        ensures others { (k : List ℕ) → k ≢ key.now
            → edit_of k self.new.table.edits ≡ edit_of k self.old.table.edits }
        ensures lines { CountsLine self.old self.new }
    {
        self.table.close_edit(number, old);
    }

    /// Makes a known key the most recent.
    pub fn touch(&mut self, key: &Key)
        ensures kept { kept self.new ≡ used key.now (kept self.old) }
        ensures edits { self.new.table.edits ≡ self.old.table.edits }
        ensures lines { is_known key.now (kept self.old) ≡ true → CountsLine self.old self.new }
    {
        self.table.touch(key);
    }

    /// Takes the key out, with its edit.
    pub fn forget(&mut self, key: &Key)
        ensures kept { kept self.new ≡ without key.now (kept self.old) }
        ensures edits { self.new.table.edits
            ≡ closed_at (edit_of key.now self.old.table.edits) self.old.table.edits }
        ensures closed { edit_of key.now self.new.table.edits ≡ None }
        ensures others { (k : List ℕ) → k ≢ key.now
            → edit_of k self.new.table.edits ≡ edit_of k self.old.table.edits }
        ensures lines { is_known key.now (kept self.old) ≡ true → CountsLine self.old self.new }
    {
        match self.table.edit_of(key) {
            Some(number) => self.table.close_edit(number, None),
            None => self.table.forget(key),
        }
    }

    /// The eldest key that is not under edit, where the lengths are together above the maximum in bytes or there are more
    /// than 16,384 keys.
    pub fn eldest_over(&self, maximum: u64) -> Option<Key>
        ensures key { result ≡ eldest_over maximum self.now.table }
        ensures known { IfSome result (λ key. is_known key (kept self.now) ≡ true) }
        ensures closed { IfSome result (λ key. edit_of key self.now.table.edits ≡ None) }
    {
        self.table.eldest_over(maximum)
    }

    /// Whether a rebuild of the journal is due by the number of its lines.
    pub fn due(&self) -> bool
        ensures { result ≡ is_due self.now.table }
    {
        self.table.due()
    }

    /// The journal was rebuilt: it has a line for each key.
    pub fn rebuilt(&mut self)
        ensures kept { kept self.new ≡ kept self.old }
        ensures table { self.new.table ≡ record self.old.table
            { lines = length self.old.table.entries } }
    {
        self.table.rebuilt();
    }

    // The line of the key in a new journal.
    fn line_for(&self, key: &Key) -> Line
        ensures line { result ≡ line_for key.now
            (hidden (len_at key.now (kept self.now)) (edit_at key.now (kept self.now))) }
        ensures short { HasShortLengths result }
    {
        let length = self.clean(key);
        if self.written(key).is_some() {
            return Line::Dirty(*key);
        }
        match length {
            Some(length) => Line::Clean(*key, length),
            None => Line::Dirty(*key),
        }
    }

    // Adds the line of the key to the text of a new journal.
    fn add_line_for(&self, text: &mut Vec<u8>, key: &Key) -> Result<(), AllocError>
        ensures { OnOk result (text.new.items ≡ text.old.items ++ ended
            (spelled (line_for key.now (hidden (len_at key.now (kept self.now))
            (edit_at key.now (kept self.now)))))) }
    {
        text.extend_from_slice(write_line(&self.line_for(key)).bytes())
    }

    /// The text of a new journal: the header, and a line for each key, the eldest first.
    pub fn journal_text(&self, alloc: Global) -> Result<Vec<u8>, AllocError>
        ensures { IfOk result (λ text. text.items ≡ header ++ text_of (lines_for (kept self.now))) }
    {
        let mut text = Vec::new(alloc);
        text.extend_from_slice(b"libcore.io.DiskLruCache\n1\n1\n1\n\n")?;
        for key in self.table.keys() {
            self.add_line_for(&mut text, &key)?;
        }
        Ok(text)
    }
}

// What a start makes of a table, while no key is under edit.
impl CacheTable {
    /// Does what a line of the journal says. False comes exactly where its key would be the 16,401st.
    pub fn apply(&mut self, line: &Line) -> Result<bool, NoMemory>
        requires short { HasShortLengths line.now }
        requires free { HasNoEdits self.old }
        ensures applied { IfOk result (λ applied. applied ≡ has_room_for line.now self.old.table) }
        ensures table { IfOk result (λ applied.
            self.new.table ≡ (if applied then after_line line.now self.old.table else self.old.table)) }
        ensures free { HasNoEdits self.new }
    {
        self.table.apply(line)
    }

    /// The length of the value that the journal says of the key, in bytes.
    pub fn length_of(&self, key: &Key) -> Option<u64>
        ensures { result ≡ clean_length key.now self.now.table.entries }
    {
        self.table.clean(key)
    }

    /// The keys, the eldest first.
    pub fn keys(&self) -> Keys<'_>
        ensures keys { result ≡ keys_in self.now.table.entries }
        ensures once { IsOnce self.now.table.entries }
        ensures few { length self.now.table.entries ≤ 16400 }
    {
        self.table.keys()
    }

    /// Takes a key out.
    pub fn discard(&mut self, key: &Key)
        requires free { HasNoEdits self.old }
        ensures entries { self.new.table.entries ≡ without key.now self.old.table.entries }
        ensures free { HasNoEdits self.new }
    {
        self.table.forget(key);
    }
}
