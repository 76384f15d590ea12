// Keys in order of use, with the lengths of their values.
ghost use Rattle.std.specs.Prelude.{◌≡◌, ◌≤◌, ℕ, Option, true, false, nat_le, [], length, None, IsSome, IfOk, OnOk, OnErr, if◌then◌else◌};
ghost use Rattle.journal_lines.specs.Lines.{HasShortLengths};
ghost use Rattle.std.specs.Iterator.{at_most};
ghost use Rattle.std.specs.Map.Iter.{TakesFirst};
ghost use Rattle.disk_table.specs.UseOrder.{IsOnce, IsShort, is_known, without, value_at, newest, used, size_of};
ghost use Rattle.disk_table.specs.Table.{key_in, replayed, clean_length, ended_with, keys_in};
ghost use Rattle.disk_table.specs.inside.Kept.{length_at};

use faults::NoMemory;
use journal_lines::{Key, Line};
use lru::{Iter, LruCache};
use std::alloc::Global;
use std::marker::Model;
use std::num::NonZeroUsize;

// How many keys there may be.
pub const MOST_KEYS: usize = 16_400;

/// Keys with the lengths of their values, in order of use. Contracts see the entries, the eldest first.
#[derive(Drop)]
pub struct UseOrder {
    entries: LruCache<Key, Option<u64>>,
    size: u64,
}

impl Model for UseOrder {
    ghost use Rattle.std.specs.Prelude.{ℕ, List, Option, reverse};
    ghost use Rattle.disk_table.specs.inside.Kept.{IsOrder};

    ghost Value = { List (List ℕ × Option ℕ) };

    ghost view = { λ o. reverse o.entries.entries };

    ghost invariant = { λ o. IsOrder o.entries.entries o.entries.cap o.size };
}

impl UseOrder {
    // No keys, with room for as many as there may be.
    pub fn new(alloc: Global) -> Result<UseOrder, NoMemory>
        ensures { IfOk result (λ order. order ≡ []) }
    {
        let most = NonZeroUsize::new(MOST_KEYS).unwrap();
        Ok(UseOrder {
            entries: LruCache::new(alloc, most)?,
            size: 0,
        })
    }

    // How many keys there are.
    pub fn len(&self) -> usize
        ensures len { result ≡ length self.now }
        ensures few { length self.now ≤ 16400 }
        ensures once { IsOnce self.now }
    {
        self.entries.len()
    }

    // What the lengths are together.
    pub fn size(&self) -> u64
        ensures { result ≡ size_of self.now }
    {
        self.size
    }

    // What is kept for the key.
    pub fn find(&self, key: &Key) -> Option<Option<u64>>
        ensures { result ≡ value_at key.now self.now }
    {
        self.entries.peek(key).copied()
    }

    // The length of the key's readable value.
    pub fn clean(&self, key: &Key) -> Option<u64>
        ensures length { result ≡ clean_length key.now self.now }
        ensures short { IsShort result }
    {
        self.entries.peek(key).copied().flatten()
    }

    // What the key adds to the size.
    fn length_of(&self, key: &Key) -> u64
        ensures { result ≡ length_at key.now self.now }
    {
        self.find(key).flatten().unwrap_or(0)
    }

    // Whether there is room for the key.
    fn has_room_for(&self, key: &Key) -> bool
        ensures few { length self.now ≤ 16400 }
        ensures room { (clean : Option ℕ) → result ≡ nat_le (length (newest key.now clean self.now)) 16400 }
    {
        self.len() < MOST_KEYS || self.find(key).is_some()
    }

    // Makes a key for which there is room the most recent, with this length.
    fn set(&mut self, key: &Key, clean: Option<u64>) -> Result<(), NoMemory>
        requires room { length (newest key.now clean self.old) ≤ 16400 }
        requires short { IsShort clean }
        ensures order { OnOk result (self.new ≡ newest key.now clean self.old) }
        ensures err { OnErr result (self.new ≡ self.old) }
        ensures memory { OnErr result (is_known key.now self.old ≡ false) }
    {
        match self.entries.put(*key, clean) {
            Ok(old) => {
                let old = old.flatten().unwrap_or(0);
                self.size = self.size - old + clean.unwrap_or(0);
                Ok(())
            }
            Err(_) => Err(NoMemory),
        }
    }

    // Makes a key the most recent, with this length. False comes exactly where a new key would be one too many.
    pub fn put(&mut self, key: &Key, clean: Option<u64>) -> Result<bool, NoMemory>
        requires short { IsShort clean }
        ensures few { length self.old ≤ 16400 }
        ensures room { IfOk result (λ put.
            put ≡ nat_le (length (newest key.now clean self.old)) 16400) }
        ensures order { IfOk result (λ put.
            self.new ≡ (if put then newest key.now clean self.old else self.old)) }
        ensures err { OnErr result (self.new ≡ self.old) }
        ensures memory { OnErr result (is_known key.now self.old ≡ false) }
        ensures room_first { OnErr result
            (nat_le (length (newest key.now clean self.old)) 16400 ≡ true) }
    {
        if !self.has_room_for(key) {
            return Ok(false);
        }
        self.set(key, clean)?;
        Ok(true)
    }

    // Makes a known key the most recent, with this length.
    pub fn renew(&mut self, key: &Key, clean: Option<u64>)
        requires known { IsSome (value_at key.now self.old) }
        requires short { IsShort clean }
        ensures { self.new ≡ newest key.now clean self.old }
    {
        let _ = self.put(key, clean);
    }

    // Does what a line says of its key. False comes exactly where a new key would be one too many.
    pub fn replay(&mut self, line: &Line) -> Result<bool, NoMemory>
        requires short { HasShortLengths line.now }
        ensures room { IfOk result (λ done. done ≡ nat_le (length (replayed self.old line.now)) 16400) }
        ensures order { IfOk result (λ done.
            self.new ≡ (if done then replayed self.old line.now else self.old)) }
        ensures err { OnErr result (self.new ≡ self.old) }
        ensures memory { OnErr result (is_known (key_in line.now) self.old ≡ false) }
        ensures room_first { OnErr result (nat_le (length (replayed self.old line.now)) 16400 ≡ true) }
    {
        match line {
            Line::Dirty(key) => self.put(key, None),
            Line::Clean(key, length) => self.put(key, Some(*length)),
            Line::Read(key) => {
                self.touch(key);
                Ok(true)
            }
            Line::Remove(key) => {
                self.forget(key);
                Ok(true)
            }
        }
    }

    // Makes a known key the most recent.
    pub fn touch(&mut self, key: &Key)
        ensures order { self.new ≡ used key.now self.old }
        ensures few { length self.new ≤ 16400 }
    {
        self.entries.promote(key);
    }

    // Takes a key out.
    pub fn forget(&mut self, key: &Key)
        ensures order { self.new ≡ without key.now self.old }
        ensures few { length self.new ≤ 16400 }
    {
        let old = self.length_of(key);
        let _ = self.entries.pop(key);
        self.size -= old;
    }

    // Ends an edit of a known key: with a length it is clean and the most recent, and without one it is gone.
    pub fn end_with(&mut self, key: &Key, clean: Option<u64>)
        requires known { IsSome (value_at key.now self.old) }
        requires short { IsShort clean }
        ensures { self.new ≡ ended_with key.now clean self.old }
    {
        match clean {
            Some(length) => self.renew(key, Some(length)),
            None => self.forget(key),
        }
    }

    // The keys, the eldest first.
    pub fn keys(&self) -> Keys<'_>
        ensures keys { result ≡ keys_in self.now }
        ensures few { length self.now ≤ 16400 }
        ensures once { IsOnce self.now }
    {
        Keys {
            entries: self.entries.iter(),
        }
    }
}

/// An iterator over the keys of a table, the eldest first.
#[derive(Drop)]
pub struct Keys<'a> {
    entries: Iter<'a, Key, Option<u64>>,
}

impl<'a> Model for Keys<'a> {
    ghost use Rattle.std.specs.Prelude.{ℕ, List, reverse};
    ghost use Rattle.disk_table.specs.Table.{keys_in};

    ghost Value = { List (List ℕ) };

    ghost view = { λ k. keys_in (reverse k.entries) };
}

impl<'a> Iterator for Keys<'a> {
    type Item = Key;

    ghost next_gives = { TakesFirst (λ key. key) };

    ghost remaining = { λ s. at_most (length s) };

    fn next(&mut self) -> Option<Key> {
        match self.entries.next_back() {
            Some((key, _)) => Some(*key),
            None => None,
        }
    }
}
