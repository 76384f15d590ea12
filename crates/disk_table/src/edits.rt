// The open edits.
ghost use Rattle.std.specs.Prelude.{◌≡◌, ◌<◌, ℕ, List, length, set, Some, None, false, IfSome, IsSome};
ghost use Rattle.disk_table.specs.Table.{is_edit_of, edit_of, is_under_edit, free_edit, key_of_edit};
ghost use lib.ListN.{replicate};

use journal_lines::Key;
use std::marker::Model;

/// The keys of the open edits, each at the number of its edit.
#[derive(Drop)]
pub struct Edits {
    keys: [Option<Key>; 16],
}

impl Model for Edits {
    ghost use Rattle.std.specs.Prelude.{ℕ, List, Option};
    ghost use Rattle.disk_table.specs.inside.Kept.{AreEdits};

    ghost Value = { List (Option (List ℕ)) };

    ghost view = { λ e. e.keys };

    ghost invariant = { λ e. AreEdits e.keys };
}

// Whether an open edit is of this key.
fn is_edit_of(edit: &Option<Key>, key: &Key) -> bool
    ensures { result ≡ is_edit_of key.now edit.now }
{
    match edit {
        Some(open) => *key == *open,
        None => false,
    }
}

fn first_of(edits: &[Option<Key>], key: &Key) -> Option<usize>
    ensures { result ≡ edit_of key.now edits.now }
{
    edits.iter().position(|edit| is_edit_of(edit, key))
}

fn first_free(edits: &[Option<Key>]) -> Option<usize>
    ensures { result ≡ free_edit edits.now }
{
    edits.iter().position(|edit| !edit.is_some())
}

impl Edits {
    // No open edit.
    pub fn new() -> Edits
        ensures { result ≡ replicate 16 None }
    {
        Edits { keys: [None; 16] }
    }

    // The open edit of a key.
    pub fn of(&self, key: &Key) -> Option<u64>
        ensures number { result ≡ edit_of key.now self.now }
        ensures within { IfSome result (λ number. number < 16) }
    {
        let number = first_of(&self.keys, key)?;
        Some(number as u64)
    }

    // The least number that no open edit has.
    pub fn free(&self) -> Option<u64>
        ensures number { result ≡ free_edit self.now }
        ensures within { IfSome result (λ number. number < 16) }
    {
        let number = first_free(&self.keys)?;
        Some(number as u64)
    }

    // The key of an open edit.
    pub fn key_of(&self, number: u64) -> Option<Key>
        ensures key { result ≡ key_of_edit number self.now }
        ensures within { IsSome result → number < 16 }
    {
        *self.keys.get(number as usize)?
    }

    // Gives a number to the edit of a key that has none.
    pub fn open(&mut self, number: u64, key: &Key)
        requires within { number < 16 }
        requires closed { edit_of key.now self.old ≡ None }
        ensures { self.new ≡ set self.old number (Some key.now) }
    {
        self.keys[number as usize] = Some(*key);
    }

    // Takes the number of an edit back.
    pub fn close(&mut self, number: u64)
        requires { number < 16 }
        ensures edits { self.new ≡ set self.old number None }
        ensures free { (key : List ℕ) → key_of_edit number self.old ≡ Some key
            → is_under_edit key self.new ≡ false }
    {
        self.keys[number as usize] = None;
    }
}
