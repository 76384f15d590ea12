// An open edit.
ghost use Rattle.std.specs.Prelude.{◌≡◌, ◌<◌, true, false};

use journal_lines::Key;
use std::marker::Model;

/// An open edit of a key: what `begin` answers, and `commit` or `abort` ends. It must be spent by one of these.
pub struct Edit {
    key: Key,
    number: u64,
    closed: bool,
}

impl Model for Edit {
    ghost use Rattle.std.specs.Prelude.{◌<◌};
    ghost use Rattle.disk_lru.specs.State.{EditValue};

    ghost Value = { EditValue };

    ghost view = { λ e. record { key = e.key; number = e.number; closed = e.closed } };

    ghost invariant = { λ e. e.number < 16 };
}

impl Edit {
    // An edit that was opened.
    pub fn open(key: &Key, number: u64) -> Edit
        requires { number < 16 }
        ensures { result ≡ record { key = key.now; number = number; closed = false } }
    {
        Edit {
            key: *key,
            number,
            closed: false,
        }
    }

    /// The key under edit.
    pub fn key(&self) -> &Key
        ensures { result.now ≡ self.now.key }
    {
        &self.key
    }

    /// The number of the edit, from 0 to 15.
    pub fn number(&self) -> u64
        ensures number { result ≡ self.now.number }
        ensures within { result < 16 }
    {
        self.number
    }

    /// Whether a write that failed closed it. Such an edit can only be given up.
    pub fn is_closed(&self) -> bool
        ensures { result ≡ self.now.closed }
    {
        self.closed
    }

    // A write failed.
    pub fn close(&mut self)
        ensures { self.new ≡ record self.old { closed = true } }
    {
        self.closed = true;
    }

    // The edit is ended: its key, its number, and whether it is closed.
    pub fn into_parts(self) -> (Key, u64, bool)
        ensures parts { result ≡ (self.key, self.number, self.closed) }
        ensures within { result.1 < 16 }
    {
        let Edit {
            key,
            number,
            closed,
        } = self;
        (key, number, closed)
    }
}
