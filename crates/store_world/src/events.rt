// The events of the store, and what its history keeps of them.
ghost use Rattle.std.specs.Prelude.{◌≡◌};

use disk_lru::DiskFault;
use journal_lines::Key;
use std::marker::Model;

/// Bytes that are handed to the store or by it. Contracts see their list.
#[derive(Drop)]
pub struct Chunk {
    bytes: Vec<u8>,
}

impl Model for Chunk {
    ghost use Rattle.std.specs.Prelude.{ℕ, List};

    ghost Value = { List ℕ };

    ghost view = { λ s. s.bytes.items };
}

impl Chunk {
    /// Takes no memory.
    pub fn new(bytes: Vec<u8>) -> Chunk
        ensures { result ≡ bytes.items }
    {
        Chunk { bytes }
    }

    /// The bytes. Takes no memory.
    pub fn into_bytes(self) -> Vec<u8>
        ensures { result.items ≡ self }
    {
        let Chunk { bytes } = self;
        bytes
    }
}

/// An event of the store, made by one of its seats. docs/DISK.md has the table of what each asks, does and answers.
///
/// A seat wants one key's write lock at a time, and has one edit at most: both are kept in the store.
#[derive(Drop)]
pub enum StoreEvent {
    /// Reads the entry of a key.
    Fetch(Key),
    /// Wants the write lock of a key, for an entry of this length in bytes with a payload of this one.
    Want(Key, u64, u64),
    /// Does the seat have the lock that it wants?
    Granted,
    /// Begins an edit of the key, where it has no entry.
    Begin,
    /// Adds bytes to the edit.
    Write(Chunk),
    /// What was written is the entry of the key.
    Commit,
    /// The edit is given up.
    GiveUp,
    /// The lock is given back, or not wanted any more.
    Done,
}

/// What the store replies.
#[derive(Drop)]
pub enum StoreReply {
    /// The bytes of an entry, or none.
    Bytes(Option<Chunk>),
    /// The store has no disk cache in this run.
    Off,
    /// The entry would be longer than all entries may be together, or the payload than 4,294,967,295 bytes.
    TooLarge,
    Done,
    /// Whether the seat is at the front of its key's queue: it has the lock.
    Front(bool),
    /// The key has an entry, which stays.
    Already,
    /// A call of the disk cache failed.
    Fault(DiskFault),
}

/// What a history keeps of a step besides its seat: the event and its reply. It is there for contracts.
#[derive(Drop)]
pub struct Note {
    pub event: StoreEvent,
    pub reply: StoreReply,
}
