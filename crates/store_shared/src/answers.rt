// What the calls answer.

/// What a call of `store` came to.
#[derive(Clone, Copy, Debug, PartialEq, Eq)]
pub enum Stored {
    /// The entry was committed.
    Stored,
    /// The key has an entry, which stays.
    Already,
    /// The entry's file would be longer than all entries may be together, or the payload than 4,294,967,295 bytes.
    TooLarge,
    /// The store has no disk cache in this run.
    Off,
    /// A call on the files failed.
    Failed,
    /// Memory is wanting.
    Memory,
}
