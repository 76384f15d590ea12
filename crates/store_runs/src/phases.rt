// How far a seat comes that stores an entry.

/// How far a seat has come.
#[derive(Clone, Copy, PartialEq, Eq)]
pub enum Phase {
    /// It has not asked for the lock.
    Outside,
    /// It wants the lock.
    Wanting,
    /// It was told that it has the lock.
    Holding,
    /// It has begun an edit.
    Editing,
    /// It has written the file of the entry.
    Written,
    /// It has committed, or found an entry.
    Leaving,
    /// It has given the lock back.
    Ended,
    /// It was answered otherwise.
    Stuck,
}
