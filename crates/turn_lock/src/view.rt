// What the proofs know of a seat. No value of these types is made but `About`, which has no bytes that are read.
use state_machine::Entry;
use std::collections::LinkedList;
use std::snapshot::Snapshot;

/// What is known of a seat.
pub struct View<M, N> {
    /// It was not joined to another seat.
    pub live: bool,
    pub number: u64,
    /// No seat was split from it yet, or joined to it: the next one may be.
    pub newest: bool,
    /// It has a ticket.
    pub waits: bool,
    /// The place of the entry that it will make in the history.
    pub ticket: u64,
    /// It is its turn, and it has the machine.
    pub served: bool,
    /// The machine as the turn began.
    pub start: Option<M>,
    /// What word 1 was as the turn began.
    pub first_ticket: u64,
    pub seen: LinkedList<Entry<N>>,
    pub known: u64,
    pub joined: LinkedList<Joined<N>>,
}

/// What is known of a seat that was joined to another.
pub struct Joined<N> {
    pub number: u64,
    pub seen: LinkedList<Entry<N>>,
    pub known: u64,
}

/// What the table is told once: the machine as it began, the number of seats, and what both words began as.
pub struct About<M> {
    pub start: Snapshot<M>,
    pub seats: u64,
    pub first_ticket: u64,
}

impl<M> Drop for About<M> {
    fn drop(self) {
        let About {
            start: _,
            seats: _,
            first_ticket: _,
        } = self;
    }
}
