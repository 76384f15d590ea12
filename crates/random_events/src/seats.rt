// What a seat writes down of its own events.
ghost use Rattle.std.specs.Prelude.{◌≡◌, ◌+◌, ◌<◌, [], ◌∷◌, ◌++◌, true, not, ◌==◌, filter, length, slice_get, slice_set, Some, None, IfOk, OnOk};
ghost use Rattle.random_events.specs.Seats.{no_record, listed_more};

use bitmap_kind::Bitmap;
use faults::NoMemory;
use std::alloc::{AllocError, Global};
use std::marker::Model;

/// A load that the seat made and has not released: its number, and whether the seat was answered that it is ready.
#[derive(Clone, Copy)]
pub struct ListedLoad {
    pub number: u64,
    pub ready: bool,
}

/// The bitmaps that a job has.
#[derive(Drop)]
pub enum Taken {
    Nothing,
    One(Bitmap),
    Two(Bitmap, Bitmap),
}

/// The job that a seat runs: its number, how many bitmaps it took, those that it has, and whether the seat was told that it
/// is cancelled.
#[derive(Drop)]
pub struct RunningJob {
    pub number: u64,
    pub takes: u32,
    pub taken: Taken,
    pub cancelled: bool,
}

/// How many loads a seat made that were not `Full`, those that it has not released, and its job.
#[derive(Drop)]
pub struct Seat {
    pub(crate) begun: u64,
    pub(crate) loads: Vec<ListedLoad>,
    pub(crate) job: Option<RunningJob>,
}

impl Model for Seat {
    ghost use Rattle.random_events.specs.SeatValue.{SeatValue};

    ghost Value = { SeatValue };

    ghost view = { λ s. record { begun = s.begun; loads = s.loads.items; job = s.job } };
}

impl Seat {
    /// A seat that made no event.
    pub fn new(alloc: Global) -> Seat
        ensures { result ≡ no_record }
    {
        Seat {
            begun: 0,
            loads: Vec::new(alloc),
            job: None,
        }
    }

    /// How many loads it made that were not `Full`.
    pub fn begun(&self) -> u64
        ensures { result ≡ self.now.begun }
    {
        self.begun
    }

    /// How many loads are listed.
    pub fn count(&self) -> usize
        ensures { result ≡ length self.now.loads }
    {
        self.loads.len()
    }

    /// Whether it has a job.
    pub fn has_job(&self) -> bool {
        self.job.is_some()
    }

    /// A load more.
    pub fn list(&mut self, ready: bool) -> Result<(), NoMemory>
        requires { self.old.begun < 1099511627776 }
        ensures { OnOk result (self.new ≡ listed_more ready self.old) }
    {
        let number = self.begun;
        self.loads
            .push(ListedLoad { number, ready })
            .map_err(AllocError::from)?;
        self.begun = number + 1;
        Ok(())
    }

    /// The load at a place of the list.
    pub fn listed(&self, place: usize) -> ListedLoad
        requires { place < length self.now.loads }
        ensures { slice_get self.now.loads place ≡ Some result }
    {
        self.loads[place]
    }

    /// The seat was answered that the load at a place of the list, which has this number, is ready.
    pub fn mark(&mut self, place: usize, number: u64)
        requires { place < length self.old.loads }
        ensures { self.new ≡ record self.old {
          loads = slice_set self.old.loads place (record { number = number; ready = true });
        } }
    {
        self.loads[place] = ListedLoad {
            number,
            ready: true,
        };
    }

    /// The loads but that of this number.
    pub fn others(&self, alloc: Global, number: u64) -> Result<Vec<ListedLoad>, NoMemory>
        ensures { IfOk result (λ kept. kept.items
            ≡ filter (λ load. not (load.number == number)) self.now.loads) }
    {
        let kept = self.loads.iter().filter(|load| load.number != number);
        Ok(kept.copied().collect(alloc)?)
    }
}
