// A machine that adds.
ghost use Rattle.std.specs.Prelude.{◌≡◌, []};

use snapshots::{Append, update_snapshot};
use state_machine::{Entry, Machine};
use std::alloc::Global;
use std::collections::LinkedList;
use std::marker::Model;
use std::snapshot::Snapshot;

/// What the history keeps of a step: the amount that was added, and the sum that was answered.
#[derive(Drop)]
pub struct Addition {
    pub amount: u64,
    pub sum: u64,
}

/// A machine that adds, and answers its sum. The sum goes round at 2^64. It begins at 0.
#[derive(Drop)]
pub struct AddingMachine {
    sum: u64,
    history: Snapshot<LinkedList<Entry<Addition>>>,
}

impl Model for AddingMachine {
    ghost use Rattle.adding_machine.specs.Sums.{Adding};

    ghost Value = { Adding };

    ghost view = { λ m. record { sum = m.sum; history = m.history.value } };
}

impl AddingMachine {
    pub fn new(alloc: Global) -> AddingMachine
        ensures { result ≡ record { sum = 0; history = [] } }
    {
        AddingMachine {
            sum: 0,
            history: Snapshot::of(&LinkedList::new(alloc)),
        }
    }

    pub fn sum(&self) -> u64
        ensures { result ≡ self.now.sum }
    {
        self.sum
    }
}

impl Machine for AddingMachine {
    ghost use Rattle.std.specs.Prelude.{ℕ, ⊤};
    ghost use Rattle.adding_machine.specs.Sums.{addition, Adds};

    /// The amount.
    type Event = u64;

    /// The sum.
    type Reply = u64;

    type Note = Addition;

    ghost World = { ℕ };

    ghost opening = { λ m. 0 };

    ghost world = { λ m. m.sum };

    ghost history = { λ m. m.history };

    ghost seats = { λ sum. 64 };

    ghost note = { addition };

    ghost asks = { λ sum who own event. ⊤ };

    ghost asked = { λ sum who own note. ⊤ };

    ghost steps = { Adds };

    fn step(&mut self, who: u32, event: u64) -> u64 {
        let sum = self.sum.wrapping_add(event);
        self.sum = sum;
        let note = Addition { amount: event, sum };
        update_snapshot::<_, _, Append>(&mut self.history, &Entry { by: who, note });
        sum
    }
}
