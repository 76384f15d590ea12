// The trait of machines.
ghost use Rattle.std.specs.Prelude.{◌≡◌, ℕ, ◌<◌, List, [], ◌∷◌, ◌++◌};
ghost use Rattle.state_machine.specs.declared.entry.Entry.{Entry};
ghost use Rattle.state_machine.specs.Histories.{entry, own};

/// A machine that takes events one at a time, each by one of its seats, and replies to each.
///
/// Contracts see the plain data that it stands for, its world, and the history of its steps.
pub trait Machine {
    type Event;

    type Reply;

    /// What the history keeps of an event and its reply. It is there for contracts.
    type Note;

    // The plain data that a machine stands for.
    ghost World: { Type 0 };

    // The world that it began with.
    ghost opening: { Self → World };

    // The world that it stands for now.
    ghost world: { Self → World };

    // The entries of its steps so far, the oldest first.
    ghost history: { Self → List (Entry Self.Note) };

    // How many seats a machine serves that began with this world. They are numbered from 0.
    ghost seats: { World → ℕ };

    // What the history keeps of an event and its reply.
    ghost note: { Self.Event → Self.Reply → Self.Note };

    // What an event asks: of the opening world, of the seat, and of the seat's own entries so far.
    ghost asks: { World → ℕ → List (Entry Self.Note) → Self.Event → Type 0 };

    // The same, as far as the history keeps the event.
    ghost asked: { World → ℕ → List (Entry Self.Note) → Self.Note → Type 0 };

    // A step with this entry leads from one world to the other.
    ghost steps: { World → Entry Self.Note → World → Type 0 };

    /// Takes an event of the seat `who`, and replies to it.
    fn step(&mut self, who: u32, event: Self::Event) -> Self::Reply
        requires who { who < seats (opening self.old) }
        requires asks { asks (opening self.old) who (own who (history self.old)) event }
        ensures opening { opening self.new ≡ opening self.old }
        ensures history { history self.new ≡ history self.old ++ entry who (note event result) ∷ [] }
        ensures asked { asked (opening self.old) who (own who (history self.old)) (note event result) }
        ensures steps { steps (world self.old) (entry who (note event result)) (world self.new) };
}
