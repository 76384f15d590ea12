// The steps that a caller's calls are made of.
ghost use Rattle.std.specs.Prelude.{◌≡◌};
ghost use Rattle.std.specs.Option.{option_map};
ghost use Rattle.store_world.specs.Steps.{granted};
ghost use Rattle.store_world.specs.Permits.{Permits, HasRequest};
ghost use Rattle.store_world.specs.StoreMachine.{noted};
ghost use Rattle.store_shared.specs.Caller.{Caller, knowledge_of, content_of, IsStep, MadeSteps};
ghost use Rattle.store_shared.specs.Answers.{Waits};
ghost use Rattle.store_shared.specs.Replied.{RepliesTo};

use disk_store::{StoreEvent, StoreReply};

/// The store as one caller sees it, step by step. Others may make steps between two of this caller's.
pub trait StoreSteps {
    // The caller's seat, what the store began with, and what the caller has seen.
    ghost caller: { Self → Caller };

    /// Makes an event of the caller's seat.
    fn step(&mut self, event: StoreEvent) -> StoreReply
        requires asks { Permits (content_of (caller self.old)) (knowledge_of (caller self.old)) event }
        ensures step { IsStep (caller self.old) (noted event result) (caller self.new) }
        ensures reply { RepliesTo event result };

    /// Asks for the lock that the caller wants until it has it.
    fn lock(&mut self)
        requires wants { HasRequest (knowledge_of (caller self.old)) }
        ensures steps { MadeSteps Waits (caller self.old) (caller self.new) }
        ensures has { knowledge_of (caller self.new)
            ≡ option_map granted (knowledge_of (caller self.old)) };
}
