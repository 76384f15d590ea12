// The core: the tables with the history of their steps.
ghost use Rattle.std.specs.Prelude.{◌≡◌, ◌<◌, [], ◌∷◌, ◌++◌, length, IfOk};
ghost use Rattle.state_machine.specs.Histories.{entry};
ghost use Rattle.engine_world.specs.World.{opening};
ghost use Rattle.engine_world.specs.Steps.{Transition};
ghost use Rattle.engine_world.specs.Knowledge.{knowledge_in};
ghost use Rattle.engine_world.specs.Permits.{Permits};
ghost use Rattle.engine_world.specs.EngineMachine.{opening_of};
ghost use Rattle.engine_core.specs.CoreView.{IsCore, note_of};
ghost use Rattle.engine_core.specs.Opening.{AreServed};
ghost use Rattle.engine_core.specs.Padded.{PadsPiece};
ghost use Rattle.engine_core.specs.Noted.{noted};

use crate::history::{History, add_entry};
use crate::replies::{Limits, Reply};
use crate::tables::Tables;
use engine_world::{
    Event, Note, each_event_keeps_limits, each_event_keeps_opening, each_event_keeps_sound,
    each_history_is_sound,
};
use faults::NoMemory;
use outside::Told;
use state_machine::{Machine, own_entries_append};
use std::alloc::Global;
use std::collections::LinkedList;
use std::marker::Model;
use std::snapshot::Snapshot;

/// The engine's core. It shares the decode of loads for one picture, keeps each bitmap in one place, and gives a seat's loads
/// their pictures. docs/ENGINE.md has the table of its events.
///
/// Contracts see its world, and the history of its steps since it was made.
#[derive(Drop)]
pub struct Core {
    tables: Tables,
    history: History,
}

impl Model for Core {
    ghost use Rattle.std.specs.Coded.{codes};
    ghost use Rattle.std.specs.FinMap as map;
    ghost use Rattle.engine_core.specs.CoreView.{CoreValue, IsCore};

    ghost Value = { CoreValue };

    ghost coded = { Prim.hlevel (codes, map.code) };

    ghost view = { λ s. record { world = s.tables; history = s.history.value } };

    ghost invariant = { λ s. IsCore s.tables s.history.value };
}

// No step yet.
fn no_history(alloc: Global) -> History
    ensures { result.value ≡ [] }
{
    Snapshot::of(&LinkedList::new(alloc))
}

impl Core {
    /// A core for 1 to 64 seats that may have at most 8,192 loads together. It takes all the memory that later events need, but
    /// a take's.
    pub fn new(alloc: Global, limits: Limits, told: Told) -> Result<Core, NoMemory>
        requires { AreServed limits }
        ensures { IfOk result (λ core. core ≡ record { world = opening limits told; history = [] }) }
    {
        each_event_keeps_limits();
        each_history_is_sound::<Core, Reply>();
        Ok(Core {
            tables: Tables::new(alloc, limits, told)?,
            history: no_history(alloc),
        })
    }

    /// Takes an event of the seat `who`, and replies to it. After `new` only `Take` takes memory. The bytes of a piece
    /// after its count are 0.
    pub fn step(&mut self, who: u32, event: Event) -> Reply
        requires who { who < length self.old.world.limits.quotas }
        requires asks { Permits self.old.world.content (knowledge_in self.old.history who) event }
        ensures step { Transition self.old.world who event (noted result) self.new.world }
        ensures history { self.new.history ≡ self.old.history ++ entry who (note_of event result) ∷ [] }
        ensures opening { opening_of self.new.world ≡ opening_of self.old.world }
        ensures padded { PadsPiece event result }
    {
        each_event_keeps_sound();
        each_event_keeps_limits();
        each_event_keeps_opening();
        own_entries_append::<Note>();
        let shown = Snapshot::of(&event);
        let reply = self.tables.answer(&self.history, who, event);
        add_entry(&mut self.history, who, shown, &reply);
        reply
    }

    /// Whatever its seats did, a core's world is sound for what they know, so each bitmap has one place; and it is within its
    /// limits.
    pub fn is_in_order(&self)
        ensures { IsCore self.now.world self.now.history }
    {
        let _history = &self.history;
    }
}

impl Machine for Core {
    type Event = Event;

    type Reply = Reply;

    type Note = Note;

    ghost use Rattle.engine_world.specs.World.{World};
    ghost use Rattle.engine_world.specs.EngineMachine as engine;
    ghost use Rattle.engine_world.specs.Steps.{Step};
    ghost use Rattle.engine_core.specs.CoreView as core_view;

    ghost World = { World };

    ghost opening = { λ s. engine.opening_of s.world };

    ghost world = { λ s. s.world };

    ghost history = { λ s. s.history };

    ghost seats = { engine.seats_of };

    ghost note = { core_view.note_of };

    ghost asks = { engine.asks };

    ghost asked = { engine.asked };

    ghost steps = { Step };

    fn step(&mut self, who: u32, event: Event) -> Reply {
        self.step(who, event)
    }
}
