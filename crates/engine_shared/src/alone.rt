// An engine that one caller owns.
ghost use Rattle.std.specs.Prelude.{◌≡◌, ◌<◌, [], IfOk};
ghost use Rattle.engine_world.specs.declared.events.Event.TheVariants as events;
ghost use Rattle.engine_world.specs.Permits.{Permits, load_limit};
ghost use Rattle.engine_world.specs.EngineMachine.{opening_of};
ghost use Rattle.engine_core.specs.Noted.{noted};
ghost use Rattle.engine_core.specs.Padded.{PadsPiece};
ghost use Rattle.engine_shared.specs.Caller.{knowledge_of, content_of, IsLegal, IsCall};
ghost use Rattle.engine_shared.specs.Answers.{OfReply, IsLoaded};
ghost use Rattle.engine_shared.specs.Kinds.{IsNoLoad};
ghost use Rattle.engine_shared.specs.Owned.{owner_of};

use crate::answers::{Full, Next, Outcome};
use crate::calls::EngineCalls;
use crate::laws::{calls_add_entries, calls_are_answered, calls_tell_what_they_add};
use crate::replied::{
    bitmap_of, next_of, outcome_of, piece_of, shape_of, totals_of, was_cancelled, was_finished,
    was_loaded,
};
use crate::tokens::{Hold, JobPass};
use bitmap_kind::{Bitmap, Config};
use cache_key::{KeyRoom, LoadSpec};
use engine_core::{Core, Piece, Reply};
use engine_world::{Event, Shape, Totals};
use faults::NoMemory;
use load_cause::Cause;
use std::marker::Model;
use std::snapshot::Snapshot;

/// An engine that one caller owns, as the only seat that makes steps. Its seat has number 0.
#[derive(Drop)]
pub struct Alone {
    core: Core,
    begun: u64,
}

impl Model for Alone {
    ghost use Rattle.std.specs.Coded.{codes};
    ghost use Rattle.std.specs.FinMap as map;
    ghost use Rattle.engine_shared.specs.Caller.{Caller};
    ghost use Rattle.engine_shared.specs.Answers.{OfReply, IsLoaded};
    ghost use Rattle.engine_shared.specs.Owned.{owner_of, IsOwned};

    ghost Value = { Caller };

    ghost coded = { Prim.hlevel (codes, map.code) };

    ghost view = { λ s. owner_of s.core };

    ghost invariant = { λ s. IsOwned s.core s.begun };
}

// An event of the owner.
fn call(core: &mut Core, event: Event) -> Reply
    requires legal { IsLegal (owner_of core.old) }
    requires permits { Permits (content_of (owner_of core.old)) (knowledge_of (owner_of core.old)) event }
    ensures entry { IsCall (owner_of core.old) event (noted result) (owner_of core.new) }
    ensures padded { PadsPiece event result }
{
    calls_add_entries();
    core.step(0, event)
}

impl Alone {
    /// An engine of a core that has made no step.
    pub fn new(core: Core) -> Alone
        requires fresh { core.history ≡ [] }
        requires opened { core.world ≡ opening_of core.world }
        ensures { result ≡ owner_of core }
    {
        core.is_in_order();
        Alone { core, begun: 0 }
    }

    /// The core, as the calls left it.
    pub fn into_core(self) -> Core
        ensures { owner_of result ≡ self }
    {
        let Alone { core, begun: _ } = self;
        core
    }

    // An event that is no load.
    fn step(&mut self, event: Event) -> Reply
        requires other { IsNoLoad event }
        requires permits { Permits (content_of self.old) (knowledge_of self.old) event }
        ensures entry { IsCall self.old event (noted result) self.new }
        ensures padded { PadsPiece event result }
    {
        call(&mut self.core, event)
    }

    // A load. Where it is not refused, this is its number.
    fn begin(&mut self, spec: LoadSpec) -> Result<u64, Full>
        requires few { (knowledge_of self.old).begun < load_limit }
        ensures entry { OfReply (IsLoaded result)
            (λ reply. IsCall self.old (events.Load spec) reply self.new) }
        ensures number { IfOk result (λ number. number ≡ (knowledge_of self.old).begun) }
        ensures seat { self.old.who ≡ 0 }
    {
        calls_are_answered();
        was_loaded(call(&mut self.core, Event::Load(spec)))?;
        let number = self.begun;
        self.begun += 1;
        Ok(number)
    }
}

impl EngineCalls for Alone {
    ghost caller = { λ s. s };

    fn load(&mut self, spec: LoadSpec) -> Result<Hold, Full> {
        calls_tell_what_they_add();
        let key = Snapshot::of(&spec.key);
        let number = self.begin(spec)?;
        Ok(Hold::new(0, number, key))
    }

    fn collect(&mut self, hold: &Hold) -> Outcome {
        calls_tell_what_they_add();
        calls_are_answered();
        outcome_of(self.step(Event::Collect(hold.number())))
    }

    fn look(&mut self, hold: &Hold) -> Shape {
        calls_tell_what_they_add();
        calls_are_answered();
        shape_of(self.step(Event::Look(hold.number())))
    }

    fn read(&mut self, hold: &Hold, at: usize) -> Piece {
        calls_tell_what_they_add();
        calls_are_answered();
        piece_of(self.step(Event::Read(hold.number(), at)))
    }

    fn release(&mut self, hold: Hold) {
        let _ = self.step(Event::Release(hold.spend()));
    }

    fn next_job(&mut self, room: KeyRoom) -> Next {
        calls_tell_what_they_add();
        next_of(self.step(Event::NextJob(room)))
    }

    fn take(
        &mut self,
        pass: &mut JobPass,
        width: u32,
        height: u32,
        config: Config,
    ) -> Result<Bitmap, NoMemory> {
        calls_tell_what_they_add();
        calls_are_answered();
        let reply = self.step(Event::Take(pass.number(), width, height, config));
        let bitmap = bitmap_of(reply)?;
        pass.add_lent(&bitmap);
        Ok(bitmap)
    }

    fn give_back(&mut self, pass: &mut JobPass, bitmap: Bitmap) {
        let number = bitmap.number();
        let _ = self.step(Event::GiveBack(pass.number(), bitmap));
        pass.drop_lent(number);
    }

    fn finish(&mut self, pass: JobPass, bitmap: Bitmap) -> (bool, KeyRoom) {
        let reply = self.step(Event::Finish(pass.number(), bitmap));
        (was_finished(reply), pass.into_room())
    }

    fn fail(&mut self, pass: JobPass, cause: Cause) -> KeyRoom {
        let _ = self.step(Event::Fail(pass.number(), cause));
        pass.into_room()
    }

    fn quit(&mut self, pass: JobPass) -> KeyRoom {
        let _ = self.step(Event::Quit(pass.number()));
        pass.into_room()
    }

    fn is_cancelled(&mut self, pass: &mut JobPass) -> bool {
        let cancelled = was_cancelled(self.step(Event::IsCancelled(pass.number())));
        pass.tell(cancelled);
        cancelled
    }

    fn trim(&mut self, level: u32) {
        let _ = self.step(Event::Trim(level));
    }

    fn close(&mut self) {
        let _ = self.step(Event::Close);
    }

    fn totals(&mut self) -> Totals {
        totals_of(self.step(Event::Totals))
    }

    fn wait_news(&mut self) {}
}
