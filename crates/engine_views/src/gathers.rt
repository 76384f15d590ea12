// How the loads of views come to their ends.
ghost use Rattle.std.specs.Prelude.{◌≡◌, ◌<◌, length, IfOk, OnErr};
ghost use Rattle.engine_shared.specs.Caller.{content_of};
ghost use Rattle.decode_job.specs.Sources.{TellsContent};
ghost use Rattle.engine_views.specs.Held.{loads_in};
ghost use Rattle.engine_views.specs.Owner.{HasJust};
ghost use Rattle.engine_views.specs.Following.{standing, IsOnWalk};
ghost use Rattle.engine_views.specs.Gathers.{moment, Gathers};
ghost use Rattle.engine_views.specs.inside.Collects.{Collects};

use crate::holds::EngineViews;
use crate::jobs::run_jobs;
use cache_key::KeyRoom;
use engine_shared::{EngineCalls, Outcome, calls_leave_the_rest, calls_tell_what_they_add};
use engine_world::each_event_keeps_opening;
use faults::NoMemory;
use fetch_bounds::{failures_add_up, followed_traces_join};
use outside::Source;
use request_tracker::ViewState;
use std::alloc::Global;

impl EngineViews {
    // Asks what the load of the view at a place came to, where the view runs. One that failed holds nothing any more.
    fn collect<E: EngineCalls>(&mut self, engine: &mut E, place: usize)
        requires place { place < length self.old.holds }
        requires just { HasJust (E.caller engine.old) (loads_in self.old.holds) }
        ensures collects { Collects place (standing (E.caller engine.old) self.old)
            (standing (E.caller engine.new) self.new) }
        ensures just { HasJust (E.caller engine.new) (loads_in self.new.holds) }
        ensures count { length self.new.holds ≡ length self.old.holds }
    {
        calls_leave_the_rest();
        calls_tell_what_they_add();
        each_event_keeps_opening();
        let ViewState::Running = self.tracker.state(place) else {
            return;
        };
        let Some(load) = &self.holds[place] else {
            return;
        };
        match engine.collect(load) {
            Outcome::Ready => self.tracker.collected(place, None),
            Outcome::Failed(cause) => {
                self.tracker.collected(place, Some(cause));
                self.let_go(engine, place);
            }
            Outcome::NotYet(_) => {}
        }
    }

    /// Runs the jobs that are queued, and brings each view that runs to its end, in order of first load: it is complete and shows
    /// its picture, or has failed and holds nothing. Other views stay as they are. Answers whether a job failed for want of
    /// memory. Want of memory in the call itself comes before the engine is called.
    pub fn gather<E: EngineCalls, S: Source>(
        &mut self,
        alloc: Global,
        engine: &mut E,
        source: &mut S,
    ) -> Result<bool, NoMemory>
        requires on_walk { IsOnWalk (standing (E.caller engine.old) self.old) }
        requires content { TellsContent (content_of (E.caller engine.old)) (S.content source.old) }
        ensures gathers { IfOk result (λ wanting. Gathers S.Source wanting
            (moment (E.caller engine.old) source.old self.old)
            (moment (E.caller engine.new) source.new self.new)) }
        ensures kept { OnErr result (moment (E.caller engine.new) source.new self.new
            ≡ moment (E.caller engine.old) source.old self.old) }
        ensures count { length self.new.tracked.views ≡ length self.old.tracked.views }
    {
        calls_leave_the_rest();
        calls_tell_what_they_add();
        each_event_keeps_opening();
        followed_traces_join();
        failures_add_up();
        let room = KeyRoom::new(alloc)?;
        let wanting = run_jobs(alloc, engine, source, room);
        for place in 0..self.tracker.count() {
            self.collect(engine, place);
        }
        Ok(wanting)
    }
}
