// The views of a script, and the load that each of them holds of the engine.
ghost use Rattle.std.specs.Prelude.{◌≡◌, ◌≢◌, ◌<◌, length, IfOk, IfSome, MatchOption, Some, slice_get};
ghost use Rattle.request_tracker.specs.declared.views.ViewState.TheVariants.{Complete};
ghost use Rattle.request_tracker.specs.Moves.{place_of, name_at, state_at};
ghost use Rattle.script_walk.specs.Walk.{Outcome, Stage, WalkView};
ghost use Rattle.engine_shared.specs.Caller.{Caller, HasLoad};
ghost use Rattle.engine_views.specs.Held.{no_held_views, loads_in};
ghost use Rattle.engine_views.specs.Owner.{HasJust};
ghost use Rattle.engine_views.specs.Following.{standing, Follows, IsShown};
ghost use Rattle.engine_views.specs.Closing.{Closes};
ghost use Rattle.engine_views.specs.inside.Orders.{Released};

use cache_key::Text;
use engine_shared::{EngineCalls, Hold, calls_leave_the_rest, calls_tell_what_they_add};
use engine_world::each_event_keeps_opening;
use faults::NoMemory;
use fetch_bounds::failures_add_up;
use load_cause::Cause;
use request_tracker::{Tracker, ViewState};
use std::alloc::Global;
use std::marker::Model;

/// The views of a script, each with the load that it holds of the engine, if it holds one. A place is the number of views whose
/// first load came before. In Glide a view's target holds the resource of its load.
///
/// They must be closed, which releases their loads: no load can be let go.
pub struct EngineViews {
    pub(crate) tracker: Tracker<Cause>,
    pub(crate) holds: Vec<Option<Hold>>,
}

impl Model for EngineViews {
    ghost use Rattle.std.specs.Prelude.{◌≡◌, ◌≤◌, length};
    ghost use Rattle.request_tracker.specs.Limits.{views_limit};
    ghost use Rattle.engine_views.specs.Held.{Held};

    ghost Value = { Held };

    ghost view = { λ v. record { tracked = v.tracker; holds = v.holds.items } };

    ghost invariant = { λ v. (length v.holds.items ≡ length v.tracker.views) × (length v.holds.items ≤ views_limit) };
}

// Releases what a view holds, if that is a load.
fn release_hold<E: EngineCalls>(engine: &mut E, hold: Option<Hold>)
    requires { IfSome hold (HasLoad (E.caller engine.old)) }
    ensures { Released hold (E.caller engine.old) (E.caller engine.new) }
{
    if let Some(load) = hold {
        engine.release(load);
    }
}

impl EngineViews {
    /// No views, as a script begins.
    pub fn new(alloc: Global) -> Result<EngineViews, NoMemory>
        ensures none { IfOk result (λ views. views ≡ no_held_views) }
    {
        Ok(EngineViews {
            tracker: Tracker::new(alloc)?,
            holds: Vec::new(alloc),
        })
    }

    /// How many views there are.
    pub fn count(&self) -> usize
        ensures { result ≡ length self.now.tracked.views }
    {
        self.tracker.count()
    }

    /// The place of the view. None comes where the view is unknown.
    pub fn find(&self, view: &Text) -> Option<usize>
        ensures place { result ≡ place_of view.now self.now.tracked.views }
        ensures within { IfSome result (λ place. place < length self.now.tracked.views) }
    {
        self.tracker.find(view)
    }

    /// The name of the view at a place.
    pub fn name(&self, place: usize) -> &Text
        requires { place < length self.now.tracked.views }
        ensures { Some result.now ≡ name_at place self.now.tracked.views }
    {
        self.tracker.name(place)
    }

    /// The state of the view at a place.
    pub fn state(&self, place: usize) -> &ViewState<Cause>
        requires { place < length self.now.tracked.views }
        ensures { Some result.now ≡ state_at place self.now.tracked.views }
    {
        self.tracker.state(place)
    }

    /// The load whose picture the view at a place shows, exactly where the view is complete.
    pub fn shown(&self, place: usize) -> Option<&Hold>
        requires { place < length self.now.tracked.views }
        ensures { (c : Caller) (outcome : Outcome) (s : Stage) (v : WalkView)
            → Follows outcome s (standing c self.now) → slice_get s.views place ≡ Some v
            → MatchOption result (v.view.state ≢ Complete) (λ load. IsShown c outcome v load.now) }
    {
        match self.tracker.state(place) {
            ViewState::Complete => self.holds[place].as_ref(),
            _ => None,
        }
    }

    /// Releases each load that is held, in order of the views.
    pub fn close<E: EngineCalls>(self, engine: &mut E)
        requires { HasJust (E.caller engine.old) (loads_in self.holds) }
        ensures { Closes (loads_in self.holds) (E.caller engine.old) (E.caller engine.new) }
    {
        calls_leave_the_rest();
        calls_tell_what_they_add();
        each_event_keeps_opening();
        failures_add_up();
        let EngineViews { tracker: _, holds } = self;
        let mut holds = holds;
        holds.reverse();
        'holds: while let Some(hold) = holds.pop() {
            release_hold(engine, hold);
        }
        holds.destroy_empty();
    }
}
