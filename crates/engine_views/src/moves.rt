// The moves of views, each by the tracker's orders.
ghost use Rattle.std.specs.Prelude.{◌≡◌, ◌↔◌, ℕ, ◌+◌, ◌<◌, ◌≤◌, ◌++◌, ◌∷◌, [], false, true, List, length, None, Ok, Some, IfOk, OnOk, OnErr, IsErrOf, IsSome, slice_get, vec_len, map};
ghost use Rattle.std.specs.Vec.{vec_capacity};
ghost use Rattle.cache_key.specs.Size.{IsSize};
ghost use Rattle.load_cause.specs.declared.causes.Cause.{Cause};
ghost use Rattle.request_tracker.specs.Moves.{Move, moved, can_load, is_known, act_move, IsOrderIn};
ghost use Rattle.request_tracker.specs.declared.views.ViewState.{ViewState};
ghost use Rattle.script_lines.specs.declared.commands.Command.TheVariants as commands;
ghost use Rattle.script_walk.specs.Walk.{Outcome, Stage};
ghost use Rattle.engine_world.specs.Permits.{load_limit};
ghost use Rattle.engine_shared.specs.Caller.{knowledge_of};
ghost use Rattle.engine_views.specs.Held.{loads_in};
ghost use Rattle.engine_views.specs.Owner.{HasJust, MayLoad};
ghost use Rattle.engine_views.specs.Following.{standing, IsOnWalk, Moves, IsUnmoved, act_command};
ghost use Rattle.engine_views.specs.inside.Orders.{IsFreeFor, LetsGo, Drops, Begins, Obeys, with_hold, orders_of, paused_after, CanObeyAll, ObeysAll};
ghost use Rattle.engine_views.specs.inside.ViewLaws.{ViewLaws};

use crate::holds::EngineViews;
use crate::turned::Turned;
use cache_key::{LoadSpec, Text};
use engine_core::{Core, Reply};
use engine_shared::{EngineCalls, Hold, calls_leave_the_rest, calls_tell_what_they_add};
use engine_world::{each_event_keeps_opening, each_history_is_sound};
use faults::NoMemory;
use fetch_bounds::{failures_add_up, followed_traces_join};
use request_tracker::{Act, Ask, Order, ViewFault};
use script_walk::{a_tracker_makes_the_moves, moves_go_by_place};
use std::alloc::Global;

// The laws of other crates that these moves stand on.
pub(crate) fn laws_of_moves()
    ensures { ViewLaws }
{
    calls_leave_the_rest();
    calls_tell_what_they_add();
    each_event_keeps_opening();
    followed_traces_join();
    failures_add_up();
}

// Makes room for the hold of a view.
fn make_room(holds: &mut Vec<Option<Hold>>) -> Result<(), NoMemory>
    ensures same { holds.new.items ≡ holds.old.items }
    ensures room { OnOk result (vec_len holds.new < vec_capacity holds.new) }
{
    holds.reserve(1)?;
    Ok(())
}

// Adds the hold of a view that is new. It holds nothing yet.
fn push_hold(holds: &mut Vec<Option<Hold>>)
    requires { vec_len holds.old < vec_capacity holds.old }
    ensures { holds.new.items ≡ holds.old.items ++ None ∷ [] }
{
    match holds.push(None) {
        Ok(()) => {}
        Err(_) => unreachable!(),
    }
}

// Adds the hold of a view, unless the view is known and has one.
fn hold_for(holds: &mut Vec<Option<Hold>>, known: bool)
    requires { vec_len holds.old < vec_capacity holds.old }
    ensures { holds.new.items ≡ with_hold known holds.old.items }
{
    if known {
        return;
    }
    push_hold(holds);
}

impl EngineViews {
    // Releases the load that is held at a place, if one is.
    pub(crate) fn let_go<E: EngineCalls>(&mut self, engine: &mut E, place: usize)
        requires place { place < length self.old.holds }
        requires just { HasJust (E.caller engine.old) (loads_in self.old.holds) }
        ensures tracked { self.new.tracked ≡ self.old.tracked }
        ensures lets_go { LetsGo place (standing (E.caller engine.old) self.old)
            (standing (E.caller engine.new) self.new) }
        ensures just { HasJust (E.caller engine.new) (loads_in self.new.holds) }
    {
        laws_of_moves();
        let Some(load) = self.holds[place].take() else {
            return;
        };
        engine.release(load);
    }

    // Releases the load that is held at the place of an order, where the order says so.
    fn drop_hold<E: EngineCalls>(&mut self, engine: &mut E, order: Order)
        requires place { order.place < length self.old.holds }
        requires just { HasJust (E.caller engine.old) (loads_in self.old.holds) }
        ensures tracked { self.new.tracked ≡ self.old.tracked }
        ensures drops { Drops order.drop_hold order.place (standing (E.caller engine.old) self.old)
            (standing (E.caller engine.new) self.new) }
        ensures just { HasJust (E.caller engine.new) (loads_in self.new.holds) }
    {
        if !order.drop_hold {
            return;
        }
        self.let_go(engine, order.place);
    }

    // Begins a load at a place, where nothing is held.
    fn begin<E: EngineCalls>(&mut self, engine: &mut E, place: usize, spec: LoadSpec)
        requires free { slice_get self.old.holds place ≡ Some None }
        requires just { HasJust (E.caller engine.old) (loads_in self.old.holds) }
        requires few { (knowledge_of (E.caller engine.old)).begun < load_limit }
        ensures tracked { self.new.tracked ≡ self.old.tracked }
        ensures begins { Begins place (Some spec) (standing (E.caller engine.old) self.old)
            (standing (E.caller engine.new) self.new) }
        ensures just { HasJust (E.caller engine.new) (loads_in self.new.holds) }
    {
        let _ = &self.tracker;
        laws_of_moves();
        each_history_is_sound::<Core, Reply>();
        let Ok(load) = engine.load(spec) else {
            return;
        };
        // Nothing was held there, so this releases nothing.
        if let Some(old) = self.holds[place].replace(load) {
            engine.release(old);
            return;
        }
    }

    // Obeys an order: the load that is held is released, and then the one that is asked for begins, where each is so said.
    fn obey<E: EngineCalls>(&mut self, engine: &mut E, turned: Turned)
        requires place { turned.order.place < length self.old.holds }
        requires just { HasJust (E.caller engine.old) (loads_in self.old.holds) }
        requires few { (knowledge_of (E.caller engine.old)).begun < load_limit }
        requires free { IsFreeFor turned self.old.holds }
        ensures tracked { self.new.tracked ≡ self.old.tracked }
        ensures obeys { Obeys turned (standing (E.caller engine.old) self.old)
            (standing (E.caller engine.new) self.new) }
        ensures just { HasJust (E.caller engine.new) (loads_in self.new.holds) }
    {
        let Turned { order, spec } = turned;
        self.drop_hold(engine, order);
        let Some(spec) = spec else {
            return;
        };
        self.begin(engine, order.place, spec);
    }

    /// A load in the view, which is new or known: what it held is released, and its load begins, waits for a size, or is paused.
    ///
    /// `TooMany` comes exactly where the view is new and there are 4,096 views, and then nothing changes. Want of memory comes
    /// before the engine is called.
    pub fn load<E: EngineCalls>(
        &mut self,
        alloc: Global,
        engine: &mut E,
        view: &Text,
        ask: Ask,
    ) -> Result<(), ViewFault>
        requires on_walk { IsOnWalk (standing (E.caller engine.old) self.old) }
        requires few { MayLoad (E.caller engine.old) }
        ensures moves { OnOk result (Moves (commands.Load view.now ask.spec ask.sized)
            (standing (E.caller engine.old) self.old) (standing (E.caller engine.new) self.new)) }
        ensures too_many { IsErrOf result ViewFault.TooMany ↔ (can_load view.now self.old.tracked ≡ false) }
        ensures unmoved { OnErr result (IsUnmoved (standing (E.caller engine.old) self.old)
            (standing (E.caller engine.new) self.new)) }
    {
        if !self.tracker.can_load(view) {
            return Err(ViewFault::TooMany);
        }
        laws_of_moves();
        a_tracker_makes_the_moves();
        moves_go_by_place();
        let known = self.tracker.find(view).is_some();
        make_room(&mut self.holds)?;
        let order = self.tracker.load(alloc, view, ask)?;
        hold_for(&mut self.holds, known);
        let turned = self.turned(alloc, order)?;
        self.obey(engine, turned);
        Ok(())
    }

    /// A layout of the view, which has this width and height from now on, in pixels, each 1 to 16,384. A view that waited for
    /// its size begins; what one that runs asked for stays. Answers whether the view is known; where it is not, nothing changes.
    /// Want of memory comes before the engine is called.
    pub fn layout<E: EngineCalls>(
        &mut self,
        alloc: Global,
        engine: &mut E,
        view: &Text,
        width: u32,
        height: u32,
    ) -> Result<bool, NoMemory>
        requires size { IsSize (width, height) }
        requires on_walk { IsOnWalk (standing (E.caller engine.old) self.old) }
        requires few { MayLoad (E.caller engine.old) }
        ensures unknown { (result ≡ Ok false) ↔ (is_known view.now self.old.tracked.views ≡ false) }
        ensures moves { result ≡ Ok true → Moves (commands.Layout view.now width height)
            (standing (E.caller engine.old) self.old) (standing (E.caller engine.new) self.new) }
        ensures kept { result ≡ Ok false → self.new ≡ self.old }
        ensures unasked { result ≡ Ok false → E.caller engine.new ≡ E.caller engine.old }
        ensures unmoved { OnErr result (IsUnmoved (standing (E.caller engine.old) self.old)
            (standing (E.caller engine.new) self.new)) }
    {
        laws_of_moves();
        a_tracker_makes_the_moves();
        moves_go_by_place();
        match self.tracker.layout(view, width, height) {
            None => Ok(false),
            Some(order) => {
                let turned = self.turned(alloc, order)?;
                self.obey(engine, turned);
                Ok(true)
            }
        }
    }

    /// Clears the view: the load that it held is released. Answers whether the view is known; where it is not, nothing changes.
    /// Want of memory comes before the engine is called.
    pub fn clear<E: EngineCalls>(
        &mut self,
        alloc: Global,
        engine: &mut E,
        view: &Text,
    ) -> Result<bool, NoMemory>
        requires on_walk { IsOnWalk (standing (E.caller engine.old) self.old) }
        requires few { MayLoad (E.caller engine.old) }
        ensures unknown { (result ≡ Ok false) ↔ (is_known view.now self.old.tracked.views ≡ false) }
        ensures moves { result ≡ Ok true → Moves (commands.Clear view.now)
            (standing (E.caller engine.old) self.old) (standing (E.caller engine.new) self.new) }
        ensures kept { result ≡ Ok false → self.new ≡ self.old }
        ensures unasked { result ≡ Ok false → E.caller engine.new ≡ E.caller engine.old }
        ensures unmoved { OnErr result (IsUnmoved (standing (E.caller engine.old) self.old)
            (standing (E.caller engine.new) self.new)) }
    {
        laws_of_moves();
        a_tracker_makes_the_moves();
        moves_go_by_place();
        match self.tracker.clear(view) {
            None => Ok(false),
            Some(order) => {
                let turned = self.turned(alloc, order)?;
                self.obey(engine, turned);
                Ok(true)
            }
        }
    }

    /// A move of each view in order of first load. After `Pause` and `PauseAll` loads are paused until `Resume`. Want of memory
    /// comes before the engine is called.
    pub fn act<E: EngineCalls>(
        &mut self,
        alloc: Global,
        engine: &mut E,
        act: Act,
    ) -> Result<(), NoMemory>
        requires on_walk { IsOnWalk (standing (E.caller engine.old) self.old) }
        requires few { MayLoad (E.caller engine.old) }
        ensures moves { OnOk result (Moves (act_command act) (standing (E.caller engine.old) self.old)
            (standing (E.caller engine.new) self.new)) }
        ensures unmoved { OnErr result (IsUnmoved (standing (E.caller engine.old) self.old)
            (standing (E.caller engine.new) self.new)) }
    {
        let _ = &self.tracker;
        laws_of_moves();
        a_tracker_makes_the_moves();
        moves_go_by_place();
        self.pause_for(act);
        let all = self.turn_each(alloc, act)?;
        self.obey_each(engine, all);
        Ok(())
    }

    // After `Pause` and `PauseAll` loads are paused until `Resume`.
    fn pause_for(&mut self, act: Act)
        ensures { self.new ≡ record self.old {
          tracked = record self.old.tracked { paused = paused_after act self.old.tracked.paused };
        } }
    {
        match act {
            Act::Pause | Act::PauseAll => self.tracker.set_paused(true),
            Act::Resume => self.tracker.set_paused(false),
            Act::ClearAll => {}
        }
    }

    // Each view of the tracker makes the move, one after the other. Answers the orders, with what they ask for.
    fn turn_each(&mut self, alloc: Global, act: Act) -> Result<Vec<Turned>, NoMemory>
        ensures orders { IfOk result (λ all. all.items ≡ orders_of (act_move act) self.old.tracked.views) }
        ensures tracked { OnOk result (self.new.tracked ≡ record self.old.tracked {
          views = map (λ view. (view.0, moved (act_move act) view.1)) self.old.tracked.views;
        }) }
        ensures holds { self.new.holds ≡ self.old.holds }
    {
        let mut all = Vec::with_capacity(alloc, self.tracker.count())?;
        for place in 0..self.tracker.count() {
            let order = self.tracker.act(act, place);
            let turned = self.turned(alloc, order)?;
            match all.push(turned) {
                Ok(()) => {}
                Err(_) => return Err(NoMemory),
            }
        }
        Ok(all)
    }

    // Obeys the orders of all views, one after the other.
    fn obey_each<E: EngineCalls>(&mut self, engine: &mut E, all: Vec<Turned>)
        requires can { CanObeyAll all.items (standing (E.caller engine.old) self.old) }
        requires few { MayLoad (E.caller engine.old) }
        ensures tracked { self.new.tracked ≡ self.old.tracked }
        ensures obeys { ObeysAll all.items (standing (E.caller engine.old) self.old)
            (standing (E.caller engine.new) self.new) }
    {
        let _ = &self.tracker;
        laws_of_moves();
        for turned in all {
            self.obey(engine, turned);
        }
    }
}
