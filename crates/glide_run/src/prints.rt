// Prints views.
ghost use Rattle.std.specs.Prelude.{◌≡◌, ◌≢◌, ◌<◌, length, Some, Err, slice_get};
ghost use Rattle.outside.specs.Causes.{HasCause};
ghost use Rattle.request_tracker.specs.declared.views.ViewState.TheVariants.{Complete};
ghost use Rattle.engine_shared.specs.Caller.{Caller};
ghost use Rattle.script_walk.specs.Walk.{Digest, Form, Outcome, Pixels, Stage, WalkView};
ghost use Rattle.engine_views.specs.Following.{standing, Follows, IsOnWalk};
ghost use Rattle.glide_run.specs.inside.Prints.{printer, PrintsView, PrintsViews, plain_state_of};

use crate::looks::{picture_shown, write_pixels};
use engine_shared::EngineCalls;
use engine_views::EngineViews;
use fetch_bounds::followed_traces_join;
use load_cause::Cause;
use outside::{Sink, WriteFault};
use printed_lines::{PlainState, write_plain_line, write_shown_line};
use request_tracker::ViewState;
use std::alloc::Global;

// The state of a view that shows no picture. None comes for one that runs or is complete.
fn plain_state(state: &ViewState<Cause>) -> Option<PlainState>
    ensures { result ≡ plain_state_of state.now }
{
    match state {
        ViewState::Failed(cause) => Some(PlainState::Failed(*cause)),
        ViewState::Waiting => Some(PlainState::Waiting),
        ViewState::Paused => Some(PlainState::Paused),
        ViewState::Cleared => Some(PlainState::Cleared),
        ViewState::Running | ViewState::Complete => None,
    }
}

// Prints the line of a view that shows no picture, and answers whether it says that the view failed.
fn print_plain<W: Sink>(
    alloc: Global,
    out: &mut W,
    views: &EngineViews,
    place: usize,
) -> Result<bool, WriteFault>
    requires { place < length views.now.tracked.views }
    ensures prints { (c : Caller) (outcome : Outcome) (s : Stage) (v : WalkView)
        → Follows outcome s (standing c views.now) → slice_get s.views place ≡ Some v
        → v.view.state ≢ Complete → (form : Form)
        → PrintsView W.Sink views.now outcome form v (printer out.old c) (printer out.new c) result }
    ensures cause { HasCause (W.faults out.old) (W.faults out.new) (result ≡ Err WriteFault.Failed) }
{
    let Some(state) = plain_state(views.state(place)) else {
        return Ok(false);
    };
    write_plain_line(alloc, out, views.name(place).bytes(), state)?;
    Ok(matches!(state, PlainState::Failed(_)))
}

/// Prints the view at a place by its pixels, and answers whether its line says that it failed.
pub fn print_pixels<E: EngineCalls, W: Sink>(
    alloc: Global,
    engine: &mut E,
    out: &mut W,
    views: &EngineViews,
    place: usize,
) -> Result<bool, WriteFault>
    requires place { place < length views.now.tracked.views }
    requires on_walk { IsOnWalk (standing (E.caller engine.old) views.now) }
    ensures prints { (outcome : Outcome) (s : Stage) (v : WalkView)
        → Follows outcome s (standing (E.caller engine.old) views.now) → slice_get s.views place ≡ Some v
        → PrintsView W.Sink views.now outcome Pixels v
        (printer out.old (E.caller engine.old)) (printer out.new (E.caller engine.new)) result }
    ensures cause { HasCause (W.faults out.old) (W.faults out.new) (result ≡ Err WriteFault.Failed) }
{
    match views.shown(place) {
        Some(load) => {
            write_pixels(alloc, engine, out, views, views.name(place).bytes(), load)?;
            Ok(false)
        }
        None => print_plain(alloc, out, views, place),
    }
}

// Prints the view at a place by its digest, and answers whether its line says that it failed.
fn print_digest<E: EngineCalls, W: Sink>(
    alloc: Global,
    engine: &mut E,
    out: &mut W,
    views: &EngineViews,
    place: usize,
) -> Result<bool, WriteFault>
    requires place { place < length views.now.tracked.views }
    requires on_walk { IsOnWalk (standing (E.caller engine.old) views.now) }
    ensures prints { (outcome : Outcome) (s : Stage) (v : WalkView)
        → Follows outcome s (standing (E.caller engine.old) views.now) → slice_get s.views place ≡ Some v
        → PrintsView W.Sink views.now outcome Digest v
        (printer out.old (E.caller engine.old)) (printer out.new (E.caller engine.new)) result }
    ensures cause { HasCause (W.faults out.old) (W.faults out.new) (result ≡ Err WriteFault.Failed) }
{
    match views.shown(place) {
        Some(load) => {
            let shown = picture_shown(engine, views, load);
            write_shown_line(alloc, out, views.name(place).bytes(), &shown)?;
            Ok(false)
        }
        None => print_plain(alloc, out, views, place),
    }
}

/// Prints each view in order of first load. Answers whether a line says that a view failed.
pub fn print_views<E: EngineCalls, W: Sink>(
    alloc: Global,
    engine: &mut E,
    out: &mut W,
    views: &EngineViews,
) -> Result<bool, WriteFault>
    requires on_walk { IsOnWalk (standing (E.caller engine.old) views.now) }
    ensures prints { (outcome : Outcome) (s : Stage)
        → Follows outcome s (standing (E.caller engine.old) views.now)
        → PrintsViews W.Sink views.now outcome s.views
        (printer out.old (E.caller engine.old)) (printer out.new (E.caller engine.new)) result }
    ensures cause { HasCause (W.faults out.old) (W.faults out.new) (result ≡ Err WriteFault.Failed) }
{
    followed_traces_join();
    let mut failing = false;
    for place in 0..views.count() {
        failing |= print_digest(alloc, engine, out, views, place)?;
    }
    Ok(failing)
}
