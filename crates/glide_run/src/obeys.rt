// Obeys a command.
ghost use Rattle.std.specs.Prelude.{◌≡◌, ◌≢◌, Err, OnErr};
ghost use Rattle.outside.specs.Causes.{HasCause};
ghost use Rattle.script_lines.specs.Commands.{IsCommand};
ghost use Rattle.script_lines.specs.declared.commands.Command.TheVariants as commands;
ghost use Rattle.engine_shared.specs.Caller.{content_of};
ghost use Rattle.decode_job.specs.Sources.{TellsContent};
ghost use Rattle.engine_views.specs.Owner.{MayLoad};
ghost use Rattle.engine_views.specs.Held.{Held};
ghost use Rattle.engine_views.specs.Following.{standing, IsOnWalk, Moves, act_command};
ghost use Rattle.glide_run.specs.Built.{is_built_load};
ghost use Rattle.glide_run.specs.inside.Obeys.{MovesGive, Gives, moment};

use crate::prints::{print_pixels, print_views};
use crate::run::{Obeyed, Stop, Troubles};
use cache_key::{LoadSpec, Strategy, Text};
use engine_shared::EngineCalls;
use engine_views::{EngineViews, quiet_calls_leave_views};
use faults::NoMemory;
use fetch_bounds::followed_traces_join;
use outside::{Sink, Source};
use request_tracker::{Act, Ask, ViewFault};
use script_lines::Command;
use std::alloc::Global;

// Nothing went wrong.
const NONE: Troubles = Troubles {
    failing: false,
    wanting: false,
};

// Whether a load says nothing of the disk cache, and lets the source answer.
fn is_built_load(spec: &LoadSpec) -> bool
    ensures { result ≡ is_built_load spec.now }
{
    spec.strategy == Strategy::Automatic && !spec.cached
}

// Obeys a `load`.
fn load<E: EngineCalls>(
    alloc: Global,
    engine: &mut E,
    views: &mut EngineViews,
    view: &Text,
    ask: Ask,
) -> Result<Obeyed, NoMemory>
    requires on_walk { IsOnWalk (standing (E.caller engine.old) views.old) }
    requires few { MayLoad (E.caller engine.old) }
    ensures { MovesGive (commands.Load view.now ask.spec ask.sized) result
        (standing (E.caller engine.old) views.old) (standing (E.caller engine.new) views.new) }
{
    match views.load(alloc, engine, view, ask) {
        Ok(()) => Ok(Obeyed::Done(NONE)),
        Err(ViewFault::TooMany) => Ok(Obeyed::Bad),
        Err(ViewFault::Memory) => Err(NoMemory),
    }
}

// Obeys a `layout`.
fn layout<E: EngineCalls>(
    alloc: Global,
    engine: &mut E,
    views: &mut EngineViews,
    view: &Text,
    width: u32,
    height: u32,
) -> Result<Obeyed, NoMemory>
    requires command { IsCommand (commands.Layout view.now width height) }
    requires on_walk { IsOnWalk (standing (E.caller engine.old) views.old) }
    requires few { MayLoad (E.caller engine.old) }
    ensures { MovesGive (commands.Layout view.now width height) result
        (standing (E.caller engine.old) views.old) (standing (E.caller engine.new) views.new) }
{
    if views.layout(alloc, engine, view, width, height)? {
        return Ok(Obeyed::Done(NONE));
    }
    Ok(Obeyed::Bad)
}

// Obeys a `clear`.
fn clear<E: EngineCalls>(
    alloc: Global,
    engine: &mut E,
    views: &mut EngineViews,
    view: &Text,
) -> Result<Obeyed, NoMemory>
    requires on_walk { IsOnWalk (standing (E.caller engine.old) views.old) }
    requires few { MayLoad (E.caller engine.old) }
    ensures { MovesGive (commands.Clear view.now) result
        (standing (E.caller engine.old) views.old) (standing (E.caller engine.new) views.new) }
{
    if views.clear(alloc, engine, view)? {
        return Ok(Obeyed::Done(NONE));
    }
    Ok(Obeyed::Bad)
}

// Obeys a line that moves each view.
fn act<E: EngineCalls>(
    alloc: Global,
    engine: &mut E,
    views: &mut EngineViews,
    act: Act,
) -> Result<Obeyed, NoMemory>
    requires on_walk { IsOnWalk (standing (E.caller engine.old) views.old) }
    requires few { MayLoad (E.caller engine.old) }
    ensures { MovesGive (act_command act) result
        (standing (E.caller engine.old) views.old) (standing (E.caller engine.new) views.new) }
{
    views.act(alloc, engine, act)?;
    Ok(Obeyed::Done(NONE))
}

// Obeys a `trim`, of which views see nothing.
fn trim<E: EngineCalls>(engine: &mut E, level: u32)
    ensures { (held : Held) → IsOnWalk (standing (E.caller engine.old) held) → Moves (commands.Trim level)
        (standing (E.caller engine.old) held) (standing (E.caller engine.new) held) }
{
    quiet_calls_leave_views();
    engine.trim(level);
}

// Obeys a `wait`: brings each view that runs to its end.
fn wait<E: EngineCalls, S: Source, W: Sink>(
    alloc: Global,
    engine: &mut E,
    source: &mut S,
    out: &W,
    views: &mut EngineViews,
) -> Result<Obeyed, Stop>
    requires on_walk { IsOnWalk (standing (E.caller engine.old) views.old) }
    requires content { TellsContent (content_of (E.caller engine.old)) (S.content source.old) }
    ensures gives { Gives W.Sink S.Source commands.Wait result
        (moment out.now (E.caller engine.old) source.old views.old)
        (moment out.now (E.caller engine.new) source.new views.new) }
    ensures stop { OnErr result (result ≡ Err Stop.Memory) }
{
    followed_traces_join();
    let wanting = views.gather(alloc, engine, source)?;
    Ok(Obeyed::Done(Troubles {
        failing: false,
        wanting,
    }))
}

// Obeys a `show`.
fn show<E: EngineCalls, S: Source, W: Sink>(
    alloc: Global,
    engine: &mut E,
    source: &mut S,
    out: &mut W,
    views: &mut EngineViews,
) -> Result<Obeyed, Stop>
    requires on_walk { IsOnWalk (standing (E.caller engine.old) views.old) }
    requires content { TellsContent (content_of (E.caller engine.old)) (S.content source.old) }
    ensures gives { Gives W.Sink S.Source commands.Show result
        (moment out.old (E.caller engine.old) source.old views.old)
        (moment out.new (E.caller engine.new) source.new views.new) }
    ensures cause { HasCause (W.faults out.old) (W.faults out.new) (result ≡ Err Stop.Write) }
    ensures input { result ≢ Err Stop.Input }
{
    followed_traces_join();
    let wanting = views.gather(alloc, engine, source)?;
    let failing = print_views(alloc, engine, out, views)?;
    Ok(Obeyed::Done(Troubles { failing, wanting }))
}

// Obeys a `dump`.
fn dump<E: EngineCalls, S: Source, W: Sink>(
    alloc: Global,
    engine: &mut E,
    source: &mut S,
    out: &mut W,
    views: &mut EngineViews,
    view: &Text,
) -> Result<Obeyed, Stop>
    requires on_walk { IsOnWalk (standing (E.caller engine.old) views.old) }
    requires content { TellsContent (content_of (E.caller engine.old)) (S.content source.old) }
    ensures gives { Gives W.Sink S.Source (commands.Dump view.now) result
        (moment out.old (E.caller engine.old) source.old views.old)
        (moment out.new (E.caller engine.new) source.new views.new) }
    ensures cause { HasCause (W.faults out.old) (W.faults out.new) (result ≡ Err Stop.Write) }
    ensures input { result ≢ Err Stop.Input }
{
    followed_traces_join();
    let Some(place) = views.find(view) else {
        return Ok(Obeyed::Bad);
    };
    let wanting = views.gather(alloc, engine, source)?;
    let failing = print_pixels(alloc, engine, out, views, place)?;
    Ok(Obeyed::Done(Troubles { failing, wanting }))
}

/// Obeys a command of a script.
///
/// `Bad` comes exactly where its effect does not exist yet, where it names a view that was never loaded, or where it would
/// make view 4,097; it is found before the engine is called.
pub fn obey<E: EngineCalls, S: Source, W: Sink>(
    alloc: Global,
    engine: &mut E,
    source: &mut S,
    out: &mut W,
    views: &mut EngineViews,
    command: Command,
) -> Result<Obeyed, Stop>
    requires command { IsCommand command }
    requires on_walk { IsOnWalk (standing (E.caller engine.old) views.old) }
    requires few { MayLoad (E.caller engine.old) }
    requires content { TellsContent (content_of (E.caller engine.old)) (S.content source.old) }
    ensures gives { Gives W.Sink S.Source command result
        (moment out.old (E.caller engine.old) source.old views.old)
        (moment out.new (E.caller engine.new) source.new views.new) }
    ensures cause { HasCause (W.faults out.old) (W.faults out.new) (result ≡ Err Stop.Write) }
    ensures input { result ≢ Err Stop.Input }
{
    match command {
        Command::Load(view, spec, sized) => {
            if !is_built_load(&spec) {
                return Ok(Obeyed::Bad);
            }
            Ok(load(alloc, engine, views, &view, Ask { spec, sized })?)
        }
        Command::Layout(view, width, height) => {
            Ok(layout(alloc, engine, views, &view, width, height)?)
        }
        Command::Clear(view) => Ok(clear(alloc, engine, views, &view)?),
        Command::ClearAll => Ok(act(alloc, engine, views, Act::ClearAll)?),
        Command::Pause => Ok(act(alloc, engine, views, Act::Pause)?),
        Command::PauseAll => Ok(act(alloc, engine, views, Act::PauseAll)?),
        Command::Resume => Ok(act(alloc, engine, views, Act::Resume)?),
        Command::Trim(level) => {
            trim(engine, level);
            Ok(Obeyed::Done(NONE))
        }
        Command::Wait => wait(alloc, engine, source, out, views),
        Command::Show => show(alloc, engine, source, out, views),
        Command::Dump(view) => dump(alloc, engine, source, out, views, &view),
    }
}
