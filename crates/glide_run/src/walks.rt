// Obeys a script as it is read.
ghost use Rattle.std.specs.Prelude.{◌≡◌, Err};
ghost use Rattle.outside.specs.Causes.{HasCause};
ghost use Rattle.engine_shared.specs.Caller.{content_of};
ghost use Rattle.decode_job.specs.Sources.{TellsContent};
ghost use Rattle.engine_views.specs.Held.{no_held_views};
ghost use Rattle.glide_run.specs.inside.Obeys.{moment};
ghost use Rattle.glide_run.specs.inside.Running.{IsFresh, HasWorked, HasRun};
ghost use Rattle.glide_run.specs.inside.Stops.{ended_by};

use crate::obeys::obey;
use crate::run::{Ended, Obeyed, Stop, Troubles};
use engine_shared::EngineCalls;
use engine_views::{EngineViews, releases_end_walks};
use fetch_bounds::followed_traces_join;
use outside::{Input, Sink, Source};
use script_lines::{ScriptFault, ScriptReader};
use script_walk::{
    a_tracker_makes_the_moves, begins_end_at_the_next_gather, ends_decide_the_walk, walks_go_on,
};
use std::alloc::Global;

// How a script ends where no command was read.
fn ended_by(fault: ScriptFault, troubles: Troubles) -> Result<Ended, Stop>
    ensures { result ≡ ended_by fault troubles }
{
    match fault {
        ScriptFault::Bad(number) => Ok(Ended {
            bad: Some(number),
            troubles,
        }),
        ScriptFault::Input => Err(Stop::Input),
        ScriptFault::Memory => Err(Stop::Memory),
    }
}

// Obeys the commands of a script, each when it is read, up to the first bad line.
fn obey_all<E: EngineCalls, S: Source, I: Input, W: Sink>(
    alloc: Global,
    engine: &mut E,
    input: &mut I,
    out: &mut W,
    source: &mut S,
    views: &mut EngineViews,
) -> Result<Ended, Stop>
    requires fresh { IsFresh (E.caller engine.old) }
    requires views { views.old ≡ no_held_views }
    requires content { TellsContent (content_of (E.caller engine.old)) (S.content source.old) }
    ensures works { HasWorked W.Sink S.Source (I.left input.old) result
        (moment out.old (E.caller engine.old) source.old views.old)
        (moment out.new (E.caller engine.new) source.new views.new) }
    ensures sink { HasCause (W.faults out.old) (W.faults out.new) (result ≡ Err Stop.Write) }
    ensures input { HasCause (I.faults input.old) (I.faults input.new) (result ≡ Err Stop.Input) }
{
    ends_decide_the_walk();
    walks_go_on();
    begins_end_at_the_next_gather();
    a_tracker_makes_the_moves();
    followed_traces_join();
    let mut reader = ScriptReader::new(alloc)?;
    let mut troubles = Troubles {
        failing: false,
        wanting: false,
    };
    'commands: loop {
        let command = match reader.next(alloc, input) {
            Ok(Some(command)) => command,
            Ok(None) => {
                return Ok(Ended {
                    bad: None,
                    troubles,
                });
            }
            Err(fault) => return ended_by(fault, troubles),
        };
        match obey(alloc, engine, source, out, views, command)? {
            Obeyed::Done(more) => troubles = troubles.and(more),
            Obeyed::Bad => {
                return Ok(Ended {
                    bad: Some(reader.line()),
                    troubles,
                });
            }
        }
    }
}

/// Obeys the commands of a script, each when it is read, up to the first bad line. At the end, however it comes, all views
/// are cleared.
pub fn obey_script<E: EngineCalls, S: Source, I: Input, W: Sink>(
    alloc: Global,
    engine: &mut E,
    input: &mut I,
    out: &mut W,
    source: &mut S,
) -> Result<Ended, Stop>
    requires fresh { IsFresh (E.caller engine.old) }
    requires content { TellsContent (content_of (E.caller engine.old)) (S.content source.old) }
    ensures run { HasRun W.Sink S.Source (I.left input.old) result
        (moment out.old (E.caller engine.old) source.old no_held_views)
        (moment out.new (E.caller engine.new) source.new no_held_views) }
    ensures sink { HasCause (W.faults out.old) (W.faults out.new) (result ≡ Err Stop.Write) }
    ensures input { HasCause (I.faults input.old) (I.faults input.new) (result ≡ Err Stop.Input) }
{
    releases_end_walks();
    followed_traces_join();
    let mut views = EngineViews::new(alloc)?;
    let ended = obey_all(alloc, engine, input, out, source, &mut views);
    views.close(engine);
    ended
}
