// The jobs that are queued, which their only caller runs.
ghost use Rattle.std.specs.Prelude.{◌≡◌, None};
ghost use Rattle.engine_shared.specs.Caller.{knowledge_of, content_of};
ghost use Rattle.decode_job.specs.Sources.{TellsContent};
ghost use Rattle.engine_views.specs.Owner.{IsOwner};
ghost use Rattle.engine_views.specs.JobRuns.{worker};
ghost use Rattle.engine_views.specs.inside.Running.{HasRun};

use cache_key::KeyRoom;
use decode_job::{JobEnd, run_job};
use engine_core::{Core, Reply};
use engine_shared::{EngineCalls, Next};
use engine_world::{each_event_keeps_opening, each_history_is_sound};
use fetch_bounds::failures_add_up;
use load_cause::Cause;
use outside::Source;
use std::alloc::Global;

/// Runs the jobs that are queued, by priority and number, until none is. Answers whether one failed for want of memory.
pub(crate) fn run_jobs<E: EngineCalls, S: Source>(
    alloc: Global,
    engine: &mut E,
    source: &mut S,
    room: KeyRoom,
) -> bool
    requires owner { IsOwner (E.caller engine.old) }
    requires idle { (knowledge_of (E.caller engine.old)).job ≡ None }
    requires content { TellsContent (content_of (E.caller engine.old)) (S.content source.old) }
    ensures { HasRun S.Source result (worker (E.caller engine.old) source.old)
        (worker (E.caller engine.new) source.new) }
{
    each_event_keeps_opening();
    each_history_is_sound::<Core, Reply>();
    failures_add_up();
    let mut wanting = false;
    let mut room = room;
    'jobs: loop {
        match engine.next_job(room) {
            Next::Job(pass) => {
                let (end, back) = run_job(alloc, engine, source, pass);
                wanting |= end == JobEnd::Failed(Cause::Memory);
                room = back;
            }
            Next::Idle(_back) => return wanting,
            Next::Closed(_back) => return wanting,
        }
    }
}
