// How a job ends.
ghost use Rattle.std.specs.Prelude.{◌≡◌, [], IfOk, IfErr};
ghost use Rattle.engine_world.specs.Permits.{IsResult, IsPicture};
ghost use Rattle.engine_shared.specs.Caller.{content_of, RunsJob};
ghost use Rattle.decode_job.specs.Ends.{IsLastCall};
ghost use Rattle.decode_job.specs.inside.Stops.{Stops, EndsAs};

use bitmap_kind::Bitmap;
use cache_key::KeyRoom;
use engine_shared::{EngineCalls, JobPass};
use load_cause::Cause;

/// Why a job has no picture.
#[derive(Clone, Copy)]
pub enum Stop {
    Cancelled,
    Failed(Cause),
}

/// How a job ended.
#[derive(Clone, Copy, Debug, PartialEq, Eq)]
pub enum JobEnd {
    /// Its picture was taken.
    Finished,
    /// It was cancelled by the time its picture was handed over, and the picture was not taken.
    Discarded,
    /// It was cancelled before it had a picture.
    Quit,
    /// It has no picture, for this cause.
    Failed(Cause),
}

/// Ends a job by what was made for it. A bitmap is handed over, and no other is out on the job.
pub fn end_job<E: EngineCalls>(
    engine: &mut E,
    pass: JobPass,
    made: Result<Bitmap, Stop>,
) -> (JobEnd, KeyRoom)
    requires job { RunsJob (E.caller engine.old) pass }
    requires bitmap { IfOk made (λ bitmap. IsResult bitmap pass.out) }
    requires picture { IfOk made (λ bitmap.
        IsPicture (content_of (E.caller engine.old)) pass.spec.key bitmap.picture) }
    requires none_out { IfErr made (λ stop. pass.out ≡ []) }
    requires stops { IfErr made (λ stop. Stops (content_of (E.caller engine.old)) pass stop) }
    ensures last { IsLastCall (E.caller engine.old) pass result.0 (E.caller engine.new) }
    ensures fits { EndsAs made result.0 }
{
    match made {
        Ok(bitmap) => {
            let (taken, room) = engine.finish(pass, bitmap);
            if taken {
                (JobEnd::Finished, room)
            } else {
                (JobEnd::Discarded, room)
            }
        }
        Err(Stop::Cancelled) => (JobEnd::Quit, engine.quit(pass)),
        Err(Stop::Failed(cause)) => (JobEnd::Failed(cause), engine.fail(pass, cause)),
    }
}
