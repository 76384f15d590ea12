// A job, from its key to its end.
ghost use Rattle.std.specs.Prelude.{◌≡◌, [], None, IfOk, IfErr};
ghost use Rattle.engine_world.specs.Permits.{IsResult, IsPicture};
ghost use Rattle.engine_shared.specs.Caller.{knowledge_of, content_of, RunsJob};
ghost use Rattle.decode_job.specs.JobCalls.{StillRuns};
ghost use Rattle.decode_job.specs.Sources.{view_of, TellsContent, UsesSource, WasFetched};
ghost use Rattle.decode_job.specs.Ends.{RunsToEnd, HasItsCause};
ghost use Rattle.decode_job.specs.inside.Stops.{Stops, StopsFor};

use crate::ends::{JobEnd, Stop, end_job};
use crate::laws::calls_go_on;
use crate::pictures::text_picture;
use crate::texts::fetch_text;
use bitmap_kind::Bitmap;
use cache_key::KeyRoom;
use engine_shared::{EngineCalls, JobPass};
use load_cause::Cause;
use outside::Source;
use std::alloc::Global;

// The picture of a job, or why it has none.
fn job_picture<E: EngineCalls, S: Source>(
    alloc: Global,
    engine: &mut E,
    source: &mut S,
    pass: &mut JobPass,
) -> Result<Bitmap, Stop>
    requires job { RunsJob (E.caller engine.old) pass.old }
    requires takes { pass.old.takes ≡ 0 }
    requires none_out { pass.old.out ≡ [] }
    requires content { TellsContent (content_of (E.caller engine.old)) (S.content source.old) }
    ensures runs { StillRuns (E.caller engine.old) pass.old (E.caller engine.new) pass.new }
    ensures uses { UsesSource pass.old.spec.cached pass.old.spec.key
        (view_of S.Source source.old) (view_of S.Source source.new) }
    ensures fetched { IfOk result (λ bitmap.
        WasFetched (view_of S.Source source.old) (view_of S.Source source.new)) }
    ensures picture { IfOk result (λ bitmap.
        IsPicture (content_of (E.caller engine.old)) pass.old.spec.key bitmap.picture) }
    ensures out { IfOk result (λ bitmap. IsResult bitmap pass.new.out) }
    ensures none { IfErr result (λ stop. pass.new.out ≡ []) }
    ensures stops { IfErr result (λ stop. Stops (content_of (E.caller engine.old)) pass.new stop) }
    ensures cause { IfErr result (λ stop. StopsFor pass.old.spec
        (view_of S.Source source.old) (view_of S.Source source.new) stop) }
{
    calls_go_on();
    if engine.is_cancelled(pass) {
        return Err(Stop::Cancelled);
    }
    if pass.room().spec().cached {
        return Err(Stop::Failed(Cause::Uncached));
    }
    match fetch_text(alloc, source, &pass.room().spec().key) {
        Ok(text) => text_picture(alloc, engine, pass, &text),
        Err(cause) => Err(Stop::Failed(cause)),
    }
}

/// Runs a job to its end, and answers how it ended and the room of its pass.
///
/// It quits where the job is cancelled, and asks this again before each bitmap that it takes. Else it fetches the text of the
/// job's key, once, and plans it; decodes it into a bitmap; brings it to the size that it is shown at, in a second bitmap where
/// that is another size, and gives the first one back; and hands the picture over. A job that asks the caches alone fails as
/// `Uncached`, since there is no other cache yet. The order is that of Glide's `DecodeJob`.
pub fn run_job<E: EngineCalls, S: Source>(
    alloc: Global,
    engine: &mut E,
    source: &mut S,
    pass: JobPass,
) -> (JobEnd, KeyRoom)
    requires job { RunsJob (E.caller engine.old) pass }
    requires takes { pass.takes ≡ 0 }
    requires none_out { pass.out ≡ [] }
    requires content { TellsContent (content_of (E.caller engine.old)) (S.content source.old) }
    ensures runs { RunsToEnd (E.caller engine.old) pass result.0 (E.caller engine.new) }
    ensures over { (knowledge_of (E.caller engine.new)).job ≡ None }
    ensures uses { UsesSource pass.spec.cached pass.spec.key
        (view_of S.Source source.old) (view_of S.Source source.new) }
    ensures cause { HasItsCause pass.spec
        (view_of S.Source source.old) (view_of S.Source source.new) result.0 }
{
    let mut pass = pass;
    let made = job_picture(alloc, engine, source, &mut pass);
    end_job(engine, pass, made)
}
