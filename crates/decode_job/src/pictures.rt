// From a text to the bitmap of a job, a function a step.
ghost use Rattle.std.specs.Prelude.{◌≡◌, ◌<◌, ◌+◌, ◌++◌, ◌∷◌, [], Ok, IfOk, IfErr};
ghost use Rattle.bitmap_kind.specs.Picture.{IsSize};
ghost use Rattle.transforms.specs.Sizes.{target_size};
ghost use Rattle.transforms.specs.Moved.{moved};
ghost use Rattle.image_format.specs.Pictures.{IsPlanOf, decoded, picture_of};
ghost use Rattle.engine_world.specs.Permits.{IsResult};
ghost use Rattle.engine_core.specs.Noted.{lent_by};
ghost use Rattle.engine_shared.specs.Caller.{RunsJob};
ghost use Rattle.engine_shared.specs.Answers.{IsOther};
ghost use Rattle.decode_job.specs.JobCalls.{StillRuns};
ghost use Rattle.decode_job.specs.inside.Stops.{StopsTaking, StopsDecoding, stop_by};

use crate::ends::Stop;
use crate::laws::calls_go_on;
use bitmap_kind::{Bitmap, Config};
use engine_shared::{EngineCalls, JobPass};
use faults::NoMemory;
use image_format::{DecodeFault, Plan, decode_into, plan_of};
use load_cause::Cause;
use std::alloc::Global;
use transforms::{kept_size_moves_nothing, transform};

// Takes a bitmap for a job, unless the job is cancelled.
fn take_bitmap<E: EngineCalls>(
    engine: &mut E,
    pass: &mut JobPass,
    width: u32,
    height: u32,
    config: Config,
) -> Result<Bitmap, Stop>
    requires job { RunsJob (E.caller engine.old) pass.old }
    requires takes { pass.old.takes < 2 }
    requires size { IsSize width height }
    ensures runs { StillRuns (E.caller engine.old) pass.old (E.caller engine.new) pass.new }
    ensures width { IfOk result (λ bitmap. bitmap.picture.width ≡ width) }
    ensures height { IfOk result (λ bitmap. bitmap.picture.height ≡ height) }
    ensures config { IfOk result (λ bitmap. bitmap.picture.config ≡ config) }
    ensures takes { IfOk result (λ bitmap. pass.new.takes ≡ pass.old.takes + 1) }
    ensures out { IfOk result (λ bitmap. pass.new.out ≡ pass.old.out ++ lent_by bitmap ∷ []) }
    ensures other { IfOk result (λ bitmap. IsOther bitmap.number pass.old.out) }
    ensures none { IfErr result (λ stop. pass.new.out ≡ pass.old.out) }
    ensures stops { IfErr result (λ stop. StopsTaking pass.new stop) }
{
    calls_go_on();
    if engine.is_cancelled(pass) {
        return Err(Stop::Cancelled);
    }
    match engine.take(pass, width, height, config) {
        Ok(bitmap) => Ok(bitmap),
        Err(NoMemory) => Err(Stop::Failed(Cause::Memory)),
    }
}

// Gives back the only bitmap of a job.
fn give_up<E: EngineCalls>(engine: &mut E, pass: &mut JobPass, bitmap: Bitmap)
    requires job { RunsJob (E.caller engine.old) pass.old }
    requires out { IsResult bitmap pass.old.out }
    ensures runs { StillRuns (E.caller engine.old) pass.old (E.caller engine.new) pass.new }
    ensures none { pass.new.out ≡ [] }
    ensures cancelled { pass.new.cancelled ≡ pass.old.cancelled }
{
    calls_go_on();
    engine.give_back(pass, bitmap);
}

// Why a job stops whose text can't be decoded.
fn stop_by(fault: DecodeFault) -> Stop
    ensures { result ≡ stop_by fault }
{
    match fault {
        DecodeFault::Refused(refusal) => Stop::Failed(Cause::Refused(refusal)),
        DecodeFault::Memory => Stop::Failed(Cause::Memory),
    }
}

// Decodes a text under its plan into a bitmap that it takes.
fn decode<E: EngineCalls>(
    alloc: Global,
    engine: &mut E,
    pass: &mut JobPass,
    text: &[u8],
    plan: &Plan,
) -> Result<Bitmap, Stop>
    requires job { RunsJob (E.caller engine.old) pass.old }
    requires takes { pass.old.takes ≡ 0 }
    requires none_out { pass.old.out ≡ [] }
    requires plan { IsPlanOf text.now plan.now }
    requires size { IsSize plan.now.decoded.0 plan.now.decoded.1 }
    ensures runs { StillRuns (E.caller engine.old) pass.old (E.caller engine.new) pass.new }
    ensures picture { IfOk result (λ bitmap. decoded text.now plan.now ≡ Ok bitmap.picture) }
    ensures width { IfOk result (λ bitmap. bitmap.picture.width ≡ plan.now.decoded.0) }
    ensures height { IfOk result (λ bitmap. bitmap.picture.height ≡ plan.now.decoded.1) }
    ensures takes { IfOk result (λ bitmap. pass.new.takes ≡ 1) }
    ensures out { IfOk result (λ bitmap. IsResult bitmap pass.new.out) }
    ensures none { IfErr result (λ stop. pass.new.out ≡ []) }
    ensures stops { IfErr result (λ stop. StopsDecoding (decoded text.now plan.now) pass.new stop) }
{
    calls_go_on();
    let mut bitmap = take_bitmap(engine, pass, plan.decoded.0, plan.decoded.1, plan.config)?;
    match decode_into(alloc, text, plan, &mut bitmap) {
        Ok(()) => Ok(bitmap),
        Err(fault) => {
            give_up(engine, pass, bitmap);
            Err(stop_by(fault))
        }
    }
}

// Brings a decoded picture to the size that it is shown at. Where that is not its own size, this takes a second bitmap and
// gives the first one back.
fn transformed<E: EngineCalls>(
    engine: &mut E,
    pass: &mut JobPass,
    decoded: Bitmap,
    target: (u32, u32),
) -> Result<Bitmap, Stop>
    requires job { RunsJob (E.caller engine.old) pass.old }
    requires takes { pass.old.takes ≡ 1 }
    requires out { IsResult decoded pass.old.out }
    requires size { IsSize target.0 target.1 }
    requires target { target ≡ target_size decoded.picture.width decoded.picture.height
        pass.old.spec.key.transform pass.old.spec.key.width pass.old.spec.key.height }
    ensures runs { StillRuns (E.caller engine.old) pass.old (E.caller engine.new) pass.new }
    ensures picture { IfOk result (λ shown. shown.picture
        ≡ moved decoded.picture pass.old.spec.key.transform
        pass.old.spec.key.width pass.old.spec.key.height) }
    ensures out { IfOk result (λ shown. IsResult shown pass.new.out) }
    ensures none { IfErr result (λ stop. pass.new.out ≡ []) }
    ensures stops { IfErr result (λ stop. StopsTaking pass.new stop) }
{
    calls_go_on();
    if (decoded.width(), decoded.height()) == target {
        kept_size_moves_nothing();
        return Ok(decoded);
    }
    let key = &pass.room().spec().key;
    let (kind, wanted) = (key.transform, (key.width, key.height));
    match take_bitmap(engine, pass, target.0, target.1, decoded.config()) {
        Ok(mut shown) => {
            transform(&decoded, &mut shown, kind, wanted);
            engine.give_back(pass, decoded);
            Ok(shown)
        }
        Err(stop) => {
            give_up(engine, pass, decoded);
            Err(stop)
        }
    }
}

/// The picture of a text under the job's key.
pub fn text_picture<E: EngineCalls>(
    alloc: Global,
    engine: &mut E,
    pass: &mut JobPass,
    text: &[u8],
) -> Result<Bitmap, Stop>
    requires job { RunsJob (E.caller engine.old) pass.old }
    requires takes { pass.old.takes ≡ 0 }
    requires none_out { pass.old.out ≡ [] }
    ensures runs { StillRuns (E.caller engine.old) pass.old (E.caller engine.new) pass.new }
    ensures picture { IfOk result (λ bitmap.
        picture_of text.now pass.old.spec.key ≡ Ok bitmap.picture) }
    ensures out { IfOk result (λ bitmap. IsResult bitmap pass.new.out) }
    ensures none { IfErr result (λ stop. pass.new.out ≡ []) }
    ensures stops { IfErr result (λ stop.
        StopsDecoding (picture_of text.now pass.old.spec.key) pass.new stop) }
{
    calls_go_on();
    let plan = match plan_of(text, &pass.room().spec().key) {
        Ok(plan) => plan,
        Err(refusal) => return Err(Stop::Failed(Cause::Refused(refusal))),
    };
    let bitmap = decode(alloc, engine, pass, text, &plan)?;
    transformed(engine, pass, bitmap, plan.target)
}
