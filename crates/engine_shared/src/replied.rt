// What the core's replies are as answers of the calls.
ghost use Rattle.std.specs.Prelude.{◌≡◌, take};
ghost use Rattle.engine_world.specs.declared.events.NotedReply.TheVariants as notes;
ghost use Rattle.engine_core.specs.Noted.{noted};
ghost use Rattle.engine_core.specs.Padded.{IsPadded, IsPaddedReply};
ghost use Rattle.engine_shared.specs.Answers.{IsLoaded, collected, IsNext, taken, finished};
ghost use Rattle.engine_shared.specs.Replied.{RepliesToLoad, RepliesToCollect, RepliesToLook, RepliesToRead, RepliesToNextJob, RepliesToTake, RepliesToFinish, RepliesToIsCancelled, RepliesToTotals, IsFreshNext};

use crate::answers::{Full, Next, Outcome};
use crate::tokens::JobPass;
use bitmap_kind::Bitmap;
use engine_core::{Piece, Reply};
use engine_world::{Shape, Totals};
use faults::NoMemory;

/// Whether a load was not refused.
pub fn was_loaded(reply: Reply) -> Result<(), Full>
    requires { RepliesToLoad (noted reply) }
    ensures { IsLoaded result (noted reply) }
{
    match reply {
        Reply::Full => Err(Full),
        Reply::Ready | Reply::Joined(_) | Reply::Started(_) => Ok(()),
        _ => unreachable!(),
    }
}

/// What a load has come to.
pub fn outcome_of(reply: Reply) -> Outcome
    requires { RepliesToCollect (noted reply) }
    ensures { collected result ≡ noted reply }
{
    match reply {
        Reply::Ready => Outcome::Ready,
        Reply::NotYet(job) => Outcome::NotYet(job),
        Reply::Failed(cause) => Outcome::Failed(cause),
        _ => unreachable!(),
    }
}

/// The shape of a picture.
pub fn shape_of(reply: Reply) -> Shape
    requires { RepliesToLook (noted reply) }
    ensures { notes.Shape result ≡ noted reply }
{
    match reply {
        Reply::Shape(shape) => shape,
        _ => unreachable!(),
    }
}

/// A piece of a picture's stored bytes.
pub fn piece_of(reply: Reply) -> Piece
    requires replies { RepliesToRead (noted reply) }
    requires padded { IsPaddedReply reply }
    ensures piece { notes.Piece (take result.count result.bytes) ≡ noted reply }
    ensures padded { IsPadded result }
{
    match reply {
        Reply::Piece(piece) => piece,
        _ => unreachable!(),
    }
}

/// What there is to run.
pub fn next_of(reply: Reply) -> Next
    requires { RepliesToNextJob (noted reply) }
    ensures fits { IsNext result (noted reply) }
    ensures fresh { IsFreshNext result }
{
    match reply {
        Reply::Job(job, room) => Next::Job(JobPass::new(job, room)),
        Reply::Idle(room) => Next::Idle(room),
        Reply::Closed(room) => Next::Closed(room),
        _ => unreachable!(),
    }
}

/// A bitmap that was taken.
pub fn bitmap_of(reply: Reply) -> Result<Bitmap, NoMemory>
    requires { RepliesToTake (noted reply) }
    ensures { taken result ≡ noted reply }
{
    match reply {
        Reply::Taken(bitmap) => Ok(bitmap),
        Reply::NoMemory => Err(NoMemory),
        _ => unreachable!(),
    }
}

/// Whether a picture was taken.
pub fn was_finished(reply: Reply) -> bool
    requires { RepliesToFinish (noted reply) }
    ensures { finished result ≡ noted reply }
{
    match reply {
        Reply::Done => true,
        Reply::Discarded => false,
        _ => unreachable!(),
    }
}

/// Whether a job is cancelled.
pub fn was_cancelled(reply: Reply) -> bool
    requires { RepliesToIsCancelled (noted reply) }
    ensures { notes.Cancelled result ≡ noted reply }
{
    match reply {
        Reply::Cancelled(is) => is,
        _ => unreachable!(),
    }
}

/// The thirteen numbers.
pub fn totals_of(reply: Reply) -> Totals
    requires { RepliesToTotals (noted reply) }
    ensures { notes.Totals result ≡ noted reply }
{
    match reply {
        Reply::Totals(totals) => totals,
        _ => unreachable!(),
    }
}
