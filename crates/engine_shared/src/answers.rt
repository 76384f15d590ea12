// What the calls answer.
use crate::tokens::JobPass;
use cache_key::KeyRoom;
use load_cause::Cause;

/// The caller has as many loads as it may have.
#[derive(Clone, Copy, Debug, PartialEq, Eq)]
pub struct Full;

/// What a load has come to.
#[derive(Clone, Copy, Debug, PartialEq, Eq)]
pub enum Outcome {
    /// It is ready on a picture.
    Ready,
    /// It waits on the job of this number.
    NotYet(u64),
    /// It has failed.
    Failed(Cause),
}

/// What there is to run.
pub enum Next {
    /// The next job.
    Job(JobPass),
    /// No job is queued.
    Idle(KeyRoom),
    /// The engine is closed: no more jobs are to be run.
    Closed(KeyRoom),
}
