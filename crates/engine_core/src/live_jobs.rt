// The live jobs with the bitmaps that they have, for contracts alone: the table of jobs does not keep these, since no reply
// needs them.
ghost use Rattle.std.specs.Prelude.{◌≡◌};
ghost use Rattle.std.specs.FinMap.{empty};

use cache_key::LoadSpec;
use engine_world::Lent;
use snapshots::SnapshotUpdate;
use std::marker::Model;
use std::snapshot::Snapshot;

/// Stands for the live jobs. Its own value has none.
#[derive(Drop)]
pub struct NoJobs {}

impl Model for NoJobs {
    ghost use Rattle.std.specs.Coded.{codes};
    ghost use Rattle.std.specs.FinMap as map;
    ghost use Rattle.engine_world.specs.World.{Jobs};

    ghost Value = { Jobs };

    ghost coded = { Prim.hlevel (codes, map.code) };

    ghost view = { λ s. map.empty };
}

/// No live job.
pub fn no_live_jobs() -> Snapshot<NoJobs>
    ensures { result.value ≡ empty }
{
    Snapshot::of(&NoJobs {})
}

/// A job, and what the load that starts it asks for.
#[derive(Drop)]
pub struct Begin {
    pub job: u64,
    pub wanted: Snapshot<LoadSpec>,
}

/// A job is queued.
pub struct JobBegins;

impl SnapshotUpdate<Begin, NoJobs> for JobBegins {
    ghost use Rattle.std.specs.FinMap.{insert};
    ghost use Rattle.engine_world.specs.Steps.{queued};

    ghost updated = { λ jobs begin. insert jobs begin.job (queued begin.wanted.value) };
}

/// A job goes.
pub struct JobEnds;

impl SnapshotUpdate<u64, NoJobs> for JobEnds {
    ghost use Rattle.std.specs.FinMap.{remove};

    ghost updated = { λ jobs j. remove jobs j };
}

/// A job and the seat that it runs on from now on.
#[derive(Drop)]
pub struct Start {
    pub job: u64,
    pub seat: u32,
}

/// No load waits on a job any more: a queued one goes, and a running one is cancelled.
pub struct JobLeft;

impl SnapshotUpdate<u64, NoJobs> for JobLeft {
    ghost use Rattle.engine_core.specs.LiveJobs.{left};

    ghost updated = { λ jobs j. left jobs j };
}

/// A job runs.
pub struct JobRuns;

impl SnapshotUpdate<Start, NoJobs> for JobRuns {
    ghost use Rattle.finite_maps.specs.Maps.{modify};
    ghost use Rattle.engine_world.specs.Steps.{run_on};

    ghost updated = { λ jobs start. modify jobs start.job (run_on start.seat) };
}

/// A job and a bitmap.
#[derive(Drop)]
pub struct Loan {
    pub job: u64,
    pub lent: Lent,
}

/// A bitmap is lent to a job.
pub struct JobTakes;

impl SnapshotUpdate<Loan, NoJobs> for JobTakes {
    ghost use Rattle.finite_maps.specs.Maps.{modify};
    ghost use Rattle.engine_core.specs.LiveJobs.{with_lent};

    ghost updated = { λ jobs loan. modify jobs loan.job (with_lent loan.lent) };
}

/// A job and the number of a bitmap.
#[derive(Drop)]
pub struct Return {
    pub job: u64,
    pub number: u64,
}

/// A job gives a bitmap back.
pub struct JobGives;

impl SnapshotUpdate<Return, NoJobs> for JobGives {
    ghost use Rattle.finite_maps.specs.Maps.{modify};
    ghost use Rattle.engine_core.specs.LiveJobs.{less_lent};

    ghost updated = { λ jobs given. modify jobs given.job (less_lent given.number) };
}
