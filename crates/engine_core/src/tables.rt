// The tables as one state.
ghost use Rattle.std.specs.Prelude.{◌≡◌, ℕ, [], take, drop, Some, None, IsSome, true};
ghost use Rattle.std.specs.FinMap.{get, remove};
ghost use Rattle.load_table.specs.declared.loads.Settle.TheVariants as settles;
ghost use Rattle.job_table.specs.Jobs.{queued_in};
ghost use Rattle.engine_world.specs.declared.events.NotedReply.TheVariants as notes;
ghost use Rattle.engine_world.specs.World.{Job};
ghost use Rattle.engine_world.specs.Places.{occurrences};
ghost use Rattle.engine_world.specs.Moves.{table_jobs, to_pool, end_job};
ghost use Rattle.engine_world.specs.Steps.{collected, shown, shape_of, piece_from, is_cancelled, next_job, start_job};
ghost use Rattle.engine_core.specs.Noted.{noted};
ghost use Rattle.engine_core.specs.Conditions.{IsShown, IsLive};
ghost use Rattle.engine_core.specs.Padded.{IsPadded, IsPaddedReply};

use crate::live_jobs::{JobEnds, JobRuns, NoJobs, Start};
use crate::replies::{PIECE, Piece, Reply};
use active_resources::Active;
use bitmap_kind::Bitmap;
use bitmap_pool::{Pool, numbers_stand_for_bitmaps};
use cache_key::KeyRoom;
use engine_world::Shape;
use job_table::JobTable;
use load_cause::Cause;
use load_table::{LoadState, LoadTable, Settle};
use memory_cache::Cache;
use outside::Told;
use resource_table::ResourceTable;
use snapshots::update_snapshot;
use std::alloc::Global;
use std::marker::Model;
use std::snapshot::Snapshot;

/// How many loads were not `Full`, of these how many each place answered, and how many takes gave a bitmap, of these how
/// many one of the pool. The table of jobs counts those that were started.
#[derive(Clone, Copy)]
pub struct LoadCounts {
    pub loads: u64,
    pub active: u64,
    pub memory: u64,
    pub joined: u64,
    pub takes: u64,
    pub reused: u64,
}

/// The engine's tables, seen as its world.
#[derive(Drop)]
pub struct Tables {
    pub(crate) alloc: Global,
    pub(crate) loads: LoadTable<Cause>,
    pub(crate) jobs: JobTable,
    pub(crate) live: Snapshot<NoJobs>,
    pub(crate) resources: ResourceTable,
    pub(crate) active: Active,
    pub(crate) cache: Cache,
    pub(crate) pool: Pool,
    pub(crate) next: u64,
    pub(crate) counts: LoadCounts,
    pub(crate) begun: Vec<u64>,
    pub(crate) quotas: Vec<u32>,
    pub(crate) out: u64,
    pub(crate) closed: bool,
    pub(crate) told: Told,
}

impl Model for Tables {
    ghost use Rattle.std.specs.Coded.{codes};
    ghost use Rattle.std.specs.FinMap as map;
    ghost use Rattle.engine_world.specs.World.{World};

    ghost Value = { World };

    ghost coded = { Prim.hlevel (codes, map.code) };

    ghost use Rattle.engine_core.specs.TablesView.{world_of, AreJoined};

    ghost view = { world_of };

    ghost invariant = { AreJoined };
}

// What a load in this state has come to.
fn collected(state: &LoadState<Cause>) -> Reply
    ensures { noted result ≡ collected (Some state.now) }
{
    match state {
        LoadState::Waiting(job) => Reply::NotYet(*job),
        LoadState::Ready(_) => Reply::Ready,
        LoadState::Failed(cause) => Reply::Failed(*cause),
    }
}

// A picture's sides and config, and how many stored bytes it has.
fn shape_of(bitmap: &Bitmap) -> Shape
    ensures { result ≡ shape_of bitmap.now.picture }
{
    Shape {
        width: bitmap.width(),
        height: bitmap.height(),
        config: bitmap.config(),
        length: bitmap.bytes().len(),
    }
}

// The stored bytes from a place on, as many as a piece has, and zeros after them.
fn piece_of(stored: &[u8], at: usize) -> Piece
    ensures padded { IsPadded result }
    ensures bytes { take result.count result.bytes ≡ take 4096 (drop at stored.now) }
{
    let rest = &stored[at.min(stored.len())..];
    let count = PIECE.min(rest.len());
    let mut bytes = [0; PIECE];
    bytes[..count].copy_from_slice(&rest[..count]);
    Piece { bytes, count }
}

impl Tables {
    /// What a load has come to.
    pub fn collect(&self, who: u32, number: u64) -> Reply
        requires { IsSome (get self.now.loads (who, number)) }
        ensures { noted result ≡ collected (get self.now.loads (who, number)) }
    {
        collected(self.loads.state(who, number))
    }

    /// The shape of the picture that a load is ready on.
    pub fn look(&self, who: u32, number: u64) -> Reply
        requires { IsShown self.now who number }
        ensures { noted result
            ≡ shown self.now (λ picture. notes.Shape (shape_of picture)) (get self.now.loads (who, number)) }
    {
        match self.loads.state(who, number) {
            LoadState::Ready(r) => Reply::Shape(shape_of(self.resources.get(*r).bitmap())),
            LoadState::Waiting(_) | LoadState::Failed(_) => Reply::Done,
        }
    }

    /// A piece of the stored bytes of the picture that a load is ready on.
    pub fn read(&self, who: u32, number: u64, at: usize) -> Reply
        requires { IsShown self.now who number }
        ensures shown { noted result
            ≡ shown self.now (λ picture. notes.Piece (piece_from at picture))
            (get self.now.loads (who, number)) }
        ensures padded { IsPaddedReply result }
    {
        match self.loads.state(who, number) {
            LoadState::Ready(r) => Reply::Piece(piece_of(
                self.resources.get(*r).bitmap().bytes(),
                at,
            )),
            LoadState::Waiting(_) | LoadState::Failed(_) => Reply::Done,
        }
    }

    /// Whether a job is cancelled.
    pub fn is_cancelled(&self, job: u64) -> bool
        requires { IsLive self.now job }
        ensures { result ≡ is_cancelled (get self.now.jobs job) }
    {
        self.jobs.is_cancelled(job)
    }

    /// A job ends with no picture, and the loads that wait on it have failed.
    pub fn fail(&mut self, job: u64, cause: Cause)
        requires live { IsLive self.old job }
        requires none_out { (live : Job) → get self.old.jobs job ≡ Some live → live.out ≡ [] }
        ensures { self.new ≡ end_job job (settles.Failed cause) self.old }
    {
        let _ = self.jobs.end(job);
        self.loads.settle(job, Settle::Failed(cause));
        update_snapshot::<_, _, JobEnds>(&mut self.live, &job);
    }

    /// A cancelled job ends.
    pub fn quit(&mut self, job: u64)
        requires live { IsLive self.old job }
        requires none_out { (live : Job) → get self.old.jobs job ≡ Some live → live.out ≡ [] }
        ensures { self.new ≡ record self.old { jobs = remove self.old.jobs job } }
    {
        let _ = self.jobs.end(job);
        update_snapshot::<_, _, JobEnds>(&mut self.live, &job);
    }

    /// The first queued job runs on a seat, and the room shows it.
    pub fn next_job(&mut self, who: u32, room: KeyRoom) -> Reply
        ensures reply { noted result ≡ (next_job self.old who).0 }
        ensures left { self.new ≡ (next_job self.old who).1 }
    {
        if self.closed {
            return Reply::Closed(room);
        }
        match self.jobs.next_queued() {
            None => Reply::Idle(room),
            Some(job) => self.start(who, job, room),
        }
    }

    // A queued job runs on a seat, and the room shows it.
    fn start(&mut self, who: u32, job: u64, room: KeyRoom) -> Reply
        requires { queued_in (table_jobs self.old.jobs) job ≡ true }
        ensures reply { noted result ≡ (start_job self.old who job (get self.old.jobs job)).0 }
        ensures left { self.new ≡ (start_job self.old who job (get self.old.jobs job)).1 }
    {
        let mut room = room;
        self.jobs.start(job, who, &mut room);
        update_snapshot::<_, _, JobRuns>(&mut self.live, &Start { job, seat: who });
        Reply::Job(job, room)
    }

    /// No more jobs are to be run.
    pub fn close(&mut self)
        ensures { self.new ≡ record self.old { closed = true } }
    {
        self.closed = true;
    }

    // A resource that is not cached leaves its table, and its bitmap goes to the pool.
    pub(crate) fn to_pool(&mut self, number: u64)
        requires there { IsSome (get self.old.resources number) }
        requires uncached { occurrences number self.old.cached ≡ 0 }
        ensures { self.new ≡ to_pool number self.old }
    {
        numbers_stand_for_bitmaps();
        let resource = self.resources.remove(number);
        self.pool.put(resource.into_bitmap());
    }
}
