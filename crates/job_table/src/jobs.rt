// The jobs in one vector in the order of their numbers, which is walked.
ghost use Rattle.std.specs.Prelude.{◌≡◌, ℕ, ◌+◌, ◌<◌, ◌&&◌, ◌↔◌, true, false, Some, None, slice_get, IfOk, IsSome};
ghost use Rattle.std.specs.Option.{option_map};
ghost use Rattle.std.specs.Ordering.{nat_cmp};
ghost use Rattle.std.specs.FinMap.{get, len, empty, insert, remove, find};
ghost use Rattle.finite_maps.specs.Maps.{first_in, modify};
ghost use Rattle.job_table.specs.inside.Entries.{queued_among, next_among};
ghost use Rattle.job_table.specs.Jobs.{JobTableValue, queued_job, run_on, marked, serves, job_for, IsJobFor, is_queued, queued_in, is_queued_at, queued_at, next_queued, IsNext, after_cancel};

use cache_key::{EngineKey, KeyRoom, LoadSpec, Priority, same_key_is_equality};
use faults::NoMemory;
use std::alloc::Global;
use std::marker::Model;

/// A live job as contracts see it: what the load that started it asked for, the seat that it runs on unless it is queued,
/// and whether it was cancelled.
#[derive(Drop)]
pub struct Job {
    pub spec: LoadSpec,
    pub seat: Option<u32>,
    pub cancelled: bool,
}

/// The live jobs by their numbers. Of one key and kind at most one is not cancelled. After `new` no call takes memory.
#[derive(Drop)]
pub struct JobTable {
    room: usize,
    added: u64,
    jobs: Vec<(u64, Job)>,
}

impl Model for JobTable {
    ghost use Rattle.std.specs.Coded.{codes};
    ghost use Rattle.std.specs.FinMap as map;
    ghost use Rattle.job_table.specs.Jobs.{JobTableValue};

    ghost Value = { JobTableValue };

    ghost coded = { Prim.hlevel (codes, map.code) };

    ghost use Rattle.job_table.specs.JobTableView.{value_of, IsTable};

    ghost view = { value_of };

    ghost invariant = { IsTable };
}

impl Job {
    // Whether a load of this key and kind may join it.
    fn serves(&self, key: &EngineKey, cached: bool) -> bool
        ensures { result ≡ serves key.now cached self.now }
    {
        self.spec.key.is(key) && self.spec.cached == cached && !self.cancelled
    }

    // Whether it waits to be started, at this priority.
    fn is_queued_at(&self, priority: Priority) -> bool
        ensures { result ≡ is_queued_at priority self.now }
    {
        self.seat.is_none() && self.spec.priority == priority
    }
}

// The least number of a job that a load of this key and kind may join.
fn first_serving(jobs: &[(u64, Job)], key: &EngineKey, cached: bool) -> Option<u64>
    ensures { result ≡ first_in (λ number job. serves key.now cached job) jobs.now }
{
    for entry in jobs {
        if entry.1.serves(key, cached) {
            return Some(entry.0);
        }
    }
    None
}

// The least number of a job that is queued at this priority.
fn first_queued_at(jobs: &[(u64, Job)], priority: Priority) -> Option<u64>
    ensures { result ≡ queued_among priority jobs.now }
{
    for entry in jobs {
        if entry.1.is_queued_at(priority) {
            return Some(entry.0);
        }
    }
    None
}

// The least number of a job that is queued at the first priority at which one is.
fn first_queued(jobs: &[(u64, Job)]) -> Option<u64>
    ensures { result ≡ next_among jobs.now }
{
    first_queued_at(jobs, Priority::Immediate)
        .or_else(|| first_queued_at(jobs, Priority::High))
        .or_else(|| first_queued_at(jobs, Priority::Normal))
        .or_else(|| first_queued_at(jobs, Priority::Low))
}

// Where a number stands, or how many there are where it does not.
fn place_of(jobs: &[(u64, Job)], number: u64) -> usize
    ensures { slice_get jobs.now result ≡
        option_map (λ job. (number, job)) (find nat_cmp number jobs.now) }
{
    for i in 0..jobs.len() {
        if jobs[i].0 == number {
            return i;
        }
    }
    jobs.len()
}

impl JobTable {
    /// A table with no job, with room for so many at a time.
    pub fn new(alloc: Global, room: usize) -> Result<JobTable, NoMemory>
        ensures { IfOk result (λ table. table ≡ record { room = room; added = 0; jobs = empty }) }
    {
        Ok(JobTable {
            room,
            added: 0,
            jobs: Vec::with_capacity(alloc, room)?,
        })
    }

    /// Adds a queued job. Its number is how many jobs were added before.
    pub fn add(&mut self, spec: LoadSpec) -> u64
        requires room { len self.old.jobs < self.old.room }
        requires none { job_for spec.key spec.cached self.old.jobs ≡ None }
        requires few { self.old.added < 18446744073709551615 }
        ensures number { result ≡ self.old.added }
        ensures added { let number = self.old.added in
            self.new ≡ record self.old {
              added = number + 1;
              jobs = insert self.old.jobs number (queued_job spec);
            } }
    {
        same_key_is_equality();
        let number = self.added;
        let job = Job {
            spec,
            seat: None,
            cancelled: false,
        };
        let _ = self.jobs.push((number, job));
        self.added = number + 1;
        number
    }

    /// How many jobs were added.
    pub fn added(&self) -> u64
        ensures { result ≡ self.now.added }
    {
        self.added
    }

    /// The live job of this key and kind that is not cancelled. `cached` is the kind: whether only what is cached may answer.
    pub fn find(&self, key: &EngineKey, cached: bool) -> Option<u64>
        ensures value { result ≡ job_for key.now cached self.now.jobs }
        ensures it { (number : ℕ) →
            (result ≡ Some number) ↔ IsJobFor key.now cached self.now.jobs number }
        ensures none { (result ≡ None) ↔
            ((number : ℕ) → ¬ (IsJobFor key.now cached self.now.jobs number)) }
    {
        same_key_is_equality();
        first_serving(&self.jobs, key, cached)
    }

    /// The queued job of first priority, and of these the one of least number.
    pub fn next_queued(&self) -> Option<u64>
        ensures value { result ≡ next_queued self.now.jobs }
        ensures it { (number : ℕ) → (result ≡ Some number) ↔ IsNext self.now.jobs number }
        ensures none { (result ≡ None) ↔ ((number : ℕ) → queued_in self.now.jobs number ≡ false) }
    {
        first_queued(&self.jobs)
    }

    /// Makes a queued job run on a seat, and copies what it is to load into the room.
    pub fn start(&mut self, job: u64, seat: u32, room: &mut KeyRoom)
        requires { queued_in self.old.jobs job ≡ true }
        ensures started { self.new ≡ record self.old { jobs = modify self.old.jobs job (run_on seat) } }
        ensures copied { option_map (λ live. live.spec) (get self.old.jobs job) ≡ Some room.new }
    {
        let place = place_of(&self.jobs, job);
        room.fill(&self.jobs[place].1.spec);
        self.jobs[place].1.seat = Some(seat);
    }

    /// Ends what no load waits on any more. A queued job goes, and the answer is true; a running one is marked as cancelled,
    /// and the answer is false.
    pub fn cancel(&mut self, job: u64) -> bool
        requires { IsSome (get self.old.jobs job) }
        ensures queued { result ≡ queued_in self.old.jobs job }
        ensures cancelled { self.new ≡ record self.old { jobs = after_cancel self.old.jobs job } }
    {
        let place = place_of(&self.jobs, job);
        let queued = self.jobs[place].1.seat.is_none();
        if queued {
            self.jobs.remove(place);
        } else {
            self.jobs[place].1.cancelled = true;
        }
        queued
    }

    /// Whether a live job was cancelled.
    pub fn is_cancelled(&self, job: u64) -> bool
        requires { IsSome (get self.now.jobs job) }
        ensures { option_map (λ live. live.cancelled) (get self.now.jobs job) ≡ Some result }
    {
        let place = place_of(&self.jobs, job);
        self.jobs[place].1.cancelled
    }

    /// Takes a live job out, and hands back what it was to load.
    pub fn end(&mut self, job: u64) -> LoadSpec
        requires { IsSome (get self.old.jobs job) }
        ensures spec { option_map (λ live. live.spec) (get self.old.jobs job) ≡ Some result }
        ensures gone { self.new ≡ record self.old { jobs = remove self.old.jobs job } }
    {
        let place = place_of(&self.jobs, job);
        let (_, live) = self.jobs.remove(place);
        let Job {
            spec,
            seat: _,
            cancelled: _,
        } = live;
        spec
    }
}
