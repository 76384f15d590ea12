// The worked rows, and random calls beside a plain list.
ghost use Rattle.std.specs.Prelude.{◌<◌, ◌≤◌};

use crate::JobTable;
use bitmap_kind::{Config, Rule, Transform};
use cache_key::{EngineKey, KeyRoom, LoadSpec, Priority, Strategy, Text};
use faults::NoMemory;
use std::alloc::Global;
use std::marker::Model;
use std::test::Fail;

// A table with room for 100 jobs, each call of which is made only where its condition is seen to hold.
#[derive(Drop)]
struct Guarded {
    table: JobTable,
    added: u64,
}

impl Model for Guarded {
    ghost use Rattle.std.specs.Prelude.{ℕ};
    ghost use Rattle.job_table.specs.inside.Guarded.{HasRoom};

    ghost Value = { ℕ };

    ghost view = { λ s. s.added };

    ghost invariant = { λ s. HasRoom s.table s.added };
}

impl Guarded {
    fn new(alloc: Global) -> Result<Guarded, NoMemory> {
        Ok(Guarded {
            table: JobTable::new(alloc, 100)?,
            added: 0,
        })
    }

    fn find(&self, key: &EngineKey, cached: bool) -> Option<u64> {
        self.table.find(key, cached)
    }

    // Adds a job where there is none to join.
    fn add(&mut self, spec: LoadSpec) -> Option<u64> {
        if self.added >= 100 || self.table.find(&spec.key, spec.cached).is_some() {
            return None;
        }
        self.added += 1;
        Some(self.table.add(spec))
    }

    fn start_next(&mut self, seat: u32, room: &mut KeyRoom) -> Option<u64> {
        let number = self.table.next_queued()?;
        self.table.start(number, seat, room);
        Some(number)
    }

    // Cancels the job that is found.
    fn cancel(&mut self, key: &EngineKey, cached: bool) -> Option<bool> {
        let number = self.table.find(key, cached)?;
        Some(self.table.cancel(number))
    }

    // Ends the job that is found, and answers the width that it was to load.
    fn end(&mut self, key: &EngineKey, cached: bool) -> Option<u32> {
        let number = self.table.find(key, cached)?;
        Some(self.table.end(number).key.width)
    }

    // Cancels the job that is found, and where it runs tells whether it was marked.
    fn cancel_running(&mut self, key: &EngineKey, cached: bool) -> Option<bool> {
        let number = self.table.find(key, cached)?;
        if self.table.cancel(number) {
            return None;
        }
        Some(self.table.is_cancelled(number))
    }
}

fn key_of(alloc: Global, width: u32) -> Result<EngineKey, NoMemory>
    requires { (1 ≤ width) × (width ≤ 16384) }
{
    Ok(EngineKey {
        url: Text::new(alloc, b"red")?,
        sig: Text::new(alloc, b"1")?,
        width,
        height: 1,
        transform: Transform::Inside,
        config: Config::Alpha8,
        rule: Rule::AtMost,
    })
}

fn load_of(
    alloc: Global,
    width: u32,
    cached: bool,
    priority: Priority,
) -> Result<LoadSpec, NoMemory>
    requires { (1 ≤ width) × (width ≤ 16384) }
{
    Ok(LoadSpec {
        key: key_of(alloc, width)?,
        strategy: Strategy::Automatic,
        priority,
        skip: false,
        cached,
    })
}

#[test]
fn starts_by_priority_and_then_by_number(rt: HostRuntime) -> Result<(), Fail> {
    let alloc = rt.alloc();
    let mut room = KeyRoom::new(alloc)?;
    let mut table = Guarded::new(alloc)?;
    assert_eq!(rt; table.start_next(1, &mut room), None);
    assert_eq!(rt;
        table.add(load_of(alloc, 1, false, Priority::Low)?),
        Some(0)
    );
    assert_eq!(rt;
        table.add(load_of(alloc, 2, false, Priority::Normal)?),
        Some(1)
    );
    assert_eq!(rt; table.add(load_of(alloc, 2, false, Priority::High)?), None);
    assert_eq!(rt;
        table.add(load_of(alloc, 2, true, Priority::Normal)?),
        Some(2)
    );
    assert_eq!(rt; table.start_next(1, &mut room), Some(1));
    assert_eq!(rt; room.spec().key.width, 2);
    assert!(rt; !room.spec().cached);
    assert_eq!(rt; table.start_next(2, &mut room), Some(2));
    assert!(rt; room.spec().cached);
    assert_eq!(rt; table.start_next(0, &mut room), Some(0));
    assert_eq!(rt; room.spec().key.width, 1);
    assert_eq!(rt; table.start_next(0, &mut room), None);
    Ok(())
}

#[test]
fn adds_a_job_beside_a_cancelled_one(rt: HostRuntime) -> Result<(), Fail> {
    let alloc = rt.alloc();
    let mut room = KeyRoom::new(alloc)?;
    let mut table = Guarded::new(alloc)?;
    let key = key_of(alloc, 7)?;
    assert_eq!(rt; table.cancel(&key, false), None);
    assert_eq!(rt;
        table.add(load_of(alloc, 7, false, Priority::Normal)?),
        Some(0)
    );
    assert_eq!(rt; table.start_next(0, &mut room), Some(0));
    assert_eq!(rt; table.cancel_running(&key, false), Some(true));
    assert_eq!(rt; table.find(&key, false), None);
    assert_eq!(rt; table.start_next(0, &mut room), None);
    assert_eq!(rt;
        table.add(load_of(alloc, 7, false, Priority::Normal)?),
        Some(1)
    );
    assert_eq!(rt; table.find(&key, true), None);
    assert_eq!(rt; table.find(&key, false), Some(1));
    assert_eq!(rt; table.cancel(&key, false), Some(true));
    assert_eq!(rt; table.start_next(0, &mut room), None);
    assert_eq!(rt;
        table.add(load_of(alloc, 7, false, Priority::Normal)?),
        Some(2)
    );
    assert_eq!(rt; table.start_next(0, &mut room), Some(2));
    assert_eq!(rt; table.end(&key, false), Some(7));
    assert_eq!(rt; table.end(&key, false), None);
    Ok(())
}

// What a plain list knows of a job. A lesser rank starts first.
#[derive(Drop)]
struct PlainJob {
    number: u64,
    width: u32,
    cached: bool,
    rank: u64,
    running: bool,
    cancelled: bool,
}

impl PlainJob {
    fn serves(&self, width: u32, cached: bool) -> bool {
        self.width == width && self.cached == cached && !self.cancelled
    }
}

// A plain list of jobs.
#[derive(Drop)]
struct PlainList {
    added: u64,
    jobs: Vec<PlainJob>,
}

impl PlainList {
    fn find(&self, width: u32, cached: bool) -> Option<u64> {
        for job in &self.jobs {
            if job.serves(width, cached) {
                return Some(job.number);
            }
        }
        None
    }

    fn add(&mut self, width: u32, cached: bool, rank: u64) -> Result<Option<u64>, Fail> {
        if self.added >= 100 || self.find(width, cached).is_some() {
            return Ok(None);
        }
        let number = self.added;
        self.added += 1;
        self.jobs.push(PlainJob {
            number,
            width,
            cached,
            rank,
            running: false,
            cancelled: false,
        })?;
        Ok(Some(number))
    }

    // The number of the queued job of least rank, of these the least, and where it stands.
    fn start_next(&mut self) -> Option<u64> {
        let mut best = (4, 0, 0);
        for i in 0..self.jobs.len() {
            if !self.jobs[i].running && self.jobs[i].rank < best.0 {
                best = (self.jobs[i].rank, self.jobs[i].number, i);
            }
        }
        if best.2 < self.jobs.len() && best.0 < 4 {
            self.jobs[best.2].running = true;
            return Some(best.1);
        }
        None
    }

    fn cancel(&mut self, width: u32, cached: bool) -> Option<bool> {
        for i in 0..self.jobs.len() {
            if self.jobs[i].serves(width, cached) {
                let queued = !self.jobs[i].running;
                self.jobs[i].cancelled = true;
                if queued {
                    self.jobs.remove(i);
                }
                return Some(queued);
            }
        }
        None
    }

    fn end(&mut self, width: u32, cached: bool) -> Option<u32> {
        for i in 0..self.jobs.len() {
            if self.jobs[i].serves(width, cached) {
                return Some(self.jobs.remove(i).width);
            }
        }
        None
    }
}

// A number below a limit, and the next state of Knuth's generator of MMIX.
fn random_below(state: &mut u64, limit: u64) -> u64
    requires { 0 < limit }
    ensures { result < limit }
{
    *state = state
        .wrapping_mul(6_364_136_223_846_793_005)
        .wrapping_add(1_442_695_040_888_963_407);
    (*state >> 33) % limit
}

fn priority_of(rank: u64) -> Priority {
    match rank {
        0 => Priority::Immediate,
        1 => Priority::High,
        2 => Priority::Normal,
        _ => Priority::Low,
    }
}

// One call of both, and whether they answered the same.
fn same_answer(
    alloc: Global,
    table: &mut Guarded,
    list: &mut PlainList,
    state: &mut u64,
) -> Result<bool, Fail> {
    let width = 1 + random_below(state, 6) as u32;
    let cached = random_below(state, 2) == 0;
    let rank = random_below(state, 4);
    let key = key_of(alloc, width)?;
    if table.find(&key, cached) != list.find(width, cached) {
        return Ok(false);
    }
    match random_below(state, 10) {
        0..=4 => {
            let load = load_of(alloc, width, cached, priority_of(rank))?;
            Ok(table.add(load) == list.add(width, cached, rank)?)
        }
        5..=7 => {
            let mut room = KeyRoom::new(alloc)?;
            Ok(table.start_next(0, &mut room) == list.start_next())
        }
        8 => Ok(table.cancel(&key, cached) == list.cancel(width, cached)),
        _ => Ok(table.end(&key, cached) == list.end(width, cached)),
    }
}

// Whether both start the same jobs until none is queued, and then end the same ones.
fn same_end(alloc: Global, table: &mut Guarded, list: &mut PlainList) -> Result<bool, Fail> {
    let mut room = KeyRoom::new(alloc)?;
    for _ in 0..13 {
        if table.start_next(0, &mut room) != list.start_next() {
            return Ok(false);
        }
    }
    for width in 1..7 {
        let key = key_of(alloc, width)?;
        if table.end(&key, true) != list.end(width, true) {
            return Ok(false);
        }
        if table.end(&key, false) != list.end(width, false) {
            return Ok(false);
        }
    }
    Ok(true)
}

// 100 calls; then each queued job starts, and each that is not cancelled ends, in both.
fn same_run(alloc: Global, state: &mut u64) -> Result<bool, Fail> {
    let mut table = Guarded::new(alloc)?;
    let mut list = PlainList {
        added: 0,
        jobs: Vec::new(alloc),
    };
    for _ in 0..100 {
        if !same_answer(alloc, &mut table, &mut list, state)? {
            return Ok(false);
        }
    }
    same_end(alloc, &mut table, &mut list)
}

#[test]
fn random_calls_answer_as_a_plain_list(rt: HostRuntime) -> Result<(), Fail> {
    let mut state = 2_026;
    for _ in 0..100 {
        assert!(rt; same_run(rt.alloc(), &mut state)?);
    }
    Ok(())
}
