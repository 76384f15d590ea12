// An engine that one caller owns, each call of which is made only where its condition is seen to hold.
ghost use Rattle.std.specs.Prelude.{◌≡◌, ◌+◌, ◌<◌, ◌≤◌, ◌++◌, ◌∷◌, [], length, Some, vec_len};
ghost use Rattle.std.specs.Vec.{vec_capacity};
ghost use Rattle.bitmap_kind.specs.Picture.{IsSize};

use bitmap_kind::Config;
use cache_key::{KeyRoom, LoadSpec};
use decode_job::{JobEnd, jobs_leave_loads, run_job};
use engine_core::{Core, Limits};
use engine_shared::{
    Alone, EngineCalls, Full, Hold, JobPass, Next, Outcome, calls_leave_the_rest,
    calls_tell_what_they_add,
};
use engine_world::Totals;
use outside::{Source, Told};
use std::alloc::Global;
use std::marker::Model;
use std::process::Abort;

// Whether there was a job to run.
#[derive(Clone, Copy, Debug, PartialEq, Eq)]
pub enum Started {
    Job,
    Idle,
    Closed,
}

// An engine, the loads that its owner made by their numbers, but for those that it released, and the job that it runs.
pub struct Guarded {
    engine: Alone,
    holds: Vec<Option<Hold>>,
    pass: Option<JobPass>,
}

impl Model for Guarded {
    ghost use Rattle.std.specs.Prelude.{ℕ, length};
    ghost use Rattle.engine_runs.specs.Guarded.{IsGuarded};

    ghost Value = { ℕ };

    ghost view = { λ s. length s.holds.items };

    ghost invariant = { λ s. IsGuarded s.engine s.holds.items s.pass };
}

// Adds a load, for which there is room.
fn push_hold(holds: &mut Vec<Option<Hold>>, hold: Hold)
    requires { vec_len holds.old < vec_capacity holds.old }
    ensures { holds.new.items ≡ holds.old.items ++ Some hold ∷ [] }
{
    match holds.push(Some(hold)) {
        Ok(()) => {}
        Err(_) => unreachable!(),
    }
}

impl Guarded {
    // Pool and memory cache of these sizes in bytes, and so many loads at a time.
    pub fn new(rt: &impl Abort, alloc: Global, pool: u64, memory: u64, quota: u32) -> Guarded
        requires { quota ≤ 100 }
    {
        let quotas = vec![in alloc; quota].expect(rt, "memory");
        let limits = Limits::new(pool, memory, quotas);
        let core = Core::new(alloc, limits, Told::nothing()).expect(rt, "memory");
        Guarded {
            engine: Alone::new(core),
            holds: Vec::new(alloc),
            pass: None,
        }
    }

    // Begins a load, which has the next number, unless it is `Full`.
    pub fn load(&mut self, rt: &impl Abort, spec: LoadSpec) -> Result<(), Full> {
        calls_tell_what_they_add();
        calls_leave_the_rest();
        assert!(rt; self.holds.len() < 1_000);
        self.holds.reserve(1).expect(rt, "memory");
        let hold = self.engine.load(spec)?;
        push_hold(&mut self.holds, hold);
        Ok(())
    }

    // What the load of this number has come to, if it is had.
    pub fn collect(&mut self, number: usize) -> Option<Outcome> {
        calls_tell_what_they_add();
        calls_leave_the_rest();
        let Some(Some(hold)) = self.holds.get(number) else {
            return None;
        };
        Some(self.engine.collect(hold))
    }

    // Releases the load of this number. False where it is not had.
    pub fn release(&mut self, number: usize) -> bool {
        calls_tell_what_they_add();
        calls_leave_the_rest();
        if number >= self.holds.len() {
            return false;
        }
        let Some(hold) = self.holds[number].take() else {
            return false;
        };
        self.engine.release(hold);
        true
    }

    // Asks for the next job to run, where none runs.
    pub fn start(&mut self, rt: &impl Abort, room: KeyRoom) -> Started {
        calls_tell_what_they_add();
        calls_leave_the_rest();
        assert!(rt; self.pass.is_none());
        match self.engine.next_job(room) {
            Next::Job(pass) => match self.pass.replace(pass) {
                None => Started::Job,
                Some(_) => unreachable!(),
            },
            Next::Idle(_back) => Started::Idle,
            Next::Closed(_back) => Started::Closed,
        }
    }

    // Ends the job that runs with a bitmap of these sides, whatever it shows. Answers whether it was taken, if a job runs.
    pub fn finish(&mut self, rt: &impl Abort, width: u32, height: u32) -> Option<bool>
        requires { IsSize width height }
    {
        calls_tell_what_they_add();
        calls_leave_the_rest();
        let mut pass = self.pass.take()?;
        let taken = self.engine.take(&mut pass, width, height, Config::Argb8888);
        let bitmap = taken.expect(rt, "memory");
        Some(self.engine.finish(pass, bitmap).0)
    }

    // Runs the job that was started over a source. Answers how it ended, if one was.
    pub fn run<S: Source>(&mut self, alloc: Global, source: &mut S) -> Option<JobEnd> {
        calls_leave_the_rest();
        jobs_leave_loads();
        let pass = self.pass.take()?;
        Some(run_job(alloc, &mut self.engine, source, pass).0)
    }

    pub fn trim(&mut self, level: u32) {
        calls_tell_what_they_add();
        calls_leave_the_rest();
        self.engine.trim(level);
    }

    pub fn close(&mut self) {
        calls_tell_what_they_add();
        calls_leave_the_rest();
        self.engine.close();
    }

    pub fn totals(&mut self) -> Totals {
        calls_tell_what_they_add();
        calls_leave_the_rest();
        self.engine.wait_news();
        self.engine.totals()
    }

    // The engine is done with. No load may be had any more, and no job may run.
    pub fn end(self, rt: &impl Abort) {
        let Guarded {
            engine,
            mut holds,
            pass,
        } = self;
        while let Some(hold) = holds.pop() {
            match hold {
                None => {}
                Some(_) => rt.panic("a load was not released"),
            }
        }
        holds.destroy_empty();
        match pass {
            None => {}
            Some(_) => rt.panic("a job was not ended"),
        }
        let _ = engine.into_core();
    }
}
