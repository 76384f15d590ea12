// How the tables begin.
ghost use Rattle.std.specs.Prelude.{◌≡◌, ◌≤◌, replicate, IfOk};
ghost use Rattle.engine_world.specs.World.{opening};
ghost use Rattle.engine_world.specs.Rooms.{quota_sum};
ghost use Rattle.engine_core.specs.Opening.{AreServed};

use crate::live_jobs::no_live_jobs;
use crate::replies::Limits;
use crate::tables::{LoadCounts, Tables};
use active_resources::Active;
use bitmap_pool::Pool;
use faults::NoMemory;
use job_table::JobTable;
use load_table::LoadTable;
use memory_cache::Cache;
use outside::Told;
use resource_table::ResourceTable;
use std::alloc::Global;

// How many loads the seats may have together.
fn quota_sum(quotas: &[u32]) -> usize
    requires { quota_sum quotas.now ≤ 8192 }
    ensures { result ≡ quota_sum quotas.now }
{
    let mut sum = 0;
    for quota in quotas {
        sum += *quota as usize;
    }
    sum
}

// No load yet, and no take.
fn no_counts() -> LoadCounts
    ensures { result ≡ record { loads = 0; active = 0; memory = 0; joined = 0; takes = 0; reused = 0 } }
{
    LoadCounts {
        loads: 0,
        active: 0,
        memory: 0,
        joined: 0,
        takes: 0,
        reused: 0,
    }
}

// No load yet of each seat.
fn none_begun(alloc: Global, seats: usize) -> Result<Vec<u64>, NoMemory>
    ensures { IfOk result (λ begun. begun.items ≡ replicate seats 0) }
{
    Ok(vec![in alloc; 0; seats]?)
}

impl Tables {
    /// The tables with nothing in them, for 1 to 64 seats that may have at most 8,192 loads together. They take all the
    /// memory here that later events need, but that of the bitmaps.
    pub fn new(alloc: Global, limits: Limits, told: Told) -> Result<Tables, NoMemory>
        requires { AreServed limits }
        ensures { IfOk result (λ tables. tables ≡ opening limits told) }
    {
        let seats = limits.quotas.len();
        let loads = quota_sum(&limits.quotas);
        Ok(Tables {
            alloc,
            loads: LoadTable::new(alloc, loads)?,
            jobs: JobTable::new(alloc, loads + seats + 1)?,
            live: no_live_jobs(),
            resources: ResourceTable::new(alloc, loads + 1_025)?,
            active: Active::new(alloc, loads + 1)?,
            cache: Cache::new(alloc, limits.memory)?,
            pool: Pool::new(alloc, limits.pool)?,
            next: 0,
            counts: no_counts(),
            begun: none_begun(alloc, seats)?,
            quotas: limits.quotas,
            out: 0,
            closed: false,
            told,
        })
    }
}
