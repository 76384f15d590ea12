// The event Totals.
ghost use Rattle.std.specs.Prelude.{◌≡◌};
ghost use Rattle.engine_world.specs.Balance.{totals};
ghost use Rattle.engine_core.specs.InOrder.{InOrder};

use crate::tables::Tables;
use engine_world::{Totals, rooms_suffice};

impl Tables {
    /// How many loads and takes were answered from where, and how many bitmaps are where by now.
    pub fn totals(&self) -> Totals
        requires { InOrder self.now }
        ensures { result ≡ totals self.now }
    {
        rooms_suffice();
        let cached = self.cache.items().len() as u64;
        let held = self.resources.len() as u64 - cached;
        let pooled = self.pool.count() as u64;
        Totals {
            loads: self.counts.loads,
            active: self.counts.active,
            memory: self.counts.memory,
            joined: self.counts.joined,
            started: self.jobs.added(),
            takes: self.counts.takes,
            reused: self.counts.reused,
            made: self.next,
            decoding: self.out,
            held,
            cached,
            pooled,
            recycled: self.next - (self.out + held + cached + pooled),
        }
    }
}
