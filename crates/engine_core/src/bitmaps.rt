// The moves of bitmaps: they are lent to jobs, come back, and become resources.
ghost use Rattle.std.specs.Prelude.{◌≡◌, ◌<◌, Some, None};
ghost use Rattle.std.specs.Option.{option_map};
ghost use Rattle.std.specs.FinMap.{get, insert, remove};
ghost use Rattle.bitmap_kind.specs.Picture.{IsSize};
ghost use Rattle.finite_maps.specs.Maps.{map_values};
ghost use Rattle.load_table.specs.Loads.{settled};
ghost use Rattle.load_table.specs.declared.loads.Settle.TheVariants as settles;
ghost use Rattle.engine_world.specs.Balance.{out_count};
ghost use Rattle.engine_world.specs.Moves.{lend, take_back};
ghost use Rattle.engine_world.specs.Steps.{Wanted, take_pooled, TakeFrom, Take, bitmap_to_pool, give_back, activate, IsOutcome, finish};
ghost use Rattle.engine_core.specs.Noted.{noted, lent_by};
ghost use Rattle.engine_core.specs.Conditions.{IsLive};
ghost use Rattle.engine_core.specs.Lending.{MayCount, HasOne, HasBitmap, HasPlaceFor, resource_by};

use crate::live_jobs::{JobEnds, JobGives, JobTakes, Loan, Return};
use crate::replies::Reply;
use crate::tables::Tables;
use bitmap_kind::{Bitmap, Config};
use bitmap_pool::numbers_stand_for_bitmaps;
use cache_key::{EngineKey, LoadSpec, same_key_is_equality};
use engine_resource::Resource;
use engine_world::{Lent, lookups_find_the_only_one};
use load_table::Settle;
use snapshots::update_snapshot;

// A bitmap as it is when it is taken.
fn lent_by(bitmap: &Bitmap) -> Lent
    ensures { result ≡ lent_by bitmap.now }
{
    Lent {
        number: bitmap.number(),
        allocation: bitmap.allocation(),
        width: bitmap.width(),
        height: bitmap.height(),
        config: bitmap.config(),
    }
}

impl Tables {
    // A bitmap is lent to a job.
    fn lend(&mut self, job: u64, bitmap: &Bitmap)
        requires live { IsLive self.old job }
        requires few { out_count self.old < 18446744073709551615 }
        ensures { self.new ≡ lend job (get self.old.jobs job) (lent_by bitmap.now) self.old }
    {
        let lent = lent_by(bitmap);
        self.out += 1;
        update_snapshot::<_, _, JobTakes>(&mut self.live, &Loan { job, lent });
    }

    // A bitmap of the pool is lent.
    fn take_pooled(&mut self, job: u64, bitmap: Bitmap) -> Reply
        requires live { IsLive self.old job }
        requires may { MayCount self.old }
        ensures { IsOutcome (noted result) self.new (take_pooled job (lent_by bitmap) self.old) }
    {
        self.counts.takes += 1;
        self.counts.reused += 1;
        self.lend(job, &bitmap);
        Reply::Taken(bitmap)
    }

    // A new bitmap is lent, or there is no memory for it.
    fn take_new(&mut self, job: u64, width: u32, height: u32, config: Config) -> Reply
        requires size { IsSize width height }
        requires live { IsLive self.old job }
        requires may { MayCount self.old }
        ensures { let wanted : Wanted =
            record { job = job; width = width; height = height; config = config } in
            TakeFrom wanted self.old None (noted result) self.new }
    {
        let made = Bitmap::make(self.alloc, self.next, width, height, config);
        let Ok(bitmap) = made else {
            return Reply::NoMemory;
        };
        self.next += 1;
        self.counts.takes += 1;
        self.lend(job, &bitmap);
        Reply::Taken(bitmap)
    }

    /// A bitmap for a job: one of the pool, or else a new one. Want of memory comes only where the pool gives none.
    pub fn take(&mut self, job: u64, width: u32, height: u32, config: Config) -> Reply
        requires size { IsSize width height }
        requires live { IsLive self.old job }
        requires may { MayCount self.old }
        ensures { let wanted : Wanted =
            record { job = job; width = width; height = height; config = config } in
            Take wanted self.old (noted result) self.new }
    {
        numbers_stand_for_bitmaps();
        match self.pool.get_dirty(width, height, config) {
            Some(bitmap) => self.take_pooled(job, bitmap),
            None => self.take_new(job, width, height, config),
        }
    }

    // A bitmap goes to the pool.
    fn pool_bitmap(&mut self, bitmap: Bitmap)
        ensures { self.new ≡ bitmap_to_pool bitmap self.old }
    {
        numbers_stand_for_bitmaps();
        self.pool.put(bitmap);
    }

    // A bitmap is with its job no longer.
    fn take_back(&mut self, job: u64, number: u64)
        requires live { IsLive self.old job }
        requires lent { HasBitmap self.old job number }
        ensures { self.new ≡ take_back job (get self.old.jobs job) number self.old }
    {
        self.out -= 1;
        update_snapshot::<_, _, JobGives>(&mut self.live, &Return { job, number });
    }

    /// A job gives a bitmap back.
    pub fn give_back(&mut self, job: u64, bitmap: Bitmap)
        requires live { IsLive self.old job }
        requires lent { HasBitmap self.old job bitmap.number }
        ensures { self.new ≡ give_back self.old job bitmap }
    {
        self.take_back(job, bitmap.number());
        self.pool_bitmap(bitmap);
    }

    // A job that has one bitmap ends, and the bitmap is out no longer. It answers what the job was to load.
    fn end_with_bitmap(&mut self, job: u64) -> LoadSpec
        requires live { IsLive self.old job }
        requires one { HasOne self.old job }
        ensures spec { option_map (λ live. live.spec) (get self.old.jobs job) ≡ Some result }
        ensures left { self.new ≡ record self.old { jobs = remove self.old.jobs job } }
    {
        self.out -= 1;
        update_snapshot::<_, _, JobEnds>(&mut self.live, &job);
        self.jobs.end(job)
    }

    // A bitmap becomes a resource of this key. One that may be asked for again is active, in place of another of the key.
    fn add_resource(&mut self, bitmap: Bitmap, key: EngineKey, cacheable: bool)
        requires { HasPlaceFor self.old bitmap.number }
        ensures { let resource = resource_by key cacheable bitmap in
            self.new ≡ record (activate cacheable bitmap.number resource self.old) {
              resources = insert self.old.resources bitmap.number resource;
            } }
    {
        lookups_find_the_only_one();
        same_key_is_equality();
        let number = bitmap.number();
        self.resources.add(Resource::new(bitmap, key, cacheable));
        if cacheable {
            let _ = self.active.activate(&self.resources, number);
        }
    }

    /// A job ends with its bitmap: the loads that wait on it are ready, and where it was cancelled the pool has the bitmap.
    pub fn finish(&mut self, job: u64, bitmap: Bitmap) -> Reply
        requires live { IsLive self.old job }
        requires one { HasOne self.old job }
        requires place { HasPlaceFor self.old bitmap.number }
        ensures { IsOutcome (noted result) self.new (finish self.old job (get self.old.jobs job) bitmap) }
    {
        let cancelled = self.is_cancelled(job);
        let spec = self.end_with_bitmap(job);
        if cancelled {
            self.pool_bitmap(bitmap);
            return Reply::Discarded;
        }
        let number = bitmap.number();
        self.add_resource(bitmap, spec.key, !spec.skip);
        self.loads.settle(job, Settle::Ready(number));
        Reply::Done
    }
}
