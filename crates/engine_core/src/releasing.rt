// The moves of loads that go, and of resources that no load holds.
ghost use Rattle.std.specs.Prelude.{◌≡◌, ℕ, ◌<◌, ◌≤◌, true, false, length, Some, IsSome, IfSome};
ghost use Rattle.std.specs.FinMap.{get};
ghost use Rattle.load_table.specs.Loads.{holders};
ghost use Rattle.load_table.specs.declared.loads.LoadState.TheVariants.{Ready};
ghost use Rattle.engine_world.specs.World.{Resource};
ghost use Rattle.engine_world.specs.Places.{occurrences};
ghost use Rattle.engine_world.specs.Moves.{size_of, cached_of, shrink_cache, cached_to_pool, cache_first, to_cache, let_go, leave_job, trim_to};
ghost use Rattle.engine_world.specs.Steps.{release, released, trim};
ghost use Rattle.engine_core.specs.Conditions.{IsLive};
ghost use Rattle.engine_core.specs.Releasing.{AreCached, IsIdle, QueuedHasNone, MayRelease};

use crate::live_jobs::JobLeft;
use crate::loading::first_with;
use crate::tables::Tables;
use bitmap_pool::numbers_stand_for_bitmaps;
use load_table::LoadState;
use memory_cache::eldest_goes_first;
use snapshots::update_snapshot;

impl Tables {
    // The eldest leaves the memory cache for the pool, where the cache is over. It answers whether one did.
    fn evict_over(&mut self) -> bool
        requires { AreCached self.old }
        ensures same { shrink_cache self.old.limits.memory self.new
            ≡ shrink_cache self.old.limits.memory self.old }
        ensures within { result ≡ false → shrink_cache self.old.limits.memory self.new ≡ self.new }
        ensures less { result ≡ true → length self.new.cached < length self.old.cached }
        ensures cached { AreCached self.new }
        ensures limits { self.new.limits ≡ self.old.limits }
    {
        eldest_goes_first::<u64>();
        match self.cache.over() {
            None => false,
            Some(number) => {
                self.to_pool(number);
                true
            }
        }
    }

    // The same where the cached sizes are together more than this one.
    fn evict_above(&mut self, size: u64) -> bool
        requires cached { AreCached self.old }
        requires few { length self.old.cached ≤ 1024 }
        ensures same { shrink_cache size self.new ≡ shrink_cache size self.old }
        ensures within { result ≡ false → shrink_cache size self.new ≡ self.new }
        ensures less { result ≡ true → length self.new.cached < length self.old.cached }
        ensures cached { AreCached self.new }
        ensures few { length self.new.cached ≤ 1024 }
    {
        eldest_goes_first::<u64>();
        match self.cache.trim(size) {
            None => false,
            Some(number) => {
                self.to_pool(number);
                true
            }
        }
    }

    // What does not fit within its greatest size leaves the memory cache for the pool, the eldest first.
    fn shrink_cache(&mut self)
        requires { AreCached self.old }
        ensures { self.new ≡ shrink_cache self.old.limits.memory self.old }
    {
        while self.evict_over() {}
    }

    // What does not fit within this size leaves it likewise.
    fn cut_cache(&mut self, size: u64)
        requires cached { AreCached self.old }
        requires few { length self.old.cached ≤ 1024 }
        ensures { self.new ≡ shrink_cache size self.old }
    {
        while self.evict_above(size) {}
    }

    // The cached resource of a resource's key.
    fn cached_like(&self, number: u64) -> Option<u64>
        requires { IsIdle self.now number }
        ensures { (resource : Resource) → get self.now.resources number ≡ Some resource
            → result ≡ cached_of self.now.resources self.now.cached resource.key }
    {
        let key = self.resources.get(number).key();
        first_with(&self.resources, self.cache.items(), key)
    }

    // A cached resource leaves the memory cache and goes to the pool.
    fn cached_to_pool(&mut self, number: u64)
        requires cached { AreCached self.old }
        requires there { 0 < occurrences number self.old.cached }
        ensures { self.new ≡ cached_to_pool (Some number) self.old }
    {
        let _ = self.cache.remove(number);
        self.to_pool(number);
    }

    // A resource becomes the most recent of the memory cache, and what then does not fit goes.
    fn cache_first(&mut self, number: u64)
        requires idle { IsIdle self.old number }
        requires small { size_of self.old.resources number < self.old.limits.memory }
        ensures { self.new ≡ cache_first number self.old }
    {
        let size = self.resources.get(number).bitmap().allocation();
        self.cache.put(number, size);
        self.shrink_cache();
    }

    // Another cached resource of a resource's key leaves the memory cache and goes to the pool.
    fn drop_older(&mut self, number: u64)
        requires { IsIdle self.old number }
        ensures step { (resource : Resource) → get self.old.resources number ≡ Some resource
            → self.new ≡ cached_to_pool (cached_of self.old.resources self.old.cached resource.key) self.old }
        ensures idle { IsIdle self.new number }
        ensures size { size_of self.new.resources number ≡ size_of self.old.resources number }
        ensures limits { self.new.limits ≡ self.old.limits }
    {
        match self.cached_like(number) {
            Some(older) => self.cached_to_pool(older),
            None => {}
        }
    }

    // A resource goes to the memory cache, in place of another of its key. One that is too large goes to the pool.
    fn to_cache(&mut self, number: u64)
        requires { IsIdle self.old number }
        ensures { (resource : Resource) → get self.old.resources number ≡ Some resource
            → self.new ≡ to_cache number resource self.old }
    {
        let size = self.resources.get(number).bitmap().allocation();
        if self.cache.too_large(size) {
            self.to_pool(number);
            return;
        }
        self.drop_older(number);
        self.cache_first(number);
    }

    // A resource that no load holds is active no longer, and goes to the memory cache or to the pool.
    fn let_go(&mut self, number: u64)
        requires { IsIdle self.old number }
        ensures { self.new ≡ let_go number self.old }
    {
        let _ = self.active.deactivate_same(number);
        if self.resources.get(number).cacheable() {
            self.to_cache(number);
        } else {
            self.to_pool(number);
        }
    }

    // Where no load waits on a job any more, a queued job goes and a running one is cancelled.
    fn leave_job(&mut self, job: u64)
        requires live { IsLive self.old job }
        requires none_out { QueuedHasNone self.old job }
        ensures { self.new ≡ leave_job job self.old }
    {
        if self.loads.waiting(job) == 0 {
            let _ = self.jobs.cancel(job);
            update_snapshot::<_, _, JobLeft>(&mut self.live, &job);
        }
    }

    /// A load goes, and what no load waits on or holds any more is given up.
    pub fn release(&mut self, who: u32, number: u64)
        requires there { IsSome (get self.old.loads (who, number)) }
        requires may { IfSome (get self.old.loads (who, number)) (MayRelease who number self.old) }
        ensures { self.new ≡ release self.old who number (get self.old.loads (who, number)) }
    {
        match self.loads.remove(who, number) {
            LoadState::Waiting(job) => self.leave_job(job),
            LoadState::Ready(resource) => self.drop_hold(resource),
            LoadState::Failed(_) => {}
        }
    }

    // Where no load holds a resource any more, it is let go.
    fn drop_hold(&mut self, resource: u64)
        requires { holders resource self.old.loads ≡ 0 → IsIdle self.old resource }
        ensures { self.new ≡ released (Ready resource) self.old }
    {
        if self.loads.count_of(resource) == 0 {
            self.let_go(resource);
        }
    }

    // Memory cache and pool are cut to these sizes, the memory cache first.
    fn trim_to(&mut self, memory: u64, pool: u64)
        requires cached { AreCached self.old }
        requires few { length self.old.cached ≤ 1024 }
        ensures { self.new ≡ trim_to memory pool self.old }
    {
        numbers_stand_for_bitmaps();
        self.cut_cache(memory);
        self.pool.trim_to(pool);
    }

    /// Memory is wanted elsewhere, at one of Android's levels: 40 and more clear memory cache and pool, 20 to 39 and 15 cut
    /// each to half of its greatest size, and others change nothing.
    pub fn trim(&mut self, level: u32)
        requires cached { AreCached self.old }
        requires few { length self.old.cached ≤ 1024 }
        ensures { self.new ≡ trim level self.old }
    {
        if level >= 40 {
            self.trim_to(0, 0);
        } else if level >= 20 || level == 15 {
            let memory = self.cache.maximum() / 2;
            let pool = self.pool.maximum() / 2;
            self.trim_to(memory, pool);
        }
    }
}
