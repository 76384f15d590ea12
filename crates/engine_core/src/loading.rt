// The event Load.
ghost use Rattle.std.specs.Prelude.{◌≡◌, ◌<◌, ◌==◌, length, map, None};
ghost use Rattle.std.specs.List.{find};
ghost use Rattle.load_table.specs.declared.loads.LoadState.TheVariants.{Waiting, Ready};
ghost use Rattle.load_table.specs.Loads.{owned};
ghost use Rattle.finite_maps.specs.Maps.{map_values};
ghost use Rattle.memory_cache.specs.Cache.{number_in};
ghost use Rattle.engine_world.specs.declared.events.NotedReply.TheVariants as notes;
ghost use Rattle.engine_world.specs.Places.{occurrences};
ghost use Rattle.engine_world.specs.Moves.{has_key, active_of, cached_of, begun_by, add_load, job_for};
ghost use Rattle.engine_world.specs.Steps.{quota_of, load_starting, load_from_jobs, load_by_active, load};
ghost use Rattle.engine_world.specs.Permits.{load_limit};
ghost use Rattle.engine_core.specs.InOrder.{InOrder, MayAddLoad};
ghost use Rattle.engine_core.specs.Loading.{AllThere, NoneActive, queued_more, joined_more, active_more, revived};
ghost use Rattle.engine_core.specs.Noted.{noted};
ghost use Rattle.engine_core.specs.TablesView.{resource_in};

use crate::live_jobs::{Begin, JobBegins};
use crate::replies::Reply;
use crate::tables::Tables;
use cache_key::{EngineKey, LoadSpec, same_key_is_equality};
use engine_world::{lookups_find_the_only_one, rooms_suffice};
use load_cause::Cause;
use load_table::LoadState;
use resource_table::ResourceTable;
use snapshots::update_snapshot;
use std::snapshot::Snapshot;

// The first cached number whose resource has this key.
pub(crate) fn first_with(
    resources: &ResourceTable,
    items: &[(u64, u64)],
    key: &EngineKey,
) -> Option<u64>
    requires { AllThere resources.now.resources items.now }
    ensures { result
        ≡ find (has_key (map_values resource_in resources.now.resources) key.now) (map number_in items.now) }
{
    for item in items {
        if resources.get(item.0).key().is(key) {
            return Some(item.0);
        }
    }
    None
}

impl Tables {
    // The active resource of a key.
    fn active_of(&self, key: &EngineKey) -> Option<u64>
        requires { InOrder self.now }
        ensures { result ≡ active_of self.now.resources self.now.active key.now }
    {
        lookups_find_the_only_one();
        same_key_is_equality();
        self.active.find(&self.resources, key)
    }

    // The cached resource of a key.
    fn cached_of(&self, key: &EngineKey) -> Option<u64>
        requires { InOrder self.now }
        ensures { result ≡ cached_of self.now.resources self.now.cached key.now }
    {
        first_with(&self.resources, self.cache.items(), key)
    }

    // Whether a seat has as many loads as it may have.
    fn is_full(&self, who: u32) -> bool
        requires { who < length self.now.limits.quotas }
        ensures { result ≡ (owned who self.now.loads == quota_of self.now who) }
    {
        self.loads.live(who) == self.quotas[who as usize]
    }

    // A seat has a load more, in this state.
    fn add_load(&mut self, who: u32, state: LoadState<Cause>)
        requires { MayAddLoad self.old who }
        ensures { self.new ≡ add_load who state self.old }
    {
        let number = self.begun[who as usize];
        self.loads.add(who, number, state);
        self.begun[who as usize] = number + 1;
        self.counts.loads += 1;
    }

    // A new job is queued, and its number is how many were started before.
    fn queue(&mut self, spec: LoadSpec) -> u64
        requires order { InOrder self.old }
        requires none { job_for self.old.jobs spec.key spec.cached ≡ None }
        ensures number { result ≡ self.old.counts.started }
        ensures left { self.new ≡ queued_more spec self.old }
    {
        rooms_suffice();
        let wanted = Snapshot::of(&spec);
        let job = self.jobs.add(spec);
        update_snapshot::<_, _, JobBegins>(&mut self.live, &Begin { job, wanted });
        job
    }

    // The load waits on a job of its own.
    fn load_starting(&mut self, who: u32, spec: LoadSpec) -> Reply
        requires order { InOrder self.old }
        requires add { MayAddLoad self.old who }
        requires none { job_for self.old.jobs spec.key spec.cached ≡ None }
        ensures reply { noted result ≡ (load_starting self.old who spec).0 }
        ensures left { self.new ≡ (load_starting self.old who spec).1 }
    {
        let job = self.queue(spec);
        self.add_load(who, LoadState::Waiting(job));
        Reply::Started(job)
    }

    // The load waits on a job that there is.
    fn load_joining(&mut self, who: u32, job: u64) -> Reply
        requires order { InOrder self.old }
        requires add { MayAddLoad self.old who }
        ensures reply { noted result ≡ notes.Joined job }
        ensures left { self.new ≡ add_load who (Waiting job) (joined_more self.old) }
    {
        self.counts.joined += 1;
        self.add_load(who, LoadState::Waiting(job));
        Reply::Joined(job)
    }

    // The load waits on a job.
    fn load_from_jobs(&mut self, who: u32, spec: LoadSpec) -> Reply
        requires order { InOrder self.old }
        requires add { MayAddLoad self.old who }
        ensures reply { noted result ≡ (load_from_jobs self.old who spec).0 }
        ensures left { self.new ≡ (load_from_jobs self.old who spec).1 }
    {
        match self.jobs.find(&spec.key, spec.cached) {
            Some(job) => self.load_joining(who, job),
            None => self.load_starting(who, spec),
        }
    }

    // A cached resource becomes active.
    fn revive(&mut self, number: u64)
        requires order { InOrder self.old }
        requires few { self.old.counts.memory < 18446744073709551615 }
        requires cached { 0 < occurrences number self.old.cached }
        requires alone { NoneActive self.old number }
        ensures { self.new ≡ revived number self.old }
    {
        rooms_suffice();
        lookups_find_the_only_one();
        same_key_is_equality();
        let _ = self.cache.remove(number);
        let _ = self.active.activate(&self.resources, number);
        self.counts.memory += 1;
    }

    // The load is ready on a cached resource.
    fn load_cached(&mut self, who: u32, number: u64) -> Reply
        requires order { InOrder self.old }
        requires add { MayAddLoad self.old who }
        requires cached { 0 < occurrences number self.old.cached }
        requires alone { NoneActive self.old number }
        ensures reply { noted result ≡ notes.Ready }
        ensures left { self.new ≡ add_load who (Ready number) (revived number self.old) }
    {
        self.revive(number);
        self.add_load(who, LoadState::Ready(number));
        Reply::Ready
    }

    // An active resource gains the load.
    fn load_active(&mut self, who: u32, number: u64) -> Reply
        requires order { InOrder self.old }
        requires add { MayAddLoad self.old who }
        ensures reply { noted result ≡ notes.Ready }
        ensures left { self.new ≡ add_load who (Ready number) (active_more self.old) }
    {
        self.counts.active += 1;
        self.add_load(who, LoadState::Ready(number));
        Reply::Ready
    }

    // The load is ready on what memory has of its key, or waits on a job.
    fn load_from_memory(&mut self, who: u32, spec: LoadSpec) -> Reply
        requires order { InOrder self.old }
        requires add { MayAddLoad self.old who }
        ensures reply { noted result
            ≡ (load_by_active self.old who spec (active_of self.old.resources self.old.active spec.key)).0 }
        ensures left { self.new
            ≡ (load_by_active self.old who spec (active_of self.old.resources self.old.active spec.key)).1 }
    {
        lookups_find_the_only_one();
        same_key_is_equality();
        if let Some(number) = self.active_of(&spec.key) {
            return self.load_active(who, number);
        }
        match self.cached_of(&spec.key) {
            Some(number) => self.load_cached(who, number),
            None => self.load_from_jobs(who, spec),
        }
    }

    /// A seat wants a picture. `Full` exactly where it has as many loads as its quota; else the load is ready on a resource
    /// that memory has, unless the request passes memory over, or waits on a job.
    pub fn load(&mut self, who: u32, spec: LoadSpec) -> Reply
        requires order { InOrder self.old }
        requires seat { who < length self.old.limits.quotas }
        requires few { begun_by self.old who < load_limit }
        ensures reply { noted result ≡ (load self.old who spec).0 }
        ensures left { self.new ≡ (load self.old who spec).1 }
    {
        rooms_suffice();
        if self.is_full(who) {
            Reply::Full
        } else if spec.skip {
            self.load_from_jobs(who, spec)
        } else {
            self.load_from_memory(who, spec)
        }
    }
}
