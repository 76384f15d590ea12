// The laws by which a run of the engine is the walk of its script.
ghost use Rattle.glide_run.specs.inside.RunLaws.{Laws};

use engine_core::{Core, Reply};
use engine_world::{each_history_is_sound, each_history_keeps_limits};
use fetch_bounds::{
    ends_have_failures, failed_jobs_suffice, followed_traces_are_answered, followed_traces_join,
    marked_begins_failed, runs_are_begun, runs_are_bounded, runs_mark_themselves,
};
use script_walk::{
    begins_are_cached_by_loads, begins_end_at_the_next_gather, blamed_sources_failed,
    ends_decide_the_walk, traces_are_orderly,
};

/// Those of the walk, of histories that follow it, of what failed in them, and of the engine.
pub fn runs_are_walks()
    ensures { Laws }
{
    ends_decide_the_walk();
    begins_end_at_the_next_gather();
    begins_are_cached_by_loads();
    blamed_sources_failed();
    traces_are_orderly();
    followed_traces_join();
    followed_traces_are_answered();
    runs_mark_themselves::<Core, Reply>();
    runs_are_bounded::<Core, Reply>();
    runs_are_begun::<Core, Reply>();
    failed_jobs_suffice::<Core, Reply>();
    ends_have_failures::<Core, Reply>();
    marked_begins_failed::<Core, Reply>();
    each_history_is_sound::<Core, Reply>();
    each_history_keeps_limits::<Core, Reply>();
}
