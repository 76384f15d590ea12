// The walk of a script: what a plain reading of its lines does to the views, and what it prints.
#![tactic(auto)]

mod laws;

pub use laws::{
    a_tracker_makes_the_moves, begins_are_cached_by_loads, begins_end_at_the_next_gather,
    begins_run_together, blamed_sources_failed, ends_decide_the_walk, moves_go_by_place,
    no_marks_no_failures, no_more_ends_than_begins, runs_are_marked_walks, traces_are_orderly,
    walks_go_on, walks_stop_at_the_first_bad_command,
};

#[cfg(test)]
mod worked;
