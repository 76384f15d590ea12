//! When a load starts no job, and how many jobs a script may cost. There is no code in it but its laws.
#![tactic(auto)]

mod laws;
#[cfg(test)]
mod worked;

pub use laws::{
    ends_have_failures, failed_jobs_suffice, failed_loads_were_failed, failures_add_up,
    followed_traces_are_answered, followed_traces_join, loads_are_shared, marked_begins_failed,
    pictures_stay_in_memory, runs_are_begun, runs_are_bounded, runs_mark_themselves,
};
