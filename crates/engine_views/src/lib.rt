//! The views of a script, what each of them holds of the engine, and how their loads come to their ends.
#![tactic(auto)]

mod gathers;
mod holds;
mod jobs;
mod laws;
mod moves;
mod turned;

pub use holds::EngineViews;
pub use laws::{quiet_calls_leave_views, releases_end_walks};
