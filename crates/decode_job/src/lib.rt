//! What runs one job of the engine, from its key to its end.
#![tactic(auto)]

mod ends;
mod laws;
mod pictures;
mod run;
mod texts;

pub use ends::JobEnd;
pub use laws::jobs_leave_loads;
pub use run::run_job;
