//! The engine's live jobs by their numbers: which one a load may join, and which one starts next. It is Glide's `Jobs` and
//! the queue of its executors, with numbers in place of objects.
#![tactic(auto)]

mod jobs;
#[cfg(test)]
mod tests;
#[cfg(test)]
mod worked;

pub use jobs::{Job, JobTable};
