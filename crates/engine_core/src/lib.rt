//! The engine core: the six tables joined to one state, and a step for each event.
#![tactic(auto)]

mod answers;
mod bitmaps;
mod cores;
mod history;
mod live_jobs;
mod loading;
mod opening;
mod releasing;
mod replies;
mod tables;
#[cfg(test)]
mod tests;
mod totals;

pub use cores::Core;
pub use replies::{Limits, Piece, Reply};
