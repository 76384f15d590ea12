// The views of a script: their states, and the moves that lines of the script make of them.
#![tactic(auto)]

mod tracker;
mod turns;
mod views;

pub use tracker::{Tracker, ViewFault};
pub use views::{Act, Ask, Order, ViewState};

#[cfg(test)]
mod tests;
#[cfg(test)]
mod worked;
