//! The loads: each by its owner and its number among its owner's, with what it has come to.
#![tactic(auto)]

mod laws;
mod loads;
#[cfg(test)]
mod worked;

pub use laws::{counts_follow_an_end, counts_follow_one_load, names_are_ordered};
pub use loads::{LoadState, LoadTable, Settle};
