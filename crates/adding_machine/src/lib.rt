// A machine that adds, and what two threads that add at a turn are answered.
#![tactic(auto)]

mod machine;
mod two_threads;

pub use machine::{AddingMachine, Addition};
pub use two_threads::add_two_and_three;

#[cfg(test)]
mod tests;
