// A turn that threads take one after another: one machine, one legal history, and a seat for each caller.
#![tactic(auto)]

mod rule;
mod seat;
mod seats;
mod steps;
mod turn;
mod view;

pub use seat::Seat;
pub use turn::{StartFault, Turn};

#[cfg(test)]
mod tests;
