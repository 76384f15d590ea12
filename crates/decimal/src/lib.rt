//! Decimal digits as numbers.
#![tactic(auto)]

mod digits;

pub use digits::{Leading, leading_digits, value_of};
