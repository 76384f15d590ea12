//! Reads the rows of Windows bitmaps: uncompressed, with a palette, with colours of 16, 24 or 32
//! bits, or with colours by masks.
#![tactic(auto)]

mod bytes;
mod direct;
mod fault;
mod format;
mod header;
mod indexed;
mod masked;
mod masks;
mod pixel;
mod rows;
mod rules;

pub use fault::BmpFault;
pub use header::{Head, read_head};
pub use rows::Rows;
pub use rules::{fault_is_the_first_broken_rule, pixels_are_those_of_the_table};

#[cfg(test)]
mod tests;
