//! Reads the rows of the grey and colour pictures of Netpbm: `P2`, `P3`, `P5` and `P6`.
#![tactic(auto)]

mod fault;
mod grammar;
mod header;
mod number;
mod pixel;
mod plain;
mod raw;
mod rows;

pub use fault::PpmFault;
pub use grammar::{every_text_has_its_header, every_text_has_its_outcome};
pub use header::{Head, read_head};
pub use rows::Rows;

#[cfg(test)]
mod tests;
