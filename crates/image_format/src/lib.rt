// From a text to its picture under a key: which kind it is of, how it is decoded, and why it is refused.
// And the raw form, in which a decoded picture is kept.
#![tactic(auto)]

mod decoding;
mod kinds;
mod plan;
mod raster;
mod raw;
mod refusal;
mod rows;

pub use decoding::{DecodeFault, decode_into};
pub use plan::{Plan, plan_of};
pub use raw::{raw_form_is_of_one_picture, raw_head, read_raw, write_raw};
pub use refusal::Refusal;

#[cfg(test)]
mod tests;
