// Downsampling: the sample of a size, and block means row by row.
#![tactic(auto)]

mod box_rows;
mod narrow;
mod picture;
mod sample;
mod sums;
mod wide;

pub use box_rows::{BoxRows, sampled_side};
pub use picture::{one_keeps_the_picture, sampled_picture};
pub use sample::{at_least_covers, at_most_is_covered, each_sample_is_a_power, sample_for};

#[cfg(test)]
mod tests;
