// Bitmaps: how a pixel is stored, and the calls that change a bitmap's pixels.
#![tactic(auto)]

mod bitmaps;
mod laws;
mod pieces;
#[cfg(test)]
mod tests;

pub use bitmaps::{Bitmap, Config, Rule, Transform};
pub use laws::pixels_are_stored_in_order;
