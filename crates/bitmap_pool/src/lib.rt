//! The bitmap pool: bitmaps that nothing uses, in groups of one allocation size and one config, kept to be used again. It is
//! Glide's `LruBitmapPool` with `SizeConfigStrategy` and `GroupedLinkedMap`.
#![tactic(auto)]

mod groups;
mod laws;
mod pools;
#[cfg(test)]
mod tests;
#[cfg(test)]
mod worked;

pub use laws::{evictions_end_in_what_fits, numbers_stand_for_bitmaps, pools_stay_within_limits};
pub use pools::Pool;
