//! The engine's active resources: the numbers of those that loads hold, found by their keys. It is Glide's
//! `ActiveResources`, with numbers in place of objects.
#![tactic(auto)]

mod actives;
mod laws;
#[cfg(test)]
mod worked;

pub use actives::Active;
pub use laws::fits_while_others_change;
