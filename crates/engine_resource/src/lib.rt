//! A picture that loads share: a bitmap, the key that it was loaded for, and how many loads hold it. It is Glide's
//! `EngineResource`.
#![tactic(auto)]

mod laws;
mod resources;
#[cfg(test)]
mod tests;
#[cfg(test)]
mod worked;

pub use laws::count_is_acquires_less_releases;
pub use resources::Resource;
