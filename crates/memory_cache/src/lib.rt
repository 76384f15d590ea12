//! The memory cache: numbers with their sizes, the most recent first, within a limit on bytes and one on items. It is
//! Glide's `LruResourceCache`, with numbers in place of resources.
#![tactic(auto)]

mod caches;
mod laws;
#[cfg(test)]
mod tests;
#[cfg(test)]
mod worked;

pub use caches::Cache;
pub use laws::eldest_goes_first;
