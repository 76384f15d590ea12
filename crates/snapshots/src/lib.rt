//! Values that contracts alone see, and that follow from other values.
#![tactic(auto)]

mod updates;

pub use updates::{Append, SnapshotUpdate, update_snapshot};

#[cfg(test)]
mod tests;
