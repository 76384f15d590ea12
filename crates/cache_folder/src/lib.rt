//! What a folder offers as a disk cache, and at each moment at which a stop may leave it; and the steps on its files, over any
//! files, each call of which may fail.
#![tactic(auto)]

mod changes;
mod journal_reader;
mod laws;
mod leftovers;
mod names;
pub mod reading;
pub mod rebuild;
pub mod start;
pub mod steps;
mod table;
#[cfg(test)]
mod worked;

pub use laws::{
    begun_edits_are_empty, calls_in_turn, calls_keep_others, line_is_written_at_once,
    start_offers_the_same,
};
pub use table::CacheTable;
