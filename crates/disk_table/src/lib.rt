//! The table of a disk cache: its keys in order of use with the lengths of their values, its open edits, and how many lines
//! its journal has. It is what DiskLruCache keeps in memory.
#![tactic(auto)]

mod edits;
mod order;
mod table;

// A crate can name the table in a contract only if the types of its fields are exported.
#[doc(hidden)]
pub use edits::Edits;
pub use order::Keys;
#[doc(hidden)]
pub use order::UseOrder;
pub use table::{DiskTable, EditRefused};

#[cfg(test)]
mod tests;
#[cfg(test)]
mod worked;
