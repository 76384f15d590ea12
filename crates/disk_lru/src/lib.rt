//! A disk cache with a journal, after DiskLruCache: entries of a key and bytes on any files, in order of use, under a maximum.
//! Whatever call fails, and wherever the process stops, the files offer only entries that were committed whole.
#![tactic(auto)]

mod cache;
mod disk;
mod edit;
mod laws;
mod past;
mod refusals;
mod start;

pub use disk::DiskLru;
pub use edit::Edit;
pub use laws::entries_stay;
pub use refusals::{BeginRefused, DiskFault, RemoveRefused, StartRefused};
