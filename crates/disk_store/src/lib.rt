//! The disk store: entries by key on a disk cache that several seats share, with one writer a key.
#![tactic(auto)]

mod disk;
mod edits;
mod envelopes;
mod history;
mod open;
mod requests;
mod run_truth;
mod state;
mod stores;

pub use envelopes::{envelope, payload_of};
pub use run_truth::truth;
pub use store_world::{Chunk, Note, StoreEvent, StoreReply};
pub use stores::{Store, StoreStart};
