//! The disk store as one of its callers sees it: a read of an entry, and the storing of one.
#![tactic(auto)]

mod alone;
mod answers;
mod calls;
mod fetching;
mod replied;
mod shared;
mod steps;
mod storing;

pub use alone::AloneStore;
pub use answers::Stored;
pub use calls::StoreCalls;
pub use shared::SharedStore;
