//! The engine as one of its callers sees it: the calls, what a caller has of the engine, and what each call does.
#![tactic(auto)]

mod alone;
mod answers;
mod calls;
mod laws;
mod replied;
mod tokens;

pub use alone::Alone;
pub use answers::{Full, Next, Outcome};
pub use calls::EngineCalls;
pub use laws::{
    calls_add_entries, calls_are_answered, calls_leave_the_rest, calls_tell_what_they_add,
    holds_show_one_picture,
};
pub use tokens::{Hold, JobPass};
