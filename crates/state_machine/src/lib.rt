// A machine that takes events one at a time, and the legal histories of its steps.
#![tactic(auto)]

mod entry;
mod laws;
mod machine;

pub use entry::Entry;
pub use laws::{
    empty_histories_are_legal, legal_histories_begin, legal_histories_end, legal_histories_grow,
    own_entries_append, steps_append,
};
pub use machine::Machine;

#[cfg(test)]
mod tests;
