//! What the events of the store mean: its state as plain data, one step for each event, and what always holds of it. There is
//! no code in it but its laws.
#![tactic(auto)]

mod events;
mod laws;
#[cfg(test)]
mod worked;

pub use events::{Chunk, Note, StoreEvent, StoreReply};
pub use laws::{
    commits_store, each_event_keeps_entries, each_event_keeps_numbers, each_event_keeps_settings,
    each_event_keeps_sound, each_event_keeps_what_is_off, each_history_is_sound,
    each_history_keeps_entries, each_history_keeps_what_is_off, each_history_offers_what_is_right,
    each_history_offers_what_was_given, each_history_stays_sound, each_moment_offers_what_is_right,
    each_moment_offers_what_was_given, entries_are_right, envelopes_are_read_as_written,
    evictions_go_on, fetches_are_right, folders_stay_right, holders_may_call,
    locks_have_one_holder, openings_are_sound, requests_are_few, rightness_is_decided, room_keeps,
    seats_learn_by_their_own_entries,
};
