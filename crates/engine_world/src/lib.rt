//! What the engine's events mean: its state as plain data, one step for each event, and what always holds of it. There is
//! no code in it but its laws.
#![tactic(auto)]

mod events;
mod laws;
#[cfg(test)]
mod worked;

pub use events::{Event, Lent, Note, NotedReply, Shape, Totals};
pub use laws::{
    each_bitmap_has_one_place, each_event_keeps_holds, each_event_keeps_limits,
    each_event_keeps_opening, each_event_keeps_sound, each_history_is_sound,
    each_history_keeps_holds, each_history_keeps_limits, lookups_find_the_only_one,
    ready_loads_show_their_keys, rooms_suffice, taken_bitmaps_were_free,
};
