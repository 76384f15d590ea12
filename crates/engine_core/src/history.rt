// The history of a core's steps, which contracts alone see.
ghost use Rattle.std.specs.Prelude.{◌≡◌, ◌++◌, [], ◌∷◌};
ghost use Rattle.state_machine.specs.Histories.{entry};
ghost use Rattle.engine_core.specs.CoreView.{note_of};

use crate::replies::Reply;
use engine_world::{Event, Note};
use snapshots::{SnapshotUpdate, update_snapshot};
use state_machine::Entry;
use std::collections::LinkedList;
use std::snapshot::Snapshot;

/// The entries of the steps so far, the oldest first. They take no bytes.
pub type History = Snapshot<LinkedList<Entry<Note>>>;

/// A step that was made: the seat that made it, its event and its reply.
#[derive(Drop)]
pub struct Made {
    pub by: u32,
    pub event: Snapshot<Event>,
    pub reply: Snapshot<Reply>,
}

/// The entry of a step is added.
pub struct Added;

impl SnapshotUpdate<Made, LinkedList<Entry<Note>>> for Added {
    ghost use Rattle.std.specs.Prelude.{◌++◌, [], ◌∷◌};
    ghost use Rattle.engine_core.specs.CoreView.{entry_of};

    ghost updated = { λ past made. past ++ entry_of made ∷ [] };
}

/// Adds the entry of a step.
pub fn add_entry(history: &mut History, who: u32, event: Snapshot<Event>, reply: &Reply)
    ensures { history.new.value ≡ history.old.value ++ entry who (note_of event.value reply.now) ∷ [] }
{
    let made = Made {
        by: who,
        event,
        reply: Snapshot::of(reply),
    };
    update_snapshot::<_, _, Added>(history, &made);
}
