// The history of a store's steps, which contracts alone see.
ghost use Rattle.std.specs.Prelude.{◌≡◌, ◌++◌, [], ◌∷◌};
ghost use Rattle.state_machine.specs.Histories.{entry};
ghost use Rattle.store_world.specs.StoreMachine.{noted};

use snapshots::{SnapshotUpdate, update_snapshot};
use state_machine::Entry;
use std::collections::LinkedList;
use std::snapshot::Snapshot;
use store_world::{Note, StoreEvent, StoreReply};

/// The entries of the steps so far, the oldest first. They take no bytes.
pub type History = Snapshot<LinkedList<Entry<Note>>>;

/// A step that was made: the seat that made it, its event and its reply.
#[derive(Drop)]
pub struct Made {
    pub by: u32,
    pub event: Snapshot<StoreEvent>,
    pub reply: Snapshot<StoreReply>,
}

/// The entry of a step is added.
pub struct Added;

impl SnapshotUpdate<Made, LinkedList<Entry<Note>>> for Added {
    ghost use Rattle.std.specs.Prelude.{◌++◌, [], ◌∷◌};
    ghost use Rattle.disk_store.specs.StoreView.{entry_of};

    ghost updated = { λ past made. past ++ entry_of made ∷ [] };
}

/// Adds the entry of a step.
pub fn add_entry(history: &mut History, who: u32, event: Snapshot<StoreEvent>, reply: &StoreReply)
    ensures { history.new.value ≡ history.old.value ++ entry who (noted event.value reply.now) ∷ [] }
{
    let made = Made {
        by: who,
        event,
        reply: Snapshot::of(reply),
    };
    update_snapshot::<_, _, Added>(history, &made);
}
