// What is true of a run.
ghost use Rattle.store_world.specs.Right.{HoldsRightIn, IsTruthOf};

use outside::{Files, Told};
use snapshots::{SnapshotUpdate, update_snapshot};
use std::snapshot::Snapshot;
use store_world::rightness_is_decided;

// Leaves what is told, where it is known what files hold and all that they offer is right in it.
struct WhereRight;

impl<F: Files> SnapshotUpdate<F, Told> for WhereRight {
    ghost use Rattle.store_world.specs.Truth.{truth_of};

    ghost updated = { λ told files. truth_of told (F.history files) };
}

/// The truth of a run, for which a store may be started on the files: the content that is told, where it is known what the files
/// hold and each entry that they offer is right in it, and else nothing. It takes no memory, and no call is made on the files.
pub fn truth<F: Files>(told: Told, files: &F) -> Told
    ensures truth { IsTruthOf told (F.history files.now) result }
    ensures right { HoldsRightIn result (F.history files.now) }
{
    rightness_is_decided();
    let mut shown = Snapshot::of(&told);
    update_snapshot::<_, _, WhereRight>(&mut shown, files);
    Told::shown_by(shown)
}
