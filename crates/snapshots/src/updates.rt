// Values that contracts alone see, and that follow from other values.
ghost use Rattle.std.specs.Prelude.{◌≡◌};

use std::collections::LinkedList;
use std::snapshot::Snapshot;

/// A way to change what a snapshot shows, by a value of type `A`.
pub trait SnapshotUpdate<A, T> {
    // what is shown next, of what is shown now and of the value
    ghost updated: { T → A → T };
}

/// Lets a snapshot show the next value, which `U` makes of the present one and of `_from`.
///
/// It costs nothing when it runs, since a snapshot has no bytes.
pub fn update_snapshot<A, T, U: SnapshotUpdate<A, T>>(_shot: &mut Snapshot<T>, _from: &A)
    ensures { _shot.new.value ≡ U.updated _shot.old.value _from.now }
{}

/// Adds a value at the end of a list.
pub struct Append;

impl<T> SnapshotUpdate<T, LinkedList<T>> for Append {
    ghost use Rattle.std.specs.Prelude.{◌++◌, [], ◌∷◌};

    ghost updated = { λ past x. past ++ x ∷ [] };
}
