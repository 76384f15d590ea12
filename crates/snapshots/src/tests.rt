// A snapshot that takes two values.
ghost use Rattle.std.specs.Prelude.{◌≡◌, [], ◌∷◌};

use crate::updates::{Append, update_snapshot};
use std::alloc::Global;
use std::collections::LinkedList;
use std::snapshot::Snapshot;

fn two_values(alloc: Global) -> Snapshot<LinkedList<u64>>
    ensures { result.value ≡ 3 ∷ 5 ∷ [] }
{
    let mut shot = Snapshot::of(&LinkedList::new(alloc));
    update_snapshot::<_, _, Append>(&mut shot, &3);
    update_snapshot::<_, _, Append>(&mut shot, &5);
    shot
}

#[test]
fn a_snapshot_takes_two_values(rt: HostRuntime) {
    let _ = two_values(rt.alloc());
}
