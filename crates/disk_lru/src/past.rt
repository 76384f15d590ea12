// What a cache has done since it was started, for contracts alone.
ghost use Rattle.std.specs.Prelude.{◌≡◌, [], ◌∷◌, false};
ghost use Rattle.disk_lru.specs.PastSteps.{steps_of};
ghost use Rattle.disk_lru.specs.Past.{steps_at, after_call, at_start};

use crate::cache::OpenCache;
use journal_lines::Key;
use outside::Files;
use snapshots::{SnapshotUpdate, update_snapshot};
use std::marker::Model;
use std::snapshot::Snapshot;

/// Stands for what a cache has done since it was started. Its own value has nothing.
#[derive(Drop)]
pub struct Past {}

impl Model for Past {
    ghost use Rattle.std.specs.Prelude.{[], None, false};
    ghost use Rattle.std.specs.Coded.{codes};
    ghost use Rattle.disk_lru.specs.State.{folder_code};
    ghost use Rattle.disk_lru.specs.Past.{PastValue};

    ghost Value = { PastValue };

    ghost coded = { Prim.hlevel (codes, folder_code) };

    ghost view = { λ _. record { entry = None; calls = []; handed = []; failed = false } };
}

// The start of a cache, with the files as they were before it.
struct StartMade;

impl<F: Files> SnapshotUpdate<Snapshot<F>, Past> for StartMade {
    ghost use Rattle.disk_lru.specs.Past.{at_start};

    ghost updated = { λ past before. at_start (F.history before.value) };
}

/// The past of a cache that was started just now, from the files as they were when `start` was called.
pub fn started<F: Files>(before: &Snapshot<F>) -> Snapshot<Past>
    ensures { result.value ≡ at_start (F.history before.now.value) }
{
    let mut past = Snapshot::of(&Past {});
    update_snapshot::<_, _, StartMade>(&mut past, before);
    past
}

/// What a call was to do to the list of the cache.
#[derive(Clone, Copy)]
pub enum ListStep {
    Nothing,
    Begin(Key),
    Commit(Key),
    Abort(Key),
    Use(Key),
    Drop(Key),
}

// A call that was made.
#[derive(Drop)]
struct Call<F: Files> {
    before: Snapshot<OpenCache<F>>,
    step: ListStep,
    failed: bool,
}

struct CallMade;

impl<F: Files> SnapshotUpdate<Call<F>, Past> for CallMade {
    ghost use Rattle.disk_lru.specs.PastSteps.{steps_of};
    ghost use Rattle.disk_lru.specs.Past.{steps_at, after_call};

    ghost updated = { λ past call. after_call (steps_at call.before.value.history (steps_of call.step call.before.value)) call.failed past };
}

/// Adds a call to the past, by the cache as it was before.
pub fn note<F: Files>(
    past: &mut Snapshot<Past>,
    before: Snapshot<OpenCache<F>>,
    step: ListStep,
    failed: bool,
)
    ensures { past.new.value ≡ after_call (steps_at before.value.history (steps_of step before.value))
        failed past.old.value }
{
    update_snapshot::<_, _, CallMade>(
        past,
        &Call {
            before,
            step,
            failed,
        },
    );
}
