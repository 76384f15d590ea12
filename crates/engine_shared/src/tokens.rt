// What a caller has of the engine: its loads, and the job that it runs. Each must be spent, since no value of these types can
// be let go.
ghost use Rattle.std.specs.Prelude.{◌≡◌, ◌<◌, [], false};
ghost use Rattle.engine_core.specs.Noted.{lent_by};
ghost use Rattle.engine_shared.specs.Answers.{with_lent, less_lent, with_told};

use bitmap_kind::Bitmap;
use cache_key::{EngineKey, KeyRoom};
use engine_world::Lent;
use snapshots::{SnapshotUpdate, update_snapshot};
use std::marker::Model;
use std::snapshot::Snapshot;

/// A load of its owner's. It is spent by `release`.
pub struct Hold {
    who: u32,
    number: u64,
    key: Snapshot<EngineKey>,
}

impl Model for Hold {
    ghost use Rattle.engine_shared.specs.Tokens.{HoldValue};

    ghost Value = { HoldValue };

    ghost view = { λ s. record { who = s.who; number = s.number; key = s.key.value } };
}

impl Hold {
    // A load that was made.
    pub(crate) fn new(who: u32, number: u64, key: Snapshot<EngineKey>) -> Hold
        ensures { result ≡ record { who = who; number = number; key = key.value } }
    {
        Hold { who, number, key }
    }

    /// How many loads its owner made before it that were not refused as `Full`.
    pub fn number(&self) -> u64
        ensures { result ≡ self.now.number }
    {
        self.number
    }
}

impl Hold {
    // Its number, when the load is over.
    pub(crate) fn spend(self) -> u64
        ensures { result ≡ self.number }
    {
        let Hold {
            who: _,
            number,
            key: _,
        } = self;
        number
    }
}

// Stands for bitmaps that were lent. Its own value has none.
#[derive(Drop)]
struct NoneLent {}

impl Model for NoneLent {
    ghost use Rattle.std.specs.Prelude.{List, []};
    ghost use Rattle.std.specs.Coded.{codes};
    ghost use Rattle.engine_world.specs.declared.events.Lent.{Lent};

    ghost Value = { List Lent };

    ghost coded = { Prim.hlevel codes };

    ghost view = { λ s. [] };
}

// A bitmap more is lent.
struct OneMore;

impl SnapshotUpdate<Lent, NoneLent> for OneMore {
    ghost use Rattle.std.specs.Prelude.{◌++◌, [], ◌∷◌};

    ghost updated = { λ out lent. out ++ lent ∷ [] };
}

// The bitmap of a number was given back.
struct OneLess;

impl SnapshotUpdate<u64, NoneLent> for OneLess {
    ghost use Rattle.engine_world.specs.Moves.{without_lent};

    ghost updated = { λ out number. without_lent number out };
}

// A bitmap as it is when it is taken.
fn lent_by(bitmap: &Bitmap) -> Lent
    ensures { result ≡ lent_by bitmap.now }
{
    Lent {
        number: bitmap.number(),
        allocation: bitmap.allocation(),
        width: bitmap.width(),
        height: bitmap.height(),
        config: bitmap.config(),
    }
}

/// A job that its owner runs. It is spent by `finish`, `fail` or `quit`.
pub struct JobPass {
    number: u64,
    room: KeyRoom,
    takes: u32,
    out: Snapshot<NoneLent>,
    cancelled: bool,
}

impl Model for JobPass {
    ghost use Rattle.engine_world.specs.Knowledge.{OwnJob};

    ghost Value = { OwnJob };

    ghost view = { λ s. record {
      number = s.number;
      spec = s.room;
      takes = s.takes;
      out = s.out.value;
      cancelled = s.cancelled;
    } };
}

impl JobPass {
    // A job that was just given.
    pub(crate) fn new(number: u64, room: KeyRoom) -> JobPass
        ensures { result ≡ record { number = number; spec = room; takes = 0; out = []; cancelled = false } }
    {
        JobPass {
            number,
            room,
            takes: 0,
            out: Snapshot::of(&NoneLent {}),
            cancelled: false,
        }
    }

    /// What the job's starter asked for.
    pub fn room(&self) -> &KeyRoom
        ensures { result.now ≡ self.now.spec }
    {
        &self.room
    }

    // How many jobs were started before it.
    pub(crate) fn number(&self) -> u64
        ensures { result ≡ self.now.number }
    {
        self.number
    }

    // A bitmap more is lent to it.
    pub(crate) fn add_lent(&mut self, bitmap: &Bitmap)
        requires { self.old.takes < 2 }
        ensures { self.new ≡ with_lent bitmap.now self.old }
    {
        self.takes += 1;
        update_snapshot::<_, _, OneMore>(&mut self.out, &lent_by(bitmap));
    }

    // It has given a bitmap back.
    pub(crate) fn drop_lent(&mut self, number: u64)
        ensures { self.new ≡ less_lent number self.old }
    {
        update_snapshot::<_, _, OneLess>(&mut self.out, &number);
    }

    // Its owner was told whether it is cancelled.
    pub(crate) fn tell(&mut self, cancelled: bool)
        ensures { self.new ≡ with_told cancelled self.old }
    {
        self.cancelled = self.cancelled || cancelled;
    }

    // The room, when the job is over.
    pub(crate) fn into_room(self) -> KeyRoom
        ensures { result ≡ self.spec }
    {
        let JobPass {
            number: _,
            room,
            takes: _,
            out: _,
            cancelled: _,
        } = self;
        room
    }
}
