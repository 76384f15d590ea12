// What a core is made with, and what it replies.
ghost use Rattle.std.specs.Prelude.{◌≡◌};

use bitmap_kind::Bitmap;
use cache_key::KeyRoom;
use engine_world::{Shape, Totals};
use load_cause::Cause;
use std::marker::Model;

/// The greatest sizes of pool and memory cache in bytes, and for each seat how many loads it may have at a time.
#[derive(Drop)]
pub struct Limits {
    pub(crate) pool: u64,
    pub(crate) memory: u64,
    pub(crate) quotas: Vec<u32>,
}

impl Model for Limits {
    ghost use Rattle.engine_world.specs.World as world;

    ghost Value = { world.Limits };

    ghost view = { λ s. record { pool = s.pool; memory = s.memory; quotas = s.quotas.items } };
}

impl Limits {
    /// One quota for each seat.
    pub fn new(pool: u64, memory: u64, quotas: Vec<u32>) -> Limits
        ensures { result ≡ record { pool = pool; memory = memory; quotas = quotas.items } }
    {
        Limits {
            pool,
            memory,
            quotas,
        }
    }
}

/// The most stored bytes that a reply tells.
pub const PIECE: usize = 4_096;

/// A piece of a picture's stored bytes: the first `count` of these. The others are 0.
#[derive(Clone, Copy, Debug, PartialEq, Eq)]
pub struct Piece {
    pub bytes: [u8; PIECE],
    pub count: usize,
}

/// What the engine replies. docs/ENGINE.md has the table of which event is answered so, and when.
#[derive(Drop)]
pub enum Reply {
    Full,
    Ready,
    Joined(u64),
    Started(u64),
    NotYet(u64),
    Failed(Cause),
    Shape(Shape),
    Piece(Piece),
    Closed(KeyRoom),
    Idle(KeyRoom),
    Job(u64, KeyRoom),
    Taken(Bitmap),
    NoMemory,
    Discarded,
    Cancelled(bool),
    Totals(Totals),
    Done,
}
