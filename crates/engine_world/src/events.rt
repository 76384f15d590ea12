// The events of the engine, and what its history keeps of them.
use bitmap_kind::{Bitmap, Config};
use cache_key::{KeyRoom, LoadSpec};
use load_cause::Cause;
use std::collections::LinkedList;

/// An event of the engine, made by one of its seats. docs/ENGINE.md has the table of what each asks, does and answers.
///
/// A load is named by how many loads its owner made before it that were not refused as `Full`, and a job by how many jobs
/// were started before it. These are the first number of `Collect`, `Look`, `Read` and `Release`, and of the others.
#[derive(Drop)]
pub enum Event {
    /// A picture is wanted.
    Load(LoadSpec),
    /// What has a load come to?
    Collect(u64),
    /// What size has its picture, and how is it stored?
    Look(u64),
    /// A piece of its stored bytes, from this place on.
    Read(u64, usize),
    /// The load is over.
    Release(u64),
    /// A job to run, shown in this room.
    NextJob(KeyRoom),
    /// A bitmap for a job: its width and height in pixels, and its config.
    Take(u64, u32, u32, Config),
    /// A job is done with a bitmap, and goes on.
    GiveBack(u64, Bitmap),
    /// The picture that a job was run for.
    Finish(u64, Bitmap),
    /// There is no picture, for this cause.
    Fail(u64, Cause),
    /// A job that was told that it is cancelled ends.
    Quit(u64),
    /// Is a job cancelled?
    IsCancelled(u64),
    /// Memory is wanted elsewhere, at one of Android's levels (`onTrimMemory`).
    Trim(u32),
    /// No more jobs are to be run.
    Close,
    /// How often, and how many.
    Totals,
}

/// A picture that is held: its sides in pixels, how it is stored, and how many bytes that takes.
#[derive(Clone, Copy, Debug, PartialEq, Eq)]
pub struct Shape {
    pub width: u32,
    pub height: u32,
    pub config: Config,
    pub length: usize,
}

/// How many loads were answered from where, how many takes by a used bitmap and by a new one, and how many bitmaps are
/// where by now.
#[derive(Clone, Copy, Debug, PartialEq, Eq)]
pub struct Totals {
    /// Loads that were not `Full`: each is one of the next four.
    pub loads: u64,
    pub active: u64,
    pub memory: u64,
    pub joined: u64,
    pub started: u64,
    /// Takes that gave a bitmap: each is one of the next two.
    pub takes: u64,
    pub reused: u64,
    /// Bitmaps that were made: each is in one of the places of the last five.
    pub made: u64,
    pub decoding: u64,
    pub held: u64,
    pub cached: u64,
    pub pooled: u64,
    pub recycled: u64,
}

/// A bitmap that was lent to a job: its number, its allocation in bytes, and the sides and config that it was taken with.
#[derive(Clone, Copy, Debug, PartialEq, Eq)]
pub struct Lent {
    pub number: u64,
    pub allocation: u64,
    pub width: u32,
    pub height: u32,
    pub config: Config,
}

/// What a history keeps of a reply: all of it but the bytes of a bitmap that was taken, and the rooms. It is there for
/// contracts.
#[derive(Drop)]
pub enum NotedReply {
    Full,
    Ready,
    Joined(u64),
    Started(u64),
    NotYet(u64),
    Failed(Cause),
    Shape(Shape),
    Piece(LinkedList<u8>),
    Closed,
    Idle,
    /// The job's number, and what the room shows.
    Job(u64, LoadSpec),
    Taken(Lent),
    NoMemory,
    Discarded,
    Cancelled(bool),
    Totals(Totals),
    Done,
}

/// What a history keeps of a step besides its seat: the event, and what is kept of the reply. It is there for contracts.
#[derive(Drop)]
pub struct Note {
    pub event: Event,
    pub reply: NotedReply,
}
