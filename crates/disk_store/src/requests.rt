// The seats that want write locks.
ghost use Rattle.std.specs.Prelude.{◌≡◌, ◌<◌, ◌≤◌, ◌++◌, ◌==◌, [], ◌∷◌, length, take, drop, IfOk, Some, None, find, position, vec_capacity, ◌+◌};
ghost use Rattle.std.specs.List.{position_or_len};
ghost use Rattle.std.specs.Option.{option_map};
ghost use Rattle.std.specs.Str.{bytes_eq};
ghost use Rattle.store_world.specs.World.{request_of, without_seat, has_lock};
ghost use Rattle.store_world.specs.Steps.{new_request, granted_if, begun_with, with_edit};
ghost use Rattle.disk_store.specs.Requests.{change, begun_edit_if, written_to};
ghost use Rattle.disk_store.specs.Slots.{is_of};

use faults::NoMemory;
use journal_lines::Key;
use snapshots::{SnapshotUpdate, update_snapshot};
use std::alloc::Global;
use std::marker::Model;
use std::snapshot::Snapshot;
use store_world::Chunk;

/// How many seats a store serves. They are numbered from 0.
pub const SEATS: usize = 16;

// A seat, and the key whose lock it wants.
#[derive(Clone, Copy)]
struct Slot {
    seat: u32,
    key: Key,
}

/// Stands for requests. Its own value has none.
#[derive(Drop)]
pub struct NoRequests {}

impl Model for NoRequests {
    ghost use Rattle.std.specs.Prelude.{[]};
    ghost use Rattle.std.specs.Coded.{codes};
    ghost use Rattle.store_world.specs.World.{Requests};

    ghost Value = { Requests };

    ghost coded = { Prim.hlevel codes };

    ghost view = { λ s. [] };
}

// A seat goes last into the queue of a key.
#[derive(Drop)]
struct Wanted {
    seat: u32,
    key: Key,
}

struct SeatWants;

impl SnapshotUpdate<Wanted, NoRequests> for SeatWants {
    ghost use Rattle.std.specs.Prelude.{◌++◌, [], ◌∷◌};
    ghost use Rattle.store_world.specs.Steps.{new_request};

    ghost updated = { λ requests wanted. requests ++ (wanted.seat, new_request wanted.key) ∷ [] };
}

// A seat was told whether it has the lock that it wants.
#[derive(Drop)]
struct Told {
    seat: u32,
    first: bool,
}

struct SeatIsTold;

impl SnapshotUpdate<Told, NoRequests> for SeatIsTold {
    ghost use Rattle.store_world.specs.Steps.{granted_if};
    ghost use Rattle.disk_store.specs.Requests.{change};

    ghost updated = { λ requests told. change told.seat (granted_if told.first) requests };
}

// A seat made its Begin, and has an edit or none.
#[derive(Drop)]
struct Begun {
    seat: u32,
    edit: bool,
}

struct SeatBegins;

impl SnapshotUpdate<Begun, NoRequests> for SeatBegins {
    ghost use Rattle.disk_store.specs.Requests.{change, begun_edit_if};

    ghost updated = { λ requests begun. change begun.seat (begun_edit_if begun.edit) requests };
}

// A seat wrote to its edit, or the write failed and closed it.
#[derive(Drop)]
struct Written {
    seat: u32,
    bytes: Snapshot<Chunk>,
    failed: bool,
}

struct SeatWrites;

impl SnapshotUpdate<Written, NoRequests> for SeatWrites {
    ghost use Rattle.disk_store.specs.Requests.{change, written_to};

    ghost updated = { λ requests written. change written.seat (written_to written.bytes.value written.failed) requests };
}

// A seat has no edit any more.
struct SeatEnds;

impl SnapshotUpdate<u32, NoRequests> for SeatEnds {
    ghost use Rattle.std.specs.Prelude.{None};
    ghost use Rattle.store_world.specs.Steps.{with_edit};
    ghost use Rattle.disk_store.specs.Requests.{change};

    ghost updated = { λ requests seat. change seat (with_edit None) requests };
}

// A seat wants no lock any more.
struct SeatLeaves;

impl SnapshotUpdate<u32, NoRequests> for SeatLeaves {
    ghost use Rattle.store_world.specs.World.{without_seat};

    ghost updated = { λ requests seat. without_seat seat requests };
}

/// The seats that want write locks, in the order of asking, each with its key. After `new` it takes no memory.
///
/// What else a request has stands there for contracts alone, since no reply tells it.
#[derive(Drop)]
pub struct RequestTable {
    slots: Vec<Slot>,
    requests: Snapshot<NoRequests>,
}

impl Model for RequestTable {
    ghost use Rattle.std.specs.Coded.{codes};
    ghost use Rattle.store_world.specs.World.{Requests};
    ghost use Rattle.disk_store.specs.Slots.{KeepsSlots};

    ghost Value = { Requests };

    ghost coded = { Prim.hlevel codes };

    ghost view = { λ s. s.requests.value };

    ghost invariant = { KeepsSlots };
}

// The key in the slot of a seat.
fn key_in(slots: &[Slot], who: u32) -> Option<Key>
    ensures { result ≡ option_map (λ slot. slot.key) (find (λ slot. slot.seat == who) slots.now) }
{
    for slot in slots {
        if slot.seat == who {
            return Some(slot.key);
        }
    }
    None
}

// Whether the first slot of a key is that of the seat.
fn is_first(slots: &[Slot], key: &Key, who: u32) -> bool
    ensures { result ≡ is_of who (find (λ slot. bytes_eq key.now slot.key) slots.now) }
{
    for slot in slots {
        if key.bytes() == slot.key.bytes() {
            return slot.seat == who;
        }
    }
    false
}

// The place of a seat's slot.
fn place_of(slots: &[Slot], who: u32) -> Option<usize>
    ensures { result ≡ position (λ slot. slot.seat == who) slots.now }
{
    slots.iter().position(|slot| slot.seat == who)
}

// Takes the slot of a seat out, where it has one.
fn remove_slot(slots: &mut Vec<Slot>, who: u32)
    ensures items { let n = position_or_len (λ slot. slot.seat == who) slots.old.items in
        slots.new.items ≡ take n slots.old.items ++ drop (n + 1) slots.old.items }
    ensures capacity { vec_capacity slots.new ≡ vec_capacity slots.old }
{
    if let Some(place) = place_of(slots, who) {
        let _ = slots.remove(place);
    }
}

impl RequestTable {
    /// No seat wants a lock.
    pub fn new(alloc: Global) -> Result<RequestTable, NoMemory>
        ensures { IfOk result (λ table. table ≡ []) }
    {
        Ok(RequestTable {
            slots: Vec::with_capacity(alloc, SEATS)?,
            requests: Snapshot::of(&NoRequests {}),
        })
    }

    /// The key whose lock a seat wants.
    pub fn key_of(&self, who: u32) -> Option<Key>
        ensures { result ≡ option_map (λ request. request.key) (request_of who self.now) }
    {
        key_in(&self.slots, who)
    }

    /// Whether a seat has the lock that it wants.
    pub fn has_lock(&self, who: u32) -> bool
        ensures { result ≡ has_lock who self.now }
    {
        match self.key_of(who) {
            Some(key) => is_first(&self.slots, &key, who),
            None => false,
        }
    }

    /// A seat goes last into the queue of a key.
    pub fn add(&mut self, who: u32, key: &Key)
        requires { length self.old < 16 }
        ensures { self.new ≡ self.old ++ (who, new_request key.now) ∷ [] }
    {
        let _ = self.slots.push(Slot {
            seat: who,
            key: *key,
        });
        update_snapshot::<_, _, SeatWants>(
            &mut self.requests,
            &Wanted {
                seat: who,
                key: *key,
            },
        );
    }

    /// A seat was told whether it has the lock that it wants.
    pub fn tell(&mut self, who: u32, first: bool)
        ensures { self.new ≡ change who (granted_if first) self.old }
    {
        update_snapshot::<_, _, SeatIsTold>(&mut self.requests, &Told { seat: who, first });
    }

    /// A seat made its Begin, and has an edit or none.
    pub fn begin(&mut self, who: u32, edit: bool)
        ensures { self.new ≡ change who (begun_edit_if edit) self.old }
    {
        update_snapshot::<_, _, SeatBegins>(&mut self.requests, &Begun { seat: who, edit });
    }

    /// A seat wrote to its edit, or the write failed and closed it.
    pub fn write(&mut self, who: u32, bytes: Snapshot<Chunk>, failed: bool)
        ensures { self.new ≡ change who (written_to bytes.value failed) self.old }
    {
        let written = Written {
            seat: who,
            bytes,
            failed,
        };
        update_snapshot::<_, _, SeatWrites>(&mut self.requests, &written);
    }

    /// A seat has no edit any more.
    pub fn end(&mut self, who: u32)
        ensures { self.new ≡ change who (with_edit None) self.old }
    {
        update_snapshot::<_, _, SeatEnds>(&mut self.requests, &who);
    }

    /// A seat wants no lock any more.
    pub fn remove(&mut self, who: u32)
        ensures { self.new ≡ without_seat who self.old }
    {
        remove_slot(&mut self.slots, who);
        update_snapshot::<_, _, SeatLeaves>(&mut self.requests, &who);
    }
}
