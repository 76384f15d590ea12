// A store with a disk cache: what each of its events does.
ghost use Rattle.std.specs.Prelude.{◌≡◌, [], false, replicate, None, IfOk};
ghost use Rattle.store_world.specs.declared.events.StoreEvent.TheVariants as events;
ghost use Rattle.store_world.specs.Steps.{Transition, fetched, done, is_too_large};
ghost use Rattle.disk_store.specs.StoreView.{MayStep};

use crate::disk;
use crate::edits::EditTable;
use crate::history::History;
use crate::requests::RequestTable;
use disk_lru::{DiskFault, DiskLru};
use faults::NoMemory;
use journal_lines::Key;
use outside::{Files, Told};
use std::alloc::Global;
use std::marker::Model;
use std::snapshot::Snapshot;
use store_world::{
    Chunk, StoreEvent, StoreReply, each_event_keeps_numbers, each_event_keeps_settings,
    holders_may_call, requests_are_few,
};

/// A disk cache with the seats that want its locks, and their edits.
#[derive(Drop)]
pub struct OpenStore<F: Files> {
    alloc: Global,
    disk: DiskLru<F>,
    maximum: u64,
    requests: RequestTable,
    edits: EditTable,
    told: Told,
}

impl<F: Files> Model for OpenStore<F> {
    ghost use Rattle.std.specs.Prelude.{false};
    ghost use Rattle.std.specs.Coded.{codes};
    ghost use Rattle.std.specs.FinMap as map;
    ghost use Rattle.disk_lru.specs.State.{folder_code};
    ghost use Rattle.store_world.specs.World.{World};
    ghost use Rattle.disk_store.specs.OpenView.{IsOpenStore};

    ghost Value = { World };

    ghost coded = { Prim.hlevel (codes, folder_code, map.code) };

    ghost view = { λ s. record {
      off = false;
      disk = s.disk;
      content = s.told;
      requests = s.requests;
    } };

    ghost invariant = { λ s. IsOpenStore s.disk s.requests s.edits s.maximum };
}

// What a read is answered.
fn fetched(found: Result<Option<Chunk>, DiskFault>) -> StoreReply
    ensures { result ≡ fetched found }
{
    match found {
        Ok(found) => StoreReply::Bytes(found),
        Err(fault) => StoreReply::Fault(fault),
    }
}

// What a call of the disk cache is answered.
fn done(ended: Result<(), DiskFault>) -> StoreReply
    ensures { result ≡ done ended }
{
    match ended {
        Ok(()) => StoreReply::Done,
        Err(fault) => StoreReply::Fault(fault),
    }
}

// Whether an entry is longer than all entries may be together, or its payload longer than a length of 32 bits tells.
fn is_too_large(maximum: u64, length: u64, payload: u64) -> bool
    ensures { result ≡ is_too_large maximum length payload }
{
    maximum < length || 4_294_967_295 < payload
}

/// The room that an open store takes besides its disk cache.
#[derive(Drop)]
pub struct Room {
    requests: RequestTable,
    edits: EditTable,
}

impl Room {
    /// For all seats.
    pub fn new(alloc: Global) -> Result<Room, NoMemory>
        ensures { IfOk result (λ room. room ≡ record { requests = []; edits = replicate 16 None }) }
    {
        Ok(Room {
            requests: RequestTable::new(alloc)?,
            edits: EditTable::new(alloc)?,
        })
    }
}

impl<F: Files> OpenStore<F> {
    /// A store of a disk cache in which no edit is open. It speaks for the content that is told.
    pub fn new(
        alloc: Global,
        disk: DiskLru<F>,
        maximum: u64,
        room: Room,
        told: Told,
    ) -> OpenStore<F>
        requires maximum { disk.cache.maximum ≡ maximum }
        requires room { room ≡ record { requests = []; edits = replicate 16 None } }
        ensures { result ≡ record { off = false; disk = disk; content = told; requests = [] } }
    {
        let Room { requests, edits } = room;
        OpenStore {
            alloc,
            disk,
            maximum,
            requests,
            edits,
            told,
        }
    }

    /// Reads the entry of a key.
    pub fn fetch(&mut self, history: &History, who: u32, key: &Key) -> StoreReply
        requires { MayStep self.old history.now.value who (events.Fetch key.now) }
        ensures { Transition self.old who (events.Fetch key.now) result self.new }
    {
        let found = disk::get(self.alloc, &mut self.disk, key);
        fetched(found)
    }

    /// A seat wants the write lock of a key, for an entry of this length in bytes with a payload of this one.
    pub fn want(
        &mut self,
        history: &History,
        who: u32,
        key: &Key,
        length: u64,
        payload: u64,
    ) -> StoreReply
        requires { MayStep self.old history.now.value who (events.Want key.now length payload) }
        ensures { Transition self.old who (events.Want key.now length payload) result self.new }
    {
        requests_are_few();
        if is_too_large(self.maximum, length, payload) {
            return StoreReply::TooLarge;
        }
        self.requests.add(who, key);
        StoreReply::Done
    }

    /// Whether a seat has the lock that it wants.
    pub fn granted(&mut self, history: &History, who: u32) -> StoreReply
        requires { MayStep self.old history.now.value who events.Granted }
        ensures { Transition self.old who events.Granted result self.new }
    {
        let first = self.requests.has_lock(who);
        self.requests.tell(who, first);
        StoreReply::Front(first)
    }

    /// Begins an edit of the key whose lock a seat has, where the key has no entry.
    pub fn begin(&mut self, history: &History, who: u32) -> StoreReply
        requires { MayStep self.old history.now.value who events.Begin }
        ensures { Transition self.old who events.Begin result self.new }
    {
        holders_may_call();
        each_event_keeps_numbers();
        each_event_keeps_settings();
        let Some(key) = self.requests.key_of(who) else {
            unreachable!()
        };
        if self.disk.has(&key) {
            self.requests.begin(who, false);
            return StoreReply::Already;
        }
        match disk::evict_and_begin(self.alloc, &mut self.disk, &key) {
            Ok(edit) => {
                self.edits.put(who, edit);
                self.requests.begin(who, true);
                StoreReply::Done
            }
            Err(fault) => {
                self.requests.begin(who, false);
                StoreReply::Fault(fault)
            }
        }
    }

    /// Adds bytes to the edit of a seat.
    pub fn write(&mut self, history: &History, who: u32, chunk: Chunk) -> StoreReply
        requires { MayStep self.old history.now.value who (events.Write chunk) }
        ensures { Transition self.old who (events.Write chunk) result self.new }
    {
        holders_may_call();
        each_event_keeps_numbers();
        each_event_keeps_settings();
        let shown = Snapshot::of(&chunk);
        let bytes = chunk.into_bytes();
        let Some(mut edit) = self.edits.take(who) else {
            unreachable!()
        };
        let result = self.disk.write(self.alloc, &mut edit, &bytes);
        self.edits.put(who, edit);
        self.requests.write(who, shown, result.is_err());
        done(result)
    }

    /// What was written to the edit of a seat is the entry of its key.
    pub fn commit(&mut self, history: &History, who: u32) -> StoreReply
        requires { MayStep self.old history.now.value who events.Commit }
        ensures { Transition self.old who events.Commit result self.new }
    {
        holders_may_call();
        each_event_keeps_numbers();
        each_event_keeps_settings();
        let Some(edit) = self.edits.take(who) else {
            unreachable!()
        };
        let result = disk::commit_and_evict(self.alloc, &mut self.disk, edit);
        self.requests.end(who);
        done(result)
    }

    /// The edit of a seat is given up.
    pub fn give_up(&mut self, history: &History, who: u32) -> StoreReply
        requires { MayStep self.old history.now.value who events.GiveUp }
        ensures { Transition self.old who events.GiveUp result self.new }
    {
        holders_may_call();
        each_event_keeps_numbers();
        each_event_keeps_settings();
        let Some(edit) = self.edits.take(who) else {
            unreachable!()
        };
        let result = self.disk.abort(self.alloc, edit);
        self.requests.end(who);
        done(result)
    }

    /// A seat gives its lock back, or does not want it any more.
    pub fn leave(&mut self, history: &History, who: u32) -> StoreReply
        requires { MayStep self.old history.now.value who events.Done }
        ensures { Transition self.old who events.Done result self.new }
    {
        self.requests.remove(who);
        StoreReply::Done
    }

    /// Answers an event of a seat.
    pub fn answer(&mut self, history: &History, who: u32, event: StoreEvent) -> StoreReply
        requires { MayStep self.old history.now.value who event }
        ensures { Transition self.old who event result self.new }
    {
        match event {
            StoreEvent::Fetch(key) => self.fetch(history, who, &key),
            StoreEvent::Want(key, length, payload) => {
                self.want(history, who, &key, length, payload)
            }
            StoreEvent::Granted => self.granted(history, who),
            StoreEvent::Begin => self.begin(history, who),
            StoreEvent::Write(chunk) => self.write(history, who, chunk),
            StoreEvent::Commit => self.commit(history, who),
            StoreEvent::GiveUp => self.give_up(history, who),
            StoreEvent::Done => self.leave(history, who),
        }
    }

    /// It is not off.
    pub fn is_off(&self) -> bool
        ensures { result ≡ self.now.off }
    {
        let _disk = &self.disk;
        false
    }

    /// Hands the files back. Edits that are open stay as a stop would leave them.
    pub fn into_files(self) -> F
        ensures { (F.history result ≡ self.disk.cache.history) × (F.faults result ≡ self.disk.cache.faults) }
    {
        let OpenStore { disk, .. } = self;
        disk.into_files()
    }
}
