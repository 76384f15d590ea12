// Two seats that store one entry, each an event at a time.
ghost use Rattle.std.specs.Prelude.{◌≡◌, ◌≢◌, ◌<◌, ◌^◌, ℕ, length, None};
ghost use Rattle.store_world.specs.Knowledge.{knowledge_in};
ghost use Rattle.store_runs.specs.declared.phases.Phase.TheVariants as phases;
ghost use Rattle.store_runs.specs.Phases.{IsAt};

use crate::fixtures::{ENTRY, TEXT};
use crate::phases::Phase;
use cache_key::safe_key;
use disk_store::{Chunk, Store, StoreEvent, StoreReply};
use faults::NoMemory;
use journal_lines::Key;
use outside::{MemoryFiles, Told};
use std::alloc::Global;
use std::marker::Model;
use std::test::Fail;
use store_world::seats_learn_by_their_own_entries;

// The key bytes of the entry.
const KEY_BYTES: &[u8] = b"S\x03\x00\x00\x00red\x01\x00\x00\x001";

// The next event of a seat, and how far it has come by that. One that has ended or is stuck makes none.
fn advance(
    store: &mut Store<MemoryFiles>,
    who: u32,
    key: &Key,
    phase: Phase,
    file: Vec<u8>,
) -> Phase
    requires who { who < 16 }
    requires file { length file.items < 2 ^ 40 }
    requires untold { store.old.opening.content ≡ None }
    requires at { IsAt phase key.now (knowledge_in store.old.history who) }
    ensures untold { store.new.opening.content ≡ None }
    ensures at { IsAt result key.now (knowledge_in store.new.history who) }
    ensures others { (other : ℕ) → other ≢ who
        → knowledge_in store.new.history other ≡ knowledge_in store.old.history other }
{
    seats_learn_by_their_own_entries();
    match phase {
        Phase::Outside => {
            let length = ENTRY.len() as u64;
            let payload = TEXT.len() as u64;
            match store.step(who, StoreEvent::Want(*key, length, payload)) {
                StoreReply::Done => Phase::Wanting,
                _ => Phase::Stuck,
            }
        }
        Phase::Wanting => match store.step(who, StoreEvent::Granted) {
            StoreReply::Front(true) => Phase::Holding,
            StoreReply::Front(false) => Phase::Wanting,
            _ => Phase::Stuck,
        },
        Phase::Holding => match store.step(who, StoreEvent::Begin) {
            StoreReply::Done => Phase::Editing,
            StoreReply::Already => Phase::Leaving,
            _ => Phase::Stuck,
        },
        Phase::Editing => match store.step(who, StoreEvent::Write(Chunk::new(file))) {
            StoreReply::Done => Phase::Written,
            _ => Phase::Stuck,
        },
        Phase::Written => match store.step(who, StoreEvent::Commit) {
            StoreReply::Done => Phase::Leaving,
            _ => Phase::Stuck,
        },
        Phase::Leaving => {
            let _ = store.step(who, StoreEvent::Done);
            Phase::Ended
        }
        Phase::Ended | Phase::Stuck => phase,
    }
}

// A seat that waits for the lock does not want it any more.
fn give_way(store: &mut Store<MemoryFiles>, who: u32, key: &Key)
    requires who { who < 16 }
    requires untold { store.old.opening.content ≡ None }
    requires at { IsAt phases.Wanting key.now (knowledge_in store.old.history who) }
    ensures untold { store.new.opening.content ≡ None }
    ensures at { IsAt phases.Ended key.now (knowledge_in store.new.history who) }
    ensures others { (other : ℕ) → other ≢ who
        → knowledge_in store.new.history other ≡ knowledge_in store.old.history other }
{
    seats_learn_by_their_own_entries();
    let _ = store.step(who, StoreEvent::Done);
}

/// A store on files in memory, and how far two seats have come that store one entry.
#[derive(Drop)]
pub struct Writers {
    store: Store<MemoryFiles>,
    key: Key,
    first: Phase,
    second: Phase,
}

impl Model for Writers {
    ghost use Rattle.store_runs.specs.Writers.{AreAt};
    ghost use Rattle.std.specs.Prelude.{⊤};

    ghost Value = { ⊤ };

    ghost view = { λ s. tt };

    ghost invariant = { λ s. AreAt s.store s.key s.first s.second };
}

impl Writers {
    /// Two seats that have made no event, of a store with no entries.
    pub fn new(alloc: Global) -> Result<Writers, Fail> {
        let files = MemoryFiles::new(Vec::new(alloc));
        match Store::start(alloc, files, 1000, Told::nothing()) {
            Ok(store) => Ok(Writers {
                store,
                key: safe_key(KEY_BYTES),
                first: Phase::Outside,
                second: Phase::Outside,
            }),
            Err(_) => Err(Fail::new("no memory for a start")),
        }
    }

    /// One of the seats makes its next event, and has come so far by that.
    pub fn advance(&mut self, alloc: Global, is_second: bool) -> Result<Phase, NoMemory> {
        let file = ENTRY.to_vec(alloc)?;
        if is_second {
            self.second = advance(&mut self.store, 1, &self.key, self.second, file);
            return Ok(self.second);
        }
        self.first = advance(&mut self.store, 0, &self.key, self.first, file);
        Ok(self.first)
    }

    /// The first seat gives way, where it waits for the lock.
    pub fn give_way(&mut self) {
        if self.first == Phase::Wanting {
            give_way(&mut self.store, 0, &self.key);
            self.first = Phase::Ended;
        }
    }

    /// Whether both have given the lock back.
    pub fn are_done(&self) -> bool {
        self.first == Phase::Ended && self.second == Phase::Ended
    }

    /// The files as the seats left them.
    pub fn into_files(self) -> MemoryFiles {
        let Writers {
            store,
            key: _,
            first: _,
            second: _,
        } = self;
        store.into_files()
    }
}
