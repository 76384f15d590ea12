// A store that one caller owns.
ghost use Rattle.std.specs.Prelude.{◌≡◌, [], None};
ghost use Rattle.store_world.specs.Steps.{Transition};
ghost use Rattle.store_world.specs.Permits.{Permits};
ghost use Rattle.store_world.specs.StoreMachine.{noted};
ghost use Rattle.store_shared.specs.Caller.{knowledge_of, content_of, IsMoment, IsStep};
ghost use Rattle.store_shared.specs.Owned.{owner_of, IsOwned};
ghost use Rattle.store_shared.specs.Replied.{RepliesTo};

use crate::answers::Stored;
use crate::calls::StoreCalls;
use crate::fetching::fetch_by_steps;
use crate::steps::StoreSteps;
use crate::storing::store_by_steps;
use cache_key::{KeyRoom, Which};
use disk_lru::DiskFault;
use disk_store::{Note, Store, StoreEvent, StoreReply};
use outside::Files;
use state_machine::{empty_histories_are_legal, legal_histories_grow, own_entries_append};
use std::alloc::Global;
use std::marker::Model;
use store_world::seats_learn_by_their_own_entries;

// A store whose only seat that makes steps has number 0.
#[derive(Drop)]
struct OwnedStore<F: Files> {
    store: Store<F>,
}

impl<F: Files> Model for OwnedStore<F> {
    ghost use Rattle.std.specs.Coded.{codes};
    ghost use Rattle.std.specs.FinMap as map;
    ghost use Rattle.disk_lru.specs.State.{folder_code};
    ghost use Rattle.store_shared.specs.Caller.{Caller};
    ghost use Rattle.store_shared.specs.Owned.{owner_of, IsOwned};

    ghost Value = { Caller };

    ghost coded = { Prim.hlevel (codes, folder_code, map.code) };

    ghost view = { λ s. owner_of s.store };

    ghost invariant = { λ s. IsOwned s.store };
}

// An event of the owner.
fn make<F: Files>(store: &mut Store<F>, event: StoreEvent) -> StoreReply
    requires owned { IsOwned store.old }
    requires asks { Permits (content_of (owner_of store.old)) (knowledge_of (owner_of store.old)) event }
    ensures step { IsStep (owner_of store.old) (noted event result) (owner_of store.new) }
    ensures reply { RepliesTo event result }
    ensures transition { Transition store.old.world 0 event result store.new.world }
    ensures owned { IsOwned store.new }
{
    legal_histories_grow::<Store<F>>();
    own_entries_append::<Note>();
    seats_learn_by_their_own_entries();
    let reply = store.step(0, event);
    store.is_in_order();
    reply
}

impl<F: Files> StoreSteps for OwnedStore<F> {
    ghost caller = { λ s. s };

    fn step(&mut self, event: StoreEvent) -> StoreReply {
        make(&mut self.store, event)
    }

    fn lock(&mut self) {
        let _ = make(&mut self.store, StoreEvent::Granted);
    }
}

/// A store that one caller owns, as the only seat that makes steps. Its seat has number 0, and wants no lock between two calls.
#[derive(Drop)]
pub struct AloneStore<F: Files> {
    owned: OwnedStore<F>,
}

impl<F: Files> Model for AloneStore<F> {
    ghost use Rattle.std.specs.Prelude.{◌≡◌, None};
    ghost use Rattle.std.specs.Coded.{codes};
    ghost use Rattle.std.specs.FinMap as map;
    ghost use Rattle.disk_lru.specs.State.{folder_code};
    ghost use Rattle.store_shared.specs.Caller.{Caller, knowledge_of};

    ghost Value = { Caller };

    ghost coded = { Prim.hlevel (codes, folder_code, map.code) };

    ghost view = { λ s. s.owned };

    ghost invariant = { λ s. knowledge_of s.owned ≡ None };
}

impl<F: Files> AloneStore<F> {
    /// The store of an owner, that has made no step.
    pub fn new(store: Store<F>) -> AloneStore<F>
        requires fresh { store.history ≡ [] }
        requires opened { store.world ≡ store.opening }
        ensures { result ≡ owner_of store }
    {
        empty_histories_are_legal::<Store<F>>();
        store.is_in_order();
        AloneStore {
            owned: OwnedStore { store },
        }
    }

    /// The store, as the calls left it: its history leads to its world, and its owner wants no lock.
    pub fn into_store(self) -> Store<F>
        ensures caller { owner_of result ≡ self }
        ensures moment { IsMoment result.opening result.history result.world }
        ensures idle { knowledge_of self ≡ None }
    {
        let AloneStore {
            owned: OwnedStore { store },
        } = self;
        store
    }
}

impl<F: Files> StoreCalls for AloneStore<F> {
    ghost caller = { λ s. s };

    fn fetch(
        &mut self,
        alloc: Global,
        room: &KeyRoom,
        which: Which,
    ) -> Result<Option<Vec<u8>>, DiskFault> {
        fetch_by_steps(alloc, &mut self.owned, room, which)
    }

    fn store(&mut self, alloc: Global, room: &KeyRoom, which: Which, payload: &[u8]) -> Stored {
        store_by_steps(alloc, &mut self.owned, room, which, payload)
    }
}
