// A store that several callers share, each at its turn.
ghost use Rattle.std.specs.Prelude.{◌≡◌, [], None, IfSome};
ghost use Rattle.turn_lock.specs.Turns.{IsSeatOf};
ghost use Rattle.store_world.specs.declared.events.StoreEvent.TheVariants as events;
ghost use Rattle.store_world.specs.declared.events.StoreReply.TheVariants as replies;
ghost use Rattle.store_world.specs.Knowledge.{knowledge_in};
ghost use Rattle.store_world.specs.Permits.{HasRequest};
ghost use Rattle.store_world.specs.StoreMachine.{noted};
ghost use Rattle.disk_store.specs.Kept.{IsStore};
ghost use Rattle.store_shared.specs.Caller.{knowledge_of, IsStep};
ghost use Rattle.store_shared.specs.Seated.{caller_at};

use crate::answers::Stored;
use crate::calls::StoreCalls;
use crate::fetching::fetch_by_steps;
use crate::steps::StoreSteps;
use crate::storing::store_by_steps;
use cache_key::{KeyRoom, Which};
use disk_lru::DiskFault;
use disk_store::{Note, Store, StoreEvent, StoreReply};
use outside::Files;
use state_machine::{legal_histories_begin, own_entries_append};
use std::alloc::Global;
use std::marker::Model;
use std::sync::Wait;
use store_world::{each_history_stays_sound, seats_learn_by_their_own_entries};
use turn_lock::{Seat, Turn};

// A seat of a store, with the turn that it takes.
struct SeatedStore<'a, R, F: Files> {
    rt: &'a R,
    turn: &'a Turn<Store<F>>,
    seat: Seat<Store<F>>,
}

impl<'a, R, F: Files> Model for SeatedStore<'a, R, F> {
    ghost use Rattle.std.specs.Coded.{codes};
    ghost use Rattle.std.specs.FinMap as map;
    ghost use Rattle.disk_lru.specs.State.{folder_code};
    ghost use Rattle.store_shared.specs.Caller.{Caller};
    ghost use Rattle.store_shared.specs.Seated.{caller_at, IsSeated};

    ghost Value = { Caller };

    ghost coded = { Prim.hlevel (codes, folder_code, map.code) };

    ghost view = { λ s. caller_at s.turn.now s.seat };

    ghost invariant = { λ s. IsSeated s.turn.now s.seat };
}

impl<'a, R: Wait, F: Files> SeatedStore<'a, R, F> {
    // Whether the seat has the lock that it wants.
    fn is_granted(&mut self) -> bool
        requires { HasRequest (knowledge_of self.old) }
        ensures step { IsStep self.old (noted events.Granted (replies.Front result)) self.new }
    {
        match self.step(StoreEvent::Granted) {
            StoreReply::Front(first) => first,
            _ => unreachable!(),
        }
    }

    // Waits until others have made a step that the seat has not seen.
    fn wait_news(&mut self)
        ensures { self.new ≡ self.old }
    {
        self.turn.wait_past(self.rt, &mut self.seat);
    }
}

impl<'a, R: Wait, F: Files> StoreSteps for SeatedStore<'a, R, F> {
    ghost caller = { λ s. s };

    fn step(&mut self, event: StoreEvent) -> StoreReply {
        legal_histories_begin::<Store<F>>();
        own_entries_append::<Note>();
        seats_learn_by_their_own_entries();
        each_history_stays_sound::<Store<F>>();
        self.turn.call(self.rt, &mut self.seat, event)
    }

    fn lock(&mut self) {
        for _ in self.rt.forever() {
            if self.is_granted() {
                return;
            }
            self.wait_news();
        }
        unreachable!()
    }
}

/// A store that several callers share, each at its turn, as one of them sees it. Its seat wants no lock between two calls.
///
/// A call waits for the seat's turn at each step, and `store` for the write lock of its key too.
pub struct SharedStore<'a, R, F: Files> {
    seated: SeatedStore<'a, R, F>,
}

impl<'a, R, F: Files> Model for SharedStore<'a, R, F> {
    ghost use Rattle.std.specs.Prelude.{◌≡◌, None};
    ghost use Rattle.std.specs.Coded.{codes};
    ghost use Rattle.std.specs.FinMap as map;
    ghost use Rattle.disk_lru.specs.State.{folder_code};
    ghost use Rattle.store_shared.specs.Caller.{Caller, knowledge_of};

    ghost Value = { Caller };

    ghost coded = { Prim.hlevel (codes, folder_code, map.code) };

    ghost view = { λ s. s.seated };

    ghost invariant = { λ s. knowledge_of s.seated ≡ None };
}

impl<'a, R: Wait, F: Files> SharedStore<'a, R, F> {
    /// The store of a turn, for the owner of this seat, which wants no lock. The turn began with a store that had made no step,
    /// and of which `Store::is_in_order` held.
    pub fn new(rt: &'a R, turn: &'a Turn<Store<F>>, seat: Seat<Store<F>>) -> SharedStore<'a, R, F>
        requires of { IsSeatOf turn.now seat }
        requires fresh { turn.now.start.history ≡ [] }
        requires opened { turn.now.start.world ≡ turn.now.start.opening }
        requires store { IsStore turn.now.start.before turn.now.start.opening
            turn.now.start.world turn.now.start.history }
        requires idle { knowledge_in seat.seen seat.number ≡ None }
        ensures { result ≡ caller_at turn.now seat }
    {
        SharedStore {
            seated: SeatedStore { rt, turn, seat },
        }
    }

    /// The seat, as the calls left it. It wants no lock.
    pub fn into_seat(self) -> Seat<Store<F>>
        ensures number { result.number ≡ self.entry.who }
        ensures seen { result.seen ≡ self.entry.seen }
        ensures of { IfSome self.entry.turn (λ turn. IsSeatOf turn result) }
        ensures idle { knowledge_of self.entry ≡ None }
    {
        let SharedStore {
            seated: SeatedStore {
                rt: _,
                turn: _,
                seat,
            },
        } = self;
        seat
    }
}

impl<'a, R: Wait, F: Files> StoreCalls for SharedStore<'a, R, F> {
    ghost caller = { λ s. s };

    fn fetch(
        &mut self,
        alloc: Global,
        room: &KeyRoom,
        which: Which,
    ) -> Result<Option<Vec<u8>>, DiskFault> {
        fetch_by_steps(alloc, &mut self.seated, room, which)
    }

    fn store(&mut self, alloc: Global, room: &KeyRoom, which: Which, payload: &[u8]) -> Stored {
        store_by_steps(alloc, &mut self.seated, room, which, payload)
    }
}
