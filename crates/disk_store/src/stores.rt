// The disk store: its state with the history of its steps.
ghost use Rattle.std.specs.Prelude.{◌≡◌, ◌<◌, [], ◌∷◌, ◌++◌, true, false, replicate, None, IfOk, IfErr};
ghost use Rattle.outside.specs.Causes.{HasCause};
ghost use Rattle.state_machine.specs.Histories.{entry};
ghost use Rattle.cache_folder.specs.Images.{IfKnown, WasKnown};
ghost use Rattle.disk_lru.specs.Started.{IsStarted, OffersNoMore};
ghost use Rattle.store_world.specs.Right.{HoldsRightIn};
ghost use Rattle.store_world.specs.Knowledge.{knowledge_in};
ghost use Rattle.store_world.specs.Permits.{Permits};
ghost use Rattle.store_world.specs.Sound.{seat_count};
ghost use Rattle.store_world.specs.Steps.{Transition};
ghost use Rattle.store_world.specs.StoreMachine.{IsOpening, BeganRight, noted};
ghost use Rattle.disk_store.specs.StoreView.{off_world};
ghost use Rattle.disk_store.specs.Kept.{IsStore, IsFresh};

use crate::history::{History, add_entry};
use crate::open::{OpenStore, Room};
use crate::state::{OffStore, StoreState};
use disk_lru::{DiskFault, DiskLru};
use outside::{Files, Told};
use state_machine::{Machine, own_entries_append};
use std::alloc::Global;
use std::collections::LinkedList;
use std::marker::Model;
use std::snapshot::Snapshot;
use store_world::{
    Note, StoreEvent, StoreReply, each_event_keeps_settings, each_event_keeps_sound,
    each_event_keeps_what_is_off, each_history_offers_what_is_right,
    each_moment_offers_what_is_right, openings_are_sound,
};

/// The disk store: entries by key on a disk cache that up to 16 seats share. One seat at a time has a key's write lock, in the
/// order of asking, and a store that speaks for a content offers only what is right under it. docs/DISK.md has the table of its
/// events.
///
/// Contracts see what the files were when the store was made, the world that it began with, its world now, and the history of
/// its steps.
#[derive(Drop)]
pub struct Store<F: Files> {
    state: StoreState<F>,
    before: Snapshot<F>,
    opening: Snapshot<StoreState<F>>,
    history: History,
}

impl<F: Files> Model for Store<F> {
    ghost use Rattle.std.specs.Coded.{codes};
    ghost use Rattle.std.specs.FinMap as map;
    ghost use Rattle.disk_lru.specs.State.{folder_code};
    ghost use Rattle.disk_store.specs.Kept.{StoreValue, IsStore};

    ghost Value = { StoreValue };

    ghost coded = { Prim.hlevel (codes, folder_code, map.code) };

    ghost view = { λ s. record {
      before = F.history s.before.value;
      opening = s.opening.value;
      world = s.state;
      history = s.history.value;
    } };

    ghost invariant = { λ s. IsStore (F.history s.before.value) s.opening.value s.state s.history.value };
}

/// A store that was not started for want of memory, with its files as the steps up to then left them.
#[derive(Drop)]
pub struct StoreStart<F: Files> {
    pub files: F,
}

// No step yet.
fn no_history(alloc: Global) -> History
    ensures { result.value ≡ [] }
{
    Snapshot::of(&LinkedList::new(alloc))
}

// A store that has made no step.
fn fresh<F: Files>(alloc: Global, state: StoreState<F>, before: Snapshot<F>) -> Store<F>
    requires opens { IsOpening state.content (F.history before.value) state }
    requires right { BeganRight state.content (F.history before.value) state }
    ensures { IsFresh (F.history before.value) state result }
{
    openings_are_sound();
    each_history_offers_what_is_right::<u64>();
    let opening = Snapshot::of(&state);
    Store {
        state,
        before,
        opening,
        history: no_history(alloc),
    }
}

// A store with the disk cache that was started.
fn with_disk<F: Files>(
    alloc: Global,
    disk: DiskLru<F>,
    maximum: u64,
    room: Room,
    told: Told,
) -> StoreState<F>
    requires maximum { disk.cache.maximum ≡ maximum }
    requires room { room ≡ record { requests = []; edits = replicate 16 None } }
    ensures { result ≡ record { off = false; disk = disk; content = told; requests = [] } }
{
    StoreState::open(OpenStore::new(alloc, disk, maximum, room, told))
}

impl<F: Files> Store<F> {
    /// Starts a store on the files, with the most bytes that its entries may have together. It speaks for the content that is
    /// told. Where a call on the files fails the store is off for its whole life; for want of memory the files come back.
    pub fn start(
        alloc: Global,
        files: F,
        maximum: u64,
        told: Told,
    ) -> Result<Store<F>, StoreStart<F>>
        requires { HoldsRightIn told (F.history files) }
        ensures fresh { IfOk result (λ store. IsFresh (F.history files) store.world store) }
        ensures content { IfOk result (λ store. store.world.content ≡ told) }
        ensures started { IfOk result (λ store. store.world.off ≡ false → IfKnown (F.history files)
            (λ h. IsStarted maximum h store.world.disk)) }
        ensures maximum { IfOk result (λ store. store.world.off ≡ false
            → store.world.disk.cache.maximum ≡ maximum) }
        ensures cause { IfOk result (λ store. HasCause (F.faults files) store.world.disk.cache.faults
            (store.world.off ≡ true)) }
        ensures refused { IfErr result (λ refused.
            OffersNoMore (F.history files) (F.history refused.files)) }
        ensures known { IfErr result (λ refused. WasKnown (F.history files) (F.history refused.files)) }
    {
        let before = Snapshot::of(&files);
        let Ok(room) = Room::new(alloc) else {
            return Err(StoreStart { files });
        };
        match DiskLru::start(alloc, files, maximum) {
            Ok(disk) => {
                disk.promise();
                Ok(fresh(alloc, with_disk(alloc, disk, maximum, room, told), before))
            }
            Err(refused) => match refused.fault {
                DiskFault::Memory => Err(StoreStart {
                    files: refused.files,
                }),
                DiskFault::Failed => {
                    let off = StoreState::off(OffStore::new(refused.files, told));
                    Ok(fresh(alloc, off, before))
                }
            },
        }
    }

    /// A store that is off for its whole life. It makes no call on its files, so these may hold anything.
    pub fn off(alloc: Global, files: F, told: Told) -> Store<F>
        ensures { IsFresh (F.history files) (off_world (F.history files) (F.faults files) told) result }
    {
        let before = Snapshot::of(&files);
        fresh(alloc, StoreState::off(OffStore::new(files, told)), before)
    }

    /// Whether the store is off.
    pub fn is_off(&self) -> bool
        ensures { result ≡ self.now.world.off }
    {
        self.state.is_off()
    }

    /// Hands the files back. Edits that are open stay as a stop would leave them.
    pub fn into_files(self) -> F
        ensures { (F.history result ≡ self.world.disk.cache.history)
            × (F.faults result ≡ self.world.disk.cache.faults) }
    {
        let Store {
            state,
            before: _,
            opening: _,
            history: _,
        } = self;
        state.into_files()
    }

    /// Takes an event of the seat `who`, and replies to it.
    pub fn step(&mut self, who: u32, event: StoreEvent) -> StoreReply
        requires who { who < seat_count }
        requires asks { Permits self.old.opening.content (knowledge_in self.old.history who) event }
        ensures step { Transition self.old.world who event result self.new.world }
        ensures history { self.new.history ≡ self.old.history ++ entry who (noted event result) ∷ [] }
        ensures opening { self.new.opening ≡ self.old.opening }
        ensures before { self.new.before ≡ self.old.before }
    {
        each_event_keeps_sound();
        each_event_keeps_settings();
        each_event_keeps_what_is_off();
        each_moment_offers_what_is_right();
        own_entries_append::<Note>();
        let shown = Snapshot::of(&event);
        let reply = self.state.answer(&self.history, who, event);
        add_entry(&mut self.history, who, shown, &reply);
        reply
    }

    /// Whatever its seats did, a store's world is sound for what they know; its content and the greatest size of its disk cache
    /// are those that it began with; and where it speaks for a content, and its files held what is right under it when it was
    /// made, they have offered only what is right at each moment since. They did hold that unless the store is off. A store that
    /// is off stays as it began, with its files.
    pub fn is_in_order(&self)
        ensures { IsStore self.now.before self.now.opening self.now.world self.now.history }
    {
        let _history = &self.history;
    }
}

impl<F: Files> Machine for Store<F> {
    type Event = StoreEvent;

    type Reply = StoreReply;

    type Note = Note;

    ghost use Rattle.store_world.specs.World.{World};
    ghost use Rattle.store_world.specs.StoreMachine as machine;
    ghost use Rattle.store_world.specs.Steps.{Step};

    ghost World = { World };

    ghost opening = { λ s. s.opening };

    ghost world = { λ s. s.world };

    ghost history = { λ s. s.history };

    ghost seats = { machine.seats_of };

    ghost note = { machine.noted };

    ghost asks = { machine.asks };

    ghost asked = { machine.asked };

    ghost steps = { Step };

    fn step(&mut self, who: u32, event: StoreEvent) -> StoreReply {
        self.step(who, event)
    }
}
