// A store: with its disk cache, or off.
ghost use Rattle.std.specs.Prelude.{◌≡◌};
ghost use Rattle.store_world.specs.Steps.{Transition};
ghost use Rattle.store_world.specs.StoreMachine.{files_alone};
ghost use Rattle.disk_store.specs.StoreView.{MayStep, off_world};

use crate::history::History;
use crate::open::OpenStore;
use outside::{Files, Told};
use std::marker::Model;
use store_world::{StoreEvent, StoreReply};

/// A store that is off: files on which it makes no call.
#[derive(Drop)]
pub struct OffStore<F: Files> {
    files: F,
    told: Told,
}

impl<F: Files> Model for OffStore<F> {
    ghost use Rattle.std.specs.Coded.{codes};
    ghost use Rattle.std.specs.FinMap as map;
    ghost use Rattle.disk_lru.specs.State.{folder_code};
    ghost use Rattle.store_world.specs.World.{World};
    ghost use Rattle.disk_store.specs.StoreView.{off_world};

    ghost Value = { World };

    ghost coded = { Prim.hlevel (codes, folder_code, map.code) };

    ghost view = { λ s. off_world (F.history s.files) (F.faults s.files) s.told };
}

impl<F: Files> OffStore<F> {
    /// It speaks for the content that is told.
    pub fn new(files: F, told: Told) -> OffStore<F>
        ensures { result ≡ off_world (F.history files) (F.faults files) told }
    {
        OffStore { files, told }
    }

    fn is_off(&self) -> bool
        ensures { result ≡ self.now.off }
    {
        let _files = &self.files;
        true
    }

    fn into_files(self) -> F
        ensures { (F.history result ≡ self.disk.cache.history) × (F.faults result ≡ self.disk.cache.faults) }
    {
        let OffStore { files, told: _ } = self;
        files
    }

    // Nothing is there, and no seat gets a lock.
    fn answer(&mut self, history: &History, who: u32, event: StoreEvent) -> StoreReply
        requires { MayStep self.old history.now.value who event }
        ensures { Transition self.old who event result self.new }
    {
        let _files = &self.files;
        match event {
            StoreEvent::Fetch(_) => StoreReply::Bytes(None),
            StoreEvent::Want(_, _, _) => StoreReply::Off,
            StoreEvent::Granted => unreachable!(),
            StoreEvent::Begin => unreachable!(),
            StoreEvent::Write(_) => unreachable!(),
            StoreEvent::Commit => unreachable!(),
            StoreEvent::GiveUp => unreachable!(),
            StoreEvent::Done => unreachable!(),
        }
    }
}

#[derive(Drop)]
enum Serving<F: Files> {
    Open(OpenStore<F>),
    Off(OffStore<F>),
}

/// A store without the history of its steps.
#[derive(Drop)]
pub struct StoreState<F: Files> {
    serving: Serving<F>,
}

impl<F: Files> Model for StoreState<F> {
    ghost use Rattle.std.specs.Coded.{codes};
    ghost use Rattle.std.specs.FinMap as map;
    ghost use Rattle.disk_lru.specs.State.{folder_code};
    ghost use Rattle.store_world.specs.World.{World};
    ghost use Rattle.disk_store.specs.Serving.{world_of};

    ghost Value = { World };

    ghost coded = { Prim.hlevel (codes, folder_code, map.code) };

    ghost view = { λ s. world_of s.serving };
}

impl<F: Files> StoreState<F> {
    /// A store with its disk cache.
    pub fn open(store: OpenStore<F>) -> StoreState<F>
        ensures { result ≡ store }
    {
        StoreState {
            serving: Serving::Open(store),
        }
    }

    /// A store that is off.
    pub fn off(store: OffStore<F>) -> StoreState<F>
        ensures { result ≡ store }
    {
        StoreState {
            serving: Serving::Off(store),
        }
    }

    /// Answers an event of a seat.
    pub fn answer(&mut self, history: &History, who: u32, event: StoreEvent) -> StoreReply
        requires { MayStep self.old history.now.value who event }
        ensures { Transition self.old who event result self.new }
    {
        match &mut self.serving {
            Serving::Open(store) => store.answer(history, who, event),
            Serving::Off(store) => store.answer(history, who, event),
        }
    }

    /// Whether the store is off.
    pub fn is_off(&self) -> bool
        ensures { result ≡ self.now.off }
    {
        match &self.serving {
            Serving::Open(store) => store.is_off(),
            Serving::Off(store) => store.is_off(),
        }
    }

    /// Hands the files back.
    pub fn into_files(self) -> F
        ensures { (F.history result ≡ self.disk.cache.history) × (F.faults result ≡ self.disk.cache.faults) }
    {
        let StoreState { serving } = self;
        match serving {
            Serving::Open(store) => store.into_files(),
            Serving::Off(store) => store.into_files(),
        }
    }
}
