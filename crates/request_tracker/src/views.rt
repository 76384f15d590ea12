// A view, and what is asked and ordered of it.
ghost use Rattle.std.specs.Prelude.{◌≡◌, IfOk};
ghost use Rattle.request_tracker.specs.Table.{request};

use cache_key::{EngineKey, LoadSpec, Text};
use faults::NoMemory;
use std::alloc::Global;
use std::marker::Model;

/// The state of a view, after those of Glide's `SingleRequest`. `C` is why a load failed.
#[derive(Clone, Copy, Debug, PartialEq, Eq)]
pub enum ViewState<C> {
    /// Nothing is shown or asked for.
    Cleared,
    /// The load names no size, and no layout gave one yet.
    Waiting,
    /// The load has begun.
    Running,
    /// The load came to its picture.
    Complete,
    /// The load came to no picture.
    Failed(C),
    /// The load begins at the next `Resume`.
    Paused,
}

/// What a load asks for, and whether it names the size. One that names none has 1 for both sides, and takes the view's
/// layout size when it begins.
#[derive(Drop)]
pub struct Ask {
    pub spec: LoadSpec,
    pub sized: bool,
}

/// What is to be done for the view at a place: first its hold is dropped, and then its load begins, where each is so said.
#[derive(Clone, Copy, Debug, PartialEq, Eq)]
pub struct Order {
    pub place: usize,
    pub drop_hold: bool,
    pub begin: bool,
}

/// A move that is made of each view in turn. `Pause`, `PauseAll` and `Resume` are those of Glide's `RequestTracker`.
#[derive(Clone, Copy, Debug, PartialEq, Eq)]
pub enum Act {
    Pause,
    PauseAll,
    Resume,
    ClearAll,
}

// The size that a layout gave a view, in pixels. Contracts see the two numbers.
#[derive(Clone, Copy)]
pub struct LayoutSize {
    pub width: u32,
    pub height: u32,
}

impl Model for LayoutSize {
    ghost use Rattle.cache_key.specs.Size.{Size, IsSize};

    ghost Value = { Size };

    ghost view = { λ s. (s.width, s.height) };

    ghost invariant = { λ s. IsSize (s.width, s.height) };

    ghost inverse = { λ s. record { width = s.0; height = s.1 } };
}

// What was asked for last, the size of the last layout, and the state.
#[derive(Drop)]
pub struct View<C> {
    pub ask: Ask,
    pub size: Option<LayoutSize>,
    pub state: ViewState<C>,
}

impl<C> View<C> {
    /// A copy of what the view asks for, in the layout's size where the load names none.
    pub fn request(&self, alloc: Global) -> Result<LoadSpec, NoMemory>
        ensures { IfOk result (λ spec. spec ≡ request self.now) }
    {
        let spec = &self.ask.spec;
        let (width, height) = match &self.size {
            Some(size) if !self.ask.sized => (size.width, size.height),
            _ => (spec.key.width, spec.key.height),
        };
        let key = EngineKey {
            url: Text::new(alloc, spec.key.url.bytes())?,
            sig: Text::new(alloc, spec.key.sig.bytes())?,
            width,
            height,
            transform: spec.key.transform,
            config: spec.key.config,
            rule: spec.key.rule,
        };
        Ok(LoadSpec {
            key,
            strategy: spec.strategy,
            priority: spec.priority,
            skip: spec.skip,
            cached: spec.cached,
        })
    }
}
