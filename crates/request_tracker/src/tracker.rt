// The views of a script, and their moves.
ghost use Rattle.std.specs.Prelude.{◌≡◌, ◌<◌, ◌≤◌, ◌↔◌, [], ◌∷◌, ◌++◌, length, false, Some, None, IfOk, IfSome, OnOk, OnErr, IsErrOf};
ghost use Rattle.std.specs.Option.{option_map, is_some};
ghost use Rattle.request_tracker.specs.declared.views.ViewState.TheVariants.{Running};
ghost use Rattle.cache_key.specs.Size.{IsSize};
ghost use Rattle.request_tracker.specs.Limits.{views_limit};
ghost use Rattle.request_tracker.specs.Table.{request, after_turn, turn_order};
ghost use Rattle.request_tracker.specs.Moves.{no_views, place_of, is_known, name_at, view_at, state_at, moved_at, order_at, moved_by_name, order_by_name, layout_move, clear_move, act_move, new_view, can_load, after_load, load_order, collected_at, IsOrderIn};

use crate::turns::Turn;
use crate::views::{Act, Ask, LayoutSize, Order, View, ViewState};
use cache_key::{EngineKey, LoadSpec, Text};
use faults::NoMemory;
use indexmap::IndexMap;
use std::alloc::{AllocFailed, Global};
use std::marker::Model;
use thiserror::Error;

// How many views there may be.
const MOST_VIEWS: usize = 4_096;

// Room for the views of most scripts.
const FIRST_VIEWS: usize = 16;

/// Why a load was refused.
#[derive(Clone, Copy, Debug, PartialEq, Eq, Error)]
pub enum ViewFault {
    #[error("the view is new, and there are 4,096 views")]
    TooMany,
    #[error("out of memory")]
    Memory,
}

impl From<NoMemory> for ViewFault {
    ghost use Rattle.request_tracker.specs.declared.tracker.ViewFault.TheVariants.{Memory};

    ghost from_gives = { λ _ fault. fault ≡ Memory };

    fn from(_error: NoMemory) -> ViewFault {
        ViewFault::Memory
    }
}

impl<T: Drop> From<AllocFailed<T>> for ViewFault {
    ghost use Rattle.request_tracker.specs.declared.tracker.ViewFault.TheVariants.{Memory};

    ghost from_gives = { λ _ fault. fault ≡ Memory };

    fn from(_error: AllocFailed<T>) -> ViewFault {
        ViewFault::Memory
    }
}

/// The views of a script by name, in order of first load, and whether new loads are paused. `C` is why a load failed.
///
/// A tracker has no loads of its own: each move answers an `Order`, by which its owner drops the view's hold and begins its
/// load. Glide's `RequestTracker` is the model.
#[derive(Drop)]
pub struct Tracker<C: Copy> {
    views: IndexMap<Text, View<C>>,
    paused: bool,
}

impl<C: Copy> Model for Tracker<C> {
    ghost use Rattle.request_tracker.specs.Moves.{Tracked};

    ghost Value = { Tracked C };

    ghost view = { λ t. record { views = t.views.entries; paused = t.paused } };
}

impl<C: Copy> Tracker<C> {
    /// A tracker that knows no view and is not paused.
    pub fn new(alloc: Global) -> Result<Tracker<C>, NoMemory>
        ensures { IfOk result (λ tracker. tracker ≡ no_views) }
    {
        Ok(Tracker {
            views: IndexMap::with_capacity(alloc, FIRST_VIEWS)?,
            paused: false,
        })
    }

    /// Whether a load in the view is within the limit: the view is known, or there are fewer than 4,096.
    pub fn can_load(&self, view: &Text) -> bool
        ensures { result ≡ can_load view.now self.now }
    {
        self.views.get_index_of(view).is_some() || self.views.len() < MOST_VIEWS
    }

    /// A load in the view, which is new or known. A load that is refused changes nothing.
    pub fn load(&mut self, alloc: Global, view: &Text, ask: Ask) -> Result<Order, ViewFault>
        ensures order { IfOk result (λ order. Some order ≡ load_order view.now ask self.old) }
        ensures views { OnOk result (self.new ≡ after_load view.now ask self.old) }
        ensures place { IfOk result (IsOrderIn self.new) }
        ensures too_many { IsErrOf result ViewFault.TooMany ↔ (can_load view.now self.old ≡ false) }
        ensures err { OnErr result (self.new ≡ self.old) }
    {
        let turn = Turn::of_load(self.paused);
        match self.views.get_index_of(view) {
            Some(place) => {
                let known = &mut self.views[place];
                known.ask = ask;
                Ok(known.take(turn, place))
            }
            None => self.add(alloc, view, ask, turn),
        }
    }

    // A load in a view that is new.
    fn add(&mut self, alloc: Global, view: &Text, ask: Ask, turn: Turn) -> Result<Order, ViewFault>
        requires new { place_of view.now self.old.views ≡ None }
        ensures order { IfOk result (λ order. order ≡ turn_order {C = C} (length self.old.views) turn (new_view ask)) }
        ensures views { OnOk result (self.new ≡ record self.old { views = self.old.views ++ (view.now, after_turn turn (new_view ask)) ∷ [] }) }
        ensures too_many { IsErrOf result ViewFault.TooMany ↔ (views_limit ≤ length self.old.views) }
        ensures err { OnErr result (self.new ≡ self.old) }
    {
        let place = self.views.len();
        if place >= MOST_VIEWS {
            return Err(ViewFault::TooMany);
        }
        let mut new = View {
            ask,
            size: None,
            state: ViewState::Cleared,
        };
        let order = new.take(turn, place);
        self.views.insert(Text::new(alloc, view.bytes())?, new)?;
        Ok(order)
    }

    /// A layout of the view, which has this width and height from now on, in pixels. None comes where the view is unknown.
    pub fn layout(&mut self, view: &Text, width: u32, height: u32) -> Option<Order>
        requires { IsSize (width, height) }
        ensures known { is_some result ≡ is_known view.now self.old.views }
        ensures order { result ≡ order_by_name view.now (layout_move width height) self.old }
        ensures views { self.new ≡ moved_by_name view.now (layout_move width height) self.old }
        ensures place { IfSome result (IsOrderIn self.new) }
        ensures count { length self.new.views ≡ length self.old.views }
    {
        let place = self.views.get_index_of(view)?;
        let known = &mut self.views[place];
        known.size = Some(LayoutSize { width, height });
        let turn = known.state.laid_out();
        Some(known.take(turn, place))
    }

    /// Clears the view. None comes where the view is unknown.
    pub fn clear(&mut self, view: &Text) -> Option<Order>
        ensures known { is_some result ≡ is_known view.now self.old.views }
        ensures order { result ≡ order_by_name view.now clear_move self.old }
        ensures views { self.new ≡ moved_by_name view.now clear_move self.old }
        ensures place { IfSome result (IsOrderIn self.new) }
        ensures count { length self.new.views ≡ length self.old.views }
    {
        let place = self.views.get_index_of(view)?;
        Some(self.views[place].take(Turn::Clears, place))
    }

    /// From now on a load is paused, or not. The views stay as they are until `act` moves them.
    pub fn set_paused(&mut self, paused: bool)
        ensures { self.new ≡ record self.old { paused = paused } }
    {
        self.paused = paused;
    }

    /// A move of the view at a place, as part of a move of all views.
    pub fn act(&mut self, act: Act, place: usize) -> Order
        requires { place < length self.old.views }
        ensures order { Some result ≡ order_at place (act_move act) self.old }
        ensures views { self.new ≡ moved_at place (act_move act) self.old }
        ensures place { IsOrderIn self.new result }
        ensures count { length self.new.views ≡ length self.old.views }
    {
        let view = &mut self.views[place];
        let turn = view.state.acted(act);
        view.take(turn, place)
    }

    /// The end of the load of the view at a place: it failed with a cause, or came to its picture. A view that does not run
    /// stays as it is.
    pub fn collected(&mut self, place: usize, failed: Option<C>)
        requires { place < length self.old.views }
        ensures views { self.new ≡ collected_at place failed self.old }
        ensures count { length self.new.views ≡ length self.old.views }
    {
        self.views[place].collect(failed);
    }

    /// How many views there are.
    pub fn count(&self) -> usize
        ensures { result ≡ length self.now.views }
    {
        self.views.len()
    }

    /// The state of the view at a place.
    pub fn state(&self, place: usize) -> &ViewState<C>
        requires { place < length self.now.views }
        ensures { Some result.now ≡ state_at place self.now.views }
    {
        &self.views[place].state
    }

    /// The place of the view. None comes where the view is unknown.
    pub fn find(&self, view: &Text) -> Option<usize>
        ensures place { result ≡ place_of view.now self.now.views }
        ensures within { IfSome result (λ place. place < length self.now.views) }
    {
        self.views.get_index_of(view)
    }

    /// The name of the view at a place.
    pub fn name(&self, place: usize) -> &Text
        requires { place < length self.now.views }
        ensures { Some result.now ≡ name_at place self.now.views }
    {
        let (name, _) = self.views.get_index(place).unwrap();
        name
    }

    /// A copy of what the view at a place asks for, in the layout's size where the load names none.
    pub fn spec(&self, alloc: Global, place: usize) -> Result<LoadSpec, NoMemory>
        requires { state_at place self.now.views ≡ Some Running }
        ensures { IfOk result (λ spec. Some spec ≡ option_map request (view_at place self.now.views)) }
    {
        self.views[place].request(alloc)
    }
}
