// The table of moves.
ghost use Rattle.std.specs.Prelude.{◌≡◌, if◌then◌else◌};
ghost use Rattle.request_tracker.specs.Table.{loaded, laid_out, acted, has_hold, has_size, drops, begins, turned, after_turn, turn_order, collected};

use crate::views::{Act, Order, View, ViewState};

/// What a move asks of a view: to stay as it is, to begin its load, to be paused, or to be cleared.
#[derive(Clone, Copy, Debug, PartialEq, Eq)]
pub enum Turn {
    Stays,
    Begins,
    Pauses,
    Clears,
}

impl Turn {
    /// The turn of a view at a load.
    pub fn of_load(paused: bool) -> Turn
        ensures { result ≡ (if paused then Turn.Pauses else Turn.Begins) }
    {
        if paused { Turn::Pauses } else { Turn::Begins }
    }
}

impl<C> ViewState<C> {
    /// The turn of a view in this state at a layout.
    pub fn laid_out(&self) -> Turn
        ensures { result ≡ laid_out self.now }
    {
        match self {
            ViewState::Waiting => Turn::Begins,
            _ => Turn::Stays,
        }
    }

    /// The turn of a view in this state at a move that is made of each view.
    pub fn acted(&self, act: Act) -> Turn
        ensures { result ≡ acted act self.now }
    {
        match (act, self) {
            (Act::ClearAll, _) => Turn::Clears,
            (Act::Pause | Act::PauseAll, ViewState::Waiting | ViewState::Running) => Turn::Pauses,
            (Act::PauseAll, ViewState::Complete) => Turn::Pauses,
            (Act::Resume, ViewState::Paused | ViewState::Failed(_)) => Turn::Begins,
            _ => Turn::Stays,
        }
    }

    fn has_hold(&self) -> bool
        ensures { result ≡ has_hold self.now }
    {
        matches!(self, ViewState::Running | ViewState::Complete)
    }
}

impl<C: Copy> View<C> {
    fn has_size(&self) -> bool
        ensures { result ≡ has_size self.now }
    {
        self.ask.sized || self.size.is_some()
    }

    /// Takes a turn, and answers what it orders of the view, which is at this place.
    pub fn take(&mut self, turn: Turn, place: usize) -> Order
        ensures order { result ≡ turn_order place turn self.old }
        ensures view { self.new ≡ after_turn turn self.old }
    {
        let sized = self.has_size();
        let order = Order {
            place,
            drop_hold: turn != Turn::Stays && self.state.has_hold(),
            begin: turn == Turn::Begins && sized,
        };
        match turn {
            Turn::Stays => {}
            Turn::Begins if sized => self.state = ViewState::Running,
            Turn::Begins => self.state = ViewState::Waiting,
            Turn::Pauses => self.state = ViewState::Paused,
            Turn::Clears => self.state = ViewState::Cleared,
        }
        order
    }

    /// The end of the load: it failed with a cause, or came to its picture.
    pub fn collect(&mut self, failed: Option<C>)
        ensures { self.new ≡ record self.old { state = collected failed self.old.state } }
    {
        if let ViewState::Running = self.state {
            self.state = match failed {
                Some(cause) => ViewState::Failed(cause),
                None => ViewState::Complete,
            };
        }
    }
}
