// A seat at a turn.
ghost use Rattle.std.specs.Prelude.{◌≡◌, []};
ghost use Rattle.turn_lock.specs.inside.Views.{IsIdle, shown, summary};

use crate::view::View;
use state_machine::Machine;
use std::marker::Model;

pub(crate) type Token<M, N> = atomic_table::Seat<Option<M>, View<M, N>>;

/// The right of one caller to call at a turn. It has a number, and contracts see the history that it has seen.
pub struct Seat<M: Machine> {
    pub(crate) token: Token<M, M::Note>,
    pub(crate) number: u32,
    /// What word 1 was where the history had the length of what the seat has seen.
    pub(crate) reached: u64,
}

impl<M: Machine> Model for Seat<M> {
    ghost use Rattle.turn_lock.specs.Turns.{SeatState};
    ghost use Rattle.turn_lock.specs.inside.Steps.{IsResting};

    ghost Value = { SeatState M M.Note };

    ghost view = { λ s. record { turn = s.token.table_id; start = s.token.me.0.start; number = s.number; seen = s.token.me.0.seen; known = s.token.me.0.known } };

    ghost invariant = { λ s. IsResting s.token.me s.number s.reached };
}

impl<M: Machine> Seat<M> {
    pub(crate) fn into_token(self) -> Token<M, M::Note>
        ensures of { result.table_id ≡ self.turn }
        ensures idle { IsIdle result.me.0 × (result.me.1 ≡ []) }
        ensures joined { result.me.0.joined ≡ [] }
        ensures shown { summary result.me.0 ≡ shown self }
    {
        let Seat {
            token,
            number: _,
            reached: _,
        } = self;
        token
    }
}

impl<M: Machine> Drop for Seat<M> {
    fn drop(self) {
        let Seat {
            token: _,
            number: _,
            reached: _,
        } = self;
    }
}
