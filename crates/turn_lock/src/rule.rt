// The rule of the turn, and its kinds of step.
use crate::view::{About, View};
use atomic_table::{Join, Play, Split, TableRule};
use state_machine::Machine;
use std::marker::PhantomData;

pub struct Rule<M> {
    of: PhantomData<M>,
}

impl<M: Machine> TableRule<Option<M>, View<M, M::Note>, About<M>> for Rule<M> {
    ghost use Rattle.turn_lock.specs.inside.Rule.{Kept};
    ghost use Rattle.turn_lock.specs.inside.Views.{first_seat};

    ghost holds = { Kept M.Machine };

    ghost first = { first_seat };
}

/// Kind 1: word 0 is looked at.
pub struct LookAtNext;

impl<M, N> Play<Option<M>, View<M, N>> for LookAtNext {
    ghost use Rattle.turn_lock.specs.inside.Steps.{LooksAtNext};

    ghost then = { LooksAtNext };
}

/// Kind 2: a ticket is taken from word 0.
pub struct TakeTicket;

impl<M, N> Play<Option<M>, View<M, N>> for TakeTicket {
    ghost use Rattle.turn_lock.specs.inside.Steps.{TakesTicket};

    ghost then = { TakesTicket };
}

/// Kind 3, by a seat with a ticket: word 1 is looked at.
pub struct LookForTurn<M> {
    of: PhantomData<M>,
}

impl<M: Machine> Play<Option<M>, View<M, M::Note>> for LookForTurn<M> {
    ghost use Rattle.turn_lock.specs.inside.Steps.{LooksForTurn};

    ghost then = { LooksForTurn M.Machine };
}

/// Kind 3, by a seat with no ticket.
pub struct LearnLength;

impl<M, N> Play<Option<M>, View<M, N>> for LearnLength {
    ghost use Rattle.turn_lock.specs.inside.Steps.{LearnsLength};

    ghost then = { LearnsLength };
}

/// Kind 6: the next ticket is written to word 1. Kinds 4 and 5 take the machine out of its slot and put it back: they
/// read and write a slot that the seat holds, and change nothing that the rule speaks of.
pub struct PassTurn<M> {
    of: PhantomData<M>,
}

impl<M: Machine> Play<Option<M>, View<M, M::Note>> for PassTurn<M> {
    ghost use Rattle.turn_lock.specs.inside.Steps.{PassesTurn};

    ghost then = { PassesTurn M.Machine };
}

/// Kind 7: the next seat is split from the newest one.
pub struct SplitSeat;

impl<M, N> Split<View<M, N>> for SplitSeat {
    ghost use Rattle.turn_lock.specs.inside.Views.{older, next_seat};

    ghost left = { older };

    ghost right = { next_seat };
}

/// Kind 8: a seat is joined to another.
pub struct JoinSeat;

impl<M, N> Join<View<M, N>> for JoinSeat {
    ghost use Rattle.turn_lock.specs.inside.Views.{with_joined, spent};

    ghost both = { with_joined };

    ghost spent = { spent };
}
