// The turn.
ghost use Rattle.std.specs.List.{range_with_len};
ghost use Rattle.std.specs.Prelude.{All, Contains, IfErr, IfOk, map, ◌≡◌, ℕ, ◌<◌, ◌≤◌, ◌++◌, [], ◌∷◌, length};
ghost use mathlib.Core.List.{IsPrefix};
ghost use Rattle.state_machine.specs.Histories.{entry, own};
ghost use Rattle.state_machine.specs.Legal.{IsLegal};
ghost use Rattle.turn_lock.specs.Turns.{CanHave, GoesOn, IsSeatOf, own_entries};

use crate::rule::Rule;
use crate::seat::Seat;
use crate::seats::{join_seats, make_seats};
use crate::steps::{following, serve, take_ticket, wait_for_more, wait_for_turn};
use crate::view::{About, View};
use atomic_table::{Refused, Table};
use state_machine::{Machine, empty_histories_are_legal, own_entries_append};
use std::alloc::Global;
use std::marker::Model;
use std::snapshot::Snapshot;
use std::sync::Wait;

/// A machine that seats use one after another, each at its turn.
#[derive(Drop)]
pub struct Turn<M: Machine> {
    table: Table<Option<M>, View<M, M::Note>, About<M>, Rule<M>, Global>,
    seats: u32,
}

impl<M: Machine> Model for Turn<M> {
    ghost use Rattle.turn_lock.specs.Turns.{TurnState};
    ghost use Rattle.turn_lock.specs.inside.Steps.{IsTurn};

    ghost Value = { TurnState M };

    ghost view = { λ t. record { id = t.table.shared.table_id; start = t.table.shared.key.start.value; seats = t.seats } };

    ghost invariant = { λ t. IsTurn t.table.shared.table_id t.table.shared.key t.seats };
}

/// There was no memory for a turn. The machine comes back as it was.
#[derive(Drop)]
pub struct StartFault<M> {
    pub machine: M,
}

impl<M: Machine> Turn<M> {
    /// A turn over a machine that has made no step, and its seats, numbered from 0.
    pub fn start(
        alloc: Global,
        machine: M,
        seats: u32,
    ) -> Result<(Turn<M>, Vec<Seat<M>>), StartFault<M>>
        requires seats { (0 < seats) × (seats ≤ 64) × (seats ≤ M.seats (M.opening machine)) }
        requires fresh { (M.history machine ≡ []) × (M.world machine ≡ M.opening machine) }
        ensures turn { IfOk result (λ r. (r.0.start ≡ machine) × (r.0.seats ≡ seats)) }
        ensures of { IfOk result (λ r. All (λ s. IsSeatOf r.0 s) r.1.items) }
        ensures new { IfOk result (λ r. All (λ s. (s.seen ≡ []) × (s.known ≡ 0)) r.1.items) }
        ensures numbers { IfOk result (λ r. map (λ s. s.number) r.1.items ≡ range_with_len 0 seats) }
        ensures fault { IfErr result (λ f. f.machine ≡ machine) }
    {
        Turn::start_at(alloc, machine, seats, 0)
    }

    /// The same, where both words of tickets begin at this number.
    pub(crate) fn start_at(
        alloc: Global,
        machine: M,
        seats: u32,
        first_ticket: u64,
    ) -> Result<(Turn<M>, Vec<Seat<M>>), StartFault<M>>
        requires seats { (0 < seats) × (seats ≤ 64) × (seats ≤ M.seats (M.opening machine)) }
        requires fresh { (M.history machine ≡ []) × (M.world machine ≡ M.opening machine) }
        requires ticket { first_ticket < 4611686018427387904 }
        ensures turn { IfOk result (λ r. (r.0.start ≡ machine) × (r.0.seats ≡ seats)) }
        ensures of { IfOk result (λ r. All (λ s. IsSeatOf r.0 s) r.1.items) }
        ensures new { IfOk result (λ r. All (λ s. (s.seen ≡ []) × (s.known ≡ 0)) r.1.items) }
        ensures numbers { IfOk result (λ r. map (λ s. s.number) r.1.items ≡ range_with_len 0 seats) }
        ensures fault { IfErr result (λ f. f.machine ≡ machine) }
    {
        empty_histories_are_legal::<M>();
        let Ok(all) = Vec::with_capacity(alloc, seats as usize) else {
            return Err(StartFault { machine });
        };
        let Ok(mut slots) = Vec::with_capacity(alloc, 1) else {
            return Err(StartFault { machine });
        };
        let about = About {
            start: Snapshot::of(&machine),
            seats: u64::from(seats),
            first_ticket,
        };
        slots.push_reserved(Some(machine));
        match Table::new(alloc, &[first_ticket, first_ticket], slots, &about) {
            Ok((table, first)) => {
                let all = make_seats(&table.shared, first, first_ticket, all, seats);
                Ok((Turn { table, seats }, all))
            }
            Err(Refused { mut slots }) => {
                let machine = slots.pop().unwrap().unwrap();
                slots.destroy_empty();
                Err(StartFault { machine })
            }
        }
    }

    /// Lets the machine take an event of this seat, once its turn comes, and answers the machine's reply.
    pub fn call<R: Wait>(&self, rt: &R, seat: &mut Seat<M>, event: M::Event) -> M::Reply
        requires of { IsSeatOf self.now seat.old }
        requires asks { M.asks (M.opening self.now.start) seat.old.number (own_entries seat.old) event }
        ensures of { IsSeatOf self.now seat.new }
        ensures number { seat.new.number ≡ seat.old.number }
        ensures goes_on { GoesOn seat.old (entry seat.old.number (M.note event result)) seat.new }
        ensures own { own_entries seat.new ≡ own_entries seat.old ++ entry seat.old.number (M.note event result) ∷ [] }
        ensures legal { CanHave M.Machine (M.opening self.now.start) seat.new.seen }
        ensures known { seat.new.known ≡ length seat.new.seen }
    {
        own_entries_append::<M::Note>();
        let board = &self.table.shared;
        let who = seat.number;
        let ticket = take_ticket(rt, board, &mut seat.token);
        wait_for_turn(rt, board, &mut seat.token, ticket);
        let reply = serve(board, &mut seat.token, who, event, ticket);
        seat.reached = following(ticket);
        reply
    }

    /// Waits until the history is longer than what the seat has seen.
    pub fn wait_past<R: Wait>(&self, rt: &R, seat: &mut Seat<M>)
        requires of { IsSeatOf self.now seat.old }
        ensures stays { seat.new ≡ record seat.old { known = seat.new.known } }
        ensures knows { length seat.old.seen < seat.new.known }
    {
        let reached = seat.reached;
        wait_for_more(rt, &self.table.shared, &mut seat.token, reached);
    }

    /// The machine, once all seats are back.
    pub fn close(self, seats: Vec<Seat<M>>) -> M
        requires all { length seats.items ≡ self.seats }
        requires of { All (λ s. IsSeatOf self s) seats.items }
        ensures opening { M.opening result ≡ M.opening self.start }
        ensures legal { IsLegal M.Machine (M.opening self.start) (M.history result) (M.world result) }
        ensures seen { All (λ s. IsPrefix s.seen (M.history result)) seats.items }
        ensures known { All (λ s. s.known ≤ length (M.history result)) seats.items }
        ensures own { All (λ s. own s.number (M.history result) ≡ own_entries s) seats.items }
        ensures entries { All (λ e. Contains (map (λ s. s.number) seats.items) e.by) (M.history result) }
    {
        let Turn { table, seats: _ } = self;
        let token = join_seats(&table.shared, seats);
        let mut closed = table.close_with(token);
        let machine = closed.take(0).unwrap();
        closed.free();
        machine
    }
}
