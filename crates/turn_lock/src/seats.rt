// How the seats of a turn are made, and how they come back.
ghost use Rattle.std.specs.List.{range_with_len};
ghost use Rattle.std.specs.Prelude.{All, map, vec_capacity, ◌≡◌, ◌<◌, ◌≤◌, ◌++◌, [], ◌∷◌, length};
ghost use Rattle.turn_lock.specs.Turns.{IsSeatOf};
ghost use Rattle.turn_lock.specs.inside.Views.{IsIdle, first_seat, shown, summary, word_of};

use crate::rule::{JoinSeat, SplitSeat};
use crate::seat::{Seat, Token};
use crate::steps::Board;
use state_machine::Machine;

fn seat_of<M: Machine>(token: Token<M, M::Note>, number: u32, first_ticket: u64) -> Seat<M>
    requires resting { IsIdle token.me.0 × (token.me.1 ≡ []) × (token.me.0.joined ≡ []) }
    requires number { token.me.0.number ≡ number }
    requires new { (token.me.0.seen ≡ []) × (token.me.0.known ≡ 0) }
    requires ticket { first_ticket ≡ word_of token.me.0.first_ticket 0 }
    ensures of { (result.turn ≡ token.table_id) × (result.start ≡ token.me.0.start) }
    ensures number { result.number ≡ number }
    ensures new { (result.seen ≡ []) × (result.known ≡ 0) }
{
    Seat {
        token,
        number,
        reached: first_ticket,
    }
}

/// One seat for each number, out of the first one.
pub(crate) fn make_seats<M: Machine>(
    board: &Board<M, M::Note>,
    first: Token<M, M::Note>,
    first_ticket: u64,
    mut all: Vec<Seat<M>>,
    seats: u32,
) -> Vec<Seat<M>>
    requires table { (first.table_id ≡ board.now.table_id) × (board.now.table_id.words ≡ 2) }
    requires first { first.me ≡ (first_seat board.now.key, []) }
    requires ticket { first_ticket ≡ word_of board.now.key.first_ticket 0 }
    requires room { (all.items ≡ []) × (seats ≤ vec_capacity all) }
    requires seats { (0 < seats) × (seats ≡ board.now.key.seats) }
    ensures of { All (λ s. IsSeatOf record { id = board.now.table_id; start = board.now.key.start.value; seats = seats } s) result.items }
    ensures new { All (λ s. (s.seen ≡ []) × (s.known ≡ 0)) result.items }
    ensures numbers { map (λ s. s.number) result.items ≡ range_with_len 0 seats }
{
    let mut newest = first;
    for number in 0..seats - 1 {
        let next = board.split_seat::<SplitSeat>(&mut newest);
        all.push_reserved(seat_of(newest, number, first_ticket));
        newest = next;
    }
    all.push_reserved(seat_of(newest, seats - 1, first_ticket));
    all
}

/// Joins all seats to the last one.
pub(crate) fn join_seats<M: Machine>(
    board: &Board<M, M::Note>,
    mut seats: Vec<Seat<M>>,
) -> Token<M, M::Note>
    requires words { board.now.table_id.words ≡ 2 }
    requires of { All (λ s. s.turn ≡ board.now.table_id) seats.items }
    requires some { 0 < length seats.items }
    ensures table { result.table_id ≡ board.now.table_id }
    ensures idle { IsIdle result.me.0 × (result.me.1 ≡ []) }
    ensures all { map (λ s. shown s) seats.items ≡ result.me.0.joined ++ summary result.me.0 ∷ [] }
{
    let Some(last) = seats.pop() else {
        unreachable!()
    };
    let mut joined = last.into_token();
    while let Some(seat) = seats.pop() {
        board.join_seat::<JoinSeat>(&mut joined, seat.into_token());
    }
    joined
}
