// Two threads, each with a seat at one turn.
ghost use Rattle.std.specs.Prelude.{IfSome, vec_capacity, ◌≡◌, ◌≤◌, ◌⊎◌, [], ◌∷◌};
ghost use Rattle.state_machine.specs.Histories.{entry};
ghost use Rattle.turn_lock.specs.Turns.{IsSeatOf, own_entries};
ghost use Rattle.adding_machine.specs.Sums.{OneFirst, ZeroFirst, addition};

use crate::machine::AddingMachine;
use std::alloc::Global;
use std::sync::Wait;
use std::thread::{Threads, join_mut};
use turn_lock::{Seat, Turn};

fn add<R: Wait>(
    rt: &R,
    turn: &Turn<AddingMachine>,
    seat: &mut Seat<AddingMachine>,
    amount: u64,
) -> u64
    requires of { IsSeatOf turn.now seat.old }
    requires new { seat.old.seen ≡ [] }
    ensures of { IsSeatOf turn.now seat.new }
    ensures number { seat.new.number ≡ seat.old.number }
    ensures own { own_entries seat.new ≡ entry seat.old.number (addition amount result) ∷ [] }
{
    turn.call(rt, seat, amount)
}

fn add_both<R: Threads + Wait + Sync>(
    rt: &R,
    turn: &Turn<AddingMachine>,
    zero: &mut Seat<AddingMachine>,
    one: &mut Seat<AddingMachine>,
) -> (u64, u64)
    requires zero { IsSeatOf turn.now zero.old × (zero.old.seen ≡ []) }
    requires one { IsSeatOf turn.now one.old × (one.old.seen ≡ []) }
    ensures of { IsSeatOf turn.now zero.new × IsSeatOf turn.now one.new }
    ensures numbers { (zero.new.number ≡ zero.old.number) × (one.new.number ≡ one.old.number) }
    ensures zero { own_entries zero.new ≡ entry zero.old.number (addition 2 result.0) ∷ [] }
    ensures one { own_entries one.new ≡ entry one.old.number (addition 3 result.1) ∷ [] }
{
    join_mut(
        rt,
        &mut || add(rt, turn, zero, 2),
        &mut || add(rt, turn, one, 3),
    )
}

// The threads add, and then both seats come back.
fn add_and_close<R: Threads + Wait + Sync>(
    rt: &R,
    turn: Turn<AddingMachine>,
    mut zero: Seat<AddingMachine>,
    mut one: Seat<AddingMachine>,
    mut back: Vec<Seat<AddingMachine>>,
) -> (u64, u64, AddingMachine)
    requires turn { (turn.seats ≡ 2) × (turn.start ≡ record { sum = 0; history = [] }) }
    requires zero { IsSeatOf turn zero × (zero.seen ≡ []) × (zero.number ≡ 0) }
    requires one { IsSeatOf turn one × (one.seen ≡ []) × (one.number ≡ 1) }
    requires back { (back.items ≡ []) × (2 ≤ vec_capacity back) }
    ensures order { ZeroFirst result.0 result.1 result.2.history ⊎ OneFirst result.0 result.1 result.2.history }
    ensures sum { result.2.sum ≡ 5 }
{
    let (x, y) = add_both(rt, &turn, &mut zero, &mut one);
    back.push_reserved(zero);
    back.push_reserved(one);
    (x, y, turn.close(back))
}

/// Seat 0 adds 2 and seat 1 adds 3, each in a thread of its own. Both answers come back, and the machine.
pub fn add_two_and_three<R: Threads + Wait + Sync>(
    rt: &R,
    alloc: Global,
) -> Option<(u64, u64, AddingMachine)>
    ensures order { IfSome result (λ r. ZeroFirst r.0 r.1 r.2.history ⊎ OneFirst r.0 r.1 r.2.history) }
    ensures sum { IfSome result (λ r. r.2.sum ≡ 5) }
{
    let Ok((turn, mut seats)) = Turn::start(alloc, AddingMachine::new(alloc), 2) else {
        return None;
    };
    let back = Vec::with_capacity(alloc, 2).ok()?;
    let one = seats.pop()?;
    let zero = seats.pop()?;
    Some(add_and_close(rt, turn, zero, one, back))
}
