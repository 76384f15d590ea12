// A million calls at a turn that adds, by one seat and by eight, each seat in a thread of its own.
ghost use Rattle.std.specs.Prelude.{◌<◌, ◌≤◌};
ghost use Rattle.turn_lock.specs.Turns.{IsSeatOf};

use adding_machine::AddingMachine;
use anyhow::Result;
use std::alloc::{AllocError, Global};
use std::rt::Runtime;
use std::sync::Wait;
use std::thread::{Threads, for_each_mut};
use std::time::Instant;
use turn_lock::{Seat, Turn};

const CALLS: u32 = 1_000_000;

const TIMES: u32 = 10;

// Adds 1, again and again.
fn add_often<R: Wait>(
    rt: &R,
    turn: &Turn<AddingMachine>,
    seat: &mut Seat<AddingMachine>,
    times: u32,
)
    requires of { IsSeatOf turn.now seat.old }
    ensures of { IsSeatOf turn.now seat.new }
{
    for _ in 0..times {
        turn.call(rt, seat, 1);
    }
}

// The microseconds of a million calls by so many seats.
fn micros<R: Runtime + Threads + Wait + Sync>(rt: &R, alloc: Global, seats: u32) -> Result<u128>
    requires { (0 < seats) × (seats ≤ 64) }
{
    let Ok((turn, mut seated)) = Turn::start(alloc, AddingMachine::new(alloc), seats) else {
        return Err(AllocError.into());
    };
    let start = Instant::now(rt)?;
    for_each_mut(
        rt,
        seated.as_mut_slice(),
        seats as usize,
        &|_, seat| { add_often(rt, &turn, seat, CALLS / seats) },
    );
    Ok(start.elapsed(rt)?.as_micros())
}

// Prints the least time of several runs, and the sum that the calls add up to.
fn time_seats<R: Runtime + Threads + Wait + Sync>(rt: &R, alloc: Global, seats: u32) -> Result<()>
    requires { (0 < seats) × (seats ≤ 64) }
{
    let mut least = u128::MAX;
    for _ in 0..TIMES {
        least = least.min(micros(rt, alloc, seats)?);
    }
    let sum = CALLS / seats * seats;
    println!(rt; "{seats} callers: {least} microseconds, {sum}")?;
    Ok(())
}

/// Times one seat, and eight.
pub fn time<R: Runtime + Threads + Wait + Sync>(rt: &R, alloc: Global) -> Result<()> {
    time_seats(rt, alloc, 1)?;
    time_seats(rt, alloc, 8)
}
