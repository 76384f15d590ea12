// Threads that add.
ghost use Rattle.turn_lock.specs.Turns.{IsSeatOf};

use crate::machine::AddingMachine;
use crate::two_threads::add_two_and_three;
use std::process::Abort;
use std::sync::Wait;
use std::sync::atomic::{AtomicU64, Ordering};
use std::test::Fail;
use std::thread::for_each_mut;
use turn_lock::{Seat, Turn};

#[test]
fn two_threads_add_in_some_order(rt: HostRuntime) -> Result<(), Fail> {
    for _ in 0..1000 {
        let (x, y, machine) = add_two_and_three(&rt, rt.alloc()).ok_or("no memory")?;
        assert!(rt; x == 2 && y == 5 || x == 5 && y == 3);
        assert_eq!(rt; machine.sum(), 5);
    }
    Ok(())
}

// Adds 1, again and again, and answers the last sum.
fn add_often<R: Wait + Abort>(
    rt: &R,
    turn: &Turn<AddingMachine>,
    seat: &mut Seat<AddingMachine>,
    times: u32,
) -> u64
    requires of { IsSeatOf turn.now seat.old }
    ensures of { IsSeatOf turn.now seat.new }
{
    let mut last = 0;
    for _ in 0..times {
        let sum = turn.call(rt, seat, 1);
        assert!(rt; last < sum);
        last = sum;
    }
    last
}

#[test]
fn eight_threads_are_answered_rising_sums(rt: HostRuntime) -> Result<(), Fail> {
    let alloc = rt.alloc();
    let Ok((turn, mut seats)) = Turn::start(alloc, AddingMachine::new(alloc), 8) else {
        return Err("no memory".into());
    };
    let most = AtomicU64::new(0);
    for_each_mut(
        &rt,
        seats.as_mut_slice(),
        8,
        &|_, seat| {
            most.fetch_max(add_often(&rt, &turn, seat, 10_000), Ordering::SeqCst);
        },
    );
    assert_eq!(rt; most.load(Ordering::SeqCst), 80_000);
    Ok(())
}
