// A turn whose ticket words go round.
ghost use Rattle.std.specs.Prelude.{vec_capacity, ◌≡◌, ◌<◌, ◌≤◌, []};
ghost use Rattle.turn_lock.specs.Turns.{IsSeatOf};
ghost use Rattle.turn_lock.specs.inside.Views.{lap, word_of};

use crate::seat::Seat;
use crate::steps::LAP;
use crate::turn::Turn;
use snapshots::{Append, update_snapshot};
use state_machine::{Entry, Machine};
use std::alloc::Global;
use std::collections::LinkedList;
use std::snapshot::Snapshot;
use std::sync::Wait;
use std::test::Fail;

// Words at the lap's end, computed where the tests are proved.
fn worked_words()
    ensures first { word_of 0 0 ≡ 0 }
    ensures last { word_of 0 4611686018427387903 ≡ 4611686018427387903 }
    ensures around { word_of 0 4611686018427387904 ≡ 0 }
    ensures near { word_of 4611686018427387901 5 ≡ 2 }
{}

// It counts its steps.
#[derive(Drop)]
struct Counter {
    count: u64,
    history: Snapshot<LinkedList<Entry<u64>>>,
}

impl Machine for Counter {
    ghost use Rattle.std.specs.Prelude.{ℕ, ◌+◌, ◌%◌, ◌^◌, ⊤};

    type Event = ();

    type Reply = u64;

    type Note = u64;

    ghost World = { ℕ };

    ghost opening = { λ m. 0 };

    ghost world = { λ m. m.count };

    ghost history = { λ m. m.history.value };

    ghost seats = { λ count. 64 };

    ghost note = { λ event reply. reply };

    ghost asks = { λ count who own event. ⊤ };

    ghost asked = { λ count who own note. ⊤ };

    ghost steps = { λ before e after. (after ≡ (before + 1) % 2 ^ 64) × (e.note ≡ after) };

    fn step(&mut self, who: u32, event: ()) -> u64 {
        let count = self.count.wrapping_add(1);
        self.count = count;
        update_snapshot::<_, _, Append>(
            &mut self.history,
            &Entry {
                by: who,
                note: count,
            },
        );
        event;
        count
    }
}

// Seat 0 counts, seat 1 finds the history longer, and counts too.
fn count_two<R: Wait>(
    rt: &R,
    turn: &Turn<Counter>,
    zero: &mut Seat<Counter>,
    one: &mut Seat<Counter>,
) -> (u64, u64)
    requires of { IsSeatOf turn.now zero.old × IsSeatOf turn.now one.old }
    ensures of { IsSeatOf turn.now zero.new × IsSeatOf turn.now one.new }
{
    let first = turn.call(rt, zero, ());
    turn.wait_past(rt, one);
    (first, turn.call(rt, one, ()))
}

fn count_eight<R: Wait>(
    rt: &R,
    turn: Turn<Counter>,
    mut zero: Seat<Counter>,
    mut one: Seat<Counter>,
    mut back: Vec<Seat<Counter>>,
) -> ([(u64, u64); 4], u64)
    requires turn { turn.seats ≡ 2 }
    requires of { IsSeatOf turn zero × IsSeatOf turn one }
    requires back { (back.items ≡ []) × (2 ≤ vec_capacity back) }
{
    let counts = [
        count_two(rt, &turn, &mut zero, &mut one),
        count_two(rt, &turn, &mut zero, &mut one),
        count_two(rt, &turn, &mut zero, &mut one),
        count_two(rt, &turn, &mut zero, &mut one),
    ];
    back.push_reserved(zero);
    back.push_reserved(one);
    (counts, turn.close(back).count)
}

fn counts_from<R: Wait>(rt: &R, alloc: Global, first_ticket: u64) -> Option<([(u64, u64); 4], u64)>
    requires { first_ticket < lap }
{
    let counter = Counter {
        count: 0,
        history: Snapshot::of(&LinkedList::new(alloc)),
    };
    let Ok((turn, mut seats)) = Turn::start_at(alloc, counter, 2, first_ticket) else {
        return None;
    };
    let back = Vec::with_capacity(alloc, 2).ok()?;
    let one = seats.pop()?;
    let zero = seats.pop()?;
    Some(count_eight(rt, turn, zero, one, back))
}

#[test]
fn ticket_words_go_round(rt: HostRuntime) -> Result<(), Fail> {
    worked_words();
    for first_ticket in [0, LAP - 1, LAP - 3, LAP - 8] {
        let (counts, count) = counts_from(&rt, rt.alloc(), first_ticket).ok_or("no memory")?;
        assert!(rt; counts == [(1, 2), (3, 4), (5, 6), (7, 8)]);
        assert_eq!(rt; count, 8);
    }
    Ok(())
}
