// One life of a table, and random calls beside a plain list.
ghost use Rattle.std.specs.Prelude.{◌≡◌, ◌<◌, true, None, IsSome};
ghost use Rattle.std.specs.FinMap.{get, len};

use super::{LoadState, LoadTable, Settle, place_of};
use std::alloc::Global;
use std::test::Fail;

// Whether a load is there.
fn has<C: Copy>(table: &LoadTable<C>, owner: u32, number: u64) -> bool
    ensures { result ≡ true → IsSome (get table.now.loads (owner, number)) }
{
    place_of(&table.entries, owner, number) < table.entries.len()
}

// Whether a load may be added: there is room, and it is not there.
fn lacks<C: Copy>(table: &LoadTable<C>, owner: u32, number: u64) -> bool
    ensures room { result ≡ true → len table.now.loads < table.now.room }
    ensures absent { result ≡ true → get table.now.loads (owner, number) ≡ None }
{
    table.entries.len() < table.room
        && place_of(&table.entries, owner, number) == table.entries.len()
}

// Three loads of one job and one of another, of two owners.
#[test]
fn loads_come_to_what_their_job_ends_with(rt: HostRuntime) -> Result<(), Fail> {
    let mut table: LoadTable<u32> = LoadTable::new(rt.alloc(), 4)?;
    for number in 0..4 {
        let owner = if number == 2 { 1 } else { 0 };
        let job = if number == 1 { 5 } else { 4 };
        if lacks(&table, owner, number) {
            table.add(owner, number, LoadState::Waiting(job));
        }
    }
    assert!(rt; !lacks(&table, 2, 0));
    assert_eq!(rt; table.waiting(4), 3);
    assert_eq!(rt; table.settle(4, Settle::Ready(9)), 3);
    assert_eq!(rt; table.settle(4, Settle::Failed(7)), 0);
    assert_eq!(rt; table.settle(5, Settle::Failed(7)), 1);
    assert_eq!(rt; table.count_of(9), 3);
    assert_eq!(rt; table.live(0), 3);
    if has(&table, 1, 2) {
        assert_eq!(rt; *table.state(1, 2), LoadState::Ready(9));
        assert_eq!(rt; table.remove(1, 2), LoadState::Ready(9));
    }
    assert!(rt; !has(&table, 1, 2));
    if has(&table, 0, 1) {
        assert_eq!(rt; *table.state(0, 1), LoadState::Failed(7));
    }
    assert_eq!(rt; table.count_of(9), 2);
    assert_eq!(rt; table.live(1), 0);
    Ok(())
}

// A plain list of owners, numbers and states.
#[derive(Drop)]
struct PlainList {
    room: usize,
    loads: Vec<(u32, u64, LoadState<u32>)>,
}

impl PlainList {
    fn place(&self, owner: u32, number: u64) -> Option<usize> {
        self.loads
            .iter()
            .position(|load| load.0 == owner && load.1 == number)
    }

    fn state(&self, owner: u32, number: u64) -> Option<LoadState<u32>> {
        for load in &self.loads {
            if load.0 == owner && load.1 == number {
                return Some(load.2);
            }
        }
        None
    }

    fn lacks(&self, owner: u32, number: u64) -> bool {
        self.loads.len() < self.room && self.place(owner, number).is_none()
    }

    fn remove(&mut self, owner: u32, number: u64) -> Option<LoadState<u32>> {
        for i in 0..self.loads.len() {
            if self.loads[i].0 == owner && self.loads[i].1 == number {
                let load = self.loads.remove(i);
                return Some(load.2);
            }
        }
        None
    }

    fn settle(&mut self, job: u64, to: LoadState<u32>) -> u32 {
        let count = self.count(LoadState::Waiting(job));
        for load in &mut self.loads {
            if load.2 == LoadState::Waiting(job) {
                load.2 = to;
            }
        }
        count
    }

    fn count(&self, state: LoadState<u32>) -> u32 {
        let mut count: u32 = 0;
        for load in &self.loads {
            if load.2 == state {
                count = count.wrapping_add(1);
            }
        }
        count
    }

    fn live(&self, owner: u32) -> u32 {
        let mut count: u32 = 0;
        for load in &self.loads {
            if load.0 == owner {
                count = count.wrapping_add(1);
            }
        }
        count
    }
}

// A number below a limit, and the next state of Knuth's generator of MMIX.
fn random_below(state: &mut u64, limit: u64) -> u64
    requires { 0 < limit }
    ensures { result < limit }
{
    *state = state
        .wrapping_mul(6_364_136_223_846_793_005)
        .wrapping_add(1_442_695_040_888_963_407);
    (*state >> 33) % limit
}

// A state, most often that of a load that waits.
fn random_state(state: &mut u64) -> LoadState<u32> {
    let number = random_below(state, 4);
    match random_below(state, 6) {
        0 => LoadState::Ready(number),
        1 => LoadState::Failed(random_below(state, 4) as u32),
        _ => LoadState::Waiting(number),
    }
}

fn same_add(
    table: &mut LoadTable<u32>,
    list: &mut PlainList,
    owner: u32,
    number: u64,
    load: LoadState<u32>,
) -> Result<bool, Fail> {
    if lacks(table, owner, number) {
        table.add(owner, number, load);
        let lacked = list.lacks(owner, number);
        list.loads.push((owner, number, load))?;
        return Ok(lacked);
    }
    Ok(!list.lacks(owner, number))
}

fn same_remove(table: &mut LoadTable<u32>, list: &mut PlainList, owner: u32, number: u64) -> bool {
    if has(table, owner, number) {
        let state = table.remove(owner, number);
        return list.remove(owner, number) == Some(state);
    }
    list.remove(owner, number).is_none()
}

fn same_state(table: &LoadTable<u32>, list: &PlainList, owner: u32, number: u64) -> bool {
    if has(table, owner, number) {
        return list.state(owner, number) == Some(*table.state(owner, number));
    }
    list.state(owner, number).is_none()
}

fn same_settle(
    table: &mut LoadTable<u32>,
    list: &mut PlainList,
    job: u64,
    state: &mut u64,
) -> bool {
    let number = random_below(state, 4);
    if random_below(state, 2) == 0 {
        return table.settle(job, Settle::Ready(number))
            == list.settle(job, LoadState::Ready(number));
    }
    let cause = number as u32;
    table.settle(job, Settle::Failed(cause)) == list.settle(job, LoadState::Failed(cause))
}

// One call of both, and whether they answered the same.
fn same_answer(
    table: &mut LoadTable<u32>,
    list: &mut PlainList,
    state: &mut u64,
) -> Result<bool, Fail> {
    let owner = random_below(state, 3) as u32;
    let number = random_below(state, 8);
    let other = random_below(state, 4);
    match random_below(state, 16) {
        0..=6 => {
            let load = random_state(state);
            same_add(table, list, owner, number, load)
        }
        7..=9 => Ok(same_remove(table, list, owner, number)),
        10 => Ok(same_settle(table, list, other, state)),
        11 => Ok(table.waiting(other) == list.count(LoadState::Waiting(other))),
        12 => Ok(table.count_of(other) == list.count(LoadState::Ready(other))),
        13 => Ok(table.live(owner) == list.live(owner)),
        _ => Ok(same_state(table, list, owner, number)),
    }
}

// 100 calls over three owners of up to eight loads with room for 16 in all; then each load is taken out of both.
fn same_run(alloc: Global, state: &mut u64) -> Result<bool, Fail> {
    let mut table = LoadTable::new(alloc, 16)?;
    let mut list = PlainList {
        room: 16,
        loads: Vec::new(alloc),
    };
    for _ in 0..100 {
        if !same_answer(&mut table, &mut list, state)? {
            return Ok(false);
        }
    }
    for owner in 0..3 {
        for number in 0..8 {
            if !same_remove(&mut table, &mut list, owner, number) {
                return Ok(false);
            }
        }
    }
    Ok(list.loads.is_empty())
}

#[test]
fn random_calls_answer_as_a_plain_list(rt: HostRuntime) -> Result<(), Fail> {
    let mut state = 2_026;
    for _ in 0..100 {
        assert!(rt; same_run(rt.alloc(), &mut state)?);
    }
    Ok(())
}
