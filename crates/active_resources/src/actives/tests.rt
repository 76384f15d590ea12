// One life of a table, and random calls beside a plain list.
ghost use Rattle.std.specs.Prelude.{◌≡◌, ◌<◌, ◌≤◌, true, false, slice_get, IsSome};
ghost use Rattle.std.specs.Option.{option_map};
ghost use Rattle.std.specs.Ordering.{nat_cmp};
ghost use Rattle.std.specs.FinMap.{get, find};
ghost use Rattle.std.specs.FinSet.{contains, len};

use super::Active;
use bitmap_kind::{Config, Rule, Transform};
use cache_key::{EngineKey, KeyOf, Text};
use faults::NoMemory;
use std::alloc::Global;
use std::marker::Model;
use std::test::Fail;

// Numbers with their keys.
#[derive(Drop)]
struct Keys {
    entries: Vec<(u64, EngineKey)>,
}

impl Model for Keys {
    ghost use Rattle.std.specs.Coded.{codes};
    ghost use Rattle.std.specs.FinMap as map;
    ghost use Rattle.cache_key.specs.KeyOf.{KeyMap};

    ghost Value = { KeyMap };

    ghost coded = { Prim.hlevel (codes, map.code) };

    ghost view = { λ s. map.from_entries s.entries.items };
}

// Where a number stands, or how many there are where it does not.
fn place_of(entries: &[(u64, EngineKey)], number: u64) -> usize
    ensures { slice_get entries.now result ≡
        option_map (λ key. (number, key)) (find nat_cmp number entries.now) }
{
    for i in 0..entries.len() {
        if entries[i].0 == number {
            return i;
        }
    }
    entries.len()
}

impl KeyOf for Keys {
    ghost keys = { λ s. s };

    fn key(&self, number: u64) -> &EngineKey {
        let place = place_of(&self.entries, number);
        &self.entries[place].1
    }
}

impl Keys {
    fn has(&self, number: u64) -> bool
        ensures { result ≡ true → IsSome (get self.now number) }
    {
        place_of(&self.entries, number) < self.entries.len()
    }
}

// Whether a number may be added: there is room, and it is not active.
fn lacks(active: &Active, number: u64) -> bool
    ensures room { result ≡ true → len active.now.numbers < active.now.room }
    ensures absent { result ≡ true → contains active.now.numbers number ≡ false }
{
    active.numbers.len() < active.room && !active.numbers.contains(&number)
}

// A table that fits its keys, each call of which is made only where its condition is seen to hold.
#[derive(Drop)]
struct Guarded {
    keys: Keys,
    active: Active,
}

impl Model for Guarded {
    ghost use Rattle.std.specs.Prelude.{ℕ};
    ghost use Rattle.active_resources.specs.Actives.{Fits};

    ghost Value = { ℕ };

    ghost view = { λ s. s.active.room };

    ghost invariant = { λ s. Fits s.keys s.active.numbers };
}

impl Guarded {
    fn new(alloc: Global, room: usize, keys: Keys) -> Result<Guarded, NoMemory> {
        Ok(Guarded {
            keys,
            active: Active::new(alloc, room)?,
        })
    }

    fn find(&self, key: &EngineKey) -> Option<u64> {
        self.active.find(&self.keys, key)
    }

    // Whether the number may be activated, and what it then replaces.
    fn activate(&mut self, number: u64) -> (bool, Option<u64>) {
        if !self.keys.has(number) || !lacks(&self.active, number) {
            return (false, None);
        }
        (true, self.active.activate(&self.keys, number))
    }

    fn deactivate(&mut self, number: u64) -> bool {
        self.active.deactivate_same(number)
    }
}

fn key_of(alloc: Global, width: u32) -> Result<EngineKey, NoMemory>
    requires { (1 ≤ width) × (width ≤ 16384) }
{
    Ok(EngineKey {
        url: Text::new(alloc, b"red")?,
        sig: Text::new(alloc, b"1")?,
        width,
        height: 1,
        transform: Transform::Inside,
        config: Config::Alpha8,
        rule: Rule::AtMost,
    })
}

// The width that a number's key has: one of four, so that three numbers have one key.
fn width_of(number: u64) -> u32
    ensures { (1 ≤ result) × (result ≤ 4) }
{
    1 + (number % 4) as u32
}

// The keys of the numbers below 12.
fn twelve_keys(alloc: Global) -> Result<Keys, Fail> {
    let mut entries = Vec::new(alloc);
    for number in 0..12 {
        let key = key_of(alloc, width_of(number))?;
        entries.push((number, key))?;
    }
    Ok(Keys { entries })
}

// Numbers 0, 4 and 8 have one key, and 12 has none.
#[test]
fn a_later_one_of_a_key_replaces_the_earlier(rt: HostRuntime) -> Result<(), Fail> {
    let mut table = Guarded::new(rt.alloc(), 3, twelve_keys(rt.alloc())?)?;
    let key = key_of(rt.alloc(), 1)?;
    assert_eq!(rt; table.find(&key), None);
    assert_eq!(rt; table.activate(0), (true, None));
    assert_eq!(rt; table.activate(0), (false, None));
    assert_eq!(rt; table.activate(12), (false, None));
    assert_eq!(rt; table.find(&key), Some(0));
    assert_eq!(rt; table.activate(4), (true, Some(0)));
    assert_eq!(rt; table.find(&key), Some(4));
    assert!(rt; !table.deactivate(0));
    assert_eq!(rt; table.find(&key), Some(4));
    assert_eq!(rt; table.activate(1), (true, None));
    assert_eq!(rt; table.activate(2), (true, None));
    assert_eq!(rt; table.activate(8), (false, None));
    assert!(rt; table.deactivate(2));
    assert_eq!(rt; table.activate(8), (true, Some(4)));
    assert!(rt; table.deactivate(8));
    assert_eq!(rt; table.find(&key), None);
    Ok(())
}

// A plain list of the active numbers below 12.
#[derive(Drop)]
struct PlainList {
    room: usize,
    numbers: Vec<u64>,
}

impl PlainList {
    fn find(&self, width: u32) -> Option<u64> {
        for number in &self.numbers {
            if width_of(*number) == width {
                return Some(*number);
            }
        }
        None
    }

    fn deactivate(&mut self, number: u64) -> bool {
        for i in 0..self.numbers.len() {
            if self.numbers[i] == number {
                self.numbers.remove(i);
                return true;
            }
        }
        false
    }

    fn activate(&mut self, number: u64) -> Result<(bool, Option<u64>), Fail> {
        if number >= 12 || self.numbers.len() >= self.room || self.numbers.contains(&number) {
            return Ok((false, None));
        }
        let replaced = self.find(width_of(number));
        if let Some(other) = replaced {
            self.deactivate(other);
        }
        self.numbers.push(number)?;
        Ok((true, replaced))
    }
}

// A number below a limit, and the next state of Knuth's generator of MMIX.
fn random_below(state: &mut u64, limit: u64) -> u64
    requires { 0 < limit }
    ensures { result < limit }
{
    *state = state
        .wrapping_mul(6_364_136_223_846_793_005)
        .wrapping_add(1_442_695_040_888_963_407);
    (*state >> 33) % limit
}

// One call of both, and whether they answered the same.
fn same_answer(
    alloc: Global,
    table: &mut Guarded,
    list: &mut PlainList,
    state: &mut u64,
) -> Result<bool, Fail> {
    let number = random_below(state, 14);
    match random_below(state, 8) {
        0..=3 => Ok(table.activate(number) == list.activate(number)?),
        4..=5 => Ok(table.deactivate(number) == list.deactivate(number)),
        _ => {
            let width = width_of(number);
            let key = key_of(alloc, width)?;
            Ok(table.find(&key) == list.find(width))
        }
    }
}

// 100 calls of a table with room for 3 numbers of four keys; then each number is taken out of both.
fn same_run(alloc: Global, state: &mut u64) -> Result<bool, Fail> {
    let mut table = Guarded::new(alloc, 3, twelve_keys(alloc)?)?;
    let mut list = PlainList {
        room: 3,
        numbers: Vec::new(alloc),
    };
    for _ in 0..100 {
        if !same_answer(alloc, &mut table, &mut list, state)? {
            return Ok(false);
        }
    }
    for number in 0..14 {
        if table.deactivate(number) != list.deactivate(number) {
            return Ok(false);
        }
    }
    Ok(list.numbers.is_empty())
}

#[test]
fn random_calls_answer_as_a_plain_list(rt: HostRuntime) -> Result<(), Fail> {
    let mut state = 2_026;
    for _ in 0..100 {
        assert!(rt; same_run(rt.alloc(), &mut state)?);
    }
    Ok(())
}
