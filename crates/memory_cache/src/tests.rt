// The worked rows, the limits, and random calls beside a plain list.
ghost use Rattle.std.specs.Prelude.{◌<◌};

use crate::Cache;
use std::alloc::Global;
use std::test::Fail;

// Puts a number, where that is allowed: it is taken out first, and the cache is not over.
fn put_anew(cache: &mut Cache, number: u64, size: u64) -> bool {
    cache.remove(number);
    if cache.over().is_some() || cache.too_large(size) {
        return false;
    }
    cache.put(number, size);
    true
}

#[test]
fn gives_up_the_eldest(rt: HostRuntime) -> Result<(), Fail> {
    let mut cache = Cache::new(rt.alloc(), 400)?;
    assert!(rt; cache.too_large(400));
    assert!(rt; !cache.too_large(396));
    assert!(rt; put_anew(&mut cache, 1, 396));
    assert_eq!(rt; cache.over(), None);
    assert!(rt; put_anew(&mut cache, 2, 100));
    assert_eq!(rt; cache.items(), [(2, 100), (1, 396)].as_slice());
    assert_eq!(rt; cache.over(), Some(1));
    assert_eq!(rt; cache.over(), None);
    assert!(rt; !cache.remove(1));
    assert!(rt; put_anew(&mut cache, 3, 100));
    assert!(rt; cache.remove(2));
    assert_eq!(rt; cache.trim(100), None);
    assert_eq!(rt; cache.trim(99), Some(3));
    assert_eq!(rt; cache.trim(0), None);
    assert_eq!(rt; cache.maximum(), 400);
    cache.set_max(4);
    assert!(rt; cache.too_large(4));
    Ok(())
}

// The limit on items: up to 1,024 stay, and one more goes.
#[test]
fn keeps_as_many_as_its_limit(rt: HostRuntime) -> Result<(), Fail> {
    let mut cache = Cache::new(rt.alloc(), 1_000_000)?;
    for number in 0..1_024 {
        assert!(rt; put_anew(&mut cache, number, number % 3));
        assert_eq!(rt; cache.over(), None);
    }
    assert!(rt; put_anew(&mut cache, 5_000, 1));
    assert_eq!(rt; cache.over(), Some(0));
    assert_eq!(rt; cache.over(), None);
    assert!(rt; cache.remove(5_000));
    Ok(())
}

// A plain list of numbers and sizes, the eldest first.
#[derive(Drop)]
struct PlainList {
    maximum: u64,
    items: Vec<(u64, u64)>,
}

impl PlainList {
    fn total(&self) -> u64 {
        let mut total: u64 = 0;
        for item in &self.items {
            total = total.wrapping_add(item.1);
        }
        total
    }

    fn take_eldest(&mut self, goes: bool) -> Option<u64> {
        if goes && !self.items.is_empty() {
            let eldest = self.items.remove(0);
            return Some(eldest.0);
        }
        None
    }

    fn over(&mut self) -> Option<u64> {
        let goes = self.total() > self.maximum || self.items.len() > 1_024;
        self.take_eldest(goes)
    }

    fn trim(&mut self, size: u64) -> Option<u64> {
        let goes = self.total() > size;
        self.take_eldest(goes)
    }

    fn remove(&mut self, number: u64) -> bool {
        for i in 0..self.items.len() {
            if self.items[i].0 == number {
                self.items.remove(i);
                return true;
            }
        }
        false
    }

    fn put_anew(&mut self, number: u64, size: u64) -> Result<bool, Fail> {
        self.remove(number);
        if self.over().is_some() || size >= self.maximum {
            return Ok(false);
        }
        self.items.push((number, size))?;
        Ok(true)
    }
}

// A number below a limit, and the next state of Knuth's generator of MMIX.
fn random_below(state: &mut u64, limit: u64) -> u64
    requires { 0 < limit }
{
    *state = state
        .wrapping_mul(6_364_136_223_846_793_005)
        .wrapping_add(1_442_695_040_888_963_407);
    (*state >> 33) % limit
}

// One call of both, and whether they answered the same.
fn same_answer(cache: &mut Cache, list: &mut PlainList, state: &mut u64) -> Result<bool, Fail> {
    let call = random_below(state, 20);
    let number = random_below(state, 60);
    let size = random_below(state, 450);
    match call {
        0 => {
            cache.set_max(size);
            list.maximum = size;
            Ok(true)
        }
        1 => {
            let size = random_below(state, 1_800);
            Ok(cache.trim(size) == list.trim(size))
        }
        2..=4 => Ok(cache.remove(number) == list.remove(number)),
        5..=8 => Ok(cache.over() == list.over()),
        _ => Ok(put_anew(cache, number, size) == list.put_anew(number, size)?),
    }
}

// Runs of 100 calls, each of which ends where both lists have been taken out one by one.
fn same_run(alloc: Global, state: &mut u64) -> Result<bool, Fail> {
    let mut cache = Cache::new(alloc, 4_000)?;
    let mut list = PlainList {
        maximum: 4_000,
        items: Vec::new(alloc),
    };
    for _ in 0..100 {
        if !same_answer(&mut cache, &mut list, state)? {
            return Ok(false);
        }
    }
    for _ in 0..101 {
        if cache.trim(0) != list.trim(0) {
            return Ok(false);
        }
    }
    Ok(true)
}

#[test]
fn random_calls_answer_as_a_plain_list(rt: HostRuntime) -> Result<(), Fail> {
    let mut state = 2_026;
    for _ in 0..100 {
        assert!(rt; same_run(rt.alloc(), &mut state)?);
    }
    Ok(())
}
