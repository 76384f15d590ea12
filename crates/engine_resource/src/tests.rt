// Each call once, and random calls beside a plain list of holders.
ghost use Rattle.std.specs.Prelude.{◌<◌};

use crate::Resource;
use bitmap_kind::{Bitmap, Config, Rule, Transform};
use cache_key::{EngineKey, Text};
use faults::NoMemory;
use std::alloc::Global;
use std::test::Fail;

fn red_resource(alloc: Global, number: u64, cacheable: bool) -> Result<Resource, NoMemory> {
    let key = EngineKey {
        url: Text::new(alloc, b"red")?,
        sig: Text::new(alloc, b"1")?,
        width: 2,
        height: 1,
        transform: Transform::Nothing,
        config: Config::Argb8888,
        rule: Rule::AtLeast,
    };
    let bitmap = Bitmap::make(alloc, number, 2, 1, Config::Argb8888)?;
    Ok(Resource::new(bitmap, key, cacheable))
}

// One more holds it, where there may be one more.
fn acquire(resource: &mut Resource) -> bool {
    if resource.count() == u32::MAX {
        return false;
    }
    resource.acquire();
    true
}

// One less holds it, where one does: whether that was the last.
fn release(resource: &mut Resource) -> Option<bool> {
    if resource.count() == 0 {
        return None;
    }
    Some(resource.release())
}

// Its bitmap's number, where nobody holds it.
fn number_at_end(resource: Resource) -> Option<u64> {
    if resource.count() > 0 {
        return None;
    }
    Some(resource.into_bitmap().number())
}

#[test]
fn is_released_by_the_last(rt: HostRuntime) -> Result<(), Fail> {
    let mut resource = red_resource(rt.alloc(), 7, true)?;
    assert_eq!(rt; (resource.number(), resource.count()), (7, 0));
    assert!(rt; resource.cacheable());
    assert_eq!(rt; release(&mut resource), None);
    assert!(rt; acquire(&mut resource));
    assert!(rt; acquire(&mut resource));
    assert_eq!(rt; release(&mut resource), Some(false));
    assert_eq!(rt; resource.count(), 1);
    assert_eq!(rt; resource.key().url.bytes(), b"red".as_slice());
    assert_eq!(rt; resource.bitmap().bytes().len(), 8);
    assert_eq!(rt; release(&mut resource), Some(true));
    assert_eq!(rt; number_at_end(resource), Some(7));
    Ok(())
}

// A number below a limit, and the next state of Knuth's generator of MMIX.
fn random_below(state: &mut u64, limit: u64) -> u64
    requires { 0 < limit }
{
    *state = state
        .wrapping_mul(6_364_136_223_846_793_005)
        .wrapping_add(1_442_695_040_888_963_407);
    (*state >> 33) % limit
}

fn same_release(resource: &mut Resource, holders: &mut Vec<u64>) -> bool {
    let last = match holders.pop() {
        None => None,
        Some(_) => Some(holders.is_empty()),
    };
    release(resource) == last
}

// One call of the resource beside a list of those that hold it, and whether they answered the same.
fn same_answer(
    resource: &mut Resource,
    holders: &mut Vec<u64>,
    state: &mut u64,
) -> Result<bool, Fail> {
    if random_below(state, 2) == 0 {
        holders.push(*state)?;
        return Ok(acquire(resource));
    }
    Ok(same_release(resource, holders))
}

// 100 calls; then each holder releases it, and it gives its bitmap back where none is left.
fn same_run(alloc: Global, number: u64, state: &mut u64) -> Result<bool, Fail> {
    let mut resource = red_resource(alloc, number, false)?;
    let mut holders = Vec::new(alloc);
    for _ in 0..100 {
        if !same_answer(&mut resource, &mut holders, state)? {
            return Ok(false);
        }
        if resource.count() as usize != holders.len() {
            return Ok(false);
        }
    }
    for _ in 0..101 {
        if !same_release(&mut resource, &mut holders) {
            return Ok(false);
        }
    }
    Ok(!resource.cacheable() && number_at_end(resource) == Some(number))
}

#[test]
fn random_calls_answer_as_a_plain_list(rt: HostRuntime) -> Result<(), Fail> {
    let mut state = 2_026;
    for number in 0..100 {
        assert!(rt; same_run(rt.alloc(), number, &mut state)?);
    }
    Ok(())
}
