// The numbers in one vector, which is walked.
ghost use Rattle.std.specs.Prelude.{◌≡◌, ℕ, ◌<◌, ◌↔◌, true, false, not, ◌==◌, List, filter, Some, None, nat_eq, vec_capacity, IfOk, IsSome};
ghost use Rattle.std.specs.List.{list_any, find};
ghost use Rattle.std.specs.FinMap.{get};
ghost use Rattle.std.specs.FinSet.{contains, len, empty, insert, remove};
ghost use Rattle.cache_key.specs.KeyOf.{KeyMap};
ghost use Rattle.active_resources.specs.Actives.{ActiveValue, Fits, TellsIt, NobodyHas, activated};
ghost use Rattle.active_resources.specs.inside.Numbers.{AllKnown, has_key, others, left_of};

use cache_key::{EngineKey, KeyOf, same_key_is_equality};
use faults::NoMemory;
use std::alloc::Global;
use std::marker::Model;

#[cfg(test)]
mod tests;

/// The numbers of the active resources. After `new` no call takes memory.
#[derive(Drop)]
pub struct Active {
    room: usize,
    numbers: Vec<u64>,
}

impl Model for Active {
    ghost use Rattle.std.specs.Coded.{codes};
    ghost use Rattle.std.specs.FinMap as map;
    ghost use Rattle.active_resources.specs.Actives.{ActiveValue};

    ghost Value = { ActiveValue };

    ghost coded = { Prim.hlevel (codes, map.code) };

    ghost use Rattle.active_resources.specs.ActiveView.{value_of, IsTable};

    ghost view = { value_of };

    ghost invariant = { IsTable };
}

// The first of these numbers that has this key.
fn first_with<R: KeyOf>(numbers: &[u64], keys: &R, key: &EngineKey) -> Option<u64>
    requires known { AllKnown (R.keys keys.now) numbers.now }
    ensures { result ≡ find (has_key (R.keys keys.now) key.now) numbers.now }
{
    for number in numbers {
        if keys.key(*number).is(key) {
            return Some(*number);
        }
    }
    None
}

// Takes a number out, wherever it stands.
fn take_out(numbers: &mut Vec<u64>, number: u64)
    ensures items { numbers.new.items ≡ others number numbers.old.items }
    ensures capacity { vec_capacity numbers.new ≡ vec_capacity numbers.old }
{
    numbers.retain(|n| *n != number);
}

// Takes a number out, if there is one to take.
fn take_out_replaced(numbers: &mut Vec<u64>, replaced: Option<u64>)
    ensures items { numbers.new.items ≡ left_of replaced numbers.old.items }
    ensures capacity { vec_capacity numbers.new ≡ vec_capacity numbers.old }
{
    if let Some(number) = replaced {
        take_out(numbers, number);
    }
}

impl Active {
    /// A table with no number, with room for so many.
    pub fn new(alloc: Global, room: usize) -> Result<Active, NoMemory>
        ensures empty { IfOk result (λ active. active ≡ record { room = room; numbers = empty }) }
        ensures fits { IfOk result (λ active. (keys : KeyMap) → Fits keys active.numbers) }
    {
        Ok(Active {
            room,
            numbers: Vec::with_capacity(alloc, room)?,
        })
    }

    /// The active number that has this key.
    pub fn find<R: KeyOf>(&self, keys: &R, key: &EngineKey) -> Option<u64>
        requires fits { Fits (R.keys keys.now) self.now.numbers }
        ensures it { TellsIt (R.keys keys.now) (Some key.now) self.now.numbers result }
        ensures none { (result ≡ None) ↔ NobodyHas (R.keys keys.now) (Some key.now) self.now.numbers }
    {
        same_key_is_equality();
        first_with(&self.numbers, keys, key)
    }

    /// Makes a number active. Another number of the same key is active no longer, and is answered.
    pub fn activate<R: KeyOf>(&mut self, keys: &R, number: u64) -> Option<u64>
        requires room { len self.old.numbers < self.old.room }
        requires fits { Fits (R.keys keys.now) self.old.numbers }
        requires known { IsSome (get (R.keys keys.now) number) }
        requires absent { contains self.old.numbers number ≡ false }
        ensures it { let keys = R.keys keys.now in
            TellsIt keys (get keys number) self.old.numbers result }
        ensures none { let keys = R.keys keys.now in
            (result ≡ None) ↔ NobodyHas keys (get keys number) self.old.numbers }
        ensures active { self.new ≡ activated result number self.old }
        ensures fits { Fits (R.keys keys.now) self.new.numbers }
    {
        same_key_is_equality();
        let replaced = first_with(&self.numbers, keys, keys.key(number));
        take_out_replaced(&mut self.numbers, replaced);
        let _ = self.numbers.push(number);
        replaced
    }

    /// Makes this very number active no longer: another of its key stays. It answers true exactly where it was active.
    pub fn deactivate_same(&mut self, number: u64) -> bool
        ensures found { result ≡ contains self.old.numbers number }
        ensures left { self.new ≡ record self.old { numbers = remove self.old.numbers number } }
        ensures fits { (keys : KeyMap) → Fits keys self.old.numbers → Fits keys self.new.numbers }
    {
        let found = self.numbers.contains(&number);
        take_out(&mut self.numbers, number);
        found
    }
}
