// The cache over one vector, which is walked.
ghost use Rattle.std.specs.Prelude.{◌≡◌, ℕ, ◌-◌, ◌<◌, ◌≤◌, true, false, [], ◌∷◌, length, take, slice_get, sum_by, IfOk, IfNone};
ghost use Rattle.std.specs.Option.{option_map};
ghost use Rattle.memory_cache.specs.Cache.{is_too_large, is_above, is_over, given_up, left_after, number_in, size_in, has_number, without};

use faults::NoMemory;
use std::alloc::Global;
use std::marker::Model;

/// The most items that a cache keeps, a limit of this project.
const MOST_ITEMS: usize = 1024;

/// Numbers with their sizes in bytes, the most recent first, and the most that the sizes may be together. After `new` no
/// call takes memory.
#[derive(Drop)]
pub struct Cache {
    maximum: u64,
    items: Vec<(u64, u64)>,
}

impl Model for Cache {
    ghost use Rattle.memory_cache.specs.Cache.{CacheValue};

    ghost Value = { CacheValue };

    ghost use Rattle.memory_cache.specs.CacheView.{value_of, HasRoom};

    ghost view = { value_of };

    ghost invariant = { HasRoom };
}

// What the sizes are together.
fn total_of(items: &[(u64, u64)]) -> u128
    requires { length items.now ≤ 1025 }
    ensures { result ≡ sum_by size_in items.now }
{
    let mut total = 0;
    for item in items {
        total += u128::from(item.1);
    }
    total
}

impl Cache {
    /// A cache with no item, with room for as many as it may have.
    pub fn new(alloc: Global, maximum: u64) -> Result<Cache, NoMemory>
        ensures { IfOk result (λ cache. cache ≡ record { maximum = maximum; items = [] }) }
    {
        Ok(Cache {
            maximum,
            items: Vec::with_capacity(alloc, MOST_ITEMS + 1)?,
        })
    }

    /// The most that its sizes may be together, in bytes.
    pub fn maximum(&self) -> u64
        ensures { result ≡ self.now.maximum }
    {
        self.maximum
    }

    /// Whether a size is not to be put: it is at least the maximum.
    pub fn too_large(&self, size: u64) -> bool
        ensures { result ≡ is_too_large self.now.maximum size }
    {
        size >= self.maximum
    }

    /// Makes a number the most recent. The cache may be over afterwards, until `over` has answered None.
    pub fn put(&mut self, number: u64, size: u64)
        requires small { size < self.old.maximum }
        requires absent { has_number number self.old.items ≡ false }
        requires within { is_over size_in self.old.maximum self.old.items ≡ false }
        ensures { self.new ≡ record self.old { items = (number, size) ∷ self.old.items } }
    {
        let _ = self.items.insert(0, (number, size));
    }

    // Whether the sizes are together more than so many bytes.
    fn is_above(&self, size: u64) -> bool
        ensures { result ≡ is_above size_in size self.now.items }
    {
        total_of(&self.items) > u128::from(size)
    }

    // Takes the eldest out, if it is to go.
    fn give_up(&mut self, goes: bool) -> Option<u64>
        ensures value { result ≡ option_map number_in (given_up goes self.old.items) }
        ensures left { self.new ≡ record self.old { items = left_after goes self.old.items } }
        ensures none { IfNone result (goes ≡ true → self.old.items ≡ []) }
    {
        if !goes {
            return None;
        }
        let item = self.items.pop()?;
        Some(item.0)
    }

    /// Takes the eldest out and answers its number, exactly where the cache is over: its sizes are together more than the
    /// maximum, or it has more than 1,024 items.
    pub fn over(&mut self) -> Option<u64>
        ensures value { let goes = is_over size_in self.old.maximum self.old.items in
            result ≡ option_map number_in (given_up goes self.old.items) }
        ensures left { let goes = is_over size_in self.old.maximum self.old.items in
            self.new ≡ record self.old { items = left_after goes self.old.items } }
        ensures within { IfNone result (is_over size_in self.old.maximum self.old.items ≡ false) }
    {
        let goes = self.is_above(self.maximum) || self.items.len() > MOST_ITEMS;
        self.give_up(goes)
    }

    /// Takes a number out. It answers true exactly where the number was there.
    pub fn remove(&mut self, number: u64) -> bool
        ensures found { result ≡ has_number number self.old.items }
        ensures left { self.new ≡ record self.old { items = without number self.old.items } }
        ensures gone { has_number number self.new.items ≡ false }
    {
        let found = self.items.iter().any(|item| item.0 == number);
        self.items.retain(|item| item.0 != number);
        found
    }

    /// Takes the eldest out and answers its number, exactly where the sizes are together more than this size.
    pub fn trim(&mut self, size: u64) -> Option<u64>
        ensures value { let goes = is_above size_in size self.old.items in
            result ≡ option_map number_in (given_up goes self.old.items) }
        ensures left { let goes = is_above size_in size self.old.items in
            self.new ≡ record self.old { items = left_after goes self.old.items } }
        ensures within { IfNone result (is_above size_in size self.old.items ≡ false) }
    {
        let goes = self.is_above(size);
        self.give_up(goes)
    }

    /// Its numbers with their sizes, the most recent first.
    pub fn items(&self) -> &[(u64, u64)]
        ensures { result.now ≡ self.now.items }
    {
        &self.items
    }

    /// Sets the maximum. No item goes until `over` is called.
    pub fn set_max(&mut self, maximum: u64)
        ensures { self.new ≡ record self.old { maximum = maximum } }
    {
        self.maximum = maximum;
    }
}
