// The worked rows, the limits, and random calls beside plain lists.
ghost use Rattle.std.specs.Prelude.{ℕ, ◌≡◌, ◌+◌, ◌*◌, ◌^◌, ◌<◌, ◌≤◌, IfOk, vec_len};

use crate::Pool;
use bitmap_kind::{Bitmap, Config};
use faults::NoMemory;
use std::alloc::Global;
use std::test::Fail;

// A bitmap of so many pixels in a row.
fn row(alloc: Global, number: u64, width: u32, config: Config) -> Result<Bitmap, NoMemory>
    requires low { 1 ≤ width }
    requires high { width ≤ 16384 }
    ensures width { IfOk result (λ b. b.picture.width ≡ width) }
    ensures height { IfOk result (λ b. b.picture.height ≡ 1) }
{
    Bitmap::make(alloc, number, width, 1, config)
}

// The number of a bitmap that was given, or 0.
fn number_of(bitmap: Option<Bitmap>) -> u64 {
    match bitmap {
        None => 0,
        Some(bitmap) => bitmap.number(),
    }
}

#[test]
fn keeps_what_is_as_large_as_its_maximum(rt: HostRuntime) -> Result<(), Fail> {
    let mut pool = Pool::new(rt.alloc(), 400)?;
    pool.put(row(rt.alloc(), 1, 100, Config::Argb8888)?);
    assert_eq!(rt; pool.size(), 400);
    let mut pool = Pool::new(rt.alloc(), 400)?;
    pool.put(row(rt.alloc(), 1, 101, Config::Argb8888)?);
    assert_eq!(rt; pool.size(), 0);
    Ok(())
}

#[test]
fn gives_the_least_that_is_large_enough(rt: HostRuntime) -> Result<(), Fail> {
    let mut pool = Pool::new(rt.alloc(), 10_000)?;
    pool.put(row(rt.alloc(), 1, 100, Config::Argb8888)?);
    pool.put(row(rt.alloc(), 2, 825, Config::Argb8888)?);
    assert!(rt; pool.get_dirty(103, 1, Config::Argb8888).is_none());
    let bitmap = pool.get_dirty(13, 8, Config::Argb8888);
    assert!(rt; bitmap.is_some());
    if let Some(bitmap) = bitmap {
        assert_eq!(rt; (bitmap.number(), bitmap.allocation()), (2, 3_300));
        assert_eq!(rt; (bitmap.width(), bitmap.height()), (13, 8));
    }
    assert_eq!(rt; pool.size(), 400);
    pool.trim_to(400);
    assert_eq!(rt; pool.size(), 400);
    assert_eq!(rt; pool.count(), 1);
    pool.set_max(399);
    assert_eq!(rt; pool.maximum(), 399);
    assert_eq!(rt; pool.size(), 0);
    pool.clear();
    assert_eq!(rt; pool.count(), 0);
    Ok(())
}

#[test]
fn evicts_the_newest_group(rt: HostRuntime) -> Result<(), Fail> {
    let mut pool = Pool::new(rt.alloc(), 10)?;
    pool.put(row(rt.alloc(), 1, 1, Config::Argb8888)?);
    pool.put(row(rt.alloc(), 2, 2, Config::Argb8888)?);
    assert_eq!(rt; pool.size(), 4);
    assert_eq!(rt; number_of(pool.get(1, 1, Config::Argb8888)), 1);
    Ok(())
}

#[test]
fn erases_what_it_gives(rt: HostRuntime) -> Result<(), Fail> {
    let mut pool = Pool::new(rt.alloc(), 100)?;
    let mut bitmap = row(rt.alloc(), 1, 3, Config::Alpha8)?;
    bitmap.put_row(0, &[0, 0, 0, 7, 0, 0, 0, 8, 0, 0, 0, 9]);
    pool.put(bitmap);
    let bitmap = pool.get(2, 1, Config::Alpha8);
    assert!(rt; bitmap.is_some());
    if let Some(bitmap) = bitmap {
        assert_eq!(rt; bitmap.bytes(), [0, 0].as_slice());
    }
    Ok(())
}

// The limit on bitmaps: 1,024 stay, and of one more the last that was added goes.
#[test]
fn keeps_as_many_bitmaps_as_its_limit(rt: HostRuntime) -> Result<(), Fail> {
    let mut pool = Pool::new(rt.alloc(), 1_000_000)?;
    for number in 1..1_025 {
        pool.put(row(rt.alloc(), number, 1, Config::Alpha8)?);
        assert_eq!(rt; pool.size(), number);
    }
    pool.put(row(rt.alloc(), 1_025, 1, Config::Alpha8)?);
    assert_eq!(rt; pool.size(), 1_024);
    assert_eq!(rt; number_of(pool.get_dirty(1, 1, Config::Alpha8)), 1_024);
    Ok(())
}

// The limit on groups: look-ups make 2,048 of them; of one more the empty one nearest the tail goes, and the full one stays.
#[test]
fn keeps_as_many_groups_as_its_limit(rt: HostRuntime) -> Result<(), Fail> {
    let mut pool = Pool::new(rt.alloc(), 1_000_000)?;
    pool.put(row(rt.alloc(), 1, 1, Config::Argb8888)?);
    for width in 1..2_048 {
        assert!(rt; pool.get_dirty(width, 1, Config::Alpha8).is_none());
    }
    pool.put(row(rt.alloc(), 2, 3_000, Config::Alpha8)?);
    assert!(rt; pool.get_dirty(4_000, 1, Config::Alpha8).is_none());
    assert_eq!(rt; pool.size(), 3_004);
    assert_eq!(rt; number_of(pool.get_dirty(1, 1, Config::Argb8888)), 1);
    assert_eq!(rt; number_of(pool.get_dirty(3_000, 1, Config::Alpha8)), 2);
    Ok(())
}

// A group of plain numbers. Each of its bitmaps has Argb8888, or else Alpha8.
#[derive(Drop)]
struct PlainGroup {
    size: u64,
    argb: bool,
    numbers: Vec<u64>,
}

// Groups from the head.
#[derive(Drop)]
struct PlainPool {
    maximum: u64,
    groups: Vec<PlainGroup>,
}

impl PlainPool {
    fn size(&self) -> u64 {
        let mut size: u64 = 0;
        for group in &self.groups {
            size = size.wrapping_add(group.size.wrapping_mul(group.numbers.len() as u64));
        }
        size
    }

    fn evict_one(&mut self) -> Result<(), Fail> {
        if let Some(mut group) = self.groups.pop() {
            if group.numbers.pop().is_some() {
                self.groups.push(group)?;
            }
        }
        Ok(())
    }

    fn evict(&mut self, room: u64) -> Result<(), Fail> {
        for _ in 0..1_000 {
            if self.size() <= room {
                return Ok(());
            }
            self.evict_one()?;
        }
        Ok(())
    }

    // The group of this size, taken out, or a new one, and the place where it was.
    fn take_group(
        &mut self,
        alloc: Global,
        size: u64,
        argb: bool,
    ) -> Result<(usize, PlainGroup), Fail>
        ensures { IfOk result (λ taken. taken.0 ≤ vec_len self.new.groups) }
    {
        for i in 0..self.groups.len() {
            let group = &self.groups[i];
            if group.size == size && group.argb == argb {
                return Ok((i, self.groups.remove(i)));
            }
        }
        let group = PlainGroup {
            size,
            argb,
            numbers: Vec::new(alloc),
        };
        Ok((self.groups.len(), group))
    }

    fn put(&mut self, alloc: Global, number: u64, size: u64, argb: bool) -> Result<(), Fail> {
        if size > self.maximum {
            return Ok(());
        }
        let (place, mut group) = self.take_group(alloc, size, argb)?;
        group.numbers.push(number)?;
        self.groups.insert(place, group)?;
        self.evict(self.maximum)
    }

    fn serving_size(&self, wanted: u64, argb: bool) -> u64 {
        let mut best = 0;
        for group in &self.groups {
            let large_enough = group.argb == argb
                && group.size >= wanted
                && group.size / 8 <= wanted;
            let fits = large_enough && (group.size % 8 == 0 || group.size / 8 < wanted);
            if fits && !group.numbers.is_empty() && (best == 0 || group.size < best) {
                best = group.size;
            }
        }
        if best == 0 { wanted } else { best }
    }

    // The number that is given, or 0.
    fn get(&mut self, alloc: Global, wanted: u64, argb: bool) -> Result<u64, Fail> {
        let size = self.serving_size(wanted, argb);
        let (_, mut group) = self.take_group(alloc, size, argb)?;
        let number = group.numbers.pop().unwrap_or(0);
        self.groups.insert(0, group)?;
        Ok(number)
    }
}

// A number below a limit, and the next state of Knuth's generator of MMIX.
fn random_below(state: &mut u64, limit: u64) -> u64
    requires { 0 < limit }
    ensures { result < limit }
{
    *state = state
        .wrapping_mul(6_364_136_223_846_793_005)
        .wrapping_add(1_442_695_040_888_963_407);
    (*state >> 33) % limit
}

// A pool and the plain lists beside it, how many bitmaps were made, and the state of the generator.
#[derive(Drop)]
struct Both {
    pool: Pool,
    plain: PlainPool,
    made: u64,
    state: u64,
}

impl Both {
    fn new(alloc: Global, state: u64) -> Result<Both, Fail> {
        Ok(Both {
            pool: Pool::new(alloc, 500)?,
            plain: PlainPool {
                maximum: 500,
                groups: Vec::new(alloc),
            },
            made: 0,
            state,
        })
    }

    fn put(&mut self, alloc: Global, width: u32, argb: bool) -> Result<(), Fail>
        requires low { 1 ≤ width }
        requires high { width ≤ 200 }
    {
        self.made = self.made.wrapping_add(1);
        let config = if argb {
            Config::Argb8888
        } else {
            Config::Alpha8
        };
        let bitmap = row(alloc, self.made, width, config)?;
        let size = bitmap.allocation();
        self.pool.put(bitmap);
        self.plain.put(alloc, self.made, size, argb)
    }

    // Whether both give the same.
    fn gives_same(&mut self, alloc: Global, width: u32, argb: bool) -> Result<bool, Fail>
        requires low { 1 ≤ width }
        requires high { width ≤ 200 }
    {
        let number = if argb {
            number_of(self.pool.get_dirty(width, 1, Config::Argb8888))
        } else {
            number_of(self.pool.get(width, 1, Config::Alpha8))
        };
        let wanted = if argb {
            4 * u64::from(width)
        } else {
            u64::from(width)
        };
        Ok(number == self.plain.get(alloc, wanted, argb)?)
    }

    // One call of both, and whether they answered the same.
    fn same_answer(&mut self, alloc: Global) -> Result<bool, Fail> {
        let call = random_below(&mut self.state, 40);
        let argb = random_below(&mut self.state, 2) == 0;
        let width = 1 + random_below(&mut self.state, 40) as u32;
        let size = random_below(&mut self.state, 600);
        match call {
            0 => {
                self.pool.set_max(size);
                self.plain.maximum = size;
                self.plain.evict(size)?;
            }
            1 => {
                self.pool.clear();
                self.plain.evict(0)?;
            }
            2..=4 => {
                self.pool.trim_to(size);
                self.plain.evict(size)?;
            }
            5..=20 => {
                return self.gives_same(alloc, width, argb);
            }
            _ => self.put(alloc, width, argb)?,
        }
        Ok(self.pool.size() == self.plain.size())
    }

    // Whether all that is left comes out in the same order.
    fn ends_same(&mut self, alloc: Global) -> Result<bool, Fail> {
        for width in 1..41 {
            for _ in 0..3 {
                if !self.gives_same(alloc, width, true)? || !self.gives_same(alloc, width, false)? {
                    return Ok(false);
                }
            }
        }
        Ok(true)
    }
}

#[test]
fn random_calls_answer_as_plain_lists(rt: HostRuntime) -> Result<(), Fail> {
    for seed in 0..100 {
        let mut both = Both::new(rt.alloc(), seed)?;
        for _ in 0..100 {
            assert!(rt; both.same_answer(rt.alloc())?);
        }
        assert!(rt; both.ends_same(rt.alloc())?);
    }
    Ok(())
}
