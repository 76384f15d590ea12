// The groups over two vectors, which are walked.
ghost use Rattle.std.specs.Prelude.{◌≡◌, ℕ, ◌+◌, ◌-◌, ◌*◌, ◌^◌, ◌<◌, ◌≤◌, true, false, [], ◌∷◌, ◌++◌, length, drop, filter, slice_get, sum_by, IfOk, IfNone, IfSome, MatchOption, vec_capacity};
ghost use Rattle.std.specs.List.{list_any, HoldsAt};
ghost use Rattle.bitmap_pool.specs.Pool.{pool_size, pool_count, has_group, pool_trim, with_room, with_room_for, add_last, without_last, least_with, serving_size, pick_among, pick_at};
ghost use Rattle.bitmap_pool.specs.Evicting.{evict_one};
ghost use Rattle.bitmap_pool.specs.Limits.{AreApart};
ghost use Rattle.bitmap_kind.specs.Picture.{BitmapValue};
ghost use Rattle.bitmap_pool.specs.inside.GroupsView.{is_key, has_key, is_of, is_bare, serves, allocation_in};

use bitmap_kind::{Bitmap, Config};
use faults::NoMemory;
use std::alloc::Global;
use std::marker::Model;

/// The most bitmaps that a pool keeps, a limit of this project.
const MOST_BITMAPS: usize = 1024;

/// The most groups that a pool has, a limit of this project.
const MOST_GROUPS: usize = 2048;

/// What tells groups apart: the allocation size of the bitmaps, in bytes, and how their pixels are stored.
#[derive(Clone, Copy)]
pub struct GroupKey {
    size: u64,
    config: Config,
}

/// Groups from head to tail, each with its bitmaps in order of adding.
#[derive(Drop)]
pub struct Groups {
    keys: Vec<GroupKey>,
    bitmaps: Vec<Bitmap>,
}

impl Model for Groups {
    ghost use Rattle.std.specs.Prelude.{List};
    ghost use Rattle.bitmap_kind.specs.Picture.{BitmapValue};
    ghost use Rattle.bitmap_pool.specs.Pool.{Group};

    ghost Value = { List (Group BitmapValue) };

    ghost use Rattle.bitmap_pool.specs.inside.GroupsView.{groups_of, IsStored};

    ghost view = { λ s. groups_of s.keys.items s.bitmaps.items };

    ghost invariant = { IsStored };
}

fn is_key(key: GroupKey, size: u64, config: Config) -> bool
    ensures { result ≡ is_key size config key }
{
    key.size == size && key.config == config
}

fn is_of(bitmap: &Bitmap, size: u64, config: Config) -> bool
    ensures { result ≡ is_of size config bitmap.now }
{
    size == bitmap.allocation() && config == bitmap.config()
}

fn has_key(keys: &[GroupKey], size: u64, config: Config) -> bool
    ensures { result ≡ has_key size config keys.now }
{
    keys.iter().any(|key| is_key(*key, size, config))
}

fn has_bitmap(bitmaps: &[Bitmap], size: u64, config: Config) -> bool
    ensures { result ≡ list_any (is_of size config) bitmaps.now }
{
    bitmaps.iter().any(|bitmap| is_of(bitmap, size, config))
}

// The place of the last bitmap of a group.
fn last_bitmap(bitmaps: &[Bitmap], size: u64, config: Config) -> Option<usize>
    ensures { MatchOption result (list_any (is_of size config) bitmaps.now ≡ false)
        (λ i. (i < length bitmaps.now) × HoldsAt (λ b. is_of size config b ≡ true) bitmaps.now i
        × (list_any (is_of size config) (drop (i + 1) bitmaps.now) ≡ false)) }
{
    for i in (0..bitmaps.len()).rev() {
        if is_of(&bitmaps[i], size, config) {
            return Some(i);
        }
    }
    None
}

// Takes the bitmap of a group out that was added last.
fn take_last(bitmaps: &mut Vec<Bitmap>, size: u64, config: Config) -> Option<Bitmap>
    ensures value { let items = filter (is_of size config) bitmaps.old.items in
        result ≡ slice_get items (length items - 1) }
    ensures rest { bitmaps.new.items ≡ without_last (is_of size config) bitmaps.old.items }
    ensures none { IfNone result (list_any (is_of size config) bitmaps.old.items ≡ false) }
    ensures some { IfSome result (λ _. list_any (is_of size config) bitmaps.old.items ≡ true) }
    ensures kind { IfSome result (λ bitmap. is_of size config bitmap ≡ true) }
    ensures room { vec_capacity bitmaps.new ≡ vec_capacity bitmaps.old }
{
    let place = last_bitmap(bitmaps, size, config)?;
    Some(bitmaps.remove(place))
}

// The place of the group without a bitmap that is nearest the tail.
fn last_bare(keys: &[GroupKey], bitmaps: &[Bitmap]) -> Option<usize>
    ensures { MatchOption result (list_any (is_bare bitmaps.now) keys.now ≡ false)
        (λ i. (i < length keys.now) × HoldsAt (λ k. is_bare bitmaps.now k ≡ true) keys.now i
        × (list_any (is_bare bitmaps.now) (drop (i + 1) keys.now) ≡ false)) }
{
    for i in (0..keys.len()).rev() {
        let key = keys[i];
        if !has_bitmap(bitmaps, key.size, key.config) {
            return Some(i);
        }
    }
    None
}

// The bytes of all bitmaps.
fn total_of(bitmaps: &[Bitmap]) -> u128
    requires { length bitmaps.now ≤ 1025 }
    ensures { result ≡ sum_by allocation_in bitmaps.now }
{
    let mut total = 0;
    for bitmap in bitmaps {
        total += u128::from(bitmap.allocation());
    }
    total
}

// Whether a group may serve a wanted size: it has a bitmap of this config, large enough and at most 8 times as large.
fn serves(key: GroupKey, bitmaps: &[Bitmap], wanted: u64, config: Config) -> bool
    requires { 8 * wanted < 2 ^ 64 }
    ensures { result ≡ serves config wanted bitmaps.now key }
{
    key.config == config
        && has_bitmap(bitmaps, key.size, key.config)
        && wanted <= key.size
        && key.size <= 8 * wanted
}

// The lesser of a size and another, if there is another.
fn lesser(size: u64, least: Option<u64>) -> u64
    ensures { result ≡ least_with size least }
{
    match least {
        None => size,
        Some(other) => if other < size { other } else { size },
    }
}

impl Groups {
    /// No group, with room for as many groups and bitmaps as a pool may have.
    pub fn new(alloc: Global) -> Result<Groups, NoMemory>
        ensures { IfOk result (λ groups. groups ≡ []) }
    {
        Ok(Groups {
            keys: Vec::with_capacity(alloc, MOST_GROUPS + 1)?,
            bitmaps: Vec::with_capacity(alloc, MOST_BITMAPS + 1)?,
        })
    }

    /// The bytes of all bitmaps.
    pub fn size(&self) -> u128
        ensures size { result ≡ pool_size self.now }
        ensures apart { AreApart self.now }
        ensures few { length self.now ≤ 2048 }
    {
        total_of(&self.bitmaps)
    }

    /// How many bitmaps there are.
    pub fn count(&self) -> usize
        ensures count { result ≡ pool_count self.now }
        ensures few { pool_count self.now ≤ 1025 }
    {
        self.bitmaps.len()
    }

    // The tail group loses the bitmap that was added to it last, or goes where it has none.
    fn evict_one(&mut self)
        ensures { self.new ≡ evict_one self.old }
    {
        let groups = self.keys.len();
        if groups == 0 {
            return;
        }
        let tail = self.keys[groups - 1];
        if take_last(&mut self.bitmaps, tail.size, tail.config).is_none() {
            self.keys.pop();
        }
    }

    /// Evicts down to a size and to 1,024 bitmaps.
    pub fn evict(&mut self, room: u64)
        ensures groups { self.new ≡ pool_trim room self.old }
        ensures size { pool_size self.new ≤ room }
        ensures count { pool_count self.new ≤ 1024 }
    {
        while self.size() > u128::from(room) || self.count() > MOST_BITMAPS {
            self.evict_one();
        }
    }

    // Makes room for one group more: where there are 2,048, the empty one nearest the tail goes.
    fn make_room(&mut self)
        ensures groups { self.new ≡ with_room self.old }
        ensures room { length self.new < 2048 }
        ensures size { pool_size self.new ≡ pool_size self.old }
        ensures count { pool_count self.new ≡ pool_count self.old }
    {
        if self.keys.len() < MOST_GROUPS {
            return;
        }
        if let Some(place) = last_bare(&self.keys, &self.bitmaps) {
            self.keys.remove(place);
        }
    }

    // Makes room for a group of this size and config, where there is none yet.
    fn make_room_for(&mut self, size: u64, config: Config)
        ensures groups { self.new ≡ with_room_for size config self.old }
        ensures room { has_group size config self.new ≡ false → length self.new < 2048 }
        ensures size { pool_size self.new ≡ pool_size self.old }
        ensures count { pool_count self.new ≡ pool_count self.old }
    {
        if !has_key(&self.keys, size, config) {
            self.make_room();
        }
    }

    // Adds an empty group at the tail, where there is none of its size and config.
    fn add_group(&mut self, size: u64, config: Config)
        requires { has_group size config self.old ≡ false → length self.old < 2048 }
        ensures groups { (bitmap : BitmapValue) →
            add_last size config bitmap self.new ≡ add_last size config bitmap self.old }
        ensures there { has_group size config self.new ≡ true }
        ensures count { pool_count self.new ≡ pool_count self.old }
    {
        if !has_key(&self.keys, size, config) {
            self.keys.push_reserved(GroupKey { size, config });
        }
    }

    // Adds a bitmap last to its group.
    fn add_bitmap(&mut self, bitmap: Bitmap)
        requires there { has_group bitmap.allocation bitmap.picture.config self.old ≡ true }
        requires room { pool_count self.old ≤ 1024 }
        ensures { self.new ≡ add_last bitmap.allocation bitmap.picture.config bitmap self.old }
    {
        self.bitmaps.push_reserved(bitmap);
    }

    /// Adds a bitmap last to its group. A new group stands at the tail, a present one does not move.
    pub fn add(&mut self, bitmap: Bitmap)
        requires { pool_count self.old ≤ 1024 }
        ensures { let size = bitmap.allocation in let config = bitmap.picture.config in
            self.new ≡ add_last size config bitmap (with_room_for size config self.old) }
    {
        let size = bitmap.allocation();
        let config = bitmap.config();
        self.make_room_for(size, config);
        self.add_group(size, config);
        self.add_bitmap(bitmap);
    }

    // Brings the group of this size and config to the head, a new one too, and takes its last bitmap out.
    fn pick_from(&mut self, size: u64, config: Config) -> Option<Bitmap>
        requires { has_group size config self.old ≡ false → length self.old < 2048 }
        ensures found { result ≡ (pick_among size config self.old).found }
        ensures left { self.new ≡ (pick_among size config self.old).groups }
        ensures allocation { IfSome result (λ bitmap. bitmap.allocation ≡ size) }
        ensures size { pool_size self.new ≤ pool_size self.old }
        ensures count { pool_count self.new ≤ pool_count self.old }
    {
        self.keys.retain(|key| !is_key(*key, size, config));
        let _ = self.keys.insert(0, GroupKey { size, config });
        take_last(&mut self.bitmaps, size, config)
    }

    /// Brings the group of this size and config to the head, an empty or a new one too, and takes the bitmap out that was
    /// added to it last.
    pub fn pick(&mut self, size: u64, config: Config) -> Option<Bitmap>
        ensures found { result ≡ (pick_at size config self.old).found }
        ensures left { self.new ≡ (pick_at size config self.old).groups }
        ensures allocation { IfSome result (λ bitmap. bitmap.allocation ≡ size) }
        ensures size { pool_size self.new ≤ pool_size self.old }
        ensures count { pool_count self.new ≤ pool_count self.old }
    {
        self.make_room_for(size, config);
        self.pick_from(size, config)
    }

    /// The size of the group that serves a wanted size.
    pub fn serving_size(&self, wanted: u64, config: Config) -> u64
        requires { 8 * wanted < 2 ^ 64 }
        ensures size { result ≡ serving_size config wanted self.now }
        ensures low { wanted ≤ result }
        ensures high { result ≤ 8 * wanted }
    {
        let mut least = None;
        for key in &self.keys {
            if serves(*key, &self.bitmaps, wanted, config) {
                least = Some(lesser(key.size, least));
            }
        }
        least.unwrap_or(wanted)
    }
}
