// The pool, which keeps its groups within its limits.
ghost use Rattle.std.specs.Prelude.{◌≡◌, ◌*◌, ◌≤◌, [], IfOk, IfSome};
ghost use Rattle.std.specs.Option.{option_map};
ghost use Rattle.bitmap_kind.specs.Picture.{stored_size, IsSize};
ghost use Rattle.bitmap_pool.specs.Limits.{IsPool};
ghost use Rattle.bitmap_pool.specs.Pool.{pool_size, pool_count, pool_trim, put_into, picked_from, dirty_from, left_from, erased};

use crate::groups::Groups;
use bitmap_kind::{Bitmap, Config};
use faults::NoMemory;
use std::alloc::Global;
use std::marker::Model;

/// Bitmaps that nothing uses, in groups of one allocation size and one config, and the most bytes that they may have
/// together. After `new` no call takes memory. A bitmap that is not kept is dropped.
#[derive(Drop)]
pub struct Pool {
    maximum: u64,
    groups: Groups,
}

impl Model for Pool {
    ghost use Rattle.bitmap_pool.specs.Pool.{PoolValue};

    ghost Value = { PoolValue };

    ghost use Rattle.bitmap_pool.specs.PoolView.{value_of, IsWithin};

    ghost view = { value_of };

    ghost invariant = { IsWithin };
}

impl Pool {
    /// A pool with no group, with room for as many groups and bitmaps as it may have.
    pub fn new(alloc: Global, maximum: u64) -> Result<Pool, NoMemory>
        ensures { IfOk result (λ pool. pool ≡ record { maximum = maximum; groups = [] }) }
    {
        Ok(Pool {
            maximum,
            groups: Groups::new(alloc)?,
        })
    }

    /// The most that its bitmaps may have together, in bytes.
    pub fn maximum(&self) -> u64
        ensures { result ≡ self.now.maximum }
    {
        self.maximum
    }

    /// Keeps a bitmap, unless it is larger than the maximum. It is added last to its group; a new group stands at the tail,
    /// and a present one does not move. Then what does not fit goes: of the tail group the bitmap that was added last.
    pub fn put(&mut self, bitmap: Bitmap)
        ensures { self.new ≡ put_into self.old bitmap }
    {
        if bitmap.allocation() <= self.maximum {
            self.groups.add(bitmap);
            self.groups.evict(self.maximum);
        }
    }

    /// Takes a bitmap out that has memory for these sides and this config, with any bytes, and sees it so. It is of the least
    /// pooled size that is large enough and at most 8 times as large, and the last that was added of that size; None comes
    /// exactly where there is none. The group of that size, or else of the wanted size, comes to the head, an empty or a
    /// new one too.
    pub fn get_dirty(&mut self, width: u32, height: u32, config: Config) -> Option<Bitmap>
        requires { IsSize width height }
        ensures found { result ≡ dirty_from self.old width height config }
        ensures left { self.new ≡ left_from self.old width height config }
        ensures low { IfSome result (λ b. stored_size width height config ≤ b.allocation) }
        ensures high { IfSome result (λ b. b.allocation ≤ 8 * stored_size width height config) }
        ensures allocation { IfSome result (λ b.
            b.allocation ≡ (picked_from self.old width height config).size) }
    {
        let wanted = u64::from(width) * u64::from(height) * config.pixel_bytes() as u64;
        let size = self.groups.serving_size(wanted, config);
        let mut bitmap = self.groups.pick(size, config)?;
        bitmap.reconfigure(width, height, config);
        Some(bitmap)
    }

    /// The same with all stored bytes 0.
    pub fn get(&mut self, width: u32, height: u32, config: Config) -> Option<Bitmap>
        requires { IsSize width height }
        ensures found { result ≡ option_map erased (dirty_from self.old width height config) }
        ensures left { self.new ≡ left_from self.old width height config }
        ensures low { IfSome result (λ b. stored_size width height config ≤ b.allocation) }
        ensures high { IfSome result (λ b. b.allocation ≤ 8 * stored_size width height config) }
    {
        let mut bitmap = self.get_dirty(width, height, config)?;
        bitmap.erase();
        Some(bitmap)
    }

    /// Keeps what fits within a size, counted from the head.
    pub fn trim_to(&mut self, size: u64)
        ensures { self.new ≡ record self.old { groups = pool_trim size self.old.groups } }
    {
        if size < self.maximum {
            self.groups.evict(size);
        }
    }

    /// Keeps no bitmap.
    pub fn clear(&mut self)
        ensures { self.new ≡ record self.old { groups = pool_trim 0 self.old.groups } }
    {
        self.trim_to(0);
    }

    /// Sets the maximum, and keeps what fits within it.
    pub fn set_max(&mut self, maximum: u64)
        ensures { self.new ≡ record { maximum = maximum; groups = pool_trim maximum self.old.groups } }
    {
        self.groups.evict(maximum);
        self.maximum = maximum;
    }

    /// The bytes of all bitmaps. After each call the pool is within its limits: its bytes are at most the maximum, and it
    /// has at most 1,024 bitmaps and 2,048 groups.
    pub fn size(&self) -> u64
        ensures size { result ≡ pool_size self.now.groups }
        ensures within { IsPool self.now.maximum self.now.groups }
    {
        let size = self.groups.size();
        prove!(size <= u128::from(self.maximum));
        size as u64
    }

    /// How many bitmaps there are.
    pub fn count(&self) -> usize
        ensures { result ≡ pool_count self.now.groups }
    {
        self.groups.count()
    }
}
