// The counted resource.
ghost use Rattle.std.specs.Prelude.{◌≡◌, ◌+◌, ◌-◌, ◌<◌, ◌↔◌, IsTrue};

use bitmap_kind::Bitmap;
use cache_key::EngineKey;
use std::marker::Model;

/// A bitmap with its key, whether the memory cache may keep it, and how many hold it.
#[derive(Drop)]
pub struct Resource {
    bitmap: Bitmap,
    key: EngineKey,
    cacheable: bool,
    count: u32,
}

impl Model for Resource {
    ghost use Rattle.engine_resource.specs.Resource.{ResourceValue};

    ghost Value = { ResourceValue };

    ghost view = { λ s. record { bitmap = s.bitmap; key = s.key; cacheable = s.cacheable; count = s.count } };
}

impl Resource {
    /// A resource that nobody holds yet.
    pub fn new(bitmap: Bitmap, key: EngineKey, cacheable: bool) -> Resource
        ensures { result ≡ record { bitmap = bitmap; key = key; cacheable = cacheable; count = 0 } }
    {
        Resource {
            bitmap,
            key,
            cacheable,
            count: 0,
        }
    }

    /// One more holds it.
    pub fn acquire(&mut self)
        requires { self.old.count < 4294967295 }
        ensures { self.new ≡ record self.old { count = self.old.count + 1 } }
    {
        self.count += 1;
    }

    /// One less holds it. It answers true exactly where nobody holds it any more.
    pub fn release(&mut self) -> bool
        requires { 0 < self.old.count }
        ensures count { self.new ≡ record self.old { count = self.old.count - 1 } }
        ensures last { IsTrue result ↔ (self.old.count ≡ 1) }
    {
        self.count -= 1;
        self.count == 0
    }

    /// Its number, which is its bitmap's.
    pub fn number(&self) -> u64
        ensures { result ≡ self.now.bitmap.number }
    {
        self.bitmap.number()
    }

    /// The key that it was loaded for.
    pub fn key(&self) -> &EngineKey
        ensures { result.now ≡ self.now.key }
    {
        &self.key
    }

    /// Its bitmap, to be read.
    pub fn bitmap(&self) -> &Bitmap
        ensures { result.now ≡ self.now.bitmap }
    {
        &self.bitmap
    }

    /// Whether the memory cache may keep it.
    pub fn cacheable(&self) -> bool
        ensures { result ≡ self.now.cacheable }
    {
        self.cacheable
    }

    /// How many hold it.
    pub fn count(&self) -> u32
        ensures { result ≡ self.now.count }
    {
        self.count
    }

    /// Its bitmap, to be used again. Nobody holds it any more.
    pub fn into_bitmap(self) -> Bitmap
        requires { self.count ≡ 0 }
        ensures { result ≡ self.bitmap }
    {
        let Resource { bitmap, .. } = self;
        bitmap
    }
}
