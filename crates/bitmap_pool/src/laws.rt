// Laws of the definitions, each as the contract of a function that does nothing.
ghost use Rattle.bitmap_pool.specs.Evicting.{EvictionsEnd, NoEviction};
ghost use Rattle.bitmap_pool.specs.Limits.{PutsKeep, PicksKeep, TrimsKeep};
ghost use Rattle.bitmap_pool.specs.Numbered.{PutsAlike, TrimsAlike, PicksAlike};

/// Evicting one by one ends in what fits from the head, and a pool that is not over stays as it is.
pub fn evictions_end_in_what_fits<T>()
    ensures ends { EvictionsEnd T }
    ensures stays { NoEviction T }
{}

/// A pool of bitmaps and the pool of their numbers do the same.
pub fn numbers_stand_for_bitmaps()
    ensures puts { PutsAlike }
    ensures trims { TrimsAlike }
    ensures picks { PicksAlike }
{}

/// A pool's groups stay apart and within its limits, whatever its bitmaps are: its bytes are at most the maximum, and it
/// has at most 1,024 bitmaps and 2,048 groups.
pub fn pools_stay_within_limits<T>()
    ensures puts { PutsKeep T }
    ensures picks { PicksKeep T }
    ensures trims { TrimsKeep T }
{}
