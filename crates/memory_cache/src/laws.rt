// What the engine's loops over the cache come to, each as the contract of a function that does nothing.
ghost use Rattle.memory_cache.specs.Evicting.{EldestGoes, NoneGoes};

/// Taking the eldest out while the cache is over ends in what fits from the most recent, and gives up what does not, the
/// eldest first.
pub fn eldest_goes_first<T>()
    ensures over { EldestGoes T }
    ensures within { NoneGoes T }
{}
