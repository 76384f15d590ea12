// The laws of the engine's world, each as the contract of a function that does nothing.
ghost use Rattle.engine_world.specs.declared.events.Event.{Event};
ghost use Rattle.engine_world.specs.RoomLaws.{KeepsLimits, OpensWithinLimits, NeedsNoMoreRoom, HistoriesKeepLimits};
ghost use Rattle.engine_world.specs.Laws.{KeepsSound, KeepsOpening, KeepsHolds, ReadyShowsItsKey, HasOnePlace, OnlyMadeHasPlace, TakesFree, TakesAnother, FindsActive, FindsCached, HistoriesAreSound, HistoriesBalance, HistoriesKeepHolds};

/// From a sound world, an event that its seat is permitted leaves a sound one.
pub fn each_event_keeps_sound()
    ensures { (event : Event) → KeepsSound event }
{}

/// No event changes the limits or the content.
pub fn each_event_keeps_opening()
    ensures { (event : Event) → KeepsOpening event }
{}

/// A load that is ready stays so, on the same resource with the same picture, until its owner releases it.
pub fn each_event_keeps_holds()
    ensures { (event : Event) → KeepsHolds event }
{}

/// A load that its owner was answered `Ready` for is ready on a resource of its key, with the key's picture where the
/// content is told.
pub fn ready_loads_show_their_keys()
    ensures { ReadyShowsItsKey }
{}

/// A bitmap that was made is out on one job, held, cached, pooled or recycled, and no two of these.
pub fn each_bitmap_has_one_place()
    ensures one { HasOnePlace }
    ensures made { OnlyMadeHasPlace }
{}

/// What a take answers was neither out nor held nor cached, and so has another number than the bitmaps that the job has.
pub fn taken_bitmaps_were_free()
    ensures free { TakesFree }
    ensures another { TakesAnother }
{}

/// The active resource of a key is the one that is active and has the key, and so is the cached one.
pub fn lookups_find_the_only_one()
    ensures active { FindsActive }
    ensures cached { FindsCached }
{}

/// Each world that a legal history leads to is sound, and its totals add up.
pub fn each_history_is_sound<M, R>()
    ensures sound { HistoriesAreSound M R }
    ensures balanced { HistoriesBalance M R }
{}

/// A load that is ready after a legal history is so, on the same resource with the same picture, after each later one
/// without its owner's release of it.
pub fn each_history_keeps_holds<M, R>()
    ensures { HistoriesKeepHolds M R }
{}

/// Counts, loads and jobs keep to their limits through each event that its seat is permitted, and do so at the beginning.
pub fn each_event_keeps_limits()
    ensures event { (event : Event) → KeepsLimits event }
    ensures opening { OpensWithinLimits }
{}

/// Each world that a legal history leads to is within its limits.
pub fn each_history_keeps_limits<M, R>()
    ensures { HistoriesKeepLimits M R }
{}

/// A sound world within its limits needs no more room than the quotas of its seats say.
pub fn rooms_suffice()
    ensures { NeedsNoMoreRoom }
{}
