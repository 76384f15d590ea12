// The laws of callers, each as the contract of a function that calls the laws that it follows from.
ghost use Rattle.engine_shared.specs.CallLaws.{ShowsItsPicture, ShowsOnePicture, StepsAreCalls, LoadsAreAnswered, CollectsAreAnswered, LooksAreAnswered, ReadsAreAnswered, TakesAreAnswered, FullExactly, LoadsAreOwn, JobsAreOwn, TakesAnother, TakesAsAsked, ReadyLoadsShow, LooksAtIt, ReadsIt, LoadsStay, ReadyLoadsStay, LoadsAreCounted, OthersCountNone, JobsStay, JobsEnd};
ghost use Rattle.engine_shared.specs.inside.EngineLaws.{EngineLaws};

use engine_core::{Core, Reply};
use engine_world::{
    Note, each_event_keeps_opening, each_history_is_sound, each_history_keeps_holds,
    ready_loads_show_their_keys, taken_bitmaps_were_free,
};
use state_machine::{legal_histories_grow, own_entries_append, steps_append};

// The laws of the engine's world and of histories that the laws of callers follow from.
fn engine_laws()
    ensures { EngineLaws }
{
    each_history_is_sound::<Core, Reply>();
    each_history_keeps_holds::<Core, Reply>();
    ready_loads_show_their_keys();
    each_event_keeps_opening();
    own_entries_append::<Note>();
    steps_append::<Core>();
    legal_histories_grow::<Core>();
}

/// A load that its caller was answered `Ready` for shows the picture of its key, where the content is told, and one picture
/// until its caller releases it.
pub fn holds_show_one_picture()
    ensures right { ShowsItsPicture }
    ensures one { ShowsOnePicture }
{
    engine_laws();
}

/// From a legal history, the steps of others and then one of the caller's that it is permitted are a call.
pub fn calls_add_entries()
    ensures { StepsAreCalls }
{
    engine_laws();
}

/// Each call has one of the replies that its answer has a word for.
pub fn calls_are_answered()
    ensures loads { LoadsAreAnswered }
    ensures collects { CollectsAreAnswered }
    ensures looks { LooksAreAnswered }
    ensures reads { ReadsAreAnswered }
    ensures takes { TakesAreAnswered }
{
    engine_laws();
}

/// What the contracts of the calls say besides of loads, jobs and bitmaps follows from the entries that they add. Callers use
/// the last two: what they have stays so through calls whose contracts say nothing of it.
pub fn calls_tell_what_they_add()
    ensures full { FullExactly }
    ensures loads { LoadsAreOwn }
    ensures jobs { JobsAreOwn }
    ensures takes { TakesAnother }
    ensures asked { TakesAsAsked }
    ensures ready { ReadyLoadsShow }
    ensures looks { LooksAtIt }
    ensures reads { ReadsIt }
    ensures stay { LoadsStay }
    ensures stay_ready { ReadyLoadsStay }
{
    engine_laws();
    taken_bitmaps_were_free();
}

/// How many loads a caller made that were not `Full`, and which job it runs, after each call. Callers use it where a call asks
/// that they run no job, or that they made few loads.
pub fn calls_leave_the_rest()
    ensures counts { LoadsAreCounted }
    ensures others { OthersCountNone }
    ensures stay { JobsStay }
    ensures end { JobsEnd }
{}
