// The steps on worked examples: these contracts are proved by computing the definitions, and no code is run.
ghost use Rattle.std.specs.Prelude.{true, false};
ghost use Rattle.cache_key.specs.Room.{empty_spec};
ghost use Rattle.engine_world.specs.declared.events.Event.TheVariants as events;
ghost use Rattle.engine_world.specs.declared.events.NotedReply.TheVariants as replies;
ghost use Rattle.engine_world.specs.Steps.{Transition};
ghost use Rattle.engine_world.specs.Worked.{spec, start, a_loaded, b_loaded, b_runs, both_run, of_kind, bitmap, lent, r0, r1, r2, r3, r4, r5, r6, r7, r8, r9, r10, r11, r12};

use bitmap_kind::Config;
use cache_key::Priority;

// A third load is more than the quota of two; the job of the higher priority starts first, then the other, then none.
fn worked_priorities()
    ensures low { Transition start 0 (events.Load (spec 1 Priority.Low)) (replies.Started 0) a_loaded }
    ensures normal { Transition a_loaded 0 (events.Load (spec 2 Priority.Normal))
        (replies.Started 1) b_loaded }
    ensures full { Transition b_loaded 0 (events.Load (spec 3 Priority.Normal)) replies.Full b_loaded }
    ensures higher { Transition b_loaded 1 (events.NextJob empty_spec)
        (replies.Job 1 (spec 2 Priority.Normal)) b_runs }
    ensures lower { Transition b_runs 2 (events.NextJob empty_spec)
        (replies.Job 0 (spec 1 Priority.Low)) both_run }
    ensures none { Transition both_run 0 (events.NextJob empty_spec) replies.Idle both_run }
{}

// Loads of one key and of both kinds have a job each, and each job takes a new bitmap.
fn worked_both_kinds()
    ensures first { Transition r0 0 (events.Load (of_kind false)) (replies.Started 0) r1 }
    ensures second { Transition r1 0 (events.Load (of_kind true)) (replies.Started 1) r2 }
    ensures first_runs { Transition r2 1 (events.NextJob empty_spec) (replies.Job 0 (of_kind false)) r3 }
    ensures second_runs { Transition r3 2 (events.NextJob empty_spec) (replies.Job 1 (of_kind true)) r4 }
    ensures first_takes { Transition r4 1 (events.Take 0 1 1 Config.Argb8888)
        (replies.Taken (lent 0)) r5 }
    ensures second_takes { Transition r5 2 (events.Take 1 1 1 Config.Argb8888)
        (replies.Taken (lent 1)) r6 }
{}

// The second result of the key replaces the first, which stays held. Its release caches it and leaves the other active, which
// the next load holds; the other's last release caches that one in its place, and pools it.
fn worked_release_of_replaced()
    ensures first { Transition r6 1 (events.Finish 0 (bitmap 0)) replies.Done r7 }
    ensures second { Transition r7 2 (events.Finish 1 (bitmap 1)) replies.Done r8 }
    ensures replaced { Transition r8 0 (events.Release 0) replies.Done r9 }
    ensures active { Transition r9 0 (events.Load (of_kind false)) replies.Ready r10 }
    ensures one_of_two { Transition r10 0 (events.Release 1) replies.Done r11 }
    ensures last { Transition r11 0 (events.Release 2) replies.Done r12 }
{}
