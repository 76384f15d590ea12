// The jobs on worked examples: these contracts are proved by computing the definitions, and no code is run.
ghost use Rattle.std.specs.Prelude.{[], ◌∷◌, Some, None, true, false};
ghost use Rattle.job_table.specs.Worked.{waits, runs, was_cancelled, StartsNext, Joins, CancelLeaves};

use cache_key::Priority;

// The first priority starts first, and the least number of these; what runs does not start again.
fn worked_queue()
    ensures first { StartsNext ((0, waits Priority.Low) ∷ (1, waits Priority.Normal) ∷ []) (Some 1) }
    ensures then { StartsNext ((0, waits Priority.Low) ∷ (1, runs Priority.Normal) ∷ []) (Some 0) }
    ensures no_more { StartsNext ((0, runs Priority.Low) ∷ (1, was_cancelled Priority.Normal) ∷ []) None }
    ensures equal { StartsNext ((3, waits Priority.High) ∷ (5, waits Priority.High) ∷ []) (Some 3) }
    ensures at_once { StartsNext ((3, waits Priority.High) ∷ (5, waits Priority.Immediate) ∷ []) (Some 5) }
{}

// A load joins the job of its key and kind, whether that runs or not, and none that was cancelled.
fn worked_joins()
    ensures waiting { Joins false ((4, waits Priority.Low) ∷ []) (Some 4) }
    ensures running { Joins false ((4, runs Priority.Low) ∷ []) (Some 4) }
    ensures other_kind { Joins true ((4, waits Priority.Low) ∷ []) None }
    ensures cancelled { Joins false ((4, was_cancelled Priority.Low) ∷ []) None }
    ensures beside { Joins false ((4, was_cancelled Priority.Low) ∷ (6, waits Priority.High) ∷ []) (Some 6) }
{}

// A queued job goes, and a running one is marked.
fn worked_cancel()
    ensures queued { CancelLeaves ((1, runs Priority.Low) ∷ (2, waits Priority.Low) ∷ []) 2
        ((1, runs Priority.Low) ∷ []) }
    ensures running { CancelLeaves ((1, runs Priority.Low) ∷ (2, waits Priority.Low) ∷ []) 1
        ((1, was_cancelled Priority.Low) ∷ (2, waits Priority.Low) ∷ []) }
{}
