// Worked histories: these contracts are proved by computing the definitions, and no code is run.
ghost use Rattle.std.specs.Prelude.{◌≡◌, [], ◌∷◌, codes};
ghost use Rattle.fetch_bounds.specs.Follows.{Follows};
ghost use Rattle.fetch_bounds.specs.Costs.{cached_begins, source_starts, source_runs, failed_jobs};
ghost use Rattle.fetch_bounds.specs.Failures.{fails_in, HasFailed};
ghost use Rattle.fetch_bounds.specs.Worked.{dump_events, dump_history, failed_history, red_failure, red_spec};

// Two loads of one picture have one job, which another seat runs; then both are told, one is printed, and both are dropped.
fn worked_dump()
    ensures follows { Follows [] dump_events dump_history }
    ensures started { source_starts dump_history ≡ 1 }
    ensures run { source_runs dump_history ≡ 1 }
    ensures cached { cached_begins dump_events ≡ 0 }
    ensures none_failed { fails_in dump_history ≡ [] }
    ensures no_address { failed_jobs dump_history ≡ [] }
{}

// Where its source fails, one job fails both loads.
fn worked_failure()
    ensures failed { fails_in failed_history ≡ red_failure ∷ [] }
    ensures has { HasFailed red_spec.key red_spec.cached red_failure.cause (fails_in failed_history) }
    ensures address { failed_jobs failed_history ≡ (codes "red", codes "1") ∷ [] }
    ensures run { source_runs failed_history ≡ 1 }
{}
