// The moves themselves on worked views: these contracts are proved by computing the definitions, and no code is run.
ghost use Rattle.std.specs.Prelude.{◌≡◌, [], ◌∷◌, codes, true, false, Some, None};
ghost use Rattle.request_tracker.specs.declared.views.Act.TheVariants as acts;
ghost use Rattle.request_tracker.specs.declared.views.ViewState.TheVariants.{Cleared, Waiting, Running, Complete, Failed, Paused};
ghost use Rattle.request_tracker.specs.Table.{request};
ghost use Rattle.request_tracker.specs.Moves.{names, place_of, state_at, load_move, layout_move, clear_move, act_move, can_load};
ghost use Rattle.request_tracker.specs.Worked.{red, red_sized, red_unsized, with_size, without_size, after_layout, after_end, Makes, tracked_up_to, three_loads};

// Loads: each drops the hold that is there and begins, where it is not paused and its size is known.
fn worked_loads()
    ensures new { Makes (load_move false red_sized) (with_size Cleared) (with_size Running) false true }
    ensures again { Makes (load_move false red_sized) (with_size Complete) (with_size Running) true true }
    ensures failed { Makes (load_move false red_sized) (with_size (Failed 7)) (with_size Running) false true }
    ensures paused { Makes (load_move true red_sized) (with_size Running) (with_size Paused) true false }
    ensures sizeless { Makes (load_move false red_unsized) (with_size Running) (without_size Waiting) true false }
    ensures laid_out { Makes (load_move false red_unsized) (after_layout 2 1 Cleared) (after_layout 2 1 Running) false true }
{}

// Layouts: only a view that waits begins.
fn worked_layouts()
    ensures waits { Makes (layout_move 2 1) (without_size Waiting) (after_layout 2 1 Running) false true }
    ensures runs { Makes (layout_move 4 3) (after_layout 2 1 Running) (after_layout 4 3 Running) false false }
    ensures complete { Makes (layout_move 4 3) (after_layout 2 1 Complete) (after_layout 4 3 Complete) false false }
    ensures failed { Makes (layout_move 2 1) (without_size (Failed 7)) (after_layout 2 1 (Failed 7)) false false }
    ensures paused { Makes (layout_move 2 1) (without_size Paused) (after_layout 2 1 Paused) false false }
    ensures survives_clear { Makes clear_move (after_layout 2 1 Complete) (after_layout 2 1 Cleared) true false }
{}

// Pauses: `Pause` leaves a complete view, and `PauseAll` does not.
fn worked_pauses()
    ensures waits { Makes (act_move acts.Pause) (without_size Waiting) (without_size Paused) false false }
    ensures runs { Makes (act_move acts.Pause) (with_size Running) (with_size Paused) true false }
    ensures complete { Makes (act_move acts.Pause) (with_size Complete) (with_size Complete) false false }
    ensures failed { Makes (act_move acts.PauseAll) (with_size (Failed 7)) (with_size (Failed 7)) false false }
    ensures all_complete { Makes (act_move acts.PauseAll) (with_size Complete) (with_size Paused) true false }
    ensures all_cleared { Makes (act_move acts.PauseAll) (with_size Cleared) (with_size Cleared) false false }
{}

// `Resume` begins what is paused or has failed.
fn worked_resumes()
    ensures paused { Makes (act_move acts.Resume) (with_size Paused) (with_size Running) false true }
    ensures failed { Makes (act_move acts.Resume) (with_size (Failed 7)) (with_size Running) false true }
    ensures sizeless { Makes (act_move acts.Resume) (without_size Paused) (without_size Waiting) false false }
    ensures complete { Makes (act_move acts.Resume) (with_size Complete) (with_size Complete) false false }
    ensures cleared { Makes (act_move acts.Resume) (with_size Cleared) (with_size Cleared) false false }
    ensures clears_all { Makes (act_move acts.ClearAll) (with_size Paused) (with_size Cleared) false false }
{}

// Sizes that are asked for, and ends of loads.
fn worked_ends()
    ensures named { request (with_size Running) ≡ red }
    ensures laid_out { request (after_layout 2 1 Running) ≡ red }
    ensures comes { after_end None Running ≡ Complete }
    ensures fails { after_end (Some 7) Running ≡ Failed 7 }
    ensures stays { after_end (Some 7) Complete ≡ Complete }
{}

// Places in order of first load, and the most views that there may be.
fn worked_places()
    ensures order { names three_loads.views ≡ codes "a" ∷ codes "b" ∷ [] }
    ensures place { place_of (codes "b") three_loads.views ≡ Some 1 }
    ensures unknown { place_of (codes "c") three_loads.views ≡ None }
    ensures last_ask { state_at 0 three_loads.views ≡ Some Waiting }
    ensures one_more { can_load (codes "ab") (tracked_up_to 4095) ≡ true }
    ensures too_many { can_load (codes "ab") (tracked_up_to 4096) ≡ false }
    ensures not_new { can_load (1 ∷ []) (tracked_up_to 4096) ≡ true }
{}
