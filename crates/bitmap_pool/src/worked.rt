// The pool on worked examples: these contracts are proved by computing the definitions, and no code is run.
ghost use Rattle.std.specs.Prelude.{◌≡◌, [], ◌∷◌, Some, None, length, replicate};
ghost use Rattle.bitmap_pool.specs.Pool.{pool_trim, pool_count, with_room};
ghost use Rattle.bitmap_pool.specs.Worked.{argb, Gives, Puts};

// What a pool keeps: a bitmap of its greatest size, and none that is larger; the newest group is evicted first, and the group that
// this empties stays; a bitmap joins its group, which does not move.
fn worked_puts()
    ensures as_large { Puts [] 400 400 7 (argb 400 (7 ∷ []) ∷ []) }
    ensures larger { Puts [] 400 404 7 [] }
    ensures newest { Puts (argb 4 (1 ∷ []) ∷ []) 10 8 2 (argb 4 (1 ∷ []) ∷ argb 8 [] ∷ []) }
    ensures joined { Puts (argb 4 (1 ∷ []) ∷ argb 8 (2 ∷ []) ∷ []) 100 4 3
        (argb 4 (1 ∷ 3 ∷ []) ∷ argb 8 (2 ∷ []) ∷ []) }
    ensures from_the_tail { Puts (argb 4 (1 ∷ []) ∷ argb 8 (2 ∷ []) ∷ []) 15 4 3
        (argb 4 (1 ∷ 3 ∷ []) ∷ argb 8 [] ∷ []) }
    ensures empty_met { Puts (argb 4 (1 ∷ 3 ∷ []) ∷ argb 8 [] ∷ []) 11 4 5 (argb 4 (1 ∷ 3 ∷ []) ∷ []) }
    ensures cleared { pool_trim 0 (argb 4 [] ∷ argb 8 (2 ∷ []) ∷ argb 2 (3 ∷ []) ∷ []) ≡
        argb 4 [] ∷ argb 8 [] ∷ [] }
{}

// What a look-up gives: the least size that is large enough and at most 8 times as large, the bitmap that was added last; its
// group comes to the head, also an empty or a new one.
fn worked_picks()
    ensures too_small { Gives (argb 400 (1 ∷ []) ∷ argb 3300 (2 ∷ []) ∷ []) 412 None
        (argb 412 [] ∷ argb 400 (1 ∷ []) ∷ argb 3300 (2 ∷ []) ∷ []) }
    ensures large_enough { Gives (argb 400 (1 ∷ []) ∷ argb 3300 (2 ∷ []) ∷ []) 416 (Some 2)
        (argb 3300 [] ∷ argb 400 (1 ∷ []) ∷ []) }
    ensures least { Gives (argb 64 (3 ∷ []) ∷ argb 16 (1 ∷ 2 ∷ []) ∷ argb 32 (4 ∷ []) ∷ []) 10 (Some 2)
        (argb 16 (1 ∷ []) ∷ argb 64 (3 ∷ []) ∷ argb 32 (4 ∷ []) ∷ []) }
    ensures empty_passed_over { Gives (argb 16 [] ∷ argb 32 (4 ∷ []) ∷ []) 16 (Some 4)
        (argb 32 [] ∷ argb 16 [] ∷ []) }
    ensures empty_moved { Gives (argb 4 (1 ∷ []) ∷ argb 64 [] ∷ []) 64 None
        (argb 64 [] ∷ argb 4 (1 ∷ []) ∷ []) }
{}

// The limits: with 2,047 groups one more has room, with 2,048 an empty one goes first; 1,024 bitmaps stay, and of one more
// the last goes.
fn worked_limits()
    ensures below { length (with_room (replicate 2047 (argb 4 []))) ≡ 2047 }
    ensures at { length (with_room (replicate 2048 (argb 4 []))) ≡ 2047 }
    ensures as_many { pool_count (pool_trim 9000 (argb 4 (replicate 1024 7) ∷ [])) ≡ 1024 }
    ensures one_more { pool_count (pool_trim 9000 (argb 4 (replicate 1025 7) ∷ [])) ≡ 1024 }
{}
