// The cache on worked examples: these contracts are proved by computing the definitions, and no code is run.
ghost use Rattle.std.specs.Prelude.{◌≡◌, [], ◌∷◌, Some, None, true, false, length, replicate};
ghost use Rattle.memory_cache.specs.Cache.{is_too_large, is_over, size_in, cache_kept, has_number, without};
ghost use Rattle.memory_cache.specs.Worked.{Cuts, GivesUp};

// A size that is as large as the maximum is too large; the eldest goes while the cache is over, and one that is just within
// stays.
fn worked_cache()
    ensures as_large { is_too_large 400 400 ≡ true }
    ensures smaller { is_too_large 400 396 ≡ false }
    ensures within { GivesUp ((1, 396) ∷ []) 400 None ((1, 396) ∷ []) }
    ensures just { GivesUp ((2, 4) ∷ (1, 396) ∷ []) 400 None ((2, 4) ∷ (1, 396) ∷ []) }
    ensures over { GivesUp ((2, 100) ∷ (1, 396) ∷ []) 400 (Some (1, 396)) ((2, 100) ∷ []) }
    ensures no_more { GivesUp ((2, 100) ∷ []) 400 None ((2, 100) ∷ []) }
    ensures cut { Cuts ((2, 100) ∷ (1, 396) ∷ []) 400 ((2, 100) ∷ []) ((1, 396) ∷ []) }
    ensures eldest_first { Cuts ((3, 100) ∷ (2, 100) ∷ (1, 100) ∷ []) 100
        ((3, 100) ∷ []) ((1, 100) ∷ (2, 100) ∷ []) }
{}

// A number is taken out wherever it stands, and the others stay in their order.
fn worked_removal()
    ensures there { has_number 2 ((3, 100) ∷ (2, 7) ∷ (1, 100) ∷ []) ≡ true }
    ensures absent { has_number 100 ((3, 100) ∷ (2, 7) ∷ (1, 100) ∷ []) ≡ false }
    ensures left { without 2 ((3, 100) ∷ (2, 7) ∷ (1, 100) ∷ []) ≡ (3, 100) ∷ (1, 100) ∷ [] }
{}

// The limit on items: 1,024 of them are not too many, and one more is; it is then cut to 1,024.
fn worked_limit()
    ensures at { is_over size_in 9 (replicate 1024 (7, 0)) ≡ false }
    ensures past { is_over size_in 9 (replicate 1025 (7, 0)) ≡ true }
    ensures cut { length (cache_kept size_in 9 (replicate 1025 (7, 0))) ≡ 1024 }
{}
