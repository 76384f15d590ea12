// The active numbers on worked examples: these contracts are proved by computing the definitions, and no code is run.
ghost use Rattle.std.specs.Prelude.{[], ◌∷◌, Some, None};
ghost use Rattle.active_resources.specs.Worked.{Holds, Lacks, CanBe, CannotBe, Leaves};

// Numbers 1 and 3 have the red key, number 2 another, and number 9 none.
fn worked_finds()
    ensures active { Holds (1 ∷ 2 ∷ []) 1 }
    ensures not_active { Lacks (2 ∷ []) 1 }
    ensures other_key { Lacks (1 ∷ 2 ∷ []) 2 }
{}

// What may be active together: no two numbers of one key, and none without a key.
fn worked_tables()
    ensures apart { CanBe (1 ∷ 2 ∷ []) }
    ensures one_key { CannotBe (1 ∷ 3 ∷ []) }
    ensures no_key { CannotBe (9 ∷ []) }
{}

// What is left where a number is activated: the one that it replaces goes.
fn worked_changes()
    ensures replaced { Leaves (1 ∷ 2 ∷ []) (Some 1) 3 (2 ∷ 3 ∷ []) }
    ensures beside { Leaves (2 ∷ []) None 3 (2 ∷ 3 ∷ []) }
{}
