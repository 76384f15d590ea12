// Counts on worked examples: these contracts are proved by computing the definitions, and no code is run.
ghost use Rattle.std.specs.Prelude.{[], ◌∷◌};
ghost use Rattle.engine_resource.specs.Uses.Use.{acquire, release};
ghost use Rattle.engine_resource.specs.Worked.{Counts, MayBe, MayNotBe};

// Uses from the first to the last, and what the count is then.
fn worked_counts()
    ensures made { Counts [] 0 }
    ensures one { Counts (acquire ∷ []) 1 }
    ensures one_of_two { Counts (acquire ∷ acquire ∷ release ∷ []) 1 }
    ensures last { Counts (acquire ∷ acquire ∷ release ∷ release ∷ []) 0 }
    ensures again { Counts (acquire ∷ release ∷ acquire ∷ []) 1 }
{}

// A release needs one that holds the resource.
fn worked_conditions()
    ensures held { MayBe (acquire ∷ release ∷ acquire ∷ release ∷ []) }
    ensures nobody { MayNotBe (release ∷ acquire ∷ []) }
    ensures too_many { MayNotBe (acquire ∷ release ∷ release ∷ []) }
{}
