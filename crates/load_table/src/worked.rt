// Loads on worked examples: these contracts are proved by computing the definitions, and no code is run.
ghost use Rattle.std.specs.Prelude.{[], ◌∷◌};
ghost use Rattle.load_table.specs.declared.loads.LoadState.TheVariants.{Waiting, Ready, Failed};
ghost use Rattle.load_table.specs.Worked.{Ends, with_resource, with_cause};

// Loads that wait on the job come to what it ended with; those of other jobs, and those that have ended, stay.
fn worked_ends()
    ensures ready { Ends 4 (with_resource 9)
        (Waiting 4 ∷ Waiting 5 ∷ Waiting 4 ∷ []) (Ready 9 ∷ Waiting 5 ∷ Ready 9 ∷ []) }
    ensures failed { Ends 4 (with_cause 2) (Waiting 4 ∷ Waiting 5 ∷ []) (Failed 2 ∷ Waiting 5 ∷ []) }
    ensures ended { Ends 4 (with_cause 2) (Ready 4 ∷ Failed 4 ∷ []) (Ready 4 ∷ Failed 4 ∷ []) }
{}
