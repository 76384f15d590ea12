//! What fits within a limit on bytes and one on items, counted from the first item: the one rule by which the bitmap pool
//! and the memory cache keep what they keep. There is no code in it but its law.
#![tactic(auto)]

ghost use Rattle.std.specs.Prelude.{◌≡◌, [], ◌∷◌};
ghost use Rattle.fitting.specs.Fitting.{fitting};
ghost use Rattle.fitting.specs.Prefixes.{AllFit, PrefixFits};

/// All fit exactly where they are within both limits; and of a prefix so many fit as it has, but no more than of the whole.
pub fn prefixes_fit<T>()
    ensures all { AllFit T }
    ensures prefix { PrefixFits T }
{}

// The definition on worked sizes: a size that is just left fits, one byte more does not, and nothing fits after it; a slot
// is needed besides; what takes no bytes takes a slot.
fn worked_sizes()
    ensures just { fitting (λ x. x) 10 5 (4 ∷ 6 ∷ 1 ∷ []) ≡ 2 }
    ensures one_more { fitting (λ x. x) 10 5 (4 ∷ 7 ∷ 1 ∷ []) ≡ 1 }
    ensures all { fitting (λ x. x) 11 3 (4 ∷ 6 ∷ 1 ∷ []) ≡ 3 }
    ensures no_slot { fitting (λ x. x) 11 2 (4 ∷ 6 ∷ 1 ∷ []) ≡ 2 }
    ensures no_bytes { fitting (λ x. x) 0 2 (0 ∷ 0 ∷ 0 ∷ []) ≡ 2 }
{}
