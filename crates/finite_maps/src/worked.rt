// The words on worked entries, computed by the checker; no code is run.
ghost use Rattle.std.specs.Prelude.{◌≡◌, ℕ, ◌+◌, nat_lt, [], ◌∷◌, Some, None};
ghost use Rattle.finite_maps.specs.Maps.{sum_over, first_in};

fn worked_entries()
    ensures sum { sum_over {K = ℕ} (λ k v. k + v) ((1, 10) ∷ (2, 20) ∷ (5, 7) ∷ []) ≡ 45 }
    ensures nothing { sum_over {K = ℕ} (λ k v. k + v) [] ≡ 0 }
    ensures first { first_in {K = ℕ} (λ k v. nat_lt v 15) ((1, 20) ∷ (2, 10) ∷ (5, 7) ∷ []) ≡ Some 2 }
    ensures none { first_in {K = ℕ} (λ k v. nat_lt v 7) ((1, 20) ∷ (2, 10) ∷ (5, 7) ∷ []) ≡ None }
{}
