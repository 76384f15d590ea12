// The definitions on worked values.
ghost use Rattle.std.specs.Prelude.{◌≡◌, ℕ, [], ◌∷◌};
ghost use Rattle.state_machine.specs.Histories.{entry, own};

// The definition itself, computed where the tests are proved.
fn worked_own_entries()
    ensures none { own {N = ℕ} 2 (entry 0 10 ∷ entry 1 20 ∷ entry 0 30 ∷ []) ≡ [] }
    ensures one { own {N = ℕ} 1 (entry 0 10 ∷ entry 1 20 ∷ entry 0 30 ∷ []) ≡ entry 1 20 ∷ [] }
    ensures in_order { own {N = ℕ} 0 (entry 0 10 ∷ entry 1 20 ∷ entry 0 30 ∷ []) ≡ entry 0 10 ∷ entry 0 30 ∷ [] }
{}

#[test]
fn own_entries_are_as_worked(_rt: HostRuntime) {
    worked_own_entries();
}
