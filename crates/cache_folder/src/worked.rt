// The definitions on worked journals and steps: these contracts are proved by computing them, and no code is run.
ghost use Rattle.std.specs.Prelude.{◌≡◌, ◌++◌, [], ◌∷◌, ℕ, List, Some, None, codes};
ghost use Rattle.journal_lines.specs.Journal.{header};
ghost use Rattle.cache_folder.specs.Offered.{first_text, replay_of, clean_pair};
ghost use Rattle.cache_folder.specs.Steps.{Doubt, Commit, Restore, Use, Drop, all_stepped, offers};

// A journal with a last line that has no newline, an empty one, one of another version and one with a bad line. The text of
// `journal` stands before that of `journal.bkp`.
fn worked_journals()
    ensures replay { replay_of (Some (header ++ codes "DIRTY k1\nCLEAN k1 3\nDIRTY k2\nREMOVE k2\nDIRTY k3\nREAD k1\n"))
        ≡ Some ((codes "k3", None) ∷ (codes "k1", Some 3) ∷ []) }
    ensures cut { replay_of (Some (header ++ codes "DIRTY k\nCLEAN k 12")) ≡ Some ((codes "k", None) ∷ []) }
    ensures empty { replay_of (Some []) ≡ None }
    ensures version { replay_of (Some (codes "libcore.io.DiskLruCache\n1\n2\n1\n\nCLEAN k 3\n")) ≡ None }
    ensures bad { replay_of (Some (header ++ codes "CLEAN k 3\nCLEAN k 012\n")) ≡ None }
    ensures first { first_text (Some (codes "a")) (Some (codes "b")) ≡ Some (codes "a") }
    ensures second { first_text None (Some (codes "b")) ≡ Some (codes "b") }
{}

// A file of another length than its line says is not offered.
fn worked_lengths()
    ensures same { clean_pair (codes "k") 3 (Some (codes "abc")) ≡ (codes "k", codes "abc") ∷ [] }
    ensures longer { clean_pair (codes "k") 3 (Some (codes "abcd")) ≡ [] }
    ensures missing { clean_pair (codes "k") 3 None ≡ [] }
{}

// Two edits, one committed and one given up, and a second edit of the first key that is given up: it is offered again. While
// it is under edit it is not.
fn worked_steps()
    ensures restored { offers {V = List ℕ} (all_stepped [] (Doubt (codes "a") ∷ Commit (codes "a") (1 ∷ 2 ∷ []) ∷ Doubt (codes "b") ∷ Drop (codes "b") ∷ Doubt (codes "a") ∷ Restore (codes "a") ∷ []))
        ≡ (codes "a", 1 ∷ 2 ∷ []) ∷ [] }
    ensures doubted { offers {V = List ℕ} (all_stepped [] (Commit (codes "a") (1 ∷ []) ∷ Commit (codes "b") (2 ∷ []) ∷ Doubt (codes "a") ∷ []))
        ≡ (codes "b", 2 ∷ []) ∷ [] }
    ensures used { offers {V = List ℕ} (all_stepped [] (Commit (codes "a") (1 ∷ []) ∷ Commit (codes "b") (2 ∷ []) ∷ Use (codes "a") ∷ Use (codes "c") ∷ []))
        ≡ (codes "b", 2 ∷ []) ∷ (codes "a", 1 ∷ []) ∷ [] }
{}
