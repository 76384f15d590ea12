// The definitions on worked tables: these contracts are proved by computing them, and no code is run.
ghost use Rattle.std.specs.Prelude.{◌≡◌, [], ◌∷◌, Some, None, true, false, codes};
ghost use lib.ListN.{replicate};
ghost use Rattle.journal_lines.specs.declared.lines.Line.TheVariants.{Dirty, Clean, Read, Remove};
ghost use Rattle.disk_table.specs.Table.{fold, no_entries, after_line, opened, closed, edit_of, free_edit, eldest_over, is_over, is_due, has_room_for};
ghost use Rattle.disk_table.specs.UseOrder.{used, without, newest};
ghost use Rattle.disk_table.specs.Worked.{one_entry, two_entries};

// What the lines of a journal leave: k1 was committed, k2 was removed, and the edit of k3 was not ended. A line of REMOVE of
// an unknown key, and of READ of one, changes no entry.
fn worked_replay()
    ensures rest { fold (Dirty (codes "k1") ∷ Clean (codes "k1") 3 ∷ Dirty (codes "k2") ∷ Remove (codes "k2")
        ∷ Dirty (codes "k3") ∷ Read (codes "k1") ∷ [])
        ≡ Some ((codes "k3", None) ∷ (codes "k1", Some 3) ∷ []) }
    ensures unknown { fold (Read (codes "a") ∷ Clean (codes "b") 1 ∷ Remove (codes "c") ∷ [])
        ≡ Some ((codes "b", Some 1) ∷ []) }
    ensures last_decides { fold (Clean (codes "a") 1 ∷ Clean (codes "b") 2 ∷ Clean (codes "a") 7
        ∷ Dirty (codes "b") ∷ [])
        ≡ Some ((codes "a", Some 7) ∷ (codes "b", None) ∷ []) }
{}

// The least number that no open edit has, and none where 16 are open.
fn worked_edits()
    ensures first { free_edit (replicate 16 None) ≡ Some 0 }
    ensures gap { free_edit (Some (codes "a") ∷ None ∷ Some (codes "b") ∷ None ∷ []) ≡ Some 1 }
    ensures all { free_edit (replicate 16 (Some (codes "a"))) ≡ None }
    ensures open { edit_of (codes "b") (Some (codes "a") ∷ None ∷ Some (codes "b") ∷ []) ≡ Some 2 }
    ensures closed { edit_of (codes "c") (Some (codes "a") ∷ None ∷ Some (codes "b") ∷ []) ≡ None }
{}

// A cache of at most 5 bytes: k is committed with 3 bytes, an edit of k is given up, and m is committed with 3 bytes. Then k
// is the eldest, and has to go; while k is under edit it is m.
fn worked_eviction()
    ensures order { let one = after_line (Clean (codes "k") 3) no_entries in
        let two = closed (codes "k") 0 (Some 3) (opened (codes "k") 0 one) in
        (after_line (Clean (codes "m") 3) two).entries ≡ (codes "k", Some 3) ∷ (codes "m", Some 3) ∷ [] }
    ensures lines { let one = after_line (Clean (codes "k") 3) no_entries in
        (closed (codes "k") 0 (Some 3) (opened (codes "k") 0 one)).lines ≡ 3 }
    ensures goes { eldest_over 5 (two_entries (replicate 16 None)) ≡ Some (codes "k") }
    ensures stays { eldest_over 6 (two_entries (replicate 16 None)) ≡ None }
    ensures under_edit { eldest_over 5 (two_entries (Some (codes "k") ∷ None ∷ [])) ≡ Some (codes "m") }
    ensures none { eldest_over 5 (one_entry 6 (Some (codes "k") ∷ None ∷ []) 4) ≡ None }
    ensures within { is_over 5 ((codes "k", Some 3) ∷ (codes "n", None) ∷ (codes "m", Some 2) ∷ [])
        ≡ false }
{}

// A rebuild is due from 2,000 redundant lines on.
fn worked_due()
    ensures due { is_due (one_entry 3 [] 2001) ≡ true }
    ensures one_less { is_due (one_entry 3 [] 2000) ≡ false }
    ensures fewer_lines { is_due (one_entry 3 [] 0) ≡ false }
{}
