// The walk itself on worked scripts: these contracts are proved by computing the definitions; no code is run.
ghost use Rattle.std.specs.Prelude.{◌≡◌, [], ◌∷◌, ◌++◌, Some, None, true, false, codes};
ghost use Rattle.load_cause.specs.declared.causes.Cause.TheVariants as causes;
ghost use Rattle.script_lines.specs.declared.commands.Command.TheVariants.{Load, Layout, Clear, ClearAll, Pause, PauseAll, Resume, Trim, Wait, Show, Dump};
ghost use Rattle.script_lines.specs.declared.commands.Line.TheVariants.{Says, Empty, Unreadable};
ghost use Rattle.printed_lines.specs.Printed.{FailedLine, WaitingLine, PausedLine, ClearedLine};
ghost use Rattle.script_walk.specs.Walk.{Known, Made, can_obey};
ghost use Rattle.script_walk.specs.Marks.{no_marks};
ghost use Rattle.script_walk.specs.Worked.{a, b, load, load_skip, load_cached, red_a, red_b, none_a, sizeless_a, says, Gives, Prints, Asks, EndsWith, shown, dumped, eight, first_fails, names_up_to};

// A picture, a refusal, two loads of one picture, and one shown again.
fn worked_loads()
    ensures first { Prints (red_a ∷ says (Dump a ∷ [])) (dumped a ∷ []) 1 }
    ensures missing { Prints (none_a ∷ says (Dump a ∷ [])) (FailedLine a causes.Missing ∷ []) 1 }
    ensures joined { Prints (red_a ∷ red_b ∷ says (Dump a ∷ Dump b ∷ [])) (dumped a ∷ dumped b ∷ []) 1 }
    ensures again { Gives no_marks 0 (red_a ∷ says (Show ∷ Show ∷ Dump a ∷ []))
        (shown a ∷ shown a ∷ dumped a ∷ []) 1 }
    ensures skips { Prints (red_a ∷ says (Clear a ∷ []) ++ red_a ∷ says (Wait ∷ []) ++ load_skip b (codes "red") ∷ says (Wait ∷ []))
        [] 3 }
    ensures cached { Prints (load_cached a (codes "red") ∷ says (Show ∷ [])) (shown a ∷ []) 0 }
{}

// Pictures one by one, with a memory cache and without: 8 times their 64 bytes have to be below its size.
fn worked_memory()
    ensures forgotten { Gives no_marks 0 (eight ++ eight) [] 16 }
    ensures remembered { Prints (eight ++ eight) [] 8 }
    ensures as_large { Gives no_marks 512 (eight ++ eight) [] 16 }
    ensures below { Gives no_marks 513 (eight ++ eight) [] 8 }
    ensures trimmed { Prints (eight ++ says (Trim 0 ∷ []) ++ eight) [] 16 }
{}

// Pauses, and what resumes: a failed view begins once more.
fn worked_pauses()
    ensures running { Prints (red_a ∷ says (Pause ∷ Show ∷ Resume ∷ Dump a ∷ []))
        (PausedLine a ∷ dumped a ∷ []) 2 }
    ensures complete { Prints (red_a ∷ says (Wait ∷ Pause ∷ Show ∷ Resume ∷ Dump a ∷ []))
        (shown a ∷ dumped a ∷ []) 1 }
    ensures all { Prints (red_a ∷ says (Wait ∷ PauseAll ∷ Show ∷ Resume ∷ Dump a ∷ []))
        (PausedLine a ∷ dumped a ∷ []) 1 }
    ensures loads { Prints (says (Pause ∷ []) ++ red_a ∷ says (Show ∷ Resume ∷ Show ∷ []))
        (PausedLine a ∷ shown a ∷ []) 1 }
    ensures resumes_failed { Gives first_fails 1000 (red_a ∷ says (Show ∷ Resume ∷ Show ∷ []))
        (FailedLine a causes.Source ∷ shown a ∷ []) 2 }
    ensures resumes_missing { Prints (none_a ∷ says (Show ∷ Resume ∷ Show ∷ []))
        (FailedLine a causes.Missing ∷ FailedLine a causes.Missing ∷ []) 2 }
    ensures resumes_two { Gives no_marks 0 (says (Pause ∷ []) ++ red_a ∷ red_b ∷ says (Resume ∷ Show ∷ []))
        (shown a ∷ shown b ∷ []) 1 }
{}

// Layouts: a view that waits begins. In any other only the size is kept; it counts at the next begin, and survives a
// clear.
fn worked_layouts()
    ensures waits { Prints (sizeless_a ∷ says (Show ∷ Layout a 2 1 ∷ Dump a ∷ []))
        (WaitingLine a ∷ dumped a ∷ []) 1 }
    ensures kept { Prints (red_a ∷ says (Wait ∷ Layout a 4 3 ∷ Show ∷ [])) (shown a ∷ []) 1 }
    ensures counts_later { Asks (sizeless_a ∷ says (Layout a 2 1 ∷ Wait ∷ Layout a 4 3 ∷ PauseAll ∷ Resume ∷ []))
        ((2, 1) ∷ (4, 3) ∷ []) }
    ensures named { Asks (red_a ∷ says (Layout a 4 3 ∷ PauseAll ∷ Resume ∷ [])) ((2, 1) ∷ (2, 1) ∷ []) }
    ensures survives_clear { Asks (sizeless_a ∷ says (Layout a 2 1 ∷ Clear a ∷ []) ++ sizeless_a ∷ [])
        ((2, 1) ∷ (2, 1) ∷ []) }
{}

// One view fails by its source and another is shown; all are cleared; memory is trimmed.
fn worked_views()
    ensures causes { Gives first_fails 1000 (load a (codes "x") ∷ load b (codes "y") ∷ says (Show ∷ []))
        (FailedLine a causes.Source ∷ shown b ∷ []) 2 }
    ensures clears { Prints (red_a ∷ says (ClearAll ∷ Show ∷ [])) (ClearedLine a ∷ []) 1 }
    ensures clears_paused { Prints (says (Pause ∷ []) ++ red_a ∷ says (ClearAll ∷ Resume ∷ Show ∷ []))
        (ClearedLine a ∷ []) 0 }
    ensures trims { Prints (red_a ∷ says (Wait ∷ Trim 40 ∷ Dump a ∷ [])) (dumped a ∷ []) 1 }
{}

// Bad lines and statuses. The line of an unknown view prints nothing, and neither does what is behind it.
fn worked_ends()
    ensures empty { EndsWith [] None 0 }
    ensures shows_nothing { EndsWith (says (Show ∷ [])) None 0 }
    ensures unknown { EndsWith (says (Clear (codes "z") ∷ [])) (Some 1) 3 }
    ensures unknown_later { Prints (red_a ∷ says (Dump b ∷ Show ∷ [])) [] 1 }
    ensures failed { EndsWith (none_a ∷ Empty ∷ says (Dump a ∷ [])) None 1 }
    ensures unreadable { EndsWith (none_a ∷ Empty ∷ Unreadable ∷ says (Dump a ∷ [])) (Some 3) 3 }
    ensures one_more { can_obey (Made (codes "ab")) (names_up_to 4095) ≡ true }
    ensures too_many { can_obey (Made (codes "ab")) (names_up_to 4096) ≡ false }
    ensures not_new { can_obey (Made (1 ∷ [])) (names_up_to 4096) ≡ true }
{}
