// The language itself on worked lines: these contracts are proved by computing the definitions, and no code
// is run.
ghost use Rattle.std.specs.Prelude.{◌≡◌, ◌++◌, ◌∷◌, [], true, false, Some, None, codes, replicate};
ghost use Rattle.bitmap_kind.specs.declared.bitmaps.Rule.TheVariants.{AtMost};
ghost use Rattle.cache_key.specs.declared.load_spec.Priority.TheVariants.{High};
ghost use Rattle.cache_key.specs.declared.load_spec.Strategy.TheVariants.{Results};
ghost use Rattle.script_lines.specs.declared.commands.Command.TheVariants.{Load, Layout, Clear, ClearAll, Pause, PauseAll, Resume, Trim, Wait, Show, Dump};
ghost use Rattle.script_lines.specs.declared.commands.Line.TheVariants.{Empty, Unreadable, Says};
ghost use Rattle.script_lines.specs.Commands.{line_of};
ghost use Rattle.script_lines.specs.Script.{lines_within, script_from};
ghost use Rattle.script_lines.specs.Words.{level, side};
ghost use Rattle.script_lines.specs.Worked.{red_key, red, red_sizeless, load_red, said_with, at_line, long_load, is_read};

// The forms of a line.
fn worked_forms()
    ensures layout { line_of (codes "layout a 2 1") ≡ Says (Layout (codes "a") 2 1) }
    ensures clear { line_of (codes "clear a") ≡ Says (Clear (codes "a")) }
    ensures clear_all { line_of (codes "clearall") ≡ Says ClearAll }
    ensures pause { line_of (codes "pause") ≡ Says Pause }
    ensures pause_all { line_of (codes "pauseall") ≡ Says PauseAll }
    ensures resume { line_of (codes "resume") ≡ Says Resume }
    ensures trim { line_of (codes "trim 40") ≡ Says (Trim 40) }
    ensures wait { line_of (codes "wait") ≡ Says Wait }
    ensures show { line_of (codes "show") ≡ Says Show }
    ensures dump { line_of (codes "dump a") ≡ Says (Dump (codes "a")) }
{}

// Loads: with a size and without one, with further words in any order, and with two words of one kind.
fn worked_loads()
    ensures sized { said_with [] ≡ load_red red }
    ensures sizeless { line_of (codes "load a red 1 - - none argb") ≡
        Says (Load (codes "a") red_sizeless false) }
    ensures one_side { line_of (codes "load a red 1 2 - none argb") ≡ Unreadable }
    ensures rule { said_with (codes " atmost") ≡
        load_red record red { key = record red_key { rule = AtMost } } }
    ensures any_order { said_with (codes " cached high resource") ≡
        load_red record red { priority = High; strategy = Results; cached = true } }
    ensures skips { said_with (codes " skip") ≡ load_red record red { skip = true } }
    ensures two_rules { said_with (codes " atmost atmost") ≡ Unreadable }
    ensures two_strategies { said_with (codes " all skip nodisk") ≡ Unreadable }
    ensures skips_twice { said_with (codes " skip skip") ≡ Unreadable }
    ensures unknown_word { said_with (codes " soon") ≡ Unreadable }
{}

// Empty lines and comments, spaces and carriage returns, and lines of no form.
fn worked_spellings()
    ensures empty { line_of [] ≡ Empty }
    ensures spaces { line_of (codes "   ") ≡ Empty }
    ensures comment { line_of (codes "  #" ++ 200 ∷ 9 ∷ []) ≡ Empty }
    ensures spaced { line_of (codes "  dump   a ") ≡ Says (Dump (codes "a")) }
    ensures returned { line_of (codes "show" ++ 13 ∷ []) ≡ Says Show }
    ensures returned_twice { line_of (codes "show" ++ 13 ∷ 13 ∷ []) ≡ Unreadable }
    ensures tab { line_of (codes "dump" ++ 9 ∷ codes "a") ≡ Unreadable }
    ensures one_more { line_of (codes "show a") ≡ Unreadable }
    ensures one_less { line_of (codes "clear") ≡ Unreadable }
    ensures unknown_verb { line_of (codes "shows") ≡ Unreadable }
{}

// Numbers at their limits and one past them.
fn worked_numbers()
    ensures least_side { side (codes "1") ≡ Some 1 }
    ensures no_side { side (codes "0") ≡ None }
    ensures most_side { side (codes "16384") ≡ Some 16384 }
    ensures past_side { side (codes "16385") ≡ None }
    ensures leading_zero { side (codes "02") ≡ None }
    ensures least_level { level (codes "0") ≡ Some 0 }
    ensures most_level { level (codes "1000") ≡ Some 1000 }
    ensures past_level { level (codes "1001") ≡ None }
    ensures two_zeros { level (codes "00") ≡ None }
    ensures sign { level (codes "+1") ≡ None }
{}

// Texts and lines at their limits and one past them; a carriage return at the end counts for nothing.
fn worked_lengths()
    ensures longest { is_read (line_of (long_load 32 1024 64)) ≡ true }
    ensures long_name { is_read (line_of (long_load 33 1 1)) ≡ false }
    ensures long_url { is_read (line_of (long_load 1 1025 1)) ≡ false }
    ensures long_sig { is_read (line_of (long_load 1 1 65)) ≡ false }
    ensures long_line { line_of (replicate 2048 35) ≡ Empty }
    ensures longer_line { line_of (replicate 2049 35) ≡ Unreadable }
    ensures long_returned { line_of (replicate 2048 35 ++ 13 ∷ []) ≡ Empty }
{}

// Numbers of lines, and the line that holds the first byte past a script's limit, which is 9 or 8 bytes here.
fn worked_scripts()
    ensures numbers { script_from 0 (lines_within 9 (codes "#" ++ 10 ∷ 10 ∷ codes "show" ++ 10 ∷ codes "x")) ≡
        record { commands = at_line 3 Show ∷ []; bad = Some 4 } }
    ensures no_feed { script_from 0 (lines_within 9 (codes "show" ++ 10 ∷ codes "wait")) ≡
        record { commands = at_line 1 Show ∷ at_line 2 Wait ∷ []; bad = None } }
    ensures past { script_from 0 (lines_within 8 (codes "show" ++ 10 ∷ codes "wait")) ≡
        record { commands = at_line 1 Show ∷ []; bad = Some 2 } }
    ensures feed_past { script_from 0 (lines_within 9 (codes "show" ++ 10 ∷ codes "wait" ++ 10 ∷ [])) ≡
        record { commands = at_line 1 Show ∷ []; bad = Some 2 } }
    ensures empty { script_from 0 (lines_within 9 []) ≡ record { commands = []; bad = None } }
{}
