// A law of the further words of a load.
ghost use Rattle.script_lines.specs.Settings.{InAnyOrder};

/// The further words of a load say the same in any order: two neighbours may change places, and whether the line is
/// bad does not hang on it either.
pub fn further_words_in_any_order()
    ensures { InAnyOrder }
{}
