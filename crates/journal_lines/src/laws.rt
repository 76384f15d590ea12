// Laws of the journal's text.
ghost use Rattle.std.specs.Prelude.{◌≡◌, ℕ, List, ◌++◌, Some, Ok};
ghost use Rattle.std.specs.List.{AllByRecursion};
ghost use Rattle.journal_lines.specs.Lines.{spelled, line_of, IsLine};
ghost use Rattle.journal_lines.specs.Journal.{Lacks, header, text_of, rest_of, journal_of};
ghost use Rattle.journal_lines.specs.declared.lines.Line.{Line};
ghost use Rattle.journal_lines.specs.declared.lines.Rest.TheVariants.{Whole};

/// A line is read as it is written, and every text that is read as a line is that line's spelling. No line has a newline
/// within it. The lines of a text are those that it was made of, with what stands after the last newline left out.
pub fn text_is_its_lines()
    ensures line { (line : Line) → IsLine line → line_of (spelled line) ≡ Some line }
    ensures spelling { (text : List ℕ) (line : Line) → line_of text ≡ Some line
        → IsLine line × (text ≡ spelled line) }
    ensures unbroken { (line : Line) → IsLine line → Lacks 10 (spelled line) }
    ensures text { (lines : List Line) (tail : List ℕ) → AllByRecursion IsLine lines → Lacks 10 tail
        → journal_of (header ++ (text_of lines ++ tail)) ≡ Ok (lines, rest_of tail) }
    ensures whole { (text : List ℕ) (lines : List Line) → journal_of text ≡ Ok (lines, Whole)
        → AllByRecursion IsLine lines × (text ≡ header ++ text_of lines) }
{}
