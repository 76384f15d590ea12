// Which fault a text has, by the list of the rules.
ghost use Rattle.std.specs.Prelude.{◌≡◌, ℕ, List, Ok};
ghost use Rattle.bmp_read.specs.Header.{head_of};
ghost use Rattle.bmp_read.specs.Full.{full_picture};
ghost use Rattle.picture_rows.specs.Reading.{fault_of};
ghost use Rattle.picture_rows.specs.FullPicture.{FullPicture};
ghost use Rattle.bmp_read.specs.Table.{IsByTable};
ghost use Rattle.bmp_read.specs.Rules.{header_rules, rules, first_broken};

/// A law that does no work: the fault of a text is that of the first of the rules that it breaks,
/// and a text that breaks none has its picture. The rules of the headers alone say what `read_head`
/// refuses, and `Rows` is held to the same definition of the picture, part by part.
pub fn fault_is_the_first_broken_rule()
    ensures text { (text : List ℕ) → fault_of (full_picture text) ≡ first_broken (rules text) }
    ensures header { (text : List ℕ) → fault_of (head_of text) ≡ first_broken (header_rules text) }
{}

/// A law that does no work: a text that has a picture has the size that its fields say, and each pixel
/// is the one that the table of compressions and bits has for it.
pub fn pixels_are_those_of_the_table()
    ensures { (text : List ℕ) (picture : FullPicture) → full_picture text ≡ Ok picture
        → IsByTable text picture }
{}
