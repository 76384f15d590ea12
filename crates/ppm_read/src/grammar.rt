// What the definitions say of a text, in the words of its grammar.
ghost use Rattle.std.specs.Prelude.{◌≡◌, ◌↔◌, ℕ, List, Result};
ghost use Rattle.ppm_read.specs.declared.fault.PpmFault.{PpmFault};
ghost use Rattle.picture_rows.specs.FullPicture.{FullPicture};
ghost use Rattle.ppm_read.specs.Full.{full_picture};
ghost use Rattle.ppm_read.specs.declared.header.Head.{Head};
ghost use Rattle.ppm_read.specs.Header.{head_of};
ghost use Rattle.ppm_read.specs.Breaking.{IsOutcome, IsHeaderOutcome};

/// A law that does no work: which texts have a full picture, which pixels it has, and which fault any
/// other text has, in the words of the grammar. `read_head` and `Rows` are held to the same
/// definition, part by part.
pub fn every_text_has_its_outcome()
    ensures { (text : List ℕ) (outcome : Result FullPicture PpmFault)
        → (full_picture text ≡ outcome) ↔ IsOutcome text outcome }
{}

/// A law that does no work: which texts have a header, where it ends and the raster begins, and which
/// fault any other text has, in the words of the grammar. What `read_head` refuses is refused before
/// the raster is looked at.
pub fn every_text_has_its_header()
    ensures { (text : List ℕ) (outcome : Result Head PpmFault)
        → (head_of text ≡ outcome) ↔ IsHeaderOutcome text outcome }
{}
