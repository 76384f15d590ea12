// Why a load of a picture fails.
use image_format::Refusal;

/// Why a load of a picture fails. The first two follow from the content; the others are faults and wishes of a run.
#[derive(Clone, Copy, Debug, PartialEq, Eq)]
pub enum Cause {
    /// The source has nothing for the url and signature.
    Missing,
    /// The text has no picture.
    Refused(Refusal),
    /// The fetch from the source failed.
    Source,
    /// Memory was wanting.
    Memory,
    /// The load asked the caches alone, and they had nothing.
    Uncached,
}

impl From<Refusal> for Cause {
    ghost use Rattle.std.specs.Prelude.{◌≡◌};
    ghost use Rattle.load_cause.specs.declared.causes.Cause.TheVariants as causes;

    ghost from_gives = { λ refusal cause. cause ≡ causes.Refused refusal };

    fn from(refusal: Refusal) -> Cause {
        Cause::Refused(refusal)
    }
}
