// Why a text has no picture.
use bmp_read::BmpFault;
use ppm_read::PpmFault;

/// Why a text has no picture.
#[derive(Clone, Copy, Debug, PartialEq, Eq)]
pub enum Refusal {
    /// It begins with the magic of no kind of picture.
    Unknown,
    /// It breaks a rule of the Netpbm reader.
    Ppm(PpmFault),
    /// It breaks a rule of the reader of Windows bitmaps.
    Bmp(BmpFault),
    /// The source, or what would be shown of it, is beyond the limits on sides and pixels.
    TooLarge,
}

impl From<PpmFault> for Refusal {
    ghost use Rattle.std.specs.Prelude.{◌≡◌};
    ghost use Rattle.image_format.specs.declared.refusal.Refusal.TheVariants as refusals;

    ghost from_gives = { λ fault refusal. refusal ≡ refusals.Ppm fault };

    fn from(fault: PpmFault) -> Refusal {
        Refusal::Ppm(fault)
    }
}

impl From<BmpFault> for Refusal {
    ghost use Rattle.std.specs.Prelude.{◌≡◌};
    ghost use Rattle.image_format.specs.declared.refusal.Refusal.TheVariants as refusals;

    ghost from_gives = { λ fault refusal. refusal ≡ refusals.Bmp fault };

    fn from(fault: BmpFault) -> Refusal {
        Refusal::Bmp(fault)
    }
}
