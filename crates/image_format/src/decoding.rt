// From a text to the stored bytes of a bitmap.
ghost use Rattle.std.specs.Prelude.{◌≡◌, ◌≤◌};
ghost use Rattle.picture_rows.specs.RowsLeft.{HasRows};
ghost use Rattle.picture_rows.specs.FullPicture.{IsPictureSize, full_of};
ghost use Rattle.image_format.specs.Pictures.{sampled_size, decoded_under, decoded, IsPlanOf};
ghost use Rattle.image_format.specs.Answers.{Decodes, KeepsShape};
ghost use Rattle.image_format.specs.inside.Rows.{rows_by};

use crate::plan::Plan;
use crate::raster::{put_rows, put_sampled_rows};
use crate::refusal::Refusal;
use crate::rows::{PictureRows, open_rows};
use bitmap_kind::Bitmap;
use faults::NoMemory;
use sampling::{BoxRows, each_sample_is_a_power, one_keeps_the_picture};
use std::alloc::{AllocError, Global};

/// Why a text was not decoded.
#[derive(Clone, Copy, Debug, PartialEq, Eq)]
pub enum DecodeFault {
    /// It has no picture.
    Refused(Refusal),
    /// Memory was wanting.
    Memory,
}

impl From<Refusal> for DecodeFault {
    ghost use Rattle.std.specs.Prelude.{◌≡◌};
    ghost use Rattle.image_format.specs.declared.decoding.DecodeFault.TheVariants as faults;

    ghost from_gives = { λ refusal fault. fault ≡ faults.Refused refusal };

    fn from(refusal: Refusal) -> DecodeFault {
        DecodeFault::Refused(refusal)
    }
}

impl From<NoMemory> for DecodeFault {
    ghost use Rattle.std.specs.Prelude.{◌≡◌};
    ghost use Rattle.image_format.specs.declared.decoding.DecodeFault.TheVariants as faults;

    ghost from_gives = { λ _ fault. fault ≡ faults.Memory };

    fn from(_fault: NoMemory) -> DecodeFault {
        DecodeFault::Memory
    }
}

impl From<AllocError> for DecodeFault {
    ghost use Rattle.std.specs.Prelude.{◌≡◌};
    ghost use Rattle.image_format.specs.declared.decoding.DecodeFault.TheVariants as faults;

    ghost from_gives = { λ _ fault. fault ≡ faults.Memory };

    fn from(_fault: AllocError) -> DecodeFault {
        DecodeFault::Memory
    }
}

// Decodes all rows of a picture of this size into a bitmap of the sampled size, one by one with one row
// buffer. Whatever stood in the bitmap is overwritten.
fn decode_rows(
    alloc: Global,
    rows: &mut PictureRows<'_>,
    size: (u32, u32),
    sample: u32,
    target: &mut Bitmap,
) -> Result<(), DecodeFault>
    requires width { (rows_by rows.old).width ≡ size.0 }
    requires count { HasRows size.1 (rows_by rows.old) }
    requires sides { IsPictureSize size.0 size.1 }
    requires sampled { 1 ≤ sample }
    requires size { (target.old.picture.width, target.old.picture.height) ≡ sampled_size sample size }
    ensures decodes { Decodes
        (decoded_under target.old.picture.config sample (full_of size (rows_by rows.old)))
        result target.new.picture }
    ensures shape { KeepsShape target.old target.new }
{
    let mut row = vec![in alloc; 0u8; 4 * size.0 as usize]?;
    if sample == 1 {
        one_keeps_the_picture();
        put_rows(rows, &mut row, target)?;
        return Ok(());
    }
    let mut boxes = BoxRows::new(alloc, size.0, size.1, sample)?;
    put_sampled_rows(rows, &mut boxes, &mut row, target)?;
    Ok(())
}

/// Decodes a text, by the plan that it has under a key, into a bitmap of the plan's decoded size and its
/// config.
///
/// Where it answers Ok the stored bytes are the sampled picture, whatever they were before. A raster that
/// breaks a rule is refused, and the stored bytes are then any. Number, allocation, sides and config of
/// the bitmap stay in each case.
#[tactic(auto, unfolding(crate::specs::Pictures::decoded))]
pub fn decode_into(
    alloc: Global,
    bytes: &[u8],
    plan: &Plan,
    target: &mut Bitmap,
) -> Result<(), DecodeFault>
    requires plan { IsPlanOf bytes.now plan.now }
    requires width { target.old.picture.width ≡ plan.now.decoded.0 }
    requires height { target.old.picture.height ≡ plan.now.decoded.1 }
    requires config { target.old.picture.config ≡ plan.now.config }
    ensures decodes { Decodes (decoded bytes.now plan.now) result target.new.picture }
    ensures shape { KeepsShape target.old target.new }
{
    each_sample_is_a_power();
    let (size, mut rows) = open_rows(bytes)?;
    decode_rows(alloc, &mut rows, size, plan.sample, target)
}
