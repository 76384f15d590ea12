// How a picture is decoded under a key.
ghost use Rattle.std.specs.Prelude.{◌≡◌, ◌≤◌, IfOk};
ghost use Rattle.bitmap_kind.specs.Picture.{IsSize};
ghost use Rattle.transforms.specs.Sizes.{target_size};
ghost use Rattle.image_format.specs.Pictures.{has_too_many_pixels, plan_under, planned, IsPlanOf};

use crate::kinds::source_size;
use crate::refusal::Refusal;
use bitmap_kind::{Bitmap, Config};
use cache_key::EngineKey;
use sampling::{each_sample_is_a_power, sample_for, sampled_side};
use transforms::{target_size, targets_have_pixels};

// The longest side of a source, in pixels: this project's own limit.
const SOURCE_SIDE_LIMIT: u32 = 16_384;

/// How a picture is decoded: its sample, its size when it is decoded and when it is shown, both as width
/// and height in pixels, and how its pixels are stored. Bitmaps may have both sizes.
#[derive(Clone, Copy, Debug, PartialEq, Eq)]
pub struct Plan {
    pub sample: u32,
    pub decoded: (u32, u32),
    pub target: (u32, u32),
    pub config: Config,
}

// Whether a size has more pixels than a bitmap may have.
fn has_too_many_pixels(size: (u32, u32)) -> bool
    ensures { result ≡ has_too_many_pixels size }
{
    u64::from(size.0) * u64::from(size.1) > Bitmap::MOST_PIXELS
}

// The plan of a source of this width and height.
fn plan_under(key: &EngineKey, source: (u32, u32)) -> Result<Plan, Refusal>
    requires wide { 1 ≤ source.0 }
    requires high { 1 ≤ source.1 }
    ensures plan { result ≡ plan_under key.now source }
    ensures target_fits { IfOk result (λ plan. IsSize plan.target.0 plan.target.1) }
{
    if source.0 > SOURCE_SIDE_LIMIT || source.1 > SOURCE_SIDE_LIMIT || has_too_many_pixels(source) {
        return Err(Refusal::TooLarge);
    }
    key.limits();
    each_sample_is_a_power();
    targets_have_pixels();
    let wanted = (key.width, key.height);
    let sample = sample_for(source, wanted, key.rule);
    let decoded = (
        sampled_side(source.0, sample),
        sampled_side(source.1, sample),
    );
    let target = target_size(decoded, key.transform, wanted);
    if has_too_many_pixels(target) {
        return Err(Refusal::TooLarge);
    }
    Ok(Plan {
        sample,
        decoded,
        target,
        config: key.config,
    })
}

/// How a text is decoded under a key, or why it is refused: by the first rule that its kind or its header
/// breaks, and then as `TooLarge`, where a side of the source is above 16,384, or the source or what
/// would be shown of it has more than 33,554,432 pixels. It takes no memory, and looks at nothing of the
/// raster.
#[tactic(auto, unfolding(crate::specs::Pictures::planned))]
pub fn plan_of(bytes: &[u8], key: &EngineKey) -> Result<Plan, Refusal>
    ensures plan { result ≡ planned bytes.now key.now }
    ensures of_text { IfOk result (λ plan. IsPlanOf bytes.now plan) }
    ensures decoded_fits { IfOk result (λ plan. IsSize plan.decoded.0 plan.decoded.1) }
    ensures target_fits { IfOk result (λ plan. IsSize plan.target.0 plan.target.1) }
    ensures target { IfOk result (λ plan. plan.target
        ≡ target_size plan.decoded.0 plan.decoded.1 key.now.transform key.now.width key.now.height) }
    ensures config { IfOk result (λ plan. plan.config ≡ key.now.config) }
{
    plan_under(key, source_size(bytes)?)
}
