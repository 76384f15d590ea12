// Samples as numbers up to 255.
ghost use Rattle.std.specs.Prelude.{◌≡◌, ◌≤◌};
ghost use Rattle.picture_rows.specs.PixelBytes.{scaled};
ghost use Rattle.picture_rows.specs.Scale.{IsScale};

/// A sample as a number up to 255: its share of the maximum, rounded, halves up.
pub fn scaled(sample: u32, maximum: u32) -> u8
    requires above_zero { 1 ≤ maximum }
    requires within { sample ≤ maximum }
    ensures { result ≡ scaled maximum sample }
{
    let full = 255 * u64::from(sample) + u64::from(maximum) / 2;
    (full / u64::from(maximum)) as u8
}

/// What samples of a maximum are scaled by, so that a row of them needs no division.
#[derive(Clone, Copy)]
pub struct Scale {
    pub maximum: u16,

    /// 255 times the maximum's reciprocal, which is rounded up, where 2 to the 40th stands for 1.
    pub factor: u64,

    /// Half of the maximum times that reciprocal.
    pub offset: u64,
}

/// The scale of a maximum.
pub fn scale_of(maximum: u16) -> Scale
    requires { 1 ≤ maximum }
    ensures scale { IsScale result }
    ensures maximum { result.maximum ≡ maximum }
{
    let reciprocal = (1 << 40) / u64::from(maximum) + 1;
    Scale {
        maximum,
        factor: 255 * reciprocal,
        offset: u64::from(maximum / 2) * reciprocal,
    }
}

/// A sample as a number up to 255, without a division.
#[inline(always)]
pub fn scaled_by(scale: Scale, sample: u16) -> u8
    requires scale { IsScale scale }
    requires within { sample ≤ scale.maximum }
    ensures { result ≡ scaled scale.maximum sample }
{
    ((scale.factor * u64::from(sample) + scale.offset) >> 40) as u8
}
