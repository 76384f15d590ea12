// Rows of plain samples.
ghost use Rattle.std.specs.Prelude.{◌≡◌, ◌≤◌, ◌<◌, ◌+◌, ◌*◌, ◌==◌, ◌&&◌, length, IfOk};
ghost use Rattle.ppm_read.specs.declared.header.Format.TheVariants.{Plain};
ghost use Rattle.picture_rows.specs.Reading.{Gives};
ghost use Rattle.picture_rows.specs.PixelBytes.{rgba_bytes};
ghost use Rattle.picture_rows.specs.Scale.{IsScale};
ghost use Rattle.ppm_read.specs.inside.Plain.{grey_pixel_at, colour_pixel_at};
ghost use Rattle.ppm_read.specs.Raster.{sample_at, pixels_at, row_at};

use crate::fault::PpmFault;
use crate::header::{Channels, Head};
use crate::number::{after_white, begins_white, missing, number};
use crate::pixel::opaque;
use picture_rows::{Rgba, Scale, put_pixel, scale_of, scaled_by};

// A sample, and the text after it. The last one of the raster may end with the text.
#[inline(always)]
fn plain_sample(text: &[u8], maximum: u16, last: bool) -> Result<(u16, &[u8]), PpmFault>
    ensures read { Gives (λ found. (found.0, found.1.now)) result
        (sample_at Plain maximum last text.now) }
    ensures within { IfOk result (λ found. found.0 ≤ maximum) }
{
    if !begins_white(text) {
        return Err(missing(text));
    }
    let (sample, rest) = number(after_white(text), last)?;
    if sample > u32::from(maximum) {
        return Err(PpmFault::SampleAbove);
    }
    Ok((sample as u16, rest))
}

// A grey pixel, and the text after it.
#[inline(always)]
fn grey_pixel(text: &[u8], scale: Scale, last: bool) -> Result<(Rgba, &[u8]), PpmFault>
    requires { IsScale scale }
    ensures { Gives
        (λ found. (rgba_bytes found.0, found.1.now)) result
        (grey_pixel_at scale.maximum last text.now) }
{
    let (sample, rest) = plain_sample(text, scale.maximum, last)?;
    let grey = scaled_by(scale, sample);
    Ok((opaque(grey, grey, grey), rest))
}

// A pixel of colour, and the text after it.
#[inline(always)]
fn colour_pixel(text: &[u8], scale: Scale, last: bool) -> Result<(Rgba, &[u8]), PpmFault>
    requires { IsScale scale }
    ensures { Gives
        (λ found. (rgba_bytes found.0, found.1.now)) result
        (colour_pixel_at scale.maximum last text.now) }
{
    let (red, rest) = plain_sample(text, scale.maximum, false)?;
    let (green, rest) = plain_sample(rest, scale.maximum, false)?;
    let (blue, rest) = plain_sample(rest, scale.maximum, last)?;
    let pixel = opaque(
        scaled_by(scale, red),
        scaled_by(scale, green),
        scaled_by(scale, blue),
    );
    Ok((pixel, rest))
}

// A pixel, and the text after it.
#[inline(always)]
fn plain_pixel(text: &[u8], head: Head, scale: Scale, last: bool) -> Result<(Rgba, &[u8]), PpmFault>
    requires scale { IsScale scale }
    requires maximum { scale.maximum ≡ head.maximum }
    requires format { head.format ≡ Plain }
    ensures { Gives
        (λ found. (rgba_bytes found.0, found.1.now)) result
        (pixels_at head last 1 text.now) }
{
    match head.channels {
        Channels::Grey => grey_pixel(text, scale, last),
        Channels::Colour => colour_pixel(text, scale, last),
    }
}

// Whether the pixel at x is the raster's last one.
fn is_last_pixel(last: bool, x: u32, width: u32) -> bool
    requires { x < width }
    ensures { result ≡ (last && (x + 1) == width) }
{
    last && x + 1 == width
}

// Reads a row into the buffer, up to its first fault, and gives the text after it.
#[inline(never)]
pub(crate) fn plain_row<'a>(
    text: &'a [u8],
    head: Head,
    last: bool,
    into: &mut [u8],
) -> Result<&'a [u8], PpmFault>
    requires maximum { 1 ≤ head.maximum }
    requires format { head.format ≡ Plain }
    requires into { length into.old ≡ 4 * head.width }
    ensures { Gives (λ rest. (into.new, rest.now)) result (row_at head last text.now) }
{
    let scale = scale_of(head.maximum);
    let mut rest = text;
    for x in 0..head.width {
        let (pixel, after) = plain_pixel(rest, head, scale, is_last_pixel(last, x, head.width))?;
        put_pixel(into, x as usize, pixel);
        rest = after;
    }
    Ok(rest)
}
