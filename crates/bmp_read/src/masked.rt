// Rows of colours by masks. The loops over a row stay functions of their own, so that they keep their
// values in registers.
ghost use Rattle.std.specs.Prelude.{◌≡◌, ◌≤◌, ◌<◌, ◌^◌, ◌*◌, true, length, IsTrue};
ghost use Rattle.picture_rows.specs.PixelBytes.{rgba_bytes};
ghost use Rattle.bmp_read.specs.Header.{are_masks};
ghost use Rattle.bmp_read.specs.Pixel.{channel, masked_colour};
ghost use Rattle.bmp_read.specs.Bytes.{u16_at, u32_at};
ghost use Rattle.bmp_read.specs.Raster.{pixels};
ghost use Rattle.bmp_read.specs.inside.ChannelScales.{is_narrow, are_narrow, IsChannelScale, IsScaleOf, AreScalesOf};

use crate::bytes::{u16_at, u32_at};
use crate::format::Masks;
use crate::masks::moved_down;
use picture_rows::{Rgba, Scale, put_pixel, scale_of, scaled, scaled_by};

// The channel of a value that this mask says, or `absent` where the mask is 0.
fn channel(mask: u32, absent: u8, value: u32) -> u8
    ensures { result ≡ channel mask absent value }
{
    if mask == 0 {
        return absent;
    }
    let sample = moved_down(mask, value & mask);
    scaled(sample, moved_down(mask, mask))
}

fn masked_colour(masks: Masks, value: u32) -> Rgba
    ensures { rgba_bytes result ≡ masked_colour masks value }
{
    Rgba {
        red: channel(masks.red, 0, value),
        green: channel(masks.green, 0, value),
        blue: channel(masks.blue, 0, value),
        alpha: channel(masks.alpha, 255, value),
    }
}

// What a mask of at most 16 bits says of a channel, made once for a row, so that none of its pixels needs
// a division.
#[derive(Clone, Copy)]
pub(crate) struct ChannelScale {
    pub(crate) mask: u32,
    pub(crate) absent: u8,
    pub(crate) shift: u32,
    pub(crate) scale: Scale,
}

#[derive(Clone, Copy)]
pub(crate) struct ChannelScales {
    pub(crate) red: ChannelScale,
    pub(crate) green: ChannelScale,
    pub(crate) blue: ChannelScale,
    pub(crate) alpha: ChannelScale,
}

// Whether a mask has at most 16 bits.
fn is_narrow(mask: u32) -> bool
    ensures { result ≡ is_narrow mask }
{
    mask == 0 || moved_down(mask, mask) < 65_536
}

fn are_narrow(masks: Masks) -> bool
    ensures { result ≡ are_narrow masks }
{
    is_narrow(masks.red)
        && is_narrow(masks.green)
        && is_narrow(masks.blue)
        && is_narrow(masks.alpha)
}

fn channel_scale(mask: u32, absent: u8) -> ChannelScale
    requires { IsTrue (is_narrow mask) }
    ensures { IsScaleOf result mask absent }
{
    if mask == 0 {
        return ChannelScale {
            mask,
            absent,
            shift: 0,
            scale: scale_of(1),
        };
    }
    let shift = mask.trailing_zeros();
    ChannelScale {
        mask,
        absent,
        shift,
        scale: scale_of((mask >> shift) as u16),
    }
}

fn scales_of(masks: Masks) -> ChannelScales
    requires { IsTrue (are_narrow masks) }
    ensures { AreScalesOf result masks }
{
    ChannelScales {
        red: channel_scale(masks.red, 0),
        green: channel_scale(masks.green, 0),
        blue: channel_scale(masks.blue, 0),
        alpha: channel_scale(masks.alpha, 255),
    }
}

// A channel of a value.
#[inline(always)]
fn sample_by(by: ChannelScale, value: u32) -> u8
    requires { IsChannelScale by }
    ensures { result ≡ channel by.mask by.absent value }
{
    let share = scaled_by(by.scale, ((value & by.mask) >> by.shift) as u16);
    if by.mask == 0 { by.absent } else { share }
}

#[inline(always)]
fn colour_by(scales: ChannelScales, masks: Masks, value: u32) -> Rgba
    requires { AreScalesOf scales masks }
    ensures { rgba_bytes result ≡ masked_colour masks value }
{
    Rgba {
        red: sample_by(scales.red, value),
        green: sample_by(scales.green, value),
        blue: sample_by(scales.blue, value),
        alpha: sample_by(scales.alpha, value),
    }
}

// Writes a row by masks of at most 16 bits.
#[inline(never)]
fn write_narrow32(row: &[u8], masks: Masks, into: &mut [u8], width: usize)
    requires narrow { IsTrue (are_narrow masks) }
    requires row { 4 * width ≤ length row.now }
    requires into { length into.old ≡ 4 * width }
    ensures { into.new ≡ pixels (λ x. masked_colour masks (u32_at (4 * x) row.now)) width }
{
    let scales = scales_of(masks);
    for x in 0..width {
        put_pixel(into, x, colour_by(scales, masks, u32_at(row, 4 * x)));
    }
}

#[inline(never)]
pub(crate) fn write_masked16(row: &[u8], masks: Masks, into: &mut [u8], width: usize)
    requires masks { are_masks 16 masks ≡ true }
    requires row { 2 * width ≤ length row.now }
    requires into { length into.old ≡ 4 * width }
    ensures { into.new ≡ pixels (λ x. masked_colour masks (u16_at (2 * x) row.now)) width }
{
    let scales = scales_of(masks);
    for x in 0..width {
        let value = u32::from(u16_at(row, 2 * x));
        put_pixel(into, x, colour_by(scales, masks, value));
    }
}

#[inline(never)]
pub(crate) fn write_masked32(row: &[u8], masks: Masks, into: &mut [u8], width: usize)
    requires row { 4 * width ≤ length row.now }
    requires into { length into.old ≡ 4 * width }
    ensures { into.new ≡ pixels (λ x. masked_colour masks (u32_at (4 * x) row.now)) width }
{
    if are_narrow(masks) {
        return write_narrow32(row, masks, into, width);
    }
    for x in 0..width {
        put_pixel(into, x, masked_colour(masks, u32_at(row, 4 * x)));
    }
}
