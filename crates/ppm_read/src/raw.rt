// Rows of raw samples. The loops over a row stay functions of their own, so that they keep their values in
// registers.
ghost use Rattle.std.specs.Prelude.{◌≡◌, ◌≤◌, ◌<◌, ◌+◌, ◌*◌, Bool, false, length, map, take, drop, nat_lt, slice_index};
ghost use Rattle.std.specs.List.{list_any};
ghost use Rattle.ppm_read.specs.declared.header.Format.TheVariants.{Raw};
ghost use Rattle.ppm_read.specs.declared.header.Channels.TheVariants.{Grey, Colour};
ghost use Rattle.picture_rows.specs.Reading.{Gives};
ghost use Rattle.picture_rows.specs.PixelBytes.{rgba_bytes, scaled};
ghost use Rattle.ppm_read.specs.Raster.{channel_count, rgba, row_at};
ghost use Rattle.ppm_read.specs.Raw.{words, sample_length, raw_samples};
ghost use Rattle.picture_rows.specs.Scale.{IsScale};

use crate::fault::PpmFault;
use crate::header::{Channels, Head};
use crate::pixel::{channel_count, opaque};
use picture_rows::{Rgba, Scale, put_pixel, put_pixel_at_once, scale_of, scaled_by};

// How many bytes a sample has.
fn sample_length(maximum: u16) -> usize
    ensures { result ≡ sample_length maximum }
{
    if maximum < 256 { 1 } else { 2 }
}

// A sample of two bytes.
#[inline(always)]
fn word(row: &[u8], index: usize) -> u16
    requires { 2 * index + 1 < length row.now }
    ensures { result ≡ slice_index (words row.now) index }
{
    256 * u16::from(row[2 * index]) + u16::from(row[2 * index + 1])
}

// A sample.
#[inline(always)]
fn sample(row: &[u8], index: usize, maximum: u16) -> u16
    requires { index < length (raw_samples maximum row.now) }
    ensures { result ≡ slice_index (raw_samples maximum row.now) index }
{
    if maximum < 256 {
        u16::from(row[index])
    } else {
        word(row, index)
    }
}

// Whether a sample of one byte is above the maximum.
#[inline(never)]
fn has_byte_above(row: &[u8], maximum: u8) -> bool
    ensures { result ≡ list_any (nat_lt maximum) row.now }
{
    let mut above = false;
    for sample in row {
        above = above | (*sample > maximum);
    }
    above
}

// Whether a sample of two bytes is above the maximum.
#[inline(never)]
fn has_word_above(row: &[u8], maximum: u16) -> bool
    ensures { result ≡ list_any (nat_lt maximum) (words row.now) }
{
    let mut above = false;
    for index in 0..row.len() / 2 {
        above = above | (word(row, index) > maximum);
    }
    above
}

// Whether a sample is above the maximum.
fn has_above(row: &[u8], maximum: u16) -> bool
    ensures { result ≡ list_any (nat_lt maximum) (raw_samples maximum row.now) }
{
    // No byte is above 255, and no word above 65,535.
    if maximum == 255 {
        return false;
    }
    if maximum < 256 {
        return has_byte_above(row, maximum as u8);
    }
    if maximum == 65_535 {
        return false;
    }
    has_word_above(row, maximum)
}

// Writes grey bytes of the maximum 255.
#[inline(never)]
fn write_grey(row: &[u8], into: &mut [u8])
    requires { length into.old ≡ 4 * length row.now }
    ensures { into.new ≡ rgba Grey row.now }
{
    for x in 0..row.len() {
        put_pixel(into, x, opaque(row[x], row[x], row[x]));
    }
}

// Writes red, green and blue bytes of the maximum 255.
#[inline(never)]
fn write_colour(row: &[u8], into: &mut [u8], width: usize)
    requires row { length row.now ≡ 3 * width }
    requires into { length into.old ≡ 4 * width }
    ensures { into.new ≡ rgba Colour row.now }
{
    for x in 0..width {
        put_pixel_at_once(into, x, opaque(row[3 * x], row[3 * x + 1], row[3 * x + 2]));
    }
}

// A sample, as a number up to 255, of a row in which none is above the maximum.
#[inline(always)]
fn scaled_sample(row: &[u8], index: usize, scale: Scale) -> u8
    requires scale { IsScale scale }
    requires within { list_any (nat_lt scale.maximum) (raw_samples scale.maximum row.now) ≡ false }
    requires inside { index < length (raw_samples scale.maximum row.now) }
    ensures { result ≡ slice_index (map (scaled scale.maximum) (raw_samples scale.maximum row.now)) index }
{
    scaled_by(scale, sample(row, index, scale.maximum))
}

// A pixel of a row in which no sample is above the maximum.
#[inline(always)]
fn pixel(row: &[u8], x: usize, channels: Channels, scale: Scale) -> Rgba
    requires scale { IsScale scale }
    requires within { list_any (nat_lt scale.maximum) (raw_samples scale.maximum row.now) ≡ false }
    requires inside { channel_count channels * (x + 1) ≤ length (raw_samples scale.maximum row.now) }
    ensures { rgba channels (take (channel_count channels) (drop (channel_count channels * x)
        (map (scaled scale.maximum) (raw_samples scale.maximum row.now))))
        ≡ rgba_bytes result }
{
    match channels {
        Channels::Grey => {
            let grey = scaled_sample(row, x, scale);
            opaque(grey, grey, grey)
        }
        Channels::Colour => {
            let red = scaled_sample(row, 3 * x, scale);
            let green = scaled_sample(row, 3 * x + 1, scale);
            let blue = scaled_sample(row, 3 * x + 2, scale);
            opaque(red, green, blue)
        }
    }
}

// Writes a row in which no sample is above the maximum.
#[inline(always)]
fn write_scaled(row: &[u8], channels: Channels, scale: Scale, into: &mut [u8], width: usize)
    requires scale { IsScale scale }
    requires within { list_any (nat_lt scale.maximum) (raw_samples scale.maximum row.now) ≡ false }
    requires row { length (raw_samples scale.maximum row.now) ≡ channel_count channels * width }
    requires into { length into.old ≡ 4 * width }
    ensures { into.new ≡ rgba channels (map (scaled scale.maximum) (raw_samples scale.maximum row.now)) }
{
    for x in 0..width {
        put_pixel(into, x, pixel(row, x, channels, scale));
    }
}

// The same. Each kind has a loop of its own, with no branch in it.
#[inline(never)]
fn write_share(row: &[u8], channels: Channels, scale: Scale, into: &mut [u8], width: usize)
    requires scale { IsScale scale }
    requires within { list_any (nat_lt scale.maximum) (raw_samples scale.maximum row.now) ≡ false }
    requires row { length (raw_samples scale.maximum row.now) ≡ channel_count channels * width }
    requires into { length into.old ≡ 4 * width }
    ensures { into.new ≡ rgba channels (map (scaled scale.maximum) (raw_samples scale.maximum row.now)) }
{
    match (channels, scale.maximum < 256) {
        (Channels::Grey, true) => write_scaled(row, Channels::Grey, scale, into, width),
        (Channels::Grey, false) => write_scaled(row, Channels::Grey, scale, into, width),
        (Channels::Colour, true) => write_scaled(row, Channels::Colour, scale, into, width),
        (Channels::Colour, false) => write_scaled(row, Channels::Colour, scale, into, width),
    }
}

// Writes a row in which no sample is above the maximum, by the shortest way.
fn write_row(row: &[u8], channels: Channels, maximum: u16, into: &mut [u8], width: usize)
    requires maximum { 1 ≤ maximum }
    requires within { list_any (nat_lt maximum) (raw_samples maximum row.now) ≡ false }
    requires row { length (raw_samples maximum row.now) ≡ channel_count channels * width }
    requires into { length into.old ≡ 4 * width }
    ensures { into.new ≡ rgba channels (map (scaled maximum) (raw_samples maximum row.now)) }
{
    if maximum != 255 {
        return write_share(row, channels, scale_of(maximum), into, width);
    }
    match channels {
        Channels::Grey => write_grey(row, into),
        Channels::Colour => write_colour(row, into, width),
    }
}

// Reads a row into the buffer, and gives the text after it.
pub(crate) fn raw_row<'a>(text: &'a [u8], head: Head, into: &mut [u8]) -> Result<&'a [u8], PpmFault>
    requires maximum { 1 ≤ head.maximum }
    requires format { head.format ≡ Raw }
    requires into { length into.old ≡ 4 * head.width }
    ensures { (last : Bool)
        → Gives (λ rest. (into.new, rest.now)) result (row_at head last text.now) }
{
    let width = head.width as usize;
    let wanted = sample_length(head.maximum) * (channel_count(head.channels) * width);
    let (row, rest) = text.split_at(wanted.min(text.len()));
    if has_above(row, head.maximum) {
        return Err(PpmFault::SampleAbove);
    }
    if row.len() < wanted {
        return Err(PpmFault::Truncated);
    }
    write_row(row, head.channels, head.maximum, into, width);
    Ok(rest)
}
