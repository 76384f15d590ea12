// The header: the magic number, the two sides and the maximum.
ghost use Rattle.std.specs.Prelude.{◌≡◌, ◌≤◌, length, IfOk};
ghost use Rattle.picture_rows.specs.Reading.{Gives};
ghost use Rattle.picture_rows.specs.FullPicture.{IsPictureSize};
ghost use Rattle.ppm_read.specs.Header.{kind_of, magic_at, part_at, size_at, maximum_at, raster_at, head_of};

use crate::fault::PpmFault;
use crate::number::{after_gap, begins_white, missing, number};

// What a pixel is made of: one sample, or red, green and blue.
#[derive(Clone, Copy, Debug, PartialEq, Eq)]
pub(crate) enum Channels {
    Grey,
    Colour,
}

// How samples are written: as decimal numbers, or as bytes.
#[derive(Clone, Copy, Debug, PartialEq, Eq)]
pub(crate) enum Format {
    Plain,
    Raw,
}

/// A picture's size in pixels, and how and where its raster stands in the text that it was read
/// from.
#[derive(Clone, Copy, Debug, PartialEq, Eq)]
pub struct Head {
    pub width: u32,
    pub height: u32,
    pub(crate) channels: Channels,
    pub(crate) format: Format,
    // What a sample of full strength is, from 1 on.
    pub(crate) maximum: u16,
    pub(crate) raster_start: usize,
}

// The kind that the digit of a magic number stands for.
fn kind_of(digit: u8) -> Result<(Channels, Format), PpmFault>
    ensures { Gives (λ kind. kind) result (kind_of digit) }
{
    match digit {
        b'2' => Ok((Channels::Grey, Format::Plain)),
        b'3' => Ok((Channels::Colour, Format::Plain)),
        b'5' => Ok((Channels::Grey, Format::Raw)),
        b'6' => Ok((Channels::Colour, Format::Raw)),
        _ => Err(PpmFault::BadMagic),
    }
}

// The kind of the text, and the text after its magic number.
fn magic(text: &[u8]) -> Result<(Channels, Format, &[u8]), PpmFault>
    ensures read { Gives (λ found. (found.0, found.1, found.2.now)) result (magic_at text.now) }
    ensures within { IfOk result (λ found. length found.2.now ≤ length text.now) }
{
    let [b'P', digit, rest @ ..] = text else {
        return Err(PpmFault::BadMagic);
    };
    let (channels, format) = kind_of(*digit)?;
    Ok((channels, format, rest))
}

// A number of the header, and the text after it.
fn part(text: &[u8]) -> Result<(u32, &[u8]), PpmFault>
    ensures read { Gives (λ found. (found.0, found.1.now)) result (part_at text.now) }
    ensures within { IfOk result (λ found. length found.1.now ≤ length text.now) }
{
    number(after_gap(text)?, false)
}

// The width, the height and the text after them.
#[tactic(auto, unfolding(crate::specs::Header::size_at))]
fn size(text: &[u8]) -> Result<(u32, u32, &[u8]), PpmFault>
    ensures sides { IfOk result (λ found. (1 ≤ found.0) × (1 ≤ found.1)) }
    ensures read { Gives (λ found. (found.0, found.1, found.2.now)) result (size_at text.now) }
    ensures within { IfOk result (λ found. length found.2.now ≤ length text.now) }
{
    let (width, rest) = part(text)?;
    let (height, rest) = part(rest)?;
    if width == 0 {
        return Err(PpmFault::BadSize);
    }
    if height == 0 {
        return Err(PpmFault::BadSize);
    }
    Ok((width, height, rest))
}

// The maximum of a sample, and the text after it.
#[tactic(auto, unfolding(crate::specs::Header::maximum_at))]
fn maximum(text: &[u8]) -> Result<(u16, &[u8]), PpmFault>
    ensures read { Gives (λ found. (found.0, found.1.now)) result (maximum_at text.now) }
    ensures within { IfOk result (λ found. length found.1.now ≤ length text.now) }
{
    let (maximum, rest) = part(text)?;
    if maximum == 0 {
        return Err(PpmFault::BadMaximum);
    }
    if maximum > 65_535 {
        return Err(PpmFault::BadMaximum);
    }
    Ok((maximum as u16, rest))
}

// The text from where the raster begins.
fn raster(format: Format, text: &[u8]) -> Result<&[u8], PpmFault>
    ensures read { Gives (λ rest. rest.now) result (raster_at format text.now) }
    ensures within { IfOk result (λ rest. length rest.now ≤ length text.now) }
{
    if format == Format::Plain {
        return Ok(text);
    }
    if !begins_white(text) {
        return Err(missing(text));
    }
    let (_, rest) = text.split_at(1);
    Ok(rest)
}

/// Reads the header that a text begins with, and looks at nothing after it.
///
/// The header is that of Netpbm's ppm(5) and pgm(5): `P2`, `P3`, `P5` or `P6`, the width, the height
/// and the maximum, with white space or comments before each number. Where the samples are raw, one
/// white byte ends it. Both sides are from 1 to 4,294,967,295, and the maximum from 1 to 65,535.
#[tactic(auto, unfolding(crate::specs::Header::head_of))]
pub fn read_head(bytes: &[u8]) -> Result<Head, PpmFault>
    ensures head { result ≡ head_of bytes.now }
    ensures size { IfOk result (λ head. IsPictureSize head.width head.height) }
{
    let (channels, format, rest) = magic(bytes)?;
    let (width, height, rest) = size(rest)?;
    let (maximum, rest) = maximum(rest)?;
    let raster = raster(format, rest)?;
    Ok(Head {
        width,
        height,
        channels,
        format,
        maximum,
        raster_start: bytes.len() - raster.len(),
    })
}
