// The headers: the file header and the info header, with the masks or the palette after them.
ghost use Rattle.std.specs.Prelude.{◌≡◌, ◌<◌, ◌≤◌, ◌+◌, ◌⊎◌, length, IfOk};
ghost use Rattle.picture_rows.specs.FullPicture.{IsPictureSize};
ghost use Rattle.bmp_read.specs.Header.{begins_bm, is_info_size, info_size_at, IsSide, HasSides, size_at, is_depth, depth_at, masks_at, palette_count, palette_at, indexed, masked, direct, format_of, head_of};

use crate::bytes::{u16_at, u32_at};
use crate::fault::BmpFault;
use crate::format::{Format, Masks, Palette};
use crate::masks::{are_masks, stored_masks};

// Which row stands first in the file.
#[derive(Clone, Copy, Debug, PartialEq, Eq)]
pub(crate) enum RowOrder {
    TopFirst,
    BottomFirst,
}

/// A picture's size in pixels, and how and where its pixels stand in the text that it was read
/// from.
#[derive(Clone, Copy, Debug, PartialEq, Eq)]
pub struct Head {
    /// From 1 to 2,147,483,647.
    pub width: u32,

    /// Without its sign, from 1 to 2,147,483,647.
    pub height: u32,

    pub(crate) order: RowOrder,
    pub(crate) format: Format,
    // In bytes from the text's beginning.
    pub(crate) raster_start: u32,
}

fn begins_bm(text: &[u8]) -> bool
    ensures { result ≡ begins_bm text.now }
{
    let [b'B', b'M', ..] = text else {
        return false;
    };
    true
}

fn is_info_size(size: u32) -> bool
    ensures { result ≡ is_info_size size }
{
    matches!(size, 40 | 108 | 124)
}

// The info header's length, where the text has both headers whole.
#[tactic(auto, unfolding(crate::specs::Header::info_size_at))]
fn info_size(text: &[u8]) -> Result<u32, BmpFault>
    ensures read { result ≡ info_size_at text.now }
    ensures size { IfOk result (λ size. (size ≡ 40) ⊎ (108 ≤ size)) }
    ensures within { IfOk result (λ size. 14 + size ≤ length text.now) }
{
    if !begins_bm(text) {
        return Err(BmpFault::BadMagic);
    }
    if text.len() < 18 {
        return Err(BmpFault::Truncated);
    }
    let info_size = u32_at(text, 14);
    if !is_info_size(info_size) {
        return Err(BmpFault::BadHeader);
    }
    if text.len() < 14 + info_size as usize {
        return Err(BmpFault::Truncated);
    }
    if u16_at(text, 26) != 1 {
        return Err(BmpFault::BadHeader);
    }
    Ok(info_size)
}

// The width, the height without its sign, and the order of the rows.
#[tactic(auto, unfolding(crate::specs::Header::size_at))]
fn size(text: &[u8]) -> Result<(u32, u32, RowOrder), BmpFault>
    requires { 54 ≤ length text.now }
    ensures read { result ≡ size_at text.now }
    ensures sides { IfOk result (λ found. IsSide found.0 × IsSide found.1) }
{
    let width = u32_at(text, 18);
    let height = u32_at(text, 22);
    if width == 0 {
        return Err(BmpFault::BadSize);
    }
    if width >= 0x8000_0000 {
        return Err(BmpFault::BadSize);
    }
    if height == 0 {
        return Err(BmpFault::BadSize);
    }
    if height == 0x8000_0000 {
        return Err(BmpFault::BadSize);
    }
    if height < 0x8000_0000 {
        return Ok((width, height, RowOrder::BottomFirst));
    }
    // The height is below 0, in two's complement.
    Ok((width, u32::MAX - height + 1, RowOrder::TopFirst))
}

fn is_depth(compression: u32, bits: u16) -> bool
    ensures { result ≡ is_depth compression bits }
{
    match bits {
        16 | 32 => true,
        1 | 4 | 8 | 24 => compression == 0,
        _ => false,
    }
}

// The compression and the bits of a pixel.
#[tactic(auto, unfolding(crate::specs::Header::depth_at))]
fn depth(text: &[u8]) -> Result<(u32, u16), BmpFault>
    requires { 54 ≤ length text.now }
    ensures { result ≡ depth_at text.now }
{
    let compression = u32_at(text, 30);
    let bits = u16_at(text, 28);
    if compression != 0 && compression != 3 {
        return Err(BmpFault::Compressed(compression));
    }
    if !is_depth(compression, bits) {
        return Err(BmpFault::BadDepth);
    }
    Ok((compression, bits))
}

#[tactic(auto, unfolding(crate::specs::Header::masks_at))]
fn masks(text: &[u8], info_size: u32, bits: u16) -> Result<Masks, BmpFault>
    requires size { (info_size ≡ 40) ⊎ (108 ≤ info_size) }
    requires within { 14 + info_size ≤ length text.now }
    ensures { result ≡ masks_at info_size bits text.now }
{
    if info_size == 40 && text.len() < 66 {
        return Err(BmpFault::Truncated);
    }
    let masks = stored_masks(text, info_size);
    if !are_masks(bits, masks) {
        return Err(BmpFault::BadMasks);
    }
    Ok(masks)
}

// How many entries a palette has, of which the header says this.
fn palette_count(bits: u16, stored: u32) -> usize
    requires { bits ≤ 8 }
    ensures count { result ≡ palette_count bits stored }
    ensures bound { result ≤ 256 }
{
    let all = 1 << bits;
    if stored == 0 || stored > all {
        all as usize
    } else {
        stored as usize
    }
}

#[tactic(auto, unfolding(crate::specs::Header::palette_at))]
fn palette(text: &[u8], info_size: u32, bits: u16) -> Result<Palette, BmpFault>
    requires bits { bits ≤ 8 }
    requires headers { 54 ≤ length text.now }
    ensures { result ≡ palette_at info_size bits text.now }
{
    let start = 14 + info_size as usize;
    let count = palette_count(bits, u32_at(text, 46));
    if text.len() < start + 4 * count {
        return Err(BmpFault::Truncated);
    }
    Ok(Palette { start, count })
}

fn indexed(bits: u16, palette: Palette) -> Format
    ensures { result ≡ indexed bits palette }
{
    match bits {
        1 => Format::Indexed1(palette),
        4 => Format::Indexed4(palette),
        _ => Format::Indexed8(palette),
    }
}

fn masked(bits: u16, masks: Masks) -> Format
    ensures { result ≡ masked bits masks }
{
    if bits == 16 {
        Format::Masked16(masks)
    } else {
        Format::Masked32(masks)
    }
}

fn direct(bits: u16) -> Format
    ensures { result ≡ direct bits }
{
    match bits {
        16 => Format::Rgb555,
        24 => Format::Bgr24,
        _ => Format::Bgr32,
    }
}

// How pixels of this compression and of so many bits are stored.
#[tactic(auto, unfolding(crate::specs::Header::format_of))]
fn format(text: &[u8], info_size: u32, compression: u32, bits: u16) -> Result<Format, BmpFault>
    requires size { (info_size ≡ 40) ⊎ (108 ≤ info_size) }
    requires within { 14 + info_size ≤ length text.now }
    ensures { result ≡ format_of info_size compression bits text.now }
{
    if compression == 3 {
        let masks = masks(text, info_size, bits)?;
        return Ok(masked(bits, masks));
    }
    if bits <= 8 {
        let palette = palette(text, info_size, bits)?;
        return Ok(indexed(bits, palette));
    }
    Ok(direct(bits))
}

/// Reads the headers that a text begins with, and the masks or the place of the palette after
/// them. Whether the text has the raster is for `Rows` to see.
///
/// The headers are those of Windows bitmaps: BITMAPFILEHEADER, and BITMAPINFOHEADER, BITMAPV4HEADER
/// or BITMAPV5HEADER. Both sides are from 1 to 2,147,483,647. All fields but the raster's place,
/// the two sides, the planes, the bits of a pixel, the compression, the count of colours and the
/// masks are ignored.
#[tactic(auto, unfolding(crate::specs::Header::head_of))]
pub fn read_head(bytes: &[u8]) -> Result<Head, BmpFault>
    ensures head { result ≡ head_of bytes.now }
    ensures size { IfOk result (λ head. IsPictureSize head.width head.height) }
    ensures sides { IfOk result HasSides }
{
    let info_size = info_size(bytes)?;
    let (width, height, order) = size(bytes)?;
    let (compression, bits) = depth(bytes)?;
    let format = format(bytes, info_size, compression, bits)?;
    Ok(Head {
        width,
        height,
        order,
        format,
        raster_start: u32_at(bytes, 10),
    })
}
