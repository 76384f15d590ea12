// Rows of indexes into a palette. The loops over a row stay functions of their own, so that they keep
// their values in registers.
ghost use Rattle.std.specs.Prelude.{◌≡◌, ◌≤◌, ◌<◌, ◌/◌, ◌+◌, ◌*◌, length, slice_index};
ghost use Rattle.picture_rows.specs.PixelBytes.{rgba_bytes};
ghost use Rattle.bmp_read.specs.Pixel.{palette_colour, index1, index4, IsPaletteInside};
ghost use Rattle.bmp_read.specs.Raster.{pixels};

use crate::format::Palette;
use crate::pixel::bgr;
use picture_rows::{Rgba, put_pixel, put_pixel_at_once};

// The colour of an index that the palette has.
fn known_colour(text: &[u8], palette: Palette, index: u8) -> Rgba
    requires palette { IsPaletteInside palette text.now }
    requires known { index < palette.count }
    ensures { rgba_bytes result ≡ palette_colour palette text.now index }
{
    bgr(text, palette.start + 4 * usize::from(index))
}

// The colour of an index, which is opaque black where the palette has none.
fn palette_colour(text: &[u8], palette: Palette, index: u8) -> Rgba
    requires { IsPaletteInside palette text.now }
    ensures { rgba_bytes result ≡ palette_colour palette text.now index }
{
    if usize::from(index) < palette.count {
        return known_colour(text, palette, index);
    }
    Rgba {
        red: 0,
        green: 0,
        blue: 0,
        alpha: 255,
    }
}

fn index1(row: &[u8], x: usize) -> u8
    requires { x / 8 < length row.now }
    ensures { result ≡ index1 row.now x }
{
    (row[x / 8] >> (7 - x % 8)) % 2
}

fn index4(row: &[u8], x: usize) -> u8
    requires { x / 2 < length row.now }
    ensures value { result ≡ index4 row.now x }
    ensures bound { result < 16 }
{
    if x % 2 == 0 {
        row[x / 2] >> 4
    } else {
        row[x / 2] % 16
    }
}

#[inline(never)]
pub(crate) fn write_indexed1(
    text: &[u8],
    palette: Palette,
    row: &[u8],
    into: &mut [u8],
    width: usize,
)
    requires palette { IsPaletteInside palette text.now }
    requires row { width ≤ 8 * length row.now }
    requires into { length into.old ≡ 4 * width }
    ensures { into.new ≡ pixels (λ x. palette_colour palette text.now (index1 row.now x)) width }
{
    for x in 0..width {
        put_pixel_at_once(into, x, palette_colour(text, palette, index1(row, x)));
    }
}

// Writes a row by a palette that has all indexes.
#[inline(never)]
fn write_known4(text: &[u8], palette: Palette, row: &[u8], into: &mut [u8], width: usize)
    requires palette { IsPaletteInside palette text.now }
    requires known { palette.count ≡ 16 }
    requires row { width ≤ 2 * length row.now }
    requires into { length into.old ≡ 4 * width }
    ensures { into.new ≡ pixels (λ x. palette_colour palette text.now (index4 row.now x)) width }
{
    for x in 0..width {
        put_pixel(into, x, known_colour(text, palette, index4(row, x)));
    }
}

#[inline(never)]
pub(crate) fn write_indexed4(
    text: &[u8],
    palette: Palette,
    row: &[u8],
    into: &mut [u8],
    width: usize,
)
    requires palette { IsPaletteInside palette text.now }
    requires row { width ≤ 2 * length row.now }
    requires into { length into.old ≡ 4 * width }
    ensures { into.new ≡ pixels (λ x. palette_colour palette text.now (index4 row.now x)) width }
{
    if palette.count == 16 {
        return write_known4(text, palette, row, into, width);
    }
    for x in 0..width {
        put_pixel(into, x, palette_colour(text, palette, index4(row, x)));
    }
}

// Writes a row by a palette that has all indexes.
#[inline(never)]
fn write_known8(text: &[u8], palette: Palette, row: &[u8], into: &mut [u8], width: usize)
    requires palette { IsPaletteInside palette text.now }
    requires known { palette.count ≡ 256 }
    requires row { width ≤ length row.now }
    requires into { length into.old ≡ 4 * width }
    ensures { into.new ≡ pixels (λ x. palette_colour palette text.now (slice_index row.now x)) width }
{
    for x in 0..width {
        put_pixel(into, x, known_colour(text, palette, row[x]));
    }
}

#[inline(never)]
pub(crate) fn write_indexed8(
    text: &[u8],
    palette: Palette,
    row: &[u8],
    into: &mut [u8],
    width: usize,
)
    requires palette { IsPaletteInside palette text.now }
    requires row { width ≤ length row.now }
    requires into { length into.old ≡ 4 * width }
    ensures { into.new ≡ pixels (λ x. palette_colour palette text.now (slice_index row.now x)) width }
{
    if palette.count == 256 {
        return write_known8(text, palette, row, into, width);
    }
    for x in 0..width {
        put_pixel(into, x, palette_colour(text, palette, row[x]));
    }
}
