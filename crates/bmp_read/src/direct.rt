// Rows of colours of a fixed layout. The loops over a row stay functions of their own, so that they keep
// their values in registers.
ghost use Rattle.std.specs.Prelude.{◌≡◌, ◌≤◌, ◌*◌, length};
ghost use Rattle.picture_rows.specs.PixelBytes.{rgba_bytes};
ghost use Rattle.bmp_read.specs.Pixel.{bgr_at, rgb555};
ghost use Rattle.bmp_read.specs.Bytes.{u16_at};
ghost use Rattle.bmp_read.specs.Raster.{pixels};

use crate::bytes::u16_at;
use crate::pixel::bgr;
use picture_rows::{Rgba, put_pixel, put_pixel_at_once, scaled};

// The colour of a value with five bits for each of red, green and blue.
fn rgb555(value: u16) -> Rgba
    ensures { rgba_bytes result ≡ rgb555 value }
{
    let value = u32::from(value);
    Rgba {
        red: scaled((value >> 10) % 32, 31),
        green: scaled((value >> 5) % 32, 31),
        blue: scaled(value % 32, 31),
        alpha: 255,
    }
}

#[inline(never)]
pub(crate) fn write_rgb555(row: &[u8], into: &mut [u8], width: usize)
    requires row { 2 * width ≤ length row.now }
    requires into { length into.old ≡ 4 * width }
    ensures { into.new ≡ pixels (λ x. rgb555 (u16_at (2 * x) row.now)) width }
{
    for x in 0..width {
        put_pixel(into, x, rgb555(u16_at(row, 2 * x)));
    }
}

#[inline(never)]
pub(crate) fn write_bgr24(row: &[u8], into: &mut [u8], width: usize)
    requires row { 3 * width ≤ length row.now }
    requires into { length into.old ≡ 4 * width }
    ensures { into.new ≡ pixels (λ x. bgr_at (3 * x) row.now) width }
{
    for x in 0..width {
        put_pixel_at_once(into, x, bgr(row, 3 * x));
    }
}

#[inline(never)]
pub(crate) fn write_bgr32(row: &[u8], into: &mut [u8], width: usize)
    requires row { 4 * width ≤ length row.now }
    requires into { length into.old ≡ 4 * width }
    ensures { into.new ≡ pixels (λ x. bgr_at (4 * x) row.now) width }
{
    for x in 0..width {
        put_pixel_at_once(into, x, bgr(row, 4 * x));
    }
}
