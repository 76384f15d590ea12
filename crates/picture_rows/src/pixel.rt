// Pixels in a row's buffer.
ghost use Rattle.std.specs.Prelude.{◌≡◌, ◌≤◌, ◌+◌, ◌*◌, ◌++◌, length, take};
ghost use Rattle.picture_rows.specs.PixelBytes.{rgba_bytes};

/// A pixel: four samples of the maximum 255. An alpha of 255 hides what is behind the pixel.
#[derive(Clone, Copy, Debug, PartialEq, Eq)]
pub struct Rgba {
    pub red: u8,
    pub green: u8,
    pub blue: u8,
    pub alpha: u8,
}

/// Writes the pixel into its column of a row's buffer.
#[inline(always)]
pub fn put_pixel(into: &mut [u8], x: usize, pixel: Rgba)
    requires { 4 * x + 4 ≤ length into.old }
    ensures { take (4 * (x + 1)) into.new ≡ take (4 * x) into.old ++ rgba_bytes pixel }
{
    into[4 * x] = pixel.red;
    into[4 * x + 1] = pixel.green;
    into[4 * x + 2] = pixel.blue;
    into[4 * x + 3] = pixel.alpha;
}

/// The same by one store, which is faster where the samples come as they are written.
#[inline(always)]
pub fn put_pixel_at_once(into: &mut [u8], x: usize, pixel: Rgba)
    requires { 4 * x + 4 ≤ length into.old }
    ensures { take (4 * (x + 1)) into.new ≡ take (4 * x) into.old ++ rgba_bytes pixel }
{
    into[4 * x..4 * x + 4].copy_from_slice(&[pixel.red, pixel.green, pixel.blue, pixel.alpha]);
}
