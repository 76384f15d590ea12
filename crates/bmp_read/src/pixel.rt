// Pixels as they stand in a text.
ghost use Rattle.std.specs.Prelude.{◌≡◌, ◌≤◌, ◌+◌, length};
ghost use Rattle.picture_rows.specs.PixelBytes.{rgba_bytes};
ghost use Rattle.bmp_read.specs.Pixel.{bgr_at};

use picture_rows::Rgba;

// The colour that blue, green and red from this place on are.
pub(crate) fn bgr(bytes: &[u8], at: usize) -> Rgba
    requires { at + 3 ≤ length bytes.now }
    ensures { rgba_bytes result ≡ bgr_at at bytes.now }
{
    Rgba {
        red: bytes[at + 2],
        green: bytes[at + 1],
        blue: bytes[at],
        alpha: 255,
    }
}
