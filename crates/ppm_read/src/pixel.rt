// Pixels of samples.
ghost use Rattle.std.specs.Prelude.{◌≡◌, [], ◌∷◌};
ghost use Rattle.picture_rows.specs.PixelBytes.{rgba_bytes};
ghost use Rattle.ppm_read.specs.Raster.{channel_count};

use crate::header::Channels;
use picture_rows::Rgba;

// How many samples a pixel has.
pub(crate) fn channel_count(channels: Channels) -> usize
    ensures { result ≡ channel_count channels }
{
    match channels {
        Channels::Grey => 1,
        Channels::Colour => 3,
    }
}

// A pixel of no transparency.
pub(crate) fn opaque(red: u8, green: u8, blue: u8) -> Rgba
    ensures { rgba_bytes result ≡ red ∷ green ∷ blue ∷ 255 ∷ [] }
{
    Rgba {
        red,
        green,
        blue,
        alpha: 255,
    }
}
