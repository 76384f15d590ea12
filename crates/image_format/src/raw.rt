// The raw form of a picture.
ghost use Rattle.std.specs.Prelude.{◌≡◌, ◌↔◌, ◌+◌, ◌≤◌, length, Some, IfOk, IfSome, IsTrue};
ghost use Rattle.std.specs.Int.{w32, from_le_bytes};
ghost use Rattle.bitmap_kind.specs.Picture.{Picture};
ghost use Rattle.cache_key.specs.KeyBytes.{config_byte};
ghost use Rattle.image_format.specs.RawForm.{IsRawForm, IsRawSize, RawFormIsOfOnePicture, raw_picture, raw_picture_like, side_at};

use bitmap_kind::{Bitmap, Config};
use faults::NoMemory;
use std::alloc::Global;

// How many bytes stand before the stored ones: `GLR1`, the config's, and two sides of 32 bits.
const HEAD_SIZE: usize = 13;

// The byte that stands for a config.
fn config_byte(config: Config) -> u8
    ensures { result ≡ config_byte config }
{
    match config {
        Config::Argb8888 => 0,
        Config::Rgb565 => 1,
        Config::Alpha8 => 2,
    }
}

// The config that a byte stands for.
fn config_of(byte: u8) -> Option<Config>
    ensures config { IfSome result (λ config. byte ≡ config_byte config) }
    ensures found { (config : Config) → byte ≡ config_byte config → result ≡ Some config }
{
    match byte {
        0 => Some(Config::Argb8888),
        1 => Some(Config::Rgb565),
        2 => Some(Config::Alpha8),
        _ => None,
    }
}

/// The raw form of a bitmap's picture: `GLR1`, a byte for its config (0 argb, 1 rgb565, 2 alpha), its
/// width and its height as 32 bits with the low byte first, and its stored bytes, in one copy. This
/// project keeps results so.
pub fn write_raw(alloc: Global, bitmap: &Bitmap) -> Result<Vec<u8>, NoMemory>
    ensures { IfOk result (λ text. IsRawForm text.items bitmap.now.picture) }
{
    let bytes = bitmap.bytes();
    let mut text = Vec::with_capacity(alloc, HEAD_SIZE + bytes.len())?;
    text.extend_from_slice(b"GLR1")?;
    text.extend_from_slice(&[config_byte(bitmap.config())])?;
    text.extend_from_slice(&bitmap.width().to_le_bytes())?;
    text.extend_from_slice(&bitmap.height().to_le_bytes())?;
    text.extend_from_slice(bytes)?;
    Ok(text)
}

// The side that stands at a place of a text.
fn side_at(text: &[u8], at: usize) -> u32
    requires { at + 4 ≤ length text.now }
    ensures { result ≡ side_at at text.now }
{
    u32::from_le_bytes([text[at], text[at + 1], text[at + 2], text[at + 3]])
}

// Whether so many bytes are those of a picture of these sides and this config, which a bitmap may have.
fn is_raw_size(config: Config, width: u32, height: u32, size: usize) -> bool
    ensures { IsTrue result ↔ IsRawSize config width height size }
{
    let pixels = u64::from(width) * u64::from(height);
    if width == 0 || height == 0 || pixels > Bitmap::MOST_PIXELS {
        return false;
    }
    pixels * config.pixel_bytes() as u64 == size as u64
}

/// The config, the width and the height of the picture whose raw form the text is. None comes exactly
/// where it is no picture's.
pub fn raw_head(bytes: &[u8]) -> Option<(Config, u32, u32)>
    ensures form { IfSome result (λ head. IsRawForm bytes.now
        (raw_picture head.0 head.1 head.2 bytes.now)) }
    ensures found { (picture : Picture) → IsRawForm bytes.now picture
        → result ≡ Some (picture.config, picture.width, picture.height) }
{
    if bytes.len() < HEAD_SIZE || !bytes.starts_with(b"GLR1") {
        return None;
    }
    let config = config_of(bytes[4])?;
    let width = side_at(bytes, 5);
    let height = side_at(bytes, 9);
    if !is_raw_size(config, width, height, bytes.len() - HEAD_SIZE) {
        return None;
    }
    Some((config, width, height))
}

/// Stores the picture whose raw form the text is, in one copy. The bitmap has the sides and the config
/// that `raw_head` answers of the text.
pub fn read_raw(bytes: &[u8], target: &mut Bitmap)
    requires { IsRawForm bytes.now (raw_picture_like target.old.picture bytes.now) }
    ensures target { target.new ≡ record target.old {
      picture = raw_picture_like target.old.picture bytes.now;
    } }
    ensures picture { IsRawForm bytes.now target.new.picture }
{
    target.put_bytes(&bytes[HEAD_SIZE..]);
}

/// A text is the raw form of one picture at most, and a picture has one raw form. So what `write_raw`
/// gives is read again as the same picture. (A law: the call does nothing.)
pub fn raw_form_is_of_one_picture()
    ensures { RawFormIsOfOnePicture }
{}
