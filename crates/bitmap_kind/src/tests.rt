// Each call once, with ample memory.
ghost use Rattle.std.specs.Prelude.{◌≡◌, ◌∷◌, [], IfOk};
ghost use Rattle.bitmap_kind.specs.Picture.{pixel_limit, stored_size, IsSize};
ghost use Rattle.bitmap_kind.specs.Stored.{stored};

use crate::{Bitmap, Config};
use faults::NoMemory;
use std::alloc::Global;
use std::test::Fail;

// The definition itself on worked pixels, computed where the tests are proved: red, and a blue of half
// opacity. Of (8, 4, 8) each part of 16 bits is 1, and 2048 + 32 + 1 is 0x0821.
fn worked_pixels()
    ensures argb8888 { stored Config.Argb8888 (255 ∷ 0 ∷ 0 ∷ 255 ∷ 0 ∷ 0 ∷ 255 ∷ 128 ∷ [])
        ≡ 255 ∷ 0 ∷ 0 ∷ 255 ∷ 0 ∷ 0 ∷ 255 ∷ 128 ∷ [] }
    ensures rgb565 { stored Config.Rgb565 (255 ∷ 0 ∷ 0 ∷ 255 ∷ 0 ∷ 0 ∷ 255 ∷ 128 ∷ [])
        ≡ 0x00 ∷ 0xf8 ∷ 0x1f ∷ 0x00 ∷ [] }
    ensures parts { stored Config.Rgb565 (8 ∷ 4 ∷ 8 ∷ 0 ∷ []) ≡ 0x21 ∷ 0x08 ∷ [] }
    ensures alpha8 { stored Config.Alpha8 (255 ∷ 0 ∷ 0 ∷ 255 ∷ 0 ∷ 0 ∷ 255 ∷ 128 ∷ []) ≡ 255 ∷ 128 ∷ [] }
{}

// The limit on pixels: 8,192 by 4,096 are as many as a bitmap may have, and one pixel more is too many.
fn worked_limits()
    ensures at_the_limit { IsSize 8192 4096 }
    ensures a_line { IsSize pixel_limit 1 }
    ensures past_the_limit { IsSize 33554433 1 → ⊥ }
{}

// Red, and a blue of half opacity.
const PIXELS: [u8; 8] = [255, 0, 0, 255, 0, 0, 255, 128];

fn row_of(alloc: Global, config: Config) -> Result<Bitmap, NoMemory>
    ensures allocation { IfOk result (λ b. b.allocation ≡ stored_size 2 1 config) }
    ensures width { IfOk result (λ b. b.picture.width ≡ 2) }
    ensures height { IfOk result (λ b. b.picture.height ≡ 1) }
    ensures config { IfOk result (λ b. b.picture.config ≡ config) }
{
    let mut bitmap = Bitmap::make(alloc, 7, 2, 1, config)?;
    bitmap.put_row(0, &PIXELS);
    Ok(bitmap)
}

// In 16 bits red is 0xf800 and blue 0x001f, each with its low byte first.
#[test]
fn stores_a_row_in_each_config(rt: HostRuntime) -> Result<(), Fail> {
    assert_eq!(rt;
        row_of(rt.alloc(), Config::Argb8888)?.bytes(),
        PIXELS.as_slice()
    );
    assert_eq!(rt;
        row_of(rt.alloc(), Config::Rgb565)?.bytes(),
        [0x00, 0xf8, 0x1f, 0x00].as_slice()
    );
    assert_eq!(rt;
        row_of(rt.alloc(), Config::Alpha8)?.bytes(),
        [255, 128].as_slice()
    );
    Ok(())
}

#[test]
fn makes_and_reconfigures(rt: HostRuntime) -> Result<(), Fail> {
    let mut bitmap = row_of(rt.alloc(), Config::Argb8888)?;
    assert_eq!(rt; bitmap.number(), 7);
    assert_eq!(rt; bitmap.allocation(), 8);
    assert!(rt; !bitmap.fits(3, 1, Config::Argb8888));
    assert!(rt; !bitmap.fits(0, 1, Config::Alpha8));
    assert!(rt; bitmap.fits(1, 3, Config::Rgb565));
    bitmap.reconfigure(1, 3, Config::Rgb565);
    assert_eq!(rt; (bitmap.width(), bitmap.height()), (1, 3));
    assert!(rt; bitmap.config() == Config::Rgb565);
    assert_eq!(rt; bitmap.allocation(), 8);
    assert_eq!(rt; bitmap.bytes(), [255, 0, 0, 255, 0, 0].as_slice());
    bitmap.erase();
    assert_eq!(rt; bitmap.bytes(), [0, 0, 0, 0, 0, 0].as_slice());
    Ok(())
}

#[test]
fn stores_whole_pictures(rt: HostRuntime) -> Result<(), Fail> {
    let mut bitmap = row_of(rt.alloc(), Config::Rgb565)?;
    bitmap.put_bytes(&[1, 2, 3, 4]);
    assert_eq!(rt; bitmap.bytes(), [1, 2, 3, 4].as_slice());
    assert_eq!(rt; bitmap.number(), 7);
    Ok(())
}

#[test]
fn copies_pixels(rt: HostRuntime) -> Result<(), Fail> {
    let source = row_of(rt.alloc(), Config::Alpha8)?;
    let mut target = Bitmap::make(rt.alloc(), 8, 3, 2, Config::Alpha8)?;
    target.put_pixel(2, 0, [1, 2, 3, 4]);
    target.copy_pixel(0, 1, &source, 1, 0);
    assert_eq!(rt; target.bytes(), [0, 0, 4, 128, 0, 0].as_slice());
    target.copy_run(1, 0, &source, 0, 0, 2);
    target.copy_columns(0, 1, &source, 0, &[1, 0, 1]);
    assert_eq!(rt; target.bytes(), [0, 255, 128, 128, 255, 128].as_slice());
    Ok(())
}
