// Pictures, plans and raw forms that were worked by hand.
ghost use Rattle.std.specs.Prelude.{◌≡◌, ◌∷◌, ◌++◌, [], codes, true, false, Ok, Err, Some, None};
ghost use Rattle.std.specs.Int.{w32, to_le_bytes};
ghost use Rattle.std.specs.List.{flat_map};
ghost use Rattle.bitmap_kind.specs.Picture.{pixel_limit};
ghost use Rattle.image_format.specs.Pictures.{source_side_limit, kind_of, is_too_large, picture_of};
ghost use Rattle.image_format.specs.Content.{picture_at};
ghost use Rattle.image_format.specs.RawForm.{raw_text};
ghost use Rattle.image_format.specs.Worked.{argb, wanted};

use crate::kinds::Kind;
use crate::{DecodeFault, Plan, Refusal, decode_into, plan_of, raw_head, read_raw, write_raw};
use bitmap_kind::{Bitmap, Config, Rule, Transform};
use bmp_read::BmpFault;
use cache_key::{EngineKey, Text};
use ppm_read::PpmFault;
use std::alloc::Global;
use std::process::Abort;
use std::test::Fail;

// The definitions themselves on worked texts, computed where the tests are proved. The first is a red
// pixel and a blue one. A text of no kind is unknown, and no reader's fault; one that has a kind keeps
// the fault of its own reader.
fn worked_pictures()
    ensures argb { picture_of (codes "P6 2 1 255 " ++ 255 ∷ 0 ∷ 0 ∷ 0 ∷ 0 ∷ 255 ∷ [])
        (wanted 2 1 Transform.Nothing Config.Argb8888 Rule.AtLeast)
        ≡ Ok (argb 2 1 (255 ∷ 0 ∷ 0 ∷ 255 ∷ 0 ∷ 0 ∷ 255 ∷ 255 ∷ [])) }
    ensures rgb565 { picture_of (codes "P6 2 1 255 " ++ 255 ∷ 0 ∷ 0 ∷ 0 ∷ 0 ∷ 255 ∷ [])
        (wanted 2 1 Transform.Nothing Config.Rgb565 Rule.AtLeast)
        ≡ Ok record { width = 2; height = 1; config = Config.Rgb565; bytes = 0 ∷ 248 ∷ 31 ∷ 0 ∷ [] } }
    ensures at_most { picture_of (codes "P2 4 1 255 1 2 3 4")
        (wanted 2 1 Transform.Nothing Config.Argb8888 Rule.AtMost)
        ≡ Ok (argb 2 1 (2 ∷ 2 ∷ 2 ∷ 255 ∷ 4 ∷ 4 ∷ 4 ∷ 255 ∷ [])) }
    ensures fit { picture_of (codes "P2 3 2 255 1 2 3 4 5 6")
        (wanted 2 2 Transform.Fit Config.Argb8888 Rule.AtLeast)
        ≡ Ok (argb 2 1 (4 ∷ 4 ∷ 4 ∷ 255 ∷ 6 ∷ 6 ∷ 6 ∷ 255 ∷ [])) }
    ensures unknown { picture_of (codes "hello")
        (wanted 2 1 Transform.Nothing Config.Argb8888 Rule.AtLeast) ≡ Err Refusal.Unknown }
    ensures truncated { picture_of (codes "P6 2 1 255 ")
        (wanted 2 1 Transform.Nothing Config.Argb8888 Rule.AtLeast) ≡ Err (Refusal.Ppm PpmFault.Truncated) }
    ensures large_target { picture_of (codes "P6 2 1 255 ")
        (wanted 16384 16384 Transform.Crop Config.Argb8888 Rule.AtLeast) ≡ Err Refusal.TooLarge }
    ensures nothing { picture_at None
        (wanted 2 1 Transform.Nothing Config.Argb8888 Rule.AtLeast) ≡ None }
{}

// The same of Windows bitmaps: 1 by 2 pixels of 24 bits, whose text is fields of four bytes after `BM`,
// and a text that ends there.
fn worked_bitmaps()
    ensures bottom_first { picture_of (codes "BM" ++ flat_map (to_le_bytes w32)
        (62 ∷ 0 ∷ 54 ∷ 40 ∷ 1 ∷ 2 ∷ 0x0018_0001 ∷ 0 ∷ 0 ∷ 0 ∷ 0 ∷ 0 ∷ 0 ∷ 0x0003_0201 ∷ 0x0006_0504 ∷ []))
        (wanted 1 2 Transform.Nothing Config.Argb8888 Rule.AtLeast)
        ≡ Ok (argb 1 2 (6 ∷ 5 ∷ 4 ∷ 255 ∷ 3 ∷ 2 ∷ 1 ∷ 255 ∷ [])) }
    ensures truncated { picture_of (codes "BM")
        (wanted 2 1 Transform.Nothing Config.Argb8888 Rule.AtLeast) ≡ Err (Refusal.Bmp BmpFault.Truncated) }
{}

// Kinds, and the limits on sizes: at the limit, and one past it. Each source is wanted at 16,384 by 2,048
// pixels, which are as many as a bitmap may have, or at a row more.
fn worked_limits()
    ensures bitmap { kind_of (codes "BM") ≡ Some Kind.Bitmap }
    ensures netpbm { kind_of (codes "P5 ") ≡ Some Kind.Netpbm }
    ensures neither { kind_of (codes "P4 ") ≡ None }
    ensures one_byte { kind_of (codes "P") ≡ None }
    ensures most_pixels { is_too_large
        (wanted 16384 2048 Transform.Crop Config.Alpha8 Rule.AtLeast)
        (source_side_limit, 2048) ≡ false }
    ensures a_row_more { is_too_large
        (wanted 16384 2048 Transform.Crop Config.Alpha8 Rule.AtLeast)
        (16384, 2049) ≡ true }
    ensures side_too_long { is_too_large
        (wanted 16384 2048 Transform.Crop Config.Alpha8 Rule.AtLeast)
        (16385, 1) ≡ true }
    ensures too_much_shown { is_too_large
        (wanted 16384 2049 Transform.Crop Config.Alpha8 Rule.AtLeast)
        (1, 1) ≡ true }
{}

// The raw form of a red pixel and a blue one in two bytes each.
fn worked_raw_form()
    ensures { raw_text record {
      width = 2;
      height = 1;
      config = Config.Rgb565;
      bytes = 0 ∷ 248 ∷ 31 ∷ 0 ∷ [];
    }
        ≡ codes "GLR1" ++ 1 ∷ 2 ∷ 0 ∷ 0 ∷ 0 ∷ 1 ∷ 0 ∷ 0 ∷ 0 ∷ 0 ∷ 248 ∷ 31 ∷ 0 ∷ [] }
{}

// A text that has a picture is decoded into a bitmap whose bytes were others.
fn check_decode(rt: &impl Abort, alloc: Global, text: &[u8], bytes: &[u8]) -> Result<(), Fail> {
    let key = EngineKey {
        url: Text::new(alloc, b"red")?,
        sig: Text::new(alloc, b"1")?,
        width: 2,
        height: 1,
        transform: Transform::Nothing,
        config: Config::Rgb565,
        rule: Rule::AtLeast,
    };
    let plan = plan_of(text, &key)?;
    let (width, height) = plan.decoded;
    let mut target = Bitmap::make(alloc, 7, width, height, plan.config)?;
    target.put_pixel(0, 0, [1, 2, 3, 4]);
    decode_into(alloc, text, &plan, &mut target)?;
    assert_eq!(rt; target.bytes(), bytes);
    assert_eq!(rt; target.number(), 7);
    Ok(())
}

#[test]
fn decodes(rt: HostRuntime) -> Result<(), Fail> {
    check_decode(
        &rt,
        rt.alloc(),
        b"P6\n2 1\n255\n\xff\x00\x00\x00\x00\xff",
        &[0x00, 0xf8, 0x1f, 0x00],
    )?;
    check_decode(
        &rt,
        rt.alloc(),
        b"P2 4 2 255 0 1 2 4 3 0 5 16",
        &[0x00, 0x00, 0x20, 0x00],
    )?;
    Ok(())
}

// Plans a picture of 400 by 300 that is to fit into 100 by 100, of whose raster nothing is there.
fn check_plan(rt: &impl Abort, alloc: Global, rule: Rule, wanted: Plan) -> Result<(), Fail> {
    let key = EngineKey {
        url: Text::new(alloc, b"red")?,
        sig: Text::new(alloc, b"1")?,
        width: 100,
        height: 100,
        transform: Transform::Fit,
        config: Config::Alpha8,
        rule,
    };
    let text = b"P5 400 300 255 ";
    let plan = plan_of(text, &key)?;
    assert!(rt; plan == wanted);
    let (width, height) = plan.decoded;
    let mut target = Bitmap::make(alloc, 7, width, height, plan.config)?;
    let refused = decode_into(alloc, text, &plan, &mut target);
    assert!(rt; refused == Err(DecodeFault::Refused(Refusal::Ppm(PpmFault::Truncated))));
    assert!(rt; plan_of(b"hello", &key) == Err(Refusal::Unknown));
    Ok(())
}

#[test]
fn plans(rt: HostRuntime) -> Result<(), Fail> {
    check_plan(
        &rt,
        rt.alloc(),
        Rule::AtLeast,
        Plan {
            sample: 2,
            decoded: (200, 150),
            target: (100, 75),
            config: Config::Alpha8,
        },
    )?;
    check_plan(
        &rt,
        rt.alloc(),
        Rule::AtMost,
        Plan {
            sample: 4,
            decoded: (100, 75),
            target: (100, 75),
            config: Config::Alpha8,
        },
    )?;
    Ok(())
}

// The row that is worked above, written and read again.
#[test]
fn writes_and_reads_raw_forms(rt: HostRuntime) -> Result<(), Fail> {
    let alloc = rt.alloc();
    let mut bitmap = Bitmap::make(alloc, 7, 2, 1, Config::Rgb565)?;
    bitmap.put_row(0, &[255, 0, 0, 255, 0, 0, 255, 255]);
    let text = write_raw(alloc, &bitmap)?;
    assert_eq!(rt;
        text.as_slice(),
        b"GLR1\x01\x02\x00\x00\x00\x01\x00\x00\x00\x00\xf8\x1f\x00".as_slice()
    );
    assert!(rt; raw_head(&text) == Some((Config::Rgb565, 2, 1)));
    assert!(rt; raw_head(&text[..16]).is_none());
    bitmap.erase();
    read_raw(&text, &mut bitmap);
    assert_eq!(rt; bitmap.bytes(), [0x00, 0xf8, 0x1f, 0x00].as_slice());
    Ok(())
}
