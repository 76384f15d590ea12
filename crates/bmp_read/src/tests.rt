// Texts with their outcomes, worked by hand from the rules.
ghost use Rattle.std.specs.Prelude.{◌≡◌, ◌≤◌, ◌+◌, ◌∷◌, ◌++◌, [], replicate, codes, Ok, Err};
ghost use Rattle.std.specs.Int.{w32, to_le_bytes};
ghost use Rattle.std.specs.List.{flat_map};
ghost use Rattle.bmp_read.specs.Full.{full_picture};

use super::*;
use BmpFault::{BadDepth, BadHeader, BadMagic, BadMasks, BadSize, Compressed, Truncated};

// 3 by -1 pixels of 32 bits by masks, with an info header of 108 bytes: black, of the alphas 97, 98
// and 99.
const ALPHA: [u8; 134] = *b"BM\x86\x00\x00\x00\x00\x00\x00\x00\x7a\x00\x00\x00\
    \x6c\x00\x00\x00\x03\x00\x00\x00\xff\xff\xff\xff\x01\x00\x20\x00\x03\x00\x00\x00\
    \x0c\x00\x00\x00\x00\x00\x00\x00\x00\x00\x00\x00\x00\x00\x00\x00\x00\x00\x00\x00\
    \x00\x00\xff\x00\x00\xff\x00\x00\xff\x00\x00\x00\x00\x00\x00\xff\
    \x00\x00\x00\x00\x00\x00\x00\x00\x00\x00\x00\x00\x00\x00\x00\x00\x00\x00\x00\x00\
    \x00\x00\x00\x00\x00\x00\x00\x00\x00\x00\x00\x00\x00\x00\x00\x00\x00\x00\x00\x00\
    \x00\x00\x00\x00\x00\x00\x00\x00\x00\x00\x00\x00\
    \x00\x00\x00\x61\x00\x00\x00\x62\x00\x00\x00\x63";

// 3 by 2 pixels of 24 bits.
const BGR: [u8; 78] = *b"BMN\x00\x00\x00\x00\x00\x00\x00\x36\x00\x00\x00\
    \x28\x00\x00\x00\x03\x00\x00\x00\x02\x00\x00\x00\x01\x00\x18\x00\x00\x00\x00\x00\
    \x00\x00\x00\x00\x00\x00\x00\x00\x00\x00\x00\x00\x00\x00\x00\x00\x00\x00\x00\x00\
    \x01\x02\x03\x04\x05\x06\x07\x08\x09\x00\x00\x00\x0a\x0b\x0c\x0d\x0e\x0f\x10\x11\x12\x00\x00\x00";

// 3 by 1 pixels of 32 bits, one byte of each unused.
const BGR_UNUSED: [u8; 66] = *b"BMB\x00\x00\x00\x00\x00\x00\x00\x36\x00\x00\x00\
    \x28\x00\x00\x00\x03\x00\x00\x00\x01\x00\x00\x00\x01\x00\x20\x00\x00\x00\x00\x00\
    \x00\x00\x00\x00\x00\x00\x00\x00\x00\x00\x00\x00\x00\x00\x00\x00\x00\x00\x00\x00\
    \x01\x02\x03\xff\x04\x05\x06\x00\x07\x08\x09\x09";

// 3 by -1 pixels of 4 bits and a palette of two colours: the indexes 0, 1 and 2.
const INDEXED4: [u8; 66] = *b"BMB\x00\x00\x00\x00\x00\x00\x00\x3e\x00\x00\x00\
    \x28\x00\x00\x00\x03\x00\x00\x00\xff\xff\xff\xff\x01\x00\x04\x00\x00\x00\x00\x00\
    \x00\x00\x00\x00\x00\x00\x00\x00\x00\x00\x00\x00\x02\x00\x00\x00\x00\x00\x00\x00\
    \x0a\x0b\x0c\x00\x0d\x0e\x0f\x00\
    \x01\x20\x00\x00";

// 3 by 2 pixels of 1 bit and a palette of all colours that there can be.
const INDEXED1: [u8; 70] = *b"BMF\x00\x00\x00\x00\x00\x00\x00\x3e\x00\x00\x00\
    \x28\x00\x00\x00\x03\x00\x00\x00\x02\x00\x00\x00\x01\x00\x01\x00\x00\x00\x00\x00\
    \x00\x00\x00\x00\x00\x00\x00\x00\x00\x00\x00\x00\x00\x00\x00\x00\x00\x00\x00\x00\
    \x01\x02\x03\x00\x0a\x0b\x0c\x00\
    \xa0\x00\x00\x00\x40\x00\x00\x00";

// 3 by -2 pixels of 8 bits and a palette of two colours.
const INDEXED8: [u8; 70] = *b"BMF\x00\x00\x00\x00\x00\x00\x00\x3e\x00\x00\x00\
    \x28\x00\x00\x00\x03\x00\x00\x00\xfe\xff\xff\xff\x01\x00\x08\x00\x00\x00\x00\x00\
    \x00\x00\x00\x00\x00\x00\x00\x00\x00\x00\x00\x00\x02\x00\x00\x00\x00\x00\x00\x00\
    \x01\x02\x03\xff\x0a\x0b\x0c\xff\
    \x00\x01\x02\x00\x01\xff\x00\x00";

// 3 by 1 pixels of 16 bits: white, red and a middle green and blue, with a bit that is unused.
const RGB555: [u8; 62] = *b"BM\x3e\x00\x00\x00\x00\x00\x00\x00\x36\x00\x00\x00\
    \x28\x00\x00\x00\x03\x00\x00\x00\x01\x00\x00\x00\x01\x00\x10\x00\x00\x00\x00\x00\
    \x00\x00\x00\x00\x00\x00\x00\x00\x00\x00\x00\x00\x00\x00\x00\x00\x00\x00\x00\x00\
    \xff\x7f\x00\x7c\x10\x82\x00\x00";

// 3 by 1 pixels of 16 bits by masks: red, green and a middle of all three.
const RGB565: [u8; 74] = *b"BMJ\x00\x00\x00\x00\x00\x00\x00B\x00\x00\x00\
    \x28\x00\x00\x00\x03\x00\x00\x00\x01\x00\x00\x00\x01\x00\x10\x00\x03\x00\x00\x00\
    \x00\x00\x00\x00\x00\x00\x00\x00\x00\x00\x00\x00\x00\x00\x00\x00\x00\x00\x00\x00\
    \x00\xf8\x00\x00\xe0\x07\x00\x00\x1f\x00\x00\x00\
    \x00\xf8\xe0\x07\x10\x84\x00\x00";

// 3 by 1 pixels of 8 bits, run-length encoded.
const COMPRESSED: [u8; 62] = *b"BM\x3e\x00\x00\x00\x00\x00\x00\x00\x3e\x00\x00\x00\
    \x28\x00\x00\x00\x03\x00\x00\x00\x01\x00\x00\x00\x01\x00\x08\x00\x01\x00\x00\x00\
    \x00\x00\x00\x00\x00\x00\x00\x00\x00\x00\x00\x00\x02\x00\x00\x00\x00\x00\x00\x00\
    \x01\x02\x03\x00\x0a\x0b\x0c\x00\
    ";

// The definition itself on worked texts, computed where the tests are proved. After `BM` they are
// fields of four bytes: the text's length, 0, the raster's place, the info header's length, the
// width, the height, planes and bits, the compression, and so on.
fn worked_texts()
    ensures bottom_first { full_picture (codes "BM" ++ flat_map (to_le_bytes w32)
        (62 ∷ 0 ∷ 54 ∷ 40 ∷ 1 ∷ 2 ∷ 0x0018_0001 ∷ 0 ∷ 0 ∷ 0 ∷ 0 ∷ 0 ∷ 0 ∷ 0x0003_0201 ∷ 0x0006_0504 ∷ []))
        ≡ Ok record { width = 1; height = 2; pixels = 6 ∷ 5 ∷ 4 ∷ 255 ∷ 3 ∷ 2 ∷ 1 ∷ 255 ∷ [] } }
    ensures past_the_palette { full_picture (codes "BM" ++ flat_map (to_le_bytes w32)
        (66 ∷ 0 ∷ 62 ∷ 40 ∷ 3 ∷ 0xffff_ffff ∷ 0x0004_0001 ∷ 0 ∷ 0 ∷ 0 ∷ 0 ∷ 2 ∷ 0 ∷ 0x000c_0b0a
        ∷ 0x000f_0e0d ∷ 0x0000_2001 ∷ []))
        ≡ Ok record {
          width = 3;
          height = 1;
          pixels = 12 ∷ 11 ∷ 10 ∷ 255 ∷ 15 ∷ 14 ∷ 13 ∷ 255 ∷ 0 ∷ 0 ∷ 0 ∷ 255 ∷ [];
        } }
    ensures masks { full_picture (codes "BM" ++ flat_map (to_le_bytes w32)
        (134 ∷ 0 ∷ 122 ∷ 108 ∷ 3 ∷ 0xffff_ffff ∷ 0x0020_0001 ∷ 3 ∷ 12 ∷ 0 ∷ 0 ∷ 0 ∷ 0 ∷ 0x00ff_0000
        ∷ 0x0000_ff00 ∷ 0x0000_00ff ∷ 0xff00_0000 ∷ [])
        ++ replicate 52 0 ++ flat_map (to_le_bytes w32) (0x6100_0000 ∷ 0x6200_0000 ∷ 0x6300_0000 ∷ []))
        ≡ Ok record {
          width = 3;
          height = 1;
          pixels = 0 ∷ 0 ∷ 0 ∷ 97 ∷ 0 ∷ 0 ∷ 0 ∷ 98 ∷ 0 ∷ 0 ∷ 0 ∷ 99 ∷ [];
        } }
    ensures short { full_picture (codes "BM" ++ flat_map (to_le_bytes w32)
        (62 ∷ 0 ∷ 54 ∷ 40 ∷ 1 ∷ 2 ∷ 0x0018_0001 ∷ 0 ∷ 0 ∷ 0 ∷ 0 ∷ 0 ∷ 0 ∷ 0x0003_0201 ∷ []))
        ≡ Err BmpFault.Truncated }
    ensures product_past_32_bits { full_picture (codes "BM" ++ flat_map (to_le_bytes w32)
        (54 ∷ 0 ∷ 54 ∷ 40 ∷ 65536 ∷ 16384 ∷ 0x0020_0001 ∷ 0 ∷ 0 ∷ 0 ∷ 0 ∷ 0 ∷ 0 ∷ []))
        ≡ Err BmpFault.Truncated }
    ensures longest_sides { full_picture (codes "BM" ++ flat_map (to_le_bytes w32)
        (54 ∷ 0 ∷ 54 ∷ 40 ∷ 0x7fff_ffff ∷ 0x8000_0001 ∷ 0x0020_0001 ∷ 0 ∷ 0 ∷ 0 ∷ 0 ∷ 0 ∷ 0 ∷ []))
        ≡ Err BmpFault.Truncated }
    ensures too_wide { full_picture (codes "BM" ++ flat_map (to_le_bytes w32)
        (54 ∷ 0 ∷ 54 ∷ 40 ∷ 0x8000_0000 ∷ 1 ∷ 0x0020_0001 ∷ 0 ∷ 0 ∷ 0 ∷ 0 ∷ 0 ∷ 0 ∷ []))
        ≡ Err BmpFault.BadSize }
    ensures too_high { full_picture (codes "BM" ++ flat_map (to_le_bytes w32)
        (54 ∷ 0 ∷ 54 ∷ 40 ∷ 1 ∷ 0x8000_0000 ∷ 0x0020_0001 ∷ 0 ∷ 0 ∷ 0 ∷ 0 ∷ 0 ∷ 0 ∷ []))
        ≡ Err BmpFault.BadSize }
    ensures compressed { full_picture (codes "BM" ++ flat_map (to_le_bytes w32)
        (62 ∷ 0 ∷ 62 ∷ 40 ∷ 3 ∷ 1 ∷ 0x0008_0001 ∷ 1 ∷ 0 ∷ 0 ∷ 0 ∷ 2 ∷ 0 ∷ 0x000c_0b0a ∷ 0x000f_0e0d ∷ []))
        ≡ Err (BmpFault.Compressed 1) }
{}

// A header's size, or its fault.
fn size_of(text: &[u8]) -> Result<(u32, u32), BmpFault> {
    let head = read_head(text)?;
    Ok((head.width, head.height))
}

// The same, of a text in which these four bytes are others.
fn size_with(at: usize, bytes: [u8; 4]) -> Result<(u32, u32), BmpFault>
    requires { at + 4 ≤ 134 }
{
    let mut text = ALPHA;
    text[at] = bytes[0];
    text[at + 1] = bytes[1];
    text[at + 2] = bytes[2];
    text[at + 3] = bytes[3];
    size_of(&text)
}

// The two first rows of a picture that is three pixels wide; a row that it does not have is all 0.
fn rows_of(text: &[u8]) -> Result<([u8; 12], [u8; 12]), BmpFault> {
    let mut top = [0u8; 12];
    let mut bottom = [0u8; 12];
    let head = read_head(text)?;
    if head.width == 3 {
        let mut rows = Rows::new(text, head);
        let _ = rows.next_row(&mut top)?;
        let _ = rows.next_row(&mut bottom)?;
    }
    Ok((top, bottom))
}

#[test]
fn headers(rt: HostRuntime) {
    assert_eq!(rt; size_of(b""), Err(BadMagic));
    assert_eq!(rt; size_of(b"B"), Err(BadMagic));
    assert_eq!(rt; size_of(b"P6 1 1 255 "), Err(BadMagic));
    assert_eq!(rt; size_of(&ALPHA), Ok((3, 1)));
    assert_eq!(rt; size_of(&BGR), Ok((3, 2)));
    // The text ends within the file header, the info header, the masks and the palette.
    assert_eq!(rt; size_of(&ALPHA[..17]), Err(Truncated));
    assert_eq!(rt; size_of(&ALPHA[..121]), Err(Truncated));
    assert_eq!(rt; size_of(&RGB565[..65]), Err(Truncated));
    assert_eq!(rt; size_of(&INDEXED4[..61]), Err(Truncated));
    // The raster is not looked at.
    assert_eq!(rt; size_of(&ALPHA[..122]), Ok((3, 1)));
    assert_eq!(rt; size_of(&INDEXED4[..62]), Ok((3, 1)));
    assert_eq!(rt; size_of(&COMPRESSED), Err(Compressed(1)));
}

#[test]
fn headers_with_another_field(rt: HostRuntime) {
    // The info header's length, and the planes.
    assert_eq!(rt; size_with(14, [56, 0, 0, 0]), Err(BadHeader));
    assert_eq!(rt; size_with(26, [2, 0, 32, 0]), Err(BadHeader));
    // The width and the height.
    assert_eq!(rt; size_with(18, [0, 0, 0, 0]), Err(BadSize));
    assert_eq!(rt; size_with(18, [0, 0, 0, 0x80]), Err(BadSize));
    assert_eq!(rt; size_with(22, [0, 0, 0, 0]), Err(BadSize));
    assert_eq!(rt; size_with(22, [0, 0, 0, 0x80]), Err(BadSize));
    assert_eq!(rt; size_with(22, [1, 0, 0, 0x80]), Ok((3, 2_147_483_647)));
    assert_eq!(rt;
        size_with(22, [0xff, 0xff, 0xff, 0x7f]),
        Ok((3, 2_147_483_647))
    );
    // The compression, and the bits.
    assert_eq!(rt; size_with(30, [2, 1, 0, 0]), Err(Compressed(258)));
    assert_eq!(rt; size_with(26, [1, 0, 24, 0]), Err(BadDepth));
    // The red mask has a gap, and masks pass the 16 bits of a pixel.
    assert_eq!(rt; size_with(54, [0, 0, 0xa5, 0]), Err(BadMasks));
    assert_eq!(rt; size_with(26, [1, 0, 16, 0]), Err(BadMasks));
}

#[test]
fn pictures(rt: HostRuntime) {
    let none = [0u8; 12];
    let top = [12, 11, 10, 255, 15, 14, 13, 255, 18, 17, 16, 255];
    let bottom = [3, 2, 1, 255, 6, 5, 4, 255, 9, 8, 7, 255];
    assert_eq!(rt; rows_of(&BGR), Ok((top, bottom)));
    assert_eq!(rt; rows_of(&BGR_UNUSED), Ok((bottom, none)));
    let alphas = [0, 0, 0, 97, 0, 0, 0, 98, 0, 0, 0, 99];
    assert_eq!(rt; rows_of(&ALPHA), Ok((alphas, none)));
    // An index past the palette is opaque black.
    let row = [12, 11, 10, 255, 15, 14, 13, 255, 0, 0, 0, 255];
    assert_eq!(rt; rows_of(&INDEXED4), Ok((row, none)));
    let top = [3, 2, 1, 255, 12, 11, 10, 255, 3, 2, 1, 255];
    let bottom = [12, 11, 10, 255, 3, 2, 1, 255, 12, 11, 10, 255];
    assert_eq!(rt; rows_of(&INDEXED1), Ok((top, bottom)));
    let top = [3, 2, 1, 255, 12, 11, 10, 255, 0, 0, 0, 255];
    let bottom = [12, 11, 10, 255, 0, 0, 0, 255, 3, 2, 1, 255];
    assert_eq!(rt; rows_of(&INDEXED8), Ok((top, bottom)));
    // 255 * 16 and half of 31, by 31, is 132; 255 * 32 and half of 63, by 63, is 130.
    let row = [255, 255, 255, 255, 255, 0, 0, 255, 0, 132, 132, 255];
    assert_eq!(rt; rows_of(&RGB555), Ok((row, none)));
    let row = [255, 0, 0, 255, 0, 255, 0, 255, 132, 130, 132, 255];
    assert_eq!(rt; rows_of(&RGB565), Ok((row, none)));
}

#[test]
fn a_raster_that_lacks_a_byte(rt: HostRuntime) {
    let text = &BGR[..77];
    let Ok(head) = read_head(text) else {
        panic!(rt; "the header is not read");
    };
    assert!(rt; head.width == 3);
    let mut rows = Rows::new(text, head);
    let mut row = [7u8; 12];
    assert_eq!(rt; rows.next_row(&mut row), Err(Truncated));
    assert_eq!(rt; rows.next_row(&mut row), Err(Truncated));
}

#[test]
fn false_comes_after_the_last_row(rt: HostRuntime) {
    let Ok(head) = read_head(&ALPHA) else {
        panic!(rt; "the header is not read");
    };
    assert!(rt; head.width == 3);
    let mut rows = Rows::new(&ALPHA, head);
    let mut row = [7u8; 12];
    assert_eq!(rt; rows.next_row(&mut row), Ok(true));
    assert_eq!(rt; rows.next_row(&mut row), Ok(false));
    assert_eq!(rt; rows.next_row(&mut row), Ok(false));
}
