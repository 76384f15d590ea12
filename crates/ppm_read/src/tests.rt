// Texts with their outcomes, worked by hand from the rules.
ghost use Rattle.std.specs.Prelude.{◌≡◌, ◌∷◌, ◌++◌, [], codes, Ok, Err};
ghost use Rattle.ppm_read.specs.Full.{full_picture};

use super::*;
use PpmFault::{BadMagic, BadMaximum, BadNumber, BadSize, SampleAbove, Truncated};

// The definition itself on worked texts, computed where the tests are proved. The first is a red pixel
// and a blue one.
fn worked_texts()
    ensures raw_colour { full_picture (codes "P6" ++ 10 ∷ codes "2 1" ++ 10 ∷ codes "255"
        ++ 10 ∷ 255 ∷ 0 ∷ 0 ∷ 0 ∷ 0 ∷ 255 ∷ [])
        ≡ Ok record { width = 2; height = 1; pixels = 255 ∷ 0 ∷ 0 ∷ 255 ∷ 0 ∷ 0 ∷ 255 ∷ 255 ∷ [] } }
    ensures raw_grey { full_picture (codes "P5" ++ 10 ∷ codes "2 1" ++ 10 ∷ codes "1" ++ 10 ∷ 0 ∷ 1 ∷ [])
        ≡ Ok record { width = 2; height = 1; pixels = 0 ∷ 0 ∷ 0 ∷ 255 ∷ 255 ∷ 255 ∷ 255 ∷ 255 ∷ [] } }
    ensures plain_colour { full_picture (codes "P3" ++ 10 ∷ codes "# c" ++ 10 ∷ codes "1 1"
        ++ 10 ∷ codes "15" ++ 10 ∷ codes "0 7 15" ++ 10 ∷ [])
        ≡ Ok record { width = 1; height = 1; pixels = 0 ∷ 119 ∷ 255 ∷ 255 ∷ [] } }
    ensures two_bytes { full_picture (codes "P5" ++ 10 ∷ codes "1 1" ++ 10 ∷ codes "65535"
        ++ 10 ∷ 128 ∷ 0 ∷ [])
        ≡ Ok record { width = 1; height = 1; pixels = 128 ∷ 128 ∷ 128 ∷ 255 ∷ [] } }
    ensures bytes_after { full_picture (codes "P6 1 1 255 " ++ 1 ∷ 2 ∷ 3 ∷ 4 ∷ [])
        ≡ Ok record { width = 1; height = 1; pixels = 1 ∷ 2 ∷ 3 ∷ 255 ∷ [] } }
    ensures short { full_picture (codes "P6 1 2 255 " ++ 1 ∷ 2 ∷ 3 ∷ 4 ∷ 5 ∷ []) ≡ Err PpmFault.Truncated }
    ensures open_comment { full_picture (codes "P6#x") ≡ Err PpmFault.Truncated }
    ensures greatest_number { full_picture (codes "P6 4294967295 1 0 ") ≡ Err PpmFault.BadMaximum }
    ensures great_number { full_picture (codes "P6 4294967296 1 255 ") ≡ Err PpmFault.BadNumber }
    ensures comment_before_samples { full_picture (codes "P6 1 1 255#c" ++ 10 ∷ 10 ∷ 1 ∷ 2 ∷ 3 ∷ [])
        ≡ Err PpmFault.BadNumber }
    ensures no_width { full_picture (codes "P6 0 1 ") ≡ Err PpmFault.BadSize }
    ensures greatest_maximum { full_picture (codes "P5 1 1 65535 ") ≡ Err PpmFault.Truncated }
    ensures great_maximum { full_picture (codes "P5 1 1 65536 ") ≡ Err PpmFault.BadMaximum }
    ensures above { full_picture (codes "P2 1 1 9 10") ≡ Err PpmFault.SampleAbove }
    ensures unknown { full_picture (codes "hello") ≡ Err PpmFault.BadMagic }
{}

// A header's size, or its fault.
fn size_of(text: &[u8]) -> Result<(u32, u32), PpmFault> {
    let head = read_head(text)?;
    Ok((head.width, head.height))
}

// What the text's first row is answered with, for a width of at most 2, and the buffer after it.
fn first_row(text: &[u8]) -> Result<(bool, [u8; 8]), PpmFault> {
    let mut row = [9u8; 8];
    let head = read_head(text)?;
    if head.width > 2 {
        return Ok((false, row));
    }
    let mut rows = Rows::new(text, head);
    let read = rows.next_row(&mut row[..4 * head.width as usize])?;
    Ok((read, row))
}

#[test]
fn headers(rt: HostRuntime) {
    let outcomes: [(&[u8], Result<(u32, u32), PpmFault>); 34] = [
        (b"", Err(BadMagic)),
        (b"P", Err(BadMagic)),
        (b"P4\n1 1\n\x80", Err(BadMagic)),
        (b"p6\n1 1\n255\n\x01\x02\x03", Err(BadMagic)),
        (b" P6\n1 1\n255\n\x01\x02\x03", Err(BadMagic)),
        // The text ends within the header.
        (b"P6", Err(Truncated)),
        (b"P6#x", Err(Truncated)),
        (b"P6 ", Err(Truncated)),
        (b"P6 1", Err(Truncated)),
        (b"P6 4294967296", Err(Truncated)),
        (b"P6 1 1 255", Err(Truncated)),
        (b"P2 1 1 255", Err(Truncated)),
        (b"P6 1 0", Err(Truncated)),
        // A byte that does not belong there.
        (b"P65 1 255 ", Err(BadNumber)),
        (b"P6 -1 1 255 ", Err(BadNumber)),
        (b"P6 1x1 255 ", Err(BadNumber)),
        (b"P6 1 1 255#c\n\n\x01\x02\x03", Err(BadNumber)),
        (b"P6\x0b1 1 255 ", Err(BadNumber)),
        // Numbers.
        (b"P6 4294967296 1 255 ", Err(BadNumber)),
        (b"P6 4294967295 1 255 ", Ok((4_294_967_295, 1))),
        (b"P6 1 0004294967295 255 ", Ok((1, 4_294_967_295))),
        (b"P6 00000000000000000000000002 1 255 ", Ok((2, 1))),
        // Sizes and maxima.
        (b"P6 0 1 ", Err(BadSize)),
        (b"P6 1 0 ", Err(BadSize)),
        (b"P6 0 4294967296 ", Err(BadNumber)),
        (b"P5 1 1 0 ", Err(BadMaximum)),
        (b"P5 1 1 65536 ", Err(BadMaximum)),
        (b"P5 1 1 65535 ", Ok((1, 1))),
        (b"P6 16384 16384 255 ", Ok((16_384, 16_384))),
        // Gaps: carriage returns, tabs, and comments that end before their line's end.
        (b"P6\r\n2 1\r\n255\r\n", Ok((2, 1))),
        (b"P6\t3\t4\t255\t", Ok((3, 4))),
        (b"P6#c\n#d\r\n\n5# 6 7\r8 255 ", Ok((5, 8))),
        (b"P61 1 255 ", Err(BadNumber)),
        (b"P3#a picture of one pixel\n1 1\n9", Err(Truncated)),
    ];
    for (text, outcome) in outcomes {
        assert_eq!(rt; size_of(text), outcome, "at {text:?}");
    }
}

#[test]
fn one_pixel(rt: HostRuntime) {
    let outcomes: [(&[u8], Result<(bool, [u8; 8]), PpmFault>); 23] = [
        // Raw samples of one byte.
        (
            b"P5\n1 1\n255\n\x07",
            Ok((true, [7, 7, 7, 255, 9, 9, 9, 9])),
        ),
        (
            b"P6 1 1 255\n\x0a\x0d#",
            Ok((true, [10, 13, 35, 255, 9, 9, 9, 9])),
        ),
        (
            b"P5\n2 1\n1\n\x00\x01",
            Ok((true, [0, 0, 0, 255, 255, 255, 255, 255])),
        ),
        (b"P5 1 1 1 \x02", Err(SampleAbove)),
        // 255 * 3 and half of 10, by 10, is 77.
        (
            b"P6 1 1 10 \x00\x03\x0a",
            Ok((true, [0, 77, 255, 255, 9, 9, 9, 9])),
        ),
        // A sample above the maximum stands before the end of the text.
        (b"P5 2 1 1 \x02", Err(SampleAbove)),
        (b"P5 2 1 1 \x01", Err(Truncated)),
        (b"P6 1 1 255 \x01\x02", Err(Truncated)),
        // Raw samples of two bytes.
        (
            b"P5\n1 1\n65535\n\x80\x00",
            Ok((true, [128, 128, 128, 255, 9, 9, 9, 9])),
        ),
        (
            b"P5 1 1 256 \x01\x00",
            Ok((true, [255, 255, 255, 255, 9, 9, 9, 9])),
        ),
        (b"P5 1 1 256 \x01\x01", Err(SampleAbove)),
        (b"P5 1 1 256 \x01", Err(Truncated)),
        (b"P5 2 1 256 \x01\x01\x00", Err(SampleAbove)),
        // Plain samples.
        (
            b"P3\n# c\n1 1\n15\n0 7 15\n",
            Ok((true, [0, 119, 255, 255, 9, 9, 9, 9])),
        ),
        (
            b"P2 2 1 9 0\r\n\t009",
            Ok((true, [0, 0, 0, 255, 255, 255, 255, 255])),
        ),
        (b"P2 1 1 9 9x", Ok((true, [255, 255, 255, 255, 9, 9, 9, 9]))),
        (b"P2 1 1 9 10", Err(SampleAbove)),
        (b"P2 2 1 9 1", Err(Truncated)),
        (b"P2 2 1 9 10", Err(Truncated)),
        (b"P2 1 1 9 4294967296", Err(BadNumber)),
        (b"P2 1 1 9 ", Err(Truncated)),
        (b"P2 1 1 9 #c\n1", Err(BadNumber)),
        (b"P2 2 1 9 1,2", Err(BadNumber)),
    ];
    for (text, outcome) in outcomes {
        assert_eq!(rt; first_row(text), outcome, "at {text:?}");
    }
}

#[test]
fn rows_come_from_the_top(rt: HostRuntime) {
    // Two rows of two pixels, and three bytes that nothing asks for.
    let text = b"P6\n2 2\n255\n\x01\x02\x03\x04\x05\x06\x07\x08\x09\x0a\x0b\x0c\xaa\xbb\xcc";
    let Ok(head) = read_head(text) else {
        panic!(rt; "the header is not read");
    };
    assert!(rt; head.width == 2);
    let mut rows = Rows::new(text, head);
    let mut row = [0u8; 8];
    assert_eq!(rt; rows.next_row(&mut row), Ok(true));
    assert_eq!(rt; row, [1, 2, 3, 255, 4, 5, 6, 255]);
    assert_eq!(rt; rows.next_row(&mut row), Ok(true));
    assert_eq!(rt; row, [7, 8, 9, 255, 10, 11, 12, 255]);
    assert_eq!(rt; rows.next_row(&mut row), Ok(false));
    assert_eq!(rt; rows.next_row(&mut row), Ok(false));
}

#[test]
fn a_raster_that_lacks_a_byte(rt: HostRuntime) {
    let text = b"P6\n1 2\n255\n\x01\x02\x03\x04\x05";
    let Ok(head) = read_head(text) else {
        panic!(rt; "the header is not read");
    };
    assert!(rt; head.width == 1);
    let mut rows = Rows::new(text, head);
    let mut row = [0u8; 4];
    assert_eq!(rt; rows.next_row(&mut row), Ok(true));
    assert_eq!(rt; row, [1, 2, 3, 255]);
    assert_eq!(rt; rows.next_row(&mut row), Err(Truncated));
    assert_eq!(rt; rows.next_row(&mut row), Err(Truncated));
}
