// Whole runs that show one picture. The bytes are worked by hand from the rules of docs/PICTURES.md.
ghost use Rattle.std.specs.Prelude.{◌≤◌, ◌+◌};

use crate::test_runs::{LINE, RED, check_picture, check_red, check_script};
use std::alloc::Global;
use std::process::Abort;
use std::test::Fail;

// Grey pixels of 0, 1, 2 and 4 above 3, 0, 5 and 6.
const BLOCKS: &[u8] =
    b"P6\n4 2\n255\n\x00\x00\x00\x01\x01\x01\x02\x02\x02\x04\x04\x04\x03\x03\x03\x00\x00\x00\x05\x05\x05\x06\x06\x06";

// Grey pixels of 1 to 4 in a row.
const LINE_OF_FOUR: &[u8] = b"P6\n4 1\n255\n\x01\x01\x01\x02\x02\x02\x03\x03\x03\x04\x04\x04";

// Grey pixels of 1 to 3 above 4 to 6.
const SIX: &[u8] =
    b"P6\n3 2\n255\n\x01\x01\x01\x02\x02\x02\x03\x03\x03\x04\x04\x04\x05\x05\x05\x06\x06\x06";

// A Windows bitmap of 3 by -1 pixels of 32 bits by masks, with an info header of 108 bytes: black, of the
// alphas 97, 98 and 99.
const ALPHA: [u8; 134] = *b"BM\x86\x00\x00\x00\x00\x00\x00\x00\x7a\x00\x00\x00\
    \x6c\x00\x00\x00\x03\x00\x00\x00\xff\xff\xff\xff\x01\x00\x20\x00\x03\x00\x00\x00\
    \x0c\x00\x00\x00\x00\x00\x00\x00\x00\x00\x00\x00\x00\x00\x00\x00\x00\x00\x00\x00\
    \x00\x00\xff\x00\x00\xff\x00\x00\xff\x00\x00\x00\x00\x00\x00\xff\
    \x00\x00\x00\x00\x00\x00\x00\x00\x00\x00\x00\x00\x00\x00\x00\x00\x00\x00\x00\x00\
    \x00\x00\x00\x00\x00\x00\x00\x00\x00\x00\x00\x00\x00\x00\x00\x00\x00\x00\x00\x00\
    \x00\x00\x00\x00\x00\x00\x00\x00\x00\x00\x00\x00\
    \x00\x00\x00\x61\x00\x00\x00\x62\x00\x00\x00\x63";

// One of 3 by 2 pixels of 24 bits, from the bottom row.
const BGR: &[u8] = b"BMN\x00\x00\x00\x00\x00\x00\x00\x36\x00\x00\x00\
    \x28\x00\x00\x00\x03\x00\x00\x00\x02\x00\x00\x00\x01\x00\x18\x00\x00\x00\x00\x00\
    \x00\x00\x00\x00\x00\x00\x00\x00\x00\x00\x00\x00\x00\x00\x00\x00\x00\x00\x00\x00\
    \x01\x02\x03\x04\x05\x06\x07\x08\x09\x00\x00\x00\x0a\x0b\x0c\x0d\x0e\x0f\x10\x11\x12\x00\x00\x00";

// One of 3 by 1 pixels of 8 bits, run-length encoded.
const COMPRESSED: &[u8] = b"BM\x3e\x00\x00\x00\x00\x00\x00\x00\x3e\x00\x00\x00\
    \x28\x00\x00\x00\x03\x00\x00\x00\x01\x00\x00\x00\x01\x00\x08\x00\x01\x00\x00\x00\
    \x00\x00\x00\x00\x00\x00\x00\x00\x00\x00\x00\x00\x02\x00\x00\x00\x00\x00\x00\x00\
    \x01\x02\x03\x00\x0a\x0b\x0c\x00";

// One of 3 by -1 pixels of 4 bits and a palette of two colours: the indexes 0, 1 and 2.
const INDEXED: &[u8] = b"BMB\x00\x00\x00\x00\x00\x00\x00\x3e\x00\x00\x00\
    \x28\x00\x00\x00\x03\x00\x00\x00\xff\xff\xff\xff\x01\x00\x04\x00\x00\x00\x00\x00\
    \x00\x00\x00\x00\x00\x00\x00\x00\x00\x00\x00\x00\x02\x00\x00\x00\x00\x00\x00\x00\
    \x0a\x0b\x0c\x00\x0d\x0e\x0f\x00\
    \x01\x20\x00\x00";

#[test]
fn pictures(rt: HostRuntime) -> Result<(), Fail> {
    let alloc = rt.alloc();
    check_red(&rt, alloc, RED, LINE, 0)?;
    // Bytes after the raster are ignored.
    check_red(
        &rt,
        alloc,
        b"P6\n2 1\n255\n\xff\x00\x00\x00\x00\xff\x00\x00",
        LINE,
        0,
    )?;
    check_red(
        &rt,
        alloc,
        b"P6\n2 1\n255\n\xff\x00\x00\x00\x00",
        b"a failed refused truncated\n",
        1,
    )?;
    check_red(&rt, alloc, b"P5\n1 1\n255\n\x07", b"a pixels 070707ff\n", 0)?;
    check_red(&rt, alloc, b"hello", b"a failed refused unknown\n", 1)?;
    Ok(())
}

// Each kind and spelling of Netpbm's pictures, and each refusal that a text may have.
#[test]
fn netpbm_kinds(rt: HostRuntime) -> Result<(), Fail> {
    let alloc = rt.alloc();
    check_red(
        &rt,
        alloc,
        b"P5\n2 1\n1\n\x00\x01",
        b"a pixels 000000ffffffffff\n",
        0,
    )?;
    check_red(
        &rt,
        alloc,
        b"P3\n# c\n1 1\n15\n0 7 15\n",
        b"a pixels 0077ffff\n",
        0,
    )?;
    check_red(
        &rt,
        alloc,
        b"P5\n1 1\n65535\n\x80\x00",
        b"a pixels 808080ff\n",
        0,
    )?;
    check_red(
        &rt,
        alloc,
        b"P2 2 1 9 0\r\n9",
        b"a pixels 000000ffffffffff\n",
        0,
    )?;
    Ok(())
}

#[test]
fn broken_rules(rt: HostRuntime) -> Result<(), Fail> {
    let alloc = rt.alloc();
    check_red(&rt, alloc, b"P6", b"a failed refused truncated\n", 1)?;
    check_red(&rt, alloc, b"P6#x", b"a failed refused truncated\n", 1)?;
    check_red(
        &rt,
        alloc,
        b"P6 4294967296 1 255 ",
        b"a failed refused bad-number\n",
        1,
    )?;
    check_red(
        &rt,
        alloc,
        b"P6 1 1 255#c\n\n\x01\x02\x03",
        b"a failed refused bad-number\n",
        1,
    )?;
    check_red(&rt, alloc, b"P6 0 1 ", b"a failed refused bad-size\n", 1)?;
    check_red(
        &rt,
        alloc,
        b"P5 1 1 65536 ",
        b"a failed refused bad-maximum\n",
        1,
    )?;
    check_red(
        &rt,
        alloc,
        b"P5 1 1 1 \x02",
        b"a failed refused sample-above\n",
        1,
    )?;
    check_red(
        &rt,
        alloc,
        b"P2 1 1 9 10",
        b"a failed refused sample-above\n",
        1,
    )?;
    // A side above 16,384, and more than 33,554,432 pixels.
    check_red(
        &rt,
        alloc,
        b"P6\n16385 1\n255\n",
        b"a failed refused too-large\n",
        1,
    )?;
    check_red(
        &rt,
        alloc,
        b"P6 16384 16384 255 ",
        b"a failed refused too-large\n",
        1,
    )?;
    Ok(())
}

#[test]
fn sizes_and_missing_pictures(rt: HostRuntime) -> Result<(), Fail> {
    let alloc = rt.alloc();
    check_script(
        &rt,
        alloc,
        b"load a square 1 1 1 none argb\ndump a\n",
        b"a pixels 060708ff\n",
        0,
        1,
    )?;
    check_script(
        &rt,
        alloc,
        b"load a square 1 1 2 none argb\ndump a\n",
        b"a pixels 010203ff040506ff070809ff0a0b0cff\n",
        0,
        1,
    )?;
    check_script(
        &rt,
        alloc,
        b"load a other 1 1 1 none argb\ndump a\n",
        b"a failed missing\n",
        1,
        1,
    )?;
    check_script(
        &rt,
        alloc,
        b"load a red 2 1 1 none argb\ndump a\n",
        b"a failed missing\n",
        1,
        1,
    )?;
    Ok(())
}

#[test]
fn configs(rt: HostRuntime) -> Result<(), Fail> {
    let alloc = rt.alloc();
    check_picture(
        &rt,
        alloc,
        RED,
        b"load a red 1 2 1 none rgb565\ndump a\n",
        b"a pixels 00f81f00\n",
        0,
    )?;
    check_picture(
        &rt,
        alloc,
        RED,
        b"load a red 1 2 1 none alpha\ndump a\n",
        b"a pixels ffff\n",
        0,
    )?;
    Ok(())
}

#[test]
fn samples(rt: HostRuntime) -> Result<(), Fail> {
    let alloc = rt.alloc();
    // Both sides are twice the wanted ones: the sample is 2.
    check_picture(
        &rt,
        alloc,
        BLOCKS,
        b"load a red 1 2 1 none argb\ndump a\n",
        b"a pixels 010101ff040404ff\n",
        0,
    )?;
    check_picture(
        &rt,
        alloc,
        BLOCKS,
        b"load a red 1 2 1 none rgb565\ndump a\n",
        b"a pixels 00002000\n",
        0,
    )?;
    // One side is not, and at least the wanted size keeps all pixels.
    check_picture(
        &rt,
        alloc,
        LINE_OF_FOUR,
        b"load a red 1 2 1 none argb atleast\ndump a\n",
        b"a pixels 010101ff020202ff030303ff040404ff\n",
        0,
    )?;
    check_picture(
        &rt,
        alloc,
        LINE_OF_FOUR,
        b"load a red 1 2 1 none argb atmost\ndump a\n",
        b"a pixels 020202ff040404ff\n",
        0,
    )?;
    Ok(())
}

// Rows that make no whole block beside others are read too, and a text that lacks a byte of them is too
// short.
#[test]
fn rows_behind_the_blocks(rt: HostRuntime) -> Result<(), Fail> {
    let alloc = rt.alloc();
    check_picture(
        &rt,
        alloc,
        b"P6\n1 3\n255\n\x01\x02\x03\x04\x05\x06\x07\x08\x09",
        b"load a red 1 1 1 none argb atmost\ndump a\n",
        b"a pixels 040506ff\n",
        0,
    )?;
    check_picture(
        &rt,
        alloc,
        b"P6\n3 3\n255\n\x01\x01\x01\x01\x01\x01\x09\x09\x09\x03\x03\x03\x03\x03\x03\x09\x09\x09\x09\x09\x09\x09\x09\x09\x09\x09\x09",
        b"load a red 1 1 1 none argb\ndump a\n",
        b"a pixels 020202ff\n",
        0,
    )?;
    check_picture(
        &rt,
        alloc,
        b"P6\n3 3\n255\n\x01\x01\x01\x01\x01\x01\x09\x09\x09\x03\x03\x03\x03\x03\x03\x09\x09\x09\x09\x09\x09\x09\x09\x09\x09\x09",
        b"load a red 1 1 1 none argb\ndump a\n",
        b"a failed refused truncated\n",
        1,
    )?;
    Ok(())
}

// Loads this text as 3 by 1 pixels, and dumps the view.
fn check_bitmap(
    rt: &impl Abort,
    alloc: Global,
    text: &[u8],
    written: &[u8],
    status: u8,
) -> Result<(), Fail> {
    check_picture(
        rt,
        alloc,
        text,
        b"load a red 1 3 1 none argb\ndump a\n",
        written,
        status,
    )
}

// The same of `ALPHA` in which the four bytes from this place on are others.
fn check_field(
    rt: &impl Abort,
    alloc: Global,
    at: usize,
    bytes: [u8; 4],
    written: &[u8],
) -> Result<(), Fail>
    requires { at + 4 ≤ 134 }
{
    let mut text = ALPHA;
    text[at] = bytes[0];
    text[at + 1] = bytes[1];
    text[at + 2] = bytes[2];
    text[at + 3] = bytes[3];
    check_bitmap(rt, alloc, &text, written, 1)
}

// The digest is that of `abc`, the first example of FIPS 180-4.
#[test]
fn bmp_with_masks(rt: HostRuntime) -> Result<(), Fail> {
    check_picture(
        &rt,
        rt.alloc(),
        &ALPHA,
        b"load a red 1 3 1 none alpha\nshow\n",
        b"a shown 3 1 alpha ba7816bf8f01cfea414140de5dae2223b00361a396177a9cb410ff61f20015ad\n",
        0,
    )
}

#[test]
fn bmp_depths(rt: HostRuntime) -> Result<(), Fail> {
    let alloc = rt.alloc();
    check_picture(
        &rt,
        alloc,
        BGR,
        b"load a red 1 3 2 none argb\ndump a\n",
        b"a pixels 0c0b0aff0f0e0dff121110ff030201ff060504ff090807ff\n",
        0,
    )?;
    check_bitmap(
        &rt,
        alloc,
        COMPRESSED,
        b"a failed refused compressed 1\n",
        1,
    )?;
    check_bitmap(
        &rt,
        alloc,
        INDEXED,
        b"a pixels 0c0b0aff0f0e0dff000000ff\n",
        0,
    )?;
    Ok(())
}

#[test]
fn broken_bmp_rules(rt: HostRuntime) -> Result<(), Fail> {
    let alloc = rt.alloc();
    check_bitmap(&rt, alloc, b"BM", b"a failed refused truncated\n", 1)?;
    check_field(
        &rt,
        alloc,
        14,
        [56, 0, 0, 0],
        b"a failed refused bad-header\n",
    )?;
    check_field(
        &rt,
        alloc,
        22,
        [0, 0, 0, 0x80],
        b"a failed refused bad-size\n",
    )?;
    check_field(
        &rt,
        alloc,
        26,
        [1, 0, 24, 0],
        b"a failed refused bad-depth\n",
    )?;
    check_field(
        &rt,
        alloc,
        30,
        [0xff, 0xff, 0xff, 0xff],
        b"a failed refused compressed 4294967295\n",
    )?;
    check_field(
        &rt,
        alloc,
        54,
        [0, 0, 0xa5, 0],
        b"a failed refused bad-masks\n",
    )?;
    // Without the last byte, and beyond the limit on sides, which is tested before.
    check_bitmap(
        &rt,
        alloc,
        &ALPHA[..133],
        b"a failed refused truncated\n",
        1,
    )?;
    check_field(
        &rt,
        alloc,
        18,
        [1, 0x40, 0, 0],
        b"a failed refused too-large\n",
    )?;
    Ok(())
}

#[test]
fn transforms(rt: HostRuntime) -> Result<(), Fail> {
    let alloc = rt.alloc();
    check_picture(
        &rt,
        alloc,
        SIX,
        b"load a red 1 2 2 fit argb\ndump a\n",
        b"a pixels 040404ff060606ff\n",
        0,
    )?;
    check_picture(
        &rt,
        alloc,
        LINE_OF_FOUR,
        b"load a red 1 2 1 crop argb\ndump a\n",
        b"a pixels 020202ff030303ff\n",
        0,
    )?;
    check_picture(
        &rt,
        alloc,
        RED,
        b"load a red 1 1 1 inside argb\ndump a\n",
        b"a pixels 0000ffff\n",
        0,
    )?;
    check_picture(
        &rt,
        alloc,
        RED,
        b"load a red 1 4 4 inside argb\ndump a\n",
        b"a pixels ff0000ff0000ffff\n",
        0,
    )?;
    // Each pixel becomes four.
    check_picture(
        &rt,
        alloc,
        RED,
        b"load a red 1 4 4 fit rgb565\ndump a\n",
        b"a pixels 00f800f81f001f0000f800f81f001f00\n",
        0,
    )?;
    // The decoded picture, of two by one pixels, is cropped.
    check_picture(
        &rt,
        alloc,
        BLOCKS,
        b"load a red 1 1 1 crop rgb565\ndump a\n",
        b"a pixels 2000\n",
        0,
    )?;
    Ok(())
}

#[test]
fn too_large_pictures(rt: HostRuntime) -> Result<(), Fail> {
    let alloc = rt.alloc();
    check_picture(
        &rt,
        alloc,
        RED,
        b"load a red 1 16384 16384 crop argb\ndump a\n",
        b"a failed refused too-large\n",
        1,
    )?;
    check_picture(
        &rt,
        alloc,
        RED,
        b"load a red 1 16384 16384 fit alpha\ndump a\n",
        b"a failed refused too-large\n",
        1,
    )?;
    // One column more than the limit of 8192 by 4096 pixels.
    check_picture(
        &rt,
        alloc,
        RED,
        b"load a red 1 8193 4096 crop argb\ndump a\n",
        b"a failed refused too-large\n",
        1,
    )?;
    // These keep the size of the source.
    check_picture(
        &rt,
        alloc,
        RED,
        b"load a red 1 16384 16384 none argb\ndump a\n",
        b"a pixels ff0000ff0000ffff\n",
        0,
    )?;
    check_picture(
        &rt,
        alloc,
        RED,
        b"load a red 1 16384 16384 inside argb\ndump a\n",
        b"a pixels ff0000ff0000ffff\n",
        0,
    )?;
    // The header is read before, and the raster afterwards.
    check_picture(
        &rt,
        alloc,
        b"hello",
        b"load a red 1 16384 16384 crop argb\ndump a\n",
        b"a failed refused unknown\n",
        1,
    )?;
    check_picture(
        &rt,
        alloc,
        b"P6\n2 1\n255\n",
        b"load a red 1 16384 16384 crop argb\ndump a\n",
        b"a failed refused too-large\n",
        1,
    )?;
    Ok(())
}
