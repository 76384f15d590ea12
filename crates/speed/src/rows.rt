// The rows of pictures of 4,000 by 300 pixels, read from a text in memory.
ghost use Rattle.std.specs.Prelude.{◌≡◌, ◌*◌, length};

use crate::timing::{least, print};
use anyhow::Result;
use std::alloc::Global;
use std::rt::Runtime;

const WIDTH: u32 = 4000;

const HEIGHT: u32 = 300;

const TIMES: u32 = 20;

// Samples for maxima from 101 on.
const RAW: &[u8] = &[0, 17, 1, 99, 3, 64, 2];

const PLAIN: &[u8] = b" 0 17 101 99 3 64 2";

fn next_ppm_row(rows: &mut ppm_read::Rows<'_>, row: &mut [u8])
    requires { length row.old ≡ 4 * rows.old.width }
    ensures { length row.new ≡ 4 * rows.new.width }
{
    let _ = rows.next_row(row);
}

fn next_bmp_row(rows: &mut bmp_read::Rows<'_>, row: &mut [u8])
    requires { length row.old ≡ 4 * rows.old.width }
    ensures { length row.new ≡ 4 * rows.new.width }
{
    let _ = rows.next_row(row);
}

// Reads all rows of a Netpbm text, one after the other into the row's buffer.
fn read_ppm(text: &[u8], row: &mut [u8]) {
    let Ok(head) = ppm_read::read_head(text) else {
        return;
    };
    if row.len() != 4 * head.width as usize {
        return;
    }
    let mut rows = ppm_read::Rows::new(text, head);
    for _ in 0..head.height {
        next_ppm_row(&mut rows, row);
    }
}

// Reads all rows of a Windows bitmap, one after the other into the row's buffer.
fn read_bmp(text: &[u8], row: &mut [u8]) {
    let Ok(head) = bmp_read::read_head(text) else {
        return;
    };
    if row.len() != 4 * head.width as usize {
        return;
    }
    let mut rows = bmp_read::Rows::new(text, head);
    for _ in 0..head.height {
        next_bmp_row(&mut rows, row);
    }
}

// A text that goes on with this unit, again and again, as far as any raster does.
fn text_of(alloc: Global, header: &[u8], unit: &[u8]) -> Result<Vec<u8>> {
    let mut text = Vec::new(alloc);
    text.extend_from_slice(header)?;
    for _ in 0..WIDTH * HEIGHT {
        text.extend_from_slice(unit)?;
    }
    Ok(text)
}

// A header of 54 bytes, whose rows come from the top. The palette behind it, if there is one, is whole.
fn bmp_header(alloc: Global, bits: u16, compression: u32) -> Result<Vec<u8>> {
    let mut header = Vec::new(alloc);
    header.extend_from_slice(b"BM\0\0\0\0\0\0\0\0")?;
    for field in [
        1078u32,
        40,
        WIDTH,
        HEIGHT.wrapping_neg(),
        0x10000 * u32::from(bits) + 1,
    ] {
        header.extend_from_slice(&field.to_le_bytes())?;
    }
    for field in [compression, 0, 0, 0, 0, 0] {
        header.extend_from_slice(&field.to_le_bytes())?;
    }
    Ok(header)
}

fn time_ppm(rt: &impl Runtime, alloc: Global, header: &str, unit: &[u8]) -> Result<()> {
    let text = text_of(alloc, header.as_bytes(), unit)?;
    let mut row = vec![in alloc; 0u8; 16000]?;
    let micros = least(rt, TIMES, || read_ppm(&text, &mut row))?;
    print(rt, header, micros, &row)
}

// The masks, if there are some, follow the header, and the compression says so.
fn time_bmp(rt: &impl Runtime, alloc: Global, name: &str, bits: u16, masks: &[u32]) -> Result<()> {
    let compression = if masks.is_empty() { 0 } else { 3 };
    let mut header = bmp_header(alloc, bits, compression)?;
    for mask in masks {
        header.extend_from_slice(&mask.to_le_bytes())?;
    }
    let text = text_of(alloc, &header, RAW)?;
    let mut row = vec![in alloc; 0u8; 16000]?;
    let micros = least(rt, TIMES, || read_bmp(&text, &mut row))?;
    print(rt, name, micros, &row)
}

fn time_netpbm(rt: &impl Runtime, alloc: Global) -> Result<()> {
    time_ppm(rt, alloc, "P6 4000 300 255 ", RAW)?;
    time_ppm(rt, alloc, "P6 4000 300 100 ", RAW)?;
    time_ppm(rt, alloc, "P6 4000 300 65535 ", RAW)?;
    time_ppm(rt, alloc, "P6 4000 300 40000 ", RAW)?;
    time_ppm(rt, alloc, "P5 4000 300 255 ", RAW)?;
    time_ppm(rt, alloc, "P5 4000 300 100 ", RAW)?;
    time_ppm(rt, alloc, "P5 4000 300 65535 ", RAW)?;
    time_ppm(rt, alloc, "P5 4000 300 40000 ", RAW)?;
    time_ppm(rt, alloc, "P3 4000 300 255", PLAIN)?;
    time_ppm(rt, alloc, "P2 4000 300 255", PLAIN)
}

fn time_bitmaps(rt: &impl Runtime, alloc: Global) -> Result<()> {
    time_bmp(rt, alloc, "bits 1", 1, &[])?;
    time_bmp(rt, alloc, "bits 4", 4, &[])?;
    time_bmp(rt, alloc, "bits 8", 8, &[])?;
    time_bmp(rt, alloc, "bits 16", 16, &[])?;
    time_bmp(rt, alloc, "bits 24", 24, &[])?;
    time_bmp(rt, alloc, "bits 32", 32, &[])?;
    time_bmp(rt, alloc, "masks 16", 16, &[0xf800, 0x07e0, 0x001f])?;
    time_bmp(rt, alloc, "masks 32", 32, &[0x3ff0_0000, 0xf_fc00, 0x3ff])?;
    time_bmp(
        rt,
        alloc,
        "whole bytes 32",
        32,
        &[0xff00_0000, 0xff_0000, 0xff00],
    )
}

/// Times the reading of rows, kind by kind. What is printed last is the sum of the last row's bytes.
pub fn time(rt: &impl Runtime, alloc: Global) -> Result<()> {
    time_netpbm(rt, alloc)?;
    time_bitmaps(rt, alloc)
}
