// The packing of 810 rows of 1,080 pixels into a bitmap, and a crop of it to 540 by 405.
use crate::timing::{least, print};
use anyhow::Result;
use bitmap_kind::{Bitmap, Config, Transform};
use std::alloc::Global;
use std::rt::Runtime;
use transforms::{target_size, transform};

const TIMES: u32 = 60;

const SOURCE: (u32, u32) = (1080, 810);

const WANTED: (u32, u32) = (540, 405);

// Packs a row of pixels into each row of the bitmap.
fn pack(bitmap: &mut Bitmap, row: &[u8]) {
    for y in 0..bitmap.height() {
        if y < bitmap.height() && row.len() == 4 * bitmap.width() as usize {
            bitmap.put_row(y, row);
        }
    }
}

// Crops the source into the target.
fn crop(target: &mut Bitmap, source: &Bitmap) {
    let size = (source.width(), source.height());
    let wanted = target_size(size, Transform::Crop, WANTED);
    if target.config() == source.config() && (target.width(), target.height()) == wanted {
        transform(source, target, Transform::Crop, WANTED);
    }
}

// Times both, with bitmaps of this config.
fn time_config(
    rt: &impl Runtime,
    alloc: Global,
    config: Config,
    pack_name: &str,
    crop_name: &str,
) -> Result<()> {
    let row = vec![in alloc; 77u8; 4320]?;
    let Ok(mut source) = Bitmap::make(alloc, 0, SOURCE.0, SOURCE.1, config) else {
        return Ok(());
    };
    let Ok(mut target) = Bitmap::make(alloc, 1, WANTED.0, WANTED.1, config) else {
        return Ok(());
    };
    let micros = least(rt, TIMES, || pack(&mut source, &row))?;
    print(rt, pack_name, micros, source.bytes())?;
    let micros = least(rt, TIMES, || crop(&mut target, &source))?;
    print(rt, crop_name, micros, target.bytes())
}

/// Times the packing of rows and a crop.
pub fn time(rt: &impl Runtime, alloc: Global) -> Result<()> {
    time_config(
        rt,
        alloc,
        Config::Argb8888,
        "pack argb8888",
        "crop argb8888",
    )?;
    time_config(rt, alloc, Config::Rgb565, "pack rgb565", "crop rgb565")?;
    time_config(rt, alloc, Config::Alpha8, "pack alpha8", "crop alpha8")
}
