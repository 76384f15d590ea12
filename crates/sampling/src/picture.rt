// A whole picture, sampled row by row.
ghost use Rattle.std.specs.Prelude.{◌≡◌, ℕ, ◌+◌, ◌*◌, ◌<◌, ◌≤◌, length, IfOk};
ghost use Rattle.sampling.specs.Sampled.{sampled_picture};
ghost use Rattle.sampling.specs.SampleLaws.{OneKeepsThePicture};

use crate::box_rows::{BoxRows, sampled_side};
use faults::NoMemory;
use std::alloc::Global;

/// The sampled picture of a whole picture, four bytes a pixel: each row is pushed after the other,
/// and each row of the sampled picture is taken where it waits. So its contract is the law over
/// whole runs of `BoxRows`. A decoder does the same with rows that it reads one by one.
pub fn sampled_picture(
    alloc: Global,
    pixels: &[u8],
    width: u32,
    height: u32,
    sample: u32,
) -> Result<Vec<u8>, NoMemory>
    requires wide { 1 ≤ width }
    requires high { 1 ≤ height }
    requires sampled { 1 ≤ sample }
    requires pixels { length pixels.now ≡ 4 * (width * height) }
    ensures { IfOk result (λ picture. picture.items ≡ sampled_picture width height sample pixels.now) }
{
    let size = 4 * width as usize;
    let mut rows = BoxRows::new(alloc, width, height, sample)?;
    let mut row = vec![in alloc; 0u8; 4 * sampled_side(width, sample) as usize]?;
    let mut picture = Vec::new(alloc);
    for y in 0..height {
        let first = size * y as usize;
        if rows.push_row(&pixels[first..first + size]) {
            rows.out(&mut row);
            picture.extend_from_slice(&row)?;
        }
    }
    Ok(picture)
}

/// Under sample 1 the sampled picture is the picture. (A law: the call does nothing.)
pub fn one_keeps_the_picture()
    ensures { OneKeepsThePicture }
{}
