// The sampling of 64 rows of 4,000 pixels.
use crate::timing::{least, print};
use anyhow::Result;
use sampling::sampled_picture;
use std::alloc::Global;
use std::rt::Runtime;

const WIDTH: u32 = 4000;

const HEIGHT: u32 = 64;

const TIMES: u32 = 400;

// Leaves the sampled picture.
fn resample(alloc: Global, pixels: &Vec<u8>, sample: u32, picture: &mut Vec<u8>) {
    if sample == 0 || pixels.len() != 4 * (WIDTH * HEIGHT) as usize {
        return;
    }
    if let Ok(sampled) = sampled_picture(alloc, pixels, WIDTH, HEIGHT, sample) {
        *picture = sampled;
    }
}

fn time_sample(rt: &impl Runtime, alloc: Global, name: &str, sample: u32) -> Result<()> {
    let pixels = vec![in alloc; 7u8; 4 * 4000 * 64]?;
    let mut picture = Vec::new(alloc);
    let micros = least(rt, TIMES, || {
        resample(alloc, &pixels, sample, &mut picture)
    })?;
    print(rt, name, micros, &picture)
}

/// Times each sample.
pub fn time(rt: &impl Runtime, alloc: Global) -> Result<()> {
    time_sample(rt, alloc, "sample 1", 1)?;
    time_sample(rt, alloc, "sample 2", 2)?;
    time_sample(rt, alloc, "sample 4", 4)?;
    time_sample(rt, alloc, "sample 8", 8)
}
