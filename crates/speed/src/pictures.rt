// Pictures that are made in memory.
use anyhow::Result;
use outside::Content;
use std::alloc::Global;

// How many samples there are before they come again.
const PERIOD: u32 = 999_983;

/// Samples for pictures: the high bytes of the linear congruential generator of "Numerical Recipes", from 1 on.
pub fn samples(alloc: Global) -> Result<Vec<u8>> {
    let mut samples = Vec::with_capacity(alloc, PERIOD as usize)?;
    let mut state = 1u32;
    for _ in 0..PERIOD {
        state = state.wrapping_mul(1_664_525).wrapping_add(1_013_904_223);
        samples.push(state.to_be_bytes()[0])?;
    }
    Ok(samples)
}

// Adds so many samples, from the one of this number on, over and over.
fn add_samples(text: &mut Vec<u8>, samples: &[u8], first: usize, count: usize) -> Result<()> {
    let start = first.min(samples.len());
    let mut left = count;
    let (_, mut piece) = samples.split_at(start);
    let rounds = (count / samples.len().max(1)).saturating_add(2);
    for _ in 0..rounds {
        let taken = left.min(piece.len());
        text.extend_from_slice(&piece[..taken])?;
        left -= taken;
        piece = samples;
    }
    Ok(())
}

/// A `P6` picture of this size at the url, version 1, whose raster begins at the sample of this number.
pub fn picture(
    alloc: Global,
    url: &str,
    size: (u16, u16),
    samples: &[u8],
    first: usize,
) -> Result<Content> {
    let (width, height) = size;
    let count = usize::from(width)
        .saturating_mul(usize::from(height))
        .saturating_mul(3);
    let mut bytes = Vec::with_capacity(alloc, count.saturating_add(32))?;
    let head = format!(in alloc; "P6 {width} {height} 255 ")?;
    bytes.extend_from_slice(head.as_bytes())?;
    add_samples(&mut bytes, samples, first, count)?;
    Ok(Content {
        url: url.as_bytes().to_vec(alloc)?,
        sig: b"1".to_vec(alloc)?,
        bytes,
    })
}
