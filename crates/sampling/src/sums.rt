// The sums of a row of blocks, in lanes as wide as the blocks need.
ghost use Rattle.std.specs.Prelude.{◌≡◌, ℕ, ◌+◌, ◌*◌, ◌/◌, ◌^◌, ◌<◌, ◌≤◌, length, slice_index, replicate, IfOk};
ghost use Rattle.sampling.specs.Lanes.{AddsRow, GivesMeans};
ghost use Rattle.sampling.specs.SumsView.{lanes_of, limit_of};

use crate::{narrow, wide};
use faults::NoMemory;
use std::alloc::Global;

// The sum of so many bytes, and half as much as their number more, stays below 2 ^ 32.
const NARROW_PIXELS: u64 = 16_777_216;

/// A sum for each channel of each block.
#[derive(Drop)]
pub enum Sums {
    Narrow(Vec<u32>),
    Wide(Vec<u128>),
}

impl Sums {
    /// Sums of 0, for blocks of so many pixels.
    pub fn new(alloc: Global, lanes: usize, pixels: u64) -> Result<Sums, NoMemory>
        ensures lanes { IfOk result (λ sums. lanes_of sums ≡ replicate lanes 0) }
        ensures room { IfOk result (λ sums. 255 * pixels + pixels / 2 < limit_of sums) }
    {
        if pixels <= NARROW_PIXELS {
            let lanes = vec![in alloc; 0u32; lanes]?;
            return Ok(Sums::Narrow(lanes));
        }
        let lanes = vec![in alloc; 0u128; lanes]?;
        Ok(Sums::Wide(lanes))
    }

    /// Adds a row to the sums, block by block.
    pub fn add_row(&mut self, row: &[u8], columns: usize, blocks: usize)
        requires lanes { length (lanes_of self.old) ≡ 4 * blocks }
        requires pixels { 4 * (columns * blocks) ≤ length row.now }
        requires columns { 255 * columns < 2 ^ 64 }
        requires room { (k : ℕ) → slice_index (lanes_of self.old) k + 255 * columns < limit_of self.old }
        ensures sums { AddsRow (lanes_of self.old) (lanes_of self.new) row.now columns blocks }
        ensures limit { limit_of self.new ≡ limit_of self.old }
    {
        match self {
            Sums::Narrow(lanes) => narrow::add_row(lanes, row, columns, blocks),
            Sums::Wide(lanes) => wide::add_row(lanes, row, columns, blocks),
        }
    }

    /// Writes the mean of each lane, whose sum is of `pixels` numbers, and clears the lanes.
    pub fn means(&mut self, into: &mut [u8], pixels: u64)
        requires size { length into.old ≡ length (lanes_of self.old) }
        requires some { 0 < pixels }
        requires room { 255 * pixels + pixels / 2 < limit_of self.old }
        requires bound { (k : ℕ) → slice_index (lanes_of self.old) k ≤ 255 * pixels }
        ensures means { GivesMeans (lanes_of self.old) (lanes_of self.new) into.new pixels }
        ensures limit { limit_of self.new ≡ limit_of self.old }
    {
        match self {
            Sums::Narrow(lanes) => narrow::means(lanes, into, pixels as u32),
            Sums::Wide(lanes) => wide::means(lanes, into, pixels as u128),
        }
    }
}
