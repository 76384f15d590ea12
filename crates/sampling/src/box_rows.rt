// Rows of a picture, sampled one after the other.
ghost use Rattle.std.specs.Prelude.{◌≡◌, ℕ, ◌+◌, ◌*◌, ◌<◌, ◌≤◌, ◌++◌, ◌↔◌, List, [], length, replicate, min, true, false, IfOk, IsTrue, if◌then◌else◌};
ghost use Rattle.sampling.specs.Sampled.{sampled_side, sampled_row};
ghost use Rattle.sampling.specs.BoxValue.{BoxValue, Holds, EndsBlocks};

use crate::sums::Sums;
use faults::NoMemory;
use std::alloc::Global;
use std::marker::Model;

/// How long a side of the sampled picture is: the whole blocks along it, and at least one.
pub fn sampled_side(side: u32, sample: u32) -> u32
    requires { 1 ≤ sample }
    ensures { result ≡ sampled_side side sample }
{
    (side / sample).max(1)
}

// Whether the rows pushed so far end with this row of blocks.
fn ends_blocks(height: u32, sample: u32, pushed: u32, given: u32) -> bool
    requires high { 1 ≤ height }
    requires sampled { 1 ≤ sample }
    ensures { IsTrue result ↔ EndsBlocks height sample pushed given }
{
    if given >= sampled_side(height, sample) {
        return false;
    }
    pushed as u64 == sample.min(height) as u64 * (given as u64 + 1)
}

/// Makes the rows of a sampled picture from those of its source, from the top, with one row of sums.
#[derive(Drop)]
pub struct BoxRows {
    width: u32,
    height: u32,
    sample: u32,
    pushed: u32,
    given: u32,
    full: bool,
    sums: Sums,
}

impl Model for BoxRows {
    ghost use Rattle.sampling.specs.BoxValue.{BoxValue};

    ghost Value = { BoxValue };

    ghost use Rattle.sampling.specs.BoxView.{value_of, IsBoxRows};

    ghost view = { value_of };

    ghost invariant = { IsBoxRows };
}

impl BoxRows {
    /// Takes the size of the source, and any sample: one above a side gives one block along it, cut
    /// at the edge.
    pub fn new(alloc: Global, width: u32, height: u32, sample: u32) -> Result<BoxRows, NoMemory>
        requires wide { 1 ≤ width }
        requires high { 1 ≤ height }
        requires sampled { 1 ≤ sample }
        ensures state { IfOk result (λ rows. rows ≡ record {
          width = width;
          height = height;
          sample = sample;
          pushed = 0;
          given = 0;
          full = false;
          sums = replicate (4 * sampled_side width sample) 0;
        }) }
        ensures pixels { IfOk result (λ rows. Holds rows []) }
    {
        let pixels = sample.min(width) as u64 * sample.min(height) as u64;
        let lanes = 4 * sampled_side(width, sample) as usize;
        let sums = Sums::new(alloc, lanes, pixels)?;
        Ok(BoxRows {
            width,
            height,
            sample,
            pushed: 0,
            given: 0,
            full: false,
            sums,
        })
    }

    /// Takes the next row of the source, four bytes a pixel. Where it answers true, a row of the
    /// sampled picture waits for `out`.
    pub fn push_row(&mut self, row: &[u8]) -> bool
        requires row { length row.now ≡ 4 * self.old.width }
        requires more { self.old.pushed < self.old.height }
        requires none_waits { self.old.full ≡ false }
        ensures full { IsTrue result ↔ EndsBlocks self.old.height self.old.sample
            (self.old.pushed + 1) self.old.given }
        ensures state { self.new ≡ record self.old {
          pushed = self.old.pushed + 1;
          full = result;
          sums = self.new.sums;
        } }
        ensures pixels { (pixels : List ℕ) → Holds self.old pixels → Holds self.new (pixels ++ row.now) }
        ensures last { self.old.pushed + 1 ≡ self.old.height
            → self.old.given + (if result then 1 else 0) ≡ sampled_side self.old.height self.old.sample }
    {
        let columns = self.sample.min(self.width) as usize;
        let blocks = sampled_side(self.width, self.sample) as usize;
        self.sums.add_row(row, columns, blocks);
        self.pushed += 1;
        self.full = ends_blocks(self.height, self.sample, self.pushed, self.given);
        self.full
    }

    /// Writes the row of the sampled picture that waits, four bytes a pixel.
    pub fn out(&mut self, into: &mut [u8])
        requires waits { self.old.full ≡ true }
        requires row { length into.old ≡ 4 * sampled_side self.old.width self.old.sample }
        ensures row { (pixels rest : List ℕ) → Holds self.old pixels
            → into.new ≡ sampled_row self.old.width self.old.height self.old.sample
            (pixels ++ rest) self.old.given }
        ensures state { self.new ≡ record self.old {
          given = self.old.given + 1;
          full = false;
          sums = self.new.sums;
        } }
        ensures pixels { (pixels : List ℕ) → Holds self.old pixels → Holds self.new pixels }
    {
        let count = self.sample.min(self.width) as u64 * self.sample.min(self.height) as u64;
        self.sums.means(into, count);
        self.given += 1;
        self.full = false;
    }
}
