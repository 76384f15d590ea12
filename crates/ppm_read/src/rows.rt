// The rows of the raster, from the top.
ghost use Rattle.std.specs.Prelude.{◌≡◌, ◌≤◌, ◌*◌, false, length, Ok};
ghost use Rattle.picture_rows.specs.Reading.{Gives};
ghost use Rattle.ppm_read.specs.Header.{head_of};
ghost use Rattle.picture_rows.specs.RowsLeft.{RowStep, HasRows};
ghost use Rattle.ppm_read.specs.Raster.{row_at};
ghost use Rattle.ppm_read.specs.Full.{rows_under};

use crate::fault::PpmFault;
use crate::header::{Format, Head};
use crate::plain::plain_row;
use crate::raw::raw_row;
use std::marker::Model;

/// The rows of a picture that are still to be read, from the top, and the fault that comes in place
/// of the first row in which the text breaks a rule.
#[derive(Drop)]
pub struct Rows<'a> {
    text: &'a [u8],
    head: Head,
    height_left: u32,
}

impl<'a> Model for Rows<'a> {
    ghost use Rattle.std.specs.Prelude.{◌≤◌};
    ghost use Rattle.picture_rows.specs.RowsLeft.{RowsLeft};
    ghost use Rattle.ppm_read.specs.declared.fault.PpmFault.{PpmFault};
    ghost use Rattle.ppm_read.specs.Raster.{rows_of};

    ghost Value = { RowsLeft PpmFault };

    ghost view = { λ s. rows_of s.head s.height_left s.text.now };

    ghost invariant = { λ s. 1 ≤ s.head.maximum };
}

// Reads a row into the buffer, and gives the text after it.
fn read_row<'a>(
    text: &'a [u8],
    head: Head,
    last: bool,
    into: &mut [u8],
) -> Result<&'a [u8], PpmFault>
    requires maximum { 1 ≤ head.maximum }
    requires into { length into.old ≡ 4 * head.width }
    ensures { Gives (λ rest. (into.new, rest.now)) result (row_at head last text.now) }
{
    match head.format {
        Format::Plain => plain_row(text, head, last, into),
        Format::Raw => raw_row(text, head, into),
    }
}

impl<'a> Rows<'a> {
    /// All rows of the picture whose header was read from these bytes. Bytes after the last row
    /// are never looked at.
    pub fn new(bytes: &'a [u8], head: Head) -> Rows<'a>
        requires { head_of bytes.now ≡ Ok head }
        ensures rows { result ≡ rows_under head bytes.now }
        ensures count { HasRows head.height result }
        ensures width { result.width ≡ head.width }
    {
        let (_, text) = bytes.split_at(head.raster_start);
        Rows {
            text,
            head,
            height_left: head.height,
        }
    }

    /// Writes the next row, four bytes a pixel: red, green, blue and an alpha of 255. A sample v of
    /// the maximum m is written as `(255 * v + m / 2) / m`, and a grey one as the same of each.
    /// After the last row it answers false.
    ///
    /// `Truncated`, `BadNumber` (in a plain raster) and `SampleAbove` come in the place of the row in
    /// which the text breaks that rule, and again at each later call; what it leaves in the buffer is
    /// any bytes.
    pub fn next_row(&mut self, into: &mut [u8]) -> Result<bool, PpmFault>
        requires { length into.old ≡ 4 * self.old.width }
        ensures step { RowStep self.old result into.new self.new }
        ensures buffer { result ≡ Ok false → into.new ≡ into.old }
    {
        if self.height_left == 0 {
            return Ok(false);
        }
        let rest = read_row(self.text, self.head, self.height_left == 1, into)?;
        self.text = rest;
        self.height_left -= 1;
        Ok(true)
    }
}
