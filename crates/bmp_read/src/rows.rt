// The rows of the raster, from the top.
ghost use Rattle.std.specs.Prelude.{◌≡◌, ◌≤◌, ◌<◌, ◌-◌, ◌+◌, ◌*◌, false, length, Ok, IsTrue};
ghost use Rattle.bmp_read.specs.Header.{HasSides, head_of};
ghost use Rattle.bmp_read.specs.Pixel.{bits_of, pixel_at, IsFormatIn};
ghost use Rattle.picture_rows.specs.RowsLeft.{RowStep, HasRows};
ghost use Rattle.bmp_read.specs.Raster.{row_length, has_raster, stored_row, stored_index, pixels, row_at};
ghost use Rattle.bmp_read.specs.Full.{rows_under};

use crate::direct::{write_bgr24, write_bgr32, write_rgb555};
use crate::fault::BmpFault;
use crate::format::Format;
use crate::header::{Head, RowOrder};
use crate::indexed::{write_indexed1, write_indexed4, write_indexed8};
use crate::masked::{write_masked16, write_masked32};
use std::marker::Model;

/// The rows of a picture that are still to be read, from the top, or the fault that comes in the
/// place of all where the raster does not lie inside the text.
#[derive(Drop)]
pub struct Rows<'a> {
    text: &'a [u8],
    head: Head,
    height_left: u32,
}

impl<'a> Model for Rows<'a> {
    ghost use Rattle.std.specs.Prelude.{◌≤◌};
    ghost use Rattle.bmp_read.specs.Header.{HasSides};
    ghost use Rattle.bmp_read.specs.Pixel.{IsFormatIn};
    ghost use Rattle.picture_rows.specs.RowsLeft.{RowsLeft};
    ghost use Rattle.bmp_read.specs.declared.fault.BmpFault.{BmpFault};
    ghost use Rattle.bmp_read.specs.Raster.{rows_of};

    ghost Value = { RowsLeft BmpFault };

    ghost view = { λ s. rows_of s.head s.height_left s.text.now };

    ghost invariant = { λ s. IsFormatIn s.head.format s.text.now × HasSides s.head
        × (s.height_left ≤ s.head.height) };
}

// How many bits a pixel has.
fn bits_of(format: Format) -> u64
    ensures value { result ≡ bits_of format }
    ensures bound { result ≤ 32 }
{
    match format {
        Format::Indexed1(_) => 1,
        Format::Indexed4(_) => 4,
        Format::Indexed8(_) => 8,
        Format::Rgb555 | Format::Masked16(_) => 16,
        Format::Bgr24 => 24,
        Format::Bgr32 | Format::Masked32(_) => 32,
    }
}

// How many bytes a stored row has.
fn row_length(head: Head) -> u64
    ensures { result ≡ row_length head }
{
    (u64::from(head.width) * bits_of(head.format) + 31) / 32 * 4
}

// Whether the raster lies inside the text.
fn has_raster(text: &[u8], head: Head) -> bool
    requires { HasSides head }
    ensures { result ≡ has_raster head text.now }
{
    let length = row_length(head) * u64::from(head.height);
    u64::from(head.raster_start) + length <= text.len() as u64
}

// Where in the file the row stands that has so many rows above it.
fn stored_index(head: Head, above: u32) -> u32
    requires { above < head.height }
    ensures value { result ≡ stored_index head.order head.height above }
    ensures bound { result < head.height }
{
    match head.order {
        RowOrder::TopFirst => above,
        RowOrder::BottomFirst => head.height - 1 - above,
    }
}

// The bytes of a stored row.
fn stored_row(text: &[u8], head: Head, index: u32) -> &[u8]
    requires inside { IsTrue (has_raster head text.now) }
    requires index { index < head.height }
    ensures value { result.now ≡ stored_row head text.now index }
    ensures length { length result.now ≡ row_length head }
{
    let length = row_length(head) as usize;
    let (_, raster) = text.split_at(head.raster_start as usize);
    let (_, rest) = raster.split_at(length * index as usize);
    let (row, _) = rest.split_at(length);
    row
}

// Writes the pixels of a stored row.
fn write_row(text: &[u8], head: Head, row: &[u8], into: &mut [u8])
    requires palette { IsFormatIn head.format text.now }
    requires row { length row.now ≡ row_length head }
    requires into { length into.old ≡ 4 * head.width }
    ensures { into.new ≡ pixels (pixel_at head.format text.now row.now) head.width }
{
    let width = head.width as usize;
    match head.format {
        Format::Indexed1(palette) => write_indexed1(text, palette, row, into, width),
        Format::Indexed4(palette) => write_indexed4(text, palette, row, into, width),
        Format::Indexed8(palette) => write_indexed8(text, palette, row, into, width),
        Format::Rgb555 => write_rgb555(row, into, width),
        Format::Bgr24 => write_bgr24(row, into, width),
        Format::Bgr32 => write_bgr32(row, into, width),
        Format::Masked16(masks) => write_masked16(row, masks, into, width),
        Format::Masked32(masks) => write_masked32(row, masks, into, width),
    }
}

impl<'a> Rows<'a> {
    /// All rows of the picture whose header was read from these bytes. Bytes after the raster are
    /// never looked at.
    pub fn new(bytes: &'a [u8], head: Head) -> Rows<'a>
        requires { head_of bytes.now ≡ Ok head }
        ensures rows { result ≡ rows_under head bytes.now }
        ensures count { HasRows head.height result }
        ensures width { result.width ≡ head.width }
    {
        Rows {
            text: bytes,
            head,
            height_left: head.height,
        }
    }

    /// Writes the next row, four bytes a pixel: red, green, blue and alpha. A sample v of the
    /// maximum m is written as `(255 * v + m / 2) / m`. Alpha is 255 where no mask says otherwise,
    /// and an index that the palette does not have is opaque black. After the last row it answers
    /// false.
    ///
    /// `Truncated` comes in the place of the first row, and again at each later call, where the
    /// raster does not lie inside the text; what it leaves in the buffer is any bytes.
    pub fn next_row(&mut self, into: &mut [u8]) -> Result<bool, BmpFault>
        requires { length into.old ≡ 4 * self.old.width }
        ensures step { RowStep self.old result into.new self.new }
        ensures buffer { result ≡ Ok false → into.new ≡ into.old }
    {
        if !has_raster(self.text, self.head) {
            return Err(BmpFault::Truncated);
        }
        if self.height_left == 0 {
            return Ok(false);
        }
        let above = self.head.height - self.height_left;
        let row = stored_row(self.text, self.head, stored_index(self.head, above));
        write_row(self.text, self.head, row, into);
        self.height_left -= 1;
        Ok(true)
    }
}
