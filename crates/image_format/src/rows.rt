// The rows of a picture of either kind.
ghost use Rattle.std.specs.Prelude.{◌≡◌, ◌*◌, length};
ghost use Rattle.picture_rows.specs.RowsLeft.{RowStep};
ghost use Rattle.image_format.specs.inside.Rows.{rows_by, Opens};

use crate::kinds::{Kind, kind_of};
use crate::refusal::Refusal;

/// The rows of a picture that are still to be read, from the top, by the reader of its kind.
#[derive(Drop)]
pub enum PictureRows<'a> {
    Netpbm(ppm_read::Rows<'a>),
    Bitmap(bmp_read::Rows<'a>),
}

/// The width and height of a text's picture, in pixels, and all its rows.
pub fn open_rows(text: &[u8]) -> Result<((u32, u32), PictureRows<'_>), Refusal>
    ensures { Opens text.now result }
{
    match kind_of(text) {
        Some(Kind::Netpbm) => {
            let head = ppm_read::read_head(text)?;
            let rows = ppm_read::Rows::new(text, head);
            Ok(((head.width, head.height), PictureRows::Netpbm(rows)))
        }
        Some(Kind::Bitmap) => {
            let head = bmp_read::read_head(text)?;
            let rows = bmp_read::Rows::new(text, head);
            Ok(((head.width, head.height), PictureRows::Bitmap(rows)))
        }
        None => Err(Refusal::Unknown),
    }
}

impl<'a> PictureRows<'a> {
    /// Writes the next row, four bytes a pixel: red, green, blue and alpha. After the last row it answers
    /// false. The fault of the picture's reader is the refusal, again at each later call, and leaves any
    /// bytes in the row.
    pub fn next_row(&mut self, into: &mut [u8]) -> Result<bool, Refusal>
        requires { length into.old ≡ 4 * (rows_by self.old).width }
        ensures { RowStep (rows_by self.old) result into.new (rows_by self.new) }
    {
        match self {
            PictureRows::Netpbm(rows) => Ok(rows.next_row(into)?),
            PictureRows::Bitmap(rows) => Ok(rows.next_row(into)?),
        }
    }
}
