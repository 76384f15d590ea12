// The rows of a raster, put into a bitmap from the top.
ghost use Rattle.std.specs.Prelude.{◌≡◌, ℕ, ◌+◌, ◌*◌, ◌<◌, ◌≤◌, ◌++◌, List, [], false, length, OnOk};
ghost use Rattle.std.specs.List.{concat};
ghost use Rattle.picture_rows.specs.RowsLeft.{HasRows};
ghost use Rattle.sampling.specs.Sampled.{sampled_side, sampled_picture};
ghost use Rattle.image_format.specs.Answers.{KeepsShape};
ghost use Rattle.image_format.specs.inside.Rows.{rows_by};
ghost use Rattle.image_format.specs.inside.Filled.{IsBitmap, IsFilled, Fills, IsFresh, IsSampled, PushesRow};

use crate::refusal::Refusal;
use crate::rows::PictureRows;
use bitmap_kind::{Bitmap, pixels_are_stored_in_order};
use sampling::BoxRows;

// What each bitmap is: of a size that a bitmap may have, and with all its bytes. (A law: the call does
// nothing.)
fn is_whole(bitmap: &Bitmap)
    ensures { IsBitmap bitmap.now.picture }
{
    let _ = bitmap.width();
}

// Puts a row of pixels below those that are there.
fn put_row(bitmap: &mut Bitmap, y: u32, row: &[u8])
    requires row { y < bitmap.old.picture.height }
    requires pixels { length row.now ≡ 4 * bitmap.old.picture.width }
    ensures shape { KeepsShape bitmap.old bitmap.new }
    ensures filled { (pixels : List ℕ) → IsFilled bitmap.old.picture y pixels
        → IsFilled bitmap.new.picture (y + 1) (pixels ++ row.now) }
{
    pixels_are_stored_in_order();
    bitmap.put_row(y, row);
}

/// Puts rows into a bitmap of their size. The row's buffer is overwritten.
pub fn put_rows(
    rows: &mut PictureRows<'_>,
    row: &mut [u8],
    bitmap: &mut Bitmap,
) -> Result<(), Refusal>
    requires width { (rows_by rows.old).width ≡ bitmap.old.picture.width }
    requires count { HasRows bitmap.old.picture.height (rows_by rows.old) }
    requires row { length row.old ≡ 4 * bitmap.old.picture.width }
    ensures shape { KeepsShape bitmap.old bitmap.new }
    ensures pixels { OnOk result (length (concat (rows_by rows.old).rows)
        ≡ 4 * (bitmap.old.picture.width * bitmap.old.picture.height)) }
    ensures fills { Fills result (rows_by rows.old) (concat (rows_by rows.old).rows)
        bitmap.old.picture bitmap.new.picture }
{
    is_whole(bitmap);
    let mut y = 0;
    'rows: while rows.next_row(row)? {
        put_row(bitmap, y, row);
        y += 1;
    }
    Ok(())
}

// Pushes a row, and puts the row of the sampled picture that waits then below those that are there.
// Answers how many do: one, or none. The row's buffer is overwritten.
fn put_sampled_row(boxes: &mut BoxRows, row: &mut [u8], y: u32, bitmap: &mut Bitmap) -> u32
    requires wide { 1 ≤ boxes.old.width }
    requires row { length row.old ≡ 4 * boxes.old.width }
    requires more { boxes.old.pushed < boxes.old.height }
    requires none_waits { boxes.old.full ≡ false }
    requires given { y ≡ boxes.old.given }
    requires width { bitmap.old.picture.width ≡ sampled_side boxes.old.width boxes.old.sample }
    requires height { bitmap.old.picture.height ≡ sampled_side boxes.old.height boxes.old.sample }
    ensures pushes { PushesRow boxes.old boxes.new result }
    ensures shape { KeepsShape bitmap.old bitmap.new }
    ensures sampled { (pixels rest : List ℕ)
        → IsSampled boxes.old bitmap.old.picture pixels (row.old ++ rest)
        → IsSampled boxes.new bitmap.new.picture (pixels ++ row.old) rest }
{
    if !boxes.push_row(row) {
        return 0;
    }
    let line = &mut row[..4 * bitmap.width() as usize];
    boxes.out(line);
    put_row(bitmap, y, line);
    1
}

/// Puts the sampled picture of rows into a bitmap of its size. All rows are read, also those after the
/// last that it uses. The row's buffer is overwritten.
pub fn put_sampled_rows(
    rows: &mut PictureRows<'_>,
    boxes: &mut BoxRows,
    row: &mut [u8],
    bitmap: &mut Bitmap,
) -> Result<(), Refusal>
    requires wide { bitmap.old.picture.width ≡ sampled_side boxes.old.width boxes.old.sample }
    requires high { bitmap.old.picture.height ≡ sampled_side boxes.old.height boxes.old.sample }
    requires fresh { IsFresh boxes.old }
    requires width { (rows_by rows.old).width ≡ boxes.old.width }
    requires count { HasRows boxes.old.height (rows_by rows.old) }
    requires row { length row.old ≡ 4 * boxes.old.width }
    ensures shape { KeepsShape bitmap.old bitmap.new }
    ensures fills { Fills result (rows_by rows.old)
        (sampled_picture boxes.old.width boxes.old.height boxes.old.sample (concat (rows_by rows.old).rows))
        bitmap.old.picture bitmap.new.picture }
{
    is_whole(bitmap);
    let mut y = 0;
    'rows: while rows.next_row(row)? {
        y += put_sampled_row(boxes, row, y, bitmap);
    }
    Ok(())
}
