// The pixels of a target, from those of the source.
ghost use Rattle.std.specs.Prelude.{◌≡◌, ℕ, ◌+◌, ◌<◌, ◌≤◌, length, slice_index, All};
ghost use Rattle.bitmap_kind.specs.Picture.{IsSize, stored_size, pixel_at};
ghost use Rattle.transforms.specs.Sizes.{target_size};
ghost use Rattle.transforms.specs.Boxes.{IsWhole};
ghost use Rattle.transforms.specs.Axis.{axis_place, FitsAxis, Follows};
ghost use Rattle.transforms.specs.Steps.{MovesColumns};
ghost use Rattle.transforms.specs.Moved.{moved};

use crate::axes::{self, Axis};
use bitmap_kind::{Bitmap, Transform};

// So many columns at once: their places lie on the stack.
const PIECE: u32 = 1024;

// Columns whose places are neighbours, from the first on.
fn move_run(source: &Bitmap, target: &mut Bitmap, x: u32, first: u32, count: u32, rows: Axis)
    requires columns { x + count ≤ target.old.picture.width }
    requires from_columns { first + count ≤ source.now.picture.width }
    requires config { target.old.picture.config ≡ source.now.picture.config }
    requires rows { Follows rows target.old.picture.height source.now.picture.height (axis_place rows) }
    requires source { IsWhole source.now.picture }
    requires target { IsWhole target.old.picture }
    ensures { MovesColumns source.now.picture target.old target.new x count target.old.picture.height
        (λ i. first + i) (axis_place rows) }
{
    for y in 0..target.height() {
        target.copy_run(x, y, source, first, rows.place(y), count);
    }
}

// Columns from any places.
fn move_places(source: &Bitmap, target: &mut Bitmap, x: u32, places: &[u32], rows: Axis)
    requires columns { x + length places.now ≤ target.old.picture.width }
    requires from_columns { All (λ place. place < source.now.picture.width) places.now }
    requires config { target.old.picture.config ≡ source.now.picture.config }
    requires rows { Follows rows target.old.picture.height source.now.picture.height (axis_place rows) }
    requires source { IsWhole source.now.picture }
    requires target { IsWhole target.old.picture }
    ensures { MovesColumns source.now.picture target.old target.new x
        (length places.now) target.old.picture.height (λ i. slice_index places.now i) (axis_place rows) }
{
    for y in 0..target.height() {
        target.copy_columns(x, y, source, rows.place(y), places);
    }
}

fn move_columns(source: &Bitmap, target: &mut Bitmap, x: u32, places: &[u32], rows: Axis)
    requires count { length places.now ≤ 1024 }
    requires columns { x + length places.now ≤ target.old.picture.width }
    requires from_columns { All (λ place. place < source.now.picture.width) places.now }
    requires config { target.old.picture.config ≡ source.now.picture.config }
    requires rows { Follows rows target.old.picture.height source.now.picture.height (axis_place rows) }
    requires source { IsWhole source.now.picture }
    requires target { IsWhole target.old.picture }
    ensures { MovesColumns source.now.picture target.old target.new x
        (length places.now) target.old.picture.height (λ i. slice_index places.now i) (axis_place rows) }
{
    if !places.is_empty() && axes::are_neighbours(places) {
        move_run(source, target, x, places[0], places.len() as u32, rows);
    } else {
        move_places(source, target, x, places, rows);
    }
}

// All columns, a piece of them after the other.
fn move_pixels(source: &Bitmap, target: &mut Bitmap, columns: Axis, rows: Axis)
    requires columns { Follows columns target.old.picture.width source.now.picture.width
        (axis_place columns) }
    requires config { target.old.picture.config ≡ source.now.picture.config }
    requires rows { Follows rows target.old.picture.height source.now.picture.height (axis_place rows) }
    requires source { IsWhole source.now.picture }
    requires target { IsWhole target.old.picture }
    ensures { MovesColumns source.now.picture target.old target.new 0 target.old.picture.width
        target.old.picture.height (axis_place columns) (axis_place rows) }
{
    let mut places = [0u32; PIECE as usize];
    let width = target.width();
    let mut x = 0;
    while x < width {
        let count = PIECE.min(width - x);
        let piece = &mut places[..count as usize];
        columns.fill(x, piece);
        move_columns(source, target, x, piece, rows);
        x += count;
    }
}

/// Writes the picture of `source` in another size into `target`, whatever stood there.
///
/// The target has the size that `target_size` gives. Each of its pixels is one of the source, the one at
/// its place.
pub fn transform(source: &Bitmap, target: &mut Bitmap, transform: Transform, wanted: (u32, u32))
    requires size { (target.old.picture.width, target.old.picture.height)
        ≡ target_size source.now.picture.width source.now.picture.height transform wanted.0 wanted.1 }
    requires config { target.old.picture.config ≡ source.now.picture.config }
    ensures { target.new ≡ record target.old {
      picture = moved source.now.picture transform wanted.0 wanted.1;
    } }
{
    let source_size = (source.width(), source.height());
    let target_size = (target.width(), target.height());
    let (columns, rows) = axes::axes(source_size, target_size, transform, wanted);
    move_pixels(source, target, columns, rows);
}
