// What holds for every source and every wanted size. A function of this file does nothing: its contract
// is the law.
ghost use Rattle.std.specs.Prelude.{◌≡◌, ℕ, ◌+◌, ◌<◌, ◌≤◌};
ghost use Rattle.bitmap_kind.specs.declared.bitmaps.Transform.{Transform};
ghost use Rattle.bitmap_kind.specs.Picture.{Picture};
ghost use Rattle.transforms.specs.Sizes.{target_size, source_column, source_row};
ghost use Rattle.transforms.specs.Boxes.{AreMirrored, AreSides, IsWhole, TouchesBox};
ghost use Rattle.transforms.specs.Moved.{moved};

/// Fit: the target lies inside the wanted box and has one side of it.
pub fn fit_touches_the_box()
    ensures { (w h W H : ℕ) → AreSides w h → AreSides W H
        → TouchesBox (target_size w h Transform.Fit W H) W H }
{}

/// Crop: the target is the wanted box.
pub fn crop_is_the_box()
    ensures { (w h W H : ℕ) → target_size w h Transform.Crop W H ≡ (W, H) }
{}

/// Inside: no side of the target is longer than the source's.
pub fn inside_never_enlarges()
    ensures width { (w h W H : ℕ) → AreSides w h → AreSides W H
        → (target_size w h Transform.Inside W H).0 ≤ w }
    ensures height { (w h W H : ℕ) → AreSides w h → AreSides W H
        → (target_size w h Transform.Inside W H).1 ≤ h }
{}

/// Every target has two sides of at least one pixel.
pub fn targets_have_pixels()
    ensures { (transform : Transform) (w h W H : ℕ) → AreSides w h → AreSides W H
        → AreSides (target_size w h transform W H).0 (target_size w h transform W H).1 }
{}

/// Each pixel of the target comes from a place in the source.
pub fn places_lie_in_the_source()
    ensures columns { (transform : Transform) (w h W H x : ℕ) → AreSides w h → AreSides W H
        → x < (target_size w h transform W H).0 → source_column w h transform W H x < w }
    ensures rows { (transform : Transform) (w h W H y : ℕ) → AreSides w h → AreSides W H
        → y < (target_size w h transform W H).1 → source_row w h transform W H y < h }
{}

/// A place is as far from one end of its line as that of the mirrored pixel from the other, up to a
/// pixel. So what Crop takes is the middle.
pub fn places_are_mirrored()
    ensures columns { (transform : Transform) (w h W H x y : ℕ) → AreSides w h → AreSides W H
        → x + y + 1 ≡ (target_size w h transform W H).0
        → AreMirrored (source_column w h transform W H x) (source_column w h transform W H y) w }
    ensures rows { (transform : Transform) (w h W H x y : ℕ) → AreSides w h → AreSides W H
        → x + y + 1 ≡ (target_size w h transform W H).1
        → AreMirrored (source_row w h transform W H x) (source_row w h transform W H y) h }
{}

/// A transform that keeps a picture's size keeps every pixel of it.
pub fn kept_size_moves_nothing()
    ensures { (transform : Transform) (picture : Picture) (W H : ℕ) → AreSides picture.width picture.height
        → IsWhole picture
        → target_size picture.width picture.height transform W H ≡ (picture.width, picture.height)
        → moved picture transform W H ≡ picture }
{}

/// A picture that has the wanted size already stays as it is, under each transform.
pub fn wanted_size_moves_nothing()
    ensures { (transform : Transform) (picture : Picture) → AreSides picture.width picture.height
        → IsWhole picture → moved picture transform picture.width picture.height ≡ picture }
{}
