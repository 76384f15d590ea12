// Where the columns of a target come from, and its rows.
ghost use Rattle.std.specs.Prelude.{◌≡◌, ℕ, ◌+◌, ◌-◌, ◌*◌, ◌/◌, ◌<◌, ◌≤◌, length, slice_index, EachIndex, IsTrue, ◌↔◌};
ghost use Rattle.bitmap_kind.specs.Picture.{IsSize};
ghost use Rattle.transforms.specs.Sizes.{target_size, source_column, source_row, scaled_place, cropped_place};
ghost use Rattle.transforms.specs.Axis.{axis_place, FitsAxis, Follows};

use bitmap_kind::Transform;

// A line of pixels at one scale: the pixel k comes from the pixel ((2 * k + 1) * scale + shift) / unit.
#[derive(Clone, Copy)]
pub struct Axis {
    pub scale: u64,
    pub shift: u64,
    pub unit: u64,
}

// A line of `from` pixels that becomes one of `to`.
fn scaled(from: u32, to: u32) -> Axis
    requires some { 1 ≤ from }
    requires from { from ≤ 33554432 }
    requires to { to ≤ 33554432 }
    ensures { Follows result to from (scaled_place from to) }
{
    Axis {
        scale: u64::from(from),
        shift: 0,
        unit: 2 * u64::from(to),
    }
}

// The middle of a line of `from` pixels that is scaled as `across` ones become `to`: so many as are wanted.
fn cropped(from: u32, across: u32, wanted: u32, to: u32) -> Axis
    requires across { 1 ≤ across }
    requires some { 1 ≤ to }
    requires from { from ≤ 33554432 }
    requires to { to ≤ 33554432 }
    requires cut { wanted * across ≤ from * to }
    ensures { Follows result wanted from (cropped_place from across wanted to) }
{
    let (from, across) = (u64::from(from), u64::from(across));
    let (wanted, to) = (u64::from(wanted), u64::from(to));
    Axis {
        scale: across,
        shift: from * to - wanted * across,
        unit: 2 * to,
    }
}

// The lines of the columns and of the rows of a target.
pub fn axes(
    source: (u32, u32),
    target: (u32, u32),
    transform: Transform,
    wanted: (u32, u32),
) -> (Axis, Axis)
    requires source { IsSize source.0 source.1 }
    requires target { IsSize target.0 target.1 }
    requires size { target ≡ target_size source.0 source.1 transform wanted.0 wanted.1 }
    ensures columns { Follows result.0 target.0 source.0
        (source_column source.0 source.1 transform wanted.0 wanted.1) }
    ensures rows { Follows result.1 target.1 source.1
        (source_row source.0 source.1 transform wanted.0 wanted.1) }
{
    let (w, h) = source;
    let (wanted_w, wanted_h) = wanted;
    match transform {
        Transform::Crop => {
            if u64::from(wanted_w) * u64::from(h) < u64::from(w) * u64::from(wanted_h) {
                return (cropped(w, h, wanted_w, wanted_h), scaled(h, wanted_h));
            }
            (scaled(w, wanted_w), cropped(h, w, wanted_h, wanted_w))
        }
        // The whole source becomes the target.
        _ => (scaled(w, target.0), scaled(h, target.1)),
    }
}

impl Axis {
    // The place that a pixel comes from.
    pub fn place(self, k: u32) -> u32
        requires { FitsAxis self k }
        ensures { result ≡ axis_place self k }
    {
        (((2 * u64::from(k) + 1) * self.scale + self.shift) / self.unit) as u32
    }

    // Writes the places of the pixels from `first` on.
    pub fn fill(self, first: u32, into: &mut [u32])
        requires last { first + length into.old < 4294967296 }
        requires fits { (k : ℕ) → k < first + length into.old → FitsAxis self k }
        ensures { EachIndex into.new (λ i. slice_index into.new i ≡ axis_place self (first + i)) }
    {
        for i in 0..into.len() {
            into[i] = self.place(first + i as u32);
        }
    }
}

// Whether places are neighbours, each one past the one before.
pub fn are_neighbours(places: &[u32]) -> bool
    ensures { IsTrue result ↔ EachIndex places.now
        (λ i. slice_index places.now i ≡ slice_index places.now 0 + i) }
{
    for (i, place) in places.iter().enumerate() {
        if *place as usize != places[0] as usize + i {
            return false;
        }
    }
    true
}
