// The size of the target.
ghost use Rattle.std.specs.Prelude.{◌≡◌, ℕ, ◌+◌, ◌*◌, ◌/◌, ◌<◌, ◌≤◌, max, IsTrue, ◌↔◌};
ghost use Rattle.transforms.specs.Sizes.{fitted, lies_inside, target_size};

use bitmap_kind::Transform;

// A length of `from` that is scaled by `times` to `divided`, rounded, halves up, and at least 1.
fn scaled(from: u32, times: u32, divided: u32) -> u128
    requires { 1 ≤ divided }
    ensures { result ≡ max 1 ((2 * from * times + divided) / (2 * divided)) }
{
    let (from, times, divided) = (u128::from(from), u128::from(times), u128::from(divided));
    1.max((2 * from * times + divided) / (2 * divided))
}

fn fitted(w: u32, h: u32, wanted_w: u32, wanted_h: u32) -> (u32, u32)
    requires w { 1 ≤ w }
    requires h { 1 ≤ h }
    requires wanted_w { 1 ≤ wanted_w }
    requires wanted_h { 1 ≤ wanted_h }
    ensures { result ≡ fitted w h wanted_w wanted_h }
{
    if u64::from(wanted_w) * u64::from(h) <= u64::from(wanted_h) * u64::from(w) {
        (wanted_w, scaled(h, wanted_w, w) as u32)
    } else {
        (scaled(w, wanted_h, h) as u32, wanted_h)
    }
}

/// The size of what `transform` makes of a source of this size, as width and height in pixels.
pub fn target_size(source: (u32, u32), transform: Transform, wanted: (u32, u32)) -> (u32, u32)
    requires width { 1 ≤ source.0 }
    requires height { 1 ≤ source.1 }
    requires wanted_width { 1 ≤ wanted.0 }
    requires wanted_height { 1 ≤ wanted.1 }
    ensures { result ≡ target_size source.0 source.1 transform wanted.0 wanted.1 }
{
    match transform {
        Transform::Nothing => source,
        Transform::Fit => fitted(source.0, source.1, wanted.0, wanted.1),
        Transform::Crop => wanted,
        Transform::Inside => {
            if source.0 <= wanted.0 && source.1 <= wanted.1 {
                return source;
            }
            fitted(source.0, source.1, wanted.0, wanted.1)
        }
    }
}
