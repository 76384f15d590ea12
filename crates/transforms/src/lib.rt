// Pictures in other sizes: the size of the target, and its pixels from the source.
#![tactic(auto)]

mod axes;
mod laws;
mod moves;
mod sizes;
#[cfg(test)]
mod tests;

pub use laws::{
    crop_is_the_box, fit_touches_the_box, inside_never_enlarges, kept_size_moves_nothing,
    places_are_mirrored, places_lie_in_the_source, targets_have_pixels, wanted_size_moves_nothing,
};
pub use moves::transform;
pub use sizes::target_size;
