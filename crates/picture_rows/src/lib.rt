//! What the readers of pictures share: the rows that are left, a row's step, the full picture, and
//! samples and pixels as bytes.
#![tactic(auto)]

mod pixel;
mod scale;

pub use pixel::{Rgba, put_pixel, put_pixel_at_once};
pub use scale::{Scale, scale_of, scaled, scaled_by};
