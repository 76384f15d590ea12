// The lines that a run prints: the text of each kind of line, and its writing to a sink.
#![tactic(auto)]

mod lines;
mod pixels;
mod words;
mod writing;

pub use lines::{ShownPicture, write_bad_line, write_plain_line, write_shown_line};
pub use pixels::{PixelsLine, write_pixels_line};
pub use words::PlainState;
pub use writing::write_all;

#[cfg(test)]
mod tests;
#[cfg(test)]
mod worked;
