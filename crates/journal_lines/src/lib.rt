// The journal of a disk cache: its lines, and what a text of them says.
#![tactic(auto)]

mod keys;
mod laws;
mod lines;
mod numbers;
mod replay;
mod texts;

pub use keys::{Key, LONGEST_KEY};
pub use laws::text_is_its_lines;
pub use lines::{JournalFault, Line, Rest, read_line};
pub use replay::Replay;
pub use texts::{LineText, write_line};

#[cfg(test)]
mod tests;
