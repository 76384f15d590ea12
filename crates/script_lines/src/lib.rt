// The lines of a script, and what they ask for.
#![tactic(auto)]

mod commands;
mod laws;
mod lines;
mod pieces;
mod reader;
mod settings;
mod words;

pub use commands::{Command, ScriptFault};
pub use laws::further_words_in_any_order;
pub use reader::ScriptReader;
pub use words::is_whole;

#[cfg(test)]
mod tests;
#[cfg(test)]
mod worked;
