// Why a load of a picture fails, and what a content gives a key.
#![tactic(auto)]

mod causes;

pub use causes::Cause;

#[cfg(test)]
mod tests;
