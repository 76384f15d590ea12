//! Runs of an engine that one caller owns, and of jobs over it and a source in memory. It is tests alone.
#![tactic(auto)]

#[cfg(test)]
mod guarded;
#[cfg(test)]
mod tests;
