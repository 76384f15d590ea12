// Obeys a script of views, and prints what each of them shows.
#![tactic(auto)]

mod laws;
mod looks;
mod obeys;
mod prints;
mod run;
mod settings;
mod stats;
mod top;
mod walks;

pub use settings::Settings;
pub use top::{Ending, glide_alone};

#[cfg(test)]
mod limit_tests;
#[cfg(test)]
mod line_tests;
#[cfg(test)]
mod picture_tests;
#[cfg(test)]
mod stats_tests;
#[cfg(test)]
mod test_runs;
#[cfg(test)]
mod tests;
#[cfg(test)]
mod worked;
