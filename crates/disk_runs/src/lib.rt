//! Tests of the disk cache over files in memory: starts on folders of all kinds, a stop at each byte of a run, calls that fail in
//! turn, and large tables. What has to be offered is told by tables that were made by hand.
#![tactic(auto)]

#[cfg(test)]
mod files;
#[cfg(test)]
mod large;
#[cfg(test)]
mod runs;
#[cfg(test)]
mod starts;
