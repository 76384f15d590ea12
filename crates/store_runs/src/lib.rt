//! Tests of the disk store over files in memory: the bytes of an entry, what is answered without a call on the files, calls that
//! fail in turn, and two seats that store one key in every order. What has to come out is told by tables that were made by hand.
#![tactic(auto)]

#[cfg(test)]
mod entries;
#[cfg(test)]
mod failing;
#[cfg(test)]
mod fixtures;
#[cfg(test)]
mod orders;
mod phases;
#[cfg(test)]
mod writers;
