//! Times the work that has a twin in plain C (the folder bench/): each word names a mode, and with no word nothing is
//! timed.
#![tactic(auto)]

mod bitmaps;
mod disk;
mod folder;
mod list;
mod memory;
mod pictures;
mod pool;
mod rows;
mod runs;
mod samples;
mod timed_input;
mod timing;
mod turns;

use anyhow::Result;
use std::alloc::Global;
use std::env;
use std::rt::Runtime;
use std::sync::Wait;
use std::thread::Threads;

// Times what a mode names.
fn time<R: Runtime + Threads + Wait + Sync>(rt: &R, alloc: Global, mode: &str) -> Result<()> {
    match mode {
        "rows" => rows::time(rt, alloc),
        "samples" => samples::time(rt, alloc),
        "bitmaps" => bitmaps::time(rt, alloc),
        "turns" => turns::time(rt, alloc),
        "list" => list::time(rt, alloc),
        "memory" => memory::time(rt, alloc),
        "pool" => pool::time(rt, alloc),
        "disk" => disk::time(rt, alloc),
        _ => {
            println!(rt; "no such mode: {mode}")?;
            Ok(())
        }
    }
}

fn main(rt: HostRuntime) -> Result<()> {
    for word in env::args(&rt)?.skip(1) {
        time(&rt, rt.alloc(), &word)?;
    }
    Ok(())
}
