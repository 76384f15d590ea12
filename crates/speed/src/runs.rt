// Scripts that are run on an engine, over pictures in memory.
use anyhow::{Context, Result, ensure};
use glide_run::glide_alone;
use outside::{Input, MemoryInput, MemorySink, MemorySource};
use std::alloc::Global;
use std::rt::Runtime;
use std::time::Instant;

// The most bytes that the sink takes at once.
const PIECE: usize = 65_536;

/// Runs the script on an engine of its own, with these words, and answers what it prints. It has to end with the status 0.
pub fn run<I: Input>(
    alloc: Global,
    words: &[&str],
    script: &mut I,
    source: &mut MemorySource,
) -> Result<MemorySink> {
    let mut out = MemorySink::new(PIECE, Vec::new(alloc));
    let ending = glide_alone(alloc, words, script, &mut out, source, ());
    let status = ending.status;
    ensure!(status == 0, "the run ended with status {status}");
    Ok(out)
}

// The microseconds that a run of the script takes, and what it prints.
fn timed_run(
    rt: &impl Runtime,
    alloc: Global,
    words: &[&str],
    script: &str,
    source: &mut MemorySource,
) -> Result<(u128, MemorySink)> {
    let mut input = MemoryInput::new(script.as_bytes().to_vec(alloc)?, Vec::new(alloc));
    let start = Instant::now(rt)?;
    let out = run(alloc, words, &mut input, source)?;
    Ok((start.elapsed(rt)?.as_micros(), out))
}

/// The least microseconds of so many runs of the script, and what the last one prints.
pub fn least_run(
    rt: &impl Runtime,
    alloc: Global,
    times: u32,
    words: &[&str],
    script: &str,
    source: &mut MemorySource,
) -> Result<(u128, MemorySink)> {
    let (mut least, mut printed) = timed_run(rt, alloc, words, script, source)?;
    for _ in 1..times {
        let (micros, out) = timed_run(rt, alloc, words, script, source)?;
        least = least.min(micros);
        printed = out;
    }
    Ok((least, printed))
}

/// What a run printed.
pub fn text(out: &MemorySink) -> Result<&str> {
    str::from_utf8(out.written())
        .ok()
        .context("no text was printed")
}
