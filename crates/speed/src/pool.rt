// Loads of one size, with the pool of bitmaps and without one.
use crate::pictures::{picture, samples};
use crate::runs::{least_run, text};
use anyhow::Result;
use outside::MemorySource;
use std::alloc::Global;
use std::rt::Runtime;

const LOADS: u32 = 1000;

const TIMES: u32 = 5;

const SIZE: (u16, u16) = (540, 405);

// A source of a picture at `p`.
fn source(alloc: Global) -> Result<MemorySource> {
    let samples = samples(alloc)?;
    let mut content = Vec::new(alloc);
    content.push(picture(alloc, "p", SIZE, &samples, 0)?)?;
    Ok(MemorySource::new(content, Vec::new(alloc)))
}

// Loads and clears a view again and again.
fn script(alloc: Global) -> Result<String> {
    let mut script = String::new(alloc);
    for _ in 0..LOADS {
        script.push_str("load v p 1 540 405 none argb\nwait\nclear v\n")?;
    }
    Ok(script)
}

// Prints how long the loads take with a pool of at most so many bytes, and the totals of the run. The memory cache is off, so
// each load decodes.
fn time_pool(rt: &impl Runtime, alloc: Global, bytes: &str) -> Result<()> {
    let script = script(alloc)?;
    let mut source = source(alloc)?;
    let words = ["--memory", "0", "--pool", bytes, "--stats"];
    let (micros, printed) = least_run(rt, alloc, TIMES, &words, &script, &mut source)?;
    let totals = text(&printed)?;
    print!(rt;
        "{LOADS} loads with a pool of {bytes} bytes: {micros} microseconds, {LOADS}\n{totals}"
    )?;
    Ok(())
}

/// Times the loads without a pool, and with that which the program has.
pub fn time(rt: &impl Runtime, alloc: Global) -> Result<()> {
    time_pool(rt, alloc, "0")?;
    time_pool(rt, alloc, "67108864")
}
