// Loads that the memory cache answers, each with the clear of its view, beside few views and beside many.
use crate::pictures::picture;
use crate::runs::{run, text};
use crate::timed_input::TimedInput;
use anyhow::{Context, Result};
use outside::{MemorySink, MemorySource};
use std::alloc::Global;
use std::fmt::Write;
use std::rt::Runtime;

// How many views there are beside, and whether each of them has a picture of its own or all have the same.
#[derive(Clone, Copy)]
struct Views {
    count: u32,
    own: bool,
}

// A source of one pixel at `p`.
fn pixel(alloc: Global) -> Result<MemorySource> {
    let mut content = Vec::new(alloc);
    content.push(picture(alloc, "p", (1, 1), b"\x01\x02\x03", 0)?)?;
    Ok(MemorySource::new(content, Vec::new(alloc)))
}

// Loads the views, and one more whose picture is in the memory cache then. Pictures are told apart by the width that is wanted.
fn views_script(alloc: Global, views: Views) -> Result<String> {
    let mut script = String::new(alloc);
    for view in 1..views.count {
        let width = if views.own { view + 1 } else { 2 };
        writeln!(script, "load v{view} p 1 {width} 1 none argb")?;
    }
    script.push_str("load v p 1 1 1 none argb\nwait\nclear v\n")?;
    Ok(script)
}

// Loads the picture that is in the memory cache so many times.
fn loads_script(alloc: Global, loads: u32) -> Result<String> {
    let mut script = String::new(alloc);
    for _ in 0..loads {
        script.push_str("load v p 1 1 1 none argb\nclear v\n")?;
    }
    Ok(script)
}

// The microseconds of so many loads beside these views, and what the run prints.
fn micros(rt: &impl Runtime, alloc: Global, views: Views, loads: u32) -> Result<(u64, MemorySink)> {
    let before = views_script(alloc, views)?;
    let during = loads_script(alloc, loads)?;
    let mut script = TimedInput::new(rt, before.as_bytes(), during.as_bytes());
    let printed = run(alloc, &["--stats"], &mut script, &mut pixel(alloc)?)?;
    let micros = script.micros().context("the clock was not read")?;
    Ok((micros, printed))
}

// Prints how long a thousand loads take, by a run of so many, and the totals of the run.
fn time_views(rt: &impl Runtime, alloc: Global, views: Views, loads: u32) -> Result<()> {
    let (micros, printed) = micros(rt, alloc, views, loads)?;
    let thousand = micros.saturating_mul(1000) / u64::from(loads.max(1));
    let totals = text(&printed)?;
    let Views { count, own } = views;
    let kind = if own { "a picture each" } else { "one picture" };
    println!(rt; "1000 loads beside {count} views of {kind}: {thousand} microseconds, 1000")?;
    print!(rt; "{totals}")?;
    Ok(())
}

/// Times the loads beside 100 views, and beside 4,096.
pub fn time(rt: &impl Runtime, alloc: Global) -> Result<()> {
    for own in [false, true] {
        time_views(rt, alloc, Views { count: 100, own }, 10_000)?;
        time_views(
            rt,
            alloc,
            Views { count: 4096, own },
            if own { 10 } else { 10_000 },
        )?;
    }
    Ok(())
}
