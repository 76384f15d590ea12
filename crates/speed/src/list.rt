// Forty pictures in a list, loaded twelve views at a time, and shown.
use crate::pictures::{picture, samples};
use crate::runs::{least_run, text};
use crate::timing::print;
use anyhow::Result;
use outside::{Content, MemorySource};
use std::alloc::Global;
use std::fmt::Write;
use std::rt::Runtime;

const PICTURES: u16 = 40;

const VIEWS: u16 = 12;

const TIMES: u32 = 5;

// Where the raster of a picture begins: so many samples behind that of the picture before.
const STEP: usize = 1000;

// One picture of 4000 by 3000, and the others of 1200 by 900.
fn pictures(alloc: Global) -> Result<Vec<Content>> {
    let samples = samples(alloc)?;
    let mut pictures = Vec::new(alloc);
    for number in 0..PICTURES {
        let url = format!(in alloc; "p{number}")?;
        let size = if number == 0 {
            (4000, 3000)
        } else {
            (1200, 900)
        };
        let first = STEP * usize::from(number);
        pictures.push(picture(alloc, &url, size, &samples, first)?)?;
    }
    Ok(pictures)
}

// Twelve views are cleared, loaded and shown, and the next twelve pictures come into the same views.
fn script(alloc: Global) -> Result<String> {
    let mut script = String::new(alloc);
    for number in 0..PICTURES {
        let view = number % VIEWS;
        if view == 0 {
            script.push_str("show\nclearall\n")?;
        }
        writeln!(script, "load v{view} p{number} 1 540 405 crop rgb565")?;
    }
    script.push_str("show\n")?;
    Ok(script)
}

/// Times the list, and prints what its views show.
pub fn time(rt: &impl Runtime, alloc: Global) -> Result<()> {
    let script = script(alloc)?;
    let mut source = MemorySource::new(pictures(alloc)?, Vec::new(alloc));
    let (micros, printed) = least_run(rt, alloc, TIMES, &[], &script, &mut source)?;
    print(rt, "forty pictures", micros, printed.written())?;
    let lines = text(&printed)?;
    print!(rt; "{lines}")?;
    Ok(())
}
