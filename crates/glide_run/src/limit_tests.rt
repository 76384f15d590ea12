// Whole runs at each limit of a script, and one past it. What comes is worked by hand from docs/SCRIPT.md.
use crate::test_runs::{LINE, NONE, RED, Wanted, check, source_of};
use std::alloc::{AllocError, Global};
use std::process::Abort;
use std::test::Fail;

// The line that refuses a first line.
const REFUSED: &[u8] = b"glide: bad script line 1\n";

// Adds a byte so many times.
fn fill(bytes: &mut Vec<u8>, byte: u8, count: usize) -> Result<(), AllocError> {
    for _ in 0..count {
        bytes.push(byte)?;
    }
    Ok(())
}

// Adds a word of so many letters, and a space before it.
fn word(script: &mut Vec<u8>, letters: usize) -> Result<(), AllocError> {
    script.push(b' ')?;
    fill(script, b'n', letters)
}

// Loads a picture that the source lacks, by names of these lengths, and waits for it.
fn check_names(
    rt: &impl Abort,
    alloc: Global,
    view: usize,
    url: usize,
    sig: usize,
    wanted: Wanted<'_>,
) -> Result<(), Fail> {
    let mut script = Vec::new(alloc);
    script.extend_from_slice(b"load")?;
    word(&mut script, view)?;
    word(&mut script, url)?;
    word(&mut script, sig)?;
    script.extend_from_slice(b" 1 1 none argb\nwait\n")?;
    check(rt, alloc, &script, source_of(alloc, RED, NONE)?, wanted)
}

// Loads `red` by a line of so many bytes, with spaces at its end, and dumps it.
fn check_line(
    rt: &impl Abort,
    alloc: Global,
    spaces: usize,
    end: &[u8],
    wanted: Wanted<'_>,
) -> Result<(), Fail> {
    let mut script = Vec::new(alloc);
    script.extend_from_slice(b"load a red 1 2 1 none argb")?;
    fill(&mut script, b' ', spaces)?;
    script.extend_from_slice(end)?;
    script.extend_from_slice(b"dump a\n")?;
    check(rt, alloc, &script, source_of(alloc, RED, NONE)?, wanted)
}

// A view's name has at most 32 bytes, a url 1,024 and a signature 64.
#[test]
fn names_at_the_limits(rt: HostRuntime) -> Result<(), Fail> {
    let alloc = rt.alloc();
    check_names(&rt, alloc, 32, 1_024, 64, Wanted(b"", 0, 1))?;
    check_names(&rt, alloc, 33, 1_024, 64, Wanted(REFUSED, 3, 0))?;
    check_names(&rt, alloc, 32, 1_025, 64, Wanted(REFUSED, 3, 0))?;
    check_names(&rt, alloc, 32, 1_024, 65, Wanted(REFUSED, 3, 0))
}

// A line has at most 2,048 bytes without its ending: 26 of these are the words.
#[test]
fn lines_at_the_limit(rt: HostRuntime) -> Result<(), Fail> {
    let alloc = rt.alloc();
    check_line(&rt, alloc, 2_022, b"\n", Wanted(LINE, 0, 1))?;
    check_line(&rt, alloc, 2_022, b"\r\n", Wanted(LINE, 0, 1))?;
    check_line(&rt, alloc, 2_023, b"\n", Wanted(REFUSED, 3, 0))?;
    // A side has at most 16,384 pixels.
    let sides = b"load a red 1 16384 16384 none argb\ndump a\n";
    let source = source_of(alloc, RED, NONE)?;
    check(&rt, alloc, sides, source, Wanted(LINE, 0, 1))?;
    let high = b"load a red 1 16384 16385 none argb\ndump a\n";
    let source = source_of(alloc, RED, NONE)?;
    check(&rt, alloc, high, source, Wanted(REFUSED, 3, 0))
}

// A script has at most 1,048,576 bytes, here as 512 comments of 2,048 with their line feeds. The line of the next byte is bad.
#[test]
fn scripts_at_the_limit(rt: HostRuntime) -> Result<(), Fail> {
    let alloc = rt.alloc();
    let mut comment = Vec::new(alloc);
    fill(&mut comment, b'#', 2_047)?;
    comment.push(b'\n')?;
    let mut script = Vec::new(alloc);
    for _ in 0..512u32 {
        script.extend_from_slice(&comment)?;
    }
    let source = source_of(alloc, RED, NONE)?;
    check(&rt, alloc, &script, source, Wanted(b"", 0, 0))?;
    script.push(b'#')?;
    let source = source_of(alloc, RED, NONE)?;
    let past = Wanted(b"glide: bad script line 513\n", 3, 0);
    check(&rt, alloc, &script, source, past)
}
