// Whole runs of lines that move views. The bytes, statuses and fetches are worked by hand from docs/SCRIPT.md.
use crate::test_runs::{LINE, NONE, RED, Wanted, check, check_script, source_of};
use std::test::Fail;

const PAUSED: &[u8] = b"a paused\na pixels ff0000ff0000ffff\n";

const TWICE: &[u8] = b"a pixels ff0000ff0000ffff\na pixels ff0000ff0000ffff\n";

#[test]
fn pauses(rt: HostRuntime) -> Result<(), Fail> {
    let alloc = rt.alloc();
    let running = b"load a red 1 2 1 none argb\npause\nshow\nresume\ndump a\n";
    check_script(&rt, alloc, running, PAUSED, 0, 1)?;
    // A complete view is paused by `pauseall` alone, and is there again when it is resumed.
    let all = b"load a red 1 2 1 none argb\nwait\npauseall\nshow\nresume\ndump a\n";
    check_script(&rt, alloc, all, PAUSED, 0, 1)?;
    let kept = b"load a red 1 2 1 none argb\nwait\npause\ndump a\nresume\ndump a\n";
    check_script(&rt, alloc, kept, TWICE, 0, 1)?;
    let loaded = b"pause\nload a red 1 2 1 none argb\nshow\nresume\ndump a\n";
    check_script(&rt, alloc, loaded, PAUSED, 0, 1)
}

#[test]
fn sizes_of_layouts(rt: HostRuntime) -> Result<(), Fail> {
    let alloc = rt.alloc();
    check_script(
        &rt,
        alloc,
        b"load a red 1 - - none argb\nshow\nlayout a 2 1\ndump a\n",
        b"a waiting\na pixels ff0000ff0000ffff\n",
        0,
        1,
    )?;
    // A layout of a complete view keeps the size alone.
    let later = b"load a red 1 2 1 none argb\ndump a\nlayout a 1 1\ndump a\n";
    check_script(&rt, alloc, later, TWICE, 0, 1)?;
    // One that runs was asked for in its first size.
    check_script(
        &rt,
        alloc,
        b"load a square 1 - - none argb\nlayout a 2 2\nlayout a 1 1\ndump a\n",
        b"a pixels 010203ff040506ff070809ff0a0b0cff\n",
        0,
        1,
    )?;
    // The size survives a clear and a new load.
    let anew =
        b"load a red 1 - - none argb\nlayout a 2 1\nclear a\nload a red 1 - - none argb\ndump a\n";
    check_script(&rt, alloc, anew, LINE, 0, 1)
}

#[test]
fn cleared_and_failed_views(rt: HostRuntime) -> Result<(), Fail> {
    let alloc = rt.alloc();
    check_script(
        &rt,
        alloc,
        b"load a red 1 2 1 none argb\ndump a\nclearall\nshow\n",
        b"a pixels ff0000ff0000ffff\na cleared\n",
        0,
        1,
    )?;
    let unseen = b"load a red 1 2 1 none argb\nclear a\ndump a\n";
    check_script(&rt, alloc, unseen, b"a cleared\n", 0, 0)?;
    // A failed view that no line prints is no failure of the run.
    let waited = b"load a red 1 2 1 none argb\nwait\n";
    check(
        &rt,
        alloc,
        waited,
        source_of(alloc, RED, 0)?,
        Wanted(b"", 0, 1),
    )?;
    // A failed view begins again at a resume.
    check(
        &rt,
        alloc,
        b"load a red 1 2 1 none argb\ndump a\nresume\ndump a\n",
        source_of(alloc, RED, 0)?,
        Wanted(b"a failed source\na pixels ff0000ff0000ffff\n", 1, 2),
    )
}

#[test]
fn lines_that_are_not_built(rt: HostRuntime) -> Result<(), Fail> {
    let alloc = rt.alloc();
    let first = b"glide: bad script line 1\n";
    check_script(&rt, alloc, b"clear z\n", first, 3, 0)?;
    check_script(&rt, alloc, b"layout z 1 1\n", first, 3, 0)?;
    check_script(
        &rt,
        alloc,
        b"load a red 1 2 1 none argb data\n",
        first,
        3,
        0,
    )?;
    check_script(
        &rt,
        alloc,
        b"load a red 1 2 1 none argb cached\n",
        first,
        3,
        0,
    )?;
    let plain = b"load a red 1 2 1 none argb auto normal atleast\ndump a\n";
    check_script(&rt, alloc, plain, LINE, 0, 1)?;
    let further = b"load a red 1 2 1 none argb skip immediate\ndump a\n";
    check_script(&rt, alloc, further, LINE, 0, 1)?;
    // What is held stays, whatever a trim clears.
    let trimmed = b"load a red 1 2 1 none argb\nwait\ntrim 40\ndump a\n";
    check_script(&rt, alloc, trimmed, LINE, 0, 1)?;
    let level = b"load a red 1 2 1 none argb\ntrim 1001\n";
    let second = b"glide: bad script line 2\n";
    check_script(&rt, alloc, level, second, 3, 0)
}

// The 4,096th view is the last: one more is a bad line, and nothing is fetched for it.
#[test]
fn views_at_the_limit(rt: HostRuntime) -> Result<(), Fail> {
    let alloc = rt.alloc();
    let mut script = Vec::new(alloc);
    for number in 0..4_096u32 {
        let line = format!(in alloc; "load v{number} no 1 1 1 none argb\n")?;
        script.extend_from_slice(line.as_bytes())?;
    }
    script.extend_from_slice(
        b"clearall\nload v0 red 1 2 1 none argb\nload w no 1 1 1 none argb\n",
    )?;
    let source = source_of(alloc, RED, NONE)?;
    check(
        &rt,
        alloc,
        &script,
        source,
        Wanted(b"glide: bad script line 4099\n", 3, 0),
    )
}
