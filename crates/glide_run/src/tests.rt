// Whole runs over objects in memory. The bytes and statuses are worked by hand from the rules of
// docs/SCRIPT.md.
use crate::test_runs::{LINE, NONE, RED, SCRIPT, Wanted, check, check_script, source_of};
use crate::top::glide_alone;
use outside::{MemoryInput, MemorySink, Source};
use std::alloc::Global;
use std::process::Abort;
use std::test::Fail;

#[test]
fn words_of_a_load(rt: HostRuntime) -> Result<(), Fail> {
    let alloc = rt.alloc();
    check_script(
        &rt,
        alloc,
        b"load a red 1 2 1 fill argb\n",
        b"glide: bad script line 1\n",
        3,
        0,
    )?;
    check_script(
        &rt,
        alloc,
        b"load a red 1 2 1 none rgb\n",
        b"glide: bad script line 1\n",
        3,
        0,
    )?;
    check_script(
        &rt,
        alloc,
        b"load a red 1 2 1 argb none\n",
        b"glide: bad script line 1\n",
        3,
        0,
    )?;
    check_script(
        &rt,
        alloc,
        b"load a red 1 2 1 none argb lower\n",
        b"glide: bad script line 1\n",
        3,
        0,
    )?;
    check_script(
        &rt,
        alloc,
        b"load a red 1 2 1 none argb atmost atmost\n",
        b"glide: bad script line 1\n",
        3,
        0,
    )?;
    check_script(
        &rt,
        alloc,
        b"load a red 1 2 1 none\n",
        b"glide: bad script line 1\n",
        3,
        0,
    )?;
    Ok(())
}

#[test]
fn bad_lines(rt: HostRuntime) -> Result<(), Fail> {
    let alloc = rt.alloc();
    check_script(&rt, alloc, b"", b"", 0, 0)?;
    check_script(
        &rt,
        alloc,
        b"  # a comment \xff\n\n   \nload  a red 1 2 1 none argb  \r\n dump a\r",
        LINE,
        0,
        1,
    )?;
    check_script(
        &rt,
        alloc,
        b"load a red 1 2 1 none argb\ndumb a\n",
        b"glide: bad script line 2\n",
        3,
        0,
    )?;
    check_script(
        &rt,
        alloc,
        b"load a red 1 2 1 none argb\ndump z\n",
        b"glide: bad script line 2\n",
        3,
        0,
    )?;
    check_script(
        &rt,
        alloc,
        b"load a red 1 02 1 none argb\n",
        b"glide: bad script line 1\n",
        3,
        0,
    )?;
    check_script(
        &rt,
        alloc,
        b"load a red 1 16385 1 none argb\n",
        b"glide: bad script line 1\n",
        3,
        0,
    )?;
    // What was printed before a bad line stands.
    check_script(
        &rt,
        alloc,
        b"load a red 1 2 1 none argb\ndump a\ndump b\ndump a\n",
        b"a pixels ff0000ff0000ffff\nglide: bad script line 3\n",
        3,
        1,
    )?;
    Ok(())
}

#[test]
fn views(rt: HostRuntime) -> Result<(), Fail> {
    let alloc = rt.alloc();
    // A failed fetch fails its own view alone.
    let two = b"load a red 1 2 1 none argb\nload b green 1 1 1 none argb\ndump a\ndump b\n";
    check(
        &rt,
        alloc,
        two,
        source_of(alloc, RED, 0)?,
        Wanted(b"a failed source\nb pixels 00ff00ff\n", 1, 2),
    )?;
    // A view keeps its picture, and is fetched once.
    let twice = b"load a red 1 2 1 none argb\ndump a\ndump a\n";
    check(
        &rt,
        alloc,
        twice,
        source_of(alloc, RED, 1)?,
        Wanted(
            b"a pixels ff0000ff0000ffff\na pixels ff0000ff0000ffff\n",
            0,
            1,
        ),
    )?;
    // A new load shows the new picture.
    let anew = b"load a red 1 2 1 none argb\ndump a\nload a green 1 1 1 none argb\ndump a\n";
    check_script(
        &rt,
        alloc,
        anew,
        b"a pixels ff0000ff0000ffff\na pixels 00ff00ff\n",
        0,
        2,
    )?;
    Ok(())
}

#[test]
fn shown_views(rt: HostRuntime) -> Result<(), Fail> {
    let alloc = rt.alloc();
    check_script(&rt, alloc, b"show\n", b"", 0, 0)?;
    check_script(&rt, alloc, b"# nothing is loaded\n show \r", b"", 0, 0)?;
    check_script(
        &rt,
        alloc,
        b"load a square 1 2 2 none argb\nshow\n",
        b"a shown 2 2 argb 60095e8c93bdb6d7cd09508d4410ce5b24f669de72bbd064f26bd67152fd5be1\n",
        0,
        1,
    )?;
    // Views stand in order of first load, though they are loaded anew in the other order.
    check_script(
        &rt,
        alloc,
        b"load b red 1 2 1 none argb\nload a gone 1 1 1 none argb\nload a gone 1 1 1 none argb\nload b red 1 2 1 none argb\nshow\n",
        b"b shown 2 1 argb e0b8f3a91e53b2aee7be9493043f0d54efa0b1d7bfa018ea8f192295a7229836\na failed missing\n",
        1,
        2,
    )?;
    // Each view is fetched once, and shown as it is then.
    check_script(
        &rt,
        alloc,
        b"load a red 1 2 1 none argb\nshow\ndump a\nload a green 1 1 1 none argb\nshow\n",
        b"a shown 2 1 argb e0b8f3a91e53b2aee7be9493043f0d54efa0b1d7bfa018ea8f192295a7229836\na pixels ff0000ff0000ffff\na shown 1 1 argb 7a7bf454c5f3cb1b9d9a20f81417f98d976fe3b3dd52c1b9968f02e89e7e8a2f\n",
        0,
        2,
    )?;
    check_script(
        &rt,
        alloc,
        b"load a red 1 2 1 none argb\nshow a\n",
        b"glide: bad script line 2\n",
        3,
        0,
    )?;
    check_script(&rt, alloc, b"shown\n", b"glide: bad script line 1\n", 3, 0)?;
    Ok(())
}

#[test]
fn refused_words(rt: HostRuntime) -> Result<(), Fail> {
    let alloc = rt.alloc();
    let mut input = MemoryInput::new(SCRIPT.to_vec(alloc)?, Vec::new(alloc));
    let mut out = MemorySink::new(7, Vec::new(alloc));
    let mut source = source_of(alloc, RED, NONE)?;
    let words = ["--workers", "9"];
    let ending = glide_alone(alloc, &words, &mut input, &mut out, &mut source, ());
    assert_eq!(&rt; out.written(), b"glide: bad usage\n".as_slice());
    assert_eq!(&rt; ending.status, 2);
    Ok(())
}

// A run whose read of this number fails.
fn check_input(rt: &impl Abort, alloc: Global, fails: u64, written: &[u8]) -> Result<(), Fail> {
    let mut failing = Vec::new(alloc);
    failing.push(fails)?;
    let mut input = MemoryInput::new(SCRIPT.to_vec(alloc)?, failing);
    let mut out = MemorySink::new(7, Vec::new(alloc));
    let mut source = source_of(alloc, RED, NONE)?;
    let ending = glide_alone(alloc, &[], &mut input, &mut out, &mut source, ());
    assert_eq!(rt; out.written(), written);
    assert_eq!(rt; ending.status, 5);
    Ok(())
}

// The first read has the script, and the second its end: the lines before it are obeyed.
#[test]
fn failing_input(rt: HostRuntime) -> Result<(), Fail> {
    check_input(&rt, rt.alloc(), 0, b"")?;
    check_input(&rt, rt.alloc(), 1, LINE)?;
    Ok(())
}

// A sink that takes a byte a call, and whose call of this number fails.
fn check_sink(
    rt: &impl Abort,
    alloc: Global,
    script: &[u8],
    fails: u64,
    written: &[u8],
    status: u8,
) -> Result<(), Fail> {
    let mut failing = Vec::new(alloc);
    failing.push(fails)?;
    let mut input = MemoryInput::new(script.to_vec(alloc)?, Vec::new(alloc));
    let mut out = MemorySink::new(1, failing);
    let mut source = source_of(alloc, RED, NONE)?;
    let ending = glide_alone(alloc, &[], &mut input, &mut out, &mut source, ());
    assert_eq!(rt; out.written(), written);
    assert_eq!(rt; ending.status, status);
    Ok(())
}

// Each call of the sink fails in turn, a write a byte and then the flush: what was written before stands,
// and no status but 6 comes.
fn check_each_failure(
    rt: &impl Abort,
    alloc: Global,
    script: &[u8],
    whole: &[u8],
    status: u8,
) -> Result<(), Fail> {
    for at in 0..whole.len() {
        check_sink(rt, alloc, script, at as u64, &whole[..at], 6)?;
    }
    check_sink(rt, alloc, script, whole.len() as u64, whole, 6)?;
    check_sink(rt, alloc, script, u64::MAX, whole, status)
}

#[test]
fn failing_output(rt: HostRuntime) -> Result<(), Fail> {
    check_each_failure(&rt, rt.alloc(), SCRIPT, LINE, 0)?;
    check_each_failure(
        &rt,
        rt.alloc(),
        b"load a red 1 2 1 none argb\nload b no 1 1 1 none argb\nshow\n",
        b"a shown 2 1 argb e0b8f3a91e53b2aee7be9493043f0d54efa0b1d7bfa018ea8f192295a7229836\nb failed missing\n",
        1,
    )?;
    check_each_failure(
        &rt,
        rt.alloc(),
        b"load a red 1 2 1 none argb\ndump a\ndumb a\n",
        b"a pixels ff0000ff0000ffff\nglide: bad script line 3\n",
        3,
    )?;
    Ok(())
}

// A script longer than what a read takes, and a picture whose digits fill more than one piece.
#[test]
fn a_long_script_and_a_large_picture(rt: HostRuntime) -> Result<(), Fail> {
    let alloc = rt.alloc();
    let mut text = b"P6\n200 200\n255\n".to_vec(alloc)?;
    text.resize(120_015, 7)?;
    let mut script = Vec::new(alloc);
    for _ in 0..900 {
        script.extend_from_slice(b"# comment\n")?;
    }
    script.extend_from_slice(b"load a red 1 200 200 none argb\ndump a\n")?;
    let mut line = b"a pixels ".to_vec(alloc)?;
    for _ in 0..40_000 {
        line.extend_from_slice(b"070707ff")?;
    }
    line.push(b'\n')?;
    let source = source_of(alloc, &text, NONE)?;
    check(&rt, alloc, &script, source, Wanted(&line, 0, 1))
}
