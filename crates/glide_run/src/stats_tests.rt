// Whole runs with words, in tables: their lines of totals are worked by hand from docs/ENGINE.md.
use crate::test_runs::{LINE, NONE, RED, Wanted, check_words, source_of, text_at};
use outside::{Content, MemorySource};
use std::alloc::{AllocError, Global};
use std::process::Abort;
use std::test::Fail;

// One load of a picture that is as large as the memory cache, and of one that is smaller.
const AS_LARGE: &[u8] =
    b"stats loads 1 active 0 memory 0 joined 0 started 1 takes 1 reused 0 made 1 \
decoding 0 held 0 cached 0 pooled 1 recycled 0 fetches 1\n";

const SMALLER: &[u8] =
    b"stats loads 1 active 0 memory 0 joined 0 started 1 takes 1 reused 0 made 1 \
decoding 0 held 0 cached 1 pooled 0 recycled 0 fetches 1\n";

// Two views of one picture.
const JOINED: &[u8] = b"a pixels ff0000ff0000ffff\nb pixels ff0000ff0000ffff\n\
stats loads 2 active 0 memory 0 joined 1 started 1 takes 1 reused 0 made 1 \
decoding 0 held 0 cached 1 pooled 0 recycled 0 fetches 1\n";

// A job that is cancelled, and a load that passes memory over.
const SKIPS: &[u8] = b"stats loads 3 active 0 memory 0 joined 0 started 3 takes 2 reused 0 made 2 \
decoding 0 held 0 cached 1 pooled 1 recycled 0 fetches 2\n";

// Eight pictures one after the other, with no memory cache, in one bitmap.
const REUSED: &[u8] = b"stats loads 8 active 0 memory 0 joined 0 started 8 takes 8 reused 7 made 1 \
decoding 0 held 0 cached 0 pooled 1 recycled 0 fetches 8\n";

// A picture that is sampled and then made to fit, and one that is sampled alone.
const TWO_TAKES: &[u8] =
    b"stats loads 1 active 0 memory 0 joined 0 started 1 takes 2 reused 0 made 2 \
decoding 0 held 0 cached 1 pooled 1 recycled 0 fetches 1\n";

// A load that memory answers, and one that another view answers.
const REMEMBERED: &[u8] =
    b"stats loads 3 active 1 memory 1 joined 0 started 1 takes 1 reused 0 made 1 \
decoding 0 held 0 cached 1 pooled 0 recycled 0 fetches 1\n";

// A source that has a black picture of these sides at `p`.
fn black(alloc: Global, width: u32, height: u32) -> Result<MemorySource, AllocError> {
    let head = format!(in alloc; "P6 {width} {height} 255 ")?;
    let mut text = head.into_bytes();
    for _ in 0..height {
        for _ in 0..width {
            text.extend_from_slice(b"\0\0\0")?;
        }
    }
    let mut content = Vec::new(alloc);
    content.push(text_at(alloc, b"p", &text)?)?;
    Ok(MemorySource::new(content, Vec::new(alloc)))
}

#[test]
fn loads_and_memory(rt: HostRuntime) -> Result<(), Fail> {
    let alloc = rt.alloc();
    let words = ["--memory", "400", "--stats"];
    check_words(
        &rt,
        alloc,
        &words,
        b"load a p 1 10 10 none argb\nwait\nclear a\n",
        black(alloc, 10, 10)?,
        Wanted(AS_LARGE, 0, 1),
    )?;
    check_words(
        &rt,
        alloc,
        &words,
        b"load a p 1 11 9 none argb\nwait\nclear a\n",
        black(alloc, 11, 9)?,
        Wanted(SMALLER, 0, 1),
    )?;
    check_words(
        &rt,
        alloc,
        &["--stats"],
        b"load a p 1 1 1 none argb\nwait\nclear a\nload a p 1 1 1 none argb\nload b p 1 1 1 none argb\n",
        black(alloc, 1, 1)?,
        Wanted(REMEMBERED, 0, 1),
    )
}

#[test]
fn joined_and_skipping_loads(rt: HostRuntime) -> Result<(), Fail> {
    let alloc = rt.alloc();
    check_words(
        &rt,
        alloc,
        &["--stats"],
        b"load a red 1 2 1 none argb\nload b red 1 2 1 none argb\ndump a\ndump b\n",
        source_of(alloc, RED, NONE)?,
        Wanted(JOINED, 0, 1),
    )?;
    check_words(
        &rt,
        alloc,
        &["--stats"],
        b"load a red 1 2 1 none argb\nclear a\nload a red 1 2 1 none argb\nwait\nload b red 1 2 1 none argb skip\nwait\n",
        source_of(alloc, RED, NONE)?,
        Wanted(SKIPS, 0, 2),
    )
}

// Each of eight pictures of one size at `p1` to `p8`.
fn eight(alloc: Global) -> Result<MemorySource, AllocError> {
    let mut content: Vec<Content> = Vec::new(alloc);
    for number in 1..9u32 {
        let url = format!(in alloc; "p{number}")?;
        content.push(text_at(alloc, url.as_bytes(), RED)?)?;
    }
    Ok(MemorySource::new(content, Vec::new(alloc)))
}

#[test]
fn bitmaps_are_used_again(rt: HostRuntime) -> Result<(), Fail> {
    let alloc = rt.alloc();
    let mut script = Vec::new(alloc);
    for number in 1..9u32 {
        let lines = format!(in alloc;
            "load v{number} p{number} 1 2 1 none argb\nwait\nclear v{number}\n"
        )?;
        script.extend_from_slice(lines.as_bytes())?;
    }
    check_words(
        &rt,
        alloc,
        &["--memory", "0", "--stats"],
        &script,
        eight(alloc)?,
        Wanted(REUSED, 0, 8),
    )
}

#[test]
fn rules_of_sampling(rt: HostRuntime) -> Result<(), Fail> {
    let alloc = rt.alloc();
    check_words(
        &rt,
        alloc,
        &["--stats"],
        b"load a p 1 100 100 fit argb atleast\nwait\n",
        black(alloc, 400, 300)?,
        Wanted(TWO_TAKES, 0, 1),
    )?;
    check_words(
        &rt,
        alloc,
        &["--stats"],
        b"load a p 1 100 100 fit argb atmost\nwait\n",
        black(alloc, 400, 300)?,
        Wanted(SMALLER, 0, 1),
    )
}

// A bad line stands in place of the totals.
#[test]
fn totals_of_a_bad_script(rt: HostRuntime) -> Result<(), Fail> {
    let alloc = rt.alloc();
    check_words(
        &rt,
        alloc,
        &["--stats"],
        b"load a red 1 2 1 none argb\ndump a\nshow a\n",
        source_of(alloc, RED, NONE)?,
        Wanted(
            b"a pixels ff0000ff0000ffff\nglide: bad script line 3\n",
            3,
            1,
        ),
    )
}

fn check_refused(rt: &impl Abort, alloc: Global, words: &[&str]) -> Result<(), Fail> {
    let script = b"load a red 1 2 1 none argb\ndump a\n";
    let usage = Wanted(b"glide: bad usage\n", 2, 0);
    check_words(
        rt,
        alloc,
        words,
        script,
        source_of(alloc, RED, NONE)?,
        usage,
    )
}

#[test]
fn words_of_the_program(rt: HostRuntime) -> Result<(), Fail> {
    let alloc = rt.alloc();
    let script = b"load a red 1 2 1 none argb\ndump a\n";
    check_words(
        &rt,
        alloc,
        &["--memory", "4294967296", "--pool", "0"],
        script,
        source_of(alloc, RED, NONE)?,
        Wanted(LINE, 0, 1),
    )?;
    check_refused(&rt, alloc, &["--memory", "4294967297"])?;
    check_refused(&rt, alloc, &["--memory", "99999999999999999999"])?;
    check_refused(&rt, alloc, &["--memory", "00"])?;
    check_refused(&rt, alloc, &["--memory", "+1"])?;
    check_refused(&rt, alloc, &["--memory"])?;
    check_refused(&rt, alloc, &["--memory", "1", "--memory", "1"])?;
    check_refused(&rt, alloc, &["--stats", "--stats"])?;
    check_refused(&rt, alloc, &[""])
}
