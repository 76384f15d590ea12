// Runs over objects in memory, for the tests.
use crate::top::glide_alone;
use outside::{Content, MemoryInput, MemorySink, MemorySource, Source};
use std::alloc::{AllocError, Global};
use std::process::Abort;
use std::test::Fail;

// A red pixel and a blue one.
pub(crate) const RED: &[u8] = b"P6\n2 1\n255\n\xff\x00\x00\x00\x00\xff";

// A green pixel.
const GREEN: &[u8] = b"P6\n1 1\n255\n\x00\xff\x00";

// Two by two pixels, which a size of one by one samples.
const SQUARE: &[u8] = b"P6\n2 2\n255\n\x01\x02\x03\x04\x05\x06\x07\x08\x09\x0a\x0b\x0c";

pub(crate) const SCRIPT: &[u8] = b"load a red 1 2 1 none argb\ndump a\n";

pub(crate) const LINE: &[u8] = b"a pixels ff0000ff0000ffff\n";

// No call of the source fails.
pub(crate) const NONE: u64 = 1000;

pub(crate) fn text_at(alloc: Global, url: &[u8], bytes: &[u8]) -> Result<Content, AllocError> {
    Ok(Content {
        url: url.to_vec(alloc)?,
        sig: b"1".to_vec(alloc)?,
        bytes: bytes.to_vec(alloc)?,
    })
}

// A source with the text of `red`, and `green` and `square`.
pub(crate) fn source_of(alloc: Global, red: &[u8], fails: u64) -> Result<MemorySource, AllocError> {
    let mut content = Vec::new(alloc);
    content.push(text_at(alloc, b"red", red)?)?;
    content.push(text_at(alloc, b"green", GREEN)?)?;
    content.push(text_at(alloc, b"square", SQUARE)?)?;
    let mut failing = Vec::new(alloc);
    failing.push(fails)?;
    Ok(MemorySource::new(content, failing))
}

// What has to come of a run: what is written, the status and the number of fetches.
#[derive(Drop)]
pub(crate) struct Wanted<'a>(pub &'a [u8], pub u8, pub u64);

// Runs a script with these words.
pub(crate) fn check_words(
    rt: &impl Abort,
    alloc: Global,
    words: &[&str],
    script: &[u8],
    mut source: MemorySource,
    wanted: Wanted<'_>,
) -> Result<(), Fail> {
    let mut input = MemoryInput::new(script.to_vec(alloc)?, Vec::new(alloc));
    let mut out = MemorySink::new(7, Vec::new(alloc));
    let ending = glide_alone(alloc, words, &mut input, &mut out, &mut source, 5u8);
    assert_eq!(rt; out.written(), wanted.0);
    assert_eq!(rt; ending.status, wanted.1);
    assert_eq!(rt; ending.files, 5);
    assert_eq!(rt; ending.engine.is_some(), wanted.1 != 2);
    assert_eq!(rt; source.fetches(), wanted.2);
    Ok(())
}

pub(crate) fn check(
    rt: &impl Abort,
    alloc: Global,
    script: &[u8],
    source: MemorySource,
    wanted: Wanted<'_>,
) -> Result<(), Fail> {
    check_words(rt, alloc, &[], script, source, wanted)
}

// Runs the first script over this text of `red`.
pub(crate) fn check_red(
    rt: &impl Abort,
    alloc: Global,
    red: &[u8],
    written: &[u8],
    status: u8,
) -> Result<(), Fail> {
    check(
        rt,
        alloc,
        SCRIPT,
        source_of(alloc, red, NONE)?,
        Wanted(written, status, 1),
    )
}

// Runs this script over the picture of `red`.
pub(crate) fn check_script(
    rt: &impl Abort,
    alloc: Global,
    script: &[u8],
    written: &[u8],
    status: u8,
    fetches: u64,
) -> Result<(), Fail> {
    check(
        rt,
        alloc,
        script,
        source_of(alloc, RED, NONE)?,
        Wanted(written, status, fetches),
    )
}

// Loads this text under a line of `load` for `red`, and dumps the view.
pub(crate) fn check_picture(
    rt: &impl Abort,
    alloc: Global,
    text: &[u8],
    script: &[u8],
    written: &[u8],
    status: u8,
) -> Result<(), Fail> {
    check(
        rt,
        alloc,
        script,
        source_of(alloc, text, NONE)?,
        Wanted(written, status, 1),
    )
}
