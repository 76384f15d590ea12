// Lines as they are worked by hand, and how a sink that stops leaves them.
use crate::{
    PixelsLine, PlainState, ShownPicture, write_bad_line, write_pixels_line, write_plain_line,
    write_shown_line,
};
use bitmap_kind::{Bitmap, Config};
use bmp_read::BmpFault;
use image_format::Refusal;
use load_cause::Cause;
use outside::{MemorySink, WriteFault};
use ppm_read::PpmFault;
use std::alloc::{AllocError, Global};
use std::process::Abort;
use std::test::Fail;

// A sink that takes a line at once, and whose second call fails: what is written to it is one write.
fn one_write(alloc: Global) -> Result<MemorySink, AllocError> {
    let mut failing = Vec::new(alloc);
    failing.push(1)?;
    Ok(MemorySink::new(100_000, failing))
}

fn check_plain(rt: &impl Abort, alloc: Global, state: PlainState, line: &[u8]) -> Result<(), Fail> {
    let mut out = one_write(alloc)?;
    assert!(rt; write_plain_line(alloc, &mut out, b"a", state).is_ok());
    assert_eq!(rt; out.written(), line);
    Ok(())
}

fn check_refused(
    rt: &impl Abort,
    alloc: Global,
    refusal: Refusal,
    line: &[u8],
) -> Result<(), Fail> {
    check_plain(rt, alloc, PlainState::Failed(Cause::Refused(refusal)), line)
}

#[test]
fn states(rt: HostRuntime) -> Result<(), Fail> {
    let alloc = rt.alloc();
    check_plain(&rt, alloc, PlainState::Waiting, b"a waiting\n")?;
    check_plain(&rt, alloc, PlainState::Paused, b"a paused\n")?;
    check_plain(&rt, alloc, PlainState::Cleared, b"a cleared\n")?;
    check_plain(
        &rt,
        alloc,
        PlainState::Failed(Cause::Missing),
        b"a failed missing\n",
    )?;
    check_plain(
        &rt,
        alloc,
        PlainState::Failed(Cause::Source),
        b"a failed source\n",
    )?;
    check_plain(
        &rt,
        alloc,
        PlainState::Failed(Cause::Memory),
        b"a failed memory\n",
    )?;
    check_plain(
        &rt,
        alloc,
        PlainState::Failed(Cause::Uncached),
        b"a failed uncached\n",
    )?;
    Ok(())
}

#[test]
fn refusals(rt: HostRuntime) -> Result<(), Fail> {
    let alloc = rt.alloc();
    check_refused(&rt, alloc, Refusal::Unknown, b"a failed refused unknown\n")?;
    check_refused(
        &rt,
        alloc,
        Refusal::TooLarge,
        b"a failed refused too-large\n",
    )?;
    let short = Refusal::Ppm(PpmFault::Truncated);
    check_refused(&rt, alloc, short, b"a failed refused truncated\n")?;
    let packed = Refusal::Bmp(BmpFault::Compressed(4));
    check_refused(&rt, alloc, packed, b"a failed refused compressed 4\n")?;
    Ok(())
}

// A red pixel and a blue one.
fn red(alloc: Global) -> Result<Bitmap, Fail> {
    let Ok(mut bitmap) = Bitmap::make(alloc, 0, 2, 1, Config::Argb8888) else {
        return Err(Fail::new("no memory"));
    };
    bitmap.put_bytes(&[255, 0, 0, 255, 0, 0, 255, 255]);
    Ok(bitmap)
}

#[test]
fn pictures(rt: HostRuntime) -> Result<(), Fail> {
    let alloc = rt.alloc();
    let bitmap = red(alloc)?;
    let mut out = one_write(alloc)?;
    assert!(rt; write_pixels_line(alloc, &mut out, b"a", &bitmap).is_ok());
    assert_eq!(rt; out.written(), b"a pixels ff0000ff0000ffff\n".as_slice());
    let mut out = one_write(alloc)?;
    let shown = ShownPicture::of(&bitmap);
    assert!(rt; write_shown_line(alloc, &mut out, b"a", &shown).is_ok());
    assert_eq!(rt;
        out.written(),
        b"a shown 2 1 argb e0b8f3a91e53b2aee7be9493043f0d54efa0b1d7bfa018ea8f192295a7229836\n".as_slice()
    );
    Ok(())
}

#[test]
fn bad_lines(rt: HostRuntime) -> Result<(), Fail> {
    let alloc = rt.alloc();
    let mut out = one_write(alloc)?;
    assert!(rt; write_bad_line(alloc, &mut out, 12).is_ok());
    assert_eq!(rt; out.written(), b"glide: bad script line 12\n".as_slice());
    Ok(())
}

// A sink whose second write fails keeps what the first one took.
#[test]
fn a_sink_that_stops(rt: HostRuntime) -> Result<(), Fail> {
    let alloc = rt.alloc();
    let mut failing = Vec::new(alloc);
    failing.push(1)?;
    let mut out = MemorySink::new(5, failing);
    let mut line = PixelsLine::begin(alloc, b"a")?;
    assert!(rt; line.piece(&mut out, &[1, 2]).is_ok());
    assert_eq!(rt; out.written(), b"".as_slice());
    assert_eq!(rt; line.end(&mut out), Err(WriteFault::Failed));
    assert_eq!(rt; out.written(), b"a pix".as_slice());
    Ok(())
}
