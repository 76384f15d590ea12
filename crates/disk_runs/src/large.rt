// Many entries, and many lines.
use crate::files::{key, name, started};
use outside::{Files, MemoryFiles};
use std::alloc::Global;
use std::test::Fail;

fn digit(number: u64) -> u8 {
    b'0' + (number % 10) as u8
}

// The name `kDDDDD.0` of a numbered key's file.
fn value_name(number: u64) -> [u8; 8] {
    [
        b'k',
        digit(number / 10_000),
        digit(number / 1_000),
        digit(number / 100),
        digit(number / 10),
        digit(number),
        b'.',
        b'0',
    ]
}

// The line of a numbered key, whose file has one byte.
fn add_line(text: &mut Vec<u8>, number: u64) -> Result<(), Fail> {
    text.extend_from_slice(b"CLEAN ")?;
    text.extend_from_slice(&value_name(number)[..6])?;
    text.extend_from_slice(b" 1\n")?;
    Ok(())
}

// How many files a start leaves of so many entries and their journal, and whether the first and the last are offered.
fn left_of(alloc: Global, count: u64, maximum: u64) -> Result<(usize, bool, bool), Fail> {
    let mut files = MemoryFiles::new(Vec::new(alloc));
    let mut text = Vec::new(alloc);
    text.extend_from_slice(b"libcore.io.DiskLruCache\n1\n1\n1\n\n")?;
    for number in 0..count {
        add_line(&mut text, number)?;
        files.put(alloc, &name(&value_name(number))?, b"x")?;
    }
    files.put(alloc, &name(b"journal")?, &text)?;
    let disk = started(alloc, files, maximum)?;
    let first = disk.has(&key(b"k00000")?);
    let last = disk.has(&key(&value_name(count.saturating_sub(1))[..6])?);
    let mut files = disk.into_files();
    Ok((files.names(alloc)?.len(), first, last))
}

// The eldest go where there is too much: of ten entries the first five, and of 16,385 the first.
#[test]
fn many_entries(rt: HostRuntime) -> Result<(), Fail> {
    let alloc = rt.alloc();
    assert_eq!(rt; left_of(alloc, 10, 5)?, (6, false, true));
    assert_eq!(rt; left_of(alloc, 10_000, 10_000)?, (10_001, true, true));
    assert_eq!(rt; left_of(alloc, 16_384, 1_000_000)?, (16_385, true, true));
    assert_eq!(rt; left_of(alloc, 16_385, 1_000_000)?, (16_385, false, true));
    Ok(())
}

// A journal of 16,400 keys is read, and one of 16,401 is bad.
#[test]
fn many_keys(rt: HostRuntime) -> Result<(), Fail> {
    let alloc = rt.alloc();
    assert_eq!(rt; left_of(alloc, 16_400, 1_000_000)?, (16_385, false, true));
    assert_eq!(rt; left_of(alloc, 16_401, 1_000_000)?, (1, false, false));
    Ok(())
}

// The length of the journal after so many uses of its one entry.
fn length_after(alloc: Global, uses: u64) -> Result<Option<u64>, Fail> {
    let mut files = MemoryFiles::new(Vec::new(alloc));
    let journal = b"libcore.io.DiskLruCache\n1\n1\n1\n\nCLEAN k 1\n";
    files.put(alloc, &name(b"journal")?, journal)?;
    files.put(alloc, &name(b"k.0")?, b"x")?;
    let mut disk = started(alloc, files, 100)?;
    let k = key(b"k")?;
    for _ in 0..uses {
        let _ = disk.get(alloc, &k)?;
    }
    let mut files = disk.into_files();
    Ok(files.length(alloc, &name(b"journal")?)?)
}

// At 2,000 redundant lines the journal is rebuilt in the same call.
#[test]
fn a_rebuild_is_done_when_it_is_due(rt: HostRuntime) -> Result<(), Fail> {
    let alloc = rt.alloc();
    assert_eq!(rt; length_after(alloc, 1_999)?, Some(31 + 10 + 1_999 * 7));
    assert_eq!(rt; length_after(alloc, 2_000)?, Some(31 + 10));
    Ok(())
}
