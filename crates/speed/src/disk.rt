// A disk cache: its start over files in memory, and its calls with few keys and with many.
use crate::folder;
use anyhow::{Context, Result, bail};
use disk_lru::DiskLru;
use journal_lines::Key;
use outside::{Files, MemoryFiles, Name};
use std::alloc::Global;
use std::fmt::Write;
use std::rt::Runtime;
use std::time::Instant;

const TIMES: u32 = 10;

// How many keys a cache keeps at most.
const MOST: u32 = 16_384;

// So many calls make no rebuild of the journal due, where each of them adds two lines.
const CALLS: u32 = 900;

// The most bytes of all entries.
const ROOM: u64 = 1_000_000;

/// The key of a number: 64 digits in hex, as many as SHA-256 has, of which the first 16 are as good as random.
pub fn key_text(alloc: Global, number: u32) -> Result<String> {
    let first = u64::from(number).wrapping_mul(0x9e37_79b9_7f4a_7c15);
    Ok(format!(in alloc; "{first:016x}{number:048x}")?)
}

/// The journal of so many keys, each with 3 bytes, and behind it so many lines of reads.
pub fn journal(alloc: Global, keys: u32, reads: u32) -> Result<String> {
    let mut text = String::from_str(alloc, "libcore.io.DiskLruCache\n1\n1\n1\n\n")?;
    for number in 0..keys {
        let key = key_text(alloc, number)?;
        writeln!(text, "CLEAN {key} 3")?;
    }
    for number in 0..reads {
        let key = key_text(alloc, number.wrapping_mul(7) % MOST)?;
        writeln!(text, "READ {key}")?;
    }
    Ok(text)
}

// Puts a file there.
fn put(alloc: Global, files: &mut MemoryFiles, name: &str, bytes: &[u8]) -> Result<()> {
    let name = Name::read(name.as_bytes()).context("no name of a file")?;
    files.put(alloc, &name, bytes).ok().context("no memory")
}

// The files of a cache of so many keys, with their journal.
fn files(alloc: Global, keys: u32, text: &str) -> Result<MemoryFiles> {
    let mut files = MemoryFiles::new(Vec::new(alloc));
    put(alloc, &mut files, "journal", text.as_bytes())?;
    for number in 0..keys {
        let key = key_text(alloc, number)?;
        put(alloc, &mut files, &format!(in alloc; "{key}.0")?, b"abc")?;
    }
    Ok(files)
}

// A cache that was started on these files.
fn started<F: Files + Drop>(alloc: Global, files: F) -> Result<DiskLru<F>> {
    DiskLru::start(alloc, files, ROOM)
        .ok()
        .context("the start was refused")
}

// The key of a number.
fn key(alloc: Global, number: u32) -> Result<Key> {
    let text = key_text(alloc, number)?;
    Key::read(text.as_bytes()).context("no key")
}

// How many of these keys the cache has.
fn count(alloc: Global, disk: &DiskLru<MemoryFiles>, keys: u32) -> Result<u32> {
    let mut count = 0u32;
    for number in 0..keys {
        count = count.wrapping_add(u32::from(disk.has(&key(alloc, number)?)));
    }
    Ok(count)
}

// Prints how long a start takes, and how many keys the cache has then.
fn time_start(rt: &impl Runtime, alloc: Global) -> Result<()> {
    let text = journal(alloc, MOST, MOST)?;
    let (mut least, mut known) = (u128::MAX, 0);
    for _ in 0..TIMES {
        let files = files(alloc, MOST, &text)?;
        let start = Instant::now(rt)?;
        let disk = started(alloc, files)?;
        least = least.min(start.elapsed(rt)?.as_micros());
        known = count(alloc, &disk, MOST)?;
    }
    println!(rt; "start: {least} microseconds, {known}")?;
    Ok(())
}

// Reads the entries of these keys.
fn get_all<F: Files>(alloc: Global, disk: &mut DiskLru<F>, keys: &[Key]) -> Result<()> {
    for key in keys {
        let Ok(Some(_)) = disk.get(alloc, key) else {
            bail!("an entry was not read");
        };
    }
    Ok(())
}

// Begins an edit of a key, and commits it.
fn edit<F: Files>(alloc: Global, disk: &mut DiskLru<F>, key: &Key) -> Result<()> {
    let Ok(edit) = disk.begin(alloc, key) else {
        bail!("an edit was not begun");
    };
    disk.commit(alloc, edit)
        .ok()
        .context("an edit was not committed")
}

// Begins an edit of each of these keys, and commits it.
fn edit_all<F: Files>(alloc: Global, disk: &mut DiskLru<F>, keys: &[Key]) -> Result<()> {
    for key in keys {
        edit(alloc, disk, key)?;
    }
    Ok(())
}

// So many keys, spread over all that a cache has.
fn called_keys(alloc: Global, keys: u32) -> Result<Vec<Key>> {
    let mut called = Vec::new(alloc);
    for number in 0..CALLS {
        called.push(key(alloc, number.wrapping_mul(7919) % keys.max(1))?)?;
    }
    Ok(called)
}

// The microseconds that the reads of these keys take in a cache that is started on the files, which come back.
fn micros_of_gets<F: Files + Drop>(
    rt: &impl Runtime,
    alloc: Global,
    files: F,
    called: &[Key],
) -> Result<(u128, F)> {
    let mut disk = started(alloc, files)?;
    let start = Instant::now(rt)?;
    get_all(alloc, &mut disk, called)?;
    Ok((start.elapsed(rt)?.as_micros(), disk.into_files()))
}

// The microseconds that edits of these keys take in a cache that is started on the files, which come back.
fn micros_of_edits<F: Files + Drop>(
    rt: &impl Runtime,
    alloc: Global,
    files: F,
    called: &[Key],
) -> Result<(u128, F)> {
    let mut disk = started(alloc, files)?;
    let start = Instant::now(rt)?;
    edit_all(alloc, &mut disk, called)?;
    Ok((start.elapsed(rt)?.as_micros(), disk.into_files()))
}

/// Prints how long the calls take in caches of so many keys, which are started on the files one after the other. The place
/// says in words where the files lie. Reads come before the edits, which leave entries of no bytes.
pub fn time_calls<F: Files + Drop>(
    rt: &impl Runtime,
    alloc: Global,
    files: F,
    keys: u32,
    place: &str,
) -> Result<()> {
    let called = called_keys(alloc, keys)?;
    let (mut gets, mut files) = micros_of_gets(rt, alloc, files, &called)?;
    for _ in 1..TIMES {
        let (micros, back) = micros_of_gets(rt, alloc, files, &called)?;
        gets = gets.min(micros);
        files = back;
    }
    let (mut edits, mut files) = micros_of_edits(rt, alloc, files, &called)?;
    for _ in 1..TIMES {
        let (micros, back) = micros_of_edits(rt, alloc, files, &called)?;
        edits = edits.min(micros);
        files = back;
    }
    println!(rt; "{CALLS} gets among {keys} keys in {place}: {gets} microseconds, {CALLS}")?;
    println!(rt; "{CALLS} edits among {keys} keys in {place}: {edits} microseconds, {CALLS}")?;
    Ok(())
}

// Times the calls over files in memory.
fn time_memory(rt: &impl Runtime, alloc: Global, keys: u32) -> Result<()> {
    let text = journal(alloc, keys, 0)?;
    let files = files(alloc, keys, &text)?;
    time_calls(rt, alloc, files, keys, "memory")
}

/// Times a start, and calls with 100 keys and with 16,384, over files in memory and over a folder of the system.
pub fn time(rt: &impl Runtime, alloc: Global) -> Result<()> {
    time_start(rt, alloc)?;
    time_memory(rt, alloc, 100)?;
    time_memory(rt, alloc, MOST)?;
    folder::time(rt, alloc, [100, MOST])
}
