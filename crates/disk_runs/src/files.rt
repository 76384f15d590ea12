// Files in memory, and caches on them.
use cache_folder::begun_edits_are_empty;
use disk_lru::DiskLru;
use journal_lines::Key;
use outside::{Files, MemoryFiles, Name};
use std::alloc::Global;
use std::test::Fail;

pub fn name(bytes: &[u8]) -> Result<Name, Fail> {
    match Name::read(bytes) {
        Some(name) => Ok(name),
        None => Err(Fail::new("no name")),
    }
}

pub fn key(bytes: &[u8]) -> Result<Key, Fail> {
    match Key::read(bytes) {
        Some(key) => Ok(key),
        None => Err(Fail::new("no key")),
    }
}

// The bytes of a file that has fewer than 256.
pub fn text_of(alloc: Global, files: &mut MemoryFiles, file: &[u8]) -> Result<Vec<u8>, Fail> {
    let mut buffer = [0u8; 256];
    match files.read_at(alloc, &name(file)?, 0, &mut buffer)? {
        Some(count) if count < 256 => Ok(buffer[..count].to_vec(alloc)?),
        _ => Err(Fail::new("no such file, or a long one")),
    }
}

pub fn started(
    alloc: Global,
    files: MemoryFiles,
    maximum: u64,
) -> Result<DiskLru<MemoryFiles>, Fail> {
    match DiskLru::start(alloc, files, maximum) {
        Ok(disk) => Ok(disk),
        Err(_) => Err(Fail::new("not started")),
    }
}

// An edit of the key with fewer than 100 bytes, which is committed or given up. True where each call succeeded.
pub fn edit(
    alloc: Global,
    disk: &mut DiskLru<MemoryFiles>,
    key: &Key,
    bytes: &[u8],
    is_kept: bool,
) -> bool {
    begun_edits_are_empty();
    if bytes.len() >= 100 {
        return false;
    }
    let Ok(mut edit) = disk.begin(alloc, key) else {
        return false;
    };
    let is_written = disk.write(alloc, &mut edit, bytes).is_ok();
    if is_written && is_kept {
        return disk.commit(alloc, edit).is_ok();
    }
    disk.abort(alloc, edit).is_ok() && is_written
}
