// The calls of a disk cache over a folder of the system, which stands among the temporary files and is taken away at the end.
use crate::disk::{journal, key_text, time_calls};
use anyhow::{Context, Result};
use folder_files::FolderFiles;
use std::alloc::Global;
use std::rt::Runtime;
use std::{env, fs};

// The folder's path: `speed_disk_cache` in the folder of temporary files.
fn folder_path(rt: &impl Runtime, alloc: Global) -> Result<String> {
    let temporary = env::temp_dir(rt)?;
    let temporary = temporary.to_str().context("a name that is no text")?;
    Ok(format!(in alloc; "{temporary}/speed_disk_cache")?)
}

// Takes the folder away, where it is there.
fn remove(rt: &impl Runtime, folder: &str) -> Result<()> {
    if fs::exists(rt, folder)? {
        fs::remove_dir_all(rt, folder)?;
    }
    Ok(())
}

// Writes a file of the folder.
fn put(rt: &impl Runtime, alloc: Global, folder: &str, name: &str, bytes: &[u8]) -> Result<()> {
    let path = format!(in alloc; "{folder}/{name}")?;
    fs::write(rt, path.as_str(), bytes)?;
    Ok(())
}

// Makes the folder anew, with the files of a cache of so many keys and their journal.
fn make(rt: &impl Runtime, alloc: Global, folder: &str, keys: u32) -> Result<()> {
    remove(rt, folder)?;
    fs::create_dir_all(rt, folder)?;
    let text = journal(alloc, keys, 0)?;
    put(rt, alloc, folder, "journal", text.as_bytes())?;
    for number in 0..keys {
        let key = key_text(alloc, number)?;
        put(rt, alloc, folder, &format!(in alloc; "{key}.0")?, b"abc")?;
    }
    Ok(())
}

// Times the calls with so many keys.
fn time_keys(rt: &impl Runtime, alloc: Global, folder: &str, keys: u32) -> Result<()> {
    make(rt, alloc, folder, keys)?;
    let files = FolderFiles::new(rt, folder);
    time_calls(rt, alloc, files, keys, "a folder")
}

// Times the calls with each of these numbers of keys.
fn time_all(rt: &impl Runtime, alloc: Global, folder: &str, all_keys: [u32; 2]) -> Result<()> {
    for keys in all_keys {
        time_keys(rt, alloc, folder, keys)?;
    }
    Ok(())
}

/// Times the calls with each of these numbers of keys. The folder is taken away before and after, however that ends.
pub fn time(rt: &impl Runtime, alloc: Global, all_keys: [u32; 2]) -> Result<()> {
    let folder = folder_path(rt, alloc)?;
    let timed = time_all(rt, alloc, &folder, all_keys);
    remove(rt, &folder)?;
    timed
}
