// The changes of files in memory.
ghost use Rattle.std.specs.Prelude.{◌≡◌, ◌≤◌, ◌++◌, ◌∷◌, [], OnOk, OnErr, IfOk, option_to_list};
ghost use Rattle.outside.specs.MemoryFiles.{IsStop, next_length, cut_change, stopped};

use crate::names::Name;
use std::alloc::{AllocError, Global};
use std::marker::Model;

/// The bytes of a file. Contracts see the list of them.
#[derive(Drop)]
pub struct FileBytes {
    bytes: Vec<u8>,
}

impl Model for FileBytes {
    ghost use Rattle.std.specs.Prelude.{ℕ, List};

    ghost Value = { List ℕ };

    ghost view = { λ f. f.bytes.items };
}

impl FileBytes {
    pub fn new(bytes: Vec<u8>) -> FileBytes
        ensures { result ≡ bytes.items }
    {
        FileBytes { bytes }
    }

    pub fn as_slice(&self) -> &[u8]
        ensures { result.now ≡ self.now }
    {
        &self.bytes
    }

    pub fn to_copy(&self, alloc: Global) -> Result<FileBytes, AllocError>
        ensures { IfOk result (λ copy. copy ≡ self.now) }
    {
        Ok(FileBytes {
            bytes: self.bytes.as_slice().to_vec(alloc)?,
        })
    }

    /// Adds bytes at the end.
    pub fn extend(&mut self, bytes: &[u8]) -> Result<(), AllocError>
        ensures ok { OnOk result (self.new ≡ self.old ++ bytes.now) }
        ensures err { OnErr result (self.new ≡ self.old) }
    {
        self.bytes.extend_from_slice(bytes)
    }
}

/// A change of files in memory.
#[derive(Drop)]
pub enum Change {
    /// An empty file of the name was made.
    Made(Name),
    /// Bytes were added to the file of the name.
    Appended(Name, FileBytes),
    /// The file of the first name got the second one.
    Renamed(Name, Name),
    /// The file of the name was taken away.
    Deleted(Name),
    /// A file with these bytes was put there, at once.
    Placed(Name, FileBytes),
}

impl Change {
    /// The change once more.
    pub fn to_copy(&self, alloc: Global) -> Result<Change, AllocError>
        ensures { IfOk result (λ copy. copy ≡ self.now) }
    {
        Ok(match self {
            Change::Made(name) => Change::Made(*name),
            Change::Appended(name, bytes) => Change::Appended(*name, bytes.to_copy(alloc)?),
            Change::Renamed(from, to) => Change::Renamed(*from, *to),
            Change::Deleted(name) => Change::Deleted(*name),
            Change::Placed(name, bytes) => Change::Placed(*name, bytes.to_copy(alloc)?),
        })
    }
}

// The changes once more.
fn copies(alloc: Global, changes: &[Change]) -> Result<Vec<Change>, AllocError>
    ensures { IfOk result (λ copies. copies.items ≡ changes.now) }
{
    let mut copies = Vec::new(alloc);
    for change in changes {
        copies.push(change.to_copy(alloc)?)?;
    }
    Ok(copies)
}

// The first of the changes with only some bytes of what it appends, or none where it does not append.
fn cut_change(alloc: Global, changes: &[Change], cut: usize) -> Result<Option<Change>, AllocError>
    requires { cut ≤ next_length changes.now }
    ensures { IfOk result (λ part. option_to_list part ≡ cut_change cut changes.now) }
{
    match changes {
        [Change::Appended(name, bytes), ..] => {
            let part = bytes.as_slice()[..cut].to_vec(alloc)?;
            Ok(Some(Change::Appended(*name, FileBytes::new(part))))
        }
        _ => Ok(None),
    }
}

/// The first `count` changes, and after them the first `cut` bytes of what the next one appends.
pub fn stopped(
    alloc: Global,
    changes: &[Change],
    count: usize,
    cut: usize,
) -> Result<Vec<Change>, AllocError>
    requires { IsStop count cut changes.now }
    ensures { IfOk result (λ made. made.items ≡ stopped count cut changes.now) }
{
    let (whole, rest) = changes.split_at(count);
    let mut made = copies(alloc, whole)?;
    if let Some(part) = cut_change(alloc, rest, cut)? {
        made.push(part)?;
    }
    Ok(made)
}
