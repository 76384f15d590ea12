// Files in memory as a map, and each change of it.
ghost use Rattle.std.specs.Prelude.{◌≡◌, ◌≢◌, None, OnOk, OnErr, IfOk, IsSome};
ghost use Rattle.std.specs.Option.{option_map};
ghost use Rattle.std.specs.Ordering.{nat_cmp};
ghost use Rattle.std.specs.Cmp.Lexicographic.{slice_cmp};
ghost use Rattle.std.specs.BTreeMap.{keys, IsOrdered};
ghost use Rattle.std.specs.FinMap.{get, insert, remove};
ghost use Rattle.outside.specs.Files.{appended, renamed};
ghost use Rattle.outside.specs.MemoryFiles.{contents_of};
ghost use Rattle.outside.specs.Stored.{folder_of, LeavesLast};

use crate::changes::{Change, FileBytes};
use crate::names::Name;
use std::alloc::{AllocError, Global};
use std::collections::BTreeMap;

/// Files in memory: the bytes of each name.
pub type StoredFiles = BTreeMap<Name, FileBytes>;

/// The bytes of the file of the name.
pub fn bytes_at<'a>(files: &'a StoredFiles, name: &Name) -> Option<&'a [u8]>
    ensures { option_map (λ bytes. bytes.now) result ≡ get (folder_of files.now.entries) name.now }
{
    let file = files.get(name)?;
    Some(file.as_slice())
}

/// The names of the files, in order.
pub fn names_of(alloc: Global, files: &StoredFiles) -> Result<Vec<Name>, AllocError>
    ensures names { IfOk result (λ names. names.items ≡ keys files.now) }
    ensures ordered { IsOrdered (slice_cmp nat_cmp) files.now }
{
    files.keys().copied().collect(alloc)
}

// Puts a file in the place of one of its name.
fn put(files: &mut StoredFiles, name: &Name, bytes: FileBytes) -> Result<(), AllocError>
    ensures ok { OnOk result
        (folder_of files.new.entries ≡ insert (folder_of files.old.entries) name.now bytes) }
    ensures err { OnErr result (files.new.entries ≡ files.old.entries) }
    ensures absent { OnErr result (get (folder_of files.old.entries) name.now ≡ None) }
{
    files.insert(*name, bytes)?;
    Ok(())
}

// Adds bytes to the file of the name, where there is one.
fn extend(files: &mut StoredFiles, name: &Name, bytes: &[u8]) -> Result<(), AllocError>
    ensures ok { OnOk result (LeavesLast files.old.entries files.new.entries (appended name.now bytes.now)) }
    ensures err { OnErr result (files.new.entries ≡ files.old.entries) }
{
    let Some(file) = files.get_mut(name) else {
        return Ok(());
    };
    file.extend(bytes)
}

// Takes the file of the name away, where there is one.
fn forget(files: &mut StoredFiles, name: &Name) -> Option<FileBytes>
    ensures found { result ≡ get (folder_of files.old.entries) name.now }
    ensures folder { folder_of files.new.entries ≡ remove (folder_of files.old.entries) name.now }
{
    files.remove(name)
}

// Gives the file of the first name the second one, where both names have a file.
fn move_file(files: &mut StoredFiles, from: &Name, to: &Name)
    requires apart { to.now ≢ from.now }
    requires to_held { IsSome (get (folder_of files.old.entries) to.now) }
    ensures { LeavesLast files.old.entries files.new.entries (renamed from.now to.now) }
{
    if let Some(bytes) = forget(files, from) {
        let _ = put(files, to, bytes);
    }
}

// Gives the file of the first name the second one, where there is such a file. Room for the second name is
// made first, since nothing may fail once the first has lost its file.
fn rename(alloc: Global, files: &mut StoredFiles, from: &Name, to: &Name) -> Result<(), AllocError>
    ensures ok { OnOk result (LeavesLast files.old.entries files.new.entries (renamed from.now to.now)) }
    ensures err { OnErr result (files.new.entries ≡ files.old.entries) }
{
    if from == to {
        return Ok(());
    }
    if bytes_at(files, from).is_none() {
        return Ok(());
    }
    put(files, to, FileBytes::new(Vec::new(alloc)))?;
    move_file(files, from, to);
    Ok(())
}

/// Makes a change. Where it wants memory the files stay as they are.
pub fn make_change(
    alloc: Global,
    files: &mut StoredFiles,
    change: &Change,
) -> Result<(), AllocError>
    ensures ok { OnOk result (LeavesLast files.old.entries files.new.entries (contents_of change.now)) }
    ensures err { OnErr result (files.new.entries ≡ files.old.entries) }
{
    match change {
        Change::Made(name) => put(files, name, FileBytes::new(Vec::new(alloc))),
        Change::Appended(name, bytes) => extend(files, name, bytes.as_slice()),
        Change::Renamed(from, to) => rename(alloc, files, from, to),
        Change::Deleted(name) => {
            forget(files, name);
            Ok(())
        }
        Change::Placed(name, bytes) => {
            let copy = bytes.as_slice().to_vec(alloc)?;
            put(files, name, FileBytes::new(copy))
        }
    }
}
