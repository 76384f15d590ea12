// The files of a folder of the system. What it holds is not known to contracts.
ghost use Rattle.std.specs.Prelude.{◌≡◌, ℕ, ◌<◌, ◌≤◌, length, false, true, None, Ok, Err, IfOk, IfSome, IsSomeAnd, is_some};
ghost use Rattle.std.specs.FinMap.{get};
ghost use Rattle.std.specs.List.{list_all};
ghost use Rattle.std.specs.Option.{option_map};
ghost use Rattle.std.specs.Path.{path_buf_bytes, path_join};
ghost use Rattle.outside.specs.Causes.{HasCause};
ghost use Rattle.outside.specs.Files.{WhereKnown, IsListing, ReadsFile};
ghost use Rattle.folder_files.specs.FolderFiles.{fresh_files, after_files_call, is_file_byte, names_file};

use outside::{FileFault, Files, Name, is_part_name};
use std::alloc::{AllocError, Global};
use std::fs::{self, DirEntry, OpenOptions};
use std::io::{self, ErrorKind, Read, Seek, SeekFrom, Write};
use std::marker::Model;
use std::path::{Path, PathBuf};

// How often a read is tried that the system interrupts.
const MOST_TRIES: usize = 100;

/// The files of a folder of the system. What it holds is not known to contracts.
///
/// Its files are the regular files whose names are a `Name`. Whatever else stands in the folder is left alone
/// and not listed: folders, links, devices, longer names and names with other bytes than ASCII. A call on the
/// name of such a thing is `Failed`. A name that no file can have, since it has a `/` or a byte 0 or is `.` or
/// `..`, is one that is not held, and to make, append to or rename to it is `Failed`. So is an append to a
/// file that is not there, and every error of the system. `Memory` is want of memory for a path or for the
/// names.
///
/// The folder is made, with those above it, at the first call that goes to it. An append that a stop of the
/// process cuts leaves a prefix of its bytes. Nothing is promised of a loss of power, nor of a folder that
/// another process changes at the same time.
#[derive(Drop)]
pub struct FolderFiles<'a, R> {
    rt: &'a R,
    folder: &'a str,
    is_made: bool,
    faults: u64,
}

impl<'a, R> Model for FolderFiles<'a, R> {
    ghost use Rattle.folder_files.specs.FolderFiles.{FilesState};

    ghost Value = { FilesState };

    ghost view = { λ s. record { folder = s.folder.now; faults = s.faults } };
}

// An error of the system, whichever it is.
fn failed(_error: io::Error) -> FileFault
    ensures { result ≡ FileFault.Failed }
{
    FileFault::Failed
}

// An error in a listing, which takes memory for each name.
fn listing_fault(error: &io::Error) -> FileFault {
    match error.kind() {
        ErrorKind::OutOfMemory => FileFault::Memory,
        _ => FileFault::Failed,
    }
}

fn is_file_byte(byte: u8) -> bool
    ensures { result ≡ is_file_byte byte }
{
    !matches!(byte, 0 | b'/')
}

// Whether each byte is one of a file's name.
fn has_file_bytes(name: &[u8]) -> bool
    ensures { result ≡ list_all is_file_byte name.now }
{
    name.iter().all(|byte| is_file_byte(*byte))
}

// Whether a file of a folder can have the name.
fn names_file(name: &[u8]) -> bool
    ensures { result ≡ names_file name.now }
{
    has_file_bytes(name) && is_part_name(name)
}

// The path of the file of this name in the folder, or none where no file can have the name.
fn path_in(alloc: Global, folder: &str, name: &Name) -> Result<Option<PathBuf>, AllocError>
    ensures no_file { names_file name.now ≡ false → result ≡ Ok None }
    ensures path { names_file name.now ≡ true → IfOk result (λ found.
        IsSomeAnd found (λ path. path_buf_bytes path ≡ path_join folder.now name.now)) }
{
    if !names_file(name.bytes()) {
        return Ok(None);
    }
    match std::str::from_utf8(name.bytes()) {
        Ok(text) => Ok(Some(Path::new(folder).join(alloc, text)?)),
        Err(_) => Ok(None),
    }
}

// The length of the regular file of this path, or none where nothing stands there. A link is not followed.
fn length_at<R: fs::Files>(rt: &R, path: Path<'_>) -> Result<Option<u64>, FileFault> {
    match fs::symlink_metadata(rt, path) {
        Ok(metadata) if metadata.is_file() => Ok(Some(metadata.len())),
        Err(e) if e.kind() == ErrorKind::NotFound => Ok(None),
        _ => Err(FileFault::Failed),
    }
}

// Whether there is a regular file of this path.
fn has_file<R: fs::Files>(rt: &R, path: Path<'_>) -> Result<bool, FileFault> {
    Ok(length_at(rt, path)?.is_some())
}

// The name of an entry of the folder, if it is one of ours.
fn name_of<R: fs::Files>(
    entry: io::Result<DirEntry<(&R, Global), Global>>,
) -> Result<Option<Name>, FileFault> {
    let entry = match entry {
        Ok(entry) => entry,
        Err(e) if e.kind() == ErrorKind::InvalidFilename => return Ok(None),
        Err(e) => return Err(listing_fault(&e)),
    };
    let Some(name) = Name::read(entry.file_name().as_bytes()) else {
        return Ok(None);
    };
    match entry.metadata() {
        Ok(metadata) if metadata.is_file() => Ok(Some(name)),
        Ok(_) => Ok(None),
        Err(e) if e.kind() == ErrorKind::NotFound => Ok(None),
        Err(_) => Err(FileFault::Failed),
    }
}

// The names of all regular files of the folder that are a `Name`.
fn names_in<R: fs::Files>(alloc: Global, rt: &R, folder: &str) -> Result<Vec<Name>, FileFault> {
    let folder = if folder.is_empty() { "." } else { folder };
    let entries = match fs::read_dir(&(rt, alloc), folder) {
        Ok(entries) => entries,
        Err(e) => return Err(listing_fault(&e)),
    };
    let mut names = Vec::new(alloc);
    for entry in entries {
        if let Some(name) = name_of(entry)? {
            names.reserve(1)?;
            names.push_reserved(name);
        }
    }
    Ok(names)
}

// One read from the place on. A read that is interrupted is tried again.
fn read_from<F: Read + Seek>(file: &mut F, at: u64, into: &mut [u8]) -> Result<usize, FileFault>
    ensures bound { IfOk result (λ count. count ≤ length into.new) }
{
    file.seek(SeekFrom::Start(at)).map_err(failed)?;
    for _ in 0..MOST_TRIES {
        match file.read(into) {
            Ok(count) => return Ok(count),
            Err(e) if e.kind() == ErrorKind::Interrupted => {}
            Err(_) => return Err(FileFault::Failed),
        }
    }
    Err(FileFault::Failed)
}

// Reads from the file of this path. At or past the length that the system says nothing is read.
fn read_path<R: fs::Files>(
    rt: &R,
    path: Path<'_>,
    at: u64,
    into: &mut [u8],
) -> Result<Option<usize>, FileFault>
    ensures bound { IfOk result (λ found. IfSome found (λ count. count ≤ length into.new)) }
{
    match length_at(rt, path)? {
        None => Ok(None),
        Some(length) if at >= length => Ok(Some(0)),
        Some(_) => {
            let mut file = fs::open(rt, path).map_err(failed)?;
            Ok(Some(read_from(&mut file, at, into)?))
        }
    }
}

// Leaves an empty file at the path, where a regular file or nothing stands.
fn make_path<R: fs::Files>(rt: &R, path: Path<'_>) -> Result<(), FileFault> {
    has_file(rt, path)?;
    fs::create(rt, path).map_err(failed)?;
    Ok(())
}

// Adds all the bytes to the end of the file of this path, in as many writes as the system wants.
fn append_path<R: fs::Files>(rt: &R, path: Path<'_>, bytes: &[u8]) -> Result<(), FileFault> {
    if !has_file(rt, path)? {
        return Err(FileFault::Failed);
    }
    let mut file = OpenOptions::new()
        .append(true)
        .open(rt, path)
        .map_err(failed)?;
    file.write_all(bytes).map_err(failed)
}

// Moves the file of the first path, which is there, to the second.
fn rename_path<R: fs::Files>(rt: &R, from: Path<'_>, to: Path<'_>) -> Result<(), FileFault> {
    has_file(rt, to)?;
    fs::rename(rt, from, to).map_err(failed)
}

// Takes the file of this path away, and answers whether there was one.
fn delete_path<R: fs::Files>(rt: &R, path: Path<'_>) -> Result<bool, FileFault> {
    if !has_file(rt, path)? {
        return Ok(false);
    }
    fs::remove_file(rt, path).map_err(failed)?;
    Ok(true)
}

impl<'a, R: fs::Files> FolderFiles<'a, R> {
    /// The files of the folder of this name: `FolderFiles::new(&rt, folder)`. An empty name means the current
    /// folder. It opens and makes nothing yet, and takes no memory.
    pub fn new(rt: &'a R, folder: &'a str) -> FolderFiles<'a, R>
        ensures { result ≡ fresh_files folder.now }
    {
        FolderFiles {
            rt,
            folder,
            is_made: false,
            faults: 0,
        }
    }

    // Makes the folder, where that was not done yet.
    fn make_folder(&mut self) -> Result<(), FileFault>
        ensures same { self.new ≡ self.old }
    {
        if !self.is_made {
            fs::create_dir_all(self.rt, self.folder).map_err(failed)?;
            self.is_made = true;
        }
        Ok(())
    }

    // The path of the file of this name, in the folder that is made by then.
    fn path_of(&mut self, alloc: Global, name: &Name) -> Result<Option<PathBuf>, FileFault>
        ensures same { self.new ≡ self.old }
        ensures no_file { names_file name.now ≡ false → result ≡ Ok None }
    {
        let Some(path) = path_in(alloc, self.folder, name)? else {
            return Ok(None);
        };
        self.make_folder()?;
        Ok(Some(path))
    }

    // The path of a file that is to be there after the call.
    fn target_of(&mut self, alloc: Global, name: &Name) -> Result<PathBuf, FileFault>
        ensures same { self.new ≡ self.old }
        ensures no_file { names_file name.now ≡ false → result ≡ Err FileFault.Failed }
    {
        match self.path_of(alloc, name)? {
            Some(path) => Ok(path),
            None => Err(FileFault::Failed),
        }
    }

    // Counts a failure, and hands the answer on.
    fn count<T>(&mut self, answer: Result<T, FileFault>) -> Result<T, FileFault>
        ensures answer { result ≡ answer }
        ensures counts { self.new ≡ after_files_call answer self.old }
        ensures cause { HasCause self.old.faults self.new.faults (answer ≡ Err FileFault.Failed) }
    {
        if let Err(FileFault::Failed) = &answer {
            self.faults = self.faults.saturating_add(1);
        }
        answer
    }

    fn list(&mut self, alloc: Global) -> Result<Vec<Name>, FileFault>
        ensures same { self.new ≡ self.old }
    {
        self.make_folder()?;
        names_in(alloc, self.rt, self.folder)
    }

    fn find_length(&mut self, alloc: Global, name: &Name) -> Result<Option<u64>, FileFault>
        ensures same { self.new ≡ self.old }
        ensures no_file { names_file name.now ≡ false → result ≡ Ok None }
    {
        match self.path_of(alloc, name)? {
            Some(path) => length_at(self.rt, path.as_path()),
            None => Ok(None),
        }
    }

    fn read_file(
        &mut self,
        alloc: Global,
        name: &Name,
        at: u64,
        into: &mut [u8],
    ) -> Result<Option<usize>, FileFault>
        ensures same { self.new ≡ self.old }
        ensures no_file { names_file name.now ≡ false → result ≡ Ok None }
        ensures bound { IfOk result (λ found. IfSome found (λ count. count ≤ length into.new)) }
    {
        match self.path_of(alloc, name)? {
            Some(path) => read_path(self.rt, path.as_path(), at, into),
            None => Ok(None),
        }
    }

    fn make_file(&mut self, alloc: Global, name: &Name) -> Result<(), FileFault>
        ensures same { self.new ≡ self.old }
        ensures no_file { names_file name.now ≡ false → result ≡ Err FileFault.Failed }
    {
        let path = self.target_of(alloc, name)?;
        make_path(self.rt, path.as_path())
    }

    fn append_file(&mut self, alloc: Global, name: &Name, bytes: &[u8]) -> Result<(), FileFault>
        ensures same { self.new ≡ self.old }
        ensures no_file { names_file name.now ≡ false → result ≡ Err FileFault.Failed }
    {
        let path = self.target_of(alloc, name)?;
        append_path(self.rt, path.as_path(), bytes)
    }

    fn rename_file(&mut self, alloc: Global, from: &Name, to: &Name) -> Result<bool, FileFault>
        ensures same { self.new ≡ self.old }
        ensures no_file { names_file from.now ≡ false → result ≡ Ok false }
    {
        let Some(old) = self.path_of(alloc, from)? else {
            return Ok(false);
        };
        if !has_file(self.rt, old.as_path())? {
            return Ok(false);
        }
        let new = self.target_of(alloc, to)?;
        rename_path(self.rt, old.as_path(), new.as_path())?;
        Ok(true)
    }

    fn delete_file(&mut self, alloc: Global, name: &Name) -> Result<bool, FileFault>
        ensures same { self.new ≡ self.old }
        ensures no_file { names_file name.now ≡ false → result ≡ Ok false }
    {
        match self.path_of(alloc, name)? {
            Some(path) => delete_path(self.rt, path.as_path()),
            None => Ok(false),
        }
    }
}

// What is held is not known: the trait's clauses on it, repeated here with no history, ask nothing.
impl<'a, R: fs::Files> Files for FolderFiles<'a, R> {
    ghost history = { λ _. None };

    ghost faults = { λ s. s.faults };

    fn names(&mut self, alloc: Global) -> Result<Vec<Name>, FileFault>
        ensures counts { self.new ≡ after_files_call result self.old }
        ensures names { WhereKnown None result (λ folder names. IsListing names.items folder) }
        ensures cause { HasCause self.old.faults self.new.faults (result ≡ Err FileFault.Failed) }
    {
        let answer = self.list(alloc);
        self.count(answer)
    }

    fn length(&mut self, alloc: Global, name: &Name) -> Result<Option<u64>, FileFault>
        ensures counts { self.new ≡ after_files_call result self.old }
        ensures no_file { names_file name.now ≡ false → result ≡ Ok None }
        ensures length { WhereKnown None result
            (λ folder found. found ≡ option_map length (get folder name.now)) }
        ensures cause { HasCause self.old.faults self.new.faults (result ≡ Err FileFault.Failed) }
    {
        let answer = self.find_length(alloc, name);
        self.count(answer)
    }

    fn read_at(
        &mut self,
        alloc: Global,
        name: &Name,
        at: u64,
        into: &mut [u8],
    ) -> Result<Option<usize>, FileFault>
        requires { 0 < length into.old }
        ensures counts { self.new ≡ after_files_call result self.old }
        ensures no_file { names_file name.now ≡ false → result ≡ Ok None }
        ensures bound { IfOk result (λ found. IfSome found (λ count. count ≤ length into.new)) }
        ensures bytes { WhereKnown None result
            (λ folder count. ReadsFile (get folder name.now) at count into.old into.new) }
        ensures cause { HasCause self.old.faults self.new.faults (result ≡ Err FileFault.Failed) }
    {
        let answer = self.read_file(alloc, name, at, into);
        self.count(answer)
    }

    fn make(&mut self, alloc: Global, name: &Name) -> Result<(), FileFault>
        ensures counts { self.new ≡ after_files_call result self.old }
        ensures no_file { names_file name.now ≡ false → result ≡ Err FileFault.Failed }
        ensures cause { HasCause self.old.faults self.new.faults (result ≡ Err FileFault.Failed) }
    {
        let answer = self.make_file(alloc, name);
        self.count(answer)
    }

    fn append(&mut self, alloc: Global, name: &Name, bytes: &[u8]) -> Result<(), FileFault>
        ensures counts { self.new ≡ after_files_call result self.old }
        ensures no_file { names_file name.now ≡ false → result ≡ Err FileFault.Failed }
        ensures cause { HasCause self.old.faults self.new.faults (result ≡ Err FileFault.Failed) }
    {
        let answer = self.append_file(alloc, name, bytes);
        self.count(answer)
    }

    fn rename(&mut self, alloc: Global, from: &Name, to: &Name) -> Result<bool, FileFault>
        ensures counts { self.new ≡ after_files_call result self.old }
        ensures no_file { names_file from.now ≡ false → result ≡ Ok false }
        ensures found { WhereKnown None result
            (λ folder found. found ≡ is_some (get folder from.now)) }
        ensures cause { HasCause self.old.faults self.new.faults (result ≡ Err FileFault.Failed) }
    {
        let answer = self.rename_file(alloc, from, to);
        self.count(answer)
    }

    fn delete(&mut self, alloc: Global, name: &Name) -> Result<bool, FileFault>
        ensures counts { self.new ≡ after_files_call result self.old }
        ensures no_file { names_file name.now ≡ false → result ≡ Ok false }
        ensures found { WhereKnown None result
            (λ folder found. found ≡ is_some (get folder name.now)) }
        ensures cause { HasCause self.old.faults self.new.faults (result ≡ Err FileFault.Failed) }
    {
        let answer = self.delete_file(alloc, name);
        self.count(answer)
    }
}
