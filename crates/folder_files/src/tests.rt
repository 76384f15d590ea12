// What no clause says of the files of a folder: what the system's folder holds after each call.
ghost use Rattle.std.specs.Prelude.{◌≡◌, ◌∷◌, [], codes, false, true};
ghost use Rattle.folder_files.specs.FolderFiles.{names_file};

use crate::FolderFiles;
use outside::{FileFault, Files, Name};
use std::alloc::Global;
use std::test::Fail;
use std::{fs, process};

// The definition of a file's name on worked names, computed where the tests are proved.
fn worked_names()
    ensures file { names_file (codes "journal.tmp") ≡ true }
    ensures blank { names_file (codes "a b") ≡ true }
    ensures slash { names_file (codes "a/b") ≡ false }
    ensures zero { names_file (97 ∷ 0 ∷ []) ≡ false }
    ensures here { names_file (codes ".") ≡ false }
    ensures above { names_file (codes "..") ≡ false }
{}

fn name(bytes: &[u8]) -> Result<Name, Fail> {
    match Name::read(bytes) {
        None => Err(Fail::new("no name")),
        Some(name) => Ok(name),
    }
}

// The names that are held, sorted.
fn sorted_names(
    alloc: Global,
    files: &mut FolderFiles<'_, HostRuntime>,
) -> Result<Vec<Name>, Fail> {
    let mut names = files.names(alloc)?;
    names.sort()?;
    Ok(names)
}

#[test]
fn files_of_a_folder_are_made_read_and_moved(rt: HostRuntime) -> Result<(), Fail> {
    let alloc = rt.alloc();
    let above = format!(in alloc; "/tmp/folder_files_{}", process::id(rt.process()))?;
    let folder = format!(in alloc; "{above}/cache")?;
    let (a, b) = (name(b"a")?, name(b"b c")?);
    let mut files = FolderFiles::new(&rt, folder.as_str());
    assert!(rt; !fs::exists(&rt, folder.as_str())?);
    assert!(rt; files.names(alloc)?.is_empty());
    assert!(rt; fs::exists(&rt, folder.as_str())?);
    files.make(alloc, &a)?;
    files.append(alloc, &a, b"xy")?;
    files.append(alloc, &a, b"z")?;
    assert_eq!(rt; files.length(alloc, &a)?, Some(3));
    assert_eq!(rt; files.length(alloc, &b)?, None);
    let mut into = [0u8; 2];
    assert_eq!(rt; files.read_at(alloc, &a, 0, &mut into)?, Some(2));
    assert_eq!(rt; into, *b"xy");
    assert_eq!(rt; files.read_at(alloc, &a, 2, &mut into)?, Some(1));
    assert_eq!(rt; into, *b"zy");
    assert_eq!(rt; files.read_at(alloc, &a, 3, &mut into)?, Some(0));
    assert_eq!(rt; files.read_at(alloc, &a, u64::MAX, &mut into)?, Some(0));
    assert_eq!(rt; files.read_at(alloc, &b, 0, &mut into)?, None);
    files.make(alloc, &b)?;
    assert!(rt; files.rename(alloc, &a, &b)?);
    assert!(rt; !files.rename(alloc, &a, &b)?);
    assert_eq!(rt; files.length(alloc, &b)?, Some(3));
    files.make(alloc, &b)?;
    assert_eq!(rt; files.length(alloc, &b)?, Some(0));
    assert!(rt; files.delete(alloc, &b)?);
    assert!(rt; !files.delete(alloc, &b)?);
    assert!(rt; files.names(alloc)?.is_empty());
    fs::remove_dir_all(&rt, above.as_str())?;
    Ok(())
}

// A file with a name that is none of ours, one with a name of ours, and a folder.
#[test]
fn what_is_no_file_of_ours_is_left_alone(rt: HostRuntime) -> Result<(), Fail> {
    let alloc = rt.alloc();
    let folder = format!(in alloc; "/tmp/outside_others_{}", process::id(rt.process()))?;
    let (a, sub, above) = (name(b"a")?, name(b"sub")?, name(b"../a")?);
    let foreign = format!(in alloc; "{folder}/caf\u{e9}")?;
    fs::create_dir_all(&rt, format!(in alloc; "{folder}/sub")?.as_str())?;
    fs::write(&rt, foreign.as_str(), b"xyz".as_slice())?;
    fs::write(
        &rt,
        format!(in alloc; "{folder}/a")?.as_str(),
        b"xy".as_slice(),
    )?;
    let mut files = FolderFiles::new(&rt, folder.as_str());
    assert!(rt; sorted_names(alloc, &mut files)?.as_slice() == [a].as_slice());
    assert_eq!(rt; files.length(alloc, &a)?, Some(2));
    assert!(rt; matches!(files.length(alloc, &sub), Err(FileFault::Failed)));
    assert!(rt; matches!(files.make(alloc, &sub), Err(FileFault::Failed)));
    assert!(rt; matches!(files.rename(alloc, &a, &sub), Err(FileFault::Failed)));
    assert!(rt; matches!(files.delete(alloc, &sub), Err(FileFault::Failed)));
    assert!(rt; matches!(files.length(alloc, &above), Ok(None)));
    assert!(rt; matches!(files.rename(alloc, &a, &above), Err(FileFault::Failed)));
    assert!(rt; matches!(files.append(alloc, &above, b"w"), Err(FileFault::Failed)));
    assert_eq!(rt; files.length(alloc, &a)?, Some(2));
    assert!(rt; fs::exists(&rt, foreign.as_str())?);
    fs::remove_dir_all(&rt, folder.as_str())?;
    Ok(())
}

// No folder can stand below a device.
#[test]
fn a_folder_that_cannot_be_made_fails(rt: HostRuntime) -> Result<(), Fail> {
    let alloc = rt.alloc();
    let mut files = FolderFiles::new(&rt, "/dev/null/cache");
    assert!(rt; matches!(files.names(alloc), Err(FileFault::Failed)));
    assert!(rt; matches!(files.make(alloc, &name(b"a")?), Err(FileFault::Failed)));
    Ok(())
}
