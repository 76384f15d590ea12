// What no clause of files in memory says: that calls succeed with ample memory, and which call a number
// names.
ghost use Rattle.std.specs.Prelude.{◌≡◌, ◌∷◌, [], codes};
ghost use Rattle.outside.specs.MemoryFiles.{stopped};
ghost use Rattle.outside.specs.Worked.{three_changes};
ghost use Rattle.outside.specs.declared.changes.Change.TheVariants.{Made, Appended};

use crate::{FileFault, Files, MemoryFiles, Name};
use std::alloc::Global;
use std::test::Fail;

// The definition of a stop on worked changes, computed where the tests are proved.
fn worked_stops()
    ensures whole { stopped 2 0 three_changes ≡ Made (codes "a") ∷ Appended (codes "a") (codes "xyz") ∷ [] }
    ensures cut { stopped 1 2 three_changes ≡ Made (codes "a") ∷ Appended (codes "a") (codes "xy") ∷ [] }
    ensures all { stopped 1 0 (Made (codes "a") ∷ []) ≡ Made (codes "a") ∷ [] }
{}

fn name(bytes: &[u8]) -> Result<Name, Fail> {
    match Name::read(bytes) {
        None => Err(Fail::new("no name")),
        Some(name) => Ok(name),
    }
}

#[test]
fn names_are_short_ascii(rt: HostRuntime) {
    assert!(rt; Name::read(b"").is_none());
    assert!(rt; Name::read(&[97; 129]).is_none());
    assert!(rt; Name::read(b"caf\xe9").is_none());
    assert!(rt; Name::read(&[97; 128]).is_some_and(|name| name.bytes() == [97; 128].as_slice()));
    assert!(rt;
        Name::read(b"journal.tmp").is_some_and(|name| name.bytes() == b"journal.tmp".as_slice())
    );
}

#[test]
fn files_in_memory_are_made_read_and_moved(rt: HostRuntime) -> Result<(), Fail> {
    let alloc = rt.alloc();
    let (a, b) = (name(b"a")?, name(b"b")?);
    let mut files = MemoryFiles::new(Vec::new(alloc));
    files.make(alloc, &a)?;
    files.append(alloc, &a, b"xyz")?;
    assert_eq!(rt; files.length(alloc, &a)?, Some(3));
    assert_eq!(rt; files.length(alloc, &b)?, None);
    let mut into = [0u8; 2];
    assert_eq!(rt; files.read_at(alloc, &a, 0, &mut into)?, Some(2));
    assert_eq!(rt; into, *b"xy");
    assert_eq!(rt; files.read_at(alloc, &a, 2, &mut into)?, Some(1));
    assert_eq!(rt; into, *b"zy");
    assert_eq!(rt; files.read_at(alloc, &a, 3, &mut into)?, Some(0));
    assert_eq!(rt; files.read_at(alloc, &b, 0, &mut into)?, None);
    assert!(rt; files.rename(alloc, &a, &b)?);
    assert!(rt; !files.rename(alloc, &a, &b)?);
    assert_eq!(rt; files.length(alloc, &b)?, Some(3));
    files.put(alloc, &a, b"p")?;
    assert!(rt; files.names(alloc)?.as_slice() == [a, b].as_slice());
    assert!(rt; files.delete(alloc, &b)?);
    assert!(rt; !files.delete(alloc, &b)?);
    assert!(rt; files.names(alloc)?.as_slice() == [a].as_slice());
    Ok(())
}

// A call of a number that is listed fails, whichever it is; one of `put` has no number.
#[test]
fn each_call_of_files_fails_by_its_number(rt: HostRuntime) -> Result<(), Fail> {
    let alloc = rt.alloc();
    let (a, b) = (name(b"a")?, name(b"b")?);
    let mut files = MemoryFiles::new(vec![in alloc; 0, 1, 2, 3, 4, 5, 6]?);
    files.put(alloc, &a, b"xyz")?;
    let mut into = [0u8; 2];
    assert!(rt; matches!(files.names(alloc), Err(FileFault::Failed)));
    assert!(rt; matches!(files.length(alloc, &a), Err(FileFault::Failed)));
    assert!(rt;
        matches!(
            files.read_at(alloc, &a, 0, &mut into),
            Err(FileFault::Failed)
        )
    );
    assert!(rt; matches!(files.make(alloc, &a), Err(FileFault::Failed)));
    assert!(rt; matches!(files.append(alloc, &a, b"w"), Err(FileFault::Failed)));
    assert!(rt; matches!(files.rename(alloc, &a, &b), Err(FileFault::Failed)));
    assert!(rt; matches!(files.delete(alloc, &a), Err(FileFault::Failed)));
    assert_eq!(rt; files.changes(), 1);
    assert_eq!(rt; files.length(alloc, &a)?, Some(3));
    Ok(())
}

// The length of a file in an image, where there is such an image.
fn length_in_image(
    alloc: Global,
    files: &MemoryFiles,
    change: usize,
    cut: usize,
    name: &Name,
) -> Result<Option<u64>, Fail> {
    if change > files.changes() || cut > files.appended(change) {
        return Err(Fail::new("no image"));
    }
    let mut image = files.image(alloc, change, cut)?;
    Ok(image.length(alloc, name)?)
}

#[test]
fn images_are_the_files_at_each_stop(rt: HostRuntime) -> Result<(), Fail> {
    let alloc = rt.alloc();
    let (a, b) = (name(b"a")?, name(b"b")?);
    let mut files = MemoryFiles::new(Vec::new(alloc));
    files.make(alloc, &a)?;
    files.append(alloc, &a, b"xyz")?;
    files.rename(alloc, &a, &b)?;
    files.delete(alloc, &b)?;
    files.put(alloc, &b, b"q")?;
    let cases = [
        (0, 0, a, None),
        (1, 0, a, Some(0)),
        (1, 2, a, Some(2)),
        (1, 3, a, Some(3)),
        (2, 0, a, Some(3)),
        (3, 0, a, None),
        (3, 0, b, Some(3)),
        (4, 0, b, None),
        (5, 0, b, Some(1)),
    ];
    for (change, cut, name, want) in &cases {
        let length = length_in_image(alloc, &files, *change, *cut, name)?;
        assert_eq!(rt; length, *want);
    }
    assert_eq!(rt; files.changes(), 5);
    assert_eq!(rt; files.appended(1), 3);
    assert_eq!(rt; files.appended(2), 0);
    Ok(())
}
