// Starts on folders that were put there, and a small cache.
ghost use Rattle.std.specs.Prelude.{◌≡◌, Some};
ghost use Rattle.disk_table.specs.Table.{edit_of};
ghost use Rattle.disk_lru.specs.State.{edits};

use crate::files::{edit, key, name, started, text_of};
use disk_lru::{BeginRefused, DiskLru};
use journal_lines::Key;
use outside::{Files, MemoryFiles};
use std::alloc::Global;
use std::test::Fail;

// A file's name and its bytes.
type File = (&'static [u8], &'static [u8]);

// A start: the files that it finds, a key, whether the key is offered, and the files that it leaves.
type Row = (&'static [File], &'static [u8], bool, &'static [File]);

const EMPTY: File = (b"journal", b"libcore.io.DiskLruCache\n1\n1\n1\n\n");

// Whether a start leaves and offers what the row says.
fn start_is_right(alloc: Global, row: &Row) -> Result<bool, Fail> {
    let (found, offered, is_offered, left) = *row;
    let mut files = MemoryFiles::new(Vec::new(alloc));
    for (file, bytes) in found {
        files.put(alloc, &name(file)?, bytes)?;
    }
    let disk = started(alloc, files, 100)?;
    let mut ok = disk.has(&key(offered)?) == is_offered;
    let mut files = disk.into_files();
    ok = files.names(alloc)?.len() == left.len() && ok;
    for (file, bytes) in left {
        ok = text_of(alloc, &mut files, file)?.as_slice() == *bytes && ok;
    }
    Ok(ok)
}

#[test]
fn starts_leave_what_was_committed(rt: HostRuntime) -> Result<(), Fail> {
    let rows: [Row; 11] = [
        // one key stays, one was removed, and one is left dirty, whose edit's file goes
        (
            &[
                (
                    b"journal",
                    b"libcore.io.DiskLruCache\n1\n1\n1\n\nDIRTY k1\nCLEAN k1 3\nDIRTY k2\nREMOVE k2\nDIRTY k3\nREAD k1\n",
                ),
                (b"k1.0", b"abc"),
                (b"k3.0.tmp", b"xy"),
            ],
            b"k1",
            true,
            &[
                (
                    b"journal",
                    b"libcore.io.DiskLruCache\n1\n1\n1\n\nCLEAN k1 3\n",
                ),
                (b"k1.0", b"abc"),
            ],
        ),
        // a last line without its newline
        (
            &[
                (
                    b"journal",
                    b"libcore.io.DiskLruCache\n1\n1\n1\n\nDIRTY k\nCLEAN k 12",
                ),
                (b"k.0", b"twelve bytes"),
            ],
            b"k",
            false,
            &[EMPTY],
        ),
        // an empty journal
        (
            &[(b"journal", b""), (b"k.0", b"twelve bytes")],
            b"k",
            false,
            &[EMPTY],
        ),
        // another version of the program
        (
            &[
                (
                    b"journal",
                    b"libcore.io.DiskLruCache\n1\n2\n1\n\nDIRTY k\nCLEAN k 12\n",
                ),
                (b"k.0", b"twelve bytes"),
            ],
            b"k",
            false,
            &[EMPTY],
        ),
        // a line of no form
        (
            &[
                (
                    b"journal",
                    b"libcore.io.DiskLruCache\n1\n1\n1\n\nCLEAN k 12\nCLEAN k 012\n",
                ),
                (b"k.0", b"twelve bytes"),
            ],
            b"k",
            false,
            &[EMPTY],
        ),
        // a file of another length
        (
            &[
                (
                    b"journal",
                    b"libcore.io.DiskLruCache\n1\n1\n1\n\nCLEAN k 11\n",
                ),
                (b"k.0", b"twelve bytes"),
            ],
            b"k",
            false,
            &[EMPTY],
        ),
        // a stop within a rebuild, when `journal` had become `journal.bkp`
        (
            &[
                (
                    b"journal.bkp",
                    b"libcore.io.DiskLruCache\n1\n1\n1\n\nDIRTY k\nCLEAN k 3\n",
                ),
                (
                    b"journal.tmp",
                    b"libcore.io.DiskLruCache\n1\n1\n1\n\nCLEAN k 3\n",
                ),
                (b"k.0", b"abc"),
            ],
            b"k",
            true,
            &[
                (
                    b"journal",
                    b"libcore.io.DiskLruCache\n1\n1\n1\n\nDIRTY k\nCLEAN k 3\n",
                ),
                (b"k.0", b"abc"),
            ],
        ),
        // a stop within `remove`, when the file had gone
        (
            &[(
                b"journal",
                b"libcore.io.DiskLruCache\n1\n1\n1\n\nDIRTY k\nCLEAN k 3\n",
            )],
            b"k",
            false,
            &[EMPTY],
        ),
        // a stop within `begin`, behind DIRTY
        (
            &[
                (
                    b"journal",
                    b"libcore.io.DiskLruCache\n1\n1\n1\n\nDIRTY k\nCLEAN k 3\nDIRTY k\n",
                ),
                (b"k.0", b"abc"),
            ],
            b"k",
            false,
            &[EMPTY],
        ),
        // a file that is not the cache's
        (
            &[
                (
                    b"journal",
                    b"libcore.io.DiskLruCache\n1\n1\n1\n\nCLEAN k 12\n",
                ),
                (b"k.0", b"twelve bytes"),
                (b"README", b"not the cache's"),
            ],
            b"k",
            true,
            &[
                (
                    b"journal",
                    b"libcore.io.DiskLruCache\n1\n1\n1\n\nCLEAN k 12\n",
                ),
                (b"k.0", b"twelve bytes"),
            ],
        ),
        // no journal
        (&[(b"k.0", b"abc")], b"k", false, &[EMPTY]),
    ];
    let mut number: usize = 0;
    for row in &rows {
        assert!(rt; start_is_right(rt.alloc(), row)?, "row {number}");
        number = number.saturating_add(1);
    }
    Ok(())
}

// Whether another edit of a key under edit is refused by the number of its edit.
fn is_busy(alloc: Global, disk: &mut DiskLru<MemoryFiles>, key: &Key, number: u64) -> bool
    requires { edit_of key.now (edits disk.old.cache) ≡ Some number }
    ensures { disk.new ≡ disk.old }
{
    match disk.begin(alloc, key) {
        Err(refused) => refused == BeginRefused::Busy(number),
        Ok(edit) => disk.abort(alloc, edit).is_err(),
    }
}

// Whether a key has one edit at most, which is then given up.
fn has_one_edit(alloc: Global, disk: &mut DiskLru<MemoryFiles>, key: &Key) -> bool {
    let Ok(first) = disk.begin(alloc, key) else {
        return false;
    };
    let busy = is_busy(alloc, disk, key, first.number());
    disk.abort(alloc, first).is_ok() && busy
}

// What was readable stays when an edit is given up, and the eldest goes where there is too much.
#[test]
fn a_small_cache_evicts_its_eldest(rt: HostRuntime) -> Result<(), Fail> {
    let alloc = rt.alloc();
    let (k, m) = (key(b"k")?, key(b"m")?);
    let mut disk = started(alloc, MemoryFiles::new(Vec::new(alloc)), 5)?;
    assert!(rt; edit(alloc, &mut disk, &k, b"abc", true));
    assert!(rt; has_one_edit(alloc, &mut disk, &k));
    assert!(rt; disk.has(&k));
    assert!(rt; edit(alloc, &mut disk, &m, b"def", true));
    assert!(rt; disk.trim_one(alloc)?);
    assert!(rt; !disk.has(&k) && disk.has(&m));
    let mut files = disk.into_files();
    let journal = text_of(alloc, &mut files, b"journal")?;
    let want =
        b"libcore.io.DiskLruCache\n1\n1\n1\n\nDIRTY k\nCLEAN k 3\nDIRTY k\nCLEAN k 3\nDIRTY m\nCLEAN m 3\nREMOVE k\n";
    assert!(rt; journal.as_slice() == want.as_slice());
    Ok(())
}
