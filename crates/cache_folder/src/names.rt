// The names of a cache's files.
ghost use Rattle.std.specs.Prelude.{◌≡◌, ◌+◌, ◌≤◌, ◌++◌, true, length, take};
ghost use Rattle.journal_lines.specs.Keys.{is_key};
ghost use Rattle.outside.specs.Names.{IsName};
ghost use Rattle.cache_folder.specs.Offered.{journal_name, journal_tmp, journal_bkp, value_name, edit_name};

use journal_lines::Key;
use outside::Name;

// Puts bytes at a place of an array.
fn put(array: &mut [u8; 128], at: usize, bytes: &[u8])
    requires { at + length bytes.now ≤ 128 }
    ensures { take (at + length bytes.now) array.new ≡ take at array.old ++ bytes.now }
{
    let end = at + bytes.len();
    array[at..end].copy_from_slice(bytes);
}

// A name in two parts.
fn joined(front: &[u8], back: &[u8]) -> Name
    requires { IsName (front.now ++ back.now) }
    ensures { result ≡ front.now ++ back.now }
{
    let mut bytes = [0u8; 128];
    put(&mut bytes, 0, front);
    put(&mut bytes, front.len(), back);
    match Name::read(&bytes[..front.len() + back.len()]) {
        Some(name) => name,
        None => unreachable!(),
    }
}

/// The journal's name.
pub fn journal() -> Name
    ensures { result ≡ journal_name }
{
    joined(b"journal", b"")
}

/// The name of a journal that is being written.
pub fn journal_tmp() -> Name
    ensures { result ≡ journal_tmp }
{
    joined(b"journal.tmp", b"")
}

/// The name of a journal that stepped back before a new one.
pub fn journal_bkp() -> Name
    ensures { result ≡ journal_bkp }
{
    joined(b"journal.bkp", b"")
}

/// The name of the file of an entry's value.
pub fn value(key: &Key) -> Name
    ensures name { result ≡ value_name key.now }
    ensures key { is_key key.now ≡ true }
{
    joined(key.bytes(), b".0")
}

/// The name of the file of an entry's edit.
pub fn edit(key: &Key) -> Name
    ensures name { result ≡ edit_name key.now }
    ensures key { is_key key.now ≡ true }
{
    joined(key.bytes(), b".0.tmp")
}
