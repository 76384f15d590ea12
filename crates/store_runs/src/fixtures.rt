// What the tests work with.
ghost use Rattle.std.specs.Prelude.{◌≡◌, None, IfOk};
ghost use Rattle.store_shared.specs.Caller.{content_of};

use bitmap_kind::{Config, Rule, Transform};
use cache_key::{EngineKey, KeyRoom, LoadSpec, Priority, Strategy, Text};
use disk_store::Store;
use outside::{Files, MemoryFiles, Name, Told};
use std::alloc::Global;
use std::test::Fail;
use store_shared::AloneStore;

/// A PPM text of a red and a blue pixel.
pub const TEXT: &[u8] = b"P6\n2 1\n255\n\xff\x00\x00\x00\x00\xff";

/// Its entry file, where its url is `red` and its signature `1`.
pub const ENTRY: &[u8] =
    b"GLD1\x0d\x00\x00\x00S\x03\x00\x00\x00red\x01\x00\x00\x001\x11\x00\x00\x00P6\n2 1\n255\n\xff\x00\x00\x00\x00\xff";

/// The key of that entry, which is the SHA-256 of its 13 key bytes.
pub const RED: &[u8] = b"241173c5766a5fa00e218e2d10a5a1dc83262cc680e4885755f016ef14755140";

/// The room of a load of a url of three letters, with the signature `1`.
pub fn room_of(alloc: Global, url: &[u8; 3]) -> Result<KeyRoom, Fail> {
    let key = EngineKey {
        url: Text::new(alloc, url)?,
        sig: Text::new(alloc, b"1")?,
        width: 2,
        height: 1,
        transform: Transform::Nothing,
        config: Config::Argb8888,
        rule: Rule::AtLeast,
    };
    let mut room = KeyRoom::new(alloc)?;
    room.fill(&LoadSpec {
        key,
        strategy: Strategy::Automatic,
        priority: Priority::Normal,
        skip: false,
        cached: false,
    });
    Ok(room)
}

/// A store on these files that one caller owns, and that speaks for no content.
pub fn owned(
    alloc: Global,
    files: MemoryFiles,
    maximum: u64,
) -> Result<AloneStore<MemoryFiles>, Fail>
    ensures { IfOk result (λ store. content_of store ≡ None) }
{
    match Store::start(alloc, files, maximum, Told::nothing()) {
        Ok(store) => Ok(AloneStore::new(store)),
        Err(_) => Err(Fail::new("no memory for a start")),
    }
}

/// The name of a file of the entry of `red`, or of the journal.
pub fn name(bytes: &[u8]) -> Result<Name, Fail> {
    match Name::read(bytes) {
        Some(name) => Ok(name),
        None => Err(Fail::new("no name")),
    }
}

/// The bytes of a file that has fewer than 512.
pub fn text_of(alloc: Global, files: &mut MemoryFiles, file: &[u8]) -> Result<Vec<u8>, Fail> {
    let mut buffer = [0u8; 512];
    match files.read_at(alloc, &name(file)?, 0, &mut buffer)? {
        Some(count) if count < 512 => Ok(buffer[..count].to_vec(alloc)?),
        _ => Err(Fail::new("no such file, or a long one")),
    }
}

/// The name of the entry file of `red`.
pub fn entry_file(alloc: Global) -> Result<Vec<u8>, Fail> {
    let mut file = RED.to_vec(alloc)?;
    file.extend_from_slice(b".0")?;
    Ok(file)
}

/// A journal with these lines on the key of `red`.
pub fn journal_of(alloc: Global, lines: &[(&[u8], &[u8])]) -> Result<Vec<u8>, Fail> {
    let mut text = b"libcore.io.DiskLruCache\n1\n1\n1\n\n".to_vec(alloc)?;
    for (word, size) in lines {
        text.extend_from_slice(word)?;
        text.extend_from_slice(RED)?;
        text.extend_from_slice(size)?;
        text.push(b'\n')?;
    }
    Ok(text)
}

/// The first calls on new files that no start makes, and all after them, as numbers of calls that fail.
pub fn all_from(alloc: Global, first: u64) -> Result<Vec<u64>, Fail> {
    let mut fail = Vec::new(alloc);
    for number in 0..100u64 {
        fail.push(first.saturating_add(number))?;
    }
    Ok(fail)
}
