// The bytes of an entry's file.
ghost use Rattle.std.specs.Prelude.{◌≡◌, ◌<◌, length, Err};
ghost use Rattle.std.specs.Option.{option_map};
ghost use Rattle.std.specs.FinMap.{get};
ghost use Rattle.outside.specs.Causes.{HasCause};
ghost use Rattle.outside.specs.Files.{WhereKnown};
ghost use Rattle.cache_folder.specs.Offered.{value_name};
ghost use Rattle.cache_folder.specs.Reading.{FillsFrom};

use crate::names;
use journal_lines::Key;
use outside::{FileFault, Files, Name};
use std::alloc::Global;

// Reads the file from its beginning into the slice, till that is full or the file ends, and answers how many bytes it read. A
// count that files answer beyond the slice is taken as all of it.
fn fill<F: Files>(
    alloc: Global,
    files: &mut F,
    name: &Name,
    into: &mut [u8],
) -> Result<Option<usize>, FileFault>
    requires { 0 < length into.old }
    ensures bytes { WhereKnown (F.history files.old) result
        (λ folder count. FillsFrom (get folder name.now) count into.new) }
    ensures size { length into.new ≡ length into.old }
    ensures same { F.history files.new ≡ F.history files.old }
    ensures cause { HasCause (F.faults files.old) (F.faults files.new) (result ≡ Err FileFault.Failed) }
{
    let mut at = 0;
    'pieces: while at < into.len() {
        match files.read_at(alloc, name, at as u64, &mut into[at..])? {
            None => return Ok(None),
            Some(0) => return Ok(Some(at)),
            Some(count) => at += count.min(into.len() - at),
        }
    }
    Ok(Some(at))
}

/// The bytes of the file of the key's entry, or none exactly where it is missing. A file of 2^40 bytes or more, as no entry
/// has, wants too much memory.
pub fn read<F: Files>(alloc: Global, files: &mut F, key: &Key) -> Result<Option<Vec<u8>>, FileFault>
    ensures bytes { WhereKnown (F.history files.old) result
        (λ folder found. option_map (λ bytes. bytes.items) found ≡ get folder (value_name key.now)) }
    ensures same { F.history files.new ≡ F.history files.old }
    ensures cause { HasCause (F.faults files.old) (F.faults files.new) (result ≡ Err FileFault.Failed) }
{
    let name = names::value(key);
    let Some(length) = files.length(alloc, &name)? else {
        return Ok(None);
    };
    if length == 0 {
        return Ok(Some(Vec::new(alloc)));
    }
    if length >= 1_099_511_627_776 {
        return Err(FileFault::Memory);
    }
    let mut bytes = Vec::new(alloc);
    bytes.resize(length as usize, 0)?;
    match fill(alloc, files, &name, &mut bytes)? {
        Some(count) => {
            bytes.truncate(count);
            Ok(Some(bytes))
        }
        None => Ok(None),
    }
}
