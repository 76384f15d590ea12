// The journal as a start reads it.
ghost use Rattle.std.specs.Prelude.{◌≡◌, ◌≢◌, ◌+◌, ◌-◌, ◌<◌, ◌≤◌, ◌^◌, ℕ, List, [], true, length, drop, Some, None, Err, IfOk, IsOk};
ghost use Rattle.std.specs.FinMap.{get};
ghost use Rattle.outside.specs.Causes.{HasCause};
ghost use Rattle.cache_folder.specs.Offered.{journal_name};
ghost use Rattle.cache_folder.specs.Images.{IfKnown};
ghost use Rattle.cache_folder.specs.Starts.{HasNoEdits, table_of};
ghost use Rattle.cache_folder.specs.inside.Reading.{Place, Applies, AppliesPiece, ReadsPiece};

use crate::names;
use crate::table::CacheTable;
use faults::NoMemory;
use journal_lines::{JournalFault, Replay, Rest};
use outside::{FileFault, Files};
use std::alloc::Global;

// How many bytes of a journal are read at once.
const PIECE: usize = 4096;

/// Why no table was read of a journal.
#[derive(Clone, Copy, Debug, PartialEq, Eq)]
pub enum Unread {
    /// There is no journal, or it is bad.
    Bad,
    /// A call failed, or wanted memory.
    Refused(FileFault),
}

impl From<JournalFault> for Unread {
    ghost use Rattle.std.specs.Prelude.{◌≡◌};
    ghost use Rattle.cache_folder.specs.declared.journal_reader.Unread.TheVariants.{Bad};

    ghost from_gives = { λ _ made. made ≡ Bad };

    fn from(_fault: JournalFault) -> Unread {
        Unread::Bad
    }
}

impl From<NoMemory> for Unread {
    ghost use Rattle.std.specs.Prelude.{◌≡◌};
    ghost use Rattle.outside.specs.declared.files.FileFault.TheVariants.{Memory};
    ghost use Rattle.cache_folder.specs.declared.journal_reader.Unread.TheVariants.{Refused};

    ghost from_gives = { λ _ made. made ≡ Refused Memory };

    fn from(_error: NoMemory) -> Unread {
        Unread::Refused(FileFault::Memory)
    }
}

impl From<FileFault> for Unread {
    ghost use Rattle.std.specs.Prelude.{◌≡◌};
    ghost use Rattle.cache_folder.specs.declared.journal_reader.Unread.TheVariants.{Refused};

    ghost from_gives = { λ fault made. made ≡ Refused fault };

    fn from(fault: FileFault) -> Unread {
        Unread::Refused(fault)
    }
}

// Applies the next line of the piece to the table. False comes where the piece is used up.
fn apply_next(
    replay: &mut Replay,
    table: &mut CacheTable,
    piece: &[u8],
    at: &mut usize,
) -> Result<bool, Unread>
    requires within { at.old ≤ length piece.now }
    requires size { replay.old.read + (length piece.now - at.old) < 2 ^ 64 }
    requires free { HasNoEdits table.old }
    ensures on { IfOk result (λ more. more ≡ true → at.old < at.new) }
    ensures within { at.new ≤ length piece.now }
    ensures read { replay.new.read + at.old ≡ replay.old.read + at.new }
    ensures applies { Applies
        record { table = table.old.table; replay = replay.old; left = drop at.old piece.now }
        record { table = table.new.table; replay = replay.new; left = drop at.new piece.now } result }
    ensures memory { result ≢ Err (Unread.Refused FileFault.Failed) }
    ensures free { HasNoEdits table.new }
{
    let Some(line) = replay.next(piece, at)? else {
        return Ok(false);
    };
    if table.apply(&line)? {
        Ok(true)
    } else {
        Err(Unread::Bad)
    }
}

// Applies the lines of a piece to the table.
fn apply_piece(replay: &mut Replay, table: &mut CacheTable, piece: &[u8]) -> Result<(), Unread>
    requires size { replay.old.read + length piece.now < 2 ^ 64 }
    requires free { HasNoEdits table.old }
    ensures read { IsOk result → replay.new.read ≡ replay.old.read + length piece.now }
    ensures applies { AppliesPiece
        record { table = table.old.table; replay = replay.old; left = piece.now }
        record { table = table.new.table; replay = replay.new; left = [] } result }
    ensures memory { result ≢ Err (Unread.Refused FileFault.Failed) }
    ensures free { HasNoEdits table.new }
{
    let mut at = 0;
    'lines: while apply_next(replay, table, piece, &mut at)? {}
    Ok(())
}

// Reads the next bytes of the journal, of which there are `size` and `at` were read. None come only where the journal is not
// known to have them.
fn read_piece<F: Files>(
    alloc: Global,
    files: &mut F,
    at: u64,
    size: u64,
    buffer: &mut [u8; PIECE],
) -> Result<usize, FileFault>
    requires { at < size }
    ensures within { IfOk result (λ count. at + count ≤ size) }
    ensures fits { IfOk result (λ count. count ≤ 4096) }
    ensures piece { IfOk result (λ count. IfKnown (F.history files.old) (λ h. (text : List ℕ)
        → get h.held journal_name ≡ Some text → length text ≡ size → ReadsPiece text at count buffer.new)) }
    ensures same { F.history files.new ≡ F.history files.old }
    ensures cause { HasCause (F.faults files.old) (F.faults files.new) (result ≡ Err FileFault.Failed) }
{
    let journal = names::journal();
    match files.read_at(alloc, &journal, at, buffer)? {
        None => Ok(0),
        Some(count) => Ok(count.min((size - at) as usize).min(PIECE)),
    }
}

// Applies the lines of the whole journal, which has `size` bytes, to the table.
fn apply_all<F: Files>(
    alloc: Global,
    files: &mut F,
    size: u64,
    replay: &mut Replay,
    table: &mut CacheTable,
) -> Result<(), Unread>
    requires start { replay.old.read ≡ 0 }
    requires free { HasNoEdits table.old }
    ensures applies { IfKnown (F.history files.old) (λ h. (text : List ℕ)
        → get h.held journal_name ≡ Some text → length text ≡ size
        → AppliesPiece
        record { table = table.old.table; replay = replay.old; left = text }
        record { table = table.new.table; replay = replay.new; left = [] } result) }
    ensures free { HasNoEdits table.new }
    ensures same { F.history files.new ≡ F.history files.old }
    ensures cause { HasCause (F.faults files.old) (F.faults files.new)
        (result ≡ Err (Unread.Refused FileFault.Failed)) }
{
    let mut buffer = [0u8; PIECE];
    let mut at = 0;
    'pieces: while at < size {
        let count = read_piece(alloc, files, at, size, &mut buffer)?;
        if count == 0 {
            return Ok(());
        }
        apply_piece(replay, table, &buffer[..count])?;
        at += count as u64;
    }
    Ok(())
}

/// The table that the journal leaves, and how its text ends. It is bad exactly where it leaves none: where there is no journal,
/// where it is no text of lines after the header, and where it has too many keys.
pub fn read_journal<F: Files>(alloc: Global, files: &mut F) -> Result<(CacheTable, Rest), Unread>
    ensures read { IfOk result (λ read. IfKnown (F.history files.old)
        (λ h. table_of (get h.held journal_name) ≡ Some (read.0.table, read.1))) }
    ensures free { IfOk result (λ read. HasNoEdits read.0) }
    ensures bad { result ≡ Err Unread.Bad → IfKnown (F.history files.old)
        (λ h. table_of (get h.held journal_name) ≡ None) }
    ensures same { F.history files.new ≡ F.history files.old }
    ensures cause { HasCause (F.faults files.old) (F.faults files.new)
        (result ≡ Err (Unread.Refused FileFault.Failed)) }
{
    let journal = names::journal();
    let Some(size) = files.length(alloc, &journal)? else {
        return Err(Unread::Bad);
    };
    let mut table = CacheTable::new(alloc)?;
    let mut replay = Replay::new();
    apply_all(alloc, files, size, &mut replay, &mut table)?;
    let rest = replay.end()?;
    Ok((table, rest))
}
