// The definitions on worked texts, and that lines are written and read.
ghost use Rattle.std.specs.Prelude.{◌≡◌, ◌∷◌, ◌++◌, [], codes, Some, None, Ok, Err, true, false, replicate};
ghost use Rattle.journal_lines.specs.Keys.{is_key};
ghost use Rattle.journal_lines.specs.Lines.{line_of};
ghost use Rattle.journal_lines.specs.Journal.{header, journal_of};
ghost use Rattle.journal_lines.specs.declared.lines.Line.TheVariants.{Dirty, Clean, Read, Remove};
ghost use Rattle.journal_lines.specs.declared.lines.Rest.TheVariants.{Whole, Cut};
ghost use Rattle.journal_lines.specs.declared.lines.JournalFault.TheVariants.{BadHeader, BadLine};

use crate::{JournalFault, Key, Line, Replay, Rest, read_line, write_line};
use std::test::Fail;

// Texts as a cache leaves them: three edits, of which one was not ended; a stop within the last line; nothing;
// another program's version; a length with a zero before it.
fn worked_journals()
    ensures whole { journal_of (header ++ codes "DIRTY k1\nCLEAN k1 3\nDIRTY k2\nREMOVE k2\nDIRTY k3\nREAD k1\n")
        ≡ Ok (
          Dirty (codes "k1") ∷ Clean (codes "k1") 3 ∷ Dirty (codes "k2") ∷ Remove (codes "k2")
              ∷ Dirty (codes "k3") ∷ Read (codes "k1") ∷ [],
          Whole,
        ) }
    ensures cut { journal_of (header ++ codes "DIRTY k\nCLEAN k 12") ≡ Ok (Dirty (codes "k") ∷ [], Cut) }
    ensures empty { journal_of [] ≡ Err BadHeader }
    ensures version { journal_of (codes "libcore.io.DiskLruCache\n1\n2\n1\n\n") ≡ Err BadHeader }
    ensures zero { journal_of (header ++ codes "DIRTY k\nCLEAN k 012\n") ≡ Err (BadLine 7) }
{}

// At the limits of a key and of a length, and one past them.
fn worked_limits()
    ensures longest_key { is_key (replicate 120 97) ≡ true }
    ensures longer_key { is_key (replicate 121 97) ≡ false }
    ensures no_key { is_key [] ≡ false }
    ensures capital { is_key (codes "K") ≡ false }
    ensures longest { line_of (codes "CLEAN k 1099511627775") ≡ Some (Clean (codes "k") 1099511627775) }
    ensures longer { line_of (codes "CLEAN k 1099511627776") ≡ None }
    ensures nothing { line_of (codes "CLEAN k 0") ≡ Some (Clean (codes "k") 0) }
    ensures two_spaces { line_of (codes "DIRTY  k") ≡ None }
{}

#[test]
fn lines_are_written_and_read(rt: HostRuntime) -> Result<(), Fail> {
    let Some(key) = Key::read(b"a_0-z") else {
        return Err(Fail::new("no key"));
    };
    assert_eq!(rt;
        write_line(&Line::Dirty(key)).bytes(),
        b"DIRTY a_0-z\n".as_slice()
    );
    assert_eq!(rt;
        write_line(&Line::Clean(key, 42)).bytes(),
        b"CLEAN a_0-z 42\n".as_slice()
    );
    assert_eq!(rt;
        write_line(&Line::Read(key)).bytes(),
        b"READ a_0-z\n".as_slice()
    );
    assert_eq!(rt;
        write_line(&Line::Remove(key)).bytes(),
        b"REMOVE a_0-z\n".as_slice()
    );
    assert!(rt; matches!(read_line(b"DIRTY a_0-z"), Some(Line::Dirty(_))));
    assert!(rt; matches!(read_line(b"CLEAN a_0-z 42"), Some(Line::Clean(_, 42))));
    assert!(rt; matches!(read_line(b"READ a_0-z"), Some(Line::Read(_))));
    assert!(rt; matches!(read_line(b"REMOVE a_0-z"), Some(Line::Remove(_))));
    assert!(rt; read_line(b"CLEAN a_0-z").is_none());
    Ok(())
}

// A journal cut within its header, within a line, and before its last newline.
#[test]
fn pieces_are_read_as_one_text(rt: HostRuntime) {
    let mut replay = Replay::new();
    let mut at = 0;
    assert!(rt; matches!(replay.next(b"libcore.io.DiskLru", &mut at), Ok(None)));
    let piece = b"Cache\n1\n1\n1\n\nDIRTY k\nCLE";
    at = 0;
    assert!(rt; matches!(replay.next(piece, &mut at), Ok(Some(Line::Dirty(_)))));
    assert!(rt; matches!(replay.next(piece, &mut at), Ok(None)));
    at = 0;
    assert!(rt;
        matches!(
            replay.next(b"AN k 3\n", &mut at),
            Ok(Some(Line::Clean(_, 3)))
        )
    );
    at = 0;
    assert!(rt; matches!(replay.next(b"READ", &mut at), Ok(None)));
    assert_eq!(rt; replay.end(), Ok(Rest::Cut));
}

// A fault is answered again, and at the end.
#[test]
fn a_fault_stays(rt: HostRuntime) {
    let mut replay = Replay::new();
    let mut at = 0;
    assert!(rt;
        matches!(
            replay.next(b"journal", &mut at),
            Err(JournalFault::BadHeader)
        )
    );
    assert!(rt;
        matches!(
            replay.next(b"journal", &mut at),
            Err(JournalFault::BadHeader)
        )
    );
    assert_eq!(rt; replay.end(), Err(JournalFault::BadHeader));
}
