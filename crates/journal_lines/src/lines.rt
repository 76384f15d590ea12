// The lines of a journal, and how they are read.
ghost use Rattle.std.specs.Prelude.{◌≡◌, ◌+◌, ◌<◌, ◌==◌, length, position, Some, None, MatchOption, take, drop};
ghost use Rattle.std.specs.Option.{option_map};
ghost use Rattle.journal_lines.specs.Keys.{key_of};
ghost use Rattle.journal_lines.specs.Lines.{after_word, at_space, clean_of, line_of};
ghost use Rattle.journal_lines.specs.declared.lines.Line.TheVariants.{Dirty, Clean, Read, Remove};

use crate::keys::Key;
use crate::numbers::read_length;

/// A line of the journal. A length is that of an entry's file in bytes, below 1,099,511,627,776.
#[derive(Clone, Copy, Drop)]
pub enum Line {
    /// An edit of the key was begun, and nothing says yet how it ended.
    Dirty(Key),
    /// The key has an entry, whose file has this length.
    Clean(Key, u64),
    /// The entry of the key was read.
    Read(Key),
    /// The key has no entry.
    Remove(Key),
}

/// How a text of lines ends: with a whole line, or with one that lacks its newline.
#[derive(Clone, Copy, Debug, PartialEq, Eq)]
pub enum Rest {
    Whole,
    Cut,
}

/// Why a text is no journal.
#[derive(Clone, Copy, Debug, PartialEq, Eq)]
pub enum JournalFault {
    /// The five lines of the header are not there whole.
    BadHeader,
    /// The line of this number, counted from 1 with the header, is whole and is none of the forms.
    BadLine(u64),
}

// What stands after a word at the start.
fn after_word<'a>(word: &[u8], text: &'a [u8]) -> Option<&'a [u8]>
    ensures { option_map (λ rest. rest.now) result ≡ after_word word.now text.now }
{
    text.strip_prefix(word)
}

// A key after `DIRTY`.
fn read_dirty(rest: &[u8]) -> Option<Line>
    ensures { result ≡ option_map Dirty (key_of rest.now) }
{
    Some(Line::Dirty(Key::read(rest)?))
}

// A key after `READ`.
fn read_read(rest: &[u8]) -> Option<Line>
    ensures { result ≡ option_map Read (key_of rest.now) }
{
    Some(Line::Read(Key::read(rest)?))
}

// A key after `REMOVE`.
fn read_remove(rest: &[u8]) -> Option<Line>
    ensures { result ≡ option_map Remove (key_of rest.now) }
{
    Some(Line::Remove(Key::read(rest)?))
}

fn first_space(text: &[u8]) -> Option<usize>
    ensures { result ≡ position (λ b. b == 32) text.now }
{
    text.iter().position(|byte| *byte == b' ')
}

// What stands before the first space, and after it.
fn at_space(text: &[u8]) -> Option<(&[u8], &[u8])>
    ensures { option_map (λ parts. (parts.0.now, parts.1.now)) result ≡ at_space text.now }
{
    match first_space(text) {
        None => None,
        Some(at) => Some((&text[..at], &text[at + 1..])),
    }
}

// A key and a length after `CLEAN`.
fn read_clean(rest: &[u8]) -> Option<Line>
    ensures { result ≡ clean_of (at_space rest.now) }
{
    match at_space(rest) {
        None => None,
        Some((key, length)) => Some(Line::Clean(Key::read(key)?, read_length(length)?)),
    }
}

/// The line that these bytes are, which have no newline. None comes exactly where they are no line's one
/// spelling.
pub fn read_line(bytes: &[u8]) -> Option<Line>
    ensures { result ≡ line_of bytes.now }
{
    if let Some(rest) = after_word(b"DIRTY ", bytes) {
        return read_dirty(rest);
    }
    if let Some(rest) = after_word(b"CLEAN ", bytes) {
        return read_clean(rest);
    }
    if let Some(rest) = after_word(b"READ ", bytes) {
        return read_read(rest);
    }
    match after_word(b"REMOVE ", bytes) {
        None => None,
        Some(rest) => read_remove(rest),
    }
}
