// The lines of a journal as bytes.
ghost use Rattle.std.specs.Prelude.{◌≡◌, ◌+◌, ◌≤◌, ◌<◌, ◌^◌, ◌++◌, ◌∷◌, [], length, take, codes};
ghost use Rattle.std.specs.Fmt.{decimal};
ghost use Rattle.journal_lines.specs.Lines.{spelled, HasShortLengths};
ghost use Rattle.journal_lines.specs.Journal.{ended};

use crate::keys::Key;
use crate::lines::Line;
use itoa::Buffer;
use std::marker::Model;

// The most bytes of a line with its newline.
const LONGEST_LINE: usize = 141;

/// The bytes of a line with its newline, in a fixed array: at most `CLEAN`, a key of 120 bytes and a length of 13
/// digits. Contracts see the list of them.
#[derive(Drop)]
pub struct LineText {
    bytes: [u8; 141],
    count: usize,
}

impl Model for LineText {
    ghost use Rattle.std.specs.Prelude.{◌≡◌, ◌≤◌, ℕ, List, length, take};

    ghost Value = { List ℕ };

    ghost view = { λ t. take t.count t.bytes };

    ghost invariant = { λ t. (length t.bytes ≡ 141) × (t.count ≤ 141) };
}

impl LineText {
    // No bytes.
    pub fn new() -> LineText
        ensures { result ≡ [] }
    {
        LineText {
            bytes: [0; 141],
            count: 0,
        }
    }

    /// The bytes of the line.
    pub fn bytes(&self) -> &[u8]
        ensures bytes { result.now ≡ self.now }
        ensures short { length self.now ≤ 141 }
    {
        &self.bytes[..self.count]
    }

    // Takes all bytes away.
    pub fn clear(&mut self)
        ensures { self.new ≡ [] }
    {
        self.count = 0;
    }

    // Adds bytes that fit.
    fn push(&mut self, bytes: &[u8])
        requires { length self.old + length bytes.now ≤ 141 }
        ensures { self.new ≡ self.old ++ bytes.now }
    {
        let end = self.count + bytes.len();
        self.bytes[self.count..end].copy_from_slice(bytes);
        self.count = end;
    }

    // Adds as many of the bytes as fit.
    pub fn fill(&mut self, bytes: &[u8])
        ensures { self.new ≡ take 141 (self.old ++ bytes.now) }
    {
        let room = LONGEST_LINE - self.bytes().len();
        self.push(&bytes[..room.min(bytes.len())]);
    }
}

// A word and a key.
fn keyed(word: &[u8], key: &Key) -> LineText
    requires { length word.now ≤ 7 }
    ensures text { result ≡ word.now ++ key.now }
    ensures short { length result ≤ length word.now + 120 }
{
    let mut text = LineText::new();
    text.push(word);
    text.push(key.bytes());
    text
}

// A CLEAN line without its newline.
fn clean(key: &Key, size: u64) -> LineText
    requires { size < 2 ^ 40 }
    ensures text { result ≡ codes "CLEAN " ++ (key.now ++ 32 ∷ decimal size) }
    ensures short { length result ≤ 140 }
{
    let mut text = keyed(b"CLEAN ", key);
    text.push(b" ");
    text.push(Buffer::new().format(size).as_bytes());
    text
}

/// The bytes of a line with its newline. This is the one spelling that `read_line` reads, without the newline,
/// as this line.
pub fn write_line(line: &Line) -> LineText
    requires { HasShortLengths line.now }
    ensures { result ≡ ended (spelled line.now) }
{
    let mut text = match line {
        Line::Dirty(key) => keyed(b"DIRTY ", key),
        Line::Clean(key, length) => clean(key, *length),
        Line::Read(key) => keyed(b"READ ", key),
        Line::Remove(key) => keyed(b"REMOVE ", key),
    };
    text.push(b"\n");
    text
}
