// A journal that is read piece by piece.
ghost use Rattle.std.specs.Prelude.{◌≡◌, ◌+◌, ◌-◌, ◌≤◌, ◌<◌, ◌^◌, ◌==◌, ◌++◌, ◌∷◌, [], ℕ, List, length, drop, position, min, take, true, false, Some, None, IfOk, IfSome, IfNone, IsSome};
ghost use Rattle.std.specs.Str.{bytes_eq};
ghost use Rattle.journal_lines.specs.Lines.{line_of, IsLine};
ghost use Rattle.journal_lines.specs.Journal.{Lacks, header, journal_of};
ghost use Rattle.journal_lines.specs.Replay.{Tells, at_start, ended_with, journal_from};

use crate::lines::{JournalFault, Line, Rest, read_line};
use crate::texts::LineText;
use std::marker::Model;

const HEADER: [u8; 31] = *b"libcore.io.DiskLruCache\n1\n1\n1\n\n";

/// A reader of a journal that comes in pieces, cut anywhere. It takes no memory: of a line that goes on in the
/// next piece it keeps what was read.
#[derive(Drop)]
pub struct Replay {
    read: u64,
    header_read: usize,
    number: u64,
    begun: LineText,
    fault: Option<JournalFault>,
}

impl Model for Replay {
    ghost use Rattle.journal_lines.specs.Replay.{ReplayState, IsReading};

    ghost Value = { ReplayState };

    ghost view = { λ r. record { read = r.read; header_read = r.header_read; number = r.number; begun = r.begun; fault = r.fault } };

    ghost invariant = { λ r. IsReading (record { read = r.read; header_read = r.header_read; number = r.number; begun = r.begun; fault = r.fault }) };
}

// Where the first newline is.
fn newline(text: &[u8]) -> Option<usize>
    ensures { result ≡ position (λ b. b == 10) text.now }
{
    text.iter().position(|byte| *byte == b'\n')
}

// The line that begins with what was read before, and ends with these bytes. Nothing is kept of it.
fn line_with(begun: &mut LineText, front: &[u8]) -> Option<Line>
    ensures line { result ≡ line_of (begun.old ++ front.now) }
    ensures is_line { IfSome result IsLine }
    ensures clear { begun.new ≡ [] }
{
    if begun.bytes().is_empty() {
        return read_line(front);
    }
    begun.fill(front);
    let line = read_line(begun.bytes());
    begun.clear();
    line
}

// How many bytes of the header, of which some were read, the text begins with, or none where it goes on as no
// header does.
fn header_front(read: usize, text: &[u8]) -> Option<usize>
    requires { read ≤ 31 }
    ensures good { IfSome result (λ count. (count ≡ min (31 - read) (length text.now))
        × (bytes_eq (take count text.now) (take count (drop read header)) ≡ true)) }
    ensures bad { IfNone result (let count = min (31 - read) (length text.now) in
        bytes_eq (take count text.now) (take count (drop read header)) ≡ false) }
{
    let (_, rest) = HEADER.split_at(read);
    let count = rest.len().min(text.len());
    let (wanted, _) = rest.split_at(count);
    let (front, _) = text.split_at(count);
    if front == wanted { Some(count) } else { None }
}

impl Replay {
    /// A reader before the first byte.
    pub fn new() -> Replay
        ensures state { result ≡ at_start }
        ensures journal { (text : List ℕ) → journal_from result text ≡ journal_of text }
    {
        Replay {
            read: 0,
            header_read: 0,
            number: 6,
            begun: LineText::new(),
            fault: None,
        }
    }

    /// The next whole line of the stream, of which `piece` is read from `at` on: `at` moves past what was
    /// read. None comes where the piece is used up. A fault comes exactly where the text has it, and again at
    /// each later call.
    pub fn next(&mut self, piece: &[u8], at: &mut usize) -> Result<Option<Line>, JournalFault>
        requires within { at.old ≤ length piece.now }
        requires size { self.old.read + (length piece.now - at.old) < 2 ^ 64 }
        ensures on { at.old ≤ at.new }
        ensures within { at.new ≤ length piece.now }
        ensures read { self.new.read + at.old ≡ self.old.read + at.new }
        ensures tells { Tells self.old (drop at.old piece.now) self.new (drop at.new piece.now) result }
        ensures moves { IfOk result (λ line. IsSome line → at.old < at.new) }
        ensures is_line { IfOk result (λ line. IfSome line IsLine) }
    {
        if let Some(fault) = self.fault {
            return Err(fault);
        }
        let (_, left) = piece.split_at(*at);
        *at += self.read_header(left);
        if let Some(fault) = self.fault {
            return Err(fault);
        }
        if self.header_read < HEADER.len() {
            return Ok(None);
        }
        self.next_line(piece, at)
    }

    /// How the stream ended: with a whole line or within one, or with the fault that it has.
    pub fn end(self) -> Result<Rest, JournalFault>
        ensures { journal_from self [] ≡ ended_with result }
    {
        if let Some(fault) = self.fault {
            return Err(fault);
        }
        if self.header_read < HEADER.len() {
            return Err(JournalFault::BadHeader);
        }
        if self.begun.bytes().is_empty() {
            Ok(Rest::Whole)
        } else {
            Ok(Rest::Cut)
        }
    }

    // Reads what is there of the header, and tells how many bytes that is.
    fn read_header(&mut self, left: &[u8]) -> usize
        requires good { self.old.fault ≡ None }
        requires size { self.old.read + length left.now < 2 ^ 64 }
        ensures within { result ≤ length left.now }
        ensures read { self.new.read ≡ self.old.read + result }
        ensures done { self.new.header_read < 31 → self.new.fault ≡ None → result ≡ length left.now }
        ensures same { (more : List ℕ) → journal_from self.old (left.now ++ more)
            ≡ journal_from self.new (drop result left.now ++ more) }
    {
        match header_front(self.header_read, left) {
            None => {
                self.fault = Some(JournalFault::BadHeader);
                0
            }
            Some(count) => {
                self.header_read += count;
                self.read += count as u64;
                count
            }
        }
    }

    // The next line, after the header.
    fn next_line(&mut self, piece: &[u8], at: &mut usize) -> Result<Option<Line>, JournalFault>
        requires good { self.old.fault ≡ None }
        requires after_header { self.old.header_read ≡ 31 }
        requires within { at.old ≤ length piece.now }
        requires size { self.old.read + (length piece.now - at.old) < 2 ^ 64 }
        ensures on { at.old ≤ at.new }
        ensures within { at.new ≤ length piece.now }
        ensures read { self.new.read + at.old ≡ self.old.read + at.new }
        ensures tells { Tells self.old (drop at.old piece.now) self.new (drop at.new piece.now) result }
        ensures moves { IfOk result (λ line. IsSome line → at.old < at.new) }
        ensures is_line { IfOk result (λ line. IfSome line IsLine) }
    {
        let (_, left) = piece.split_at(*at);
        match newline(left) {
            None => {
                self.go_on(left);
                *at = piece.len();
                Ok(None)
            }
            Some(end) => {
                let (front, _) = left.split_at(end);
                let line = self.end_line(front);
                *at += end + 1;
                line
            }
        }
    }

    // Keeps what was read of a line.
    fn go_on(&mut self, left: &[u8])
        requires good { self.old.fault ≡ None }
        requires after_header { self.old.header_read ≡ 31 }
        requires lacks { Lacks 10 left.now }
        requires size { self.old.read + length left.now < 2 ^ 64 }
        ensures read { self.new.read ≡ self.old.read + length left.now }
        ensures same { (more : List ℕ) → journal_from self.old (left.now ++ more) ≡ journal_from self.new more }
    {
        self.begun.fill(left);
        self.read += left.len() as u64;
    }

    // Reads the line that ends with these bytes, which a newline follows.
    fn end_line(&mut self, front: &[u8]) -> Result<Option<Line>, JournalFault>
        requires good { self.old.fault ≡ None }
        requires after_header { self.old.header_read ≡ 31 }
        requires lacks { Lacks 10 front.now }
        requires size { self.old.read + length front.now + 1 < 2 ^ 64 }
        ensures read { self.new.read ≡ self.old.read + length front.now + 1 }
        ensures some { IfOk result IsSome }
        ensures is_line { IfOk result (λ line. IfSome line IsLine) }
        ensures tells { Tells self.old (front.now ++ 10 ∷ []) self.new [] result }
    {
        let line = line_with(&mut self.begun, front);
        let number = self.number;
        self.number += 1;
        self.read += front.len() as u64 + 1;
        if line.is_none() {
            let fault = JournalFault::BadLine(number);
            self.fault = Some(fault);
            return Err(fault);
        }
        Ok(line)
    }
}
