// Reads the lines of a text that comes in pieces.
ghost use Rattle.std.specs.Prelude.{◌≡◌, ◌<◌, ◌≤◌, ◌+◌, ◌-◌, ◌++◌, ◌∷◌, [], false, length, take, drop, MatchOption, Ok, IsOk, IsErr, IfOk};
ghost use Rattle.outside.specs.Causes.{HasCause};
ghost use Rattle.script_lines.specs.inside.Pieces.{no_pieces, lines_before, has_line_feed, IsFirstFeed, LineGives, Fills, IsLast};

use faults::NoMemory;
use outside::{Failed, Input};
use std::alloc::Global;

// How many bytes a script may have.
const SCRIPT_LIMIT: usize = 1_048_576;

// How many bytes a line may have without its line feed: 2,048, and a carriage return.
const LINE_LIMIT: usize = 2_049;

// Room for a line that is not whole yet, and for what is read behind it.
const BUFFER: usize = 8_192;

/// What was read.
#[derive(Clone, Copy, Debug, PartialEq, Eq)]
pub enum Next {
    /// A line. The last one may lack its line feed.
    Line,
    /// No line is left.
    End,
    /// A line that is too long, or with which the script is.
    TooLong,
}

/// Reads lines from an input. Pending bytes stand at `from..to` of the buffer, and the line that was read
/// last before them.
#[derive(Drop)]
pub struct LineReader {
    buffer: Vec<u8>,
    begin: usize,
    end: usize,
    from: usize,
    to: usize,
    room: usize,
    ghost line_ordered: { begin ≤ end },
    ghost line_inside: { end ≤ 8192 },
    ghost ordered: { from ≤ to },
    ghost inside: { to ≤ 8192 },
    ghost whole: { length buffer.items ≡ 8192 },
}

// Where the first line feed is.
fn line_feed_in(bytes: &[u8]) -> Option<usize>
    ensures { MatchOption result (has_line_feed bytes.now ≡ false)
        (IsFirstFeed bytes.now) }
{
    for (at, byte) in bytes.iter().enumerate() {
        if *byte == b'\n' {
            return Some(at);
        }
    }
    None
}

impl LineReader {
    ghost use Rattle.script_lines.specs.inside.LineView.{pieces_of};

    /// A reader that took nothing yet.
    pub fn new(alloc: Global) -> Result<LineReader, NoMemory>
        ensures { IfOk result (λ reader. pieces_of reader ≡ no_pieces) }
    {
        let buffer = vec![in alloc; 0; BUFFER]?;
        Ok(LineReader {
            buffer,
            begin: 0,
            end: 0,
            from: 0,
            to: 0,
            room: SCRIPT_LIMIT,
        })
    }

    /// The line that was read last, without its line feed.
    pub fn line(&self) -> &[u8]
        ensures { result.now ≡ (pieces_of self.now).line }
    {
        &self.buffer[self.begin..self.end]
    }

    fn pending(&self) -> &[u8]
        ensures { result.now ≡ (pieces_of self.now).pending }
    {
        &self.buffer[self.from..self.to]
    }

    // Gives a line of this length, which the pending bytes begin with, and passes over its line feed.
    fn give(&mut self, count: usize, feed: usize)
        requires pending { count + feed ≤ length (pieces_of self.old).pending }
        requires room { count + feed ≤ (pieces_of self.old).room }
        ensures { pieces_of self.new ≡ record {
          pending = drop (count + feed) (pieces_of self.old).pending;
          line = take count (pieces_of self.old).pending;
          room = (pieces_of self.old).room - (count + feed);
        } }
    {
        self.begin = self.from;
        self.end = self.from + count;
        self.from = self.end + feed;
        self.room -= count + feed;
    }

    // Moves the pending bytes to the buffer's beginning.
    fn make_room(&mut self)
        ensures pending { (pieces_of self.new).pending ≡ (pieces_of self.old).pending }
        ensures room { self.new.room ≡ self.old.room }
        ensures to { self.new.to ≡ length (pieces_of self.old).pending }
    {
        let count = self.to - self.from;
        self.buffer.copy_within(self.from..self.to, 0);
        self.from = 0;
        self.to = count;
    }

    // Reads behind the pending bytes.
    fn fill<I: Input>(&mut self, input: &mut I) -> Result<usize, Failed>
        requires { length (pieces_of self.old).pending < 8192 }
        ensures fills { Fills result (pieces_of self.old).pending (pieces_of self.new).pending
            (I.left input.old) (I.left input.new) }
        ensures cause { HasCause (I.faults input.old) (I.faults input.new) (IsErr result) }
        ensures room { self.new.room ≡ self.old.room }
    {
        self.make_room();
        let count = input.read(&mut self.buffer[self.to..])?;
        self.to += count;
        Ok(count)
    }

    /// Reads the next line. A line that is too long is found as soon as its bytes show it.
    pub fn next<I: Input>(&mut self, input: &mut I) -> Result<Next, Failed>
        ensures next { LineGives result (pieces_of self.new).line
            (lines_before (pieces_of self.old) (I.left input.old))
            (lines_before (pieces_of self.new) (I.left input.new)) }
        ensures cause { HasCause (I.faults input.old) (I.faults input.new) (IsErr result) }
        ensures room { result ≡ Ok Next.Line → self.new.room < self.old.room }
        ensures most { self.new.room ≤ self.old.room }
    {
        'pieces: loop {
            if let Some(count) = line_feed_in(self.pending()) {
                if count > LINE_LIMIT || count >= self.room {
                    return Ok(Next::TooLong);
                }
                self.give(count, 1);
                return Ok(Next::Line);
            }
            let count = self.to - self.from;
            if count > LINE_LIMIT || count > self.room {
                return Ok(Next::TooLong);
            }
            let read = self.fill(input)?;
            if read == 0 {
                return Ok(self.give_last());
            }
        }
    }

    // Gives what is pending as the last line, if anything is.
    fn give_last(&mut self) -> Next
        requires room { length (pieces_of self.old).pending ≤ (pieces_of self.old).room }
        ensures last { IsLast result
            (pieces_of self.old).pending (pieces_of self.new).line (pieces_of self.new).pending }
        ensures room { result ≡ Next.Line → self.new.room < self.old.room }
        ensures most { self.new.room ≤ self.old.room }
    {
        let count = self.to - self.from;
        if count == 0 {
            return Next::End;
        }
        self.give(count, 0);
        Next::Line
    }
}
