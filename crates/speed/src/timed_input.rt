// A script that times a part of itself.
ghost use Rattle.std.specs.Prelude.{◌<◌, ◌≤◌, length, None};

use outside::{Failed, Input};
use std::rt::Runtime;
use std::time::Instant;

/// A script in two parts. A reader that asks for more has obeyed all lines before, so the time from the first call behind the first
/// part to the call that finds the end is that of the second part.
#[derive(Drop)]
pub struct TimedInput<'a, R: Runtime> {
    rt: &'a R,
    parts: [&'a [u8]; 2],
    start: Option<Instant>,
    micros: Option<u64>,
}

// The microseconds since then.
fn micros_since(rt: &impl Runtime, start: Instant) -> Option<u64> {
    let spent = start.elapsed(rt).ok()?;
    u64::try_from(spent.as_micros()).ok()
}

impl<'a, R: Runtime> TimedInput<'a, R> {
    /// A script of these two parts.
    pub fn new(rt: &'a R, first: &'a [u8], second: &'a [u8]) -> TimedInput<'a, R> {
        TimedInput {
            rt,
            parts: [first, second],
            start: None,
            micros: None,
        }
    }

    /// How long the second part took, in microseconds, where it was read to its end.
    pub fn micros(&self) -> Option<u64> {
        self.micros
    }

    // The second part begins.
    fn begin(&mut self) {
        if self.start.is_none() {
            self.start = Instant::now(self.rt).ok();
        }
    }

    // The second part has ended.
    fn end(&mut self) {
        if let Some(start) = self.start {
            self.micros = micros_since(self.rt, start);
        }
    }
}

// Moves the front of what is left to the beginning of a slice, and answers how many bytes that is.
fn take_front(left: &mut &[u8], into: &mut [u8]) -> usize
    requires { 0 < length into.old }
    ensures { result ≤ length into.new }
{
    let count = into.len().min(left.len());
    let (front, rest) = left.split_at(count);
    into[..count].copy_from_slice(front);
    *left = rest;
    count
}

impl<'a, R: Runtime> Input for TimedInput<'a, R> {
    ghost left = { λ _. None };

    ghost faults = { λ _. 0 };

    fn read(&mut self, into: &mut [u8]) -> Result<usize, Failed> {
        let count = take_front(&mut self.parts[0], into);
        if count > 0 {
            return Ok(count);
        }
        self.begin();
        let count = take_front(&mut self.parts[1], into);
        if count == 0 {
            self.end();
        }
        Ok(count)
    }
}
