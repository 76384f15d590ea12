// Reads a script command by command.
ghost use Rattle.std.specs.Prelude.{◌≡◌, ◌<◌, ◌≤◌, ◌+◌, ℕ, List, IfOk, IfSome, IsErrOf, length};
ghost use Rattle.std.specs.declared.option.Option.{Option};
ghost use Rattle.std.specs.Option.{option_map};
ghost use Rattle.outside.specs.Causes.{HasCause};
ghost use Rattle.script_lines.specs.Commands.{IsCommand};
ghost use Rattle.script_lines.specs.Script.{script_of};
ghost use Rattle.script_lines.specs.Reading.{at_start, ahead, NextGives, LineRises, IsWithin};

use crate::commands::{Command, Line, ScriptFault};
use crate::lines::line_of;
use crate::pieces::{LineReader, Next};
use faults::NoMemory;
use outside::Input;
use std::alloc::Global;
use std::marker::Model;

/// Reads a script command by command from an input, in whatever pieces it comes. Contracts see the bytes that
/// it took and did not give yet, how many bytes the script may still have, how many lines it gave, and the
/// number of the last command's line.
#[derive(Drop)]
pub struct ScriptReader {
    pieces: LineReader,
    lines: u64,
    line: u64,
}

impl Model for ScriptReader {
    ghost use Rattle.script_lines.specs.Reading.{Reader, IsWithin};
    ghost use Rattle.script_lines.specs.inside.LineView.{reader_of};

    ghost Value = { Reader };

    ghost view = { λ s. reader_of s.pieces s.lines s.line };

    ghost invariant = { λ s. IsWithin (reader_of s.pieces s.lines s.line) };
}

impl ScriptReader {
    /// A reader at the beginning of a script.
    pub fn new(alloc: Global) -> Result<ScriptReader, NoMemory>
        ensures start { IfOk result (λ reader. reader ≡ at_start) }
        ensures script { IfOk result (λ reader. (left : Option (List ℕ)) →
            ahead reader left ≡ option_map script_of left) }
    {
        Ok(ScriptReader {
            pieces: LineReader::new(alloc)?,
            lines: 0,
            line: 0,
        })
    }

    /// The next command of the script. None comes at its end, and `Bad` at the first line that is bad, with
    /// its number; `Input` comes only where the input failed, and counted it. A call that was refused has taken
    /// from the input what it read, and no later answer is promised.
    pub fn next<I: Input>(
        &mut self,
        alloc: Global,
        input: &mut I,
    ) -> Result<Option<Command>, ScriptFault>
        ensures gives { NextGives result self.new.line
            (ahead self.old (I.left input.old)) (ahead self.new (I.left input.new)) }
        ensures cause { HasCause (I.faults input.old) (I.faults input.new)
            (IsErrOf result ScriptFault.Input) }
        ensures kept { IfOk result (λ given. IfSome given IsCommand) }
        ensures line { IfOk result (λ given. LineRises given self.old.line self.new.line) }
        ensures room { IfOk result (λ given. IfSome given (λ command. self.new.room < self.old.room)) }
    {
        'lines: loop {
            match self.pieces.next(input)? {
                Next::End => return Ok(None),
                Next::TooLong => return Err(ScriptFault::Bad(self.lines + 1)),
                Next::Line => self.lines += 1,
            }
            match line_of(alloc, self.pieces.line())? {
                Line::Empty => {}
                Line::Unreadable => return Err(ScriptFault::Bad(self.lines)),
                Line::Says(command) => {
                    self.line = self.lines;
                    return Ok(Some(command));
                }
            }
        }
    }

    /// The number of the line that gave the last command, from 1, and 0 before the first command.
    pub fn line(&self) -> u64
        ensures { result ≡ self.now.line }
    {
        self.line
    }
}
