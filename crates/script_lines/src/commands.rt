// What a script asks for.
ghost use Rattle.std.specs.Prelude.{◌≡◌};

use cache_key::{LoadSpec, Text};
use faults::NoMemory;
use outside::Failed;
use std::alloc::AllocError;
use thiserror::Error;

/// What a line of a script asks for. A text is the name of a view: 1 to 32 letters, digits, `_`, `-` and `.`.
#[derive(Drop)]
pub enum Command {
    /// A load begins in the view, which is new or known. The last says whether the line names a size; where
    /// it names none, both sides of the key are 1.
    Load(Text, LoadSpec, bool),
    /// The view has this width and height, in pixels, each 1 to 16,384.
    Layout(Text, u32, u32),
    /// The view is cleared.
    Clear(Text),
    /// All views are cleared.
    ClearAll,
    /// Loads that run or wait are paused.
    Pause,
    /// Loads that run, wait or are complete are paused.
    PauseAll,
    /// Loads that are paused or have failed begin again.
    Resume,
    /// Memory is trimmed at this level, 0 to 1,000.
    Trim(u32),
    /// Every load that runs is brought to its end.
    Wait,
    /// The same, and then each view is printed.
    Show,
    /// The same, and then the view's pixels are printed.
    Dump(Text),
}

/// What a line says.
#[derive(Drop)]
pub enum Line {
    /// Nothing: the line is empty, or a comment.
    Empty,
    /// The line is none of the forms, or too long.
    Unreadable,
    Says(Command),
}

/// Why no command was read.
#[derive(Clone, Copy, Debug, PartialEq, Eq, Error)]
pub enum ScriptFault {
    /// The input failed, which it counts.
    #[error("the script cannot be read")]
    Input,
    /// The line of this number, from 1, is bad.
    #[error("line {0} is no line of a script")]
    Bad(u64),
    /// Want of memory.
    #[error("out of memory")]
    Memory,
}

impl From<Failed> for ScriptFault {
    ghost use Rattle.script_lines.specs.declared.commands.ScriptFault.TheVariants.{Input};

    ghost from_gives = { λ _ fault. fault ≡ Input };

    fn from(_error: Failed) -> ScriptFault {
        ScriptFault::Input
    }
}

impl From<NoMemory> for ScriptFault {
    ghost use Rattle.script_lines.specs.declared.commands.ScriptFault.TheVariants.{Memory};

    ghost from_gives = { λ _ fault. fault ≡ Memory };

    fn from(_error: NoMemory) -> ScriptFault {
        ScriptFault::Memory
    }
}

impl From<AllocError> for ScriptFault {
    ghost use Rattle.script_lines.specs.declared.commands.ScriptFault.TheVariants.{Memory};

    ghost from_gives = { λ _ fault. fault ≡ Memory };

    fn from(_error: AllocError) -> ScriptFault {
        ScriptFault::Memory
    }
}
