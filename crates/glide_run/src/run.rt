// How a command went, and how a run ends.
ghost use Rattle.std.specs.Prelude.{◌≡◌, ◌||◌};

use faults::NoMemory;
use outside::WriteFault;

/// What went wrong in some commands, besides that they were obeyed.
#[derive(Clone, Copy, Debug, PartialEq, Eq)]
pub struct Troubles {
    /// Whether a printed line says that a view failed.
    pub failing: bool,
    /// Whether a job failed for want of memory.
    pub wanting: bool,
}

impl Troubles {
    /// Those of some commands and of others.
    pub fn and(self, more: Troubles) -> Troubles
        ensures { result ≡ record {
          failing = self.failing || more.failing;
          wanting = self.wanting || more.wanting;
        } }
    {
        Troubles {
            failing: self.failing || more.failing,
            wanting: self.wanting || more.wanting,
        }
    }
}

/// How a command went.
#[derive(Clone, Copy, Debug, PartialEq, Eq)]
pub enum Obeyed {
    /// It was obeyed, and this went wrong.
    Done(Troubles),
    /// It asks for what cannot be done.
    Bad,
}

/// Why a run stops before its script's end.
#[derive(Clone, Copy, Debug, PartialEq, Eq)]
pub enum Stop {
    Memory,
    Input,
    Write,
}

impl From<NoMemory> for Stop {
    ghost use Rattle.std.specs.Prelude.{◌≡◌};
    ghost use Rattle.glide_run.specs.declared.run.Stop.TheVariants.{Memory};

    ghost from_gives = { λ _ stop. stop ≡ Memory };

    fn from(_error: NoMemory) -> Stop {
        Stop::Memory
    }
}

impl From<WriteFault> for Stop {
    ghost use Rattle.std.specs.Prelude.{◌≡◌};
    ghost use Rattle.glide_run.specs.inside.Stops.{stop_of_write};

    ghost from_gives = { λ fault stop. stop ≡ stop_of_write fault };

    fn from(fault: WriteFault) -> Stop {
        match fault {
            WriteFault::Failed => Stop::Write,
            WriteFault::Memory => Stop::Memory,
        }
    }
}

/// How a script ended.
#[derive(Clone, Copy, Debug, PartialEq, Eq)]
pub struct Ended {
    /// The number of the line that is bad, if one is.
    pub bad: Option<u64>,
    /// What went wrong in the lines before.
    pub troubles: Troubles,
}
