// What holds of all histories. A function of this file does nothing: its contract is the law.
ghost use Rattle.std.specs.Prelude.{[]};
ghost use Rattle.state_machine.specs.Legal.{IsLegal};
ghost use Rattle.state_machine.specs.Laws.{HistoriesBegin, HistoriesEnd, HistoriesGrow, OwnEntriesAppend, StepsJoin, StepsPart};

use crate::machine::Machine;

/// A seat's own entries of two histories, one after the other, are those of the first and then those of the second.
pub fn own_entries_append<N>()
    ensures { OwnEntriesAppend N }
{}

/// Steps, one after the other, lead through a world between them, and the other way round.
pub fn steps_append<M: Machine>()
    ensures part { StepsPart M.Machine }
    ensures join { StepsJoin M.Machine }
{}

/// A history with no entry is legal, and leads nowhere else.
pub fn empty_histories_are_legal<M: Machine>()
    ensures { (world : M.World) → IsLegal M.Machine world [] world }
{}

/// A legal history stays legal with one entry more that may follow, and leads where that step leads.
pub fn legal_histories_grow<M: Machine>()
    ensures { HistoriesGrow M.Machine }
{}

/// What a legal history begins with is legal, and the rest leads on from there.
pub fn legal_histories_begin<M: Machine>()
    ensures { HistoriesBegin M.Machine }
{}

/// A legal history is empty, or ends with an entry that may follow a legal history.
pub fn legal_histories_end<M: Machine>()
    ensures { HistoriesEnd M.Machine }
{}
