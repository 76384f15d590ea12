// The laws of the walk, each as the contract of a function that does nothing.
ghost use Rattle.script_walk.specs.Laws.{NoMarksNoFailures, EndsDecide, TracesAreOrderly, EndsAreBegun, StopsAtBadCommand, WalksGoOn, RunsAreWalks, EndsAtNextGather, BlamesAreEnds, NoneCached};
ghost use Rattle.script_walk.specs.Tracked.{TrackerMakesTheMoves};
ghost use Rattle.script_walk.specs.ByPlace.{MovesGoByPlace};
ghost use Rattle.script_walk.specs.Together.{BeginsRunTogether};

/// Without marks a walk shows what each key comes to.
pub fn no_marks_no_failures()
    ensures { NoMarksNoFailures }
{}

/// Two outcomes that agree on each begin that came to its end make one walk.
pub fn ends_decide_the_walk()
    ensures { EndsDecide }
{}

/// Begins are numbered in order and end with the script, each is dropped once, and no more than 4,096 are there at a time.
pub fn traces_are_orderly()
    ensures { TracesAreOrderly }
{}

/// No more begins come to their ends than are made.
pub fn no_more_ends_than_begins()
    ensures { EndsAreBegun }
{}

/// A walk stops just at the first command that cannot be obeyed, and is that of the commands before it.
pub fn walks_stop_at_the_first_bad_command()
    ensures { StopsAtBadCommand }
{}

/// Where each of some commands can be obeyed, a walk goes on behind them from where they leave it.
pub fn walks_go_on()
    ensures { WalksGoOn }
{}

/// A run whose begins came to what their keys do, or failed for a cause that a mark may stand for, is the walk under some
/// marks. Each mark stands for such a failure of its own begin.
pub fn runs_are_marked_walks()
    ensures { RunsAreWalks }
{}

/// At a stage whose views have distinct names a command makes of the walk's views what the tracker's moves make of its own,
/// and can be obeyed just where the tracker's call can. The names stay distinct.
pub fn a_tracker_makes_the_moves()
    ensures { TrackerMakesTheMoves }
{}

/// A move of all views is one of the view at each place in turn, and a move of one view is one of the view at its place.
pub fn moves_go_by_place()
    ensures { MovesGoByPlace }
{}

/// A begin that comes to its end does so at the first gather after it, and comes to what the outcome says.
pub fn begins_end_at_the_next_gather()
    ensures { EndsAtNextGather }
{}

/// No line blames the source unless a begin came to that end.
pub fn blamed_sources_failed()
    ensures { BlamesAreEnds }
{}

/// A begin says `cached` only where a load does.
pub fn begins_are_cached_by_loads()
    ensures { NoneCached }
{}

/// The begins of a walk that run at the same time were made after the same gather.
pub fn begins_run_together()
    ensures { BeginsRunTogether }
{}
