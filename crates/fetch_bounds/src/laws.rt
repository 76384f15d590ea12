// The laws, each as the contract of a function that does nothing but call the laws that it follows from.
ghost use Rattle.engine_world.specs.declared.events.Event.{Event};
ghost use Rattle.fetch_bounds.specs.Answered.{OrdersAreTheTraces, EndsAreAnswered, LinesAreAnswered};
ghost use Rattle.fetch_bounds.specs.Parts.{TracesJoin};
ghost use Rattle.fetch_bounds.specs.OwnMarks.{RunsMarkThemselves};
ghost use Rattle.fetch_bounds.specs.FailureLaws.{FailuresGoOn, FailuresByEntry, SourceRunsAddUp, FailedLoadsWereFailed, EndsHaveFailures, MarkedBeginsFailed, RunsAreBegun};
ghost use Rattle.fetch_bounds.specs.Laws.{SharedLoadsStartNoJob, OpensFindable, KeepsFindable, KeepsAllRemembered, KeepsPictures, RunsAreBounded, FailedJobsSuffice};

use engine_world::{each_event_keeps_opening, each_event_keeps_sound, each_history_is_sound};
use script_walk::{begins_run_together, ends_decide_the_walk, traces_are_orderly};

/// A load of a picture that another load has, or waits for, starts no job, as long as all loads of its key ask memory and may
/// ask the source.
pub fn loads_are_shared()
    ensures shared { SharedLoadsStartNoJob }
    ensures opening { OpensFindable }
    ensures event { (event : Event) → KeepsFindable event }
{}

/// Where all pictures fit into the memory cache, one that is there stays there through each event but a trim.
pub fn pictures_stay_in_memory()
    ensures among { (event : Event) → KeepsAllRemembered event }
    ensures stay { (event : Event) → KeepsPictures event }
{
    each_event_keeps_opening();
}

/// A history that follows one part of a trace, and then one that follows the next part, follow both together.
pub fn followed_traces_join()
    ensures { TracesJoin }
{}

/// A history that follows a trace has its begins and trims as seat 0's loads and trims, in order, and what came to an end or
/// was printed was answered so.
pub fn followed_traces_are_answered()
    ensures orders { OrdersAreTheTraces }
    ensures ends { EndsAreAnswered }
    ensures lines { LinesAreAnswered }
{}

/// A run starts no more jobs than its walk has starts, besides those for begins that ask the caches alone. The jobs that may
/// ask their source, and those of them that are run, are no more than the starts. Each begin is a load, and none is left.
pub fn runs_are_bounded<M, R>()
    ensures { RunsAreBounded M R }
{
    each_event_keeps_sound();
    each_event_keeps_opening();
    each_history_is_sound::<M, R>();
    traces_are_orderly();
}

/// Begins that failed by their source need no more failed fetches than jobs failed so, of each url and signature.
pub fn failed_jobs_suffice<M, R>()
    ensures { FailedJobsSuffice M R }
{
    each_event_keeps_sound();
    each_event_keeps_opening();
    each_history_is_sound::<M, R>();
    traces_are_orderly();
    begins_run_together();
}

/// A run whose pictures are right is the content's walk under marks of its own: each of its failures that no content gives is
/// marked, and a begin is marked only where its load failed for the cause of its mark.
pub fn runs_mark_themselves<M, R>()
    ensures { RunsMarkThemselves M R }
{
    each_event_keeps_sound();
    each_event_keeps_opening();
    each_history_is_sound::<M, R>();
    traces_are_orderly();
    ends_decide_the_walk();
}

/// The failed jobs of a history, in order, are the first ones of each longer history, and one entry more adds the job that it
/// fails. Runs of jobs that may ask their source add up.
pub fn failures_add_up()
    ensures longer { FailuresGoOn }
    ensures entry { FailuresByEntry }
    ensures runs { SourceRunsAddUp }
{}

/// In a legal history a load that has failed waited for a job of its key and kind that failed for its cause; the content may be
/// known or not. The kind says whether the caches alone were asked.
pub fn failed_loads_were_failed<M, R>()
    ensures { FailedLoadsWereFailed M R }
{
    each_event_keeps_sound();
    each_event_keeps_opening();
    each_history_is_sound::<M, R>();
}

/// In a legal history that follows a trace, each begin that came to its end without a picture has a failed job of its key, kind
/// and cause; the content may be known or not.
pub fn ends_have_failures<M, R>()
    ensures { EndsHaveFailures M R }
{
    each_event_keeps_sound();
    each_event_keeps_opening();
    each_history_is_sound::<M, R>();
}

/// Where begins are marked only for failures of their loads, each begin with a mark has a failed job of its key and kind, whose
/// cause is the mark's. With `runs_mark_themselves`: no begin is marked for want of memory unless a job failed so, and none as
/// uncached or failed by its source unless a job of its kind did.
pub fn marked_begins_failed<M, R>()
    ensures { MarkedBeginsFailed M R }
{
    each_event_keeps_sound();
    each_event_keeps_opening();
    each_history_is_sound::<M, R>();
    traces_are_orderly();
}

/// In a legal history that follows a trace, jobs that may ask their source are run no more often than begins are made; the
/// content may be known or not.
pub fn runs_are_begun<M, R>()
    ensures { RunsAreBegun M R }
{
    each_event_keeps_sound();
    each_event_keeps_opening();
    each_history_is_sound::<M, R>();
}
