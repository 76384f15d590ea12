// The top call.
ghost use Rattle.std.specs.Prelude.{◌≡◌, ◌≤◌, [], true, map, IfOk, IfSome, IfNone, Some};
ghost use Rattle.outside.specs.Causes.{HasCause};
ghost use Rattle.printed_lines.specs.Writes.{Writes};
ghost use Rattle.engine_world.specs.World.{opening};
ghost use Rattle.glide_run.specs.Settings.{settings};
ghost use Rattle.glide_run.specs.Stats.{ending_text};
ghost use Rattle.glide_run.specs.Handed.{handed, meanings, IsWritten, IsFlushed};
ghost use Rattle.glide_run.specs.Promise.{IsOrStops, IsRun, IsComplete, IsRefused, IsStatus, usage_text, limits_of};
ghost use Rattle.engine_views.specs.Owner.{HasJust};
ghost use Rattle.glide_run.specs.inside.Stops.{ended_status};
ghost use Rattle.glide_run.specs.inside.Running.{IsFresh, core_in, IsClosed};

use crate::laws::runs_are_walks;
use crate::run::{Ended, Stop};
use crate::settings::Settings;
use crate::stats::Stats;
use crate::walks::obey_script;
use engine_core::{Core, Limits};
use engine_shared::{Alone, EngineCalls};
use engine_views::quiet_calls_leave_views;
use engine_world::Totals;
use faults::NoMemory;
use fetch_bounds::failures_add_up;
use outside::{Input, Sink, Source, Told, WriteFault};
use printed_lines::{write_all, write_bad_line};
use std::alloc::Global;

/// How a run ended.
#[derive(Drop)]
pub struct Ending<F> {
    /// The exit status, 0 to 6.
    pub status: u8,
    /// The files, as they were handed in.
    pub files: F,
    /// The engine that the run used, after its end. None comes where the words were refused, or where want of memory came
    /// before the engine was made.
    pub engine: Option<Core>,
}

// Flushes what was written, and answers the status, or that of a fault in its place.
fn flush<W: Sink>(out: &mut W, status: u8) -> u8
    requires { status ≤ 3 }
    ensures status { IsOrStops status result }
    ensures kept { W.written out.new ≡ W.written out.old }
    ensures flushed { result ≤ 3 → IsFlushed W.Sink out.new }
    ensures cause { HasCause (W.faults out.old) (W.faults out.new) (result ≡ 6) }
{
    match out.flush() {
        Err(WriteFault::Failed) => 6,
        Err(WriteFault::Memory) => 4,
        Ok(()) => status,
    }
}

// The status of a script that ended.
fn status_of(ended: &Ended) -> u8
    ensures { result ≡ ended_status ended.now }
{
    if ended.bad.is_some() {
        return 3;
    }
    u8::from(ended.troubles.failing)
}

// Writes the number of the bad line, if one is, or else the totals, where the words ask for them.
fn write_ending<W: Sink>(
    alloc: Global,
    settings: &Settings,
    out: &mut W,
    bad: Option<u64>,
    stats: &Stats,
) -> Result<(), WriteFault>
    ensures { Writes W.Sink out.old out.new (ending_text settings.now bad stats.now) result }
{
    if let Some(number) = bad {
        return write_bad_line(alloc, out, number);
    }
    if settings.stats {
        let text = stats.text(alloc)?;
        return write_all(out, &text);
    }
    Ok(())
}

// Writes what comes last, and answers the status. Where a job failed for want of memory, that is told in place of all else.
fn end<W: Sink>(alloc: Global, settings: &Settings, out: &mut W, ended: Ended, stats: &Stats) -> u8
    ensures status { IsOrStops (ended_status ended) result }
    ensures memory { ended.troubles.wanting ≡ true → result ≡ 4 }
    ensures bytes { IsWritten W.Sink out.old out.new
        (ending_text settings.now ended.bad stats.now) (result ≤ 3) }
    ensures flushed { result ≤ 3 → IsFlushed W.Sink out.new }
    ensures cause { HasCause (W.faults out.old) (W.faults out.new) (result ≡ 6) }
{
    if ended.troubles.wanting {
        return 4;
    }
    match write_ending(alloc, settings, out, ended.bad, stats) {
        Err(WriteFault::Failed) => 6,
        Err(WriteFault::Memory) => 4,
        Ok(()) => flush(out, status_of(&ended)),
    }
}

// Refuses words.
fn refuse<W: Sink>(out: &mut W) -> u8
    ensures status { IsOrStops 2 result }
    ensures bytes { IsWritten W.Sink out.old out.new usage_text (result ≤ 3) }
    ensures flushed { result ≤ 3 → IsFlushed W.Sink out.new }
    ensures cause { HasCause (W.faults out.old) (W.faults out.new) (result ≡ 6) }
{
    match write_all(out, b"glide: bad usage\n") {
        Err(WriteFault::Failed) => 6,
        Err(WriteFault::Memory) => 4,
        Ok(()) => flush(out, 2),
    }
}

// The engine's core, with nothing done yet: it has one seat, which may have a load for each view.
fn core_of<S: Source>(alloc: Global, settings: &Settings, source: &S) -> Result<Core, NoMemory>
    ensures { IfOk result (λ core. core ≡ record {
      world = opening (limits_of settings.now) (S.content source.now);
      history = [];
    }) }
{
    let mut quotas = Vec::new(alloc);
    quotas.extend_from_slice(&[4_096])?;
    let limits = Limits::new(settings.pool, settings.memory, quotas);
    Core::new(alloc, limits, Told::by(source))
}

// Closes an engine of which nothing is held any more, and answers its totals.
fn close<E: EngineCalls>(engine: &mut E) -> Totals
    requires { HasJust (E.caller engine.old) [] }
    ensures { IsClosed result (E.caller engine.old) (E.caller engine.new) }
{
    quiet_calls_leave_views();
    failures_add_up();
    engine.close();
    engine.totals()
}

// Obeys the script that is read on an engine, writes what comes last, and answers the status.
fn run_on<E: EngineCalls, S: Source, I: Input, W: Sink>(
    alloc: Global,
    settings: &Settings,
    engine: &mut E,
    input: &mut I,
    out: &mut W,
    source: &mut S,
) -> u8
    requires fresh { IsFresh (E.caller engine.old) }
    requires opens { (E.caller engine.old).world ≡ opening (limits_of settings.now) (S.content source.old) }
    ensures run { IsRun (meanings I.Input W.Sink S.Source) settings.now result
        (Some (core_in (E.caller engine.new)))
        (handed input.old out.old source.old) (handed input.new out.new source.new) }
    ensures complete { IsComplete (meanings I.Input W.Sink S.Source) settings.now result
        (handed input.old out.old source.old) (handed input.new out.new source.new) }
    ensures status { IsStatus (meanings I.Input W.Sink S.Source) (Some settings.now) result
        (handed input.old out.old source.old) (handed input.new out.new source.new) }
{
    runs_are_walks();
    let fetched = source.fetches();
    let result = obey_script(alloc, engine, input, out, source);
    let stats = Stats {
        totals: close(engine),
        fetches: source.fetches().saturating_sub(fetched),
    };
    match result {
        Ok(ended) => end(alloc, settings, out, ended, &stats),
        Err(Stop::Memory) => 4,
        Err(Stop::Input) => 5,
        Err(Stop::Write) => 6,
    }
}

// Obeys the script that is read on an engine of its own, and answers the status and the engine.
fn run<S: Source, I: Input, W: Sink>(
    alloc: Global,
    settings: &Settings,
    input: &mut I,
    out: &mut W,
    source: &mut S,
) -> (u8, Option<Core>)
    ensures run { IsRun (meanings I.Input W.Sink S.Source) settings.now result.0 result.1
        (handed input.old out.old source.old) (handed input.new out.new source.new) }
    ensures complete { IsComplete (meanings I.Input W.Sink S.Source) settings.now result.0
        (handed input.old out.old source.old) (handed input.new out.new source.new) }
    ensures status { IsStatus (meanings I.Input W.Sink S.Source) (Some settings.now) result.0
        (handed input.old out.old source.old) (handed input.new out.new source.new) }
{
    let Ok(core) = core_of(alloc, settings, source) else {
        return (4, None);
    };
    let mut engine = Alone::new(core);
    let status = run_on(alloc, settings, &mut engine, input, out, source);
    (status, Some(engine.into_core()))
}

/// Obeys a script of views, and prints what each of them shows.
///
/// The words are those after the program's name: `--pool` and `--memory`, each with a number of bytes, and `--stats`; any
/// others are refused with status 2. The script is read from the input command by command, and each is obeyed when it is
/// read. Loads are an engine's: it shares the decode of loads of one picture, remembers what was shown, and uses the memory
/// of pixels again. Its jobs are run when a line gathers them, and fetch from the source. At the end, however it comes, all
/// views are cleared and the engine is closed. Nothing is done with the files. The call waits for nobody and returns where
/// the calls of what it was handed return. The rules of the script and the printed lines are this project's own
/// (docs/SCRIPT.md).
pub fn glide_alone<S: Source, F, I: Input, W: Sink>(
    alloc: Global,
    words: &[&str],
    input: &mut I,
    out: &mut W,
    source: &mut S,
    files: F,
) -> Ending<F>
    ensures refused { IfNone (settings (map (λ word. word.now) words.now))
        (IsRefused (meanings I.Input W.Sink S.Source) result.status result.engine
        (handed input.old out.old source.old) (handed input.new out.new source.new)) }
    ensures run { IfSome (settings (map (λ word. word.now) words.now))
        (λ asked. IsRun (meanings I.Input W.Sink S.Source) asked result.status result.engine
        (handed input.old out.old source.old) (handed input.new out.new source.new)) }
    ensures complete { IfSome (settings (map (λ word. word.now) words.now))
        (λ asked. IsComplete (meanings I.Input W.Sink S.Source) asked result.status
        (handed input.old out.old source.old) (handed input.new out.new source.new)) }
    ensures status { IsStatus (meanings I.Input W.Sink S.Source) (settings (map (λ word. word.now) words.now))
        result.status (handed input.old out.old source.old) (handed input.new out.new source.new) }
    ensures files { result.files ≡ files }
{
    let Some(settings) = Settings::of_words(words) else {
        return Ending {
            status: refuse(out),
            files,
            engine: None,
        };
    };
    let (status, engine) = run(alloc, &settings, input, out, source);
    Ending {
        status,
        files,
        engine,
    }
}
