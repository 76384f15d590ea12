//! Draws random events of up to four seats for the engine's core, and prints them with what the core answers. A plain model
//! (bench/plain_engine.py) answers the same.
#![tactic(auto)]

ghost use Rattle.std.specs.Prelude.{◌<◌, ◌≤◌, OnOk};
ghost use Rattle.random_events.specs.Teams.{AreSeatsOf};

mod acts;
mod draws;
mod jobs;
mod loads;
mod runs;
mod seats;
mod texts;

use draws::Draws;
use engine_core::Core;
use faults::NoMemory;
use runs::{Sizes, Team, core_of, end, random_sizes, sizes_line};
use std::process::ExitCode;
use std::{env, io};

// Why the runs did not end.
enum RunFault {
    Memory,
    Output,
}

impl From<NoMemory> for RunFault {
    fn from(_fault: NoMemory) -> RunFault {
        RunFault::Memory
    }
}

impl From<io::Error> for RunFault {
    fn from(_error: io::Error) -> RunFault {
        RunFault::Output
    }
}

// Prints a line where it is wanted.
fn print_line(rt: &HostRuntime, line: &String, wanted: bool) -> io::Result<()> {
    if wanted {
        rt.println(line.as_str())?;
    }
    Ok(())
}

// One more of so many random events of the first so many seats, whose line is printed where each is wanted. It answers how
// many are left.
fn step(
    rt: &HostRuntime,
    core: &mut Core,
    team: &mut Team,
    seats: u64,
    draws: &mut Draws,
    left: u32,
    each: bool,
) -> Result<u32, RunFault>
    requires some { 0 < seats }
    requires few { seats ≤ 4 }
    requires team { AreSeatsOf core.old team.old }
    ensures { OnOk result (AreSeatsOf core.new team.new) }
{
    if left == 0 {
        return Ok(0);
    }
    let line = team.line(rt.alloc(), core, seats, draws)?;
    let is = !line.is_empty();
    print_line(rt, &line, each && is)?;
    Ok(if is { left - 1 } else { left })
}

// So many random events of the first so many seats, of five times as many draws at most.
fn events(
    rt: &HostRuntime,
    core: &mut Core,
    team: &mut Team,
    seats: u64,
    draws: &mut Draws,
    count: u32,
    each: bool,
) -> Result<(), RunFault>
    requires some { 0 < seats }
    requires few { seats ≤ 4 }
    requires team { AreSeatsOf core.old team.old }
    ensures { OnOk result (AreSeatsOf core.new team.new) }
{
    let mut left = count;
    'draws: for _ in 0..u64::from(count) * 5 {
        left = step(rt, core, team, seats, draws, left, each)?;
    }
    Ok(())
}

// The sizes of a core in a line, random events, and what it tells of itself at the end.
fn play(
    rt: &HostRuntime,
    core: &mut Core,
    team: &mut Team,
    sizes: Sizes,
    draws: &mut Draws,
    count: u32,
    each: bool,
) -> Result<(), RunFault>
    requires { AreSeatsOf core.old team.old }
{
    let alloc = rt.alloc();
    let seats = 1 + draws.below(4);
    let first = sizes_line(alloc, sizes)?;
    print_line(rt, &first, true)?;
    events(rt, core, team, seats, draws, count, each)?;
    let last = end(alloc, core, team)?;
    print_line(rt, &last, true)?;
    Ok(())
}

// Random events on a core of its own.
fn run(rt: &HostRuntime, draws: &mut Draws, count: u32, each: bool) -> Result<(), RunFault> {
    let sizes = random_sizes(draws);
    let mut team = Team::new(rt.alloc());
    match core_of(rt.alloc(), sizes) {
        Ok(core) => {
            let mut core = core;
            play(rt, &mut core, &mut team, sizes, draws, count, each)
        }
        Err(NoMemory) => Err(RunFault::Memory),
    }
}

// Fifty runs of 2,000 events, of one stream of draws.
fn run_all(rt: &HostRuntime, each: bool) -> Result<(), RunFault> {
    let mut draws = Draws::new(1);
    for _ in 0..50 {
        run(rt, &mut draws, 2_000, each)?;
    }
    Ok(())
}

// With any word each event is printed.
fn main(rt: HostRuntime) -> ExitCode {
    let each = match env::args(&rt) {
        Ok(args) => args.skip(1).count() > 0,
        Err(_) => false,
    };
    match run_all(&rt, each) {
        Ok(()) => ExitCode::SUCCESS,
        Err(RunFault::Memory) => ExitCode::from(4),
        Err(RunFault::Output) => ExitCode::from(6),
    }
}
