// A run of random events on one core.
ghost use Rattle.std.specs.Prelude.{◌≡◌, ◌+◌, ◌<◌, ◌≤◌, [], ◌∷◌, length, IfOk, OnOk};
ghost use Rattle.random_events.specs.Seats.{IsSeatOf, IsActOf};
ghost use Rattle.random_events.specs.Teams.{no_records, AreSeatsOf};
ghost use Rattle.random_events.specs.Events.{IsFree};

use crate::acts::act;
use crate::draws::Draws;
use crate::jobs::Work;
use crate::seats::Seat;
use crate::texts::write_reply;
use bitmap_kind::{Config, Rule, Transform};
use cache_key::{EngineKey, KeyRoom, LoadSpec, Priority, Strategy, Text};
use engine_core::{Core, Limits};
use engine_world::Event;
use faults::NoMemory;
use load_cause::Cause;
use outside::Told;
use std::alloc::{AllocError, Global};

// One of three urls, wanted at a width of 1 or 2.
fn random_key(alloc: Global, draws: &mut Draws) -> Result<EngineKey, NoMemory> {
    let letter = [b'a' + draws.below(3) as u8];
    Ok(EngineKey {
        url: Text::new(alloc, &letter)?,
        sig: Text::new(alloc, b"1")?,
        width: 1 + draws.below(2) as u32,
        height: 1,
        transform: Transform::Nothing,
        config: Config::Argb8888,
        rule: Rule::AtLeast,
    })
}

fn random_priority(draws: &mut Draws) -> Priority {
    match draws.below(4) {
        0 => Priority::Immediate,
        1 => Priority::High,
        2 => Priority::Normal,
        _ => Priority::Low,
    }
}

fn random_spec(alloc: Global, draws: &mut Draws) -> Result<LoadSpec, NoMemory> {
    Ok(LoadSpec {
        key: random_key(alloc, draws)?,
        strategy: Strategy::Automatic,
        priority: random_priority(draws),
        skip: draws.one_in(5),
        cached: draws.one_in(3),
    })
}

fn random_config(draws: &mut Draws) -> Config {
    match draws.below(4) {
        0 => Config::Rgb565,
        1 => Config::Alpha8,
        _ => Config::Argb8888,
    }
}

fn random_cause(draws: &mut Draws) -> Cause {
    match draws.below(4) {
        0 => Cause::Missing,
        1 => Cause::Source,
        2 => Cause::Memory,
        _ => Cause::Uncached,
    }
}

fn random_work(draws: &mut Draws) -> Work {
    match draws.below(16) {
        0..=5 => Work::Take(draws.below(16) as u32, random_config(draws)),
        6..=7 => Work::GiveBack(draws.one_in(2)),
        8..=11 => Work::Finish([
            draws.below(256) as u8,
            draws.below(256) as u8,
            draws.below(256) as u8,
            draws.below(256) as u8,
        ]),
        12 => Work::Fail(random_cause(draws)),
        13..=14 => Work::IsCancelled,
        _ => Work::Quit,
    }
}

// A new load of a seat.
fn begin_load(
    alloc: Global,
    core: &mut Core,
    who: u32,
    seat: &mut Seat,
    line: &mut String,
    draws: &mut Draws,
) -> Result<(), NoMemory>
    requires { IsSeatOf core.old who seat.old }
    ensures seat { OnOk result (IsSeatOf core.new who seat.new) }
    ensures acts { OnOk result (IsActOf who core.old core.new) }
{
    let spec = random_spec(alloc, draws)?;
    if seat.begun() < 1_000_000 {
        seat.load(core, who, line, spec)?;
    }
    Ok(())
}

// An event of one of a seat's loads, where it has one.
fn on_load(
    alloc: Global,
    core: &mut Core,
    who: u32,
    seat: &mut Seat,
    line: &mut String,
    draws: &mut Draws,
) -> Result<(), NoMemory>
    requires { IsSeatOf core.old who seat.old }
    ensures seat { OnOk result (IsSeatOf core.new who seat.new) }
    ensures acts { OnOk result (IsActOf who core.old core.new) }
{
    let count = seat.count();
    if count == 0 {
        return Ok(());
    }
    let place = draws.below(count as u64) as usize;
    match draws.below(9) {
        0..=2 => seat.collect(core, who, line, place),
        3 => seat.look(core, who, line, place),
        4..=5 => seat.read(core, who, line, place, draws.below(70) as usize),
        _ => seat.release(alloc, core, who, line, place),
    }
}

// An event of a seat's job, or its next job.
fn on_job(
    alloc: Global,
    core: &mut Core,
    who: u32,
    seat: &mut Seat,
    line: &mut String,
    draws: &mut Draws,
) -> Result<(), NoMemory>
    requires { IsSeatOf core.old who seat.old }
    ensures seat { OnOk result (IsSeatOf core.new who seat.new) }
    ensures acts { OnOk result (IsActOf who core.old core.new) }
{
    if seat.has_job() {
        seat.work(core, who, line, random_work(draws))
    } else {
        let room = KeyRoom::new(alloc)?;
        seat.next_job(core, who, line, room)
    }
}

// One of Android's levels, at the edges of what they do.
fn random_level(draws: &mut Draws) -> u32 {
    match draws.below(9) {
        0 => 0,
        1 => 5,
        2 => 14,
        3 => 15,
        4 => 16,
        5 => 19,
        6 => 20,
        7 => 39,
        _ => 40 + draws.below(50) as u32,
    }
}

// An event that every seat may make at any time.
fn random_call(draws: &mut Draws, line: &mut String, who: u32) -> Result<Event, NoMemory>
    ensures { IfOk result IsFree }
{
    if draws.one_in(150) {
        write!(line, "{who} Close: ")?;
        Ok(Event::Close)
    } else if draws.one_in(5) {
        let level = random_level(draws);
        write!(line, "{who} Trim {level}: ")?;
        Ok(Event::Trim(level))
    } else {
        write!(line, "{who} Totals: ")?;
        Ok(Event::Totals)
    }
}

fn call(
    core: &mut Core,
    who: u32,
    seat: &Seat,
    line: &mut String,
    draws: &mut Draws,
) -> Result<(), NoMemory>
    requires { IsSeatOf core.old who seat.now }
    ensures seat { OnOk result (IsSeatOf core.new who seat.now) }
    ensures acts { OnOk result (IsActOf who core.old core.new) }
{
    let _begun = seat.begun();
    let event = random_call(draws, line, who)?;
    let reply = act(core, who, event);
    write_reply(line, &reply)
}

/// An event of a seat, with what it was answered, in a line; or an empty line, where the seat may not make the event that
/// was drawn.
fn event(
    alloc: Global,
    core: &mut Core,
    who: u32,
    seat: &mut Seat,
    line: &mut String,
    draws: &mut Draws,
) -> Result<(), NoMemory>
    requires { IsSeatOf core.old who seat.old }
    ensures seat { OnOk result (IsSeatOf core.new who seat.new) }
    ensures acts { OnOk result (IsActOf who core.old core.new) }
{
    match draws.below(20) {
        0..=4 => begin_load(alloc, core, who, seat, line, draws),
        5..=10 => on_load(alloc, core, who, seat, line, draws),
        11..=18 => on_job(alloc, core, who, seat, line, draws),
        _ => call(core, who, seat, line, draws),
    }
}

/// The records of four seats.
#[derive(Drop)]
pub struct Team {
    first: Seat,
    second: Seat,
    third: Seat,
    fourth: Seat,
}

impl Team {
    /// Seats that made no event.
    pub fn new(alloc: Global) -> Team
        ensures { result ≡ no_records }
    {
        Team {
            first: Seat::new(alloc),
            second: Seat::new(alloc),
            third: Seat::new(alloc),
            fourth: Seat::new(alloc),
        }
    }

    // An event of one of the seats.
    fn event(
        &mut self,
        alloc: Global,
        core: &mut Core,
        who: u32,
        line: &mut String,
        draws: &mut Draws,
    ) -> Result<(), NoMemory>
        requires { AreSeatsOf core.old self.old }
        ensures { OnOk result (AreSeatsOf core.new self.new) }
    {
        match who {
            0 => event(alloc, core, 0, &mut self.first, line, draws),
            1 => event(alloc, core, 1, &mut self.second, line, draws),
            2 => event(alloc, core, 2, &mut self.third, line, draws),
            _ => event(alloc, core, 3, &mut self.fourth, line, draws),
        }
    }
}

impl Team {
    /// An event of one of the first so many seats, in a line; or an empty line, where the seat may not make the event that was
    /// drawn.
    pub fn line(
        &mut self,
        alloc: Global,
        core: &mut Core,
        seats: u64,
        draws: &mut Draws,
    ) -> Result<String, NoMemory>
        requires some { 0 < seats }
        requires few { seats ≤ 4 }
        requires team { AreSeatsOf core.old self.old }
        ensures { OnOk result (AreSeatsOf core.new self.new) }
    {
        let mut line = String::new(alloc);
        let who = draws.below(seats) as u32;
        self.event(alloc, core, who, &mut line, draws)?;
        Ok(line)
    }
}

/// The most bytes of pool and memory cache of a core, and the quotas of its seats.
#[derive(Clone, Copy)]
pub struct Sizes {
    pub pool: u64,
    pub memory: u64,
    pub first: u32,
    pub second: u32,
    pub third: u32,
    pub fourth: u32,
    ghost few: { first + second + third + fourth ≤ 100 },
}

/// Sizes of which many a core has too little.
pub fn random_sizes(draws: &mut Draws) -> Sizes {
    Sizes {
        pool: draws.below(300),
        memory: draws.below(300),
        first: draws.below(8) as u32,
        second: draws.below(8) as u32,
        third: draws.below(8) as u32,
        fourth: draws.below(8) as u32,
    }
}

fn quotas_of(alloc: Global, sizes: Sizes) -> Result<Vec<u32>, AllocError>
    ensures { IfOk result (λ quotas. quotas.items
        ≡ sizes.first ∷ sizes.second ∷ sizes.third ∷ sizes.fourth ∷ []) }
{
    Ok(vec![in alloc; sizes.first, sizes.second, sizes.third, sizes.fourth]?)
}

/// A core of these sizes.
pub fn core_of(alloc: Global, sizes: Sizes) -> Result<Core, NoMemory>
    ensures { IfOk result (λ core. AreSeatsOf core no_records) }
{
    let quotas = quotas_of(alloc, sizes)?;
    let limits = Limits::new(sizes.pool, sizes.memory, quotas);
    Core::new(alloc, limits, Told::nothing())
}

/// The thirteen numbers at the end of a run.
pub fn end(alloc: Global, core: &mut Core, team: &Team) -> Result<String, NoMemory>
    requires { AreSeatsOf core.old team.now }
{
    let _begun = team.first.begun();
    let mut line = String::new(alloc);
    let reply = act(core, 0, Event::Totals);
    write_reply(&mut line, &reply)?;
    Ok(line)
}

/// The sizes of a core, in a line.
pub fn sizes_line(alloc: Global, sizes: Sizes) -> Result<String, NoMemory> {
    let mut line = String::new(alloc);
    write!(line, "Core {} {} ", sizes.pool, sizes.memory)?;
    write!(line, "{} {} ", sizes.first, sizes.second)?;
    write!(line, "{} {}", sizes.third, sizes.fourth)?;
    Ok(line)
}

#[cfg(test)]
mod tests;
