// A worked row on the core: a resource that another of its key replaces, by loads of both kinds.
ghost use Rattle.std.specs.Prelude.{OnOk};
ghost use Rattle.random_events.specs.Seats.{IsSeatOf, IsActOf};
ghost use Rattle.random_events.specs.Teams.{AreSeatsOf};

use super::{Sizes, Team, core_of};
use crate::acts::act;
use crate::jobs::Work;
use crate::seats::Seat;
use crate::texts::write_reply;
use bitmap_kind::{Config, Rule, Transform};
use cache_key::{EngineKey, KeyRoom, LoadSpec, Priority, Strategy, Text};
use engine_core::Core;
use engine_world::Event;
use faults::NoMemory;
use std::alloc::Global;
use std::test::Fail;

// An event of a seat. A load is given by its place among those that the seat has not released.
#[derive(Drop)]
enum Step {
    Load(LoadSpec),
    Read(usize),
    Release(usize),
    NextJob(KeyRoom),
    Work(Work),
    Totals,
}

// The picture of one key, from the caches alone or not.
fn wanted(alloc: Global, cached: bool) -> Result<Step, NoMemory> {
    let key = EngineKey {
        url: Text::new(alloc, b"k")?,
        sig: Text::new(alloc, b"1")?,
        width: 1,
        height: 1,
        transform: Transform::Nothing,
        config: Config::Argb8888,
        rule: Rule::AtLeast,
    };
    Ok(Step::Load(LoadSpec {
        key,
        strategy: Strategy::Automatic,
        priority: Priority::Normal,
        skip: false,
        cached,
    }))
}

fn next(alloc: Global) -> Result<Step, NoMemory> {
    Ok(Step::NextJob(KeyRoom::new(alloc)?))
}

fn totals(core: &mut Core, who: u32, seat: &Seat, log: &mut String) -> Result<(), NoMemory>
    requires { IsSeatOf core.old who seat.now }
    ensures seat { OnOk result (IsSeatOf core.new who seat.now) }
    ensures acts { OnOk result (IsActOf who core.old core.new) }
{
    let _begun = seat.begun();
    write!(log, "{who} Totals: ")?;
    let reply = act(core, who, Event::Totals);
    write_reply(log, &reply)
}

fn make_event(
    alloc: Global,
    core: &mut Core,
    who: u32,
    seat: &mut Seat,
    log: &mut String,
    step: Step,
) -> Result<(), NoMemory>
    requires { IsSeatOf core.old who seat.old }
    ensures seat { OnOk result (IsSeatOf core.new who seat.new) }
    ensures acts { OnOk result (IsActOf who core.old core.new) }
{
    let count = seat.count();
    match step {
        Step::Load(spec) if seat.begun() < 100 => seat.load(core, who, log, spec),
        Step::Read(place) if place < count => seat.read(core, who, log, place, 0),
        Step::Release(place) if place < count => seat.release(alloc, core, who, log, place),
        Step::NextJob(room) => seat.next_job(core, who, log, room),
        Step::Work(work) => seat.work(core, who, log, work),
        _ => totals(core, who, seat, log),
    }
}

impl Team {
    // An event of one of the seats.
    fn play(
        &mut self,
        alloc: Global,
        core: &mut Core,
        who: u32,
        log: &mut String,
        step: Step,
    ) -> Result<(), NoMemory>
        requires { AreSeatsOf core.old self.old }
        ensures { OnOk result (AreSeatsOf core.new self.new) }
    {
        match who {
            0 => make_event(alloc, core, 0, &mut self.first, log, step),
            1 => make_event(alloc, core, 1, &mut self.second, log, step),
            _ => make_event(alloc, core, 2, &mut self.third, log, step),
        }
    }

    // The same, in a line.
    fn step(
        &mut self,
        alloc: Global,
        core: &mut Core,
        who: u32,
        log: &mut String,
        step: Step,
    ) -> Result<(), NoMemory>
        requires { AreSeatsOf core.old self.old }
        ensures { OnOk result (AreSeatsOf core.new self.new) }
    {
        self.play(alloc, core, who, log, step)?;
        log.push_str("\n")?;
        Ok(())
    }
}

// Seats 1 and 2 run the jobs of two loads of seat 0, and each finishes with a picture of its own.
fn both_kinds_run(
    alloc: Global,
    core: &mut Core,
    team: &mut Team,
    log: &mut String,
) -> Result<(), NoMemory>
    requires { AreSeatsOf core.old team.old }
    ensures { OnOk result (AreSeatsOf core.new team.new) }
{
    team.step(alloc, core, 0, log, wanted(alloc, false)?)?;
    team.step(alloc, core, 0, log, wanted(alloc, true)?)?;
    team.step(alloc, core, 1, log, next(alloc)?)?;
    team.step(alloc, core, 2, log, next(alloc)?)?;
    let take = Work::Take(0, Config::Argb8888);
    team.step(alloc, core, 1, log, Step::Work(take))?;
    team.step(alloc, core, 2, log, Step::Work(take))?;
    team.step(alloc, core, 1, log, Step::Work(Work::Finish([10; 4])))?;
    team.step(alloc, core, 2, log, Step::Work(Work::Finish([20; 4])))?;
    team.step(alloc, core, 0, log, Step::Totals)
}

// The loads are released, and between that others of the key are made.
fn holds_go(
    alloc: Global,
    core: &mut Core,
    team: &mut Team,
    log: &mut String,
) -> Result<(), NoMemory>
    requires { AreSeatsOf core.old team.old }
    ensures { OnOk result (AreSeatsOf core.new team.new) }
{
    team.step(alloc, core, 0, log, Step::Release(0))?;
    team.step(alloc, core, 0, log, Step::Totals)?;
    team.step(alloc, core, 0, log, wanted(alloc, false)?)?;
    team.step(alloc, core, 0, log, Step::Read(1))?;
    team.step(alloc, core, 0, log, Step::Release(0))?;
    team.step(alloc, core, 0, log, Step::Release(0))?;
    team.step(alloc, core, 0, log, Step::Totals)?;
    team.step(alloc, core, 0, log, wanted(alloc, false)?)?;
    team.step(alloc, core, 0, log, Step::Read(0))
}

// After the second `Finish` resource 1 is active, so the third load is ready on it. Resource 0 went to the memory cache with
// the first release; when 1 goes there too, 0 leaves it for the pool, and the last load shows 1 again.
#[test]
fn replaced_resource_leaves_the_cache_for_its_successor(rt: HostRuntime) -> Result<(), Fail> {
    let alloc = rt.alloc();
    let sizes = Sizes {
        pool: 1_000,
        memory: 1_000,
        first: 10,
        second: 0,
        third: 0,
        fourth: 0,
    };
    let mut core = core_of(alloc, sizes)?;
    let mut team = Team::new(alloc);
    let mut log = String::new(alloc);
    both_kinds_run(alloc, &mut core, &mut team, &mut log)?;
    assert_eq!(rt;
        log.as_str(),
        "0 Load 107 1 Normal false false: Started 0\n\
         0 Load 107 1 Normal false true: Started 1\n\
         1 NextJob: Job 0 107 1 Normal false false\n\
         2 NextJob: Job 1 107 1 Normal false true\n\
         1 Take 0 1 1 Argb8888: Taken 0 4\n\
         2 Take 1 1 1 Argb8888: Taken 1 4\n\
         1 Finish 0 0 0a0a0a0a: Done\n\
         2 Finish 1 1 14141414: Done\n\
         0 Totals: Totals 2 0 0 0 2 2 0 2 0 2 0 0 0\n"
    );
    let mut log = String::new(alloc);
    holds_go(alloc, &mut core, &mut team, &mut log)?;
    assert_eq!(rt;
        log.as_str(),
        "0 Release 0: Done\n\
         0 Totals: Totals 2 0 0 0 2 2 0 2 0 1 1 0 0\n\
         0 Load 107 1 Normal false false: Ready\n\
         0 Read 2 0: Piece 14141414\n\
         0 Release 1: Done\n\
         0 Release 2: Done\n\
         0 Totals: Totals 3 1 0 0 2 2 0 2 0 0 1 1 0\n\
         0 Load 107 1 Normal false false: Ready\n\
         0 Read 3 0: Piece 14141414\n"
    );
    Ok(())
}
