// The core on a worked row: a seat makes its next event only where it knows that it may.
ghost use Rattle.std.specs.Prelude.{◌≡◌, ℕ, ◌+◌, ◌<◌, ◌≤◌, None, IfOk};
ghost use Rattle.engine_world.specs.Knowledge.{updated, knowledge_in};
ghost use Rattle.engine_world.specs.Permits.{Permits};
ghost use Rattle.engine_core.specs.Noted.{noted};
ghost use Rattle.engine_core.specs.inside.Seats.{OthersKnow, IsServed, Keeps};

use crate::{Core, Limits, Reply};
use bitmap_kind::{Config, Rule, Transform};
use cache_key::{EngineKey, KeyRoom, LoadSpec, Priority, Strategy, Text};
use engine_world::{Event, Note, Totals};
use faults::NoMemory;
use outside::Told;
use state_machine::own_entries_append;
use std::alloc::Global;
use std::test::Fail;

// Pool and memory cache of 1,000 bytes, and seats of these quotas.
fn three_seats(alloc: Global, quota: u32) -> Result<Core, Fail>
    requires { quota ≤ 100 }
    ensures served { IfOk result (λ core. (who : ℕ) → who < 3 → IsServed core who) }
    ensures begun { IfOk result (λ core. (who : ℕ) → (knowledge_in core.history who).begun ≡ 0) }
    ensures jobs { IfOk result (λ core. (who : ℕ) → (knowledge_in core.history who).job ≡ None) }
{
    let quotas = vec![in alloc; quota, 0, 0]?;
    Ok(Core::new(alloc, Limits::new(1_000, 1_000, quotas), Told::nothing())?)
}

// A picture of this url of one letter, wanted at this priority, from the caches alone or not.
fn wanted(
    alloc: Global,
    url: &[u8; 1],
    priority: Priority,
    cached: bool,
) -> Result<LoadSpec, NoMemory> {
    let key = EngineKey {
        url: Text::new(alloc, url)?,
        sig: Text::new(alloc, b"1")?,
        width: 1,
        height: 1,
        transform: Transform::Nothing,
        config: Config::Argb8888,
        rule: Rule::AtLeast,
    };
    Ok(LoadSpec {
        key,
        strategy: Strategy::Automatic,
        priority,
        skip: false,
        cached,
    })
}

// One event of a seat, and what all seats know by then.
fn act(core: &mut Core, who: u32, event: Event) -> Reply
    requires served { IsServed core.old who }
    requires asks { Permits None (knowledge_in core.old.history who) event }
    ensures own { knowledge_in core.new.history who
        ≡ updated event (noted result) (knowledge_in core.old.history who) }
    ensures others { OthersKnow who core.old.history core.new.history }
    ensures keeps { Keeps core.old core.new }
{
    own_entries_append::<Note>();
    core.step(who, event)
}

// A seat wants a picture. Where it may have one more, the load has the next number of its own.
fn load(core: &mut Core, who: u32, spec: LoadSpec) -> Reply
    requires served { IsServed core.old who }
    requires few { (knowledge_in core.old.history who).begun < 1000 }
    ensures begun { (knowledge_in core.new.history who).begun
        ≤ (knowledge_in core.old.history who).begun + 1 }
    ensures job { (knowledge_in core.new.history who).job ≡ (knowledge_in core.old.history who).job }
    ensures others { OthersKnow who core.old.history core.new.history }
    ensures keeps { Keeps core.old core.new }
{
    act(core, who, Event::Load(spec))
}

// A seat that has no job takes the next one.
fn next_job(core: &mut Core, who: u32, room: KeyRoom) -> Reply
    requires served { IsServed core.old who }
    requires none { (knowledge_in core.old.history who).job ≡ None }
    ensures others { OthersKnow who core.old.history core.new.history }
    ensures keeps { Keeps core.old core.new }
{
    act(core, who, Event::NextJob(room))
}

fn totals(core: &mut Core) -> Option<Totals>
    requires { IsServed core.old 0 }
{
    match act(core, 0, Event::Totals) {
        Reply::Totals(totals) => Some(totals),
        _ => None,
    }
}

fn is_started(reply: &Reply, number: u64) -> bool {
    matches!(reply, Reply::Started(job) if *job == number)
}

fn is_job(reply: &Reply, number: u64) -> bool {
    matches!(reply, Reply::Job(job, _) if *job == number)
}

// Three loads of seat 0, of which the third is more than its quota of two.
fn loads_fill_the_quota(alloc: Global, core: &mut Core) -> Result<bool, NoMemory>
    requires served { IsServed core.old 0 }
    requires none { (knowledge_in core.old.history 0).begun ≡ 0 }
    ensures job { (knowledge_in core.new.history 0).job ≡ (knowledge_in core.old.history 0).job }
    ensures others { OthersKnow 0 core.old.history core.new.history }
    ensures keeps { Keeps core.old core.new }
{
    let a = wanted(alloc, b"a", Priority::Low, false)?;
    let b = wanted(alloc, b"b", Priority::Normal, false)?;
    let c = wanted(alloc, b"c", Priority::Normal, false)?;
    let first = load(core, 0, a);
    let second = load(core, 0, b);
    let third = load(core, 0, c);
    Ok(is_started(&first, 0) && is_started(&second, 1) && matches!(third, Reply::Full))
}

// The job of the higher priority starts first, then the other, then none.
fn jobs_start_by_priority(alloc: Global, core: &mut Core) -> Result<bool, NoMemory>
    requires served { (who : ℕ) → who < 3 → IsServed core.old who }
    requires none { (who : ℕ) → (knowledge_in core.old.history who).job ≡ None }
    ensures keeps { Keeps core.old core.new }
{
    let one = KeyRoom::new(alloc)?;
    let two = KeyRoom::new(alloc)?;
    let three = KeyRoom::new(alloc)?;
    let first = next_job(core, 1, one);
    let second = next_job(core, 2, two);
    let third = next_job(core, 0, three);
    Ok(is_job(&first, 1) && is_job(&second, 0) && matches!(third, Reply::Idle(_)))
}

#[test]
fn starts_by_priority_within_the_quota(rt: HostRuntime) -> Result<(), Fail> {
    let alloc = rt.alloc();
    let mut core = three_seats(alloc, 2)?;
    assert!(rt; loads_fill_the_quota(alloc, &mut core)?);
    assert!(rt; jobs_start_by_priority(alloc, &mut core)?);
    let sums = totals(&mut core);
    assert_eq!(rt;
        sums.map(|sums| (sums.loads, sums.started, sums.made)),
        Some((2, 2, 0))
    );
    Ok(())
}
