// What a script of the program cannot bring about with one caller, and what its printed lines do not tell. Expected values are
// worked by hand from docs/ENGINE.md.
use crate::guarded::{Guarded, Started};
use bitmap_kind::{Config, Rule, Transform};
use cache_key::{EngineKey, KeyRoom, LoadSpec, Priority, Strategy, Text};
use decode_job::JobEnd;
use engine_shared::{Full, Outcome};
use engine_world::Totals;
use load_cause::Cause;
use outside::{Content, MemorySource, Source};
use std::alloc::Global;
use std::process::Abort;

// A red pixel and a blue one, which are 8 bytes as they are stored.
const PAIR: &[u8] = b"P6\n2 1\n255\n\xff\x00\x00\x00\x00\xff";

// A source with this picture at `a` and at `b`, whose calls of these numbers fail.
fn source(rt: &impl Abort, alloc: Global, fails: &[u64]) -> MemorySource {
    let mut texts = Vec::new(alloc);
    for url in [b"a", b"b"] {
        let content = Content {
            url: url.to_vec(alloc).expect(rt, "memory"),
            sig: b"1".to_vec(alloc).expect(rt, "memory"),
            bytes: PAIR.to_vec(alloc).expect(rt, "memory"),
        };
        texts.push(content).expect(rt, "memory");
    }
    MemorySource::new(texts, fails.to_vec(alloc).expect(rt, "memory"))
}

// The picture of a url of one letter, as it is, from the caches alone or not.
fn wanted(rt: &impl Abort, alloc: Global, url: &[u8; 1], cached: bool) -> LoadSpec {
    let key = EngineKey {
        url: Text::new(alloc, url).expect(rt, "memory"),
        sig: Text::new(alloc, b"1").expect(rt, "memory"),
        width: 2,
        height: 1,
        transform: Transform::Nothing,
        config: Config::Argb8888,
        rule: Rule::AtLeast,
    };
    LoadSpec {
        key,
        strategy: Strategy::Automatic,
        priority: Priority::Normal,
        skip: false,
        cached,
    }
}

// Begins a load.
fn load(rt: &impl Abort, alloc: Global, engine: &mut Guarded, url: &[u8; 1]) {
    assert_eq!(rt; engine.load(rt, wanted(rt, alloc, url, false)), Ok(()));
}

fn start(rt: &impl Abort, alloc: Global, engine: &mut Guarded) -> Started {
    engine.start(rt, KeyRoom::new(alloc).expect(rt, "memory"))
}

// Starts the next job and runs it to its end.
fn run(rt: &impl Abort, alloc: Global, engine: &mut Guarded, source: &mut MemorySource) -> JobEnd {
    assert_eq!(rt; start(rt, alloc, engine), Started::Job);
    engine.run(alloc, source).expect(rt, "a job")
}

// Loads by what answered them: all, and then active, memory, joined and started.
fn loads_of(totals: &Totals) -> [u64; 5] {
    [
        totals.loads,
        totals.active,
        totals.memory,
        totals.joined,
        totals.started,
    ]
}

// Bitmaps by where they are: decoding, held, cached, pooled and recycled.
fn places_of(totals: &Totals) -> [u64; 5] {
    [
        totals.decoding,
        totals.held,
        totals.cached,
        totals.pooled,
        totals.recycled,
    ]
}

// A job is cancelled where its last load is released while it runs: it quits and asks no source, or its picture is not taken
// and its bitmap is pooled.
#[test]
fn a_running_job_without_loads_is_cancelled(rt: HostRuntime) {
    let alloc = rt.alloc();
    let mut engine = Guarded::new(&rt, alloc, 1_000, 1_000, 1);
    let mut source = source(&rt, alloc, &[]);
    load(&rt, alloc, &mut engine, b"a");
    let second = wanted(&rt, alloc, b"b", false);
    assert_eq!(rt; engine.load(&rt, second), Err(Full));
    assert_eq!(rt; start(&rt, alloc, &mut engine), Started::Job);
    assert!(rt; engine.release(0));
    assert_eq!(rt; engine.run(alloc, &mut source), Some(JobEnd::Quit));
    assert_eq!(rt; source.fetches(), 0);
    load(&rt, alloc, &mut engine, b"a");
    assert_eq!(rt; start(&rt, alloc, &mut engine), Started::Job);
    assert!(rt; engine.release(1));
    assert_eq!(rt; engine.finish(&rt, 2, 1), Some(false));
    let totals = engine.totals();
    assert_eq!(rt; loads_of(&totals), [2, 0, 0, 0, 2]);
    assert_eq!(rt; places_of(&totals), [0, 0, 0, 1, 0]);
    engine.end(&rt);
}

// A closed engine gives no more jobs. What runs goes on, and what is queued waits for its release.
#[test]
fn a_closed_engine_gives_no_jobs(rt: HostRuntime) {
    let alloc = rt.alloc();
    let mut engine = Guarded::new(&rt, alloc, 1_000, 1_000, 2);
    let mut source = source(&rt, alloc, &[]);
    load(&rt, alloc, &mut engine, b"a");
    assert_eq!(rt; start(&rt, alloc, &mut engine), Started::Job);
    load(&rt, alloc, &mut engine, b"b");
    engine.close();
    assert_eq!(rt; engine.run(alloc, &mut source), Some(JobEnd::Finished));
    assert_eq!(rt; start(&rt, alloc, &mut engine), Started::Closed);
    assert_eq!(rt; engine.collect(0), Some(Outcome::Ready));
    assert_eq!(rt; engine.collect(1), Some(Outcome::NotYet(1)));
    assert!(rt; engine.release(0));
    assert!(rt; engine.release(1));
    let totals = engine.totals();
    assert_eq!(rt; loads_of(&totals), [2, 0, 0, 0, 2]);
    assert_eq!(rt; places_of(&totals), [0, 0, 1, 0, 0]);
    engine.end(&rt);
}

// The source fails at its second call alone. Both loads that wait on that job fail by it, and the next load asks again.
#[test]
fn one_failed_fetch_fails_the_loads_that_wait(rt: HostRuntime) {
    let alloc = rt.alloc();
    let mut engine = Guarded::new(&rt, alloc, 1_000, 1_000, 3);
    let mut source = source(&rt, alloc, &[1]);
    load(&rt, alloc, &mut engine, b"a");
    assert_eq!(rt; run(&rt, alloc, &mut engine, &mut source), JobEnd::Finished);
    load(&rt, alloc, &mut engine, b"b");
    load(&rt, alloc, &mut engine, b"b");
    let failed = run(&rt, alloc, &mut engine, &mut source);
    assert_eq!(rt; failed, JobEnd::Failed(Cause::Source));
    assert_eq!(rt; engine.collect(0), Some(Outcome::Ready));
    assert_eq!(rt; engine.collect(1), Some(Outcome::Failed(Cause::Source)));
    assert_eq!(rt; engine.collect(2), Some(Outcome::Failed(Cause::Source)));
    assert!(rt; engine.release(1));
    assert!(rt; engine.release(2));
    load(&rt, alloc, &mut engine, b"b");
    assert_eq!(rt; run(&rt, alloc, &mut engine, &mut source), JobEnd::Finished);
    assert_eq!(rt; source.fetches(), 3);
    assert!(rt; engine.release(0));
    assert!(rt; engine.release(3));
    assert_eq!(rt; loads_of(&engine.totals()), [4, 0, 0, 1, 3]);
    engine.end(&rt);
}

// A load that asks the caches alone has a job of its own, which fails and asks no source.
#[test]
fn a_load_of_the_caches_alone_asks_no_source(rt: HostRuntime) {
    let alloc = rt.alloc();
    let mut engine = Guarded::new(&rt, alloc, 1_000, 1_000, 2);
    let mut source = source(&rt, alloc, &[]);
    load(&rt, alloc, &mut engine, b"a");
    let cached = wanted(&rt, alloc, b"a", true);
    assert_eq!(rt; engine.load(&rt, cached), Ok(()));
    assert_eq!(rt; run(&rt, alloc, &mut engine, &mut source), JobEnd::Finished);
    assert_eq!(rt; source.fetches(), 1);
    let uncached = run(&rt, alloc, &mut engine, &mut source);
    assert_eq!(rt; uncached, JobEnd::Failed(Cause::Uncached));
    assert_eq!(rt; source.fetches(), 1);
    assert_eq!(rt; engine.collect(1), Some(Outcome::Failed(Cause::Uncached)));
    assert_eq!(rt; start(&rt, alloc, &mut engine), Started::Idle);
    assert!(rt; engine.release(0));
    assert!(rt; engine.release(1));
    assert_eq!(rt; loads_of(&engine.totals()), [2, 0, 0, 0, 2]);
    engine.end(&rt);
}

// Of two pictures one is held. Level 15 leaves 7 bytes to the memory cache and 10 to the pool, so the other picture's bitmap is
// pooled; level 40 leaves nothing to either.
#[test]
fn trims_leave_what_is_held(rt: HostRuntime) {
    let alloc = rt.alloc();
    let mut engine = Guarded::new(&rt, alloc, 20, 14, 2);
    let mut source = source(&rt, alloc, &[]);
    load(&rt, alloc, &mut engine, b"a");
    assert_eq!(rt; run(&rt, alloc, &mut engine, &mut source), JobEnd::Finished);
    load(&rt, alloc, &mut engine, b"b");
    assert_eq!(rt; run(&rt, alloc, &mut engine, &mut source), JobEnd::Finished);
    assert!(rt; engine.release(1));
    for level in [0, 5, 14, 16, 19] {
        engine.trim(level);
        assert_eq!(rt; places_of(&engine.totals()), [0, 1, 1, 0, 0]);
    }
    engine.trim(15);
    assert_eq!(rt; places_of(&engine.totals()), [0, 1, 0, 1, 0]);
    engine.trim(40);
    assert_eq!(rt; places_of(&engine.totals()), [0, 1, 0, 0, 1]);
    assert_eq!(rt; engine.collect(0), Some(Outcome::Ready));
    assert!(rt; engine.release(0));
    assert_eq!(rt; places_of(&engine.totals()), [0, 0, 1, 0, 1]);
    engine.end(&rt);
}
