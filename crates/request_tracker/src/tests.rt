// Each move in each state, the limit on views, and the calls that tell.
ghost use Rattle.std.specs.Prelude.{◌≤◌, ◌<◌, length};

use crate::{Act, Ask, Order, Tracker, ViewFault, ViewState};
use bitmap_kind::{Config, Rule, Transform};
use cache_key::{EngineKey, LoadSpec, Priority, Strategy, Text};
use faults::NoMemory;
use std::alloc::Global;
use std::test::Fail;

// A move of a view, or the end of its load.
#[derive(Clone, Copy)]
enum Move {
    Load,
    LoadSizeless,
    LoadPaused,
    Layout,
    Clear,
    Every(Act),
    Comes,
    Fails,
}

fn key_of(alloc: Global) -> Result<EngineKey, NoMemory> {
    Ok(EngineKey {
        url: Text::new(alloc, b"red")?,
        sig: Text::new(alloc, b"1")?,
        width: 2,
        height: 1,
        transform: Transform::Inside,
        config: Config::Alpha8,
        rule: Rule::AtMost,
    })
}

fn ask_of(alloc: Global, sized: bool) -> Result<Ask, NoMemory> {
    let spec = LoadSpec {
        key: key_of(alloc)?,
        strategy: Strategy::Automatic,
        priority: Priority::Normal,
        skip: false,
        cached: false,
    };
    Ok(Ask { spec, sized })
}

fn load(
    alloc: Global,
    tracker: &mut Tracker<u64>,
    name: &[u8],
    sized: bool,
) -> Result<Result<Order, ViewFault>, NoMemory> {
    let view = Text::new(alloc, name)?;
    let ask = ask_of(alloc, sized)?;
    Ok(tracker.load(alloc, &view, ask))
}

// A load that is not refused.
fn must_load(
    alloc: Global,
    tracker: &mut Tracker<u64>,
    name: &[u8],
    sized: bool,
) -> Result<Order, Fail> {
    match load(alloc, tracker, name, sized)? {
        Ok(order) => Ok(order),
        Err(_) => Err(Fail::new("a load that is not refused")),
    }
}

fn layout(
    alloc: Global,
    tracker: &mut Tracker<u64>,
    name: &[u8],
) -> Result<Option<Order>, NoMemory> {
    let view = Text::new(alloc, name)?;
    Ok(tracker.layout(&view, 4, 3))
}

fn clear(
    alloc: Global,
    tracker: &mut Tracker<u64>,
    name: &[u8],
) -> Result<Option<Order>, NoMemory> {
    let view = Text::new(alloc, name)?;
    Ok(tracker.clear(&view))
}

fn place_of(alloc: Global, tracker: &Tracker<u64>, name: &[u8]) -> Result<Option<usize>, NoMemory> {
    let view = Text::new(alloc, name)?;
    Ok(tracker.find(&view))
}

fn can_load(alloc: Global, tracker: &Tracker<u64>, name: &[u8]) -> Result<bool, NoMemory> {
    let view = Text::new(alloc, name)?;
    Ok(tracker.can_load(&view))
}

fn act(tracker: &mut Tracker<u64>, act: Act, place: usize) -> Option<Order> {
    if place < tracker.count() {
        return Some(tracker.act(act, place));
    }
    None
}

fn collect(tracker: &mut Tracker<u64>, place: usize, failed: Option<u64>) {
    if place < tracker.count() {
        tracker.collected(place, failed);
    }
}

fn state_of(tracker: &Tracker<u64>, place: usize) -> Option<ViewState<u64>> {
    if place < tracker.count() {
        return Some(*tracker.state(place));
    }
    None
}

fn has_name(tracker: &Tracker<u64>, place: usize, name: &[u8]) -> bool {
    if place < tracker.count() {
        return tracker.name(place).bytes() == name;
    }
    false
}

// The size that a running view asks for.
fn size_asked(
    alloc: Global,
    tracker: &Tracker<u64>,
    place: usize,
) -> Result<Option<(u32, u32)>, NoMemory> {
    if place >= tracker.count() {
        return Ok(None);
    }
    match tracker.state(place) {
        ViewState::Running => {
            let spec = tracker.spec(alloc, place)?;
            Ok(Some((spec.key.width, spec.key.height)))
        }
        _ => Ok(None),
    }
}

// A tracker whose view `a` is in a state, by its letter.
fn in_state(alloc: Global, letter: u8) -> Result<Tracker<u64>, Fail> {
    let mut tracker = Tracker::new(alloc)?;
    must_load(alloc, &mut tracker, b"a", letter != b'W')?;
    match letter {
        b'C' => {
            clear(alloc, &mut tracker, b"a")?;
        }
        b'M' => collect(&mut tracker, 0, None),
        b'F' => collect(&mut tracker, 0, Some(7)),
        b'P' => {
            act(&mut tracker, Act::Pause, 0);
        }
        _ => {}
    }
    Ok(tracker)
}

fn letter_of(state: Option<ViewState<u64>>) -> u8 {
    match state {
        Some(ViewState::Cleared) => b'C',
        Some(ViewState::Waiting) => b'W',
        Some(ViewState::Running) => b'R',
        Some(ViewState::Complete) => b'M',
        Some(ViewState::Failed(7)) => b'F',
        Some(ViewState::Paused) => b'P',
        _ => b'?',
    }
}

// What a move orders; none of the end of a load.
fn moved(alloc: Global, tracker: &mut Tracker<u64>, change: Move) -> Result<Option<Order>, Fail> {
    match change {
        Move::Load => Ok(Some(must_load(alloc, tracker, b"a", true)?)),
        Move::LoadSizeless => Ok(Some(must_load(alloc, tracker, b"a", false)?)),
        Move::LoadPaused => {
            tracker.set_paused(true);
            Ok(Some(must_load(alloc, tracker, b"a", true)?))
        }
        Move::Layout => Ok(layout(alloc, tracker, b"a")?),
        Move::Clear => Ok(clear(alloc, tracker, b"a")?),
        Move::Every(every) => Ok(act(tracker, every, 0)),
        Move::Comes => {
            collect(tracker, 0, None);
            Ok(None)
        }
        Move::Fails => {
            collect(tracker, 0, Some(7));
            Ok(None)
        }
    }
}

// The state after a move, by its letter, and whether the move drops the hold and begins.
fn row_of(alloc: Global, letter: u8, change: Move) -> Result<[u8; 3], Fail> {
    let mut tracker = in_state(alloc, letter)?;
    let (drops, begins) = match moved(alloc, &mut tracker, change)? {
        Some(order) => (order.drop_hold, order.begin),
        None => (false, false),
    };
    Ok([
        letter_of(state_of(&tracker, 0)),
        if drops { b'd' } else { b'-' },
        if begins { b'b' } else { b'-' },
    ])
}

// Whether a move does so to a cleared, a waiting, a running, a complete, a failed and a paused view.
fn does(alloc: Global, change: Move, wanted: [&[u8]; 6]) -> Result<bool, Fail> {
    for (letter, row) in b"CWRMFP".iter().zip(wanted) {
        if row_of(alloc, *letter, change)?.as_slice() != row {
            return Ok(false);
        }
    }
    Ok(true)
}

#[test]
fn loads_move_each_state(rt: HostRuntime) -> Result<(), Fail> {
    let alloc = rt.alloc();
    assert!(rt;
        does(
            alloc,
            Move::Load,
            [b"R-b", b"R-b", b"Rdb", b"Rdb", b"R-b", b"R-b"]
        )?
    );
    assert!(rt;
        does(
            alloc,
            Move::LoadSizeless,
            [b"W--", b"W--", b"Wd-", b"Wd-", b"W--", b"W--"]
        )?
    );
    assert!(rt;
        does(
            alloc,
            Move::LoadPaused,
            [b"P--", b"P--", b"Pd-", b"Pd-", b"P--", b"P--"]
        )?
    );
    assert!(rt;
        does(
            alloc,
            Move::Layout,
            [b"C--", b"R-b", b"R--", b"M--", b"F--", b"P--"]
        )?
    );
    assert!(rt;
        does(
            alloc,
            Move::Clear,
            [b"C--", b"C--", b"Cd-", b"Cd-", b"C--", b"C--"]
        )?
    );
    Ok(())
}

#[test]
fn pauses_move_each_state(rt: HostRuntime) -> Result<(), Fail> {
    let alloc = rt.alloc();
    let pause = Move::Every(Act::Pause);
    let pause_all = Move::Every(Act::PauseAll);
    let resume = Move::Every(Act::Resume);
    let clear_all = Move::Every(Act::ClearAll);
    assert!(rt;
        does(
            alloc,
            pause,
            [b"C--", b"P--", b"Pd-", b"M--", b"F--", b"P--"]
        )?
    );
    assert!(rt;
        does(
            alloc,
            pause_all,
            [b"C--", b"P--", b"Pd-", b"Pd-", b"F--", b"P--"]
        )?
    );
    assert!(rt;
        does(
            alloc,
            resume,
            [b"C--", b"W--", b"R--", b"M--", b"R-b", b"R-b"]
        )?
    );
    assert!(rt;
        does(
            alloc,
            clear_all,
            [b"C--", b"C--", b"Cd-", b"Cd-", b"C--", b"C--"]
        )?
    );
    Ok(())
}

#[test]
fn ends_move_running_views_alone(rt: HostRuntime) -> Result<(), Fail> {
    let alloc = rt.alloc();
    assert!(rt;
        does(
            alloc,
            Move::Comes,
            [b"C--", b"W--", b"M--", b"M--", b"F--", b"P--"]
        )?
    );
    assert!(rt;
        does(
            alloc,
            Move::Fails,
            [b"C--", b"W--", b"F--", b"M--", b"F--", b"P--"]
        )?
    );
    Ok(())
}

#[test]
fn sizes_come_from_loads_or_layouts(rt: HostRuntime) -> Result<(), Fail> {
    let alloc = rt.alloc();
    let mut tracker = in_state(alloc, b'W')?;
    assert_eq!(rt; size_asked(alloc, &tracker, 0)?, None);
    assert!(rt; layout(alloc, &mut tracker, b"a")?.is_some());
    assert_eq!(rt; size_asked(alloc, &tracker, 0)?, Some((4, 3)));
    clear(alloc, &mut tracker, b"a")?;
    must_load(alloc, &mut tracker, b"a", false)?;
    assert_eq!(rt; size_asked(alloc, &tracker, 0)?, Some((4, 3)));
    must_load(alloc, &mut tracker, b"a", true)?;
    assert_eq!(rt; size_asked(alloc, &tracker, 0)?, Some((2, 1)));
    Ok(())
}

#[test]
fn views_keep_their_places(rt: HostRuntime) -> Result<(), Fail> {
    let alloc = rt.alloc();
    let mut tracker = Tracker::new(alloc)?;
    assert_eq!(rt; tracker.count(), 0);
    assert_eq!(rt; must_load(alloc, &mut tracker, b"b", true)?.place, 0);
    assert_eq!(rt; must_load(alloc, &mut tracker, b"a", true)?.place, 1);
    assert_eq!(rt; must_load(alloc, &mut tracker, b"b", false)?.place, 0);
    assert_eq!(rt; tracker.count(), 2);
    assert_eq!(rt; place_of(alloc, &tracker, b"a")?, Some(1));
    assert_eq!(rt; place_of(alloc, &tracker, b"c")?, None);
    assert!(rt; has_name(&tracker, 0, b"b"));
    assert!(rt; has_name(&tracker, 1, b"a"));
    assert_eq!(rt; layout(alloc, &mut tracker, b"c")?, None);
    assert_eq!(rt; clear(alloc, &mut tracker, b"c")?, None);
    Ok(())
}

// Loads in so many new views.
fn load_many(alloc: Global, tracker: &mut Tracker<u64>, count: u32) -> Result<(), Fail> {
    for number in 0..count {
        let name = format!(in alloc; "{number}")?;
        must_load(alloc, tracker, name.as_bytes(), false)?;
    }
    Ok(())
}

#[test]
fn views_are_at_most_so_many(rt: HostRuntime) -> Result<(), Fail> {
    let alloc = rt.alloc();
    let mut tracker = Tracker::new(alloc)?;
    load_many(alloc, &mut tracker, 4_096)?;
    assert_eq!(rt; tracker.count(), 4_096);
    assert!(rt; !can_load(alloc, &tracker, b"a")?);
    assert!(rt; can_load(alloc, &tracker, b"4095")?);
    assert_eq!(rt;
        load(alloc, &mut tracker, b"a", true)?,
        Err(ViewFault::TooMany)
    );
    assert_eq!(rt; tracker.count(), 4_096);
    assert_eq!(rt; must_load(alloc, &mut tracker, b"4095", true)?.place, 4_095);
    Ok(())
}
