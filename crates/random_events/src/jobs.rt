// The events of a seat's job.
ghost use Rattle.std.specs.Prelude.{◌≡◌, ◌+◌, ◌≤◌, ◌<◌, length, IsTrue, None, Some, IfOk, OnOk, MatchOption, MatchResult};
ghost use Rattle.engine_world.specs.Knowledge.{knowledge_in};
ghost use Rattle.engine_world.specs.declared.events.Lent.{Lent};
ghost use Rattle.random_events.specs.Seats.{IsAsLent, IsSeatOf, IsActOf};
ghost use Rattle.random_events.specs.declared.seats.Taken.{Taken};
ghost use Rattle.random_events.specs.declared.seats.Taken.TheVariants.{Nothing, One, Two};
ghost use Rattle.random_events.specs.Jobs.{IsJobOf, IsJobAct, IsResultOf, Splits};
ghost use Rattle.random_events.specs.Written.{job_in, bitmap_in, is_told_by, IsBelowTwo, with_bitmap};

use crate::acts::act;
use crate::seats::{RunningJob, Seat, Taken};
use crate::texts::{write_bytes, write_reply};
use bitmap_kind::{Bitmap, Config};
use cache_key::KeyRoom;
use engine_core::{Core, Reply};
use engine_world::Event;
use faults::NoMemory;
use load_cause::Cause;

/// What a seat may do with its job. Where it may not, it does nothing.
#[derive(Clone, Copy)]
pub enum Work {
    /// Takes a bitmap of one of 16 sizes.
    Take(u32, Config),
    /// Gives back the bitmap that it took last, or else the first.
    GiveBack(bool),
    /// Finishes, with a pixel of this colour in the picture.
    Finish([u8; 4]),
    Fail(Cause),
    Quit,
    IsCancelled,
}

impl Taken {
    // Whether there is no more than one bitmap.
    fn is_below_two(&self) -> bool
        ensures { IsTrue result → IsBelowTwo self.now }
    {
        !matches!(self, Taken::Two(_, _))
    }

    // Whether there is none.
    fn is_nothing(&self) -> bool
        ensures { IsTrue result → self.now ≡ Nothing }
    {
        matches!(self, Taken::Nothing)
    }

    // The only bitmap, or else what there is.
    fn only(self) -> Result<Bitmap, Taken>
        ensures { MatchResult result (λ bitmap. self ≡ One bitmap) (λ taken. self ≡ taken) }
    {
        match self {
            Taken::One(bitmap) => Ok(bitmap),
            other => Err(other),
        }
    }

    // What stays where the last of two bitmaps goes, or else the first, and the one that goes.
    fn split(self, last: bool) -> (Taken, Option<Bitmap>)
        ensures { MatchOption result.1 (result.0 ≡ self) (Splits self result.0) }
    {
        match self {
            Taken::Nothing => (Taken::Nothing, None),
            Taken::One(bitmap) => (Taken::Nothing, Some(bitmap)),
            Taken::Two(first, second) => split_two(first, second, last),
        }
    }

    // A bitmap more.
    fn with(self, bitmap: Bitmap) -> Taken
        requires { IsBelowTwo self }
        ensures { result ≡ with_bitmap bitmap self }
    {
        match self {
            Taken::Nothing => Taken::One(bitmap),
            Taken::One(first) => Taken::Two(first, bitmap),
            Taken::Two(_, _) => unreachable!(),
        }
    }
}

// One of two bitmaps stays, and the other goes.
fn split_two(first: Bitmap, second: Bitmap, last: bool) -> (Taken, Option<Bitmap>)
    ensures { let both = Two first second in MatchOption result.1 (result.0 ≡ both) (Splits both result.0) }
{
    if first.number() == second.number() {
        (Taken::Two(first, second), None)
    } else if last {
        (Taken::One(first), Some(second))
    } else {
        (Taken::One(second), Some(first))
    }
}

impl RunningJob {
    // It has a bitmap more.
    fn with(self, bitmap: Bitmap) -> RunningJob
        requires takes { self.takes < 2 }
        requires few { IsBelowTwo self.taken }
        ensures { result ≡ record self { takes = self.takes + 1; taken = with_bitmap bitmap self.taken } }
    {
        RunningJob {
            number: self.number,
            takes: self.takes + 1,
            taken: self.taken.with(bitmap),
            cancelled: self.cancelled,
        }
    }

    // The seat was told whether it is cancelled.
    fn told(self, is: bool) -> RunningJob
        ensures { result ≡ record self { cancelled = is } }
    {
        RunningJob {
            number: self.number,
            takes: self.takes,
            taken: self.taken,
            cancelled: is,
        }
    }

    // The job without one of its bitmaps, and that one.
    fn split(self, last: bool) -> (RunningJob, Option<Bitmap>)
        ensures { MatchOption result.1 (result.0 ≡ self)
            (λ bitmap. (taken : Taken) × (result.0 ≡ record self { taken = taken }) × Splits self.taken taken bitmap) }
    {
        let RunningJob {
            number,
            takes,
            taken,
            cancelled,
        } = self;
        let (left, going) = taken.split(last);
        let job = RunningJob {
            number,
            takes,
            taken: left,
            cancelled,
        };
        (job, going)
    }

    // The only bitmap that it has, or else the job.
    fn only(self) -> Result<Bitmap, RunningJob>
        ensures { MatchResult result (λ bitmap. self.taken ≡ One bitmap) (λ job. job ≡ self) }
    {
        let RunningJob {
            number,
            takes,
            taken,
            cancelled,
        } = self;
        match taken.only() {
            Ok(bitmap) => Ok(bitmap),
            Err(taken) => Err(RunningJob {
                number,
                takes,
                taken,
                cancelled,
            }),
        }
    }
}

// The job that a seat was answered.
fn job_in(reply: &Reply) -> Option<RunningJob>
    ensures { result ≡ job_in reply.now }
{
    match reply {
        Reply::Job(number, _) => Some(RunningJob {
            number: *number,
            takes: 0,
            taken: Taken::Nothing,
            cancelled: false,
        }),
        _ => None,
    }
}

// The bitmap that a job was answered.
fn bitmap_in(reply: Reply) -> Option<Bitmap>
    ensures { result ≡ bitmap_in reply }
{
    match reply {
        Reply::Taken(bitmap) => Some(bitmap),
        _ => None,
    }
}

// Whether a seat was answered that its job is cancelled.
fn is_told_by(reply: &Reply) -> bool
    ensures { result ≡ is_told_by reply.now }
{
    match reply {
        Reply::Cancelled(is) => *is,
        _ => false,
    }
}

// Sides of 1 to 4 pixels.
fn sides(size: u32) -> (u32, u32)
    ensures wide { 1 ≤ result.0 }
    ensures high { 1 ≤ result.1 }
    ensures width { result.0 ≤ 4 }
    ensures height { result.1 ≤ 4 }
{
    (1 + size % 4, 1 + size / 4 % 4)
}

// Makes a picture of one pixel of this colour, and of zeros.
fn paint(bitmap: &mut Bitmap, colour: [u8; 4])
    ensures { (lent : Lent) → IsAsLent bitmap.old lent → IsAsLent bitmap.new lent }
{
    let _ = bitmap.width();
    bitmap.erase();
    bitmap.put_pixel(0, 0, colour);
}

fn take(
    core: &mut Core,
    who: u32,
    line: &mut String,
    job: RunningJob,
    size: u32,
    config: Config,
) -> Result<Option<RunningJob>, NoMemory>
    requires { IsJobOf core.old who (Some job) }
    ensures { IfOk result (λ job. IsJobAct who core.old core.new job) }
{
    if job.takes >= 2 || !job.taken.is_below_two() {
        return Ok(Some(job));
    }
    let number = job.number;
    let (width, height) = sides(size);
    write!(line, "{who} Take {number} {width} {height} {config:?}: ")?;
    let event = Event::Take(number, width, height, config);
    let reply = act(core, who, event);
    write_reply(line, &reply)?;
    match bitmap_in(reply) {
        Some(bitmap) => Ok(Some(job.with(bitmap))),
        None => Ok(Some(job)),
    }
}

fn give_back(
    core: &mut Core,
    who: u32,
    line: &mut String,
    job: RunningJob,
    last: bool,
) -> Result<Option<RunningJob>, NoMemory>
    requires { IsJobOf core.old who (Some job) }
    ensures { IfOk result (λ job. IsJobAct who core.old core.new job) }
{
    let number = job.number;
    let (job, going) = job.split(last);
    let Some(bitmap) = going else {
        return Ok(Some(job));
    };
    let place = bitmap.number();
    write!(line, "{who} GiveBack {number} {place}: ")?;
    let reply = act(core, who, Event::GiveBack(number, bitmap));
    write_reply(line, &reply)?;
    Ok(Some(job))
}

// The job ends with this bitmap.
fn finish_with(
    core: &mut Core,
    who: u32,
    line: &mut String,
    number: u64,
    bitmap: Bitmap,
) -> Result<(), NoMemory>
    requires served { who < length core.old.world.limits.quotas }
    requires untold { core.old.world.content ≡ None }
    requires result { IsResultOf (knowledge_in core.old.history who) number bitmap }
    ensures { OnOk result (IsJobAct who core.old core.new None) }
{
    let place = bitmap.number();
    write!(line, "{who} Finish {number} {place} ")?;
    write_bytes(line, bitmap.bytes())?;
    line.push_str(": ")?;
    let reply = act(core, who, Event::Finish(number, bitmap));
    write_reply(line, &reply)
}

fn finish(
    core: &mut Core,
    who: u32,
    line: &mut String,
    job: RunningJob,
    colour: [u8; 4],
) -> Result<Option<RunningJob>, NoMemory>
    requires { IsJobOf core.old who (Some job) }
    ensures { IfOk result (λ job. IsJobAct who core.old core.new job) }
{
    let number = job.number;
    match job.only() {
        Err(job) => Ok(Some(job)),
        Ok(bitmap) => {
            let mut bitmap = bitmap;
            paint(&mut bitmap, colour);
            finish_with(core, who, line, number, bitmap)?;
            Ok(None)
        }
    }
}

fn fail(
    core: &mut Core,
    who: u32,
    line: &mut String,
    job: RunningJob,
    cause: Cause,
) -> Result<Option<RunningJob>, NoMemory>
    requires { IsJobOf core.old who (Some job) }
    ensures { IfOk result (λ job. IsJobAct who core.old core.new job) }
{
    if !job.taken.is_nothing() {
        return Ok(Some(job));
    }
    let number = job.number;
    write!(line, "{who} Fail {number} {cause:?}: ")?;
    let reply = act(core, who, Event::Fail(number, cause));
    write_reply(line, &reply)?;
    Ok(None)
}

fn quit(
    core: &mut Core,
    who: u32,
    line: &mut String,
    job: RunningJob,
) -> Result<Option<RunningJob>, NoMemory>
    requires { IsJobOf core.old who (Some job) }
    ensures { IfOk result (λ job. IsJobAct who core.old core.new job) }
{
    if !job.cancelled || !job.taken.is_nothing() {
        return Ok(Some(job));
    }
    let number = job.number;
    write!(line, "{who} Quit {number}: ")?;
    let reply = act(core, who, Event::Quit(number));
    write_reply(line, &reply)?;
    Ok(None)
}

fn ask(
    core: &mut Core,
    who: u32,
    line: &mut String,
    job: RunningJob,
) -> Result<Option<RunningJob>, NoMemory>
    requires { IsJobOf core.old who (Some job) }
    ensures { IfOk result (λ job. IsJobAct who core.old core.new job) }
{
    let number = job.number;
    write!(line, "{who} IsCancelled {number}: ")?;
    let reply = act(core, who, Event::IsCancelled(number));
    write_reply(line, &reply)?;
    Ok(Some(job.told(is_told_by(&reply))))
}

// One event of a seat that runs a job.
fn work_on(
    core: &mut Core,
    who: u32,
    line: &mut String,
    job: RunningJob,
    work: Work,
) -> Result<Option<RunningJob>, NoMemory>
    requires { IsJobOf core.old who (Some job) }
    ensures { IfOk result (λ job. IsJobAct who core.old core.new job) }
{
    match work {
        Work::Take(size, config) => take(core, who, line, job, size, config),
        Work::GiveBack(last) => give_back(core, who, line, job, last),
        Work::Finish(colour) => finish(core, who, line, job, colour),
        Work::Fail(cause) => fail(core, who, line, job, cause),
        Work::Quit => quit(core, who, line, job),
        Work::IsCancelled => ask(core, who, line, job),
    }
}

impl Seat {
    /// A job to run, where the seat has none.
    pub fn next_job(
        &mut self,
        core: &mut Core,
        who: u32,
        line: &mut String,
        room: KeyRoom,
    ) -> Result<(), NoMemory>
        requires { IsSeatOf core.old who self.old }
        ensures seat { OnOk result (IsSeatOf core.new who self.new) }
        ensures acts { OnOk result (IsActOf who core.old core.new) }
    {
        if self.job.is_some() {
            return Ok(());
        }
        write!(line, "{who} NextJob: ")?;
        let reply = act(core, who, Event::NextJob(room));
        self.job = job_in(&reply);
        write_reply(line, &reply)
    }

    /// One event of the seat's job, where it has one.
    pub fn work(
        &mut self,
        core: &mut Core,
        who: u32,
        line: &mut String,
        work: Work,
    ) -> Result<(), NoMemory>
        requires { IsSeatOf core.old who self.old }
        ensures seat { OnOk result (IsSeatOf core.new who self.new) }
        ensures acts { OnOk result (IsActOf who core.old core.new) }
    {
        match self.job.take() {
            None => {}
            Some(job) => self.job = work_on(core, who, line, job, work)?,
        }
        Ok(())
    }
}
