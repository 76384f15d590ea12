// What an event of a seat is answered, and what it leaves in the tables.
ghost use Rattle.engine_world.specs.declared.events.Event.TheVariants as events;
ghost use Rattle.engine_world.specs.Steps.{Transition};
ghost use Rattle.engine_core.specs.Noted.{noted};
ghost use Rattle.engine_core.specs.CoreView.{MayStep};
ghost use Rattle.engine_core.specs.Padded.{IsPaddedReply, PadsPiece};

use crate::history::History;
use crate::replies::Reply;
use crate::tables::Tables;
use bitmap_kind::{Bitmap, Config};
use cache_key::{KeyRoom, LoadSpec};
use engine_world::{Event, ready_loads_show_their_keys, rooms_suffice};
use load_cause::Cause;

impl Tables {
    fn answer_collect(&mut self, history: &History, who: u32, number: u64) -> Reply
        requires { MayStep self.old history.now.value who (events.Collect number) }
        ensures { Transition self.old who (events.Collect number) (noted result) self.new }
    {
        self.collect(who, number)
    }

    fn answer_look(&mut self, history: &History, who: u32, number: u64) -> Reply
        requires { MayStep self.old history.now.value who (events.Look number) }
        ensures { Transition self.old who (events.Look number) (noted result) self.new }
    {
        ready_loads_show_their_keys();
        self.look(who, number)
    }

    fn answer_read(&mut self, history: &History, who: u32, number: u64, at: usize) -> Reply
        requires { MayStep self.old history.now.value who (events.Read number at) }
        ensures step { Transition self.old who (events.Read number at) (noted result) self.new }
        ensures padded { IsPaddedReply result }
    {
        ready_loads_show_their_keys();
        self.read(who, number, at)
    }

    fn answer_release(&mut self, history: &History, who: u32, number: u64) -> Reply
        requires { MayStep self.old history.now.value who (events.Release number) }
        ensures { Transition self.old who (events.Release number) (noted result) self.new }
    {
        self.release(who, number);
        Reply::Done
    }

    fn answer_next_job(&mut self, history: &History, who: u32, room: KeyRoom) -> Reply
        requires { MayStep self.old history.now.value who (events.NextJob room) }
        ensures { Transition self.old who (events.NextJob room) (noted result) self.new }
    {
        self.next_job(who, room)
    }

    fn answer_take(
        &mut self,
        history: &History,
        who: u32,
        job: u64,
        width: u32,
        height: u32,
        config: Config,
    ) -> Reply
        requires { MayStep self.old history.now.value who (events.Take job width height config) }
        ensures { Transition self.old who (events.Take job width height config) (noted result) self.new }
    {
        rooms_suffice();
        self.take(job, width, height, config)
    }

    fn answer_give_back(&mut self, history: &History, who: u32, job: u64, bitmap: Bitmap) -> Reply
        requires { MayStep self.old history.now.value who (events.GiveBack job bitmap) }
        ensures { Transition self.old who (events.GiveBack job bitmap) (noted result) self.new }
    {
        self.give_back(job, bitmap);
        Reply::Done
    }

    fn answer_finish(&mut self, history: &History, who: u32, job: u64, bitmap: Bitmap) -> Reply
        requires { MayStep self.old history.now.value who (events.Finish job bitmap) }
        ensures { Transition self.old who (events.Finish job bitmap) (noted result) self.new }
    {
        rooms_suffice();
        self.finish(job, bitmap)
    }

    fn answer_fail(&mut self, history: &History, who: u32, job: u64, cause: Cause) -> Reply
        requires { MayStep self.old history.now.value who (events.Fail job cause) }
        ensures { Transition self.old who (events.Fail job cause) (noted result) self.new }
    {
        self.fail(job, cause);
        Reply::Done
    }

    fn answer_quit(&mut self, history: &History, who: u32, job: u64) -> Reply
        requires { MayStep self.old history.now.value who (events.Quit job) }
        ensures { Transition self.old who (events.Quit job) (noted result) self.new }
    {
        self.quit(job);
        Reply::Done
    }

    fn answer_is_cancelled(&mut self, history: &History, who: u32, job: u64) -> Reply
        requires { MayStep self.old history.now.value who (events.IsCancelled job) }
        ensures { Transition self.old who (events.IsCancelled job) (noted result) self.new }
    {
        Reply::Cancelled(self.is_cancelled(job))
    }

    fn answer_trim(&mut self, history: &History, who: u32, level: u32) -> Reply
        requires { MayStep self.old history.now.value who (events.Trim level) }
        ensures { Transition self.old who (events.Trim level) (noted result) self.new }
    {
        self.trim(level);
        Reply::Done
    }

    fn answer_load(&mut self, history: &History, who: u32, spec: LoadSpec) -> Reply
        requires { MayStep self.old history.now.value who (events.Load spec) }
        ensures { Transition self.old who (events.Load spec) (noted result) self.new }
    {
        self.load(who, spec)
    }

    fn answer_totals(&mut self, history: &History, who: u32) -> Reply
        requires { MayStep self.old history.now.value who events.Totals }
        ensures { Transition self.old who events.Totals (noted result) self.new }
    {
        Reply::Totals(self.totals())
    }

    fn answer_close(&mut self, who: u32) -> Reply
        ensures { Transition self.old who events.Close (noted result) self.new }
    {
        self.close();
        Reply::Done
    }

    /// Answers an event of a seat.
    pub fn answer(&mut self, history: &History, who: u32, event: Event) -> Reply
        requires { MayStep self.old history.now.value who event }
        ensures step { Transition self.old who event (noted result) self.new }
        ensures padded { PadsPiece event result }
    {
        match event {
            Event::Load(spec) => self.answer_load(history, who, spec),
            Event::Collect(number) => self.answer_collect(history, who, number),
            Event::Look(number) => self.answer_look(history, who, number),
            Event::Read(number, at) => self.answer_read(history, who, number, at),
            Event::Release(number) => self.answer_release(history, who, number),
            Event::NextJob(room) => self.answer_next_job(history, who, room),
            Event::Take(job, width, height, config) => {
                self.answer_take(history, who, job, width, height, config)
            }
            Event::GiveBack(job, bitmap) => self.answer_give_back(history, who, job, bitmap),
            Event::Finish(job, bitmap) => self.answer_finish(history, who, job, bitmap),
            Event::Fail(job, cause) => self.answer_fail(history, who, job, cause),
            Event::Quit(job) => self.answer_quit(history, who, job),
            Event::IsCancelled(job) => self.answer_is_cancelled(history, who, job),
            Event::Trim(level) => self.answer_trim(history, who, level),
            Event::Close => self.answer_close(who),
            Event::Totals => self.answer_totals(history, who),
        }
    }
}
