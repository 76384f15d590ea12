// The events of a seat's loads.
ghost use Rattle.std.specs.Prelude.{◌≡◌, ◌<◌, length, OnOk};
ghost use Rattle.random_events.specs.Seats.{IsSeatOf, IsActOf};
ghost use Rattle.random_events.specs.Written.{listed_by, marked_by};

use crate::acts::act;
use crate::seats::Seat;
use crate::texts::{write_load, write_reply};
use cache_key::LoadSpec;
use engine_core::{Core, Reply};
use engine_world::Event;
use faults::NoMemory;
use std::alloc::Global;

impl Seat {
    // A load was answered so.
    fn list_by(&mut self, reply: &Reply) -> Result<(), NoMemory>
        requires { self.old.begun < 1099511627776 }
        ensures { OnOk result (self.new ≡ listed_by reply.now self.old) }
    {
        match reply {
            Reply::Full => Ok(()),
            Reply::Ready => self.list(true),
            _ => self.list(false),
        }
    }

    // The load at a place of the list, which has this number, was collected and answered so.
    fn mark_by(&mut self, place: usize, number: u64, reply: &Reply)
        requires { place < length self.old.loads }
        ensures { self.new ≡ marked_by place number reply.now self.old }
    {
        match reply {
            Reply::Ready => self.mark(place, number),
            _ => {}
        }
    }

    /// The seat wants a picture.
    pub fn load(
        &mut self,
        core: &mut Core,
        who: u32,
        line: &mut String,
        spec: LoadSpec,
    ) -> Result<(), NoMemory>
        requires seat { IsSeatOf core.old who self.old }
        requires few { self.old.begun < 1099511627776 }
        ensures seat { OnOk result (IsSeatOf core.new who self.new) }
        ensures acts { OnOk result (IsActOf who core.old core.new) }
    {
        write_load(line, who, &spec)?;
        let reply = act(core, who, Event::Load(spec));
        write_reply(line, &reply)?;
        self.list_by(&reply)
    }

    /// What has the load at a place of the list come to?
    pub fn collect(
        &mut self,
        core: &mut Core,
        who: u32,
        line: &mut String,
        place: usize,
    ) -> Result<(), NoMemory>
        requires seat { IsSeatOf core.old who self.old }
        requires place { place < length self.old.loads }
        ensures seat { OnOk result (IsSeatOf core.new who self.new) }
        ensures acts { OnOk result (IsActOf who core.old core.new) }
    {
        let number = self.listed(place).number;
        write!(line, "{who} Collect {number}: ")?;
        let reply = act(core, who, Event::Collect(number));
        self.mark_by(place, number, &reply);
        write_reply(line, &reply)
    }

    /// What size has its picture? Only where the seat was answered that the load is ready.
    pub fn look(
        &self,
        core: &mut Core,
        who: u32,
        line: &mut String,
        place: usize,
    ) -> Result<(), NoMemory>
        requires seat { IsSeatOf core.old who self.now }
        requires place { place < length self.now.loads }
        ensures seat { OnOk result (IsSeatOf core.new who self.now) }
        ensures acts { OnOk result (IsActOf who core.old core.new) }
    {
        let load = self.listed(place);
        let number = load.number;
        if !load.ready {
            return Ok(());
        }
        write!(line, "{who} Look {number}: ")?;
        let reply = act(core, who, Event::Look(number));
        write_reply(line, &reply)
    }

    /// What bytes has it from here on? Only where the seat was answered that the load is ready.
    pub fn read(
        &self,
        core: &mut Core,
        who: u32,
        line: &mut String,
        place: usize,
        at: usize,
    ) -> Result<(), NoMemory>
        requires seat { IsSeatOf core.old who self.now }
        requires place { place < length self.now.loads }
        ensures seat { OnOk result (IsSeatOf core.new who self.now) }
        ensures acts { OnOk result (IsActOf who core.old core.new) }
    {
        let load = self.listed(place);
        let number = load.number;
        if !load.ready {
            return Ok(());
        }
        write!(line, "{who} Read {number} {at}: ")?;
        let reply = act(core, who, Event::Read(number, at));
        write_reply(line, &reply)
    }

    /// The load is over.
    pub fn release(
        &mut self,
        alloc: Global,
        core: &mut Core,
        who: u32,
        line: &mut String,
        place: usize,
    ) -> Result<(), NoMemory>
        requires seat { IsSeatOf core.old who self.old }
        requires place { place < length self.old.loads }
        ensures seat { OnOk result (IsSeatOf core.new who self.new) }
        ensures acts { OnOk result (IsActOf who core.old core.new) }
    {
        let number = self.listed(place).number;
        let kept = self.others(alloc, number)?;
        write!(line, "{who} Release {number}: ")?;
        let reply = act(core, who, Event::Release(number));
        self.loads = kept;
        write_reply(line, &reply)
    }
}
