// The table over one vector, which is walked.
ghost use Rattle.std.specs.Prelude.{◌≡◌, ◌<◌, Some, None, IsSome, IfOk, map, slice_get};
ghost use Rattle.std.specs.Ordering.{nat_cmp};
ghost use Rattle.std.specs.FinMap.{empty, get, insert, remove, len, find};
ghost use Rattle.resource_table.specs.ResourceTableView.{entry_of};

use cache_key::{EngineKey, KeyOf};
use engine_resource::Resource;
use faults::NoMemory;
use std::alloc::Global;
use std::marker::Model;

#[cfg(test)]
mod tests;

/// The resources, each by its number, which is its bitmap's. After `new` no call takes memory.
#[derive(Drop)]
pub struct ResourceTable {
    room: usize,
    entries: Vec<Resource>,
}

impl Model for ResourceTable {
    ghost use Rattle.std.specs.Coded.{codes};
    ghost use Rattle.std.specs.FinMap as map;
    ghost use Rattle.resource_table.specs.Resources.{ResourceTableValue};

    ghost Value = { ResourceTableValue };

    ghost coded = { Prim.hlevel (codes, map.code) };

    ghost use Rattle.resource_table.specs.ResourceTableView.{value_of, IsTable};

    ghost view = { value_of };

    ghost invariant = { IsTable };
}

// Where a number's resource stands, or how many there are where there is none.
fn place_of(entries: &[Resource], number: u64) -> usize
    ensures { slice_get entries.now result ≡ find nat_cmp number (map entry_of entries.now) }
{
    for i in 0..entries.len() {
        if entries[i].number() == number {
            return i;
        }
    }
    entries.len()
}

impl ResourceTable {
    /// No resource, with room for so many.
    pub fn new(alloc: Global, room: usize) -> Result<ResourceTable, NoMemory>
        ensures { IfOk result (λ table. table ≡ record { room = room; resources = empty }) }
    {
        Ok(ResourceTable {
            room,
            entries: Vec::with_capacity(alloc, room)?,
        })
    }

    /// Adds a resource, whose number none has yet.
    pub fn add(&mut self, resource: Resource)
        requires room { len self.old.resources < self.old.room }
        requires absent { get self.old.resources resource.bitmap.number ≡ None }
        ensures { self.new ≡ record self.old { resources = insert self.old.resources resource.bitmap.number resource } }
    {
        self.entries.push_reserved(resource);
    }

    /// The resource of a number.
    pub fn get(&self, number: u64) -> &Resource
        requires { IsSome (get self.now.resources number) }
        ensures resource { get self.now.resources number ≡ Some result.now }
        ensures number { result.now.bitmap.number ≡ number }
    {
        let place = place_of(&self.entries, number);
        &self.entries[place]
    }

    /// Takes a resource out.
    pub fn remove(&mut self, number: u64) -> Resource
        requires { IsSome (get self.old.resources number) }
        ensures resource { get self.old.resources number ≡ Some result }
        ensures number { result.bitmap.number ≡ number }
        ensures left { self.new ≡ record self.old { resources = remove self.old.resources number } }
    {
        let place = place_of(&self.entries, number);
        self.entries.remove(place)
    }

    /// How many resources there are.
    pub fn len(&self) -> usize
        ensures { result ≡ len self.now.resources }
    {
        self.entries.len()
    }
}

impl KeyOf for ResourceTable {
    ghost use Rattle.resource_table.specs.Resources.{keys_of};

    ghost keys = { λ table. keys_of table.resources };

    fn key(&self, number: u64) -> &EngineKey {
        self.get(number).key()
    }
}
