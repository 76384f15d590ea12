// The table over one vector, which is walked.
ghost use Rattle.std.specs.Prelude.{◌≡◌, ◌<◌, Some, None, IsSome, IfOk, slice_get, count_by, ◌==◌};
ghost use Rattle.std.specs.Option.{option_map};
ghost use Rattle.std.specs.FinMap.{empty, get, insert, remove, len};
ghost use Rattle.finite_maps.specs.Maps.{map_values};
ghost use Rattle.load_table.specs.Loads.{waits_on, ready_on, state_of, settled, waiting, holders, owned};
ghost use Rattle.load_table.specs.LoadsView.{entry_of, found_as, settled_entry};

use faults::NoMemory;
use std::alloc::Global;
use std::marker::Model;

#[cfg(test)]
mod tests;

/// A load waits on a job, is ready on a resource, or has failed with a cause.
#[derive(Clone, Copy, Debug, PartialEq, Eq)]
pub enum LoadState<C> {
    Waiting(u64),
    Ready(u64),
    Failed(C),
}

/// What the loads that waited on a job come to.
#[derive(Clone, Copy, Debug, PartialEq, Eq)]
pub enum Settle<C> {
    Ready(u64),
    Failed(C),
}

#[derive(Clone, Copy)]
struct LoadEntry<C> {
    owner: u32,
    number: u64,
    state: LoadState<C>,
}

/// All loads, by the seat of their owner and their number among its loads. After `new` no call takes memory.
#[derive(Drop)]
pub struct LoadTable<C: Copy> {
    room: usize,
    entries: Vec<LoadEntry<C>>,
}

impl<C: Copy> Model for LoadTable<C> {
    ghost use Rattle.std.specs.Coded.{codes};
    ghost use Rattle.std.specs.FinMap as map;
    ghost use Rattle.load_table.specs.Loads.{LoadsValue};

    ghost Value = { LoadsValue C };

    ghost coded = { Prim.hlevel (codes, map.code, C.code) };

    ghost use Rattle.load_table.specs.LoadsView.{value_of, IsTable};

    ghost view = { value_of };

    ghost invariant = { IsTable };
}

fn waits_on<C: Copy>(state: &LoadState<C>, job: u64) -> bool
    ensures { result ≡ waits_on job state.now }
{
    match state {
        LoadState::Waiting(waited) => *waited == job,
        LoadState::Ready(_) | LoadState::Failed(_) => false,
    }
}

fn ready_on<C: Copy>(state: &LoadState<C>, resource: u64) -> bool
    ensures { result ≡ ready_on resource state.now }
{
    match state {
        LoadState::Ready(ready) => *ready == resource,
        LoadState::Waiting(_) | LoadState::Failed(_) => false,
    }
}

impl<C: Copy> Settle<C> {
    // The state of a load that came to this.
    fn state(self) -> LoadState<C>
        ensures { result ≡ state_of self }
    {
        match self {
            Settle::Ready(resource) => LoadState::Ready(resource),
            Settle::Failed(cause) => LoadState::Failed(cause),
        }
    }
}

// An entry as it is when the job has ended so.
fn settled_entry<C: Copy>(entry: LoadEntry<C>, job: u64, to: Settle<C>) -> LoadEntry<C>
    ensures { result ≡ settled_entry job to entry }
{
    if waits_on(&entry.state, job) {
        LoadEntry {
            state: to.state(),
            ..entry
        }
    } else {
        entry
    }
}

// The place of a load's entry, or how many entries there are.
fn place_of<C: Copy>(entries: &[LoadEntry<C>], owner: u32, number: u64) -> usize
    ensures { option_map entry_of (slice_get entries.now result) ≡
        found_as (owner, number) entries.now }
{
    for i in 0..entries.len() {
        if entries[i].owner == owner && entries[i].number == number {
            return i;
        }
    }
    entries.len()
}

// How many entries wait on a job.
fn waiting_among<C: Copy>(entries: &[LoadEntry<C>], job: u64) -> usize
    ensures { result ≡ count_by (λ entry. waits_on job entry.state) entries.now }
{
    let entries = entries.iter();
    entries.filter(|entry| waits_on(&entry.state, job)).count()
}

// How many are ready on a resource.
fn holders_among<C: Copy>(entries: &[LoadEntry<C>], resource: u64) -> usize
    ensures { result ≡ count_by (λ entry. ready_on resource entry.state) entries.now }
{
    let entries = entries.iter();
    entries
        .filter(|entry| ready_on(&entry.state, resource))
        .count()
}

// How many an owner has.
fn owned_among<C: Copy>(entries: &[LoadEntry<C>], owner: u32) -> usize
    ensures { result ≡ count_by (λ entry. entry.owner == owner) entries.now }
{
    entries.iter().filter(|entry| entry.owner == owner).count()
}

impl<C: Copy> LoadTable<C> {
    /// No load, with room for so many.
    pub fn new(alloc: Global, room: usize) -> Result<LoadTable<C>, NoMemory>
        requires { room < 4294967296 }
        ensures { IfOk result (λ table. table ≡ record { room = room; loads = empty }) }
    {
        Ok(LoadTable {
            room,
            entries: Vec::with_capacity(alloc, room)?,
        })
    }

    /// Adds a load that is not there.
    pub fn add(&mut self, owner: u32, number: u64, state: LoadState<C>)
        requires room { len self.old.loads < self.old.room }
        requires absent { get self.old.loads (owner, number) ≡ None }
        ensures { self.new ≡ record self.old { loads = insert self.old.loads (owner, number) state } }
    {
        self.entries.push_reserved(LoadEntry {
            owner,
            number,
            state,
        });
    }

    /// What a load has come to.
    pub fn state(&self, owner: u32, number: u64) -> &LoadState<C>
        requires { IsSome (get self.now.loads (owner, number)) }
        ensures { get self.now.loads (owner, number) ≡ Some result.now }
    {
        let place = place_of(&self.entries, owner, number);
        &self.entries[place].state
    }

    /// Takes a load out, and tells what it has come to.
    pub fn remove(&mut self, owner: u32, number: u64) -> LoadState<C>
        requires { IsSome (get self.old.loads (owner, number)) }
        ensures state { get self.old.loads (owner, number) ≡ Some result }
        ensures left { self.new ≡ record self.old { loads = remove self.old.loads (owner, number) } }
    {
        let place = place_of(&self.entries, owner, number);
        self.entries.remove(place).state
    }

    /// Each load that waits on the job comes to this state. It answers how many there were.
    pub fn settle(&mut self, job: u64, to: Settle<C>) -> u32
        ensures count { result ≡ waiting job self.old.loads }
        ensures loads { self.new ≡
            record self.old { loads = map_values (settled job to) self.old.loads } }
    {
        let count = self.waiting(job);
        for i in 0..self.entries.len() {
            let entry = self.entries[i];
            self.entries[i] = settled_entry(entry, job, to);
        }
        count
    }

    /// How many loads wait on a job.
    pub fn waiting(&self, job: u64) -> u32
        ensures { result ≡ waiting job self.now.loads }
    {
        waiting_among(&self.entries, job) as u32
    }

    /// How many loads are ready on a resource.
    pub fn count_of(&self, resource: u64) -> u32
        ensures { result ≡ holders resource self.now.loads }
    {
        holders_among(&self.entries, resource) as u32
    }

    /// How many loads an owner has.
    pub fn live(&self, owner: u32) -> u32
        ensures { result ≡ owned owner self.now.loads }
    {
        owned_among(&self.entries, owner) as u32
    }
}
