// The storing of an entry, step by step.
ghost use Rattle.std.specs.Prelude.{◌≡◌, ◌<◌, ◌^◌, [], length, None, IfSome, IsOk, IsErr};
ghost use Rattle.cache_key.specs.KeyBytes.{key_bytes_of};
ghost use Rattle.cache_key.specs.FileKey.{file_key};
ghost use Rattle.store_world.specs.declared.events.StoreEvent.TheVariants as events;
ghost use Rattle.store_world.specs.declared.events.StoreReply.{StoreReply};
ghost use Rattle.store_world.specs.declared.events.StoreReply.TheVariants as replies;
ghost use Rattle.store_world.specs.Envelopes.{envelope};
ghost use Rattle.store_world.specs.Right.{IsPayload, IsRightIn, entry_of};
ghost use Rattle.store_world.specs.World.{SeatEdit};
ghost use Rattle.store_world.specs.Steps.{closed_edit, done};
ghost use Rattle.store_world.specs.StoreMachine.{noted};
ghost use Rattle.store_shared.specs.declared.answers.Stored.TheVariants as answers;
ghost use Rattle.store_shared.specs.Caller.{knowledge_of, content_of, IsStep, MadeSteps};
ghost use Rattle.store_shared.specs.Answers.{Writes, Edits, LockedSteps, Stores, IsCommit, CommitsEntry};
ghost use Rattle.store_shared.specs.Holding.{edit_of, wanting, holding, editing, leaving, IsWanted};

use crate::answers::Stored;
use crate::replied::{done_in, failed_by};
use crate::steps::StoreSteps;
use cache_key::{KeyRoom, Which, key_bytes, safe_key};
use disk_lru::DiskFault;
use disk_store::{Chunk, StoreEvent, StoreReply, envelope};
use std::alloc::Global;
use std::snapshot::Snapshot;
use store_world::{commits_store, entries_are_right};

// How many bytes an entry's file has besides its key bytes and its payload.
const BESIDE_PARTS: u64 = 12;

// Wants the write lock of an entry, or answers why it is not to be had.
fn want<S: StoreSteps>(steps: &mut S, bytes: &[u8], payload: &[u8]) -> Result<(), Stored>
    requires few { length bytes.now < 2 ^ 32 }
    requires idle { knowledge_of (S.caller steps.old) ≡ None }
    ensures { IsWanted bytes.now payload.now result (S.caller steps.old) (S.caller steps.new) }
{
    let length = bytes.len() as u64 + BESIDE_PARTS + payload.len() as u64;
    match steps.step(StoreEvent::Want(safe_key(bytes), length, payload.len() as u64)) {
        StoreReply::Done => Ok(()),
        StoreReply::Off => Err(Stored::Off),
        StoreReply::TooLarge => Err(Stored::TooLarge),
        _ => unreachable!(),
    }
}

// Gives the edit up, whatever that is answered.
fn give_up<S: StoreSteps>(steps: &mut S, bytes: &[u8])
    requires edit { (edit : SeatEdit)
        × (knowledge_of (S.caller steps.old) ≡ editing edit (file_key bytes.now)) }
    ensures step { (reply : StoreReply)
        × IsStep (S.caller steps.old) (noted events.GiveUp reply) (S.caller steps.new) }
    ensures leaving { knowledge_of (S.caller steps.new) ≡ leaving (file_key bytes.now) }
{
    let _ = steps.step(StoreEvent::GiveUp);
}

// Writes the file of an entry to the edit that was begun.
fn write<S: StoreSteps>(steps: &mut S, bytes: &[u8], file: Vec<u8>) -> Result<(), DiskFault>
    requires editing { knowledge_of (S.caller steps.old) ≡ editing (edit_of []) (file_key bytes.now) }
    requires length { length file.items < 2 ^ 40 }
    ensures step { IsStep (S.caller steps.old) (noted (events.Write file.items) (done result))
        (S.caller steps.new) }
    ensures written { IsOk result → knowledge_of (S.caller steps.new)
        ≡ editing (edit_of file.items) (file_key bytes.now) }
    ensures closed { IsErr result → knowledge_of (S.caller steps.new)
        ≡ editing (closed_edit (edit_of [])) (file_key bytes.now) }
{
    done_in(steps.step(StoreEvent::Write(Chunk::new(file))))
}

// Commits what was written.
fn commit<S: StoreSteps>(
    steps: &mut S,
    bytes: &[u8],
    file: &Snapshot<Vec<u8>>,
) -> Result<(), DiskFault>
    requires editing { knowledge_of (S.caller steps.old)
        ≡ editing (edit_of file.now.value.items) (file_key bytes.now) }
    requires right { IsRightIn (content_of (S.caller steps.old))
        (file_key bytes.now, file.now.value.items) }
    ensures commit { IsCommit (file_key bytes.now, file.now.value.items) result
        (S.caller steps.old) (S.caller steps.new) }
    ensures leaving { knowledge_of (S.caller steps.new) ≡ leaving (file_key bytes.now) }
{
    commits_store();
    done_in(steps.step(StoreEvent::Commit))
}

// Writes the file of an entry to the edit that was begun, and commits it; or gives the edit up.
fn write_and_commit<S: StoreSteps>(steps: &mut S, bytes: &[u8], file: Vec<u8>) -> Stored
    requires editing { knowledge_of (S.caller steps.old) ≡ editing (edit_of []) (file_key bytes.now) }
    requires length { length file.items < 2 ^ 40 }
    requires right { IsRightIn (content_of (S.caller steps.old)) (file_key bytes.now, file.items) }
    ensures steps { MadeSteps (Writes file.items result) (S.caller steps.old) (S.caller steps.new) }
    ensures stored { result ≡ answers.Stored
        → CommitsEntry (file_key bytes.now, file.items) (S.caller steps.old) (S.caller steps.new) }
    ensures leaving { knowledge_of (S.caller steps.new) ≡ leaving (file_key bytes.now) }
{
    let shown = Snapshot::of(&file);
    if let Err(fault) = write(steps, bytes, file) {
        give_up(steps, bytes);
        return failed_by(fault);
    }
    match commit(steps, bytes, &shown) {
        Ok(()) => Stored::Stored,
        Err(fault) => failed_by(fault),
    }
}

// Stores an entry in the edit that was begun.
fn fill<S: StoreSteps>(alloc: Global, steps: &mut S, bytes: &[u8], payload: &[u8]) -> Stored
    requires bytes { length bytes.now < 2 ^ 32 }
    requires payload { length payload.now < 2 ^ 32 }
    requires editing { knowledge_of (S.caller steps.old) ≡ editing (edit_of []) (file_key bytes.now) }
    requires right { IsRightIn (content_of (S.caller steps.old))
        (file_key bytes.now, envelope bytes.now payload.now) }
    ensures steps { MadeSteps (Writes (envelope bytes.now payload.now) result)
        (S.caller steps.old) (S.caller steps.new) }
    ensures stored { result ≡ answers.Stored
        → CommitsEntry (file_key bytes.now, envelope bytes.now payload.now)
        (S.caller steps.old) (S.caller steps.new) }
    ensures leaving { knowledge_of (S.caller steps.new) ≡ leaving (file_key bytes.now) }
{
    let Ok(file) = envelope(alloc, bytes, payload) else {
        give_up(steps, bytes);
        return Stored::Memory;
    };
    write_and_commit(steps, bytes, file)
}

// Stores an entry with the lock that the caller has, where the key has none.
fn edit<S: StoreSteps>(alloc: Global, steps: &mut S, bytes: &[u8], payload: &[u8]) -> Stored
    requires bytes { length bytes.now < 2 ^ 32 }
    requires payload { length payload.now < 2 ^ 32 }
    requires holding { knowledge_of (S.caller steps.old) ≡ holding (file_key bytes.now) }
    requires right { IsRightIn (content_of (S.caller steps.old))
        (file_key bytes.now, envelope bytes.now payload.now) }
    ensures steps { MadeSteps (Edits (envelope bytes.now payload.now) result)
        (S.caller steps.old) (S.caller steps.new) }
    ensures stored { result ≡ answers.Stored
        → CommitsEntry (file_key bytes.now, envelope bytes.now payload.now)
        (S.caller steps.old) (S.caller steps.new) }
    ensures leaving { knowledge_of (S.caller steps.new) ≡ leaving (file_key bytes.now) }
{
    match steps.step(StoreEvent::Begin) {
        StoreReply::Already => Stored::Already,
        StoreReply::Done => fill(alloc, steps, bytes, payload),
        StoreReply::Fault(fault) => failed_by(fault),
        _ => unreachable!(),
    }
}

// Gives the lock back.
fn leave<S: StoreSteps>(steps: &mut S, bytes: &[u8])
    requires leaving { knowledge_of (S.caller steps.old) ≡ leaving (file_key bytes.now) }
    ensures step { IsStep (S.caller steps.old) (noted events.Done replies.Done) (S.caller steps.new) }
    ensures idle { knowledge_of (S.caller steps.new) ≡ None }
{
    let _ = steps.step(StoreEvent::Done);
}

// Waits for the lock that the caller wants, stores the entry, and gives the lock back.
fn with_lock<S: StoreSteps>(alloc: Global, steps: &mut S, bytes: &[u8], payload: &[u8]) -> Stored
    requires bytes { length bytes.now < 2 ^ 32 }
    requires payload { length payload.now < 2 ^ 32 }
    requires wanting { knowledge_of (S.caller steps.old) ≡ wanting (file_key bytes.now) }
    requires right { IsRightIn (content_of (S.caller steps.old))
        (file_key bytes.now, envelope bytes.now payload.now) }
    ensures steps { MadeSteps (LockedSteps (envelope bytes.now payload.now) result)
        (S.caller steps.old) (S.caller steps.new) }
    ensures stored { result ≡ answers.Stored
        → CommitsEntry (file_key bytes.now, envelope bytes.now payload.now)
        (S.caller steps.old) (S.caller steps.new) }
    ensures idle { knowledge_of (S.caller steps.new) ≡ None }
{
    steps.lock();
    let answer = edit(alloc, steps, bytes, payload);
    leave(steps, bytes);
    answer
}

/// Stores the entry of the load that the room shows, where it has none.
pub fn store_by_steps<S: StoreSteps>(
    alloc: Global,
    steps: &mut S,
    room: &KeyRoom,
    which: Which,
    payload: &[u8],
) -> Stored
    requires idle { knowledge_of (S.caller steps.old) ≡ None }
    requires right { IfSome (content_of (S.caller steps.old))
        (λ content. IsPayload content which room.now.key payload.now) }
    ensures steps { MadeSteps (Stores (key_bytes_of which room.now.key) payload.now result)
        (S.caller steps.old) (S.caller steps.new) }
    ensures stored { result ≡ answers.Stored
        → CommitsEntry (entry_of which room.now.key payload.now)
        (S.caller steps.old) (S.caller steps.new) }
    ensures content { content_of (S.caller steps.new) ≡ content_of (S.caller steps.old) }
    ensures idle { knowledge_of (S.caller steps.new) ≡ None }
{
    entries_are_right();
    room.spec().key.limits();
    let Ok(bytes) = key_bytes(alloc, room, which) else {
        return Stored::Memory;
    };
    match want(steps, &bytes, payload) {
        Err(answer) => answer,
        Ok(()) => with_lock(alloc, steps, &bytes, payload),
    }
}
