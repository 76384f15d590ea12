// A read of an entry, step by step.
ghost use Rattle.std.specs.Prelude.{◌≡◌, ◌<◌, ◌^◌, length, IfErr};
ghost use Rattle.cache_key.specs.KeyBytes.{key_bytes_of};
ghost use Rattle.cache_key.specs.FileKey.{file_key};
ghost use Rattle.store_world.specs.declared.events.StoreEvent.TheVariants as events;
ghost use Rattle.store_world.specs.declared.events.StoreReply.TheVariants as replies;
ghost use Rattle.store_world.specs.Steps.{fetched};
ghost use Rattle.store_world.specs.StoreMachine.{noted};
ghost use Rattle.store_shared.specs.Caller.{knowledge_of, content_of, IsStep, MadeSteps};
ghost use Rattle.store_shared.specs.Answers.{answer_of, IsRead, Fetches, FindsRight};

use crate::replied::found_in;
use crate::steps::StoreSteps;
use cache_key::{KeyRoom, Which, key_bytes, safe_key};
use disk_lru::DiskFault;
use disk_store::{Chunk, StoreEvent, payload_of};
use std::alloc::Global;
use store_world::{entries_are_right, envelopes_are_read_as_written, fetches_are_right};

// The file of the entry of these key bytes.
fn read<S: StoreSteps>(steps: &mut S, bytes: &[u8]) -> Result<Option<Chunk>, DiskFault>
    ensures { IsStep (S.caller steps.old) (noted (events.Fetch (file_key bytes.now)) (fetched result))
        (S.caller steps.new) }
{
    found_in(steps.step(StoreEvent::Fetch(safe_key(bytes))))
}

// The payload in what was read.
fn payload_in(
    alloc: Global,
    bytes: &[u8],
    found: Option<Chunk>,
) -> Result<Option<Vec<u8>>, DiskFault>
    requires { length bytes.now < 2 ^ 32 }
    ensures { IsRead bytes.now (answer_of (λ bytes. bytes.items) result) (replies.Bytes found) }
{
    let Some(file) = found else {
        return Ok(None);
    };
    match payload_of(alloc, bytes, file.into_bytes()) {
        Ok(payload) => Ok(payload),
        Err(_) => Err(DiskFault::Memory),
    }
}

/// Reads the entry of the load that the room shows.
pub fn fetch_by_steps<S: StoreSteps>(
    alloc: Global,
    steps: &mut S,
    room: &KeyRoom,
    which: Which,
) -> Result<Option<Vec<u8>>, DiskFault>
    ensures steps { MadeSteps
        (Fetches (key_bytes_of which room.now.key) (answer_of (λ bytes. bytes.items) result))
        (S.caller steps.old) (S.caller steps.new) }
    ensures right { FindsRight (content_of (S.caller steps.old)) which room.now.key
        (answer_of (λ bytes. bytes.items) result) }
    ensures content { content_of (S.caller steps.new) ≡ content_of (S.caller steps.old) }
    ensures same { knowledge_of (S.caller steps.new) ≡ knowledge_of (S.caller steps.old) }
{
    fetches_are_right();
    envelopes_are_read_as_written();
    entries_are_right();
    room.spec().key.limits();
    let Ok(bytes) = key_bytes(alloc, room, which) else {
        return Err(DiskFault::Memory);
    };
    match read(steps, &bytes) {
        Ok(found) => payload_in(alloc, &bytes, found),
        Err(fault) => Err(fault),
    }
}
