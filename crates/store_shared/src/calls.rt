// The calls of the disk store.
ghost use Rattle.std.specs.Prelude.{◌≡◌, IfSome};
ghost use Rattle.cache_key.specs.KeyBytes.{key_bytes_of};
ghost use Rattle.store_world.specs.Right.{IsPayload, entry_of};
ghost use Rattle.store_shared.specs.declared.answers.Stored.TheVariants as answers;
ghost use Rattle.store_shared.specs.Caller.{Caller, content_of, MadeSteps};
ghost use Rattle.store_shared.specs.Answers.{answer_of, Fetches, FindsRight, Stores, CommitsEntry};

use crate::answers::Stored;
use cache_key::{KeyRoom, Which};
use disk_lru::DiskFault;
use std::alloc::Global;

/// The disk store as one caller sees it. Others may make steps between two steps of this caller's.
///
/// Each call is a few steps of the caller's seat, and between two calls the caller wants no lock. The room shows the load whose
/// entry is read or stored. Want of memory for the key bytes is found before any step.
pub trait StoreCalls {
    // The caller's seat, what the store began with, and what the caller has seen.
    ghost caller: { Self → Caller };

    /// Reads the entry of a load. None comes exactly where the store is off, the key is not offered, or the entry's file is not
    /// the envelope of these key bytes. A failure comes only where the files counted one.
    fn fetch(
        &mut self,
        alloc: Global,
        room: &KeyRoom,
        which: Which,
    ) -> Result<Option<Vec<u8>>, DiskFault>
        ensures steps { MadeSteps
            (Fetches (key_bytes_of which room.now.key) (answer_of (λ bytes. bytes.items) result))
            (caller self.old) (caller self.new) }
        ensures right { FindsRight (content_of (caller self.old)) which room.now.key
            (answer_of (λ bytes. bytes.items) result) }
        ensures content { content_of (caller self.new) ≡ content_of (caller self.old) };

    /// Stores the entry of a load, where it has none. The caller has the key's write lock while it does so, and has given it
    /// back at the end, whatever the answer is. A store that is off is found first, and then an entry that is too large.
    fn store(&mut self, alloc: Global, room: &KeyRoom, which: Which, payload: &[u8]) -> Stored
        requires right { IfSome (content_of (caller self.old))
            (λ content. IsPayload content which room.now.key payload.now) }
        ensures steps { MadeSteps (Stores (key_bytes_of which room.now.key) payload.now result)
            (caller self.old) (caller self.new) }
        ensures stored { result ≡ answers.Stored
            → CommitsEntry (entry_of which room.now.key payload.now) (caller self.old) (caller self.new) }
        ensures content { content_of (caller self.new) ≡ content_of (caller self.old) };
}
