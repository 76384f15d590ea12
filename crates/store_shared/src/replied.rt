// What the store's replies are as answers of the calls.
ghost use Rattle.std.specs.Prelude.{◌≡◌};
ghost use Rattle.store_world.specs.Steps.{fetched, done};
ghost use Rattle.store_shared.specs.Answers.{failed_by};
ghost use Rattle.store_shared.specs.Replied.{RepliesToFetch, IsDone};

use crate::answers::Stored;
use disk_lru::DiskFault;
use disk_store::{Chunk, StoreReply};

/// The bytes of an entry.
pub fn found_in(reply: StoreReply) -> Result<Option<Chunk>, DiskFault>
    requires { RepliesToFetch reply }
    ensures { fetched result ≡ reply }
{
    match reply {
        StoreReply::Bytes(found) => Ok(found),
        StoreReply::Fault(fault) => Err(fault),
        _ => unreachable!(),
    }
}

/// Whether it was done.
pub fn done_in(reply: StoreReply) -> Result<(), DiskFault>
    requires { IsDone reply }
    ensures { done result ≡ reply }
{
    match reply {
        StoreReply::Done => Ok(()),
        StoreReply::Fault(fault) => Err(fault),
        _ => unreachable!(),
    }
}

/// What a failure of the disk cache is answered.
pub fn failed_by(fault: DiskFault) -> Stored
    ensures { result ≡ failed_by fault }
{
    match fault {
        DiskFault::Failed => Stored::Failed,
        DiskFault::Memory => Stored::Memory,
    }
}
