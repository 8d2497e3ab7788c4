// What runs over forms in memory may reach.
ghost use Rattle.std.specs.Prelude.{◌≡◌, []};
ghost use Rattle.dm_outside.specs.Streams.{AreUntouched};

use crate::reach::Reach;
use dm_base::List;
use dm_outside::{MemDialer, MemDoor, MemNonces, MemStream, MemUpdater};
use std::alloc::Global;

/// What is outside where no dial succeeds, these connections come, and no update is to be made.
pub fn reach_of(
    alloc: Global,
    conns: List<Option<MemStream>>,
) -> Reach<MemDialer, MemDoor, MemUpdater, MemNonces>
    requires { AreUntouched conns }
    ensures idle { result.dialer.calls.out ≡ [] }
    ensures empty { result.door.doorway.out ≡ [] }
{
    Reach {
        dialer: MemDialer::new(alloc, List::new(alloc)),
        door: MemDoor::new(alloc, true, conns),
        updater: MemUpdater::new(alloc, List::new(alloc)),
        nonces: MemNonces::new(List::new(alloc)),
    }
}
