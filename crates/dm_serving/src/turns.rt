// Connections of a door, answered one after the other.
ghost use Rattle.std.specs.Prelude.{◌≡◌};
ghost use Rattle.dm_base.specs.Outside.{PutCounts};
ghost use Rattle.dm_outside.specs.Doors.{IsEmpty};
ghost use Rattle.dm_outside.specs.Told.{IfTold};
ghost use Rattle.dm_serving.specs.Turns.{door_and_nonces, VisitDoes, EndsRun, AllDo, ServingDoes};

use dm_base::Fault;
use dm_core::Core;
use dm_http::{HttpError, serve_one};
use dm_outside::{Door, Nonces};
use std::alloc::Global;

// What an exchange says of the run: a connection that fails doesn't end it.
fn fault_of(served: Result<(), HttpError>) -> Result<(), Fault>
    ensures { EndsRun served result }
{
    match served {
        Err(HttpError::Memory) => Err(Fault::Memory),
        _ => Ok(()),
    }
}

// Lets a connection in, answers it, and gives it back. A fault of the connection is none of the door.
fn answer_one<X: Core, P: Door, N: Nonces>(
    alloc: Global,
    core: &mut X,
    door: &mut P,
    nonces: &mut N,
) -> Result<(), Fault>
    requires empty { IsEmpty (P.told door.old) }
    ensures empty { IsEmpty (P.told door.new) }
    ensures turn { IfTold (door_and_nonces (P.told door.old) (N.left nonces.old))
        (door_and_nonces (P.told door.new) (N.left nonces.new)) (VisitDoes X.machine core.old core.new result) }
    ensures count { PutCounts (P.faults door.old) (P.faults door.new) result }
{
    let mut conn = door.accept()?;
    let served = serve_one(alloc, &mut conn, core, nonces.next());
    door.close(conn);
    fault_of(served)
}

/// Lets so many connections in, one after the other, and answers each with the next nonce. The n-th that is let in has
/// the n-th nonce, and one that fails or brings no request counts like another. The first `accept` that fails ends it by
/// `Failed`, which is the only way to it; want of memory ends it too, in a connection or before one came. Each
/// connection is given back.
pub fn answer_all<X: Core, P: Door, N: Nonces>(
    alloc: Global,
    count: u32,
    core: &mut X,
    door: &mut P,
    nonces: &mut N,
) -> Result<(), Fault>
    requires empty { IsEmpty (P.told door.old) }
    ensures empty { IsEmpty (P.told door.new) }
    ensures turns { IfTold (door_and_nonces (P.told door.old) (N.left nonces.old))
        (door_and_nonces (P.told door.new) (N.left nonces.new)) (AllDo X.machine count core.old core.new result) }
    ensures count { PutCounts (P.faults door.old) (P.faults door.new) result }
{
    for _ in 0..count {
        match answer_one(alloc, core, door, nonces) {
            Ok(()) => {}
            Err(fault) => return Err(fault),
        }
    }
    Ok(())
}

/// Listens at an address, and then answers so many connections, as `answer_all` does. `Failed` comes where the door
/// doesn't listen, too, and no connection is waited for then.
pub fn listen_and_answer<X: Core, P: Door, N: Nonces>(
    alloc: Global,
    address: &[u8],
    count: u32,
    core: &mut X,
    door: &mut P,
    nonces: &mut N,
) -> Result<(), Fault>
    requires empty { IsEmpty (P.told door.old) }
    ensures empty { IsEmpty (P.told door.new) }
    ensures run { IfTold (door_and_nonces (P.told door.old) (N.left nonces.old))
        (door_and_nonces (P.told door.new) (N.left nonces.new))
        (ServingDoes X.machine address.now count core.old core.new result) }
    ensures count { PutCounts (P.faults door.old) (P.faults door.new) result }
{
    match door.listen(address) {
        Ok(()) => answer_all(alloc, count, core, door, nonces),
        Err(fault) => Err(fault),
    }
}
