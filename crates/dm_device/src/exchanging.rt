// One exchange, over a connection of its own.
ghost use Rattle.std.specs.Prelude.{◌≡◌};
ghost use Rattle.dm_outside.specs.Calls.{IsIdle};
ghost use Rattle.dm_http.specs.Texts.{request_text};
ghost use Rattle.dm_device.specs.Exchanges as Spec;
ghost use Rattle.dm_device.specs.Exchanges.{Exchanges, ExchangeCounts};

use dm_base::{Bytes, Fault, Memory};
use dm_http::{HttpError, post};
use dm_outside::Dialer;
use std::alloc::Global;

/// What an exchange brought.
#[derive(Drop)]
pub enum ReplyHeard {
    /// The body of a reply.
    Body(Bytes),
    /// A fault, which the dialer counted.
    Fault,
    /// A reply that is refused.
    Refused,
}

fn heard_of(reply: Result<Bytes, HttpError>) -> Result<ReplyHeard, Memory>
    ensures { result ≡ Spec.heard_of reply }
{
    match reply {
        Ok(body) => Ok(ReplyHeard::Body(body)),
        Err(HttpError::Failed) => Ok(ReplyHeard::Fault),
        Err(HttpError::Memory) => Err(Memory),
        Err(HttpError::BadHead) => Ok(ReplyHeard::Refused),
        Err(HttpError::NotOk(_)) => Ok(ReplyHeard::Refused),
        Err(HttpError::TooLong) => Ok(ReplyHeard::Refused),
        Err(HttpError::Cut) => Ok(ReplyHeard::Refused),
    }
}

/// Dials an address, posts a message to a path there, and gives the connection back. The dialer's count rises exactly
/// where a fault is heard. The only error is want of memory, also where a reply came.
pub fn exchange<D: Dialer>(
    alloc: Global,
    dialer: &mut D,
    address: &[u8],
    path: &[u8],
    message: &[u8],
) -> Result<ReplyHeard, Memory>
    requires idle { IsIdle (D.told dialer.old) }
    ensures told { Exchanges (D.told dialer.old) (D.told dialer.new) address.now
        (request_text address.now path.now message.now) result }
    ensures count { ExchangeCounts (D.faults dialer.old) (D.faults dialer.new) result }
{
    let mut conn = match dialer.dial(address) {
        Ok(conn) => conn,
        Err(Fault::Failed) => return Ok(ReplyHeard::Fault),
        Err(Fault::Memory) => return Err(Memory),
    };
    let reply = post(alloc, &mut conn, address, path, message);
    dialer.close(conn);
    heard_of(reply)
}
