// One exchange of a client.
ghost use Rattle.std.specs.Prelude.{◌≡◌};
ghost use Rattle.dm_heads.specs.Asking.{Asks};
ghost use Rattle.dm_heads.specs.declared.heads.HeadKind.TheVariants.{Reply as AReply};
ghost use Rattle.dm_http.specs.Posts.{PutsRequest, StreamCounts, TakesReply};
ghost use Rattle.dm_http.specs.Texts as Spec;

use crate::texts::request_text;
use dm_base::{Bytes, Fault, Stream, put_all};
use dm_heads::{HeadKind, HttpError, receive};
use std::alloc::Global;

/// Puts a request with a message to a path on a host, and takes the body of its reply, of at most 65,536 bytes
/// (RFC 9112). The whole request is put before a byte is taken. `BadHead`, `NotOk`, `TooLong` and `Cut` are what the
/// reply's bytes bring, in this order. `Failed` comes only where a count of the stream rose, and every other answer
/// leaves both. No byte is asked for once those taken settle the answer.
#[tactic(auto, unfolding(crate::specs::Posts::PutsRequest, crate::specs::Posts::TakesReply, crate::specs::Posts::StreamCounts, dm_heads::specs::Receiving::ReceivesBody))]
pub fn post<C: Stream>(
    alloc: Global,
    conn: &mut C,
    host: &[u8],
    path: &[u8],
    body: &[u8],
) -> Result<Bytes, HttpError>
    ensures request { PutsRequest (C.Sink.got conn.old) (C.Sink.got conn.new)
        (Spec.request_text host.now path.now body.now) result }
    ensures reply { TakesReply (C.Source.left conn.old) (C.Source.left conn.new) result }
    ensures asked { Asks AReply (C.Source.left conn.old) (C.Source.left conn.new) result }
    ensures count { StreamCounts (C.Source.faults conn.old) (C.Source.faults conn.new) (C.Sink.faults conn.old)
        (C.Sink.faults conn.new) result }
{
    let text = match request_text(alloc, host, path, body) {
        Ok(text) => text,
        Err(_) => return Err(HttpError::Memory),
    };
    match put_all(conn, text.as_slice()) {
        Ok(()) => receive(alloc, conn, HeadKind::Reply),
        Err(Fault::Failed) => Err(HttpError::Failed),
        Err(Fault::Memory) => Err(HttpError::Memory),
    }
}
