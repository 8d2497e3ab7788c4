// One exchange of a server.
ghost use Rattle.std.specs.Prelude.{◌≡◌, ◌≢◌};
ghost use Rattle.dm_core.specs.Machines.{CoreReply, TellsReply};
ghost use Rattle.dm_heads.specs.Asking.{Asked, AskedUnsettled};
ghost use Rattle.dm_heads.specs.Receiving.{HttpCounts};
ghost use Rattle.dm_heads.specs.declared.heads.HeadKind.TheVariants.{Request as ARequest};
ghost use Rattle.dm_http.specs.Posts.{StreamCounts};
ghost use Rattle.dm_http.specs.Replies.{reply_bytes};
ghost use Rattle.dm_http.specs.Serves.{AnswersMessage, IsUnread, PutsRefusal, PutsText, ServesOne};

use crate::texts::message_text;
use dm_base::{Fault, Memory, Nonce, Sink, Stream, put_all};
use dm_core::{Core, ReplyKind};
use dm_heads::{HeadKind, HttpError, receive};
use std::alloc::Global;

const OVER: &[u8] = b"HTTP/1.1 204 No Content\r\nConnection: close\r\n\r\n";

const REFUSAL: &[u8] =
    b"HTTP/1.1 400 Bad Request\r\nContent-Length: 0\r\nConnection: close\r\n\r\n";

fn put_text<K: Sink>(conn: &mut K, text: &[u8]) -> Result<(), HttpError>
    ensures bytes { PutsText (K.got conn.old) (K.got conn.new) text.now result }
    ensures count { HttpCounts (K.faults conn.old) (K.faults conn.new) result }
    ensures source { K.as_source conn.new ≡ K.as_source conn.old }
{
    match put_all(conn, text) {
        Ok(()) => Ok(()),
        Err(Fault::Failed) => Err(HttpError::Failed),
        Err(Fault::Memory) => Err(HttpError::Memory),
    }
}

// Puts the reply of this kind, where a message is the one that was sent last.
fn put_reply<K: Sink, X: Core>(
    alloc: Global,
    conn: &mut K,
    core: &X,
    kind: ReplyKind,
) -> Result<(), HttpError>
    ensures bytes { (r : CoreReply) → TellsReply kind (X.sent core.now) r
        → PutsText (K.got conn.old) (K.got conn.new) (reply_bytes r) result }
    ensures count { HttpCounts (K.faults conn.old) (K.faults conn.new) result }
    ensures source { K.as_source conn.new ≡ K.as_source conn.old }
{
    match kind {
        ReplyKind::Message => {
            let Some(message) = core.again() else {
                return put_text(conn, REFUSAL);
            };
            match message_text(alloc, message) {
                Ok(text) => put_text(conn, text.as_slice()),
                Err(Memory) => Err(HttpError::Memory),
            }
        }
        ReplyKind::Over => put_text(conn, OVER),
        ReplyKind::Bad => put_text(conn, REFUSAL),
    }
}

// Delivers a message, and puts the reply.
#[tactic(auto, unfolding(crate::specs::Serves::AnswersMessage))]
fn answer<K: Sink, X: Core>(
    alloc: Global,
    conn: &mut K,
    core: &mut X,
    body: &[u8],
    nonce: Nonce,
) -> Result<(), HttpError>
    ensures bytes { AnswersMessage X.machine nonce.bytes (K.got conn.old) (K.got conn.new) core.old core.new body.now
        result }
    ensures count { HttpCounts (K.faults conn.old) (K.faults conn.new) result }
    ensures source { K.as_source conn.new ≡ K.as_source conn.old }
{
    match core.take(body, nonce) {
        Ok(kind) => put_reply(alloc, conn, core, kind),
        Err(Memory) => Err(HttpError::Memory),
    }
}

// Puts the refusal of a request, and tells why it isn't read.
fn refuse<K: Sink>(conn: &mut K, why: HttpError) -> Result<(), HttpError>
    requires { IsUnread why }
    ensures bytes { PutsRefusal (K.got conn.old) (K.got conn.new) why result }
    ensures count { HttpCounts (K.faults conn.old) (K.faults conn.new) result }
    ensures source { K.as_source conn.new ≡ K.as_source conn.old }
{
    match put_text(conn, REFUSAL) {
        Ok(()) => Err(why),
        Err(fault) => Err(fault),
    }
}

/// Takes a request of at most 65,536 bytes behind its head (RFC 9112), hands its message to the core with the nonce,
/// and puts the reply: 200 with the message that was sent last, 204 where the session is over, 400 where no message
/// answers it. What isn't read as a request is answered 400 and then told, and nothing of it reaches the core:
/// `BadHead`, `TooLong` or `Cut`; `NotOk` never comes. Where the reply to a message fails, or finds no memory, the core
/// has taken the message. `Failed` comes only where a count of the stream rose, and every other answer leaves both. No
/// byte is asked for once those taken settle the answer.
#[tactic(auto, unfolding(crate::specs::Serves::ServesOne, crate::specs::Posts::StreamCounts))]
pub fn serve_one<C: Stream, X: Core>(
    alloc: Global,
    conn: &mut C,
    core: &mut X,
    nonce: Nonce,
) -> Result<(), HttpError>
    ensures serves { ServesOne X.machine nonce.bytes
        (record { left = C.Source.left conn.old; got = C.Sink.got conn.old; core = core.old })
        (record { left = C.Source.left conn.new; got = C.Sink.got conn.new; core = core.new }) result }
    ensures asked { Asked ARequest (C.Source.left conn.old) (C.Source.left conn.new) }
    ensures unsettled { C.Source.faults conn.new ≢ C.Source.faults conn.old
        → AskedUnsettled ARequest (C.Source.left conn.old) (C.Source.left conn.new) }
    ensures count { StreamCounts (C.Source.faults conn.old) (C.Source.faults conn.new) (C.Sink.faults conn.old)
        (C.Sink.faults conn.new) result }
{
    match receive(alloc, conn, HeadKind::Request) {
        Ok(body) => answer(alloc, conn, core, body.as_slice(), nonce),
        Err(HttpError::Failed) => Err(HttpError::Failed),
        Err(HttpError::Memory) => Err(HttpError::Memory),
        Err(HttpError::BadHead) => refuse(conn, HttpError::BadHead),
        Err(HttpError::TooLong) => refuse(conn, HttpError::TooLong),
        Err(HttpError::Cut) => refuse(conn, HttpError::Cut),
        Err(HttpError::NotOk(code)) => Err(HttpError::NotOk(code)),
    }
}
