// One message, taken from a source piece by piece.
ghost use Rattle.std.specs.Prelude.{◌≡◌, ◌≤◌, [], length, drop};
ghost use Rattle.dm_heads.specs.Asking.{Asks, AsksBehind, AsksHead};
ghost use Rattle.dm_heads.specs.Messages.{HasHead};
ghost use Rattle.dm_heads.specs.Receiving.{HttpCounts, ReceivesBody, TakesHead};

use crate::errors::HttpError;
use crate::extents::HeadVerdict;
use crate::heads::{HeadKind, HeadSoFar, head_so_far};
use crate::taking::{PIECE, take_piece, take_up_to};
use dm_base::{Bytes, Fault, Source};
use std::alloc::Global;

/// How long a head is at most.
pub const HEAD_LIMIT: usize = 8_192;

/// How long a body is at most.
pub const BODY_LIMIT: usize = 65_536;

/// A message whose head is whole.
#[derive(Drop)]
pub struct BegunMessage {
    /// All bytes so far, the first of which are the head.
    pub taken: Bytes,
    /// How many bytes the head has.
    pub len: usize,
    pub verdict: HeadVerdict,
}

// Takes the head, and what came with it. It is looked at once for each piece that comes.
fn take_head<S: Source>(
    alloc: Global,
    src: &mut S,
    kind: HeadKind,
) -> Result<BegunMessage, HttpError>
    ensures bytes { TakesHead kind (S.left src.old) (S.left src.new) result }
    ensures asked { AsksHead kind (S.left src.old) (S.left src.new) result }
    ensures count { HttpCounts (S.faults src.old) (S.faults src.new) result }
    ensures sink { S.as_sink src.new ≡ S.as_sink src.old }
{
    let mut taken = Bytes::new(alloc);
    let mut buf = [0u8; PIECE];
    'pieces: loop {
        match head_so_far(kind, taken.as_slice()) {
            HeadSoFar::Whole { verdict, len } => {
                return Ok(BegunMessage {
                    taken,
                    len,
                    verdict,
                });
            }
            HeadSoFar::Never => return Err(HttpError::BadHead),
            HeadSoFar::Partial => {}
        }
        if taken.len() >= HEAD_LIMIT {
            return Err(HttpError::BadHead);
        }
        let most = HEAD_LIMIT - taken.len();
        match take_piece(src, &mut taken, &mut buf, most) {
            Ok(0) => return Err(HttpError::Cut),
            Ok(_) => {}
            Err(Fault::Failed) => return Err(HttpError::Failed),
            Err(Fault::Memory) => return Err(HttpError::Memory),
        }
    }
}

// Takes a body of so many bytes.
#[tactic(auto, unfolding(crate::specs::Receiving::ReceivesBody))]
fn take_sized<S: Source>(
    src: &mut S,
    taken: Bytes,
    kind: HeadKind,
    len: usize,
    count: u32,
) -> Result<Bytes, HttpError>
    requires short { len ≤ 8192 }
    requires within { len ≤ length taken }
    requires head { HasHead kind taken (HeadVerdict.Sized count) (drop len taken) }
    ensures bytes { ReceivesBody kind taken (S.left src.old) (S.left src.new) result }
    ensures asked { AsksBehind kind taken (S.left src.old) (S.left src.new) result }
    ensures count { HttpCounts (S.faults src.old) (S.faults src.new) result }
    ensures sink { S.as_sink src.new ≡ S.as_sink src.old }
{
    let mut taken = taken;
    match take_up_to(src, &mut taken, len + count as usize) {
        Ok(true) => {
            taken.drop_front(len);
            taken.cut_to(count as usize);
            Ok(taken)
        }
        Ok(false) => Err(HttpError::Cut),
        Err(Fault::Failed) => Err(HttpError::Failed),
        Err(Fault::Memory) => Err(HttpError::Memory),
    }
}

// Takes a body up to the end of the stream.
#[tactic(auto, unfolding(crate::specs::Receiving::ReceivesBody))]
fn take_unsized<S: Source>(
    src: &mut S,
    taken: Bytes,
    kind: HeadKind,
    len: usize,
) -> Result<Bytes, HttpError>
    requires short { len ≤ 8192 }
    requires within { len ≤ length taken }
    requires head { HasHead kind taken HeadVerdict.Unsized (drop len taken) }
    ensures bytes { ReceivesBody kind taken (S.left src.old) (S.left src.new) result }
    ensures asked { AsksBehind kind taken (S.left src.old) (S.left src.new) result }
    ensures count { HttpCounts (S.faults src.old) (S.faults src.new) result }
    ensures sink { S.as_sink src.new ≡ S.as_sink src.old }
{
    let mut taken = taken;
    match take_up_to(src, &mut taken, len + BODY_LIMIT + 1) {
        Ok(true) => Err(HttpError::TooLong),
        Ok(false) => {
            taken.drop_front(len);
            Ok(taken)
        }
        Err(Fault::Failed) => Err(HttpError::Failed),
        Err(Fault::Memory) => Err(HttpError::Memory),
    }
}

// Takes what the head asks for behind it.
#[tactic(auto, unfolding(crate::specs::Receiving::ReceivesBody))]
fn take_body<S: Source>(
    src: &mut S,
    begun: BegunMessage,
    kind: HeadKind,
) -> Result<Bytes, HttpError>
    requires short { begun.len ≤ 8192 }
    requires within { begun.len ≤ length begun.taken }
    requires head { HasHead kind begun.taken begun.verdict (drop begun.len begun.taken) }
    ensures bytes { ReceivesBody kind begun.taken (S.left src.old) (S.left src.new) result }
    ensures asked { AsksBehind kind begun.taken (S.left src.old) (S.left src.new) result }
    ensures count { HttpCounts (S.faults src.old) (S.faults src.new) result }
    ensures sink { S.as_sink src.new ≡ S.as_sink src.old }
{
    let BegunMessage {
        taken,
        len,
        verdict,
    } = begun;
    match verdict {
        HeadVerdict::BadHead => Err(HttpError::BadHead),
        HeadVerdict::NotOk(code) => Err(HttpError::NotOk(code)),
        HeadVerdict::TooLong => Err(HttpError::TooLong),
        HeadVerdict::Sized(count) => take_sized(src, taken, kind, len, count),
        HeadVerdict::Unsized => take_unsized(src, taken, kind, len),
    }
}

/// Takes one message of the source, and gives its body, of at most 65,536 bytes (RFC 9112, sections 2 to 6). A head has
/// at most 32 fields and 8,192 bytes. `BadHead`, `NotOk`, `TooLong` and `Cut` are what the bytes bring, in this order;
/// `NotOk` comes of a reply alone. `Failed` comes only where the source's count rose. No byte is asked for once those
/// taken settle the answer. What was taken behind the body is given up.
///
/// Whether bytes are refused or cut off is left open in two places, where the parser may wait for more than it needs:
/// between a 33rd field and the end of the head, and inside the target of a request that is no longer UTF-8.
#[tactic(auto, unfolding(crate::specs::Receiving::ReceivesBody))]
pub fn receive<S: Source>(alloc: Global, src: &mut S, kind: HeadKind) -> Result<Bytes, HttpError>
    ensures bytes { ReceivesBody kind [] (S.left src.old) (S.left src.new) result }
    ensures asked { Asks kind (S.left src.old) (S.left src.new) result }
    ensures count { HttpCounts (S.faults src.old) (S.faults src.new) result }
    ensures sink { S.as_sink src.new ≡ S.as_sink src.old }
{
    match take_head(alloc, src, kind) {
        Ok(begun) => take_body(src, begun, kind),
        Err(error) => Err(error),
    }
}
