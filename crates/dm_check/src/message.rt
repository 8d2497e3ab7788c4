// One message, taken from a source piece by piece.
ghost use Rattle.std.specs.Prelude.{◌≡◌, ◌++◌, ℕ, OnOk, IsErrOf};
ghost use Rattle.dm_base.specs.declared.outside.Fault.TheVariants as fault;
ghost use Rattle.dm_base.specs.Outside.{OfKnown};
ghost use Rattle.syncml_codec.specs.Decoding.{settled, HasDecoded, TellsSettled};
ghost use Rattle.dm_check.specs.Receiving.{Receives, ReceiveCounts, MessageAtEnd, TakesNoMore, Unsettled};
ghost use Rattle.dm_check.specs.Kept.{answer_to};

use dm_base::{Bytes, Failed, Fault, Source};
use std::alloc::Global;
use syncml_codec::Decoder;
use syncml_types::Message;
use wbxml_tokens::{FeedError, Refusal};

const PIECE: usize = 4096;

// A message has one byte less at most, so the last of so many is always refused.
const MOST_TAKEN: usize = 65_537;

/// What the bytes of a source are.
#[derive(Drop)]
pub enum Received {
    /// The message that they spell, and the bytes.
    Message { message: Message, bytes: Bytes },
    /// They spell none: their first refusal.
    Refused(Refusal),
}

// Reads a piece behind these bytes, and keeps it with them.
fn keep(decoder: &mut Decoder, bytes: &mut Bytes, piece: &[u8]) -> Result<(), FeedError>
    requires { HasDecoded decoder.old bytes.old }
    ensures told { TellsSettled result (settled (bytes.old ++ piece.now)) }
    ensures kept { OnOk result (bytes.new ≡ bytes.old ++ piece.now) }
    ensures decoded { OnOk result (HasDecoded decoder.new (bytes.old ++ piece.now)) }
{
    match decoder.feed(piece) {
        Ok(()) => match bytes.extend(piece) {
            Ok(()) => Ok(()),
            Err(_) => Err(FeedError::Memory),
        },
        Err(error) => Err(error),
    }
}

// What is answered where the decoder reads no more.
fn stopped(error: FeedError) -> Result<Received, Fault>
    ensures received { result ≡ answer_to error }
    ensures count { (faults : ℕ) → ReceiveCounts faults faults result }
{
    match error {
        FeedError::Refused(refusal) => Ok(Received::Refused(refusal)),
        FeedError::Memory => Err(Fault::Memory),
    }
}

// What all of the bytes are.
fn finish(decoder: Decoder, bytes: Bytes) -> Result<Received, Fault>
    requires { HasDecoded decoder bytes }
    ensures received { Receives result bytes }
    ensures count { (faults : ℕ) → ReceiveCounts faults faults result }
{
    match decoder.finish() {
        Ok(message) => Ok(Received::Message { message, bytes }),
        Err(error) => stopped(error),
    }
}

/// Takes bytes, at most 65,537 of them in pieces of at most 4,096, until they settle a refusal or end; where they do,
/// the source isn't asked again. It answers what all bytes of the source are, those too that it doesn't take; `Failed`
/// after a fault of the source, and `Memory` at any place.
pub fn receive<S: Source>(alloc: Global, src: &mut S) -> Result<Received, Fault>
    ensures received { OfKnown (S.left src.old) (Receives result) }
    ensures ended { MessageAtEnd (S.left src.new) result }
    ensures taken { TakesNoMore (S.left src.old) (S.left src.new) }
    ensures asked { IsErrOf result fault.Failed → Unsettled (S.left src.old) (S.left src.new) }
    ensures count { ReceiveCounts (S.faults src.old) (S.faults src.new) result }
{
    let mut decoder = Decoder::new(alloc);
    let mut bytes = Bytes::new(alloc);
    let mut buf = [0u8; PIECE];
    'pieces: loop {
        let room = (MOST_TAKEN - bytes.len()).min(PIECE);
        match src.take(&mut buf[..room]) {
            Ok(0) => return finish(decoder, bytes),
            Ok(count) => match keep(&mut decoder, &mut bytes, &buf[..count]) {
                Ok(()) => {}
                Err(error) => {
                    drop(decoder);
                    return stopped(error);
                }
            },
            Err(Failed) => {
                drop(decoder);
                return Err(Fault::Failed);
            }
        }
    }
}
