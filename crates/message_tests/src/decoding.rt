// Bytes in pieces, and what is written of their message.
use crate::pieces::SPELLING;
use dm_base::Memory;
use std::alloc::Global;
use std::test::Fail;
use syncml_codec::{Decoder, decode, encode, encode_with_length, listing};
use syncml_types::Message;
use wbxml_tokens::{FeedError, Reason, Refusal};

// The same message in another spelling: a text of the string table, an empty one with its END, and an opaque.
const OTHER: &[u8] =
    b"\x02\xa4\x01j\x04./A\x00mlq\x012%[\x031\x00\x01n\x17\x01g\x17\x01\x01kdK\x031\x00\x01`K\x032\x00\x01TO\xc3\
      \x02ab\x03c\x00\x01\x01\x01SK\x033\x00\x01TnW\x83\x00\x01\x01\x01\x01\x01R\x01\x01\x01";

const LINES: &[u8] = b"SyncML
  SyncHdr
    VerDTD
    VerProto
    SessionID
    MsgID 1
    Target
      LocURI
    Source
      LocURI
  SyncBody
    Sequence
      CmdID 1
      Replace
        CmdID 2
        Item
          Data abc
      Get
        CmdID 3
        Item
          Target
            LocURI ./A
    Final
";

fn is_written(alloc: Global, message: &Message) -> Result<bool, Memory> {
    let bytes = encode(alloc, message)?;
    let same = encode_with_length(alloc, message, bytes.len() as u64)?;
    let lines = listing(alloc, message)?;
    Ok(bytes.as_slice() == SPELLING && same.as_slice() == SPELLING && lines.as_slice() == LINES)
}

// Whether an answer is the message, as it is spelled and listed.
fn is_message(alloc: Global, answer: Result<Message, FeedError>) -> Result<bool, Memory> {
    match answer {
        Ok(message) => {
            let is_written = is_written(alloc, &message);
            drop(message);
            is_written
        }
        Err(_) => Ok(false),
    }
}

// The answer to bytes in pieces of so many.
fn decode_in(alloc: Global, bytes: &[u8], size: usize) -> Result<Message, FeedError> {
    let mut decoder = Decoder::new(alloc);
    for piece in bytes.chunks(size.max(1)) {
        // What a feed refuses, `finish` refuses too.
        let _ = decoder.feed(piece);
    }
    decoder.finish()
}

#[test]
fn messages_are_read_in_pieces(rt: HostRuntime) -> Result<(), Fail> {
    let alloc = rt.alloc();
    assert!(rt; is_message(alloc, decode(alloc, OTHER))?);
    assert!(rt; is_message(alloc, decode_in(alloc, OTHER, 1))?);
    assert!(rt; is_message(alloc, decode_in(alloc, SPELLING, 7))?);
    Ok(())
}

const REFUSAL: Refusal = Refusal {
    at: 0,
    reason: Reason::Version,
};

fn is_refused(answer: Result<Message, FeedError>) -> bool {
    match answer {
        Ok(_) => false,
        Err(error) => error == FeedError::Refused(REFUSAL),
    }
}

// Behind a refusal all bytes are refused so, and there is no message.
fn stays_refused(alloc: Global) -> bool {
    let mut decoder = Decoder::new(alloc);
    let at_once = decoder.feed(b"\x04");
    let again = decoder.feed(b"\x03\xa4");
    let refused = Err(FeedError::Refused(REFUSAL));
    is_refused(decoder.finish()) && at_once == refused && again == refused
}

#[test]
fn refusals_are_for_good(rt: HostRuntime) -> Result<(), Fail> {
    assert!(rt; stays_refused(rt.alloc()));
    assert!(rt; is_refused(decode(rt.alloc(), b"\x04")));
    Ok(())
}
