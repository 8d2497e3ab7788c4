// What a row of a table says.
use dm_server::ServerAnswer;
use wbxml_tokens::{Reason, Refusal};

/// Parts of a text, one behind the other.
pub(crate) type Parts = &'static [&'static [u8]];

/// The bytes of a message that is delivered, with sixteen bytes of this value as the nonce; the answer; the message
/// that is sent, and the report then, each empty where it stays as it was.
pub(crate) type Delivery = (u8, &'static [u8], ServerAnswer, Parts, &'static [u8]);

/// The text of a job, and what is delivered to a server with it.
pub(crate) type Row = (Parts, &'static [Delivery]);

/// The answer to a first byte that begins no message.
pub(crate) const REFUSED: ServerAnswer = ServerAnswer::Refused(Refusal {
    at: 0,
    reason: Reason::Version,
});
