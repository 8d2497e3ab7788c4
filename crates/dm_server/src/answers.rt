// What a server answers.
use wbxml_tokens::Refusal;

/// What is answered to a message.
#[derive(Clone, Copy, Debug, PartialEq, Eq)]
pub enum ServerAnswer {
    /// It was accepted, and the message that `again` gives answers it.
    Sent,
    /// It has the numbers of the last accepted one, whatever else it has, and the message that `again` gives answered
    /// that.
    Kept,
    /// It is of an earlier session, or its MsgID is below the last accepted one.
    Stale,
    /// Its session is no number from 1 to 4,294,967,295.
    Stranger,
    /// The bytes are no message.
    Refused(Refusal),
    /// Nothing answers it: the session is over, with this message or before it.
    Ended,
}
