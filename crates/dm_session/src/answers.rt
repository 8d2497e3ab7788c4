// What a session is asked for and answers.
use dm_machine::End;
use thiserror::Error;
use wbxml_tokens::Refusal;

/// What is answered to a message.
#[derive(Clone, Copy, Debug, PartialEq, Eq)]
pub enum Answer {
    /// It was accepted, and the message that `again` gives answers it.
    Sent,
    /// It is the last accepted one once more, and the message that `again` gives answered it.
    Kept,
    /// Its MsgID is below the last accepted one.
    Stale { last: u32 },
    /// It is of another session.
    Stranger,
    /// No session is open.
    NoSession,
    /// The bytes are no message.
    Refused(Refusal),
    /// It was accepted, and the session is over. After Denied `farewell` gives the message that is sent.
    Ended(End),
}

/// Why no session began.
#[derive(Clone, Copy, Debug, PartialEq, Eq, Error)]
pub enum BeginError {
    #[error("session {last} was begun already")]
    Exhausted { last: u32 },
    #[error("out of memory")]
    Memory,
}

/// Whether the end of an update was told.
#[derive(Clone, Copy, Debug, PartialEq, Eq)]
pub enum Acted {
    Done,
    /// A session is open, or no update runs.
    NotNow,
}
