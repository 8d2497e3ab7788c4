// What a session remembers of its exchanges, and the words by which it is over.

/// How a session is over.
#[derive(Clone, Copy, Debug, PartialEq, Eq)]
pub enum Word {
    /// The server had nothing left, and nothing waited.
    Finished,
    /// The server ended it, or the client's MsgIDs were used up.
    Aborted,
    /// A credential of one side was missing or wrong for the second time.
    Denied,
    /// Five exchanges in a row were lost, each by a fault that the dialer counted.
    GaveUp,
    /// Five in a row were lost, not all by a fault, or 100,000 messages were accepted.
    Peer,
}

/// What a session remembers of its exchanges.
#[derive(Clone, Copy, Debug, PartialEq, Eq)]
pub struct Tally {
    /// How many were lost in a row.
    pub lost: u32,
    /// Whether one of these was lost otherwise than by a fault.
    pub blamed: bool,
    /// How many messages were accepted.
    pub accepted: u32,
}
