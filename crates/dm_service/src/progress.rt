// How far a session of the server has come.
use dm_headers::Standing;

/// How far a session has come.
#[derive(Clone, Copy, Debug, PartialEq, Eq)]
pub struct ServiceProgress {
    /// The number that its messages have as SessionID.
    pub number: u32,
    pub standing: Standing,
    /// Whether the last message of the client that was accepted was answered by a message.
    pub answered: bool,
    /// Whether it is over: no more of its messages are accepted.
    pub is_over: bool,
}
