// How a session begins, and how it ends.

/// Who asked for a session: Alert 1200 or 1201.
#[derive(Clone, Copy, Debug, PartialEq, Eq)]
pub enum Initiator {
    ByServer,
    ByClient,
}

/// How a session ended.
#[derive(Clone, Copy, Debug, PartialEq, Eq)]
pub enum End {
    /// The server had nothing left, and nothing waited.
    Finished,
    /// The server ended it, the client's MsgIDs were used up, or another session began, which no answer tells.
    Aborted,
    /// A credential of one side was missing or wrong for the second time.
    Denied,
}
