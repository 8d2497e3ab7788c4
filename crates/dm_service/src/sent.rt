// What the server remembers of the job's commands on their way to the client, and of the client's alerts.
use dm_base::Bytes;

/// The commands of the job that an entry carries: one, or a container and its members.
#[derive(Clone, Copy, Debug, PartialEq, Eq)]
pub struct Carried {
    /// The number of the first in the job, from 1.
    pub first: u64,
    pub count: u64,
}

/// A command of the job that was sent, whole or in part.
#[derive(Clone, Copy, Debug, PartialEq, Eq)]
pub struct Sent {
    /// The MsgID of the message that it stands in.
    pub msg: u32,
    /// Its CmdID there.
    pub command: u32,
    /// Its number in the job, from 1.
    pub number: u64,
    /// Whether its Status gives the command its code: not where more parts of it follow.
    pub counts: bool,
}

/// An Alert 1226 of the client: Type and Data of its first Item, each without bytes where it is absent.
#[derive(Drop)]
pub struct KeptAlert {
    pub media: Bytes,
    pub value: Bytes,
}
