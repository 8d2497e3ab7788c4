// A job as far as it was read.
use crate::job::Job;
use dm_auth::Account;

/// Where the next line stands.
#[derive(Clone, Copy, Debug, PartialEq, Eq)]
pub enum LinePlace {
    /// Before the first command of a package.
    Between,
    /// Behind a command of a package.
    Package,
    /// In a container, which is the last command.
    Container,
    /// Behind `end`.
    End,
}

/// A job as far as its commands were read, and how many came.
#[derive(Drop)]
pub struct JobDraft {
    pub job: Job,
    pub place: LinePlace,
    pub count: u64,
}

/// Which line comes next, with what those before it told.
#[derive(Drop)]
pub enum Reading {
    First,
    Server,
    /// `limits`, for a server of this account.
    Limits(Account),
    /// A line of a command, or one that stands among commands.
    Commands(JobDraft),
}
