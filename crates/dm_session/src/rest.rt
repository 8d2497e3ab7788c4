// What a client keeps beside its engine and its queue.
use crate::device::IdPlace;
use dm_auth::Account;
use dm_base::{Bytes, Limits, List};
use dm_ends::LastMessage;
use dm_machine::{Progress, UpdateResult};
use std::alloc::Global;

/// An open session, and the message that was sent last in it.
#[derive(Drop)]
pub(crate) struct Session {
    pub progress: Progress,
    pub sent: LastMessage,
}

/// All of a client but its engine and its queue.
#[derive(Drop)]
pub(crate) struct Rest {
    pub alloc: Global,
    pub limits: Limits,
    pub place: IdPlace,
    pub accounts: List<Account>,
    pub session: Option<Session>,
    /// The number of the session begun last.
    pub begun: u32,
    /// How updates ended that weren't told yet.
    pub results: List<UpdateResult>,
    /// The RespURI told last in the session begun last.
    pub resp_uri: Option<Bytes>,
    /// The message with which the session begun last was denied.
    pub farewell: Option<LastMessage>,
}
