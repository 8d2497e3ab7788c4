// What a server keeps, and what a message is worked with.
use dm_auth::Account;
use dm_base::{List, Nonce};
use dm_job::Job;
use dm_report::Gathering;
use dm_service::{Sent, ServiceProgress};
use dm_waiting::WaitingList;
use std::alloc::Global;
use syncml_types::Message;

/// The job, whose account has the nonces to use next.
#[derive(Drop)]
pub(crate) struct Plan {
    pub alloc: Global,
    pub job: Job,
}

/// How far the job is.
#[derive(Clone, Copy, Debug, PartialEq, Eq)]
pub(crate) struct Run {
    /// The place of the first package that wasn't queued, from 0.
    pub next: usize,
    /// Whether the package before it was queued in the present session.
    pub queued: bool,
    /// The session in which commands of the job were sent that count as sent.
    pub runs_in: Option<u32>,
}

/// What waits to be sent in a session, and the commands of the job that were sent in it, in order.
#[derive(Drop)]
pub(crate) struct Outbox {
    pub queue: WaitingList,
    pub sent: List<Sent>,
}

/// The present session.
#[derive(Drop)]
pub(crate) struct PresentSession {
    pub progress: ServiceProgress,
    pub outbox: Outbox,
    pub gathering: Gathering,
}

/// A message that is accepted, with the nonce for a challenge, and what it meets beside what it changes: the job, the
/// account that holds from then on, and how far the job and the session are.
#[derive(Clone, Copy)]
pub(crate) struct ServerWork<'a> {
    pub plan: &'a Plan,
    pub account: &'a Account,
    pub run: Run,
    pub progress: ServiceProgress,
    pub message: &'a Message,
    pub nonce: &'a Nonce,
}
