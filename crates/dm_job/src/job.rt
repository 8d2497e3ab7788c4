// What a job says.
use dm_auth::Account;
use dm_base::{Limits, List};
use syncml_types::Command;

/// A command of a job, which has no CmdIDs yet, and its number: commands are numbered from 1 in the order of the job, a
/// container before its members.
#[derive(Drop)]
pub struct JobEntry {
    pub number: u64,
    pub command: Command,
}

/// What a server is to send: its account of the device, the limits that it tells, in bytes, and its commands in
/// packages, none of which is empty.
#[derive(Drop)]
pub struct Job {
    pub account: Account,
    pub limits: Limits,
    pub packages: List<List<JobEntry>>,
}
