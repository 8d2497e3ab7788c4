//! What waits to be sent by the server: answers, and entries of the job with the commands that each carries; and which
//! commands of the job a message holds.
#![tactic(auto)]

mod holding;
mod ids;
mod loads;
pub mod waiting_list;

pub use waiting_list::WaitingList;
