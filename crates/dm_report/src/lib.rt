//! What a management server knows of its job, as the device's messages tell it: the codes of the commands, the values
//! that they found, and the alerts; and the report of all that.
#![tactic(auto)]

mod chains;
mod copies;
mod drafts;
mod findings;
mod gathering;
mod kept;
mod pieces;
mod report;
mod sending;

pub use findings::Findings;
pub use gathering::Gathering;
