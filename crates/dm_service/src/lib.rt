//! The management server's machine as definitions: what messages of the client do, what is answered, what is reported,
//! and what holds of every run.
#![tactic(auto)]

pub mod laws;
pub mod progress;
pub mod sent;

pub use progress::ServiceProgress;
pub use sent::{Carried, KeptAlert, Sent};
