//! The client's machine as definitions: what a session's events do, what is answered, and what holds of every run.
#![tactic(auto)]

pub mod kinds;
pub mod laws;
pub mod progress;

pub use kinds::{End, Initiator};
pub use progress::{Progress, UpdateResult};
