//! The generated workload: a tree and messages that are made of a few numbers, and what the client comes to by them.
#![tactic(auto)]

mod given;
mod hashing;
pub mod laws;
pub mod messages;
mod names;
pub mod running;
pub mod starting;
pub mod workload;

pub use workload::bench;
