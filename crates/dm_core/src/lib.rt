//! What answers the messages that come over a network: one server, or many.
#![tactic(auto)]

pub mod cores;

pub use cores::{Core, ReplyKind};
