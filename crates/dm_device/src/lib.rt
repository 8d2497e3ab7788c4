//! `device`: a device's sessions with a server over HTTP, one connection an exchange.
#![tactic(auto)]

pub mod command;
pub mod exchanging;
mod input;
pub mod laws;
mod lines;
mod paths;
mod runs;
mod sessions;
pub mod tally;

pub use command::device;
pub use exchanging::{ReplyHeard, exchange};
pub use laws::{requests_keep_to_the_room, runs_are_bounded, sessions_are_bounded};
pub use tally::{Tally, Word};
