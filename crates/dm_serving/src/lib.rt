//! What a run does that waits for connections: each is answered by what answers messages, one after the other, and a
//! server with a job then writes its report.
#![tactic(auto)]

pub mod command;
pub mod laws;
pub mod turns;

pub use command::serve;
pub use turns::{answer_all, listen_and_answer};
