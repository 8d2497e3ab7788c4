//! The management server's end of a session: what a client's messages come to, what is answered, and what is known of
//! the job, exactly as the server's machine says.
#![tactic(auto)]

mod answering;
pub mod answers;
mod beginning;
mod bodies;
mod coming;
mod drafts;
mod giving_up;
mod headers;
mod held;
mod packages;
mod sending;
pub mod server;
mod taking;
mod working;

pub use answers::ServerAnswer;
pub use server::Server;
