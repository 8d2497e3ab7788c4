//! What the tool says of one message: its listing, or whether its bytes are its canonical spelling.
#![tactic(auto)]

mod answers;
mod lines;
mod message;

pub use answers::{check, show};
pub use message::{Received, receive};
