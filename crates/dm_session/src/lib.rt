//! The device's end of a session: what a server's messages come to, and what is answered, exactly as the client's
//! machine says.
#![tactic(auto)]

mod answering;
pub mod answers;
mod beginning;
mod bodies;
pub mod client;
mod device;
mod drafts;
mod ending;
mod executing;
mod headers;
mod hearing;
mod opening;
mod rest;
mod sending;
mod work;
mod working;

pub use answers::{Acted, Answer, BeginError};
pub use client::Client;
