//! Jobs: what a server is to send a device, read line by line.
#![tactic(auto)]

mod closing;
pub mod commands;
pub mod draft;
mod errors;
pub mod job;
pub mod laws;
mod lines;
pub mod parsing;
pub mod reader;

pub use errors::JobError;
pub use job::{Job, JobEntry};
pub use reader::JobReader;
