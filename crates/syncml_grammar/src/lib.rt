//! The message grammar: from the tokens of a body to the message that they spell, or the first refusal.
#![tactic(auto)]

pub mod builder;
pub mod digits;
pub mod draft;
pub mod laws;
pub mod leaf;
pub mod open;
mod put_command;
mod put_node;
mod put_simple;
mod renew;
mod spare;
mod stack;
pub mod verdict;

pub use builder::Builder;
pub use verdict::{MessageVerdict, judge};
