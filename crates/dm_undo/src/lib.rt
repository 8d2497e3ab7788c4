//! A journal of the edits of a tree: a list of trees to go back to, without a copy of any.
#![tactic(auto)]

mod entries;
pub mod journal;
pub mod laws;

pub use entries::Entry;
pub use journal::{Journal, Mark};
