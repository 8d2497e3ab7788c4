//! Large objects, put together from the pieces in which they come.
#![tactic(auto)]

mod actions;
mod copies;
mod inbox;
mod keys;
pub mod laws;
mod log;
mod object;
mod piece;
mod rules;
mod taking;

pub use copies::copy_step;
pub use inbox::{Inbox, InboxMark};
pub use object::{Begun, Key, Object};
pub use piece::{Piece, Sort, Taken, TakenOver, What};
