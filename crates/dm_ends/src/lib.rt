//! What both ends of a session have in common: what they look for in a message, how a session begins, how one is left,
//! and what an end may meet.
#![tactic(auto)]

pub mod bodies;
pub mod farewells;
pub mod laws;

pub use bodies::{all_reports, has_abort};
pub use farewells::{LastMessage, alert, farewell};
