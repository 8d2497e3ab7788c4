//! Device descriptions: rules for a tree, and whether a tree conforms to them.
#![tactic(auto)]

mod command;
pub mod conforming;
mod errors;
mod fields;
mod lines;
pub mod making;
mod members;
pub mod reader;
pub mod rules;
mod standing;
mod texts;

pub use command::{conform, make};
pub use conforming::{Conformity, Why, conforms};
pub use errors::DdfError;
pub use making::make_tree;
pub use rules::Ddf;
