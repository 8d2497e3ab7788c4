//! The management tree: nodes in rows, edits that are taken back, and access lists.
#![tactic(auto)]

mod children;
mod clock;
mod discards;
pub mod edits;
mod fields;
mod index;
pub mod laws;
mod lays;
mod new_rows;
pub mod nodes;
mod renames;
pub mod rows;
mod siblings;
mod sizes;
pub mod tree;
mod update;
mod walks;

pub use edits::TreeError;
pub use nodes::{NewNode, Node, Role, Stamp, Value, View};
pub use rows::{NodeId, Undo};
pub use tree::Tree;
pub use update::UpdateIds;
