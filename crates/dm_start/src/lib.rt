//! The start section of a trace, read line by line, and the text of a tree.
#![tactic(auto)]

mod accounts;
mod forms;
pub mod heads;
pub mod laws;
mod new_nodes;
mod node_lines;
mod pieces;
pub mod reader;
pub mod shorts;
mod start_trees;
pub mod telling;
mod texts;
mod updates;

pub use forms::path_in;
pub use new_nodes::{NodePlace, spot_of};
pub use pieces::put_tree;
pub use reader::StartReader;
pub use telling::Start;
pub use texts::{put_front, tree_text};
