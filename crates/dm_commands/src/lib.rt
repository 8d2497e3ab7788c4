//! The step table: what one command on one node comes to, and what it makes of the tree; and the end of an update. Each
//! edit is noted in a journal.
#![tactic(auto)]

mod adds;
mod deletes;
mod execs;
mod finds;
pub mod laws;
mod lists;
mod names;
mod noting;
pub mod outcome;
mod prop_texts;
mod props;
mod replaces;
mod results;
pub mod steps;
mod targets;
mod updates;
mod values;

pub use outcome::{Found, Outcome};
pub use results::end_update;
pub use steps::act;
