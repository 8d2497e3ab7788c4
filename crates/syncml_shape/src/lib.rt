//! The shape of a message: which elements stand in which, over the tokens of a body.
#![tactic(auto)]

pub mod fault;
pub mod laws;
pub mod outline;
pub mod place;
pub mod progress;
pub mod rows;

pub use fault::{is_left_out, tag_fault};
pub use outline::{Outline, ShapeVerdict, judge};
pub use place::{ChildPlace, place_of};
pub use progress::{Expected, MetaProgress};
pub use rows::{ChildRow, Choice, Kind, MetaRow};
