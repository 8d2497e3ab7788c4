//! One message packed from the entries that wait: as many as fit, and a part of the next one.
#![tactic(auto)]

pub mod at_once;
mod emptying;
pub mod filled;
mod fitting;
mod kept_data;
pub mod laws;
mod marks;
mod place;
pub mod queue;
mod waiting;

pub use at_once::fill_at_once;
pub use filled::{Filled, Tail, fill};
pub use queue::Queue;
