//! Traces of the client, answered line by line.
#![tactic(auto)]

pub mod answers;
pub mod endings;
pub mod events;
pub mod laws;
pub mod reading;
pub mod trace;

pub use answers::step;
pub use events::{Event, read_event};
pub use laws::{
    only_traces_are_done, refusals_are_first, refusals_are_told, replays_keep_to_the_room,
    starts_are_ready, whole_traces_are_answered,
};
pub use trace::{ids_of, replay};
