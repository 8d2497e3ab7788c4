//! Both ends on a schedule of losses, repeats and reorderings, as a text says.
#![tactic(auto)]

pub mod command;
mod ends;
pub mod events;
pub mod lines;
mod pairing;
pub mod reading;
pub mod refusals;
pub mod schedules;
pub mod text;
mod words;

pub use command::pair;
pub use events::{PairEvent, read_event};
pub use lines::{TextHalt, next_line};
pub use reading::{JobRead, StartRead, read_first, read_job, read_start};
pub use text::{PairOut, run_pair};
