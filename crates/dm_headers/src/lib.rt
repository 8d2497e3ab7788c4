//! The header of a message, at either end: its code, the credentials of both sides, the Status of the last message's
//! header, and what an end says in its own.
#![tactic(auto)]

mod checks;
mod cmd_ids;
mod hearing;
pub mod laws;
mod own;
mod standings;
pub mod statuses;

pub use checks::Side;
pub use hearing::{Heard, hear};
pub use own::{header_status, next_header};
pub use standings::Standing;
pub use statuses::{is_denied, passes};
