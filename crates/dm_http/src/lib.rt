//! One exchange of messages over HTTP/1.1, on a connection that serves no other.
#![tactic(auto)]

pub mod laws;
pub mod posting;
pub mod serving;
pub mod texts;

pub use dm_core::{Core, ReplyKind};
pub use dm_heads::HttpError;
pub use posting::post;
pub use serving::serve_one;
