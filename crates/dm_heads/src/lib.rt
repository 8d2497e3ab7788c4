//! The reader of a message over HTTP/1.1: its head by the grammar of `httparse`, and the body behind it, from any source.
#![tactic(auto)]

pub mod errors;
pub mod extents;
pub mod heads;
pub mod laws;
pub mod receiving;
mod taking;

pub use errors::HttpError;
pub use heads::HeadKind;
pub use receiving::receive;
