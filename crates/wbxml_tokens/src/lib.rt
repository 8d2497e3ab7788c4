//! Tokens of a WBXML body: the writer of their canonical spelling, and the reader of documents in pieces.
#![tactic(auto)]

mod extent;
pub mod laws;
mod part;
mod prologue;
mod queue;
pub mod reader;
pub mod reason;
mod spot;
mod state;
pub mod token;
pub mod tokens;
pub mod writer;

pub use reader::Reader;
pub use reason::{FeedError, Reason, Refusal, Stop};
pub use token::{Placed, Taker, Token, Writer};
pub use tokens::Tokens;
pub use writer::TokenWriter;
