//! Messages to bytes and back, exactly.
#![tactic(auto)]

pub mod decoder;
pub mod encoder;
pub mod laws;
pub mod lister;
pub mod ranges;

pub use decoder::{Decoder, decode};
pub use encoder::{encode, encode_with_length};
pub use lister::listing;
