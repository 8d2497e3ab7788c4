//! What every crate stands on: lists of bytes and of values, the traits of what is outside with their forms in
//! memory, and the readers of lines and fields.
#![tactic(auto)]

pub mod boxed;
pub mod bytes;
mod digits;
pub mod fields;
pub mod laws;
pub mod lines;
pub mod list;
pub mod memory;
pub mod outside;
mod pending_bytes;
pub mod values;
pub mod wholes;

pub use boxed::Boxed;
pub use bytes::{Bytes, Memory};
pub use fields::{FieldForm, field, hex_bytes, hex_into, is_field, nonce, num};
pub use lines::{LineOut, LineReason, Lines, RUN_LIMIT};
pub use list::List;
pub use memory::{MemSink, MemSource};
pub use outside::{Failed, Fault, Sink, Source, Stream, TakeError};
pub use values::{LEAST_ROOM, Limits, MESSAGE_LIMIT, Nonce, OBJECT_LIMIT, TEXT_LIMIT};
pub use wholes::{put_all, take_all};
