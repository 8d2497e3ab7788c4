// What is done again and again.
use crate::fold::Fold;
use crate::spell::{measure_length, spell};
use crate::turn::{Way, turn};
use std::alloc::Global;
use syncml_types::Message;
use wbxml_tokens::FeedError;

/// What is measured.
#[derive(Clone, Copy)]
pub enum Job<'a> {
    /// A document is read in pieces of `size` bytes, or of one where that is 0.
    Read {
        way: Way,
        size: usize,
        bytes: &'a [u8],
    },
    /// A message is spelled.
    Encode(&'a Message),
    /// A message is measured.
    Length(&'a Message),
}

// Does it once.
fn once(alloc: Global, job: Job<'_>, fold: &mut Fold) -> Result<(), FeedError> {
    match job {
        Job::Read { way, size, bytes } => turn(alloc, way, bytes, size.max(1), fold),
        Job::Encode(message) => spell(alloc, message, fold).map_err(|_| FeedError::Memory),
        Job::Length(message) => {
            measure_length(message, fold);
            Ok(())
        }
    }
}

/// Does it `count` times.
pub fn turns(alloc: Global, job: Job<'_>, count: u64, fold: &mut Fold) -> Result<(), FeedError> {
    for _ in 0..count {
        once(alloc, job, fold)?;
    }
    Ok(())
}
