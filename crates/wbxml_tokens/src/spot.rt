// Where a reader stands between two parts of a document.
ghost use Rattle.std.specs.Prelude.{◌≡◌};
ghost use Rattle.wbxml_tokens.specs.Taking as Spec;
ghost use Rattle.wbxml_tokens.specs.Taking.{stop_at};

use crate::extent::Extent;
use crate::reason::{FeedError, Refusal, Stop};
use crate::token::Taker;

/// The place of the next part, and what the bytes before have settled.
#[derive(Clone, Copy)]
pub struct Spot {
    pub place: u64,
    pub is_in_body: bool,
    pub page: u8,
    pub extent: Extent,
}

impl Stop {
    // The error of a part that begins at this place.
    pub(crate) fn at(self, place: u64) -> FeedError
        ensures { result ≡ stop_at place self }
    {
        match self {
            Stop::Refused(reason) => FeedError::Refused(Refusal { at: place, reason }),
            Stop::Memory => FeedError::Memory,
        }
    }
}

// Why a writer didn't take a token.
pub(crate) fn stop_of<T: Taker>(error: T::Error) -> Stop
    ensures { result ≡ Spec.stop_of (T.told error) }
{
    match T::reason(error) {
        Some(reason) => Stop::Refused(reason),
        None => Stop::Memory,
    }
}
