// An object, gathered from its pieces, and a copy of its bytes beside it.
ghost use Rattle.std.specs.Prelude.{◌≡◌, Some, IfOk};

use dm_base::{Bytes, Memory};
use dm_objects::{Inbox, Piece, Taken, What};
use std::alloc::Global;

const MAX: u32 = 4_194_304;

// The bytes of a step that is whole.
fn value_of(what: What) -> Option<Bytes> {
    match what {
        What::Whole(step) => Some(step.value),
        What::Buffered => None,
        What::Refused(_) => None,
    }
}

/// The bytes of the step that the last of these pieces makes whole. None come where it doesn't.
pub fn gather(alloc: Global, pieces: &[Piece]) -> Result<Option<Bytes>, Memory> {
    let mut inbox = Inbox::new(alloc, MAX);
    let mut whole = None;
    for piece in pieces {
        let Taken { broken, what } = inbox.take(piece)?;
        drop(broken);
        whole = value_of(what);
    }
    Ok(whole)
}

/// These bytes once more.
pub fn copy(alloc: Global, bytes: &[u8]) -> Result<Option<Bytes>, Memory>
    ensures { IfOk result (λ copy. copy ≡ Some bytes.now) }
{
    Ok(Some(Bytes::of_slice(alloc, bytes)?))
}
