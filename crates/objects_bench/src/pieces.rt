// The pieces of one large object.
ghost use Rattle.std.specs.Prelude.{◌≡◌, IfOk};

use dm_base::{Bytes, Memory};
use dm_objects::Piece;
use std::alloc::Global;
use syncml_types::{Step, Verb};

/// How many bytes the object has, which is the most that an object may have.
pub const SIZE: usize = 4_194_304;

const PIECE: usize = 60_000;

// No two places near each other have the same bytes behind them.
fn byte_at(place: usize) -> u8 {
    (place % 251) as u8
}

/// The bytes of the object.
pub fn object_bytes(alloc: Global) -> Result<Vec<u8>, Memory> {
    let mut bytes = Vec::new(alloc);
    bytes.reserve(SIZE)?;
    for place in 0..SIZE {
        bytes.push(byte_at(place))?;
    }
    Ok(bytes)
}

fn piece_of(alloc: Global, bytes: &[u8], size: Option<u64>, more: bool) -> Result<Piece, Memory>
    ensures value { IfOk result (λ piece. piece.step.value ≡ bytes.now) }
    ensures told { IfOk result (λ piece. (piece.size ≡ size) × (piece.more ≡ more)) }
{
    let step = Step {
        verb: Verb::Replace,
        target: Some(Bytes::of_slice(alloc, b"./L")?),
        format: None,
        media: None,
        value: Bytes::of_slice(alloc, bytes)?,
        correlator: None,
        in_atomic: false,
    };
    Ok(Piece { step, size, more })
}

/// These bytes in pieces of 60,000 and a last one with the rest. The first tells the Size.
pub fn pieces_of(alloc: Global, bytes: &[u8]) -> Result<Vec<Piece>, Memory> {
    let mut pieces = Vec::new(alloc);
    let mut size = Some(bytes.len() as u64);
    let mut left = bytes.len();
    for chunk in bytes.chunks(PIECE) {
        left = left.saturating_sub(chunk.len());
        pieces.push(piece_of(alloc, chunk, size, left > 0)?)?;
        size = None;
    }
    Ok(pieces)
}
