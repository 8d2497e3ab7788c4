// What bytes are answered, however they are cut.
ghost use Rattle.std.specs.Prelude.{◌<◌};

use dm_base::{Bytes, List, MemSource, Memory};
use dm_heads::{HeadKind, HttpError, receive};
use std::alloc::Global;

/// A body, a body of so many bytes, or a refusal.
#[derive(Clone, Copy)]
pub(crate) enum Answer {
    Body(&'static [u8]),
    Long(usize),
    Refused(HttpError),
}

pub(crate) const BAD_HEAD: Answer = Answer::Refused(HttpError::BadHead);

pub(crate) const TOO_LONG: Answer = Answer::Refused(HttpError::TooLong);

pub(crate) const CUT: Answer = Answer::Refused(HttpError::Cut);

/// The pieces of a text, each so many times, and what it is answered.
pub(crate) type Row = (&'static [(&'static [u8], usize)], Answer);

fn put_many(text: &mut Bytes, piece: &[u8], times: usize) -> Result<(), Memory> {
    for _ in 0..times {
        text.extend(piece)?;
    }
    Ok(())
}

fn put_pieces(text: &mut Bytes, pieces: &[(&[u8], usize)]) -> Result<(), Memory> {
    for (piece, times) in pieces {
        put_many(text, piece, *times)?;
    }
    Ok(())
}

/// Whether an answer is the one that is wanted.
pub(crate) fn is_wanted(answer: &Result<Bytes, HttpError>, wanted: Answer) -> bool {
    match (answer, wanted) {
        (Ok(body), Answer::Body(bytes)) => body.as_slice() == bytes,
        (Ok(body), Answer::Long(count)) => body.len() == count,
        (Err(error), Answer::Refused(refusal)) => *error == refusal,
        _ => false,
    }
}

/// Whether a text that comes in pieces of so many bytes is answered so.
pub(crate) fn is_answered(
    alloc: Global,
    kind: HeadKind,
    text: Bytes,
    size: usize,
    wanted: Answer,
) -> bool
    requires { 0 < size }
{
    let mut src = MemSource::new(text, size, List::new(alloc));
    is_wanted(&receive(alloc, &mut src, kind), wanted)
}

/// The number of the first row that is answered otherwise.
pub(crate) fn wrong_row(
    alloc: Global,
    kind: HeadKind,
    rows: &[Row],
    size: usize,
) -> Result<Option<usize>, Memory>
    requires { 0 < size }
{
    for (number, (pieces, answer)) in rows.iter().enumerate() {
        let mut text = Bytes::new(alloc);
        put_pieces(&mut text, pieces)?;
        if !is_answered(alloc, kind, text, size, *answer) {
            return Ok(Some(number));
        }
    }
    Ok(None)
}
