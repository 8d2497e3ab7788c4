// Copies of steps and of what they are made of.
ghost use Rattle.std.specs.Prelude.{◌≡◌, ◌++◌, IfOk};
ghost use Rattle.dm_objects.specs.Gathering.{key_of, begun_object, whole_step};

use crate::object::{Begun, Key};
use crate::piece::Piece;
use dm_base::{Bytes, Memory};
use std::alloc::Global;
use syncml_types::Step;
use syncml_types::copies::copy_bytes;

/// A copy of a step with its own texts and value. After `Memory` there is none.
pub fn copy_step(alloc: Global, step: &Step) -> Result<Step, Memory>
    ensures { IfOk result (λ copy. copy ≡ step.now) }
{
    Ok(Step {
        verb: step.verb,
        target: copy_bytes(alloc, &step.target)?,
        format: copy_bytes(alloc, &step.format)?,
        media: copy_bytes(alloc, &step.media)?,
        value: step.value.copy(alloc)?,
        correlator: copy_bytes(alloc, &step.correlator)?,
        in_atomic: step.in_atomic,
    })
}

pub(crate) fn key_of(alloc: Global, step: &Step) -> Result<Key, Memory>
    ensures { IfOk result (λ key. key ≡ key_of step.now) }
{
    Ok(Key {
        verb: step.verb,
        target: copy_bytes(alloc, &step.target)?,
        in_atomic: step.in_atomic,
    })
}

pub(crate) fn copy_key(alloc: Global, key: &Key) -> Result<Key, Memory>
    ensures { IfOk result (λ copy. copy ≡ key.now) }
{
    Ok(Key {
        verb: key.verb,
        target: copy_bytes(alloc, &key.target)?,
        in_atomic: key.in_atomic,
    })
}

pub(crate) fn begun_by(alloc: Global, piece: &Piece, size: u64) -> Result<Begun, Memory>
    ensures { IfOk result (λ begun. begun ≡ begun_object piece.now size) }
{
    Ok(Begun {
        key: key_of(alloc, &piece.step)?,
        format: copy_bytes(alloc, &piece.step.format)?,
        media: copy_bytes(alloc, &piece.step.media)?,
        size,
        value: piece.step.value.copy(alloc)?,
    })
}

/// Both one behind the other, in room that is taken once.
pub(crate) fn joined(alloc: Global, first: &Bytes, second: &Bytes) -> Result<Bytes, Memory>
    ensures { IfOk result (λ bytes. bytes ≡ first.now ++ second.now) }
{
    let mut bytes = Vec::new(alloc);
    bytes.reserve(first.len().saturating_add(second.len()))?;
    bytes.extend_from_slice(first.as_slice())?;
    bytes.extend_from_slice(second.as_slice())?;
    Ok(Bytes::of_vec(bytes))
}

// The whole object by its last piece. What was buffered stays, since it may be asked for again.
pub(crate) fn whole_step(alloc: Global, begun: &Begun, step: &Step) -> Result<Step, Memory>
    ensures { IfOk result (λ whole. whole ≡ whole_step begun.now step.now) }
{
    Ok(Step {
        verb: step.verb,
        target: copy_bytes(alloc, &step.target)?,
        format: copy_bytes(alloc, &begun.format)?,
        media: copy_bytes(alloc, &begun.media)?,
        value: joined(alloc, &begun.value, &step.value)?,
        correlator: copy_bytes(alloc, &step.correlator)?,
        in_atomic: step.in_atomic,
    })
}
