// What single fields say, and the two of limits.
ghost use Rattle.std.specs.Prelude.{◌≡◌, IfOk, Some};
ghost use Rattle.dm_base.specs.Fields.{parts};
ghost use Rattle.dm_fields.specs.Fields as Spec;

use crate::fields::three_fields;
use dm_base::{
    Bytes, FieldForm, LEAST_ROOM, Limits, MESSAGE_LIMIT, Memory, OBJECT_LIMIT, hex_bytes, is_field,
    num,
};
use std::alloc::Global;

/// The text of a field, or None for `-`.
pub fn opt_of(alloc: Global, text: &[u8]) -> Result<Option<Bytes>, Memory>
    ensures { IfOk result (λ value. value ≡ Spec.opt_of text.now) }
{
    if text == b"-".as_slice() {
        return Ok(None);
    }
    Ok(Some(Bytes::of_slice(alloc, text)?))
}

/// The bytes of a key. None comes exactly where the text isn't one.
pub fn key_of(alloc: Global, text: &[u8]) -> Result<Option<Bytes>, Memory>
    ensures { IfOk result (λ key. key ≡ Spec.key_in text.now) }
{
    if !is_field(FieldForm::Key, text) {
        return Ok(None);
    }
    hex_bytes(alloc, text)
}

// The limits of two numbers. None comes exactly where one of them is too low or too high.
fn limits_of(max_msg: u64, max_obj: u64) -> Option<Limits>
    ensures { result ≡ Spec.limits_of (Some max_msg) (Some max_obj) }
{
    if LEAST_ROOM as u64 <= max_msg
        && max_msg <= MESSAGE_LIMIT as u64
        && 1 <= max_obj
        && max_obj <= OBJECT_LIMIT as u64
    {
        Some(Limits {
            max_msg: max_msg as u32,
            max_obj: max_obj as u32,
        })
    } else {
        None
    }
}

/// What the fields of a `limits` line say.
pub fn limits_in(line: &[u8]) -> Option<Limits>
    ensures { result ≡ Spec.limits_in (parts line.now) }
{
    let (_, max_msg, max_obj) = three_fields(line)?;
    limits_of(num(max_msg)?, num(max_obj)?)
}
