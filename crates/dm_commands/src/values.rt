// Values that steps give, and what is tested of them.
ghost use Rattle.std.specs.Prelude.{◌≡◌, [], IfOk, unwrap_or};
ghost use Rattle.std.specs.Fmt.{decimal};
ghost use Rattle.dm_tree.specs.Nodes.{is_format as is_one_of, is_node_format as is_node};
ghost use Rattle.dm_tree.specs.Devices.{is_role as is_one};
ghost use Rattle.dm_commands.specs.Table.{has_bad_meta as has_bad};

use dm_base::{Bytes, Memory};
use dm_tree::{Role, Value};
use itoa::Buffer;
use std::alloc::Global;
use std::mem;
use syncml_types::Step;

fn is_format(text: &[u8]) -> bool
    ensures { result ≡ is_one_of text.now }
{
    matches!(
        text,
        b"b64" | b"bin" | b"bool" | b"chr" | b"int" | b"node" | b"null" | b"xml"
    )
}

pub(crate) fn is_node_format(text: &[u8]) -> bool
    ensures { result ≡ is_node text.now }
{
    text == b"node".as_slice()
}

/// Whether a Format isn't one of the eight, or a Type has more than 255 bytes.
pub(crate) fn has_bad_meta(format: &[u8], media: &[u8]) -> bool
    ensures { result ≡ has_bad format.now media.now }
{
    !is_format(format) || media.len() > 255
}

pub(crate) fn is_role(role: Role, wanted: Role) -> bool
    ensures { result ≡ is_one role wanted }
{
    role == wanted
}

/// The text that is given, or another one.
pub(crate) fn given_or<'a>(given: &'a Option<Bytes>, other: &'a [u8]) -> &'a [u8]
    ensures { result.now ≡ unwrap_or given.now other.now }
{
    match given {
        Some(text) => text.as_slice(),
        None => other,
    }
}

/// A value of copies of these.
pub(crate) fn value_of(
    alloc: Global,
    format: &[u8],
    media: &[u8],
    bytes: &[u8],
) -> Result<Value, Memory>
    ensures { IfOk result (λ value. value ≡ record { format = format.now; media = media.now; bytes = bytes.now }) }
{
    Ok(Value {
        format: Bytes::of_slice(alloc, format)?,
        media: Bytes::of_slice(alloc, media)?,
        bytes: Bytes::of_slice(alloc, bytes)?,
    })
}

/// The value that a step gives, moved out of it.
pub(crate) fn take_value(alloc: Global, step: &mut Step) -> Bytes
    ensures value { result ≡ step.old.value }
    ensures step { step.new ≡ record step.old { value = [] } }
{
    mem::replace(&mut step.value, Bytes::new(alloc))
}

/// A number in decimal digits.
pub(crate) fn decimal_text(alloc: Global, number: u64) -> Result<Bytes, Memory>
    ensures { IfOk result (λ text. text ≡ decimal number) }
{
    let mut buffer = Buffer::new();
    Bytes::of_slice(alloc, buffer.format(number).as_bytes())
}
