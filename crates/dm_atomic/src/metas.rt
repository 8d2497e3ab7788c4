// What an item's Meta tells, or else that of its command.
ghost use Rattle.std.specs.Prelude.{◌≡◌, IfOk, option_and_then};
ghost use Rattle.syncml_types.specs.declared.values.Meta.{Meta as AMeta};
ghost use Rattle.dm_atomic.specs.Tasks.{child_of_either};

use dm_base::{Boxed, Bytes, Memory};
use std::alloc::Global;
use syncml_types::Meta;
use syncml_types::copies::copy_bytes;

fn format_in(alloc: Global, meta: &Option<Boxed<Meta>>) -> Result<Option<Bytes>, Memory>
    ensures { IfOk result (λ format. format ≡ option_and_then (λ (m : AMeta). m.format) meta.now) }
{
    match meta {
        None => Ok(None),
        Some(meta) => copy_bytes(alloc, &meta.inner.format),
    }
}

fn media_in(alloc: Global, meta: &Option<Boxed<Meta>>) -> Result<Option<Bytes>, Memory>
    ensures { IfOk result (λ media. media ≡ option_and_then (λ (m : AMeta). m.media) meta.now) }
{
    match meta {
        None => Ok(None),
        Some(meta) => copy_bytes(alloc, &meta.inner.media),
    }
}

fn size_in(meta: &Option<Boxed<Meta>>) -> Option<u64>
    ensures { result ≡ option_and_then (λ (m : AMeta). m.size) meta.now }
{
    match meta {
        None => None,
        Some(meta) => meta.inner.size,
    }
}

/// A copy of the Format that the item's own Meta gives, or else of its command's.
pub fn format_of(
    alloc: Global,
    own: &Option<Boxed<Meta>>,
    command: &Option<Boxed<Meta>>,
) -> Result<Option<Bytes>, Memory>
    ensures { IfOk result (λ format. format ≡ child_of_either (λ (m : AMeta). m.format) own.now command.now) }
{
    match format_in(alloc, own)? {
        Some(format) => Ok(Some(format)),
        None => format_in(alloc, command),
    }
}

/// A copy of the Type that the item's own Meta gives, or else of its command's.
pub fn media_of(
    alloc: Global,
    own: &Option<Boxed<Meta>>,
    command: &Option<Boxed<Meta>>,
) -> Result<Option<Bytes>, Memory>
    ensures { IfOk result (λ media. media ≡ child_of_either (λ (m : AMeta). m.media) own.now command.now) }
{
    match media_in(alloc, own)? {
        Some(media) => Ok(Some(media)),
        None => media_in(alloc, command),
    }
}

// Moves the Format out.
fn format_out_of(meta: &mut Option<Boxed<Meta>>) -> Option<Bytes>
    ensures format { result ≡ option_and_then (λ (m : AMeta). m.format) meta.old }
    ensures media { option_and_then (λ (m : AMeta). m.media) meta.new
        ≡ option_and_then (λ (m : AMeta). m.media) meta.old }
{
    match meta {
        None => None,
        Some(meta) => meta.inner.format.take(),
    }
}

// Moves the Type out.
fn media_out_of(meta: &mut Option<Boxed<Meta>>) -> Option<Bytes>
    ensures { result ≡ option_and_then (λ (m : AMeta). m.media) meta.old }
{
    match meta {
        None => None,
        Some(meta) => meta.inner.media.take(),
    }
}

/// The Format that the item's own Meta gives, which is moved out of it, or else a copy of its command's.
pub fn take_format(
    alloc: Global,
    own: &mut Option<Boxed<Meta>>,
    command: &Option<Boxed<Meta>>,
) -> Result<Option<Bytes>, Memory>
    ensures format { IfOk result (λ format. format
        ≡ child_of_either (λ (m : AMeta). m.format) own.old command.now) }
    ensures media { option_and_then (λ (m : AMeta). m.media) own.new
        ≡ option_and_then (λ (m : AMeta). m.media) own.old }
{
    match format_out_of(own) {
        Some(format) => Ok(Some(format)),
        None => format_in(alloc, command),
    }
}

/// The Type that the item's own Meta gives, which is moved out of it, or else a copy of its command's.
pub fn take_media(
    alloc: Global,
    own: &mut Option<Boxed<Meta>>,
    command: &Option<Boxed<Meta>>,
) -> Result<Option<Bytes>, Memory>
    ensures { IfOk result (λ media. media ≡ child_of_either (λ (m : AMeta). m.media) own.old command.now) }
{
    match media_out_of(own) {
        Some(media) => Ok(Some(media)),
        None => media_in(alloc, command),
    }
}

/// The Size that the item's own Meta gives, or else its command's, in bytes.
pub fn size_of(own: &Option<Boxed<Meta>>, command: &Option<Boxed<Meta>>) -> Option<u64>
    ensures { result ≡ child_of_either (λ (m : AMeta). m.size) own.now command.now }
{
    match size_in(own) {
        Some(size) => Some(size),
        None => size_in(command),
    }
}
