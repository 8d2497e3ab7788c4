// The commands that lines say.
ghost use Rattle.std.specs.Prelude.{◌≡◌, ◌++◌, ◌∷◌, [], IfOk, OnOk, OnErr};
ghost use Rattle.dm_base.specs.Fields.{parts};
ghost use Rattle.dm_job.specs.Commands as Spec;

use dm_base::{Boxed, Bytes, FieldForm, List, Memory, OBJECT_LIMIT, hex_bytes, is_field};
use dm_fields::{begins_with, five_fields, opt_of, three_fields, two_fields};
use std::alloc::Global;
use syncml_types::{Block, Command, Item, Loc, Member, Meta, Plain, SeqMember, Verb};

fn meta_of(
    alloc: Global,
    format: Option<Bytes>,
    media: Option<Bytes>,
) -> Result<Option<Boxed<Meta>>, Memory>
    ensures { IfOk result (λ meta. meta ≡ Spec.meta_of format media) }
{
    if format.is_none() && media.is_none() {
        return Ok(None);
    }
    let meta = Meta {
        format,
        media,
        ..Meta::empty()
    };
    Ok(Some(Boxed::new(alloc, meta)?))
}

fn item_of(
    alloc: Global,
    uri: &[u8],
    meta: Option<Boxed<Meta>>,
    value: Option<Bytes>,
) -> Result<Item, Memory>
    ensures { IfOk result (λ item. item ≡ Spec.item_of uri.now meta value) }
{
    Ok(Item {
        target: Some(Loc {
            uri: Bytes::of_slice(alloc, uri)?,
            name: None,
        }),
        source: None,
        meta,
        value,
        more: false,
    })
}

fn plain_of(
    alloc: Global,
    verb: Verb,
    correlator: Option<Bytes>,
    item: Item,
) -> Result<Plain, Memory>
    ensures { IfOk result (λ plain. plain ≡ Spec.plain_of verb correlator item) }
{
    let mut items = List::new(alloc);
    items.push(item)?;
    Ok(Plain {
        verb,
        id: 0,
        no_resp: false,
        meta: None,
        correlator,
        items,
    })
}

// `get WORD` and `delete WORD`
fn bare_in(alloc: Global, verb: Verb, line: &[u8]) -> Result<Option<Plain>, Memory>
    ensures { IfOk result (λ plain. plain ≡ Spec.bare_in verb (parts line.now)) }
{
    let Some((_, uri)) = two_fields(line) else {
        return Ok(None);
    };
    if !is_field(FieldForm::Word, uri) {
        return Ok(None);
    }
    let item = item_of(alloc, uri, None, None)?;
    Ok(Some(plain_of(alloc, verb, None, item)?))
}

// `exec WORD OPT`
fn exec_in(alloc: Global, line: &[u8]) -> Result<Option<Plain>, Memory>
    ensures { IfOk result (λ plain. plain ≡ Spec.exec_in (parts line.now)) }
{
    let Some((_, uri, correlator)) = three_fields(line) else {
        return Ok(None);
    };
    if !is_field(FieldForm::Word, uri) || !is_field(FieldForm::Opt, correlator) {
        return Ok(None);
    }
    let item = item_of(alloc, uri, None, None)?;
    let correlator = opt_of(alloc, correlator)?;
    Ok(Some(plain_of(alloc, Verb::Exec, correlator, item)?))
}

fn data_in(alloc: Global, text: &[u8]) -> Result<Option<Bytes>, Memory>
    ensures { IfOk result (λ bytes. bytes ≡ Spec.hex_data_in text.now) }
{
    match hex_bytes(alloc, text)? {
        Some(bytes) if bytes.len() <= OBJECT_LIMIT as usize => Ok(Some(bytes)),
        Some(_) => Ok(None),
        None => Ok(None),
    }
}

fn write_of(
    alloc: Global,
    verb: Verb,
    uri: &[u8],
    format: &[u8],
    media: &[u8],
    bytes: Bytes,
) -> Result<Plain, Memory>
    ensures { IfOk result (λ plain. plain ≡ Spec.plain_written verb uri.now format.now media.now bytes) }
{
    let meta = meta_of(alloc, opt_of(alloc, format)?, opt_of(alloc, media)?)?;
    let item = item_of(alloc, uri, meta, Some(bytes))?;
    plain_of(alloc, verb, None, item)
}

// `add WORD FORMAT TYPE HEX` and `replace WORD FORMAT TYPE HEX`
fn write_in(alloc: Global, verb: Verb, line: &[u8]) -> Result<Option<Plain>, Memory>
    ensures { IfOk result (λ plain. plain ≡ Spec.write_in verb (parts line.now)) }
{
    let Some((_, uri, format, media, digits)) = five_fields(line) else {
        return Ok(None);
    };
    if !is_field(FieldForm::Word, uri)
        || !is_field(FieldForm::Opt, format)
        || !is_field(FieldForm::Word, media)
    {
        return Ok(None);
    }
    match data_in(alloc, digits)? {
        Some(bytes) => Ok(Some(write_of(alloc, verb, uri, format, media, bytes)?)),
        None => Ok(None),
    }
}

/// The verb that a line names. None comes exactly where its first word names none.
pub(crate) fn verb_in(line: &[u8]) -> Option<Verb>
    ensures { result ≡ Spec.verb_in line.now }
{
    if begins_with(b"get", line) {
        Some(Verb::Get)
    } else if begins_with(b"delete", line) {
        Some(Verb::Delete)
    } else if begins_with(b"add", line) {
        Some(Verb::Add)
    } else if begins_with(b"replace", line) {
        Some(Verb::Replace)
    } else if begins_with(b"exec", line) {
        Some(Verb::Exec)
    } else {
        None
    }
}

/// The command that the fields of a line say. None comes exactly where they say none.
pub(crate) fn plain_in(alloc: Global, verb: Verb, line: &[u8]) -> Result<Option<Plain>, Memory>
    ensures { IfOk result (λ plain. plain ≡ Spec.plain_in verb (parts line.now)) }
{
    match verb {
        Verb::Get => bare_in(alloc, Verb::Get, line),
        Verb::Delete => bare_in(alloc, Verb::Delete, line),
        Verb::Add => write_in(alloc, Verb::Add, line),
        Verb::Replace => write_in(alloc, Verb::Replace, line),
        Verb::Exec => exec_in(alloc, line),
        Verb::Copy => Ok(None),
    }
}

/// An Atomic without members.
pub(crate) fn new_atomic(alloc: Global) -> Command
    ensures { result ≡ Spec.new_atomic }
{
    Command::Atomic(Block {
        id: 0,
        no_resp: false,
        meta: None,
        members: List::new(alloc),
    })
}

/// A Sequence without members.
pub(crate) fn new_sequence(alloc: Global) -> Command
    ensures { result ≡ Spec.new_sequence }
{
    Command::Sequence(Block {
        id: 0,
        no_resp: false,
        meta: None,
        members: List::new(alloc),
    })
}

/// Adds a member to a container. After `Memory` the member is given up.
pub(crate) fn push_member(command: &mut Command, plain: Plain) -> Result<(), Memory>
    ensures ok { OnOk result (command.new ≡ Spec.with_member command.old plain) }
    ensures err { OnErr result (command.new ≡ command.old) }
{
    match command {
        Command::Atomic(block) => block.members.push(Member::One(plain)),
        Command::Sequence(block) => block.members.push(SeqMember::Single(Member::One(plain))),
        Command::Plain(_) | Command::Alert(_) | Command::Status(_) | Command::Results(_) => Ok(()),
    }
}
