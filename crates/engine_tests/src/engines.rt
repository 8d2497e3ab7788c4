// Calls of an engine.
ghost use Rattle.dm_atomic.specs.Engine.{IsSoundEngine};
ghost use Rattle.dm_atomic.specs.Marks.{Holds};

use crate::rows::{HEAD, TAIL};
use dm_atomic::{Engine, Origin};
use dm_base::{Bytes, List, Memory};
use std::alloc::Global;
use syncml_codec::decode;
use syncml_types::Command;

// The bytes of a message with this command in its body, or without one.
fn document(alloc: Global, command: &[u8]) -> Result<Bytes, Memory> {
    let mut bytes = Bytes::of_slice(alloc, HEAD)?;
    bytes.extend(command)?;
    bytes.extend(TAIL)?;
    Ok(bytes)
}

// Its body.
fn body(alloc: Global, command: &[u8]) -> Result<List<Command>, Memory> {
    match decode(alloc, document(alloc, command)?.as_slice()) {
        Ok(message) => Ok(message.into_body()),
        Err(_) => Err(Memory),
    }
}

// One call, in a message of this number: its first command, or a quiet message.
fn called(
    engine: &mut Engine,
    msg: u32,
    body: &mut List<Command>,
    out: &mut List<Command>,
) -> Result<(), Memory>
    requires sound { IsSoundEngine engine.old }
    ensures marks { Holds engine.old engine.new }
    ensures sound { IsSoundEngine engine.new }
{
    let origin = Origin { msg, quiet: false };
    match body.first_mut() {
        None => engine.still(out),
        Some(command) => engine.run(b"s1", origin, command, out),
    }
}

// The same of a message's bytes.
fn called_by(
    alloc: Global,
    engine: &mut Engine,
    msg: u32,
    command: &[u8],
    out: &mut List<Command>,
) -> Result<(), Memory>
    requires sound { IsSoundEngine engine.old }
    ensures marks { Holds engine.old engine.new }
    ensures sound { IsSoundEngine engine.new }
{
    let mut body = body(alloc, command)?;
    called(engine, msg, &mut body, out)
}

/// Calls one after another, each in a message of its own: the first has this number.
pub(crate) fn all_called(
    alloc: Global,
    engine: &mut Engine,
    first: usize,
    calls: &[&[u8]],
    out: &mut List<Command>,
) -> Result<(), Memory>
    requires sound { IsSoundEngine engine.old }
    ensures marks { Holds engine.old engine.new }
    ensures sound { IsSoundEngine engine.new }
{
    for (place, call) in calls.iter().enumerate() {
        let msg = first.saturating_add(place).min(1_000) as u32;
        called_by(alloc, engine, msg, call, out)?;
    }
    Ok(())
}

/// The same, and once more from a mark on where memory ran out.
pub(crate) fn all_called_twice(
    alloc: Global,
    engine: &mut Engine,
    calls: &[&[u8]],
    out: &mut List<Command>,
) -> Result<(), Memory>
    requires sound { IsSoundEngine engine.old }
    ensures sound { IsSoundEngine engine.new }
{
    let mark = engine.mark();
    let answer = all_called(alloc, engine, 1, calls, out);
    if answer.is_ok() {
        return Ok(());
    }
    engine.back(mark);
    out.cut_to(0);
    all_called(alloc, engine, 1, calls, out)
}
