// What is written of a run.

use dm_base::{Bytes, List, MemSink, Memory, hex_into};
use dm_decimals::put_decimal;
use dm_exit::Exit;
use std::alloc::Global;

/// How a run ended, what it put, and what its connections got.
#[derive(Drop)]
pub struct Outcome {
    pub sink: MemSink,
    pub got: List<Option<Bytes>>,
    pub exit: Exit,
}

// The status that dmtool ends with.
fn status(exit: Exit) -> u64 {
    match exit {
        Exit::Done => 0,
        Exit::Usage => 2,
        Exit::BadInput => 3,
        Exit::ReadFault => 4,
        Exit::WriteFault => 5,
        Exit::NoMemory => 6,
        Exit::GaveUp => 7,
        Exit::Denied => 8,
        Exit::TooLong => 9,
        Exit::DoorFault => 10,
        Exit::Peer => 11,
        Exit::DiskFault => 13,
        Exit::StoreFull => 14,
        Exit::BadStore => 15,
    }
}

fn put_got(text: &mut Bytes, got: &Option<Bytes>) -> Result<(), Memory> {
    text.extend(b"got ")?;
    match got {
        Some(bytes) if !bytes.is_empty() => hex_into(text, bytes.as_slice())?,
        _ => text.push(b'-')?,
    }
    text.push(b'\n')
}

/// The text of a run, a line for each connection, and the status.
pub fn outcome_text(alloc: Global, outcome: &Outcome) -> Result<Bytes, Memory> {
    let mut text = Bytes::of_slice(alloc, outcome.sink.bytes())?;
    for got in outcome.got.as_slice() {
        put_got(&mut text, got)?;
    }
    text.extend(b"status ")?;
    put_decimal(&mut text, status(outcome.exit))?;
    text.push(b'\n')?;
    Ok(text)
}
