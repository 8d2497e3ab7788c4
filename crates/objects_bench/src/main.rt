//! Measures how fast a large object is gathered from its pieces, beside one copy of its bytes. Without words it does
//! each once, and tells what came. The words CALL SECONDS ask for picoseconds a byte.
#![tactic(auto)]

mod fold;
mod gather;
mod pieces;

use dm_base::{Bytes, Memory};
use dm_objects::Piece;
use fold::fold;
use gather::{copy, gather};
use pieces::{SIZE, object_bytes, pieces_of};
use std::time::Instant;
use std::{env, io};

/// What is measured.
#[derive(Clone, Copy, PartialEq, Eq)]
enum Call {
    /// The object is gathered from its pieces.
    Gather,
    /// Its bytes are copied once.
    Copy,
}

// How long a call is made again and again: at least so many seconds, or so many turns.
#[derive(Clone, Copy, PartialEq, Eq)]
enum Span {
    Seconds(u64),
    Turns(u64),
}

fn of_memory(_error: Memory) -> io::Error {
    io::Error::from(io::ErrorKind::OutOfMemory)
}

fn bad_words() -> io::Error {
    io::Error::from(io::ErrorKind::InvalidInput)
}

fn call_of(word: &str) -> Option<Call> {
    match word {
        "gather" => Some(Call::Gather),
        "copy" => Some(Call::Copy),
        _ => None,
    }
}

// The word SECONDS, or xCOUNT for so many turns.
fn span_of(word: &str) -> Option<Span> {
    if let Some(count) = word.strip_prefix("x") {
        return count.parse::<u64>().ok().map(Span::Turns);
    }
    word.parse::<u64>().ok().map(Span::Seconds)
}

fn made(rt: &HostRuntime, call: Call, bytes: &[u8], pieces: &[Piece]) -> io::Result<Bytes> {
    let answer = match call {
        Call::Gather => gather(rt.alloc(), pieces),
        Call::Copy => copy(rt.alloc(), bytes),
    };
    match answer.map_err(of_memory)? {
        Some(whole) => Ok(whole),
        None => Err(io::Error::from(io::ErrorKind::InvalidData)),
    }
}

// The time of one call, with giving back what it made.
fn time_of(rt: &HostRuntime, call: Call, bytes: &[u8], pieces: &[Piece]) -> io::Result<u128> {
    let start = Instant::now(rt)?;
    let whole = made(rt, call, bytes, pieces)?;
    if whole.len() != SIZE {
        return Err(io::Error::from(io::ErrorKind::InvalidData));
    }
    drop(whole);
    Ok(start.elapsed(rt)?.as_nanos())
}

fn is_over(span: Span, turns: u64, total: u128) -> bool {
    match span {
        Span::Seconds(seconds) => total >= u128::from(seconds).saturating_mul(1_000_000_000),
        Span::Turns(count) => turns >= count,
    }
}

// Tells the mean time and that of the fastest turn.
fn tell(rt: &HostRuntime, turns: u64, total: u128, least: u128) -> io::Result<()> {
    let size = SIZE as u128;
    let mean = total.saturating_mul(1000) / u128::from(turns).saturating_mul(size).max(1);
    let best = least.saturating_mul(1000) / size;
    println!(rt; "{mean} ps a byte, fastest {best}, {turns} turns")
}

fn measure(rt: &HostRuntime, call: Call, span: Span) -> io::Result<()> {
    let bytes = object_bytes(rt.alloc()).map_err(of_memory)?;
    let pieces = pieces_of(rt.alloc(), bytes.as_slice()).map_err(of_memory)?;
    let mut turns = 0u64;
    let mut total = 0u128;
    let mut least = u128::MAX;
    for _ in 0..u64::MAX {
        if is_over(span, turns, total) {
            break;
        }
        let time = time_of(rt, call, bytes.as_slice(), pieces.as_slice())?;
        turns = turns.saturating_add(1);
        total = total.saturating_add(time);
        least = least.min(time);
    }
    tell(rt, turns, total, least)
}

// Each call once.
fn show(rt: &HostRuntime) -> io::Result<()> {
    let bytes = object_bytes(rt.alloc()).map_err(of_memory)?;
    let pieces = pieces_of(rt.alloc(), bytes.as_slice()).map_err(of_memory)?;
    for (name, call) in [("gather", Call::Gather), ("copy", Call::Copy)] {
        let whole = made(rt, call, bytes.as_slice(), pieces.as_slice())?;
        println!(rt;
            "{name} {} pieces, {} bytes, sum {}",
            pieces.len(),
            whole.len(),
            fold(whole.as_slice())
        )?;
    }
    Ok(())
}

// Does what the words behind the program's name ask for.
fn run(rt: &HostRuntime, words: &[String]) -> io::Result<()> {
    match words {
        [] => show(rt),
        [call, span] => match (call_of(call.as_str()), span_of(span.as_str())) {
            (Some(call), Some(span)) => measure(rt, call, span),
            _ => Err(bad_words()),
        },
        _ => Err(bad_words()),
    }
}

fn main(rt: HostRuntime) -> io::Result<()> {
    let mut words = Vec::new(rt.alloc());
    for word in env::args(&rt)?.skip(1) {
        words.push(word)?;
    }
    run(&rt, words.as_slice())
}
