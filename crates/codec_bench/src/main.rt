//! Measures how fast documents are read into tokens and messages, and how fast messages are spelled and measured.
//! Without words it does each once, and tells what it folds to. The words FILE SECONDS PIECE READER, encode SECONDS
//! MESSAGE and length SECONDS MESSAGE ask for picoseconds a byte; MESSAGE is small, large, or a file that has one.
#![tactic(auto)]

mod fold;
mod job;
mod messages;
mod spell;
mod turn;
mod words;

use dm_base::Memory;
use fold::Fold;
use job::{Job, turns};
use messages::{large_data, small_commands};
use spell::{measure_length, spell_and_fold};
use std::process::ExitCode;
use std::time::Instant;
use std::{env, fs, io};
use syncml_codec::decode;
use syncml_types::{Message, length};
use turn::{Way, turn};
use wbxml_tokens::FeedError;
use words::{Span, Work, span_of, work_of};

// Between two looks at the clock at least this many bytes are read or spelled.
const BYTES_A_LOOK: usize = 262_144;

// The error that a refused document, or want of memory, gives.
fn told(error: FeedError) -> io::Error {
    match error {
        FeedError::Refused(_) => io::Error::from(io::ErrorKind::InvalidData),
        FeedError::Memory => io::Error::from(io::ErrorKind::OutOfMemory),
    }
}

fn of_memory(_error: Memory) -> io::Error {
    io::Error::from(io::ErrorKind::OutOfMemory)
}

fn bad_words() -> io::Error {
    io::Error::from(io::ErrorKind::InvalidInput)
}

// Does a job over so many bytes for so many seconds, and tells the mean time and that of the fastest round.
fn measure(
    rt: &HostRuntime,
    job: Job<'_>,
    size: usize,
    seconds: u64,
    fold: &mut Fold,
) -> io::Result<()> {
    let count = (1 + BYTES_A_LOOK / size.max(1)) as u64;
    let round = u128::from(count).saturating_mul(size as u128).max(1);
    let limit = u128::from(seconds).saturating_mul(1_000_000_000);
    let start = Instant::now(rt)?;
    let mut rounds = 0u128;
    let mut before = 0u128;
    let mut least = u128::MAX;
    for _ in 0..u64::MAX {
        turns(rt.alloc(), job, count, fold).map_err(told)?;
        let now = start.elapsed(rt)?.as_nanos();
        rounds = rounds.saturating_add(1);
        least = least.min(now.saturating_sub(before));
        before = now;
        if now >= limit {
            break;
        }
    }
    let all = rounds.saturating_mul(round).max(1);
    let mean = before.saturating_mul(1000) / all;
    let best = least.saturating_mul(1000) / round;
    println!(rt; "{mean} ps a byte, fastest {best}, fold {}", fold.sum)
}

// Does a job over so many bytes for a time, or so many times.
fn work(rt: &HostRuntime, job: Job<'_>, size: usize, span: Span) -> io::Result<()> {
    let mut fold = Fold { tokens: 0, sum: 0 };
    match span {
        Span::Seconds(seconds) => measure(rt, job, size, seconds, &mut fold),
        Span::Turns(count) => {
            turns(rt.alloc(), job, count, &mut fold).map_err(told)?;
            println!(rt; "fold {}", fold.sum)
        }
    }
}

fn read(rt: &HostRuntime, file: &str, work_asked: Work) -> io::Result<()> {
    let bytes = fs::read(rt, file)?;
    let size = work_asked.size.unwrap_or(bytes.len());
    let job = Job::Read {
        way: work_asked.way,
        size,
        bytes: bytes.as_slice(),
    };
    work(rt, job, bytes.len(), work_asked.span)
}

// The message that bytes spell.
fn message_in(rt: &HostRuntime, bytes: &[u8]) -> io::Result<Message> {
    match decode(rt.alloc(), bytes) {
        Ok(message) => Ok(message),
        Err(error) => Err(told(error)),
    }
}

// A message of this name, or that of a file.
fn message_of(rt: &HostRuntime, name: &str) -> io::Result<Message> {
    match name {
        "small" => {
            let bytes = small_commands(rt.alloc()).map_err(of_memory)?;
            message_in(rt, bytes.as_slice())
        }
        "large" => {
            let bytes = large_data(rt.alloc()).map_err(of_memory)?;
            message_in(rt, bytes.as_slice())
        }
        file => {
            let bytes = fs::read(rt, file)?;
            message_in(rt, bytes.as_slice())
        }
    }
}

fn write_message(rt: &HostRuntime, what: &str, span: Span, message: &Message) -> io::Result<()> {
    let size = length(message) as usize;
    match what {
        "encode" => work(rt, Job::Encode(message), size, span),
        "length" => work(rt, Job::Length(message), size, span),
        _ => Err(bad_words()),
    }
}

fn write(rt: &HostRuntime, what: &str, span: &str, name: &str) -> io::Result<()> {
    let Some(span) = span_of(span) else {
        return Err(bad_words());
    };
    let message = message_of(rt, name)?;
    write_message(rt, what, span, &message)
}

// One turn over a document of the data, in each way, whole and byte by byte.
fn show(rt: &HostRuntime, name: &str) -> io::Result<()> {
    let bytes = fs::read(rt, name)?;
    for way in [Way::Engine, Way::Tokens] {
        for size in [1, bytes.len().max(1)] {
            let mut fold = Fold { tokens: 0, sum: 0 };
            turn(rt.alloc(), way, bytes.as_slice(), size.max(1), &mut fold).map_err(told)?;
            println!(rt;
                "{name} {} bytes {} tokens sum {}",
                bytes.len(),
                fold.tokens,
                fold.sum
            )?;
        }
    }
    Ok(())
}

// The length of a message, how many bytes come where it is spelled, and their sum.
fn tell_spelled(rt: &HostRuntime, name: &str, message: &Message) -> io::Result<()> {
    let mut fold = Fold { tokens: 0, sum: 0 };
    spell_and_fold(rt.alloc(), message, &mut fold).map_err(of_memory)?;
    let bytes = length(message);
    println!(rt;
        "{name} length {bytes} spelled {} bytes sum {}",
        fold.tokens, fold.sum
    )
}

fn show_spelled(rt: &HostRuntime, name: &str) -> io::Result<()> {
    let message = message_of(rt, name)?;
    tell_spelled(rt, name, &message)
}

// One decoding of a document of the data: how many commands its message has.
fn show_decoded(rt: &HostRuntime, name: &str) -> io::Result<()> {
    let bytes = fs::read(rt, name)?;
    let size = bytes.len().max(1);
    let mut fold = Fold { tokens: 0, sum: 0 };
    turn(rt.alloc(), Way::Message, bytes.as_slice(), size, &mut fold).map_err(told)?;
    println!(rt; "{name} {} command(s)", fold.sum)
}

fn show_all(rt: &HostRuntime) -> io::Result<()> {
    show(rt, "one_get.wbxml")?;
    show_decoded(rt, "one_get.wbxml")?;
    show(rt, "four_replaces.wbxml")?;
    show(rt, "one_opaque.wbxml")?;
    show_spelled(rt, "small")?;
    show_spelled(rt, "large")
}

// Does what the words behind the program's name ask for.
fn run(rt: &HostRuntime, words: &[String]) -> io::Result<()> {
    match words {
        [] => show_all(rt),
        [what, span, name] => write(rt, what.as_str(), span.as_str(), name.as_str()),
        [file, span, piece, way] => match work_of(span.as_str(), piece.as_str(), way.as_str()) {
            Some(work_asked) => read(rt, file.as_str(), work_asked),
            None => Err(bad_words()),
        },
        _ => Err(bad_words()),
    }
}

fn main(rt: HostRuntime) -> io::Result<()> {
    let mut words = Vec::new(rt.alloc());
    for word in env::args(&rt)?.skip(1) {
        words.push(word)?;
    }
    run(&rt, words.as_slice())
}
