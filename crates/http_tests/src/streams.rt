// One exchange over a stream in memory, and what it must come to.
ghost use Rattle.std.specs.Prelude.{◌<◌};

use crate::echoes::Echo;
use dm_base::{Bytes, List, Memory, Nonce};
use dm_http::{HttpError, post, serve_one};
use dm_outside::MemStream;
use std::alloc::Global;

pub(crate) const NONCE: Nonce = Nonce {
    bytes: *b"0123456789abcdef",
};

/// What is put by `post` here.
pub(crate) const REQUEST: &[u8] =
    b"POST /dm HTTP/1.1\r\nHost: h:80\r\nContent-Type: application/vnd.syncml.dm+wbxml\r\n\
Accept: application/vnd.syncml.dm+wbxml\r\nContent-Length: 4\r\nConnection: close\r\n\r\n\x02\x00\x6a\x00";

/// The pieces of a text, each so many times.
pub(crate) type Pieces = &'static [(&'static [u8], usize)];

/// A body, a body of so many bytes, or a refusal.
#[derive(Clone, Copy)]
pub(crate) enum Answer {
    Body(&'static [u8]),
    Long(usize),
    Refused(HttpError),
}

/// What an exchange of a server comes to: its answer, what the connection got, and what was delivered.
#[derive(Clone, Copy)]
pub(crate) struct Outcome {
    pub answer: Result<(), HttpError>,
    pub got: &'static [u8],
    pub taken: &'static [u8],
}

/// How a stream moves its bytes: in pieces of at most `size` bytes, and this call fails, counted from 1.
#[derive(Clone, Copy)]
pub(crate) struct Pace {
    pub size: usize,
    pub fails: u64,
}

fn put_many(text: &mut Bytes, piece: &[u8], times: usize) -> Result<(), Memory> {
    for _ in 0..times {
        text.extend(piece)?;
    }
    Ok(())
}

pub(crate) fn text_of(alloc: Global, pieces: &[(&[u8], usize)]) -> Result<Bytes, Memory> {
    let mut text = Bytes::new(alloc);
    for (piece, times) in pieces {
        put_many(&mut text, piece, *times)?;
    }
    Ok(text)
}

fn one(alloc: Global, number: u64) -> Result<List<u64>, Memory> {
    let mut numbers = List::new(alloc);
    numbers.push(number)?;
    Ok(numbers)
}

fn is_wanted(answer: &Result<Bytes, HttpError>, wanted: Answer) -> bool {
    match (answer, wanted) {
        (Ok(body), Answer::Body(bytes)) => body.as_slice() == bytes,
        (Ok(body), Answer::Long(count)) => body.len() == count,
        (Err(error), Answer::Refused(refusal)) => *error == refusal,
        _ => false,
    }
}

fn posts_so(
    alloc: Global,
    reply: Bytes,
    size: usize,
    fails: List<u64>,
    wanted: Answer,
    got: &[u8],
) -> bool
    requires { 0 < size }
{
    let mut conn = MemStream::new(alloc, reply, size, fails);
    let answer = post(alloc, &mut conn, b"h:80", b"/dm", b"\x02\x00\x6a\x00");
    is_wanted(&answer, wanted) && conn.got() == got
}

/// Whether `post` gives this answer to a reply, and its connection got this.
pub(crate) fn is_posted(
    alloc: Global,
    reply: Bytes,
    pace: Pace,
    wanted: Answer,
    got: &[u8],
) -> Result<bool, Memory>
    requires { 0 < pace.size }
{
    let fails = one(alloc, pace.fails)?;
    Ok(posts_so(alloc, reply, pace.size, fails, wanted, got))
}

fn serves_so(alloc: Global, request: Bytes, size: usize, fails: List<u64>, wanted: Outcome) -> bool
    requires { 0 < size }
{
    let mut conn = MemStream::new(alloc, request, size, fails);
    let mut core = Echo::new(alloc);
    let answer = serve_one(alloc, &mut conn, &mut core, NONCE);
    answer == wanted.answer && conn.got() == wanted.got && core.taken() == wanted.taken
}

/// Whether `serve_one` comes to this by a request.
pub(crate) fn is_served(
    alloc: Global,
    request: Bytes,
    pace: Pace,
    wanted: Outcome,
) -> Result<bool, Memory>
    requires { 0 < pace.size }
{
    let fails = one(alloc, pace.fails)?;
    Ok(serves_so(alloc, request, pace.size, fails, wanted))
}
