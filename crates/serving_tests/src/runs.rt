// Whole runs: what they answer and write, and what their connections got.
ghost use Rattle.std.specs.Prelude.{IfOk, IfSome};
ghost use Rattle.dm_outside.specs.Streams.{IsUntouched, AreUntouched};

use crate::messages::{
    FIRST, FIRST_REPLY, FIRST_REPLY_LATER, JOB, NONCES, REFUSAL, REPORT, SECOND, SECOND_REPLY,
};
use dm_base::{Bytes, List, MemSink, MemSource, Memory};
use dm_exit::Exit;
use dm_outside::{MemDoor, MemNonces, MemStream};
use dm_serving::serve;
use dm_words::ServeWords;
use std::alloc::Global;
use std::test::Fail;

const GET: &[u8] = b"GET / HTTP/1.1\r\nHost: h\r\n\r\n";

const WAITING: &[u8] = b"state waiting\ndone\n";

/// A connection: what it holds, and the call that fails, counted from 1. None is one that never comes.
type Visitor = Option<(&'static [u8], u64)>;

/// What comes to a door, and what the run comes to: its answer, what it writes, and what its connections got.
#[derive(Clone, Copy)]
struct Row {
    job: &'static [u8],
    count: u32,
    listens: bool,
    visitors: &'static [Visitor],
    exit: Exit,
    text: &'static [u8],
    got: &'static [&'static [u8]],
}

const ROWS: [Row; 7] = [
    // What is no message.
    Row {
        job: JOB,
        count: 1,
        listens: true,
        visitors: &[Some((GET, 0))],
        exit: Exit::Done,
        text: WAITING,
        got: &[REFUSAL],
    },
    // A whole session; no more connections are let in than are to be.
    Row {
        job: JOB,
        count: 2,
        listens: true,
        visitors: &[Some((FIRST, 0)), Some((SECOND, 0)), Some((GET, 0))],
        exit: Exit::Done,
        text: REPORT,
        got: &[FIRST_REPLY, SECOND_REPLY],
    },
    // The second take of the first connection fails: it counts, and takes a nonce.
    Row {
        job: JOB,
        count: 3,
        listens: true,
        visitors: &[Some((FIRST, 2)), Some((FIRST, 0)), Some((SECOND, 0))],
        exit: Exit::Done,
        text: REPORT,
        got: &[b"", FIRST_REPLY_LATER, SECOND_REPLY],
    },
    // What is no message takes a nonce too.
    Row {
        job: JOB,
        count: 2,
        listens: true,
        visitors: &[Some((GET, 0)), Some((FIRST, 0))],
        exit: Exit::Done,
        text: b"state running\ndone\n",
        got: &[REFUSAL, FIRST_REPLY_LATER],
    },
    // The door doesn't listen; no connection comes behind the first.
    Row {
        job: JOB,
        count: 1,
        listens: false,
        visitors: &[Some((FIRST, 0))],
        exit: Exit::DoorFault,
        text: b"",
        got: &[],
    },
    Row {
        job: JOB,
        count: 3,
        listens: true,
        visitors: &[Some((FIRST, 0)), None, Some((SECOND, 0))],
        exit: Exit::DoorFault,
        text: b"",
        got: &[FIRST_REPLY],
    },
    // An input that is no job.
    Row {
        job: b"dm-job 2\n",
        count: 1,
        listens: true,
        visitors: &[Some((GET, 0))],
        exit: Exit::BadInput,
        text: b"bad 1 word\n",
        got: &[],
    },
];

fn stream(alloc: Global, held: &[u8], failing: u64) -> Result<MemStream, Memory>
    ensures { IfOk result IsUntouched }
{
    let mut fails = List::new(alloc);
    fails.push(failing)?;
    Ok(MemStream::new(alloc, Bytes::of_slice(alloc, held)?, 100, fails))
}

fn visitor(alloc: Global, visitor: Visitor) -> Result<Option<MemStream>, Memory>
    ensures { IfOk result (λ conn. IfSome conn IsUntouched) }
{
    match visitor {
        Some((held, failing)) => Ok(Some(stream(alloc, held, failing)?)),
        None => Ok(None),
    }
}

fn streams(alloc: Global, visitors: &[Visitor]) -> Result<List<Option<MemStream>>, Memory>
    ensures { IfOk result AreUntouched }
{
    let mut conns = List::new(alloc);
    for each in visitors {
        conns.push(visitor(alloc, *each)?)?;
    }
    Ok(conns)
}

fn nonces(alloc: Global) -> Result<MemNonces, Memory> {
    let mut nonces = List::new(alloc);
    for nonce in NONCES {
        nonces.push(nonce)?;
    }
    Ok(MemNonces::new(nonces))
}

// Whether the connections that were given back got this, and no others were.
fn have_got(door: &MemDoor, wanted: &[&[u8]]) -> bool {
    for place in 0..wanted.len() {
        if door.got(place) != Some(wanted[place]) {
            return false;
        }
    }
    door.got(wanted.len()).is_none()
}

fn is_so(alloc: Global, row: &Row) -> Result<bool, Memory> {
    let words = ServeWords {
        address: Bytes::of_slice(alloc, b"127.0.0.1:80")?,
        count: row.count,
    };
    let mut src = MemSource::new(Bytes::of_slice(alloc, row.job)?, 100, List::new(alloc));
    let mut out = MemSink::new(alloc, List::new(alloc));
    let mut door = MemDoor::new(alloc, row.listens, streams(alloc, row.visitors)?);
    let mut nonces = nonces(alloc)?;
    let exit = serve(alloc, &words, &mut src, &mut out, &mut door, &mut nonces);
    Ok(exit == row.exit && out.bytes() == row.text && have_got(&door, row.got))
}

// The first row that comes to something else.
fn wrong(alloc: Global) -> Result<Option<usize>, Memory> {
    for place in 0..ROWS.len() {
        if !is_so(alloc, &ROWS[place])? {
            return Ok(Some(place));
        }
    }
    Ok(None)
}

#[test]
fn runs_come_to_what_they_must(rt: HostRuntime) -> Result<(), Fail> {
    assert_eq!(rt; wrong(rt.alloc())?, None);
    Ok(())
}
