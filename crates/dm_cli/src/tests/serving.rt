// Runs of `serve` over a door in memory.
use crate::run::run;
use crate::tests::reaching::reach_of;
use anyhow::Result;
use dm_base::{Bytes, List, MemSink, MemSource};
use dm_exit::Exit;
use dm_outside::MemStream;
use std::alloc::Global;

const JOB: &[u8] = b"dm-job 1\nserver s1 - - - - -\nlimits 16384 4194304\nget ./A\nend\n";

const GET: &[u8] = b"GET / HTTP/1.1\r\nHost: h\r\n\r\n";

const REFUSAL: &[u8] =
    b"HTTP/1.1 400 Bad Request\r\nContent-Length: 0\r\nConnection: close\r\n\r\n";

const UNTOUCHED: &[u8] = b"state waiting\ndone\n";

// How a run with these words ends over a job and the bytes of a connection, what it puts, and what the connection gets.
fn served(
    alloc: Global,
    words: &[&str],
    asked: Option<&[u8]>,
) -> Result<(Exit, MemSink, Option<Bytes>)> {
    let mut given = Vec::new(alloc);
    for word in words {
        given.push(String::from_str(alloc, word)?)?;
    }
    let mut conns = List::new(alloc);
    if let Some(bytes) = asked {
        conns.push(Some(MemStream::new(
            alloc,
            Bytes::of_slice(alloc, bytes)?,
            4096,
            List::new(alloc),
        )))?;
    }
    let mut source = MemSource::new(Bytes::of_slice(alloc, JOB)?, 4096, List::new(alloc));
    let mut sink = MemSink::new(alloc, List::new(alloc));
    let mut reach = reach_of(alloc, conns);
    let exit = run(alloc, given.as_slice(), &mut source, &mut sink, &mut reach);
    let got = match reach.door.got(0) {
        Some(bytes) => Some(Bytes::of_slice(alloc, bytes)?),
        None => None,
    };
    Ok((exit, sink, got))
}

#[test]
fn a_request_that_is_no_post_is_refused(rt: HostRuntime) -> Result<()> {
    let (exit, sink, got) = served(rt.alloc(), &["serve", "127.0.0.1:80", "1"], Some(GET))?;
    assert_eq!(rt; exit, Exit::Done);
    assert_eq!(rt; sink.bytes(), UNTOUCHED);
    assert!(rt; got.is_some_and(|bytes| bytes.as_slice() == REFUSAL));
    Ok(())
}

#[test]
fn a_door_that_fails_ends_the_run(rt: HostRuntime) -> Result<()> {
    let (exit, sink, got) = served(rt.alloc(), &["serve", "127.0.0.1:80", "1"], None)?;
    assert_eq!(rt; exit, Exit::DoorFault);
    assert_eq!(rt; sink.bytes(), b"".as_slice());
    assert!(rt; got.is_none());
    Ok(())
}
