// Runs of `device` over a dialer in memory.
ghost use Rattle.std.specs.Prelude.{IfOk};
ghost use Rattle.dm_outside.specs.Streams.{AreUntouched};

use crate::reach::Reach;
use crate::run::run;
use anyhow::Result;
use dm_base::{Bytes, List, MemSink, MemSource, hex_bytes};
use dm_exit::Exit;
use dm_outside::{MemDialer, MemDoor, MemNonces, MemStream, MemUpdater};
use std::alloc::Global;

const START: &[u8] =
    b"dm-trace 1\ndevice d1 Acme Box 1.2 en\nlimits 16384 4194304\naccount s1 - - - - -\n\
                       leaf ./A chr text/plain 78\nbegin\nend\n";

const TREE: &[u8] = b"\
node . 0 p Add=*&Get=* - -\n\
leaf ./A 0 - - - chr 746578742f706c61696e 78\n\
node ./DevInfo 0 p - - -\n\
leaf ./DevInfo/DevId 0 p - - chr 746578742f706c61696e 6431\n\
leaf ./DevInfo/DmV 0 p - - chr 746578742f706c61696e 312e32\n\
leaf ./DevInfo/Lang 0 p - - chr 746578742f706c61696e 656e\n\
leaf ./DevInfo/Man 0 p - - chr 746578742f706c61696e 41636d65\n\
leaf ./DevInfo/Mod 0 p - - chr 746578742f706c61696e 426f78\n\
done\n";

// The server's message: a Status 200 of the header and of each command, and Final.
const STATUSES: &[u8] =
    b"03a4016a006d6c7103312e3200017203444d2f312e32000165033100015b033100016e570364310001016757037331000101\
      5a00014c03313633383400015503343139343330340001010100006b694b033100015c033100014c033000014a0353796e63\
      48647200014f03323030000101694b033200015c033100014c033100014a03416c65727400014f03323030000101694b0333\
      00015c033100014c033200014a035265706c61636500014f03323030000101694b033400015c033100014c033200014a0352\
      65706c61636500014f03323030000101694b033500015c033100014c033200014a035265706c61636500014f033230300001\
      01694b033600015c033100014c033200014a035265706c61636500014f03323030000101694b033700015c033100014c0332\
      00014a035265706c61636500014f03323030000101120101";

const HEAD: &[u8] = b"HTTP/1.1 200 OK\r\nContent-Length: 324\r\n\r\n";

const NO_CONTENT: &[u8] = b"HTTP/1.1 204 No Content\r\nConnection: close\r\n\r\n";

// How a run with this server's name ends over these connections, and what it puts.
fn managed(alloc: Global, server: &str, conns: List<Option<MemStream>>) -> Result<(Exit, MemSink)>
    requires { AreUntouched conns }
{
    let mut words = Vec::new(alloc);
    for word in ["device", "127.0.0.1:80", server, "client", "1", "/dm"] {
        words.push(String::from_str(alloc, word)?)?;
    }
    let mut source = MemSource::new(Bytes::of_slice(alloc, START)?, 4096, List::new(alloc));
    let mut sink = MemSink::new(alloc, List::new(alloc));
    let mut reach = Reach {
        dialer: MemDialer::new(alloc, conns),
        door: MemDoor::new(alloc, true, List::new(alloc)),
        updater: MemUpdater::new(alloc, List::new(alloc)),
        nonces: MemNonces::new(List::new(alloc)),
    };
    let exit = run(alloc, words.as_slice(), &mut source, &mut sink, &mut reach);
    Ok((exit, sink))
}

// The text of a session that ends by this word, with the tree as it began.
fn text_of(alloc: Global, word: &[u8]) -> Result<Bytes> {
    let mut text = Bytes::of_slice(alloc, b"session 1 ")?;
    text.extend(word)?;
    text.extend(b"\n")?;
    text.extend(TREE)?;
    Ok(text)
}

// A reply with the message that ends the session.
fn last_reply(alloc: Global) -> Result<Bytes> {
    let mut reply = Bytes::of_slice(alloc, HEAD)?;
    if let Some(body) = hex_bytes(alloc, STATUSES)? {
        reply.extend(body.as_slice())?;
    }
    Ok(reply)
}

#[test]
fn one_request_finishes_a_session(rt: HostRuntime) -> Result<()> {
    let alloc = rt.alloc();
    let reply = last_reply(alloc)?;
    let mut conns = List::new(alloc);
    conns.push(Some(MemStream::new(alloc, reply, 4096, List::new(alloc))))?;
    let (exit, sink) = managed(alloc, "s1", conns)?;
    assert_eq!(rt; exit, Exit::Done);
    assert_eq!(rt; sink.bytes(), text_of(alloc, b"finished")?.as_slice());
    Ok(())
}

// A connection whose call of this number fails, and a good one behind it.
fn bad_and_good(alloc: Global, number: u64) -> Result<List<Option<MemStream>>>
    ensures { IfOk result AreUntouched }
{
    let mut fails = List::new(alloc);
    fails.push(number)?;
    let bad = MemStream::new(alloc, last_reply(alloc)?, 100, fails);
    let good = MemStream::new(alloc, last_reply(alloc)?, 100, List::new(alloc));
    let mut conns = List::new(alloc);
    conns.push(Some(bad))?;
    conns.push(Some(good))?;
    Ok(conns)
}

// Each put and then each take of an exchange fails in turn; there are fewer of them than numbers here.
#[test]
fn a_fault_costs_its_exchange_alone(rt: HostRuntime) -> Result<()> {
    let text = text_of(rt.alloc(), b"finished")?;
    for number in 1..16 {
        let (exit, sink) = managed(rt.alloc(), "s1", bad_and_good(rt.alloc(), number)?)?;
        assert_eq!(rt; exit, Exit::Done);
        assert_eq!(rt; sink.bytes(), text.as_slice());
    }
    Ok(())
}

#[test]
fn five_dials_that_fail_give_up(rt: HostRuntime) -> Result<()> {
    let (exit, sink) = managed(rt.alloc(), "s1", List::new(rt.alloc()))?;
    assert_eq!(rt; exit, Exit::GaveUp);
    assert_eq!(rt; sink.bytes(), text_of(rt.alloc(), b"gaveup")?.as_slice());
    Ok(())
}

#[test]
fn a_reply_without_a_message_blames_the_peer(rt: HostRuntime) -> Result<()> {
    let alloc = rt.alloc();
    let reply = MemStream::new(
        alloc,
        Bytes::of_slice(alloc, NO_CONTENT)?,
        4096,
        List::new(alloc),
    );
    let mut conns = List::new(alloc);
    conns.push(None)?;
    conns.push(None)?;
    conns.push(None)?;
    conns.push(None)?;
    conns.push(Some(reply))?;
    let (exit, sink) = managed(alloc, "s1", conns)?;
    assert_eq!(rt; exit, Exit::Peer);
    assert_eq!(rt; sink.bytes(), text_of(alloc, b"peer")?.as_slice());
    Ok(())
}

#[test]
fn a_server_without_an_account_is_of_no_form(rt: HostRuntime) -> Result<()> {
    let (exit, sink) = managed(rt.alloc(), "s9", List::new(rt.alloc()))?;
    assert_eq!(rt; exit, Exit::Usage);
    assert!(rt; sink.bytes().starts_with(b"usage: dmtool replay | device "));
    Ok(())
}
