// A job of 60,000 Gets, in time.
use crate::servers::server_of;
use dm_base::{Bytes, Memory, Nonce};
use dm_server::{Server, ServerAnswer};
use itoa::Buffer;
use std::alloc::Global;
use std::test::Fail;
use std::time::CpuClock;

fn job_text(alloc: Global) -> Result<Bytes, Memory> {
    let mut text = Bytes::of_slice(
        alloc,
        b"dm-job 1\nserver s1 - - - - -\nlimits 65536 4194304\n",
    )?;
    for _ in 0..60_000 {
        text.extend(b"get ./A\n")?;
    }
    text.extend(b"end\n")?;
    Ok(text)
}

// An element of page 0 with a number in decimal.
fn put_number(out: &mut Bytes, tag: u8, number: u64) -> Result<(), Memory> {
    let mut buffer = Buffer::new();
    out.push(tag)?;
    out.push(3)?;
    out.extend(buffer.format(number).as_bytes())?;
    out.extend(b"\x00\x01")
}

// How long a message to the client may be, and how one of its own ends: with its package, or before the rest of that.
const LONG: &[u8] = b"Z\x00\x01L\x0316384\x00\x01\x01\x01\x00\x00k";

const SHORT: &[u8] = b"Z\x00\x01L\x032048\x00\x01\x01\x01\x00\x00k";

const FINAL: &[u8] = b"\x12\x01\x01";

const OPEN: &[u8] = b"\x01\x01";

fn message(alloc: Global, msg: u64, parts: [&[u8]; 3]) -> Result<Bytes, Memory> {
    let mut out = Bytes::of_slice(
        alloc,
        b"\x03\xa4\x01j\x00mlq\x031.2\x00\x01r\x03DM/1.2\x00\x01e\x031\x00\x01",
    )?;
    put_number(&mut out, b'[', msg)?;
    out.extend(b"nW\x03s1\x00\x01\x01gW\x03d1\x00\x01\x01")?;
    for part in parts {
        out.extend(part)?;
    }
    Ok(out)
}

// Delivers a message of these parts, and says whether another answers it.
fn tell(alloc: Global, server: &mut Server, msg: u64, parts: [&[u8]; 3]) -> Result<bool, Memory> {
    let bytes = message(alloc, msg, parts)?;
    let answer = server.deliver(bytes.as_slice(), Nonce { bytes: [0; 16] })?;
    Ok(answer == ServerAnswer::Sent)
}

// How often three bytes stand in the message sent last.
fn count_sent(server: &Server, bytes: &[u8]) -> u64 {
    let mut count = 0u64;
    for part in server.again().unwrap_or(&[]).windows(3) {
        if part == bytes {
            count = count.saturating_add(1);
        }
    }
    count
}

// A Status 200 and a byte of ./A for each command of a message from its second on, of which there are so many.
fn answers(alloc: Global, msg: u64, count: u64) -> Result<Bytes, Memory> {
    let mut out = Bytes::new(alloc);
    for command in 2..count.saturating_add(2) {
        let id = command.saturating_mul(2);
        out.push(b'i')?;
        put_number(&mut out, b'K', id)?;
        put_number(&mut out, b'\\', msg)?;
        put_number(&mut out, b'L', command)?;
        out.extend(b"J\x03Get\x00\x01O\x03200\x00\x01\x01b")?;
        put_number(&mut out, b'K', id.saturating_add(1))?;
        put_number(&mut out, b'\\', msg)?;
        put_number(&mut out, b'L', command)?;
        out.extend(b"TgW\x03./A\x00\x01\x01O\x03x\x00\x01\x01\x01")?;
    }
    Ok(out)
}

// Each message is answered until one has no Get.
fn answer_all(alloc: Global, server: &mut Server) -> Result<bool, Memory> {
    let mut count = 0;
    for msg in 1..100_000u64 {
        let body = answers(alloc, msg.saturating_sub(1), count)?;
        if !tell(alloc, server, msg, [LONG, body.as_slice(), FINAL])? {
            return Ok(false);
        }
        count = count_sent(server, b"./A");
        if count == 0 {
            return Ok(true);
        }
    }
    Ok(false)
}

// The processor time so far, in milliseconds.
fn now(rt: &HostRuntime) -> Option<u128> {
    Some(rt.process_cpu_time().ok()?.as_millis())
}

// How long it is since a time; longer than anything may take where the clock fails.
fn since(rt: &HostRuntime, begun: Option<u128>) -> u128 {
    match (begun, now(rt)) {
        (Some(begun), Some(now)) => now.saturating_sub(begun),
        _ => u128::MAX,
    }
}

// Milliseconds of the processor: to read the job, to run it against a client that answers each Get with a Status and a
// value, and to report it.
#[derive(Clone, Copy)]
struct Took {
    read: u128,
    run: u128,
    report: u128,
}

fn run_and_report(rt: &HostRuntime, server: &mut Server, read: u128) -> Option<Took> {
    let begun = now(rt);
    let is_answered = answer_all(rt.alloc(), server).ok()?;
    let run = since(rt, begun);
    let begun = now(rt);
    let text = server.report().ok()?;
    let report = since(rt, begun);
    let end = b"status 60000 200\nresult 2e2f41 - - 78\nstate over\n";
    if is_answered && text.as_slice().ends_with(end) {
        Some(Took { read, run, report })
    } else {
        None
    }
}

// None where something is answered otherwise, or memory runs out.
fn times(rt: &HostRuntime, text: &[u8]) -> Option<Took> {
    let begun = now(rt);
    let mut server = server_of(rt.alloc(), &[text])?;
    let read = since(rt, begun);
    let took = run_and_report(rt, &mut server, read);
    drop(server);
    took
}

// Measured were 25, 220 and 14; and 1,700 for the run where each Status was looked for by walking over all that was
// sent.
fn is_in_time(took: Option<Took>) -> bool {
    match took {
        Some(took) => took.read <= 250 && took.run <= 1000 && took.report <= 200,
        None => false,
    }
}

#[test]
fn each_value_of_many_is_told_in_time(rt: HostRuntime) -> Result<(), Fail> {
    let text = job_text(rt.alloc())?;
    assert!(rt; is_in_time(times(&rt, text.as_slice())));
    Ok(())
}

// So many Alerts.
fn alerts(alloc: Global, count: u64) -> Result<Bytes, Memory> {
    let mut out = Bytes::new(alloc);
    for id in 1..count.saturating_add(1) {
        out.push(b'F')?;
        put_number(&mut out, b'K', id)?;
        out.extend(b"O\x030\x00\x01\x01")?;
    }
    Ok(out)
}

// A Status 401 for the header of message 41.
const REFUSAL: &[u8] =
    b"iK\x031\x00\x01\\\x0341\x00\x01L\x030\x00\x01J\x03SyncHdr\x00\x01O\x03401\x00\x01\x01";

// The first message has the job sent; behind it come 40 of 1,500 Alerts each, whose Statuses wait behind the job.
fn pile_up(alloc: Global, server: &mut Server) -> Result<bool, Memory> {
    let alerts = alerts(alloc, 1500)?;
    if !tell(alloc, server, 1, [SHORT, b"", FINAL])? {
        return Ok(false);
    }
    for msg in 2..42u64 {
        if !tell(alloc, server, msg, [SHORT, alerts.as_slice(), OPEN])? {
            return Ok(false);
        }
    }
    Ok(true)
}

// How long it takes to give up the job, behind which answers wait: these are sent then, and nothing of the job.
fn giving_up(rt: &HostRuntime, server: &mut Server) -> Option<u128> {
    let is_waiting = pile_up(rt.alloc(), server).ok()?;
    let before = count_sent(server, b"./A");
    let begun = now(rt);
    let is_answered = tell(rt.alloc(), server, 42, [SHORT, REFUSAL, FINAL]).ok()?;
    let took = since(rt, begun);
    let is_given_up = count_sent(server, b"./A") == 0 && 0 < count_sent(server, b"Ale");
    if is_waiting && 0 < before && is_answered && is_given_up {
        Some(took)
    } else {
        None
    }
}

fn took_giving_up(rt: &HostRuntime, text: &[u8]) -> Option<u128> {
    let mut server = server_of(rt.alloc(), &[text])?;
    let took = giving_up(rt, &mut server);
    drop(server);
    took
}

// Measured were 92 milliseconds. Where each entry of the job was taken out by itself, those behind it were moved 56,000
// times.
#[test]
fn a_job_that_waits_is_given_up_in_time(rt: HostRuntime) -> Result<(), Fail> {
    let text = job_text(rt.alloc())?;
    let took = took_giving_up(&rt, text.as_slice());
    assert!(rt; took.unwrap_or(u128::MAX) <= 1000);
    Ok(())
}
