ghost use Rattle.std.specs.Prelude.{◌<◌, length, IfOk};
ghost use Rattle.dm_outside.specs.Streams.{IsUntouched, AreUntouched};

use dm_base::{Bytes, Failed, Fault, List, Memory, Nonce, Source, put_all};
use dm_outside::{
    Dialer, Door, MemDialer, MemDoor, MemNonces, MemStream, MemUpdater, Nonces, Updater,
};
use std::alloc::Global;
use std::test::Fail;

// A stream that holds "pong" and moves three bytes at a time, whose call with the number `failing` fails.
fn stream(alloc: Global, failing: u64) -> Result<MemStream, Memory>
    ensures { IfOk result IsUntouched }
{
    let mut fails = List::new(alloc);
    fails.push(failing)?;
    Ok(MemStream::new(alloc, Bytes::of_slice(alloc, b"pong")?, 3, fails))
}

// One that doesn't fail, none, and one whose third call fails.
fn conns(alloc: Global) -> Result<List<Option<MemStream>>, Memory>
    ensures { IfOk result AreUntouched }
{
    let mut conns = List::new(alloc);
    conns.push(Some(stream(alloc, 0)?))?;
    conns.push(None)?;
    conns.push(Some(stream(alloc, 3)?))?;
    Ok(conns)
}

// How many bytes were taken, where nothing failed.
fn outcome(put: Result<(), Fault>, taken: Result<usize, Failed>) -> Result<usize, Fault> {
    put?;
    match taken {
        Ok(count) => Ok(count),
        Err(Failed) => Err(Fault::Failed),
    }
}

// Dials, puts "ping" and takes once.
fn talk<D: Dialer>(dialer: &mut D, buf: &mut [u8]) -> Result<usize, Fault>
    requires { 0 < length buf.old }
{
    let mut conn = dialer.dial(b"host:80")?;
    let put = put_all(&mut conn, b"ping");
    let taken = conn.take(buf);
    dialer.close(conn);
    outcome(put, taken)
}

// Accepts, puts "ping" and takes once.
fn receive<P: Door>(door: &mut P, buf: &mut [u8]) -> Result<usize, Fault>
    requires { 0 < length buf.old }
{
    let mut conn = door.accept()?;
    let put = put_all(&mut conn, b"ping");
    let taken = conn.take(buf);
    door.close(conn);
    outcome(put, taken)
}

fn is_ping(got: Option<&[u8]>) -> bool {
    match got {
        Some(bytes) => bytes == b"ping".as_slice(),
        None => false,
    }
}

fn dials(alloc: Global) -> Result<bool, Memory> {
    let mut dialer = MemDialer::new(alloc, conns(alloc)?);
    let mut buf = [0u8; 8];
    let right = [
        talk(&mut dialer, &mut buf) == Ok(3),
        buf == *b"pon\0\0\0\0\0",
        talk(&mut dialer, &mut buf) == Err(Fault::Failed),
        !is_ping(dialer.got(1)),
        talk(&mut dialer, &mut buf) == Err(Fault::Failed),
        talk(&mut dialer, &mut buf) == Err(Fault::Failed),
        is_ping(dialer.got(0)),
        is_ping(dialer.got(1)),
        dialer.got(2).is_none(),
    ];
    Ok(right == [true; 9])
}

fn accepts(alloc: Global) -> Result<bool, Memory> {
    let mut door = MemDoor::new(alloc, true, conns(alloc)?);
    let mut buf = [0u8; 8];
    let right = [
        door.listen(b"host:80") == Ok(()),
        receive(&mut door, &mut buf) == Ok(3),
        receive(&mut door, &mut buf) == Err(Fault::Failed),
        receive(&mut door, &mut buf) == Err(Fault::Failed),
        receive(&mut door, &mut buf) == Err(Fault::Failed),
        is_ping(door.got(1)),
        door.got(2).is_none(),
    ];
    Ok(right == [true; 7])
}

fn is_shut(alloc: Global) -> bool {
    let mut door = MemDoor::new(alloc, false, List::new(alloc));
    door.listen(b"host:80") == Err(Fault::Failed)
}

fn updates(alloc: Global) -> Result<bool, Memory> {
    let mut answers = List::new(alloc);
    answers.push(Some(true))?;
    answers.push(None)?;
    answers.push(Some(false))?;
    let mut updater = MemUpdater::new(alloc, answers);
    let right = [
        updater.update(b"one") == Ok(true),
        updater.update(b"two") == Err(Fault::Failed),
        updater.update(b"") == Ok(false),
        updater.update(b"two") == Err(Fault::Failed),
    ];
    Ok(right == [true; 4])
}

fn gives(alloc: Global) -> Result<bool, Memory> {
    let mut nonces = List::new(alloc);
    nonces.push(Nonce { bytes: [7; 16] })?;
    let mut nonces = MemNonces::new(nonces);
    let right = [
        nonces.next().bytes == [7; 16],
        nonces.next().bytes == [0; 16],
        nonces.next().bytes == [0; 16],
    ];
    Ok(right == [true; 3])
}

#[test]
fn connections_are_dialled(rt: HostRuntime) -> Result<(), Fail> {
    assert!(rt; dials(rt.alloc())?);
    Ok(())
}

#[test]
fn connections_are_let_in(rt: HostRuntime) -> Result<(), Fail> {
    assert!(rt; accepts(rt.alloc())?);
    assert!(rt; is_shut(rt.alloc()));
    Ok(())
}

#[test]
fn packages_are_answered(rt: HostRuntime) -> Result<(), Fail> {
    assert!(rt; updates(rt.alloc())?);
    Ok(())
}

#[test]
fn nonces_are_given(rt: HostRuntime) -> Result<(), Fail> {
    assert!(rt; gives(rt.alloc())?);
    Ok(())
}
