// TCP over loopback, in one thread: the system keeps a connection that was made until it is let in.
use crate::outside::{RandomNonces, ReadyUpdater, TcpDialer, TcpDoor};
use dm_base::{Failed, Sink, Source, put_all};
use dm_outside::{Dialer, Door, Nonces, Updater};
use std::alloc::{AllocError, Global};
use std::net::SocketAddr;
use std::test::Fail;
use std::thread;
use std::time::{Duration, Instant};

fn long() -> Duration {
    Duration::from_millis(5_000)
}

fn short() -> Duration {
    Duration::from_millis(300)
}

fn address_of(alloc: Global, place: SocketAddr) -> Result<String, AllocError> {
    format!(in alloc; "{place}")
}

// The first bytes, or none where there are fewer.
fn front(bytes: &[u8], count: usize) -> &[u8] {
    bytes.get(..count).unwrap_or_default()
}

#[test]
fn bytes_go_both_ways(rt: HostRuntime) -> Result<(), Fail> {
    let mut door = TcpDoor::new(&rt, long());
    door.listen(b"127.0.0.1:0")?;
    let address = address_of(rt.alloc(), door.place().ok_or(Failed)?)?;
    let mut dialer = TcpDialer::new(&rt, long());
    let mut near = dialer.dial(address.as_bytes())?;
    let mut far = door.accept()?;
    let mut buf = [0u8; 16];
    assert_eq!(rt; put_all(&mut near, b"question"), Ok(()));
    assert_eq!(rt; far.take(&mut buf), Ok(8));
    assert_eq!(rt; front(&buf, 8), b"question".as_slice());
    assert_eq!(rt; put_all(&mut far, b"answer"), Ok(()));
    assert_eq!(rt; near.take(&mut buf), Ok(6));
    assert_eq!(rt; front(&buf, 6), b"answer".as_slice());
    dialer.close(near);
    assert_eq!(rt; far.take(&mut buf), Ok(0));
    door.close(far);
    Ok(())
}

#[test]
fn a_silent_peer_is_given_up_in_time(rt: HostRuntime) -> Result<(), Fail> {
    let mut door = TcpDoor::new(&rt, long());
    door.listen(b"127.0.0.1:0")?;
    let address = address_of(rt.alloc(), door.place().ok_or(Failed)?)?;
    let mut dialer = TcpDialer::new(&rt, short());
    let mut near = dialer.dial(address.as_bytes())?;
    let start = Instant::now(&rt)?;
    let mut buf = [0u8; 16];
    assert_eq!(rt; near.take(&mut buf), Err(Failed));
    let waited = start.elapsed(&rt)?;
    assert!(rt; waited >= Duration::from_millis(250) && waited < Duration::from_millis(4_000));
    // And what comes behind it is a fault at once.
    assert!(rt; near.put(b"x").is_err());
    assert!(rt; near.has_failed());
    dialer.close(near);
    Ok(())
}

// A byte now and then holds a connection no longer.
#[test]
fn a_slow_peer_is_given_up_in_time(rt: HostRuntime) -> Result<(), Fail> {
    let mut door = TcpDoor::new(&rt, short());
    door.listen(b"127.0.0.1:0")?;
    let address = address_of(rt.alloc(), door.place().ok_or(Failed)?)?;
    let mut dialer = TcpDialer::new(&rt, long());
    let mut near = dialer.dial(address.as_bytes())?;
    let mut far = door.accept()?;
    let mut buf = [0u8; 16];
    let mut has_failed = false;
    for _ in 0..20 {
        put_all(&mut near, b"x")?;
        thread::sleep(&rt, Duration::from_millis(50));
        if far.take(&mut buf).is_err() {
            has_failed = true;
            break;
        }
    }
    assert!(rt; has_failed);
    dialer.close(near);
    door.close(far);
    Ok(())
}

// The reply comes, though the request was not read to its end.
#[test]
fn a_reply_outlives_what_is_unread(rt: HostRuntime) -> Result<(), Fail> {
    let mut door = TcpDoor::new(&rt, short());
    door.listen(b"127.0.0.1:0")?;
    let address = address_of(rt.alloc(), door.place().ok_or(Failed)?)?;
    let mut dialer = TcpDialer::new(&rt, long());
    let mut near = dialer.dial(address.as_bytes())?;
    let mut far = door.accept()?;
    put_all(&mut near, &[b'x'; 40_000])?;
    put_all(&mut far, b"answer")?;
    door.close(far);
    let mut buf = [0u8; 16];
    assert_eq!(rt; near.take(&mut buf), Ok(6));
    assert_eq!(rt; front(&buf, 6), b"answer".as_slice());
    dialer.close(near);
    Ok(())
}

#[test]
fn nobody_listens_there(rt: HostRuntime) {
    let mut dialer = TcpDialer::new(&rt, short());
    assert!(rt; dialer.dial(b"127.0.0.1:1").is_err());
    assert!(rt; dialer.dial(b"no address").is_err());
    assert!(rt; dialer.dial(b"[::1]:1").is_err());
}

#[test]
fn a_door_without_a_place_fails(rt: HostRuntime) {
    let mut door = TcpDoor::new(&rt, short());
    assert!(rt; door.accept().is_err());
    assert!(rt; door.listen(b"no address").is_err());
    assert!(rt; door.accept().is_err());
}

#[test]
fn nonces_differ_and_packages_are_installed(rt: HostRuntime) -> Result<(), Fail> {
    let mut nonces = RandomNonces::new(&rt)?;
    let first = nonces.next();
    assert!(rt; nonces.next() != first);
    assert_eq!(rt; ReadyUpdater.update(b"package"), Ok(true));
    Ok(())
}
