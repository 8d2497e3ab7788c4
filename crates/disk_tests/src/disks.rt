ghost use Rattle.std.specs.Prelude.{◌≡◌, ◌≤◌, length, replicate, IfOk};
ghost use Rattle.dm_disk.specs.Memory.{disk_of};

use dm_base::{Fault, List, Memory};
use dm_disk::{Disk, MemDisk, put_down};
use std::alloc::Global;
use std::test::Fail;

// A disk of eight zeros, whose call with the number `failing` fails.
fn zeros(alloc: Global, failing: u64) -> Result<MemDisk, Memory>
    ensures { IfOk result (λ m. length m.bytes ≡ 8) }
{
    let mut fails = List::new(alloc);
    fails.push(failing)?;
    MemDisk::new(alloc, 8, fails)
}

// What three calls answer, of which the one with the number `failing` fails, and what a read gives then.
fn answers(alloc: Global, failing: u64, right: [bool; 3], bytes: &[u8]) -> Result<bool, Memory> {
    let mut disk = zeros(alloc, failing)?;
    let mut front = [7u8; 2];
    let answered = [
        disk.write(3, b"ab").is_ok(),
        disk.sync().is_ok(),
        disk.read(3, &mut front).is_ok(),
    ];
    Ok(answered == right && disk.bytes() == bytes)
}

fn fails_as_told(alloc: Global) -> Result<bool, Memory> {
    let written = b"\0\0\0ab\0\0\0".as_slice();
    let right = [
        answers(alloc, 1, [false, true, true], [0u8; 8].as_slice())?,
        answers(alloc, 2, [true, false, true], written)?,
        answers(alloc, 3, [true, true, false], written)?,
        answers(alloc, 4, [true, true, true], written)?,
    ];
    Ok(right == [true; 4])
}

// Whether a disk that holds an image reads as these bytes.
fn reads(alloc: Global, image: &[u8], bytes: &[u8; 8]) -> Result<bool, Memory> {
    let mut buf = [0u8; 8];
    let mut disk = MemDisk::holding(alloc, image, List::new(alloc))?;
    if disk.length() != 8 {
        return Ok(false);
    }
    let read = disk.read(0, &mut buf);
    Ok(read == Ok(()) && buf == *bytes)
}

// One write that is on the disk, and two that are pending.
fn images(alloc: Global) -> Result<bool, Memory> {
    let mut disk = zeros(alloc, 0)?;
    let put = put_down(&mut disk, 0, b"ab");
    let first = disk.write(1, b"cd");
    let second = disk.write(6, b"e");
    if put != Ok(()) || first != Ok(()) || second != Ok(()) || disk.done() != 4 {
        return Ok(false);
    }
    let right = [
        reads(
            alloc,
            disk.image(alloc, 1, 0, 9)?.as_slice(),
            b"\x09\x09\0\0\0\0\0\0",
        )?,
        reads(
            alloc,
            disk.image(alloc, 2, 0, 9)?.as_slice(),
            b"ab\0\0\0\0\0\0",
        )?,
        reads(
            alloc,
            disk.image(alloc, 4, 0, 9)?.as_slice(),
            b"a\x09\x09\0\0\0\0\0",
        )?,
        reads(
            alloc,
            disk.image(alloc, 4, 1, 9)?.as_slice(),
            b"acd\0\0\0\x09\0",
        )?,
        reads(
            alloc,
            disk.image(alloc, 4, 2, 9)?.as_slice(),
            b"acd\0\0\0e\0",
        )?,
    ];
    Ok(right == [true; 5])
}

// The write fails, and then the sync.
fn isnt_put_down(alloc: Global) -> Result<bool, Memory> {
    let right = [
        put_down(&mut zeros(alloc, 1)?, 0, b"ab") == Err(Fault::Failed),
        put_down(&mut zeros(alloc, 2)?, 0, b"ab") == Err(Fault::Failed),
        put_down(&mut zeros(alloc, 3)?, 0, b"ab") == Ok(()),
    ];
    Ok(right == [true; 3])
}

#[test]
fn calls_fail_as_told(rt: HostRuntime) -> Result<(), Fail> {
    assert!(rt; fails_as_told(rt.alloc())?);
    Ok(())
}

#[test]
fn crashes_leave_what_was_synced(rt: HostRuntime) -> Result<(), Fail> {
    assert!(rt; images(rt.alloc())?);
    Ok(())
}

#[test]
fn faults_are_told_of_a_write_and_a_sync(rt: HostRuntime) -> Result<(), Fail> {
    assert!(rt; isnt_put_down(rt.alloc())?);
    Ok(())
}
