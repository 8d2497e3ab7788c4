// A disk in memory, which keeps what was written and synced on it.
ghost use Rattle.std.specs.Prelude.{◌≡◌, ◌≤◌, ◌+◌, ◌↔◌, length, replicate, Contains, IfOk, IsErr, IsErrOf, IsTrue};
ghost use Rattle.dm_base.specs.Memory.{one_more};
ghost use Rattle.dm_disk.specs.declared.memory.Call.TheVariants as call;
ghost use Rattle.dm_disk.specs.Disk.{DiskReads, DiskWrites, DiskSyncs, patched};
ghost use Rattle.dm_disk.specs.Memory.{disk_of, disk_state, mem_disk, MemReads, MemDoes};

use crate::disk::Disk;
use dm_base::{Bytes, Failed, Fault, List, Memory};
use std::alloc::Global;
use std::marker::Model;

/// What was done on a disk that changes what a crash may leave.
#[derive(Drop)]
pub enum Call {
    /// These bytes were written from `at` on.
    Write { at: u64, bytes: Bytes },
    /// What was written before is there for good.
    Sync,
}

/// A disk in memory. It tells all that a crash may leave, so it keeps a copy of all that is ever written.
#[derive(Drop)]
pub struct MemDisk {
    alloc: Global,
    pub(crate) first: Vec<u8>,
    bytes: Vec<u8>,
    pub(crate) done: List<Call>,
    fails: List<u64>,
    calls: u64,
    faults: u64,
}

impl Model for MemDisk {
    ghost use Rattle.std.specs.Prelude.{◌≡◌, length};
    ghost use Rattle.dm_disk.specs.Memory.{MemState, at_rest, after_calls, AreWithin};

    ghost Value = { MemState };

    ghost view = { λ m. record {
      first = m.first.items;
      bytes = m.bytes.items;
      done = m.done;
      fails = m.fails;
      calls = m.calls;
      faults = m.faults;
    } };

    ghost invariant = { λ m. (m.bytes.items ≡ (after_calls (at_rest m.first.items) m.done).now)
        × (length m.bytes.items ≡ length m.first.items) × AreWithin (length m.first.items) m.done };
}

// Writes over a part of the bytes.
pub(crate) fn overwrite(bytes: &mut Vec<u8>, at: usize, new: &[u8])
    requires { at + length new.now ≤ length bytes.old.items }
    ensures { bytes.new.items ≡ patched at new.now bytes.old.items }
{
    bytes[at..at + new.len()].copy_from_slice(new);
}

impl MemDisk {
    /// A disk of so many zeros, all of them for good. The calls whose numbers are in `fails`, counted from 1, fail:
    /// reads, writes and syncs are counted together.
    pub fn new(alloc: Global, length: u64, fails: List<u64>) -> Result<MemDisk, Memory>
        ensures made { IfOk result (λ m. m ≡ disk_of (replicate length 0) fails) }
    {
        let first = vec![in alloc; 0u8; length as usize]?;
        let bytes = first.to_vec(alloc)?;
        Ok(MemDisk {
            alloc,
            first,
            bytes,
            done: List::new(alloc),
            fails,
            calls: 0,
            faults: 0,
        })
    }

    /// A disk that holds these bytes, all of them for good. The calls whose numbers are in `fails`, counted from 1,
    /// fail.
    pub fn holding(alloc: Global, bytes: &[u8], fails: List<u64>) -> Result<MemDisk, Memory>
        ensures made { IfOk result (λ m. m ≡ disk_of bytes.now fails) }
    {
        let first = bytes.to_vec(alloc)?;
        let bytes = bytes.to_vec(alloc)?;
        Ok(MemDisk {
            alloc,
            first,
            bytes,
            done: List::new(alloc),
            fails,
            calls: 0,
            faults: 0,
        })
    }

    /// What a read gives.
    pub fn bytes(&self) -> &[u8]
        ensures bytes { result.now ≡ self.now.bytes }
    {
        self.bytes.as_slice()
    }

    /// How many writes and syncs succeeded.
    pub fn done(&self) -> usize
        ensures done { result ≡ length self.now.done }
    {
        self.done.len()
    }

    // Whether the call that comes is one of those that fail.
    fn fails_now(&self) -> bool
        ensures { IsTrue result ↔ Contains self.now.fails (one_more self.now.calls) }
    {
        self.fails
            .as_slice()
            .contains(&self.calls.saturating_add(1))
    }
}

impl Disk for MemDisk {
    ghost state = { disk_state };

    ghost sound = { mem_disk };

    fn length(&self) -> u64 {
        self.bytes.len() as u64
    }

    fn read(&mut self, at: u64, buf: &mut [u8]) -> Result<(), Failed>
        requires { at + length buf.old ≤ (disk_state self.old).size }
        ensures told { DiskReads at (disk_state self.old) (disk_state self.new) result buf.new }
        ensures long { length buf.new ≡ length buf.old }
        ensures fails { IsErr result ↔ Contains self.old.fails (one_more self.old.calls) }
        ensures state { MemReads self.old self.new result }
    {
        let fails = self.fails_now();
        self.calls = self.calls.saturating_add(1);
        if fails {
            self.faults = self.faults.saturating_add(1);
            return Err(Failed);
        }
        let at = at as usize;
        buf.copy_from_slice(&self.bytes[at..at + buf.len()]);
        Ok(())
    }

    fn write(&mut self, at: u64, bytes: &[u8]) -> Result<(), Fault>
        requires { at + length bytes.now ≤ (disk_state self.old).size }
        ensures told { DiskWrites at bytes.now (disk_state self.old) (disk_state self.new) result }
        ensures fails { IsErrOf result Fault.Failed ↔ Contains self.old.fails (one_more self.old.calls) }
        ensures state { MemDoes (call.Write at bytes.now) (patched at bytes.now self.old.bytes)
            self.old self.new result }
    {
        if self.fails_now() {
            self.calls = self.calls.saturating_add(1);
            self.faults = self.faults.saturating_add(1);
            return Err(Fault::Failed);
        }
        // Noted first: for want of memory it is no call at all.
        let Ok(copy) = Bytes::of_slice(self.alloc, bytes) else {
            return Err(Fault::Memory);
        };
        if self.done.push(Call::Write { at, bytes: copy }).is_err() {
            return Err(Fault::Memory);
        }
        self.calls = self.calls.saturating_add(1);
        overwrite(&mut self.bytes, at as usize, bytes);
        Ok(())
    }

    fn sync(&mut self) -> Result<(), Fault>
        ensures told { DiskSyncs (disk_state self.old) (disk_state self.new) result }
        ensures fails { IsErrOf result Fault.Failed ↔ Contains self.old.fails (one_more self.old.calls) }
        ensures state { MemDoes call.Sync self.old.bytes self.old self.new result }
    {
        if self.fails_now() {
            self.calls = self.calls.saturating_add(1);
            self.faults = self.faults.saturating_add(1);
            return Err(Fault::Failed);
        }
        if self.done.push(Call::Sync).is_err() {
            return Err(Fault::Memory);
        }
        self.calls = self.calls.saturating_add(1);
        Ok(())
    }
}
