// A disk of a fixed length: what a read gives, and what a crash may leave.
ghost use Rattle.std.specs.Prelude.{◌≡◌, ◌≤◌, ◌+◌, length};
ghost use Rattle.dm_disk.specs.Disk.{DiskState, DiskReads, DiskWrites, DiskSyncs, IsDisk};

use dm_base::{Failed, Fault};

/// A disk of a fixed length. Where it tells what a crash may leave: until a sync that succeeds, that is any bytes in
/// each range that was written, and the bytes outside stay.
///
/// Whoever makes one sees to it that the length stands before the first call, that each call fails once a sync has
/// failed, that a write changes no byte outside its range even where power is lost, and that nobody else writes.
pub trait Disk {
    /// What it tells of itself.
    ghost state: { Self → DiskState };

    /// How many bytes it has, which never changes.
    fn length(&self) -> u64
        ensures size { result ≡ (state self.now).size };

    /// Reads the bytes from `at` on, as many as fill the buffer. The range lies within the length. Failed comes only
    /// where the count of faults rose.
    fn read(&mut self, at: u64, buf: &mut [u8]) -> Result<(), Failed>
        requires { at + length buf.old ≤ (state self.old).size }
        ensures told { DiskReads at (state self.old) (state self.new) result buf.new }
        ensures long { length buf.new ≡ length buf.old };

    /// Writes the bytes from `at` on. The range lies within the length. Whatever it answers, a crash may leave any
    /// bytes in the range. Failed comes only where the count of faults rose.
    fn write(&mut self, at: u64, bytes: &[u8]) -> Result<(), Fault>
        requires { at + length bytes.now ≤ (state self.old).size }
        ensures told { DiskWrites at bytes.now (state self.old) (state self.new) result };

    /// Once it has answered Ok, a crash leaves what a read gives. Failed comes only where the count of faults rose.
    fn sync(&mut self) -> Result<(), Fault>
        ensures told { DiskSyncs (state self.old) (state self.new) result };

    ghost sound: { (disk : Self) → IsDisk (state disk) };
}
