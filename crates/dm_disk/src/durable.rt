// A write that is on the disk once it is answered.
ghost use Rattle.std.specs.Prelude.{◌≡◌, ◌≤◌, ◌+◌, length, option_map, OnOk, IsTrue};
ghost use Rattle.dm_base.specs.Outside.{PutCounts};
ghost use Rattle.dm_disk.specs.Disk.{LeavesOnly, IsLeftTorn, IsOnDisk, IsSameDisk, patched};

use crate::disk::Disk;
use dm_base::Fault;

/// Writes the bytes from `at` on, and syncs. The range lies within the length. Once it has answered Ok, a crash leaves
/// what a read gives. Failed comes only where the count of faults rose.
pub fn put_down<B: Disk>(disk: &mut B, at: u64, bytes: &[u8]) -> Result<(), Fault>
    requires { at + length bytes.now ≤ (B.state disk.old).size }
    ensures seen { OnOk result ((B.state disk.new).seen ≡ option_map (patched at bytes.now) (B.state disk.old).seen) }
    ensures on_disk { OnOk result (IsTrue (B.state disk.old).tells → IsOnDisk (B.state disk.new)) }
    ensures same { IsSameDisk (B.state disk.old) (B.state disk.new) }
    ensures crash { LeavesOnly (B.state disk.old) (B.state disk.new)
        (IsLeftTorn (B.state disk.old) at (length bytes.now)) }
    ensures count { PutCounts (B.state disk.old).faults (B.state disk.new).faults result }
{
    disk.write(at, bytes)?;
    disk.sync()
}
