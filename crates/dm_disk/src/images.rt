// What crashes may leave of a disk in memory.
ghost use Rattle.std.specs.Prelude.{◌≡◌, ◌≤◌, ◌+◌, ◌∷◌, [], length, OnOk, IfOk, take};
ghost use Rattle.dm_disk.specs.Disk.{IsTorn, patched};
ghost use Rattle.dm_disk.specs.Memory.{at_rest, after_calls, after_call, IsImage, AreWithin, Snapshot};

use crate::memory::{Call, MemDisk, overwrite};
use dm_base::{Bytes, Memory};
use std::alloc::Global;

// A write is there, or its range is full of one byte, or it isn't there.
#[tactic(auto, using(crate::proofs::Torn::patched_torn, crate::proofs::Torn::torn_none))]
fn tear(
    alloc: Global,
    image: &mut Vec<u8>,
    at: usize,
    bytes: &[u8],
    whole: bool,
    torn: bool,
    fill: u8,
) -> Result<(), Memory>
    requires { at + length bytes.now ≤ length image.old.items }
    ensures { OnOk result (IsTorn at (length bytes.now) image.old.items image.new.items) }
{
    if whole {
        overwrite(image, at, bytes);
        return Ok(());
    }
    if torn {
        let filler = Vec::from_elem(alloc, fill, bytes.len())?;
        overwrite(image, at, filler.as_slice());
    }
    Ok(())
}

// What a call makes of the bytes that a read gives, and of an image; the number of writes that are pending then.
fn apply(
    alloc: Global,
    call: &Call,
    now: &mut Vec<u8>,
    image: &mut Vec<u8>,
    pending: usize,
    whole: usize,
    fill: u8,
) -> Result<usize, Memory>
    requires within { AreWithin (length now.old.items) (call.now ∷ []) }
    requires long { length image.old.items ≡ length now.old.items }
    ensures now { OnOk result ((s : Snapshot) → s.now ≡ now.old.items → now.new.items ≡ (after_call s call.now).now) }
    ensures image { OnOk result ((s : Snapshot) → s.now ≡ now.old.items → IsImage s image.old.items
        → IsImage (after_call s call.now) image.new.items) }
    ensures now_long { OnOk result (length now.new.items ≡ length now.old.items) }
    ensures image_long { OnOk result (length image.new.items ≡ length now.old.items) }
{
    match call {
        Call::Write { at, bytes } => {
            let at = *at as usize;
            let bytes = bytes.as_slice();
            overwrite(now, at, bytes);
            tear(
                alloc,
                image,
                at,
                bytes,
                pending < whole,
                pending == whole,
                fill,
            )?;
            Ok(pending.saturating_add(1))
        }
        Call::Sync => {
            *image = now.to_vec(alloc)?;
            Ok(0)
        }
    }
}

impl MemDisk {
    /// What a crash may have left once the first `done` of its writes and syncs had succeeded: of the writes that were
    /// pending then the first `whole` are there, the range of the next one is full of `fill`, and the others aren't
    /// there. So many writes and syncs succeeded.
    pub fn image(&self, alloc: Global, done: usize, whole: usize, fill: u8) -> Result<Bytes, Memory>
        requires { done ≤ length self.now.done }
        ensures image { IfOk result (λ v. IsImage (after_calls (at_rest self.now.first) (take done self.now.done)) v) }
    {
        let mut now = self.first.to_vec(alloc)?;
        let mut image = self.first.to_vec(alloc)?;
        let mut pending = 0;
        for i in 0..done {
            let call = &self.done.as_slice()[i];
            pending = apply(alloc, call, &mut now, &mut image, pending, whole, fill)?;
        }
        Ok(Bytes::of_vec(image))
    }
}
