// The device in which each row begins.
ghost use Rattle.std.specs.Prelude.{IfSome};
ghost use Rattle.dm_tree.specs.Rows.{nodes};
ghost use Rattle.dm_tree.specs.Devices.{IsUpdateInOrder};
ghost use Rattle.dm_atomic.specs.Engine.{IsSoundEngine};

use crate::rows::DEVICE;
use dm_atomic::Engine;
use dm_start::StartReader;
use dm_tree::Tree;
use std::alloc::Global;

/// Its tree. None where memory runs out.
pub(crate) fn tree(alloc: Global) -> Option<Tree>
    ensures { IfSome result (λ tree. IsUpdateInOrder (nodes tree.rows)) }
{
    let mut reader = StartReader::new(alloc);
    for line in DEVICE.split(|b| *b == b'\n') {
        match reader.line(line) {
            Ok(true) => return Some(reader.finish().tree),
            Ok(false) => {}
            Err(_) => return None,
        }
    }
    None
}

/// An engine over it. None where memory runs out.
pub(crate) fn engine(alloc: Global) -> Option<Engine>
    ensures { IfSome result IsSoundEngine }
{
    Engine::new(alloc, tree(alloc)?, 4_096).ok()
}

/// The same, though memory runs out once.
pub(crate) fn engine_twice(alloc: Global) -> Option<Engine>
    ensures { IfSome result IsSoundEngine }
{
    match engine(alloc) {
        Some(engine) => Some(engine),
        None => engine(alloc),
    }
}
