// An engine over a tree with leaves, and what it tells.
ghost use Rattle.std.specs.Prelude.{IfOk};
ghost use Rattle.dm_atomic.specs.Engine.{IsSoundEngine};

use crate::commands::all_leaves;
use crate::fault::{Fault, told};
use crate::leaves::bare_tree;
use dm_atomic::{Engine, Origin};
use dm_base::{List, Memory};
use std::alloc::Global;
use std::io;
use syncml_types::Command;

// The greatest object that it takes.
const MAX_OBJ: u32 = 1_000_000;

/// An engine, and the entries that it told.
#[derive(Drop)]
pub struct Device {
    pub engine: Engine,
    pub out: List<Command>,
}

/// Runs a command as one message does: what came before it can't be gone back to. Its values are moved out of it.
pub fn run_message(
    engine: &mut Engine,
    msg: u32,
    command: &mut Command,
    out: &mut List<Command>,
) -> Result<(), Memory>
    requires sound { IsSoundEngine engine.old }
    ensures sound { IsSoundEngine engine.new }
{
    engine.settle();
    let origin = Origin { msg, quiet: false };
    engine.run(b"server", origin, command, out)
}

impl Device {
    /// An engine over a tree with its leaves.
    pub fn new(alloc: Global) -> Result<Device, Fault>
        ensures sound { IfOk result (λ d. IsSoundEngine d.engine) }
    {
        let mut engine = Engine::new(alloc, bare_tree(alloc)?, MAX_OBJ)?;
        let mut out = List::new(alloc);
        let mut leaves = all_leaves(alloc)?;
        run_message(&mut engine, 1, &mut leaves, &mut out)?;
        Ok(Device {
            engine,
            out: List::new(alloc),
        })
    }
}

/// The same, or the error that the program ends with.
pub fn new_device(rt: &HostRuntime) -> io::Result<Device>
    ensures { IfOk result (λ d. IsSoundEngine d.engine) }
{
    match Device::new(rt.alloc()) {
        Ok(device) => Ok(device),
        Err(fault) => Err(told(fault)),
    }
}

fn code_of(command: &Command) -> u64 {
    match command {
        Command::Status(status) => u64::from(status.code),
        Command::Alert(alert) => u64::from(alert.code),
        _ => 1,
    }
}

/// The codes of entries, folded to a number.
pub fn fold(entries: &[Command]) -> u64 {
    let mut sum = 0u64;
    for entry in entries {
        sum = sum.wrapping_mul(31).wrapping_add(code_of(entry));
    }
    sum
}
