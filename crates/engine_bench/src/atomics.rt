// An Atomic of many Replaces, the last of which fails.
ghost use Rattle.std.specs.Prelude.{OnOk};
ghost use Rattle.dm_atomic.specs.Engine.{IsSoundEngine};

use crate::commands::failing;
use crate::device::{Device, fold, new_device, run_message};
use crate::fault::of_memory;
use crate::leaves::LEAVES;
use crate::spans::{NO_TIMES, Span, is_over, tell};
use std::io;
use std::time::Instant;
use syncml_types::Command;

// How many Replaces the stored run has.
const FEW: u32 = 20;

// The time of one message. What is run is a copy, since its values are moved out of it: it is made outside that time,
// and what is left of its members is given up inside it.
fn time_of(rt: &HostRuntime, device: &mut Device, command: &Command) -> io::Result<u128>
    requires { IsSoundEngine device.old.engine }
    ensures { OnOk result (IsSoundEngine device.new.engine) }
{
    device.out.cut_to(0);
    let mut copied = command.copy(rt.alloc()).map_err(of_memory)?;
    let start = Instant::now(rt)?;
    match run_message(&mut device.engine, 2, &mut copied, &mut device.out) {
        Ok(()) => {}
        Err(memory) => return Err(of_memory(memory)),
    }
    Ok(start.elapsed(rt)?.as_nanos())
}

/// Tells how long a step takes in an Atomic of 1,000 that fails.
pub fn measure_atomic(rt: &HostRuntime, span: Span) -> io::Result<()> {
    let mut device = new_device(rt)?;
    let command = failing(rt.alloc(), LEAVES.saturating_sub(1)).map_err(of_memory)?;
    let mut times = NO_TIMES;
    for _ in 0..u64::MAX {
        if is_over(span, times) {
            break;
        }
        times = times.and(time_of(rt, &mut device, &command)?);
    }
    tell(rt, "step", times, u64::from(LEAVES))
}

/// One message, and what it tells.
pub fn show_atomic(rt: &HostRuntime) -> io::Result<()> {
    let mut device = new_device(rt)?;
    let command = failing(rt.alloc(), FEW).map_err(of_memory)?;
    time_of(rt, &mut device, &command)?;
    let out = device.out.as_slice();
    println!(rt; "atomic {} entries, sum {}", out.len(), fold(out))
}
