// A group of many parts, which closes. Each has the second half of one leaf's value and the first half of the next's.
ghost use Rattle.std.specs.Prelude.{OnOk};
ghost use Rattle.dm_atomic.specs.Engine.{IsSoundEngine};

use crate::commands::parts;
use crate::device::{Device, fold, new_device, run_message};
use crate::fault::of_memory;
use crate::spans::{NO_TIMES, Span, Times, is_over, tell};
use std::io;
use std::time::Instant;
use syncml_types::Command;

// How many parts the stored run has, and how many the one that is measured.
const FEW: u32 = 20;

const PARTS: u32 = 2_000;

// How many parts are taken together, around the tenth and before the last.
const NEAR: usize = 16;

// The times of the parts around the tenth, of those before the last, and of the last, which closes the group.
#[derive(Clone, Copy)]
struct Group {
    early: Times,
    late: Times,
    close: Times,
}

const NO_GROUP: Group = Group {
    early: NO_TIMES,
    late: NO_TIMES,
    close: NO_TIMES,
};

// Of one group, the nanoseconds of the same.
type Sums = (u128, u128, u128);

impl Group {
    fn and(self, sums: Sums) -> Group {
        Group {
            early: self.early.and(sums.0),
            late: self.late.and(sums.1),
            close: self.close.and(sums.2),
        }
    }
}

// With the time of the part at this place of so many.
fn with(sums: Sums, place: usize, count: usize, time: u128) -> Sums {
    let last = count.saturating_sub(1);
    if place == last {
        return (sums.0, sums.1, sums.2.saturating_add(time));
    }
    if place >= 2 && place < NEAR.saturating_add(2) {
        return (sums.0.saturating_add(time), sums.1, sums.2);
    }
    if place >= last.saturating_sub(NEAR) {
        return (sums.0, sums.1.saturating_add(time), sums.2);
    }
    sums
}

// The time of one part. What is run is a copy, since its values are moved out of it: it is made outside that time, and
// what is left of its members is given up inside it.
fn time_of(rt: &HostRuntime, device: &mut Device, command: &Command) -> io::Result<u128>
    requires { IsSoundEngine device.old.engine }
    ensures { OnOk result (IsSoundEngine device.new.engine) }
{
    let mut copied = command.copy(rt.alloc()).map_err(of_memory)?;
    let start = Instant::now(rt)?;
    match run_message(&mut device.engine, 2, &mut copied, &mut device.out) {
        Ok(()) => {}
        Err(memory) => return Err(of_memory(memory)),
    }
    Ok(start.elapsed(rt)?.as_nanos())
}

// Each part in a message of its own.
fn run_parts(rt: &HostRuntime, device: &mut Device, parts: &[Command]) -> io::Result<Sums>
    requires { IsSoundEngine device.old.engine }
    ensures { OnOk result (IsSoundEngine device.new.engine) }
{
    device.out.cut_to(0);
    let mut sums = (0, 0, 0);
    for (place, part) in parts.iter().enumerate() {
        let time = time_of(rt, device, part)?;
        sums = with(sums, place, parts.len(), time);
    }
    Ok(sums)
}

/// Tells how long the tenth part takes, the last that leaves the group open, and of the last, which closes it, each
/// part whose answers waited.
pub fn measure_group(rt: &HostRuntime, span: Span) -> io::Result<()> {
    let mut device = new_device(rt)?;
    let commands = parts(rt.alloc(), PARTS).map_err(of_memory)?;
    let mut times = NO_GROUP;
    for _ in 0..u64::MAX {
        if is_over(span, times.early) {
            break;
        }
        times = times.and(run_parts(rt, &mut device, commands.as_slice())?);
    }
    tell(rt, "early part", times.early, NEAR as u64)?;
    tell(rt, "late part", times.late, NEAR as u64)?;
    tell(rt, "part of the close", times.close, u64::from(PARTS))
}

/// One group, and what it tells.
pub fn show_group(rt: &HostRuntime) -> io::Result<()> {
    let mut device = new_device(rt)?;
    let commands = parts(rt.alloc(), FEW).map_err(of_memory)?;
    run_parts(rt, &mut device, commands.as_slice())?;
    let out = device.out.as_slice();
    println!(rt; "group {} entries, sum {}", out.len(), fold(out))
}
