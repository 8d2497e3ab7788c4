//! Measures whether a tree stays small and fast as nodes come and go. Without words it takes a thousand turns, and
//! tells what came. The word TURNS, in thousands, asks for so many, and for nanoseconds a turn in each tenth of them.
#![tactic(auto)]

ghost use Rattle.std.specs.Prelude.{IfOk, OnOk};
ghost use Rattle.dm_undo.specs.Sound.{IsSound};

mod edits;
mod fault;
mod nodes;
mod turns;

use fault::told;
use std::time::Instant;
use std::{env, io};
use turns::Device;

const FEW: u64 = 1_000;

fn bad_words() -> io::Error {
    io::Error::from(io::ErrorKind::InvalidInput)
}

fn tell(rt: &HostRuntime, device: &Device, turns: u64) -> io::Result<()> {
    println!(rt;
        "{turns} turns, {} nodes, sum {}",
        device.tree.count(),
        device.sum
    )
}

fn new_device(rt: &HostRuntime) -> io::Result<Device>
    ensures { IfOk result (λ d. IsSound d.journal.entries d.tree.rows) }
{
    match Device::new(rt.alloc()) {
        Ok(device) => Ok(device),
        Err(fault) => Err(told(fault)),
    }
}

fn take_hundreds(rt: &HostRuntime, device: &mut Device, hundreds: u64) -> io::Result<()>
    requires { IsSound device.old.journal.entries device.old.tree.rows }
    ensures { OnOk result (IsSound device.new.journal.entries device.new.tree.rows) }
{
    for _ in 0..hundreds {
        match device.take_hundred(rt.alloc()) {
            Ok(()) => {}
            Err(fault) => return Err(told(fault)),
        }
    }
    Ok(())
}

// Takes ten times so many hundreds of turns, and tells of each tenth how long a turn took.
fn measure(rt: &HostRuntime, hundreds: u64) -> io::Result<()> {
    let turns = u128::from(hundreds).saturating_mul(100).max(1);
    let mut device = new_device(rt)?;
    for number in 1..11 {
        let start = Instant::now(rt)?;
        take_hundreds(rt, &mut device, hundreds)?;
        let mean = start.elapsed(rt)?.as_nanos() / turns;
        println!(rt; "tenth {number}: {mean} ns a turn")?;
    }
    tell(rt, &device, hundreds.saturating_mul(FEW))
}

// A thousand turns, of which no time is told.
fn show(rt: &HostRuntime) -> io::Result<()> {
    let mut device = new_device(rt)?;
    tell(rt, &device, 0)?;
    take_hundreds(rt, &mut device, FEW / 100)?;
    tell(rt, &device, FEW)
}

// Does what the words behind the program's name ask for.
fn run(rt: &HostRuntime, words: &[String]) -> io::Result<()> {
    match words {
        [] => show(rt),
        [turns] => match turns.as_str().parse::<u64>() {
            Ok(turns) if turns > 0 && turns % FEW == 0 => measure(rt, turns / FEW),
            _ => Err(bad_words()),
        },
        _ => Err(bad_words()),
    }
}

fn main(rt: HostRuntime) -> io::Result<()> {
    let mut words = Vec::new(rt.alloc());
    for word in env::args(&rt)?.skip(1) {
        words.push(word)?;
    }
    run(&rt, words.as_slice())
}
