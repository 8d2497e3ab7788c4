// The input: a trace without events.
ghost use Rattle.std.specs.Prelude.{◌<◌, ◌≤◌, ◌^◌, IfOk, OnOk};
ghost use Rattle.dm_base.specs.Outside.{OfKnown};
ghost use Rattle.dm_base.specs.Lines.{CountsTaken};
ghost use Rattle.std.specs.Io.KnownBytes.{IsAtEnd};
ghost use Rattle.dm_replay.specs.From.{input_to_come, OfInput, HaltCounts, CanBegin};
ghost use Rattle.dm_replay.specs.Input.{TakesOnePast};
ghost use Rattle.dm_device.specs.Reading.{EndsAlone, ReadsSetup};

use dm_base::{LineReason, Lines, Source};
use dm_fields::begins_with;
use dm_replay::reading::{Halt, next_line, read_end, read_start};
use dm_start::Start;
use std::alloc::Global;

// Behind `begin` only `end` may stand.
fn read_last<S: Source>(lines: &mut Lines, src: &mut S, number: u64) -> Result<(), Halt>
    requires { number < 2 ^ 60 }
    ensures ending { EndsAlone (input_to_come lines.old (S.left src.old)) number result }
    ensures ended { OnOk result (OfKnown (S.left src.old) (λ _. IsAtEnd (S.left src.new))) }
    ensures taken { CountsTaken (S.left src.old) (S.left src.new) lines.old.taken lines.new.taken }
    ensures limit { lines.new.taken ≤ 67108865 }
    ensures count { HaltCounts (S.faults src.old) (S.faults src.new) result }
{
    match next_line(lines, src, number) {
        Ok(()) => {}
        Err(halt) => return Err(halt),
    }
    let line = lines.line();
    if !begins_with(b"end", line) {
        return Err(Halt::Bad {
            number,
            reason: LineReason::Word,
        });
    }
    if line != b"end".as_slice() {
        return Err(Halt::Bad {
            number,
            reason: LineReason::Fields,
        });
    }
    read_end(lines, src, number + 1)
}

/// Reads a trace without events to the end of the input.
pub(crate) fn read_setup<S: Source>(alloc: Global, src: &mut S) -> Result<Start, Halt>
    ensures start { OfKnown (S.left src.old) (λ bytes. ReadsSetup bytes result) }
    ensures client { IfOk result CanBegin }
    ensures ended { OnOk result (OfKnown (S.left src.old) (λ _. IsAtEnd (S.left src.new))) }
    ensures taken { TakesOnePast (S.left src.old) (S.left src.new) }
    ensures count { HaltCounts (S.faults src.old) (S.faults src.new) result }
{
    let mut lines = Lines::new(alloc);
    let started = match read_start(alloc, &mut lines, src) {
        Ok(started) => started,
        Err(halt) => return Err(halt),
    };
    match read_last(&mut lines, src, started.number) {
        Ok(()) => Ok(started.start),
        Err(halt) => Err(halt),
    }
}
