// The lines of a trace, read one by one.
ghost use Rattle.std.specs.Prelude.{◌≡◌, ◌<◌, ◌≤◌, ◌+◌, ◌^◌, [], Some, IfOk, IfSome, OnOk, IfErr, length};
ghost use Rattle.std.specs.Io.KnownBytes.{IsAtEnd};
ghost use Rattle.dm_base.specs.Outside.{OfKnown};
ghost use Rattle.dm_base.specs.Lines.{room, CountsTaken};
ghost use Rattle.dm_start.specs.declared.heads.Head.TheVariants.{First};
ghost use Rattle.dm_start.specs.Start.{opening};
ghost use Rattle.dm_replay.specs.Events.{IsEventOf};
ghost use Rattle.dm_replay.specs.From.{input_to_come, Between, OfInput, OfStop, BeginsWithLine, why_no_line};
ghost use Rattle.dm_replay.specs.From.{HaltCounts, halt_after};
ghost use Rattle.dm_replay.specs.From.{halt_for, HaltsAsking, StartsAs, CanBegin, GoesOn, EndsAs};
ghost use Rattle.dm_replay.specs.From.{LeadsOver, StartsOver, GoesOver, OfTaken};
ghost use Rattle.dm_replay.specs.declared.reading.Halt.TheVariants as halt;

use crate::events::{Event, read_event};
use dm_base::{Bytes, LineOut, LineReason, Lines, List, Source, TakeError};
use dm_fields::LineError;
use dm_start::{Start, StartReader};
use std::alloc::Global;

/// Why a run stops before the end of a whole trace.
#[derive(Clone, Copy, Debug, PartialEq, Eq)]
pub enum Halt {
    /// This line is refused.
    Bad { number: u64, reason: LineReason },
    /// No whole line is left in the bytes that a run looks at, at most 8,400,000 bytes of the next stand there, and
    /// another byte comes.
    TooLong,
    Read,
    Memory,
}

/// A start section that was read, and the number of the line behind it.
#[derive(Drop)]
pub struct TraceStart {
    pub start: Start,
    pub number: u64,
}

fn halt_of(error: TakeError) -> Halt
    ensures { result ≡ halt_after error }
{
    match error {
        TakeError::Read => Halt::Read,
        TakeError::TooLong => Halt::TooLong,
        TakeError::Memory => Halt::Memory,
    }
}

/// The halt at a line that isn't taken.
pub fn halt_at(number: u64, error: LineError) -> Halt
    ensures { result ≡ halt_for number error }
{
    match error {
        LineError::Bad(reason) => Halt::Bad { number, reason },
        LineError::Memory => Halt::Memory,
    }
}

/// Brings the next line in, which `lines` has then. At the end of the input it is `Cut`.
pub fn next_line<S: Source>(lines: &mut Lines, src: &mut S, number: u64) -> Result<(), Halt>
    ensures line { OnOk result (Between (input_to_come lines.old (S.left src.old)) (input_to_come lines.new (S.left src.new))
        (λ i j. BeginsWithLine lines.new.line i j)) }
    ensures halt { IfErr result (λ h. OfInput (input_to_come lines.old (S.left src.old))
        (λ i. OfStop h (λ stop. why_no_line number i ≡ Some stop))) }
    ensures asked { IfErr result (HaltsAsking lines.old.pending) }
    ensures over { LeadsOver lines.old lines.new (S.left src.old) (S.left src.new) result }
    ensures room { OnOk result (room lines.new + (length lines.new.line + 1) ≡ room lines.old) }
    ensures taken { CountsTaken (S.left src.old) (S.left src.new) lines.old.taken lines.new.taken }
    ensures limit { lines.new.taken ≤ 67108865 }
    ensures count { HaltCounts (S.faults src.old) (S.faults src.new) result }
{
    match lines.next(src) {
        Ok(LineOut::Line) => Ok(()),
        Ok(LineOut::Bad(reason)) => Err(Halt::Bad { number, reason }),
        Ok(LineOut::End) => Err(Halt::Bad {
            number,
            reason: LineReason::Cut,
        }),
        Err(error) => Err(halt_of(error)),
    }
}

/// Reads the start section, line by line.
pub fn read_start<S: Source>(
    alloc: Global,
    lines: &mut Lines,
    src: &mut S,
) -> Result<TraceStart, Halt>
    requires { room lines.old < 2 ^ 60 }
    ensures start { StartsAs (input_to_come lines.old (S.left src.old)) (input_to_come lines.new (S.left src.new)) 1
        (opening First) result }
    ensures over { StartsOver lines.old lines.new (S.left src.old) (S.left src.new) 1 (opening First) result }
    ensures client { IfOk result (λ s. CanBegin s.start) }
    ensures room { IfOk result (λ s. s.number + room lines.new ≤ 1 + room lines.old) }
    ensures taken { CountsTaken (S.left src.old) (S.left src.new) lines.old.taken lines.new.taken }
    ensures limit { lines.new.taken ≤ 67108865 }
    ensures count { HaltCounts (S.faults src.old) (S.faults src.new) result }
{
    let mut reader = StartReader::new(alloc);
    let mut number = 1u64;
    'lines: loop {
        match next_line(lines, src, number) {
            Ok(()) => {}
            Err(halt) => return Err(halt),
        }
        match reader.line(lines.line()) {
            Ok(false) => number += 1,
            Ok(true) => {
                return Ok(TraceStart {
                    start: reader.finish(),
                    number: number + 1,
                });
            }
            Err(error) => return Err(halt_at(number, error)),
        }
    }
}

/// Reads that nothing stands behind the `end` line. The source isn't asked behind a line that stands there.
pub fn read_end<S: Source>(lines: &mut Lines, src: &mut S, number: u64) -> Result<(), Halt>
    ensures ending { EndsAs (input_to_come lines.old (S.left src.old)) number result }
    ensures ended { OnOk result (OfKnown (S.left src.old) (λ _. IsAtEnd (S.left src.new))) }
    ensures asked { IfErr result (HaltsAsking lines.old.pending) }
    ensures none { IfErr result (λ h. h ≡ halt.Read
        → OfTaken lines.old (S.left src.old) (S.left src.new) (λ i. i.lines ≡ [])) }
    ensures room { OnOk result (room lines.new ≡ room lines.old) }
    ensures taken { CountsTaken (S.left src.old) (S.left src.new) lines.old.taken lines.new.taken }
    ensures limit { lines.new.taken ≤ 67108865 }
    ensures count { HaltCounts (S.faults src.old) (S.faults src.new) result }
{
    match lines.next(src) {
        Ok(LineOut::End) => Ok(()),
        Ok(LineOut::Line) => Err(Halt::Bad {
            number,
            reason: LineReason::Extra,
        }),
        Ok(LineOut::Bad(_)) => Err(Halt::Bad {
            number,
            reason: LineReason::Extra,
        }),
        Err(error) => Err(halt_of(error)),
    }
}

/// Reads the next event. None comes at the `end` line.
pub fn next_event<S: Source>(
    alloc: Global,
    lines: &mut Lines,
    src: &mut S,
    number: u64,
    version: u8,
    ids: &List<Bytes>,
) -> Result<Option<Event>, Halt>
    requires { number < 2 ^ 60 }
    ensures events { GoesOn (input_to_come lines.old (S.left src.old)) (input_to_come lines.new (S.left src.new)) version
        ids.now number result }
    ensures over { GoesOver lines.old lines.new (S.left src.old) (S.left src.new) version ids.now number result }
    ensures asked { IfErr result (HaltsAsking lines.old.pending) }
    ensures account { IfOk result (λ next. IfSome next (λ event. IsEventOf (length ids.now) event)) }
    ensures room { OnOk result (room lines.new < room lines.old) }
    ensures taken { CountsTaken (S.left src.old) (S.left src.new) lines.old.taken lines.new.taken }
    ensures limit { lines.new.taken ≤ 67108865 }
    ensures count { HaltCounts (S.faults src.old) (S.faults src.new) result }
{
    match next_line(lines, src, number) {
        Ok(()) => {}
        Err(halt) => return Err(halt),
    }
    let event = match read_event(alloc, lines.line(), version, ids) {
        Ok(event) => event,
        Err(error) => return Err(halt_at(number, error)),
    };
    if !event.is_end() {
        return Ok(Some(event));
    }
    Ok(None)
}
