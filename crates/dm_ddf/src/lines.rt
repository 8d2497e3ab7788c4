// The lines of a text, part by part.
ghost use Rattle.std.specs.Prelude.{◌≡◌, ◌<◌, ◌≤◌, ◌+◌, ◌++◌, ◌∷◌, ◌^◌, [], true, false, length, Some, None, Ok, Err};
ghost use Rattle.std.specs.Prelude.{IfOk, IfErr, OnOk, MatchResult};
ghost use Rattle.dm_job.specs.Texts.{segments, is_long as is_long_line};
ghost use Rattle.dm_start.specs.declared.heads.Head.TheVariants.{First as NoHead};
ghost use Rattle.dm_start.specs.Start.{opening, told_of};
ghost use Rattle.dm_ddf.specs.declared.reader.DdfProgress.TheVariants as progress;
ghost use Rattle.dm_ddf.specs.Reading.{described};
ghost use Rattle.dm_ddf.specs.Texts as Spec;
ghost use Rattle.dm_ddf.specs.Refusals.{error_at as error_of, NoLine, IsMore, StopsAs};

use crate::errors::DdfError;
use crate::reader::{DdfProgress, line_after};
use crate::rules::Ddf;
use dm_base::LineReason;
use dm_fields::{LineError, begins_with};
use dm_job::parsing::{cut_line, is_long, tail_reason};
use dm_start::{Start, StartReader};
use std::alloc::Global;

/// A description that was read, what stands behind it, and the number of the next line.
#[derive(Drop)]
pub struct DescribedText<'a> {
    pub ddf: Ddf,
    pub rest: &'a [u8],
    pub number: u64,
}

/// A start section that was read, what stands behind it, and the number of the next line.
#[derive(Drop)]
pub struct StartedText<'a> {
    pub start: Start,
    pub rest: &'a [u8],
    pub number: u64,
}

fn error_at(line: u64, error: LineError) -> DdfError
    ensures { result ≡ error_of line error }
{
    match error {
        LineError::Bad(reason) => DdfError::Bad { line, reason },
        LineError::Memory => DdfError::Memory,
    }
}

// The next line, without its line feed, and what stands behind it.
fn next_line(text: &[u8], line: u64) -> Result<(&[u8], &[u8]), DdfError>
    ensures { MatchResult result
        (λ cut. (segments text.now ≡ cut.0.now ∷ segments cut.1.now) × (is_long_line cut.0.now ≡ false)
        × (text.now ≡ cut.0.now ++ 10 ∷ cut.1.now))
        (NoLine line (segments text.now)) }
{
    let Some((front, behind)) = cut_line(text) else {
        return Err(DdfError::Bad {
            line,
            reason: tail_reason(text),
        });
    };
    if is_long(front) {
        return Err(DdfError::Bad {
            line,
            reason: LineReason::Long,
        });
    }
    Ok((front, behind))
}

// The description, where `end` came, or how far it has come.
fn ended_or_going(progress: DdfProgress) -> Result<Ddf, DdfProgress>
    ensures { MatchResult result (λ ddf. described progress ≡ Some ddf)
        (λ going. (going ≡ progress) × (described progress ≡ None)) }
{
    match progress {
        DdfProgress::End(ddf) => Ok(ddf),
        DdfProgress::First => Err(DdfProgress::First),
        DdfProgress::Rules(list) => Err(DdfProgress::Rules(list)),
    }
}

/// Reads a description, from its first line to its `end`.
pub(crate) fn read_ddf(alloc: Global, text: &[u8]) -> Result<DescribedText<'_>, DdfError>
    requires { length text.now < 2 ^ 63 }
    ensures ddf { IfOk result (λ d. Spec.ddf_from 1 progress.First (segments text.now)
        ≡ Ok (d.ddf, d.number, segments d.rest.now)) }
    ensures number { IfOk result (λ d. d.number + length d.rest.now ≤ 1 + length text.now) }
    ensures err { IfErr result (StopsAs (Spec.ddf_from 1 progress.First (segments text.now))) }
{
    let mut progress = DdfProgress::First;
    let mut number = 1u64;
    let mut rest = text;
    'lines: loop {
        let (line, behind) = match next_line(rest, number) {
            Ok(cut) => cut,
            Err(error) => return Err(error),
        };
        rest = behind;
        let next = match line_after(alloc, progress, line) {
            Ok(next) => next,
            Err(error) => return Err(error_at(number, error)),
        };
        number += 1;
        match ended_or_going(next) {
            Ok(ddf) => return Ok(DescribedText { ddf, rest, number }),
            Err(going) => progress = going,
        }
    }
}

/// Reads the start section of a trace, from its first line, which has this number, to its `begin`.
pub(crate) fn read_start(
    alloc: Global,
    text: &[u8],
    first: u64,
) -> Result<StartedText<'_>, DdfError>
    requires { first + length text.now < 2 ^ 64 }
    ensures start { IfOk result (λ s. Spec.setup_lines_from first (opening NoHead) (segments text.now)
        ≡ Ok (told_of s.start, s.number, segments s.rest.now)) }
    ensures number { IfOk result (λ s. s.number + length s.rest.now ≤ first + length text.now) }
    ensures err { IfErr result (StopsAs (Spec.setup_lines_from first (opening NoHead) (segments text.now))) }
{
    let mut reader = StartReader::new(alloc);
    let mut number = first;
    let mut rest = text;
    'lines: loop {
        let (line, behind) = match next_line(rest, number) {
            Ok(cut) => cut,
            Err(error) => return Err(error),
        };
        rest = behind;
        match reader.line(line) {
            Ok(false) => number += 1,
            Ok(true) => {
                return Ok(StartedText {
                    start: reader.finish(),
                    rest,
                    number: number + 1,
                });
            }
            Err(error) => return Err(error_at(number, error)),
        }
    }
}

fn is_end(line: &[u8]) -> Result<(), LineReason>
    ensures { MatchResult result (λ _. Spec.end_after false line.now ≡ Ok true)
        (λ why. Spec.end_after false line.now ≡ Err why) }
{
    if line == b"end".as_slice() {
        Ok(())
    } else if begins_with(b"end", line) {
        Err(LineReason::Fields)
    } else {
        Err(LineReason::Word)
    }
}

/// Reads the `end` line, which has this number. What stands behind it is answered.
pub(crate) fn read_end(text: &[u8], line: u64) -> Result<&[u8], DdfError>
    requires { line + length text.now < 2 ^ 64 }
    ensures rest { IfOk result (λ rest. Spec.end_lines_from line (segments text.now)
        ≡ Ok (true, line + 1, segments rest.now)) }
    ensures err { IfErr result (StopsAs (Spec.end_lines_from line (segments text.now))) }
{
    let (front, behind) = match next_line(text, line) {
        Ok(cut) => cut,
        Err(error) => return Err(error),
    };
    match is_end(front) {
        Ok(()) => Ok(behind),
        Err(reason) => Err(DdfError::Bad { line, reason }),
    }
}

/// Reads that nothing stands behind the last line.
#[tactic(auto, using(crate::proofs::Turns::nothing_is, crate::proofs::Turns::nothing_else))]
pub(crate) fn read_nothing(text: &[u8], line: u64) -> Result<(), DdfError>
    ensures ok { OnOk result (segments text.now ≡ [] ∷ []) }
    ensures err { IfErr result (λ e. (e ≡ DdfError.Bad line LineReason.Extra) × IsMore (segments text.now)) }
{
    if text.is_empty() {
        return Ok(());
    }
    Err(DdfError::Bad {
        line,
        reason: LineReason::Extra,
    })
}
