// The client's start section, and the server's job.
ghost use Rattle.std.specs.Prelude.{◌≡◌, ◌<◌, ◌≤◌, ◌+◌, ◌^◌, length, IfOk, IfErr};
ghost use Rattle.dm_start.specs.declared.heads.Head.TheVariants.{Device};
ghost use Rattle.dm_start.specs.Start.{opening, told_of, Setup};
ghost use Rattle.dm_job.specs.declared.draft.Reading.TheVariants as reading;
ghost use Rattle.dm_job.specs.Sound.{IsSoundJob};
ghost use Rattle.dm_replay.specs.From.{CanBegin};
ghost use Rattle.dm_replay.specs.Trace.{servers_of};
ghost use Rattle.dm_pair.specs.Texts.{first, starting, jobbing, happening, pairing_of};
ghost use Rattle.dm_pair.specs.From.{rest_written, HaltsAs};

use crate::lines::{TextHalt, halt_at, next_line};
use dm_base::LineReason;
use dm_fields::LineError;
use dm_job::{Job, JobReader};
use dm_start::{Start, StartReader};
use std::alloc::Global;

/// A start section that was read, what stands behind it, and the number of the next line.
#[derive(Drop)]
pub struct StartRead<'a> {
    pub start: Start,
    pub rest: &'a [u8],
    pub number: u64,
}

/// A job that was read, what stands behind it, and the number of the next line.
#[derive(Drop)]
pub struct JobRead<'a> {
    pub job: Job,
    pub rest: &'a [u8],
    pub number: u64,
}

/// Reads the first line, `dm-pair 1`. What is written for what stands behind it is what is written for the text.
#[tactic(auto, using(crate::proofs::Turns::first_read, crate::proofs::Turns::first_refused))]
pub fn read_first(text: &[u8]) -> Result<&[u8], TextHalt>
    ensures rest { IfOk result (λ rest. rest_written 1 first text.now ≡ rest_written 2 (starting (opening (Device 1))) rest.now) }
    ensures shorter { IfOk result (λ rest. length rest.now < length text.now) }
    ensures halt { IfErr result (HaltsAs (rest_written 1 first text.now)) }
{
    let (line, behind) = match next_line(text, 1) {
        Ok(cut) => cut,
        Err(halt) => return Err(halt),
    };
    if line == b"dm-pair 1".as_slice() {
        Ok(behind)
    } else {
        Err(TextHalt::Bad {
            number: 1,
            reason: LineReason::Word,
        })
    }
}

/// Reads the client's start section, behind the first line: from `device` to `begin`. What is written for what stands
/// behind it, with the client that it tells, is what is written for the text.
pub fn read_start(alloc: Global, text: &[u8]) -> Result<StartRead<'_>, TextHalt>
    requires { length text.now < 2 ^ 63 }
    ensures start { IfOk result (λ b. rest_written 2 (starting (opening (Device 1))) text.now
        ≡ rest_written b.number (jobbing (told_of b.start) reading.First) b.rest.now) }
    ensures client { IfOk result (λ b. CanBegin b.start) }
    ensures number { IfOk result (λ b. b.number + length b.rest.now ≤ 2 + length text.now) }
    ensures halt { IfErr result (HaltsAs (rest_written 2 (starting (opening (Device 1))) text.now)) }
{
    let mut reader = StartReader::behind_first(alloc, 1);
    let mut number = 2u64;
    let mut rest = text;
    'lines: loop {
        let (line, behind) = match next_line(rest, number) {
            Ok(cut) => cut,
            Err(halt) => return Err(halt),
        };
        rest = behind;
        match reader.line(line) {
            Ok(false) => number += 1,
            Ok(true) => {
                return Ok(StartRead {
                    start: reader.finish(),
                    rest,
                    number: number + 1,
                });
            }
            Err(error) => return Err(halt_at(number, error)),
        }
    }
}

/// Reads the server's job, behind the start section: from `dm-job 1` to its `end`. What is written for what stands
/// behind it, with the job, is what is written for the text.
pub fn read_job<'a>(alloc: Global, text: &'a [u8], first: u64) -> Result<JobRead<'a>, TextHalt>
    requires { first + length text.now < 2 ^ 64 }
    ensures job { IfOk result (λ g. (told : Setup) → rest_written first (jobbing told reading.First) text.now
        ≡ rest_written g.number (happening (servers_of told.accounts) (pairing_of told g.job)) g.rest.now) }
    ensures sound { IfOk result (λ g. IsSoundJob g.job) }
    ensures number { IfOk result (λ g. g.number + length g.rest.now ≤ first + length text.now) }
    ensures halt { IfErr result (λ h. (told : Setup)
        → HaltsAs (rest_written first (jobbing told reading.First) text.now) h) }
{
    let mut reader = JobReader::new(alloc);
    let mut number = first;
    let mut rest = text;
    'lines: loop {
        let (line, behind) = match next_line(rest, number) {
            Ok(cut) => cut,
            Err(halt) => return Err(halt),
        };
        rest = behind;
        match reader.line(line) {
            Ok(false) => number += 1,
            Ok(true) => {
                return Ok(JobRead {
                    job: reader.finish(),
                    rest,
                    number: number + 1,
                });
            }
            Err(error) => return Err(halt_at(number, error)),
        }
    }
}
