// A whole text.
ghost use Rattle.std.specs.Prelude.{◌≡◌, ◌++◌, ◌∷◌, [], MatchOption};
ghost use Rattle.dm_job.specs.Texts as Spec;
ghost use Rattle.dm_job.specs.declared.draft.Reading.TheVariants as reading;
ghost use Rattle.dm_job.specs.Texts.{job_of, segments, ReadsJob, ReadsAll, ReadsEnd};

use crate::errors::JobError;
use crate::job::Job;
use crate::reader::JobReader;
use dm_base::LineReason;
use dm_base::lines::LINE_LIMIT;
use dm_fields::LineError;
use memchr::memchr;
use std::alloc::Global;

fn bad_line(line: u64, error: LineError) -> JobError
    ensures { result ≡ Spec.line_fault line error }
{
    match error {
        LineError::Bad(reason) => JobError::Bad { line, reason },
        LineError::Memory => JobError::Memory,
    }
}

/// The first line of a text, without its line feed, and what stands behind it. None comes exactly where no line feed
/// ends it.
pub fn cut_line(text: &[u8]) -> Option<(&[u8], &[u8])>
    ensures { MatchOption result (segments text.now ≡ text.now ∷ [])
        (λ cut. (text.now ≡ cut.0.now ++ 10 ∷ cut.1.now) × (segments text.now ≡ cut.0.now ∷ segments cut.1.now)) }
{
    match memchr(b'\n', text) {
        Some(at) => Some((&text[..at], &text[at + 1..])),
        None => None,
    }
}

/// Whether a line, without its line feed, has more than 8,400,000 bytes.
pub fn is_long(line: &[u8]) -> bool
    ensures { result ≡ Spec.is_long line.now }
{
    line.len() > LINE_LIMIT
}

/// Why a line is refused that no line feed ends.
pub fn tail_reason(tail: &[u8]) -> LineReason
    ensures { result ≡ Spec.tail_reason tail.now }
{
    if is_long(tail) {
        LineReason::Long
    } else {
        LineReason::Cut
    }
}

fn unended(line: u64, tail: &[u8]) -> JobError
    ensures { result ≡ Spec.bad_at (Spec.unended line tail.now) }
{
    JobError::Bad {
        line,
        reason: tail_reason(tail),
    }
}

// Behind the `end` line, where nothing may stand.
#[tactic(auto, using(crate::proofs::Turns::nothing_behind, crate::proofs::Turns::something_behind))]
fn read_end(line: u64, behind: &[u8]) -> Result<(), JobError>
    ensures { ReadsEnd line (segments behind.now) result }
{
    if behind.is_empty() {
        Ok(())
    } else {
        Err(JobError::Bad {
            line,
            reason: LineReason::Extra,
        })
    }
}

// Reads the lines of a text, up to its end.
fn read_all(reader: &mut JobReader, text: &[u8]) -> Result<(), JobError>
    requires { reader.old ≡ reading.First }
    ensures { ReadsAll (job_of text.now) reader.new result }
{
    let mut number = 1u64;
    let mut rest = text;
    'lines: loop {
        let Some((line, behind)) = cut_line(rest) else {
            return Err(unended(number, rest));
        };
        if is_long(line) {
            return Err(JobError::Bad {
                line: number,
                reason: LineReason::Long,
            });
        }
        match reader.line(line) {
            Ok(false) => {
                number += 1;
                rest = behind;
            }
            Ok(true) => return read_end(number + 1, behind),
            Err(error) => return Err(bad_line(number, error)),
        }
    }
}

impl Job {
    /// Reads the text of a job, whose lines are each ended by a line feed. It goes through the text once.
    ///
    /// `Bad` tells the first line that is refused, counted from 1, and the first reason that holds: `Long` for more
    /// than 8,400,000 bytes, `Cut` where the text ends inside the line or before it, `Word` and `Fields` as
    /// `JobReader::line` gives them, and `Extra` for a byte behind the `end` line.
    pub fn parse(alloc: Global, text: &[u8]) -> Result<Job, JobError>
        ensures { ReadsJob (job_of text.now) result }
    {
        let mut reader = JobReader::new(alloc);
        match read_all(&mut reader, text) {
            Ok(()) => Ok(reader.finish()),
            Err(error) => Err(error),
        }
    }
}
