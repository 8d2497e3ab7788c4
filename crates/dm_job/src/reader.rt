// The reader of a job.
ghost use Rattle.std.specs.Prelude.{◌≡◌, Some, Ok, IfOk, IfErr, OnOk, OnErr, false, true};
ghost use Rattle.dm_fields.specs.Refusing.{Refuses};
ghost use Rattle.dm_job.specs.declared.draft.Reading.TheVariants as reading;
ghost use Rattle.dm_job.specs.Answers.{MovesOn, Says};
ghost use Rattle.dm_job.specs.Measures.{CanGoOn};
ghost use Rattle.dm_job.specs.Reading as Spec;
ghost use Rattle.dm_job.specs.Reading.{reading_after};
ghost use Rattle.dm_job.specs.Sound.{IsSoundJob};
ghost use Rattle.dm_job.specs.Texts.{job_in, is_ended as has_ended};

use crate::draft::{JobDraft, LinePlace, Reading};
use crate::job::Job;
use crate::lines::after_draft;
use dm_auth::Account;
use dm_base::List;
use dm_fields::{BAD_FIELDS, BAD_WORD, LineError, account_in, begins_with, limits_in};
use std::alloc::Global;
use std::marker::Model;

/// Reads a job, line by line.
#[derive(Drop)]
pub struct JobReader {
    alloc: Global,
    reading: Reading,
}

impl Model for JobReader {
    ghost use Rattle.dm_job.specs.declared.draft.Reading.{Reading as Progress};
    ghost use Rattle.dm_job.specs.Measures.{IsUnderWay};

    ghost Value = { Progress };

    ghost view = { λ r. r.reading };

    ghost invariant = { λ r. IsUnderWay r.reading };
}

fn first_line(line: &[u8]) -> Result<Reading, LineError>
    ensures { Says (Spec.first_line line.now) result }
{
    if line == b"dm-job 1".as_slice() {
        Ok(Reading::Server)
    } else {
        Err(BAD_WORD)
    }
}

fn server_line(alloc: Global, line: &[u8]) -> Result<Reading, LineError>
    ensures { Says (Spec.server_line line.now) result }
{
    if !begins_with(b"server", line) {
        return Err(BAD_WORD);
    }
    match account_in(alloc, line)? {
        Some(account) => Ok(Reading::Limits(account)),
        None => Err(BAD_FIELDS),
    }
}

fn limits_line(alloc: Global, account: &Account, line: &[u8]) -> Result<Reading, LineError>
    ensures { Says (Spec.limits_line account.now line.now) result }
{
    if !begins_with(b"limits", line) {
        return Err(BAD_WORD);
    }
    match limits_in(line) {
        Some(limits) => Ok(Reading::Commands(JobDraft {
            job: Job {
                account: account.copy(alloc)?,
                limits,
                packages: List::new(alloc),
            },
            place: LinePlace::Between,
            count: 0,
        })),
        None => Err(BAD_FIELDS),
    }
}

#[tactic(auto, unfolding(crate::specs::Reading::reading_after))]
fn after_line(alloc: Global, reading: &mut Reading, line: &[u8]) -> Result<(), LineError>
    requires { CanGoOn reading.old }
    ensures { MovesOn (reading_after reading.old line.now) reading.old reading.new result }
{
    let next = match reading {
        Reading::First => first_line(line)?,
        Reading::Server => server_line(alloc, line)?,
        Reading::Limits(account) => limits_line(alloc, account, line)?,
        Reading::Commands(draft) => return after_draft(alloc, draft, line),
    };
    *reading = next;
    Ok(())
}

fn is_ended(reading: &Reading) -> bool
    ensures { result ≡ has_ended reading.now }
{
    match reading {
        Reading::Commands(draft) => draft.place == LinePlace::End,
        Reading::First | Reading::Server | Reading::Limits(_) => false,
    }
}

// What a job that has ended says.
fn job_of(reading: Reading) -> Job
    requires { has_ended reading ≡ true }
    ensures { job_in reading ≡ Some result }
{
    match reading {
        Reading::Commands(draft) => draft.job,
        Reading::First | Reading::Server | Reading::Limits(_) => unreachable!(),
    }
}

impl JobReader {
    /// A reader of a job of which no line came.
    pub fn new(alloc: Global) -> JobReader
        ensures { result ≡ reading.First }
    {
        JobReader {
            alloc,
            reading: Reading::First,
        }
    }

    /// Takes the next line, without its line feed, and answers whether it was `end`, the last one. It goes through the
    /// line a few times, and at `close` once through the container.
    ///
    /// `Bad` tells the first reason that holds: `Word` for a first word that may not stand there, `Fields` for their
    /// number or form, for Data over 4,194,304 bytes, and for the end of a container that is empty or has more than
    /// 1,000 bytes beside the Data of its last member. After it, and after `Memory`, all is as before the line.
    pub fn line(&mut self, text: &[u8]) -> Result<bool, LineError>
        requires { has_ended self.old ≡ false }
        ensures read { OnOk result (reading_after self.old text.now ≡ Ok self.new) }
        ensures last { IfOk result (λ last. last ≡ has_ended self.new) }
        ensures bad { IfErr result (Refuses (reading_after self.old text.now)) }
        ensures err { OnErr result (self.new ≡ self.old) }
    {
        after_line(self.alloc, &mut self.reading, text)?;
        Ok(is_ended(&self.reading))
    }

    /// What the job says, which is sound, whatever its lines were. It takes no memory.
    pub fn finish(self) -> Job
        requires { has_ended self ≡ true }
        ensures job { job_in self ≡ Some result }
        ensures sound { IsSoundJob result }
    {
        job_of(self.reading)
    }
}
