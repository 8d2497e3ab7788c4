// What a text is answered.
use dm_base::{Bytes, LineReason, Memory};
use dm_job::{Job, JobError};
use std::alloc::Global;

// Lines 1 to 3.
pub(crate) const HEAD: &[u8] = b"dm-job 1
server s1 - - - - -
limits 16384 4194304
";

/// How many packages a text has, or the first line that is refused.
#[derive(Clone, Copy, PartialEq, Eq)]
pub(crate) enum Answer {
    Packages(usize),
    Bad(u64, LineReason),
}

fn answer_to(alloc: Global, text: &[u8]) -> Result<Answer, Memory> {
    match Job::parse(alloc, text) {
        Ok(job) => Ok(Answer::Packages(job.packages.len())),
        Err(JobError::Bad { line, reason }) => Ok(Answer::Bad(line, reason)),
        Err(JobError::Memory) => Err(Memory),
    }
}

fn put_many(text: &mut Bytes, piece: &[u8], times: usize) -> Result<(), Memory> {
    for _ in 0..times {
        text.extend(piece)?;
    }
    Ok(())
}

fn put_pieces(text: &mut Bytes, pieces: &[(&[u8], usize)]) -> Result<(), Memory> {
    for (piece, times) in pieces {
        put_many(text, piece, *times)?;
    }
    Ok(())
}

fn answer_behind(
    alloc: Global,
    text: &mut Bytes,
    pieces: &[(&[u8], usize)],
) -> Result<Answer, Memory> {
    put_pieces(text, pieces)?;
    answer_to(alloc, text.as_slice())
}

/// The answer to the text of these pieces, each so many times.
pub(crate) fn answer_of(alloc: Global, pieces: &[(&[u8], usize)]) -> Result<Answer, Memory> {
    let mut text = Bytes::new(alloc);
    let answer = answer_behind(alloc, &mut text, pieces);
    drop(text);
    answer
}
