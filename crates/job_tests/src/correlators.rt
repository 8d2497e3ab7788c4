// The correlator of an Exec, which no case of both ends tells.
use crate::answers::HEAD;
use dm_base::{Bytes, Memory};
use dm_job::{Job, JobEntry, JobError};
use std::alloc::Global;
use std::test::Fail;
use syncml_types::{Command, Member, Plain, SeqMember};

const TEXT: &[u8] = b"exec ./F c7\nexec ./F -\nsequence\nexec ./F c8\nclose\nend\n";

const WANTED: [&[u8]; 3] = [b"c7", b"", b"c8"];

fn correlator_of(plain: &Plain) -> &[u8] {
    match &plain.correlator {
        Some(correlator) => correlator.as_slice(),
        None => b"",
    }
}

// That of a command, or of a Sequence's first member.
fn first_correlator(command: &Command) -> &[u8] {
    match command {
        Command::Plain(plain) => correlator_of(plain),
        Command::Sequence(block) => match block.members.as_slice().first() {
            Some(SeqMember::Single(Member::One(plain))) => correlator_of(plain),
            _ => b"",
        },
        _ => b"",
    }
}

fn are_as_wanted(entries: &[JobEntry]) -> bool {
    entries.len() == WANTED.len()
        && entries.iter().zip(WANTED.iter()).all(|(entry, wanted)| first_correlator(&entry.command)
            == *wanted)
}

fn is_read(job: &Job) -> bool {
    match job.packages.as_slice().first() {
        Some(entries) => are_as_wanted(entries.as_slice()),
        None => false,
    }
}

fn reads(alloc: Global, text: &Bytes) -> Result<bool, Memory> {
    match Job::parse(alloc, text.as_slice()) {
        Ok(job) => Ok(is_read(&job)),
        Err(JobError::Bad { .. }) => Ok(false),
        Err(JobError::Memory) => Err(Memory),
    }
}

#[test]
fn execs_have_their_correlators(rt: HostRuntime) -> Result<(), Fail> {
    let mut text = Bytes::of_slice(rt.alloc(), HEAD)?;
    text.extend(TEXT)?;
    assert!(rt; reads(rt.alloc(), &text)?);
    Ok(())
}
