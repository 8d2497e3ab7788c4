// The command.
ghost use Rattle.std.specs.Io.KnownBytes.{Consumes};
ghost use Rattle.std.specs.Prelude.{◌≡◌, ◌≤◌, ℕ, List, length, IfOk};
ghost use Rattle.dm_base.specs.Outside.{OfKnown};
ghost use Rattle.dm_exit.specs.Answers.{DoneAtEnd};
ghost use Rattle.dm_exit.specs.Causes.{SourceCause, SinkCause, DoorCause};
ghost use Rattle.dm_exit.specs.Puts.{PutsEnd};
ghost use Rattle.dm_exit.specs.declared.exit.Exit.TheVariants as exit;
ghost use Rattle.dm_job.specs.Sound.{IsSoundJob};
ghost use Rattle.dm_job.specs.declared.job.Job.{Job as AJob};
ghost use Rattle.dm_outside.specs.Doors.{IsEmpty};
ghost use Rattle.dm_outside.specs.Told.{IfTold};
ghost use Rattle.dm_service.specs.Messages.{first_service};
ghost use Rattle.dm_texts.specs.Lines;
ghost use Rattle.dm_serving.specs.Serves.{serving_text, IsBeforeDoor, IsOfJob, IsOfServe, JobDoes, TextDoes, Serves};
ghost use Rattle.dm_serving.specs.Turns.{door_and_nonces};

use crate::turns::listen_and_answer;
use dm_base::{Bytes, Fault, LineReason, Memory, RUN_LIMIT, Sink, Source, TakeError, take_all};
use dm_exit::{Exit, put_text};
use dm_job::laws::jobs_are_sound;
use dm_job::{Job, JobError};
use dm_outside::{Door, Nonces};
use dm_server::Server;
use dm_texts::bad_line;
use dm_words::ServeWords;
use std::alloc::Global;

fn ending(server: &Server) -> Result<Bytes, Memory>
    ensures { IfOk result (λ text. text ≡ serving_text server.now) }
{
    let mut text = server.report()?;
    text.extend(b"done\n")?;
    Ok(text)
}

fn put_report<K: Sink>(out: &mut K, server: &Server) -> Exit
    ensures bytes { PutsEnd (serving_text server.now) exit.Done (K.got out.old) (K.got out.new) result }
    ensures count { SinkCause (K.faults out.old) (K.faults out.new) result }
{
    match ending(server) {
        Ok(text) => match put_text(out, text.as_slice()) {
            Ok(()) => Exit::Done,
            Err(exit) => exit,
        },
        Err(Memory) => Exit::NoMemory,
    }
}

// Tells which line is refused.
fn put_refusal<K: Sink>(alloc: Global, out: &mut K, number: u64, reason: LineReason) -> Exit
    ensures bytes { PutsEnd (Lines.bad_line number reason) exit.BadInput (K.got out.old) (K.got out.new) result }
    ensures count { SinkCause (K.faults out.old) (K.faults out.new) result }
{
    match bad_line(alloc, number, reason) {
        Ok(line) => match put_text(out, line.as_slice()) {
            Ok(()) => Exit::BadInput,
            Err(exit) => exit,
        },
        Err(Memory) => Exit::NoMemory,
    }
}

// The run of a server to which no message came yet.
fn run_server<K: Sink, P: Door, N: Nonces>(
    alloc: Global,
    words: &ServeWords,
    server: &mut Server,
    out: &mut K,
    door: &mut P,
    nonces: &mut N,
) -> Exit
    requires empty { IsEmpty (P.told door.old) }
    ensures empty { IsEmpty (P.told door.new) }
    ensures does { (job : AJob) → server.old ≡ first_service job
        → IfTold (door_and_nonces (P.told door.old) (N.left nonces.old)) (door_and_nonces (P.told door.new) (N.left nonces.new))
        (JobDoes words.now job (K.got out.old) (K.got out.new) result) }
    ensures kind { IsOfJob result }
    ensures sink { SinkCause (K.faults out.old) (K.faults out.new) result }
    ensures door { DoorCause (P.faults door.old) (P.faults door.new) result }
{
    let address = words.address.as_slice();
    match listen_and_answer(alloc, address, words.count, server, door, nonces) {
        Ok(()) => put_report(out, server),
        Err(Fault::Failed) => Exit::DoorFault,
        Err(Fault::Memory) => Exit::NoMemory,
    }
}

// The run of a server with a job that was read.
fn serve_job<K: Sink, P: Door, N: Nonces>(
    alloc: Global,
    words: &ServeWords,
    job: Job,
    out: &mut K,
    door: &mut P,
    nonces: &mut N,
) -> Exit
    requires empty { IsEmpty (P.told door.old) }
    requires sound { IsSoundJob job }
    ensures empty { IsEmpty (P.told door.new) }
    ensures does { IfTold (door_and_nonces (P.told door.old) (N.left nonces.old))
        (door_and_nonces (P.told door.new) (N.left nonces.new))
        (JobDoes words.now job (K.got out.old) (K.got out.new) result) }
    ensures kind { IsOfJob result }
    ensures sink { SinkCause (K.faults out.old) (K.faults out.new) result }
    ensures door { DoorCause (P.faults door.old) (P.faults door.new) result }
{
    match Server::new(alloc, job) {
        Ok(server) => {
            let mut server = server;
            run_server(alloc, words, &mut server, out, door, nonces)
        }
        Err(Memory) => Exit::NoMemory,
    }
}

// The run over an input that was read to its end.
fn serve_text<K: Sink, P: Door, N: Nonces>(
    alloc: Global,
    words: &ServeWords,
    text: &[u8],
    out: &mut K,
    door: &mut P,
    nonces: &mut N,
) -> Exit
    requires empty { IsEmpty (P.told door.old) }
    ensures empty { IsEmpty (P.told door.new) }
    ensures does { TextDoes words.now text.now (door_and_nonces (P.told door.old) (N.left nonces.old))
        (door_and_nonces (P.told door.new) (N.left nonces.new)) (K.got out.old) (K.got out.new) result }
    ensures untouched { IsBeforeDoor result → (door.new ≡ door.old) × (nonces.new ≡ nonces.old) }
    ensures kind { IsOfServe result }
    ensures sink { SinkCause (K.faults out.old) (K.faults out.new) result }
    ensures door { DoorCause (P.faults door.old) (P.faults door.new) result }
{
    // It tells that a job that was read is sound.
    jobs_are_sound();
    match Job::parse(alloc, text) {
        Ok(job) => serve_job(alloc, words, job, out, door, nonces),
        Err(JobError::Bad { line, reason }) => put_refusal(alloc, out, line, reason),
        Err(JobError::Memory) => Exit::NoMemory,
    }
}

/// Serves a job: reads the whole input, listens once, answers so many connections one after the other, the n-th with
/// the n-th nonce, and then writes the report and `done`. Each connection that is let in counts and takes one nonce,
/// also one that fails or brings no request. It answers
/// - `Done` where all connections came and the whole text was written,
/// - `BadInput` where the input is no job; the first line that is refused is told,
/// - `TooLong` where the input has more than 67,108,864 bytes, and `ReadFault` after a fault of the source; nothing is
///   written then,
/// - `DoorFault` where the door failed: it didn't listen, or an `accept` failed; nothing is written then,
/// - `WriteFault` after a fault of the sink, and `NoMemory` at any place; then what was written is a prefix of the text.
///
/// The door and the nonces are asked for nothing before the input is known to be a job, of which at most 67,108,865
/// bytes are taken. Each connection is given back.
pub fn serve<S: Source, K: Sink, P: Door, N: Nonces>(
    alloc: Global,
    words: &ServeWords,
    src: &mut S,
    out: &mut K,
    door: &mut P,
    nonces: &mut N,
) -> Exit
    requires empty { IsEmpty (P.told door.old) }
    ensures empty { IsEmpty (P.told door.new) }
    ensures serves { OfKnown (S.left src.old) (λ bytes. Serves words.now bytes
        (door_and_nonces (P.told door.old) (N.left nonces.old)) (door_and_nonces (P.told door.new) (N.left nonces.new))
        (K.got out.old) (K.got out.new) result) }
    ensures untouched { IsBeforeDoor result → (door.new ≡ door.old) × (nonces.new ≡ nonces.old) }
    ensures ended { DoneAtEnd (S.left src.old) (S.left src.new) result }
    ensures taken { (bytes : List ℕ) × Consumes (S.left src.old) (S.left src.new) bytes × (length bytes ≤ 67108865) }
    ensures kind { IsOfServe result }
    ensures faults { SourceCause (S.faults src.old) (S.faults src.new) result
        × SinkCause (K.faults out.old) (K.faults out.new) result
        × DoorCause (P.faults door.old) (P.faults door.new) result }
{
    let input = match take_all(alloc, src, RUN_LIMIT as u64) {
        Ok(input) => input,
        Err(TakeError::Read) => return Exit::ReadFault,
        Err(TakeError::TooLong) => return Exit::TooLong,
        Err(TakeError::Memory) => return Exit::NoMemory,
    };
    serve_text(alloc, words, input.as_slice(), out, door, nonces)
}
