// The command.
ghost use Rattle.std.specs.Prelude.{◌≡◌, ◌++◌, MatchResult};
ghost use Rattle.std.specs.Io.KnownBytes.{Appends};
ghost use Rattle.dm_base.specs.Outside.{OfKnown};
ghost use Rattle.dm_exit.specs.Answers.{IsOfText, DoneAtEnd};
ghost use Rattle.dm_exit.specs.Causes.{SourceCause, SinkCause};
ghost use Rattle.dm_exit.specs.Puts.{PutsEnd, PutsPart, Ends};
ghost use Rattle.dm_replay.specs.Input.{TakesOnePast};
ghost use Rattle.dm_pair.specs.Texts.{pair_text, pair_exit};
ghost use Rattle.dm_pair.specs.Seen.{all_written, exit_where_bad};

use crate::text::{PairOut, run_pair};
use dm_base::{RUN_LIMIT, Sink, Source, TakeError, take_all};
use dm_exit::{Exit, put_text};
use std::alloc::Global;

fn put_both<K: Sink>(out: &mut K, first: &[u8], second: &[u8]) -> Result<(), Exit>
    ensures bytes { MatchResult result (λ _. Appends (K.got out.old) (K.got out.new) (first.now ++ second.now))
        (λ e. PutsPart (K.got out.old) (K.got out.new) (first.now ++ second.now) e) }
    ensures count { MatchResult result (λ _. K.faults out.new ≡ K.faults out.old)
        (λ e. SinkCause (K.faults out.old) (K.faults out.new) e) }
{
    match put_text(out, first) {
        Ok(()) => put_text(out, second),
        Err(exit) => Err(exit),
    }
}

// Puts what is written part by part.
fn put_parts<K: Sink>(out: &mut K, written: &PairOut) -> Result<(), Exit>
    ensures bytes { MatchResult result (λ _. Appends (K.got out.old) (K.got out.new) (all_written written.now))
        (λ e. PutsPart (K.got out.old) (K.got out.new) (all_written written.now) e) }
    ensures count { MatchResult result (λ _. K.faults out.new ≡ K.faults out.old)
        (λ e. SinkCause (K.faults out.old) (K.faults out.new) e) }
{
    match put_both(out, written.lines.as_slice(), written.tree.as_slice()) {
        Ok(()) => put_text(out, written.report.as_slice()),
        Err(exit) => Err(exit),
    }
}

fn put_out<K: Sink>(out: &mut K, written: &PairOut) -> Exit
    ensures bytes { PutsEnd (all_written written.now) (exit_where_bad written.now.bad) (K.got out.old) (K.got out.new) result }
    ensures count { SinkCause (K.faults out.old) (K.faults out.new) result }
{
    match put_parts(out, written) {
        Ok(()) => {
            if written.bad {
                Exit::BadInput
            } else {
                Exit::Done
            }
        }
        Err(exit) => exit,
    }
}

/// Runs both ends as a text says: reads the whole input, and then writes what is defined for it. It answers
/// - `Done` where the text is whole,
/// - `BadInput` where a line is refused, which is told behind the lines of the events before it,
/// - `TooLong` where the input has more than 67,108,864 bytes; nothing is written then,
/// - `ReadFault` and `WriteFault` after a fault of the source and of the sink, and `NoMemory` at any place; then what
///   was written is a prefix of the text.
///
/// It takes at most 67,108,865 bytes of the source.
pub fn pair<S: Source, K: Sink>(alloc: Global, src: &mut S, out: &mut K) -> Exit
    ensures output { OfKnown (S.left src.old) (λ bytes. Ends (pair_text bytes) (pair_exit bytes) (K.got out.old)
        (K.got out.new) result) }
    ensures kind { IsOfText result }
    ensures ended { DoneAtEnd (S.left src.old) (S.left src.new) result }
    ensures taken { TakesOnePast (S.left src.old) (S.left src.new) }
    ensures source { SourceCause (S.faults src.old) (S.faults src.new) result }
    ensures sink { SinkCause (K.faults out.old) (K.faults out.new) result }
{
    let input = match take_all(alloc, src, RUN_LIMIT as u64) {
        Ok(input) => input,
        Err(TakeError::Read) => return Exit::ReadFault,
        Err(TakeError::TooLong) => return Exit::TooLong,
        Err(TakeError::Memory) => return Exit::NoMemory,
    };
    match run_pair(alloc, input.as_slice()) {
        Ok(written) => put_out(out, &written),
        Err(_) => Exit::NoMemory,
    }
}
