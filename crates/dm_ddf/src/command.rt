// The commands.
ghost use Rattle.dm_texts.specs.Lines.{bad_line as bad_line_of};
ghost use Rattle.dm_base.specs.Outside.{OfKnown};
ghost use Rattle.dm_exit.specs.Answers.{IsOfText, DoneAtEnd};
ghost use Rattle.dm_exit.specs.Causes.{SourceCause, SinkCause};
ghost use Rattle.dm_exit.specs.Puts.{PutsEnd, Ends};
ghost use Rattle.dm_ddf.specs.Texts.{conform_of, make_of, text_said, exit_of_text};
ghost use Rattle.dm_ddf.specs.Answered.{AnsweredAs, TakesOneMore};

use crate::errors::DdfError;
use crate::texts::{conform_text, make_text};
use dm_base::{Bytes, LineReason, RUN_LIMIT, Sink, Source, TakeError, take_all};
use dm_exit::{Exit, put_text};
use dm_texts::bad_line;
use std::alloc::Global;

fn put_bad<K: Sink>(alloc: Global, out: &mut K, line: u64, reason: LineReason) -> Exit
    ensures bytes { PutsEnd (bad_line_of line reason) Exit.BadInput (K.got out.old) (K.got out.new) result }
    ensures count { SinkCause (K.faults out.old) (K.faults out.new) result }
{
    match bad_line(alloc, line, reason) {
        Ok(text) => match put_text(out, text.as_slice()) {
            Ok(()) => Exit::BadInput,
            Err(exit) => exit,
        },
        Err(_) => Exit::NoMemory,
    }
}

fn put_told<K: Sink>(out: &mut K, text: &[u8]) -> Exit
    ensures bytes { PutsEnd text.now Exit.Done (K.got out.old) (K.got out.new) result }
    ensures count { SinkCause (K.faults out.old) (K.faults out.new) result }
{
    match put_text(out, text) {
        Ok(()) => Exit::Done,
        Err(exit) => exit,
    }
}

// Puts what is told of a text, or which of its lines is refused.
fn put_answer<K: Sink>(alloc: Global, out: &mut K, told: Result<Bytes, DdfError>) -> Exit
    ensures bytes { AnsweredAs told (K.got out.old) (K.got out.new) result }
    ensures count { SinkCause (K.faults out.old) (K.faults out.new) result }
{
    match told {
        Ok(text) => put_told(out, text.as_slice()),
        Err(DdfError::Bad { line, reason }) => put_bad(alloc, out, line, reason),
        Err(DdfError::Memory) => Exit::NoMemory,
    }
}

/// Tells whether a tree conforms to a description: reads the whole input, a description, the lines of a trace of either
/// version up to `begin`, and `end`; and writes `conforms`, or `breaks` with the first node that breaks it and how, and
/// `done`. It answers
/// - `Done` where the text is whole,
/// - `BadInput` where a line is refused, which alone is told,
/// - `TooLong` where the input has more than 67,108,864 bytes; nothing is written then,
/// - `ReadFault` and `WriteFault` after a fault of the source and of the sink, and `NoMemory` at any place; then what
///   was written is a prefix of the text.
///
/// It takes at most 67,108,865 bytes of the source.
pub fn conform<S: Source, K: Sink>(alloc: Global, src: &mut S, out: &mut K) -> Exit
    ensures output { OfKnown (S.left src.old) (λ bytes. Ends (text_said conform_of bytes) (exit_of_text conform_of
        bytes)
        (K.got out.old) (K.got out.new) result) }
    ensures kind { IsOfText result }
    ensures ended { DoneAtEnd (S.left src.old) (S.left src.new) result }
    ensures taken { TakesOneMore (S.left src.old) (S.left src.new) }
    ensures source { SourceCause (S.faults src.old) (S.faults src.new) result }
    ensures sink { SinkCause (K.faults out.old) (K.faults out.new) result }
{
    let input = match take_all(alloc, src, RUN_LIMIT as u64) {
        Ok(input) => input,
        Err(TakeError::Read) => return Exit::ReadFault,
        Err(TakeError::TooLong) => return Exit::TooLong,
        Err(TakeError::Memory) => return Exit::NoMemory,
    };
    put_answer(alloc, out, conform_text(alloc, input.as_slice()))
}

/// Makes the tree that a description asks for: reads the whole input, a description, and writes the tree text
/// of version 1 and `done`. It answers as `conform` does, and takes no more of the source.
pub fn make<S: Source, K: Sink>(alloc: Global, src: &mut S, out: &mut K) -> Exit
    ensures output { OfKnown (S.left src.old) (λ bytes. Ends (text_said make_of bytes) (exit_of_text make_of bytes)
        (K.got out.old) (K.got out.new) result) }
    ensures kind { IsOfText result }
    ensures ended { DoneAtEnd (S.left src.old) (S.left src.new) result }
    ensures taken { TakesOneMore (S.left src.old) (S.left src.new) }
    ensures source { SourceCause (S.faults src.old) (S.faults src.new) result }
    ensures sink { SinkCause (K.faults out.old) (K.faults out.new) result }
{
    let input = match take_all(alloc, src, RUN_LIMIT as u64) {
        Ok(input) => input,
        Err(TakeError::Read) => return Exit::ReadFault,
        Err(TakeError::TooLong) => return Exit::TooLong,
        Err(TakeError::Memory) => return Exit::NoMemory,
    };
    put_answer(alloc, out, make_text(alloc, input.as_slice()))
}
