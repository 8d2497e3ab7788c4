// What is answered to one message.
ghost use Rattle.std.specs.Prelude.{◌≡◌};
ghost use Rattle.dm_base.specs.Outside.{OfKnown};
ghost use Rattle.dm_exit.specs.Answers.{IsOfText, DoneAtEnd};
ghost use Rattle.dm_exit.specs.Causes.{SourceCause, SinkCause};
ghost use Rattle.dm_exit.specs.Puts.{PutsEnd, Ends};
ghost use Rattle.dm_check.specs.Answers as Spec;
ghost use Rattle.dm_check.specs.Answers.{show_text, check_text, message_exit};
ghost use Rattle.dm_check.specs.Kept.{read_in};
ghost use Rattle.dm_check.specs.Receiving.{TakesNoMore, Unsettled};

use crate::lines::{check_line, show_lines};
use crate::message::{Received, receive};
use dm_base::{Fault, Sink, Source, put_all};
use dm_exit::Exit;
use std::alloc::Global;

// Puts the text of what was received.
fn put_answer<K: Sink>(out: &mut K, text: &[u8], received: &Received) -> Exit
    ensures bytes { PutsEnd text.now (Spec.exit_of (read_in received.now)) (K.got out.old) (K.got out.new) result }
    ensures count { SinkCause (K.faults out.old) (K.faults out.new) result }
{
    match put_all(out, text) {
        Ok(()) => match received {
            Received::Message { .. } => Exit::Done,
            Received::Refused(_) => Exit::BadInput,
        },
        Err(Fault::Failed) => Exit::WriteFault,
        Err(Fault::Memory) => Exit::NoMemory,
    }
}

/// Writes the listing of the message that the source has, or why it has none. It answers
/// - `Done` where the bytes spell a message,
/// - `BadInput` where they are refused,
/// - `ReadFault` and `WriteFault` after a fault of the source and of the sink, and `NoMemory` at any place; then what
///   was written is a prefix of the text. The source isn't asked behind the piece that settles a refusal.
pub fn show<S: Source, K: Sink>(alloc: Global, src: &mut S, out: &mut K) -> Exit
    ensures output { OfKnown (S.left src.old) (λ bytes. Ends (show_text bytes) (message_exit bytes) (K.got out.old)
        (K.got out.new) result) }
    ensures kind { IsOfText result }
    ensures ended { DoneAtEnd (S.left src.old) (S.left src.new) result }
    ensures taken { TakesNoMore (S.left src.old) (S.left src.new) }
    ensures asked { result ≡ Exit.ReadFault → Unsettled (S.left src.old) (S.left src.new) }
    ensures source { SourceCause (S.faults src.old) (S.faults src.new) result }
    ensures sink { SinkCause (K.faults out.old) (K.faults out.new) result }
{
    match receive(alloc, src) {
        Ok(received) => match show_lines(alloc, &received) {
            Ok(text) => put_answer(out, text.as_slice(), &received),
            Err(_) => Exit::NoMemory,
        },
        Err(Fault::Failed) => Exit::ReadFault,
        Err(Fault::Memory) => Exit::NoMemory,
    }
}

/// Writes the length of the message that the source has, the length of its canonical spelling and whether the two are
/// the same bytes, or why it has none. It answers as `show` does.
pub fn check<S: Source, K: Sink>(alloc: Global, src: &mut S, out: &mut K) -> Exit
    ensures output { OfKnown (S.left src.old) (λ bytes. Ends (check_text bytes) (message_exit bytes) (K.got out.old)
        (K.got out.new) result) }
    ensures kind { IsOfText result }
    ensures ended { DoneAtEnd (S.left src.old) (S.left src.new) result }
    ensures taken { TakesNoMore (S.left src.old) (S.left src.new) }
    ensures asked { result ≡ Exit.ReadFault → Unsettled (S.left src.old) (S.left src.new) }
    ensures source { SourceCause (S.faults src.old) (S.faults src.new) result }
    ensures sink { SinkCause (K.faults out.old) (K.faults out.new) result }
{
    match receive(alloc, src) {
        Ok(received) => match check_line(alloc, &received) {
            Ok(line) => put_answer(out, line.as_slice(), &received),
            Err(_) => Exit::NoMemory,
        },
        Err(Fault::Failed) => Exit::ReadFault,
        Err(Fault::Memory) => Exit::NoMemory,
    }
}
