// What a run puts, and how it ends.
ghost use Rattle.std.specs.Prelude.{◌≡◌, ◌<◌, ◌≤◌, ◌++◌, [], length, IfOk, OnOk, MatchResult};
ghost use Rattle.std.specs.Io.KnownBytes.{Appends};
ghost use Rattle.dm_base.specs.Lines.{CountsTaken, IsFeedless, HasFeed};
ghost use Rattle.dm_tree.specs.Rows.{nodes};
ghost use Rattle.dm_exit.specs.Answers.{IsOfText, DoneAtEnd};
ghost use Rattle.dm_exit.specs.Causes.{SourceCause, SinkCause};
ghost use Rattle.dm_exit.specs.Puts.{PutsPart, PutsEnd, Ends};
ghost use Rattle.dm_texts.specs.Lines.{bad_line};
ghost use Rattle.dm_replay.specs.Output.{tree_and_done, ending_text, ending_exit};
ghost use Rattle.dm_replay.specs.From.{input_to_come, OfInput, ending_at, exit_after, PutsDue, PutsHalt};
ghost use Rattle.dm_replay.specs.From.{PutsDueAndHalt};

use crate::reading::{Halt, read_end};
use dm_base::{Bytes, Fault, LineReason, Lines, Sink, Source};
use dm_exit::{Exit, put_text};
use dm_start::put_tree;
use dm_texts::bad_line;
use dm_tree::Tree;
use std::alloc::Global;

// Where so many bytes of answers wait they are put, also where no more bytes are wanted of the source.
const PIECE: usize = 65_536;

/// Puts the answers that are due: where the source would be asked for more bytes, and where they are many.
pub(crate) fn put_due<K: Sink>(lines: &Lines, out: &mut K, due: &mut Bytes) -> Result<(), Exit>
    ensures bytes { PutsDue (K.got out.old) (K.got out.new) due.old due.new result }
    ensures all { OnOk result (IsFeedless lines.now.pending → due.new ≡ []) }
    ensures few { OnOk result (length due.new < 65536) }
    ensures together { OnOk result (HasFeed lines.now.pending → length due.old < 65536 → due.new ≡ due.old) }
    ensures count { MatchResult result (λ _. K.faults out.new ≡ K.faults out.old)
        (λ e. SinkCause (K.faults out.old) (K.faults out.new) e) }
{
    if lines.has_line() && due.len() < PIECE {
        return Ok(());
    }
    match put_text(out, due.as_slice()) {
        Ok(()) => {}
        Err(exit) => return Err(exit),
    }
    due.cut_to(0);
    Ok(())
}

fn exit_of(fault: Fault) -> Exit
    ensures { result ≡ exit_after fault }
{
    match fault {
        Fault::Failed => Exit::WriteFault,
        Fault::Memory => Exit::NoMemory,
    }
}

/// Ends a run whose trace is whole: puts the tree text and the last line.
pub fn put_whole<K: Sink>(alloc: Global, out: &mut K, tree: &Tree, version: u8) -> Exit
    ensures bytes { PutsEnd (tree_and_done version (nodes tree.now.rows)) Exit.Done (K.got out.old)
        (K.got out.new) result }
    ensures count { SinkCause (K.faults out.old) (K.faults out.new) result }
{
    match put_tree(alloc, out, tree, version) {
        Ok(()) => {}
        Err(fault) => return exit_of(fault),
    }
    match put_text(out, b"done\n") {
        Ok(()) => Exit::Done,
        Err(exit) => exit,
    }
}

// Ends a run at a line that is refused.
fn put_bad<K: Sink>(alloc: Global, out: &mut K, number: u64, reason: LineReason) -> Exit
    ensures bytes { PutsEnd (bad_line number reason) Exit.BadInput (K.got out.old) (K.got out.new) result }
    ensures count { SinkCause (K.faults out.old) (K.faults out.new) result }
{
    match bad_line(alloc, number, reason) {
        Ok(line) => match put_text(out, line.as_slice()) {
            Ok(()) => Exit::BadInput,
            Err(exit) => exit,
        },
        Err(_) => Exit::NoMemory,
    }
}

/// Ends a run that halted before any event.
pub fn put_halt<K: Sink>(alloc: Global, out: &mut K, halt: Halt) -> Exit
    ensures bytes { PutsHalt halt (K.got out.old) (K.got out.new) result }
    ensures count { SinkCause (K.faults out.old) (K.faults out.new) result }
{
    match halt {
        Halt::Bad { number, reason } => put_bad(alloc, out, number, reason),
        Halt::TooLong => Exit::TooLong,
        Halt::Read => Exit::ReadFault,
        Halt::Memory => Exit::NoMemory,
    }
}

/// Ends a run that halted, behind the answers that are due. Where the source failed there are none: it is asked where
/// no line is pending.
pub(crate) fn put_due_and_halt<K: Sink>(alloc: Global, out: &mut K, due: &[u8], halt: Halt) -> Exit
    requires asking { halt ≡ Halt.Read → due.now ≡ [] }
    ensures bytes { PutsDueAndHalt due.now halt (K.got out.old) (K.got out.new) result }
    ensures count { SinkCause (K.faults out.old) (K.faults out.new) result }
{
    if halt == Halt::Read {
        return Exit::ReadFault;
    }
    match put_text(out, due) {
        Ok(()) => put_halt(alloc, out, halt),
        Err(exit) => exit,
    }
}

/// Ends a run behind its `end` line, which is not to have another line behind it: puts the answers that are due before
/// the source is asked, so that all of them were put where it fails.
pub(crate) fn put_end<S: Source, K: Sink>(
    alloc: Global,
    lines: &mut Lines,
    src: &mut S,
    out: &mut K,
    due: &[u8],
    tree: &Tree,
    version: u8,
    number: u64,
) -> Exit
    requires limit { lines.old.taken ≤ 67108865 }
    ensures output { OfInput (input_to_come lines.old (S.left src.old)) (λ i. Ends
        (due.now ++ ending_text version (nodes tree.now.rows) (ending_at number i))
        (ending_exit (ending_at number i)) (K.got out.old) (K.got out.new) result) }
    ensures kind { IsOfText result }
    ensures ended { DoneAtEnd (S.left src.old) (S.left src.new) result }
    ensures answered { result ≡ Exit.ReadFault → Appends (K.got out.old) (K.got out.new) due.now }
    ensures taken { CountsTaken (S.left src.old) (S.left src.new) lines.old.taken lines.new.taken }
    ensures limit { lines.new.taken ≤ 67108865 }
    ensures source { SourceCause (S.faults src.old) (S.faults src.new) result }
    ensures sink { SinkCause (K.faults out.old) (K.faults out.new) result }
{
    match put_text(out, due) {
        Ok(()) => {}
        Err(exit) => return exit,
    }
    match read_end(lines, src, number) {
        Ok(()) => put_whole(alloc, out, tree, version),
        Err(halt) => put_halt(alloc, out, halt),
    }
}
