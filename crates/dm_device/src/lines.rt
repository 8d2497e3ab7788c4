// The lines that a run puts.
ghost use Rattle.std.specs.Prelude.{◌≡◌, ◌++◌, IfOk, MatchResult};
ghost use Rattle.std.specs.Io.KnownBytes.{Appends};
ghost use Rattle.dm_tree.specs.Rows.{nodes};
ghost use Rattle.dm_exit.specs.Causes.{SinkCause};
ghost use Rattle.dm_exit.specs.Puts.{PutsPart};
ghost use Rattle.dm_replay.specs.Output.{tree_and_done};
ghost use Rattle.dm_device.specs.Runs as Spec;

use crate::tally::Word;
use dm_base::{Bytes, Fault, Memory, Sink};
use dm_decimals::put_decimal;
use dm_exit::{Exit, put_text};
use dm_start::put_tree;
use dm_tree::Tree;
use std::alloc::Global;

fn word_text(word: Word) -> &'static [u8]
    ensures { result.now ≡ Spec.word_text word }
{
    match word {
        Word::Finished => b"finished",
        Word::Aborted => b"aborted",
        Word::Denied => b"denied",
        Word::GaveUp => b"gaveup",
        Word::Peer => b"peer",
    }
}

fn session_line(alloc: Global, number: u32, word: Word) -> Result<Bytes, Memory>
    ensures { IfOk result (λ line. line ≡ Spec.session_line number word) }
{
    let mut line = Bytes::of_slice(alloc, b"session ")?;
    put_decimal(&mut line, number as u64)?;
    line.extend(b" ")?;
    line.extend(word_text(word))?;
    line.push(b'\n')?;
    Ok(line)
}

/// Puts how a session ended.
pub(crate) fn put_session<K: Sink>(
    alloc: Global,
    out: &mut K,
    number: u32,
    word: Word,
) -> Result<(), Exit>
    ensures bytes { MatchResult result (λ _. Appends (K.got out.old) (K.got out.new) (Spec.session_line number word))
        (λ e. PutsPart (K.got out.old) (K.got out.new) (Spec.session_line number word) e) }
    ensures count { MatchResult result (λ _. K.faults out.new ≡ K.faults out.old)
        (λ e. SinkCause (K.faults out.old) (K.faults out.new) e) }
{
    match session_line(alloc, number, word) {
        Ok(line) => put_text(out, line.as_slice()),
        Err(_) => Err(Exit::NoMemory),
    }
}

/// Puts the tree, and the last line.
pub(crate) fn put_last<K: Sink>(
    alloc: Global,
    out: &mut K,
    tree: &Tree,
    version: u8,
) -> Result<(), Exit>
    ensures bytes { MatchResult result
        (λ _. Appends (K.got out.old) (K.got out.new) (tree_and_done version (nodes tree.now.rows)))
        (λ e. PutsPart (K.got out.old) (K.got out.new) (tree_and_done version (nodes tree.now.rows)) e) }
    ensures count { MatchResult result (λ _. K.faults out.new ≡ K.faults out.old)
        (λ e. SinkCause (K.faults out.old) (K.faults out.new) e) }
{
    match put_tree(alloc, out, tree, version) {
        Ok(()) => put_text(out, b"done\n"),
        Err(Fault::Failed) => Err(Exit::WriteFault),
        Err(Fault::Memory) => Err(Exit::NoMemory),
    }
}
