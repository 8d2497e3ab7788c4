ghost use Rattle.std.specs.Prelude.{◌<◌};

// One table of runs over sources and sinks in memory.
mod loopback;
mod managing;
mod reaching;
mod serving;
mod texts;

use crate::run::run;
use crate::tests::reaching::reach_of;
use crate::tests::texts::{BEHIND, FRONT, TREE_BEHIND, TREE_FRONT, Text, bytes_of};
use anyhow::Result;
use dm_base::{Bytes, List, MemSink, MemSource};
use dm_exit::Exit;
use std::alloc::Global;

/// A run, and what it must answer and write.
struct Row {
    name: &'static str,
    words: &'static [&'static str],
    input: Text,
    piece: usize,
    source_fails: &'static [u64],
    sink_fails: &'static [u64],
    exit: Exit,
    output: Text,
}

const PLAIN: Row = Row {
    name: "one Get, in pieces of 4,096 bytes",
    words: &["replay"],
    input: Text::OneGet,
    piece: 4096,
    source_fails: &[],
    sink_fails: &[],
    exit: Exit::Done,
    output: Text::OneGetAnswered,
};

const ROWS: [Row; 35] = [
    PLAIN,
    Row {
        name: "one Get, in pieces of 1",
        piece: 1,
        ..PLAIN
    },
    Row {
        name: "one Get, in pieces of 7",
        piece: 7,
        ..PLAIN
    },
    Row {
        name: "one Get, in pieces of 64",
        piece: 64,
        ..PLAIN
    },
    Row {
        name: "an empty trace",
        input: Text::Nothing,
        exit: Exit::BadInput,
        output: Text::BadCut,
        ..PLAIN
    },
    Row {
        name: "an unknown word",
        words: &["play"],
        exit: Exit::Usage,
        output: Text::Usage,
        ..PLAIN
    },
    Row {
        name: "a word with a hyphen",
        words: &["-replay"],
        exit: Exit::Usage,
        output: Text::Usage,
        ..PLAIN
    },
    Row {
        name: "a second word",
        words: &["replay", "-v"],
        exit: Exit::Usage,
        output: Text::Usage,
        ..PLAIN
    },
    Row {
        name: "no word",
        words: &[],
        exit: Exit::Usage,
        output: Text::Usage,
        ..PLAIN
    },
    Row {
        name: "a source that fails at its first call",
        source_fails: &[1],
        exit: Exit::ReadFault,
        output: Text::Nothing,
        ..PLAIN
    },
    Row {
        name: "a source that fails at its second call",
        piece: 64,
        source_fails: &[2],
        exit: Exit::ReadFault,
        output: Text::Nothing,
        ..PLAIN
    },
    Row {
        name: "a source that fails at its third call",
        piece: 64,
        source_fails: &[3],
        exit: Exit::ReadFault,
        output: Text::Nothing,
        ..PLAIN
    },
    Row {
        name: "a source that fails at its fourth call, inside the message line",
        piece: 64,
        source_fails: &[4],
        exit: Exit::ReadFault,
        output: Text::FirstAnswer,
        ..PLAIN
    },
    Row {
        name: "a source that fails right after the open line",
        piece: 129,
        source_fails: &[2],
        exit: Exit::ReadFault,
        output: Text::FirstAnswer,
        ..PLAIN
    },
    Row {
        name: "a source that fails right after the message line",
        piece: 313,
        source_fails: &[2],
        exit: Exit::ReadFault,
        output: Text::BothAnswers,
        ..PLAIN
    },
    Row {
        name: "a source of a trace that isn't asked behind its end",
        source_fails: &[3],
        ..PLAIN
    },
    Row {
        name: "a sink that fails at its first call",
        sink_fails: &[1],
        exit: Exit::WriteFault,
        output: Text::Nothing,
        ..PLAIN
    },
    Row {
        name: "a sink that fails at its second call, behind both answers",
        sink_fails: &[2],
        exit: Exit::WriteFault,
        output: Text::BothAnswers,
        ..PLAIN
    },
    Row {
        name: "a sink that fails at its third call, behind the tree",
        sink_fails: &[3],
        exit: Exit::WriteFault,
        output: Text::AllButDone,
        ..PLAIN
    },
    Row {
        name: "a usage line that is not written",
        words: &["play"],
        sink_fails: &[1],
        exit: Exit::WriteFault,
        output: Text::Nothing,
        ..PLAIN
    },
    Row {
        name: "a repeated Get",
        input: Text::Repeated,
        output: Text::RepeatedAnswered,
        ..PLAIN
    },
    Row {
        name: "a Get of a leaf that is not there",
        input: Text::Missing,
        output: Text::MissingAnswered,
        ..PLAIN
    },
    Row {
        name: "sixteen leaves",
        input: Text::Sixteen,
        output: Text::SixteenAnswered,
        ..PLAIN
    },
    Row {
        name: "a Get that is shown",
        words: &["show"],
        input: Text::Get,
        output: Text::GetListed,
        ..PLAIN
    },
    Row {
        name: "a Get that is checked, in pieces of 7",
        words: &["check"],
        input: Text::Get,
        piece: 7,
        output: Text::GetChecked,
        ..PLAIN
    },
    Row {
        name: "a source of a Get to be shown that isn't asked behind its end",
        words: &["show"],
        input: Text::Get,
        source_fails: &[3],
        output: Text::GetListed,
        ..PLAIN
    },
    Row {
        name: "a source of a Get to be checked that isn't asked behind its end",
        words: &["check"],
        input: Text::Get,
        source_fails: &[3],
        output: Text::GetChecked,
        ..PLAIN
    },
    Row {
        name: "a workload, which reads nothing",
        words: &["bench", "7", "20", "5"],
        source_fails: &[1],
        output: Text::Workload,
        ..PLAIN
    },
    Row {
        name: "the line of a workload that is not written",
        words: &["bench", "7", "20", "5"],
        sink_fails: &[1],
        exit: Exit::WriteFault,
        output: Text::Nothing,
        ..PLAIN
    },
    Row {
        name: "a workload without leaves",
        words: &["bench", "7", "0", "5"],
        exit: Exit::Usage,
        output: Text::Usage,
        ..PLAIN
    },
    Row {
        name: "both ends, in pieces of 7",
        words: &["pair"],
        input: Text::Both,
        piece: 7,
        output: Text::BothRun,
        ..PLAIN
    },
    Row {
        name: "both ends, over a source that fails behind the last line",
        words: &["pair"],
        input: Text::Both,
        source_fails: &[2],
        exit: Exit::ReadFault,
        output: Text::Nothing,
        ..PLAIN
    },
    Row {
        name: "a source for both ends that isn't asked behind its end",
        words: &["pair"],
        input: Text::Both,
        source_fails: &[3],
        output: Text::BothRun,
        ..PLAIN
    },
    Row {
        name: "what both ends came to is not written",
        words: &["pair"],
        input: Text::Both,
        sink_fails: &[1],
        exit: Exit::WriteFault,
        output: Text::Nothing,
        ..PLAIN
    },
    Row {
        name: "a message before any session",
        input: Text::NoOpen,
        output: Text::NoOpenAnswered,
        ..PLAIN
    },
];

// Runs a row on an input, and says whether it answers as the row says and writes the output.
fn writes(alloc: Global, row: &Row, input: &[u8], output: &[u8]) -> Result<bool>
    requires { 0 < row.now.piece }
{
    let mut words = Vec::new(alloc);
    for word in row.words {
        words.push(String::from_str(alloc, word)?)?;
    }
    let mut source = MemSource::new(
        Bytes::of_vec(Vec::from_slice(alloc, input)?),
        row.piece,
        List::of_vec(Vec::from_slice(alloc, row.source_fails)?),
    );
    let mut sink = MemSink::new(alloc, List::of_vec(Vec::from_slice(alloc, row.sink_fails)?));
    let mut reach = reach_of(alloc, List::new(alloc));
    let exit = run(alloc, words.as_slice(), &mut source, &mut sink, &mut reach);
    Ok(exit == row.exit && sink.bytes() == output)
}

#[test]
fn each_run_writes_its_row(rt: HostRuntime) -> Result<()> {
    for row in &ROWS {
        assert!(rt; row.piece > 0, "{}", row.name);
        let passed = writes(rt.alloc(), row, bytes_of(row.input), bytes_of(row.output))?;
        assert!(rt; passed, "{}", row.name);
    }
    Ok(())
}

const ROWS_OF_DIGITS: [Row; 3] = [
    Row {
        name: "a line longer than any piece, in pieces of 4,096",
        ..PLAIN
    },
    Row {
        name: "a line longer than any piece, in pieces of 64",
        piece: 64,
        ..PLAIN
    },
    Row {
        name: "a line longer than any piece, in pieces of 1",
        piece: 1,
        ..PLAIN
    },
];

// The digits of a value of 2,500 bytes between two texts.
fn with_digits(alloc: Global, front: &[u8], behind: &[u8]) -> Result<Vec<u8>> {
    let mut text = Vec::from_slice(alloc, front)?;
    for _ in 0..2_500 {
        text.extend_from_slice(b"78")?;
    }
    text.extend_from_slice(behind)?;
    Ok(text)
}

#[test]
fn line_longer_than_any_piece(rt: HostRuntime) -> Result<()> {
    let input = with_digits(rt.alloc(), FRONT, BEHIND)?;
    let output = with_digits(rt.alloc(), TREE_FRONT, TREE_BEHIND)?;
    for row in &ROWS_OF_DIGITS {
        assert!(rt; row.piece > 0, "{}", row.name);
        let passed = writes(rt.alloc(), row, input.as_slice(), output.as_slice())?;
        assert!(rt; passed, "{}", row.name);
    }
    Ok(())
}

const FOUR_EVENTS: [Row; 1] = [Row {
    name: "a source that fails right behind the fourth event",
    source_fails: &[2],
    exit: Exit::ReadFault,
    ..PLAIN
}];

// The trace of a repeated Get, with a loss in place of its end.
fn four_events(alloc: Global) -> Result<Vec<u8>> {
    let trace = bytes_of(Text::Repeated);
    let (events, _) = trace.split_at(trace.len().saturating_sub(4));
    let mut text = Vec::from_slice(alloc, events)?;
    text.extend_from_slice(b"loss\n")?;
    Ok(text)
}

// Its last message comes three times.
fn four_answers(alloc: Global) -> Result<Vec<u8>> {
    let both = bytes_of(Text::BothAnswers);
    let (_, second) = both.split_at(bytes_of(Text::FirstAnswer).len().min(both.len()));
    let (_, message) = second.split_at(second.len().min(4));
    let mut text = Vec::from_slice(alloc, both)?;
    for word in [b"kept".as_slice(), b"again".as_slice()] {
        text.extend_from_slice(word)?;
        text.extend_from_slice(message)?;
    }
    Ok(text)
}

#[test]
fn each_event_before_a_fault_is_answered(rt: HostRuntime) -> Result<()> {
    let input = four_events(rt.alloc())?;
    let output = four_answers(rt.alloc())?;
    for row in &FOUR_EVENTS {
        assert!(rt; row.piece > input.len());
        let passed = writes(rt.alloc(), row, input.as_slice(), output.as_slice())?;
        assert!(rt; passed, "{}", row.name);
    }
    Ok(())
}
