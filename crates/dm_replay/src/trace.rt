// A trace, read and answered line by line.
ghost use Rattle.std.specs.Prelude.{◌≡◌, ◌<◌, ◌≤◌, ◌+◌, ◌++◌, ◌^◌, length, IfOk, IfSome, OnOk, OnErr};
ghost use Rattle.dm_base.specs.Outside.{OfKnown};
ghost use Rattle.dm_base.specs.Lines.{room, CountsTaken};
ghost use Rattle.dm_machine.specs.History.{answer_now, next};
ghost use Rattle.dm_exit.specs.Answers.{IsOfText, DoneAtEnd};
ghost use Rattle.dm_exit.specs.Causes.{SourceCause, SinkCause};
ghost use Rattle.dm_replay.specs.Events.{IsEventOf, happening_of};
ghost use Rattle.dm_replay.specs.Trace as Spec;
ghost use Rattle.dm_replay.specs.Input.{TakesOnePast};
ghost use Rattle.dm_start.specs.Start.{told_of};
ghost use Rattle.dm_replay.specs.Output.{Replays, AnswersTaken, answer_text, client_of};
ghost use Rattle.dm_replay.specs.From.{input_to_come, OfInput, EndsTrace, EndsEvents, PutsEvents, CanBegin, events_at};

use crate::answers::step;
use crate::endings::{put_due, put_due_and_halt, put_end, put_halt};
use crate::events::Event;
use crate::reading::{Halt, TraceStart, next_event, read_start};
use dm_auth::Account;
use dm_base::{Bytes, Lines, List, Memory, Sink, Source};
use dm_exit::Exit;
use dm_session::Client;
use std::alloc::Global;

/// The servers of accounts, in their order.
pub fn ids_of(alloc: Global, accounts: &List<Account>) -> Result<List<Bytes>, Memory>
    ensures { IfOk result (λ ids. ids ≡ Spec.servers_of accounts.now) }
{
    let mut ids = List::new(alloc);
    for at in 0..accounts.len() {
        ids.push(accounts.as_slice()[at].server.copy(alloc)?)?;
    }
    Ok(ids)
}

// The line of an answer.
fn line_of(alloc: Global, client: &mut Client, event: &Event) -> Result<Bytes, Memory>
    requires { IsEventOf (length client.old.machine.accounts) event.now }
    ensures line { IfOk result (λ t. IfSome (happening_of event.now)
        (λ e. t ≡ answer_text (answer_now client.old.machine e))) }
    ensures state { OnOk result (IfSome (happening_of event.now)
        (λ e. client.new.machine ≡ next client.old.machine e)) }
{
    let mut line = step(alloc, client, event)?;
    line.push(b'\n')?;
    Ok(line)
}

// Does an event, and adds its answer to those that are due, which aren't many.
fn answer(alloc: Global, client: &mut Client, due: &mut Bytes, event: &Event) -> Result<(), Memory>
    requires account { IsEventOf (length client.old.machine.accounts) event.now }
    requires few { length due.old < 65536 }
    ensures due { OnOk result (IfSome (happening_of event.now)
        (λ e. due.new ≡ due.old ++ answer_text (answer_now client.old.machine e))) }
    ensures state { OnOk result (IfSome (happening_of event.now)
        (λ e. client.new.machine ≡ next client.old.machine e)) }
    ensures err { OnErr result (due.new ≡ due.old) }
{
    let line = line_of(alloc, client, event)?;
    due.extend(line.as_slice())
}

// Answers the events from line `first` on, one by one. Answers to lines that came in one piece are put together, before
// the source is asked for more.
fn answer_events<S: Source, K: Sink>(
    alloc: Global,
    lines: &mut Lines,
    client: &mut Client,
    src: &mut S,
    out: &mut K,
    first: u64,
    version: u8,
    ids: &List<Bytes>,
) -> Exit
    requires number { first + room lines.old < 2 ^ 60 }
    requires limit { lines.old.taken ≤ 67108865 }
    requires accounts { length ids.now ≡ length client.old.machine.accounts }
    ensures output { OfInput (input_to_come lines.old (S.left src.old)) (λ i. EndsTrace version client.old.machine
        (events_at version ids.now first i) (K.got out.old) (K.got out.new) result) }
    ensures answered { result ≡ Exit.ReadFault → PutsEvents client.old.machine (events_at version ids.now first)
        lines.old (S.left src.old) (S.left src.new) (K.got out.old) (K.got out.new) }
    ensures kind { IsOfText result }
    ensures ended { DoneAtEnd (S.left src.old) (S.left src.new) result }
    ensures taken { CountsTaken (S.left src.old) (S.left src.new) lines.old.taken lines.new.taken }
    ensures limit { lines.new.taken ≤ 67108865 }
    ensures source { SourceCause (S.faults src.old) (S.faults src.new) result }
    ensures sink { SinkCause (K.faults out.old) (K.faults out.new) result }
{
    let mut number = first;
    let mut due = Bytes::new(alloc);
    'events: loop {
        match put_due(lines, out, &mut due) {
            Ok(()) => {}
            Err(exit) => return exit,
        }
        let event = match next_event(alloc, lines, src, number, version, ids) {
            Ok(Some(event)) => event,
            Ok(None) => {
                let tree = client.tree();
                return put_end(
                    alloc,
                    lines,
                    src,
                    out,
                    due.as_slice(),
                    tree,
                    version,
                    number + 1,
                );
            }
            Err(halt) => return put_due_and_halt(alloc, out, due.as_slice(), halt),
        };
        match answer(alloc, client, &mut due, &event) {
            Ok(()) => number += 1,
            Err(_) => return put_due_and_halt(alloc, out, due.as_slice(), Halt::Memory),
        }
    }
}

// Answers what stands behind a start section.
fn answer_all<S: Source, K: Sink>(
    alloc: Global,
    lines: &mut Lines,
    src: &mut S,
    out: &mut K,
    started: TraceStart,
) -> Exit
    requires number { started.number + room lines.old < 2 ^ 60 }
    requires limit { lines.old.taken ≤ 67108865 }
    requires client { CanBegin started.start }
    ensures output { EndsEvents started (input_to_come lines.old (S.left src.old)) (K.got out.old) (K.got out.new) result }
    ensures answered { result ≡ Exit.ReadFault → PutsEvents (client_of (told_of started.start))
        (Spec.trace_of started.number (told_of started.start))
        lines.old (S.left src.old) (S.left src.new) (K.got out.old) (K.got out.new) }
    ensures kind { IsOfText result }
    ensures ended { DoneAtEnd (S.left src.old) (S.left src.new) result }
    ensures taken { CountsTaken (S.left src.old) (S.left src.new) lines.old.taken lines.new.taken }
    ensures limit { lines.new.taken ≤ 67108865 }
    ensures source { SourceCause (S.faults src.old) (S.faults src.new) result }
    ensures sink { SinkCause (K.faults out.old) (K.faults out.new) result }
{
    let TraceStart { start, number } = started;
    let version = start.version;
    let ids = match ids_of(alloc, &start.accounts) {
        Ok(ids) => ids,
        Err(_) => return Exit::NoMemory,
    };
    match Client::new(alloc, start.accounts, start.tree, start.limits) {
        Ok(mut client) => answer_events(alloc, lines, &mut client, src, out, number, version, &ids),
        Err(_) => Exit::NoMemory,
    }
}

/// Replays a trace: reads its lines one by one, answers each event, and writes the tree and `done` behind the last.
/// Where the source failed, exactly the answers to the events in the whole lines that were taken were put. It answers
/// - `Done` where the trace is whole,
/// - `BadInput` at the first line that is refused, which is told behind the answers before it,
/// - `TooLong` where no whole line is left in the first 67,108,864 bytes, nor more of the next than a line may have,
///   and another byte comes,
/// - `ReadFault` and `WriteFault` after a fault of the source and of the sink, and `NoMemory` at any place; then what
///   was written is a prefix of the text.
///
/// It takes at most 67,108,865 bytes of the source.
pub fn replay<S: Source, K: Sink>(alloc: Global, src: &mut S, out: &mut K) -> Exit
    ensures output { OfKnown (S.left src.old) (λ bytes. Replays bytes (K.got out.old) (K.got out.new) result) }
    ensures answered { AnswersTaken (S.left src.old) (S.left src.new) (K.got out.old) (K.got out.new) result }
    ensures kind { IsOfText result }
    ensures ended { DoneAtEnd (S.left src.old) (S.left src.new) result }
    ensures taken { TakesOnePast (S.left src.old) (S.left src.new) }
    ensures source { SourceCause (S.faults src.old) (S.faults src.new) result }
    ensures sink { SinkCause (K.faults out.old) (K.faults out.new) result }
{
    let mut lines = Lines::new(alloc);
    match read_start(alloc, &mut lines, src) {
        Ok(started) => answer_all(alloc, &mut lines, src, out, started),
        Err(halt) => put_halt(alloc, out, halt),
    }
}
