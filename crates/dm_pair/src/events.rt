// The events of both ends.
ghost use Rattle.std.specs.Prelude.{◌≡◌, length, IfOk};
ghost use Rattle.std.specs.List.{list_all};
ghost use Rattle.std.specs.Char.{is_ascii_digit};
ghost use Rattle.dm_base.specs.Fields.{parts, is_numeral as is_numeral_text};
ghost use Rattle.dm_pair.specs.Events as Spec;
ghost use Rattle.dm_pair.specs.Events.{pair_event_of, IsPairEvent};
ghost use Rattle.dm_replay.specs.Events.{Reads};

use dm_base::{Bytes, LineReason, List, num};
use dm_fields::{BAD_FIELDS, BAD_WORD, LineError, begins_with, two_fields};
use dm_machine::Initiator;
use dm_replay::events::{Event as TraceEvent, read_event as read_trace_event};
use std::alloc::Global;

/// What a line behind the job says.
#[derive(Clone, Copy, Debug, PartialEq, Eq)]
pub enum PairEvent {
    /// The client begins a session with the account of this place.
    Open {
        account: usize,
        kind: Initiator,
        session: u32,
    },
    /// The client's message of this number, from 1, comes to the server.
    Up(usize),
    /// The server's message of this number, from 1, comes to the client.
    Down(usize),
    /// No reply came to the client.
    Loss,
    /// The update that runs at the client ended well, or failed.
    Act(bool),
    /// So many rounds, 1 to 100,000: in each the client's last message comes to the server, and then the server's to
    /// the client.
    Run(u32),
    /// The text ends.
    End,
}

// The most rounds that one line may ask for.
const MOST_ROUNDS: u64 = 100_000;

fn all_digits(text: &[u8]) -> bool
    ensures { result ≡ list_all is_ascii_digit text.now }
{
    text.iter().all(|b| b.is_ascii_digit())
}

// A number in decimal without a leading zero, however great it is.
fn is_numeral(text: &[u8]) -> bool
    ensures { result ≡ is_numeral_text text.now }
{
    !text.is_empty() && all_digits(text) && (text.len() == 1 || text[0] != b'0')
}

// The number of a message, of which so many were sent.
fn sent_number(count: usize, text: &[u8]) -> Result<usize, LineError>
    ensures { Reads (Spec.sent_number count text.now) result }
{
    if !is_numeral(text) {
        return Err(BAD_FIELDS);
    }
    match num(text) {
        Some(number) if 0 < number && number <= count as u64 => Ok(number as usize),
        Some(_) => Err(LineError::Bad(LineReason::Message)),
        None => Err(LineError::Bad(LineReason::Message)),
    }
}

// `up NUM`
fn up_in(ups: usize, line: &[u8]) -> Result<PairEvent, LineError>
    ensures { Reads (Spec.up_in ups (parts line.now)) result }
{
    let Some((_, number)) = two_fields(line) else {
        return Err(BAD_FIELDS);
    };
    match sent_number(ups, number) {
        Ok(number) => Ok(PairEvent::Up(number)),
        Err(error) => Err(error),
    }
}

// `down NUM`
fn down_in(downs: usize, line: &[u8]) -> Result<PairEvent, LineError>
    ensures { Reads (Spec.down_in downs (parts line.now)) result }
{
    let Some((_, number)) = two_fields(line) else {
        return Err(BAD_FIELDS);
    };
    match sent_number(downs, number) {
        Ok(number) => Ok(PairEvent::Down(number)),
        Err(error) => Err(error),
    }
}

// `run NUM`
fn run_in(line: &[u8]) -> Result<PairEvent, LineError>
    ensures { Reads (Spec.run_in (parts line.now)) result }
{
    let Some((_, number)) = two_fields(line) else {
        return Err(BAD_FIELDS);
    };
    match num(number) {
        Some(rounds) if 0 < rounds && rounds <= MOST_ROUNDS => Ok(PairEvent::Run(rounds as u32)),
        Some(_) => Err(BAD_FIELDS),
        None => Err(BAD_FIELDS),
    }
}

// An event of a trace that is one of both ends too.
fn of_trace(event: &TraceEvent) -> Result<PairEvent, LineError>
    ensures { Reads (Spec.of_trace event.now) result }
{
    match event {
        TraceEvent::Open {
            account,
            kind,
            session,
        } => Ok(PairEvent::Open {
            account: *account,
            kind: *kind,
            session: *session,
        }),
        TraceEvent::Loss => Ok(PairEvent::Loss),
        TraceEvent::Act(ok) => Ok(PairEvent::Act(*ok)),
        TraceEvent::End => Ok(PairEvent::End),
        TraceEvent::Msg { .. } => Err(BAD_WORD),
        TraceEvent::Clock(_) => Err(BAD_WORD),
    }
}

// A line that a trace of version 1 may have too.
fn trace_line(alloc: Global, ids: &List<Bytes>, line: &[u8]) -> Result<PairEvent, LineError>
    ensures { Reads (Spec.trace_line ids.now line.now) result }
{
    if begins_with(b"msg", line) {
        return Err(BAD_WORD);
    }
    match read_trace_event(alloc, line, 1, ids) {
        Ok(event) => of_trace(&event),
        Err(error) => Err(error),
    }
}

/// Reads a line behind the job, where `ids` are the servers of the client's accounts in their order, and so many
/// messages were sent up and down. `Bad` comes exactly with the first reason that holds:
/// - `Word` where another word stands in front than `open`, `up`, `down`, `loss`, `act`, `run` and `end`,
/// - `Fields` where the number or the form of the fields is another,
/// - `Account` where no account has the server that a session is opened with,
/// - `Message` where no message of this number was sent.
#[tactic(auto, unfolding(crate::specs::Events::pair_event_of))]
pub fn read_event(
    alloc: Global,
    ids: &List<Bytes>,
    ups: usize,
    downs: usize,
    line: &[u8],
) -> Result<PairEvent, LineError>
    ensures said { Reads (pair_event_of ids.now ups downs line.now) result }
    ensures range { IfOk result (IsPairEvent (length ids.now) ups downs) }
{
    if begins_with(b"up", line) {
        up_in(ups, line)
    } else if begins_with(b"down", line) {
        down_in(downs, line)
    } else if begins_with(b"run", line) {
        run_in(line)
    } else {
        trace_line(alloc, ids, line)
    }
}
