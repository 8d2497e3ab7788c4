// The lines behind the start section.
ghost use Rattle.std.specs.Prelude.{◌≡◌};
ghost use Rattle.dm_base.specs.Fields.{parts};
ghost use Rattle.dm_replay.specs.Events as Spec;
ghost use Rattle.dm_replay.specs.Events.{Reads, event_of};

use dm_base::{Bytes, FieldForm, LineReason, List, Memory, Nonce, hex_bytes, is_field, nonce, num};
use dm_fields::{
    BAD_FIELDS, BAD_WORD, LineError, begins_with, four_fields, three_fields, two_fields,
};
use dm_machine::Initiator;
use dm_start::heads::clock_in;
use dm_tree::Stamp;
use std::alloc::Global;

/// What a line behind the start section says.
#[derive(Drop)]
pub enum Event {
    /// A session begins, with the account of this place.
    Open {
        account: usize,
        kind: Initiator,
        session: u32,
    },
    /// The bytes of a message come. A challenge tells the nonce.
    Msg {
        nonce: Nonce,
        bytes: Bytes,
    },
    /// No reply came.
    Loss,
    /// The update that runs ended well, or failed.
    Act(bool),
    /// The clock is set; only in version 2.
    Clock(Stamp),
    /// The trace ends.
    End,
}

impl Event {
    /// Whether the trace ends.
    pub fn is_end(&self) -> bool
        ensures { result ≡ Spec.is_end self.now }
    {
        match self {
            Event::End => true,
            Event::Open { .. } => false,
            Event::Msg { .. } => false,
            Event::Loss => false,
            Event::Act(_) => false,
            Event::Clock(_) => false,
        }
    }
}

fn kind_of(text: &[u8]) -> Option<Initiator>
    ensures { result ≡ Spec.kind_of text.now }
{
    if text == b"server".as_slice() {
        Some(Initiator::ByServer)
    } else if text == b"client".as_slice() {
        Some(Initiator::ByClient)
    } else {
        None
    }
}

// A session's number, 1 to 4,294,967,295.
fn session_of(text: &[u8]) -> Option<u32>
    ensures { result ≡ Spec.session_in_text text.now }
{
    let number = num(text)?;
    if 0 < number && number < 1 << 32 {
        Some(number as u32)
    } else {
        None
    }
}

// Where a server stands among the accounts.
fn place_of(ids: &List<Bytes>, server: &[u8]) -> Option<usize>
    ensures { result ≡ Spec.account_place ids.now server.now }
{
    for at in 0..ids.len() {
        if ids.as_slice()[at].as_slice() == server {
            return Some(at);
        }
    }
    None
}

// `open ID KIND NUM`
fn open_in(ids: &List<Bytes>, line: &[u8]) -> Result<Event, LineError>
    ensures { Reads (Spec.open_in ids.now (parts line.now)) result }
{
    let Some((_, server, kind, number)) = four_fields(line) else {
        return Err(BAD_FIELDS);
    };
    let (Some(kind), Some(session)) = (kind_of(kind), session_of(number)) else {
        return Err(BAD_FIELDS);
    };
    if !is_field(FieldForm::Id, server) {
        return Err(BAD_FIELDS);
    }
    match place_of(ids, server) {
        Some(account) => Ok(Event::Open {
            account,
            kind,
            session,
        }),
        None => Err(LineError::Bad(LineReason::Account)),
    }
}

// `msg NONCE HEX`
fn msg_in(alloc: Global, line: &[u8]) -> Result<Event, LineError>
    ensures { Reads (Spec.msg_in (parts line.now)) result }
{
    let Some((_, challenge, digits)) = three_fields(line) else {
        return Err(BAD_FIELDS);
    };
    let Some(nonce) = nonce(challenge) else {
        return Err(BAD_FIELDS);
    };
    match hex_bytes(alloc, digits)? {
        Some(bytes) => Ok(Event::Msg { nonce, bytes }),
        None => Err(BAD_FIELDS),
    }
}

// `act ok` and `act fail`
fn act_in(line: &[u8]) -> Result<Event, LineError>
    ensures { Reads (Spec.act_in line.now) result }
{
    if line == b"act ok".as_slice() {
        Ok(Event::Act(true))
    } else if line == b"act fail".as_slice() {
        Ok(Event::Act(false))
    } else {
        Err(BAD_FIELDS)
    }
}

// `clock STAMP`
fn clock_event(line: &[u8]) -> Result<Event, LineError>
    ensures { Reads (Spec.clock_event (parts line.now)) result }
{
    match clock_in(line) {
        Some(stamp) => Ok(Event::Clock(stamp)),
        None => Err(BAD_FIELDS),
    }
}

// A line that is its word alone.
fn alone(word: &[u8], line: &[u8], event: Event) -> Result<Event, LineError>
    ensures { Reads (Spec.alone word.now line.now event) result }
{
    if line == word {
        Ok(event)
    } else {
        Err(BAD_FIELDS)
    }
}

/// Reads a line behind the start section of a trace of version 1 or 2, where `ids` are the servers of its accounts in
/// their order. `Bad` comes exactly with the first reason that holds:
/// - `Word` where another word stands in front than `open`, `msg`, `loss`, `act`, `end` and, in version 2, `clock`,
/// - `Fields` where the number or the form of the fields is another,
/// - `Account` where no account has the server that a session is opened with.
#[tactic(auto, unfolding(crate::specs::Events::event_of))]
pub fn read_event(
    alloc: Global,
    text: &[u8],
    version: u8,
    ids: &List<Bytes>,
) -> Result<Event, LineError>
    ensures { Reads (event_of version ids.now text.now) result }
{
    if begins_with(b"open", text) {
        open_in(ids, text)
    } else if begins_with(b"msg", text) {
        msg_in(alloc, text)
    } else if begins_with(b"loss", text) {
        alone(b"loss", text, Event::Loss)
    } else if begins_with(b"act", text) {
        act_in(text)
    } else if version == 2 && begins_with(b"clock", text) {
        clock_event(text)
    } else if begins_with(b"end", text) {
        alone(b"end", text, Event::End)
    } else {
        Err(BAD_WORD)
    }
}
