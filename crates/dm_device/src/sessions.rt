// The exchanges of one session.
ghost use Rattle.std.specs.Prelude.{◌≡◌, ◌<◌, ◌≤◌, List, ℕ, length, true, option_map, IfOk, OnOk};
ghost use Rattle.dm_machine.specs.Machine.{Machine};
ghost use Rattle.dm_outside.specs.Calls.{IsIdle};
ghost use Rattle.dm_device.specs.Exchanges.{Exchanges, ExchangeCounts};
ghost use Rattle.dm_device.specs.Outsides.{OfTold};
ghost use Rattle.dm_device.specs.Sessions.{IsWithinLimits, asks, request_of};
ghost use Rattle.dm_device.specs.Sessions as Spec;
ghost use Rattle.dm_device.specs.Holding.{going_at, turned_by, SpendsMore, TurnGoes, TurnDoes, IsBlamed, GivesUpAt};
ghost use Rattle.dm_device.specs.Holding.{SessionHolds};
ghost use Rattle.dm_device.specs.Holding.{SessionCounts};

use crate::exchanging::{ReplyHeard, exchange};
use crate::paths::path_of;
use crate::tally::{Tally, Word};
use dm_base::{Bytes, Memory};
use dm_machine::End;
use dm_outside::{Dialer, Nonces};
use dm_session::{Answer, Client};
use std::alloc::Global;

const MOST_LOST: u32 = 5;

const MOST_ACCEPTED: u32 = 100_000;

// An exchange was lost.
fn lose(tally: &mut Tally, blamed: bool) -> Option<Word>
    requires { IsWithinLimits tally.old }
    ensures word { result ≡ Spec.word_of_loss tally.old blamed }
    ensures tally { tally.new ≡ Spec.after_loss tally.old blamed }
    ensures goes { SpendsMore tally.old tally.new result }
    ensures blames { blamed ≡ true → IsBlamed result }
{
    tally.lost += 1;
    tally.blamed = tally.blamed || blamed;
    if tally.lost < MOST_LOST {
        None
    } else if tally.blamed {
        Some(Word::Peer)
    } else {
        Some(Word::GaveUp)
    }
}

// A message was accepted, and the session goes on.
fn accept(tally: &mut Tally) -> Option<Word>
    requires { IsWithinLimits tally.old }
    ensures word { result ≡ Spec.word_of_accept tally.old }
    ensures tally { tally.new ≡ Spec.after_accept tally.old }
    ensures goes { SpendsMore tally.old tally.new result }
    ensures blames { IsBlamed result }
{
    tally.lost = 0;
    tally.blamed = false;
    tally.accepted += 1;
    if tally.accepted < MOST_ACCEPTED {
        None
    } else {
        Some(Word::Peer)
    }
}

fn word_of_end(end: End) -> Word
    ensures word { result ≡ Spec.word_of_end end }
    ensures blames { IsBlamed (Some result) }
{
    match end {
        End::Finished => Word::Finished,
        End::Aborted => Word::Aborted,
        End::Denied => Word::Denied,
    }
}

// A body was answered so.
fn weigh(tally: &mut Tally, answer: Answer) -> Option<Word>
    requires { IsWithinLimits tally.old }
    ensures goes { SpendsMore tally.old tally.new result }
    ensures turns { (c : Machine) (ns : List (List ℕ))
        → turned_by (going_at c tally.old ns) answer ≡ record { going = going_at c tally.new ns; word = result } }
    ensures blames { IsBlamed result }
{
    match answer {
        Answer::Sent => accept(tally),
        Answer::Ended(end) => Some(word_of_end(end)),
        Answer::Kept => lose(tally, true),
        Answer::Stale { .. } => lose(tally, true),
        Answer::Stranger => lose(tally, true),
        Answer::NoSession => lose(tally, true),
        Answer::Refused(_) => lose(tally, true),
    }
}

// Delivers a body with the next nonce.
fn hear<N: Nonces>(
    client: &mut Client,
    nonces: &mut N,
    tally: &mut Tally,
    bytes: &[u8],
) -> Result<Option<Word>, Memory>
    requires { IsWithinLimits tally.old }
    ensures goes { TurnGoes tally.old tally.new result }
    ensures turns { OfTold (N.left nonces.old) (N.left nonces.new)
        (TurnDoes client.old.machine client.new.machine tally.old tally.new (ReplyHeard.Body bytes.now) result) }
    ensures blames { IfOk result IsBlamed }
    ensures accounts { length client.new.machine.accounts ≡ length client.old.machine.accounts }
{
    let nonce = nonces.next();
    match client.deliver(bytes, nonce) {
        Ok(answer) => Ok(weigh(tally, answer)),
        Err(memory) => Err(memory),
    }
}

// What an exchange brought: a body is heard, and all else is a loss.
fn turn<N: Nonces>(
    client: &mut Client,
    nonces: &mut N,
    tally: &mut Tally,
    heard: &ReplyHeard,
) -> Result<Option<Word>, Memory>
    requires { IsWithinLimits tally.old }
    ensures goes { TurnGoes tally.old tally.new result }
    ensures turns { OfTold (N.left nonces.old) (N.left nonces.new)
        (TurnDoes client.old.machine client.new.machine tally.old tally.new heard.now result) }
    ensures blames { GivesUpAt heard.now result }
    ensures accounts { length client.new.machine.accounts ≡ length client.old.machine.accounts }
{
    match heard {
        ReplyHeard::Fault => Ok(lose(tally, false)),
        ReplyHeard::Refused => Ok(lose(tally, true)),
        ReplyHeard::Body(bytes) => hear(client, nonces, tally, bytes.as_slice()),
    }
}

/// Posts a message of a client, to the path that it was told. A client that has none to send has no more to say.
pub(crate) fn ask<D: Dialer>(
    alloc: Global,
    client: &Client,
    dialer: &mut D,
    address: &[u8],
    path: &[u8],
    message: Option<&[u8]>,
) -> Result<ReplyHeard, Memory>
    requires idle { IsIdle (D.told dialer.old) }
    ensures told { Exchanges (D.told dialer.old) (D.told dialer.new) address.now
        (request_of address.now path.now client.now.machine (option_map (λ bytes. bytes.now) message.entry)) result }
    ensures count { ExchangeCounts (D.faults dialer.old) (D.faults dialer.new) result }
{
    let path = path_of(client.resp_uri(), path);
    exchange(alloc, dialer, address, path, message.unwrap_or(b""))
}

/// Posts what the client sends until its session is over, and answers how it ended.
pub(crate) fn session<D: Dialer, N: Nonces>(
    alloc: Global,
    client: &mut Client,
    dialer: &mut D,
    nonces: &mut N,
    address: &[u8],
    path: &[u8],
) -> Result<Word, Memory>
    requires idle { IsIdle (D.told dialer.old) }
    ensures idle { IsIdle (D.told dialer.new) }
    ensures holds { SessionHolds (D.told dialer.old) (D.told dialer.new) (N.left nonces.old) (N.left nonces.new)
        client.old.machine client.new.machine address.now path.now result }
    ensures accounts { length client.new.machine.accounts ≡ length client.old.machine.accounts }
    ensures count { SessionCounts (D.faults dialer.old) (D.faults dialer.new) result }
{
    let mut tally = Tally {
        lost: 0,
        blamed: false,
        accepted: 0,
    };
    'exchanges: loop {
        let heard = match ask(alloc, client, dialer, address, path, client.again()) {
            Ok(heard) => heard,
            Err(memory) => return Err(memory),
        };
        match turn(client, nonces, &mut tally, &heard) {
            Ok(None) => {}
            Ok(Some(word)) => return Ok(word),
            Err(memory) => return Err(memory),
        }
    }
}
