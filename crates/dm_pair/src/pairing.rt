// Both ends on a schedule.
ghost use Rattle.std.specs.Prelude.{◌≡◌, ◌++◌, ◌<◌, ◌≤◌, ◌+◌, ◌*◌, ◌^◌, length, option_map, IfOk, OnOk, OnErr};
ghost use Rattle.syncml_codec.specs.Decoding.{read_of};
ghost use Rattle.dm_machine.specs.Events.{opened};
ghost use Rattle.dm_pair.specs.declared.events.PairEvent.TheVariants as event;
ghost use Rattle.dm_pair.specs.Events.{IsPairEvent};
ghost use Rattle.dm_pair.specs.Pairing as Spec;
ghost use Rattle.dm_pair.specs.Seen.{seen, round_behind};

use crate::ends::{act, deliver_down, deliver_up, lose, nonce_of, open};
use crate::events::PairEvent;
use crate::words::{client_words, server_word, stop_word};
use dm_base::{Bytes, List, Memory};
use dm_machine::Initiator;
use dm_server::Server;
use dm_session::Client;
use std::alloc::Global;

/// Both ends, the messages that each has sent, each once, and how many deliveries there were.
#[derive(Drop)]
pub(crate) struct Pairing {
    pub alloc: Global,
    pub client: Client,
    pub server: Server,
    pub ups: List<Bytes>,
    pub downs: List<Bytes>,
    pub deliveries: u128,
}

// The client's message of this number comes to the server.
fn up(pairing: &mut Pairing, number: usize) -> Result<&'static [u8], Memory>
    requires number { (0 < number) × (number ≤ length pairing.old.ups) }
    requires few { pairing.old.deliveries + 1 < 2 ^ 128 }
    ensures step { IfOk result (λ words. Spec.up_step (seen pairing.old) (Spec.message_numbered pairing.old.ups number)
        ≡ Spec.stops (seen pairing.new) words.now) }
    ensures count { OnOk result (pairing.new.deliveries ≤ pairing.old.deliveries + 1) }
    ensures unused { OnErr result (pairing.new.deliveries ≡ pairing.old.deliveries) }
{
    let nonce = nonce_of(pairing.deliveries);
    let answer = deliver_up(
        pairing.alloc,
        &mut pairing.server,
        &mut pairing.downs,
        pairing.ups.as_slice()[number - 1].as_slice(),
        nonce,
    )?;
    pairing.deliveries += 1;
    Ok(server_word(answer))
}

// The server's message of this number comes to the client.
fn down(pairing: &mut Pairing, number: usize) -> Result<&'static [u8], Memory>
    requires number { (0 < number) × (number ≤ length pairing.old.downs) }
    requires few { pairing.old.deliveries + 1 < 2 ^ 128 }
    ensures step { IfOk result (λ words. Spec.down_step (seen pairing.old) (Spec.message_numbered pairing.old.downs number)
        ≡ Spec.stops (seen pairing.new) words.now) }
    ensures count { OnOk result (pairing.new.deliveries ≤ pairing.old.deliveries + 1) }
    ensures unused { OnErr result (pairing.new.deliveries ≡ pairing.old.deliveries) }
{
    let nonce = nonce_of(pairing.deliveries);
    let answer = deliver_down(
        pairing.alloc,
        &mut pairing.client,
        &mut pairing.ups,
        pairing.downs.as_slice()[number - 1].as_slice(),
        nonce,
    )?;
    pairing.deliveries += 1;
    Ok(client_words(answer))
}

// The first half of a round: the client's last message comes to the server, where a session is open.
fn half_up(pairing: &mut Pairing) -> Result<bool, Memory>
    requires { pairing.old.deliveries + 1 < 2 ^ 128 }
    ensures round { IfOk result (λ came. Spec.round (seen pairing.old) ≡ round_behind came (seen pairing.new)) }
    ensures count { OnOk result (pairing.new.deliveries ≤ pairing.old.deliveries + 1) }
{
    let nonce = nonce_of(pairing.deliveries);
    let Some(message) = pairing.client.again() else {
        return Ok(false);
    };
    deliver_up(
        pairing.alloc,
        &mut pairing.server,
        &mut pairing.downs,
        message,
        nonce,
    )?;
    pairing.deliveries += 1;
    Ok(true)
}

// The second half of a round: the server's last message comes to the client. It uses a number up, though there is none.
fn half_down(pairing: &mut Pairing) -> Result<Option<&'static [u8]>, Memory>
    requires { pairing.old.deliveries + 1 < 2 ^ 128 }
    ensures round { IfOk result (λ stop. Spec.half_down (seen pairing.old) (Spec.last_down (seen pairing.old))
        ≡ record { behind = seen pairing.new; stop = option_map (λ word. word.now) stop }) }
    ensures count { OnOk result (pairing.new.deliveries ≤ pairing.old.deliveries + 1) }
{
    let nonce = nonce_of(pairing.deliveries);
    let Some(message) = pairing.server.again() else {
        pairing.deliveries += 1;
        return Ok(Some(b"silent"));
    };
    let answer = deliver_down(
        pairing.alloc,
        &mut pairing.client,
        &mut pairing.ups,
        message,
        nonce,
    )?;
    pairing.deliveries += 1;
    Ok(stop_word(answer))
}

// One round, and why no other follows.
fn round(pairing: &mut Pairing) -> Result<Option<&'static [u8]>, Memory>
    requires { pairing.old.deliveries + 2 < 2 ^ 128 }
    ensures round { IfOk result (λ stop. Spec.round (seen pairing.old)
        ≡ record { behind = seen pairing.new; stop = option_map (λ word. word.now) stop }) }
    ensures count { OnOk result (pairing.new.deliveries ≤ pairing.old.deliveries + 2) }
{
    if half_up(pairing)? {
        half_down(pairing)
    } else {
        Ok(Some(b"nosession"))
    }
}

// At most so many rounds, and why they ended.
fn rounds(pairing: &mut Pairing, count: u32) -> Result<&'static [u8], Memory>
    requires { pairing.old.deliveries + 2 * count < 2 ^ 128 }
    ensures rounds { IfOk result (λ word. Spec.rounds count (seen pairing.old)
        ≡ Spec.stops (seen pairing.new) word.now) }
    ensures count { OnOk result (pairing.new.deliveries ≤ pairing.old.deliveries + 2 * count) }
{
    let mut left = count;
    'rounds: while left > 0 {
        match round(pairing)? {
            Some(word) => return Ok(word),
            None => left -= 1,
        }
    }
    Ok(b"limit")
}

// So many rounds, and the words that tell them.
fn run(pairing: &mut Pairing, count: u32, out: &mut Bytes) -> Result<(), Memory>
    requires { pairing.old.deliveries + 2 * count < 2 ^ 128 }
    ensures told { OnOk result (out.new ≡ out.old ++ (Spec.step_of (seen pairing.old) (event.Run count)).words) }
    ensures state { OnOk result (seen pairing.new ≡ (Spec.step_of (seen pairing.old) (event.Run count)).behind) }
    ensures count { OnOk result (pairing.new.deliveries ≤ pairing.old.deliveries + 2 * count) }
{
    out.extend(b"ran ")?;
    let word = rounds(pairing, count)?;
    out.extend(word)
}

// The client begins a session.
fn begin(
    pairing: &mut Pairing,
    account: usize,
    kind: Initiator,
    session: u32,
) -> Result<&'static [u8], Memory>
    requires { account < length pairing.old.client.machine.accounts }
    ensures step { IfOk result (λ words. Spec.client_step (seen pairing.old) (opened account kind session)
        ≡ Spec.stops (seen pairing.new) words.now) }
    ensures count { pairing.new.deliveries ≡ pairing.old.deliveries }
{
    open(
        pairing.alloc,
        &mut pairing.client,
        &mut pairing.ups,
        account,
        kind,
        session,
    )
}

/// Does what an event says, and adds the words that tell it. A run of rounds makes at most 200,000 deliveries.
pub(crate) fn step(pairing: &mut Pairing, event: PairEvent, out: &mut Bytes) -> Result<(), Memory>
    requires event { IsPairEvent (length pairing.old.client.machine.accounts) (length pairing.old.ups)
        (length pairing.old.downs) event }
    requires few { pairing.old.deliveries + 200000 < 2 ^ 128 }
    ensures told { OnOk result (out.new ≡ out.old ++ (Spec.step_of (seen pairing.old) event).words) }
    ensures state { OnOk result (seen pairing.new ≡ (Spec.step_of (seen pairing.old) event).behind) }
    ensures count { OnOk result (pairing.new.deliveries ≤ pairing.old.deliveries + 200000) }
{
    match event {
        PairEvent::Open {
            account,
            kind,
            session,
        } => {
            let words = begin(pairing, account, kind, session)?;
            out.extend(words)
        }
        PairEvent::Up(number) => {
            let words = up(pairing, number)?;
            out.extend(words)
        }
        PairEvent::Down(number) => {
            let words = down(pairing, number)?;
            out.extend(words)
        }
        PairEvent::Loss => out.extend(lose(&pairing.client)),
        PairEvent::Act(ok) => {
            let words = act(&mut pairing.client, ok)?;
            out.extend(words)
        }
        PairEvent::Run(count) => run(pairing, count, out),
        PairEvent::End => Ok(()),
    }
}
