// The lines that answer events.
ghost use Rattle.std.specs.Prelude.{◌≡◌, ◌++◌, ◌<◌, length, IfOk, IfSome, IsSome, OnOk, OnErr};
ghost use Rattle.std.specs.Fmt.{decimal};
ghost use Rattle.dm_base.specs.Fields.{hex_text};
ghost use Rattle.syncml_codec.specs.Decoding.{read_of};
ghost use Rattle.dm_machine.specs.Events.{opened, message as came, loss, act as acts, clock};
ghost use Rattle.dm_machine.specs.History.{answer_now, next};
ghost use Rattle.dm_replay.specs.Events.{IsEventOf, happening_of};
ghost use Rattle.dm_replay.specs.Output as Spec;
ghost use Rattle.dm_replay.specs.Output.{answer_line};

use crate::events::Event;
use dm_base::{Bytes, Memory, Nonce, hex_into};
use dm_decimals::put_decimal;
use dm_machine::{End, Initiator};
use dm_session::{Acted, Answer, BeginError, Client};
use dm_texts::refused_line;
use dm_tree::Stamp;
use std::alloc::Global;

// A word and a number.
fn number_line(alloc: Global, word: &[u8], number: u64) -> Result<Bytes, Memory>
    ensures { IfOk result (λ t. t ≡ word.now ++ decimal number) }
{
    let mut line = Bytes::of_slice(alloc, word)?;
    put_decimal(&mut line, number)?;
    Ok(line)
}

// A word and the bytes of a message, in room that is taken once, and that a line feed has too.
fn message_line(alloc: Global, word: &[u8], message: &[u8]) -> Result<Bytes, Memory>
    ensures { IfOk result (λ t. t ≡ word.now ++ hex_text message.now) }
{
    let mut line = Bytes::new(alloc);
    line.reserve(message.len().saturating_add(word.len()).saturating_mul(2))?;
    line.extend(word)?;
    hex_into(&mut line, message)?;
    Ok(line)
}

// A word and the message that was sent last.
fn sent_line(alloc: Global, word: &[u8], client: &Client) -> Result<Bytes, Memory>
    requires { IsSome client.now.machine.session }
    ensures { IfOk result (λ t. IfSome client.now.machine.session (λ s. t ≡ Spec.message_line word.now s.sent)) }
{
    match client.again() {
        Some(message) => message_line(alloc, word, message),
        None => unreachable!(),
    }
}

fn ended_line(alloc: Global, end: End, client: &Client) -> Result<Bytes, Memory>
    ensures { IfOk result (λ t. t ≡ Spec.ended_line end client.now.machine.farewell) }
{
    match end {
        End::Finished => Bytes::of_slice(alloc, b"ended finished"),
        End::Aborted => Bytes::of_slice(alloc, b"ended aborted"),
        End::Denied => match client.farewell() {
            Some(message) => message_line(alloc, b"denied ", message),
            None => Bytes::of_slice(alloc, b"denied"),
        },
    }
}

#[tactic(auto, unfolding(crate::specs::Output::answer_line))]
fn open(
    alloc: Global,
    client: &mut Client,
    account: usize,
    kind: Initiator,
    session: u32,
) -> Result<Bytes, Memory>
    requires { account < length client.old.machine.accounts }
    ensures line { IfOk result (λ t. t ≡ answer_line (answer_now client.old.machine (opened account kind session))) }
    ensures state { OnOk result (client.new.machine ≡ next client.old.machine (opened account kind session)) }
{
    match client.begin(account, kind, session) {
        Ok(()) => sent_line(alloc, b"sent ", client),
        Err(BeginError::Exhausted { last }) => number_line(alloc, b"exhausted ", last as u64),
        Err(BeginError::Memory) => Err(Memory),
    }
}

#[tactic(auto, unfolding(crate::specs::Output::answer_line))]
fn deliver(alloc: Global, client: &mut Client, bytes: &[u8], nonce: &Nonce) -> Result<Bytes, Memory>
    ensures line { IfOk result (λ t. t ≡ answer_line (answer_now client.old.machine
        (came (read_of bytes.now) nonce.now.bytes))) }
    ensures state { OnOk result (client.new.machine ≡ next client.old.machine
        (came (read_of bytes.now) nonce.now.bytes)) }
{
    match client.deliver(bytes, *nonce) {
        Ok(Answer::Sent) => sent_line(alloc, b"sent ", client),
        Ok(Answer::Kept) => sent_line(alloc, b"kept ", client),
        Ok(Answer::Stale { last }) => number_line(alloc, b"stale ", last as u64),
        Ok(Answer::Stranger) => Bytes::of_slice(alloc, b"stranger"),
        Ok(Answer::NoSession) => Bytes::of_slice(alloc, b"nosession"),
        Ok(Answer::Refused(refusal)) => refused_line(alloc, refusal),
        Ok(Answer::Ended(end)) => ended_line(alloc, end, client),
        Err(memory) => Err(memory),
    }
}

// No reply came.
#[tactic(auto, using(crate::proofs::Answering::again_line, crate::proofs::Answering::nobody_line, crate::proofs::Answering::loss_keeps))]
fn lose(alloc: Global, client: &Client) -> Result<Bytes, Memory>
    ensures line { IfOk result (λ t. t ≡ answer_line (answer_now client.now.machine loss)) }
    ensures state { client.now.machine ≡ next client.now.machine loss }
{
    match client.again() {
        Some(message) => message_line(alloc, b"again ", message),
        None => Bytes::of_slice(alloc, b"nosession"),
    }
}

#[tactic(auto, unfolding(crate::specs::Output::answer_line))]
fn act(alloc: Global, client: &mut Client, ok: bool) -> Result<Bytes, Memory>
    ensures line { IfOk result (λ t. t ≡ answer_line (answer_now client.old.machine (acts ok))) }
    ensures state { OnOk result (client.new.machine ≡ next client.old.machine (acts ok)) }
{
    match client.acted(ok) {
        Ok(Acted::Done) => Bytes::of_slice(alloc, b"acted"),
        Ok(Acted::NotNow) => Bytes::of_slice(alloc, b"notnow"),
        Err(memory) => Err(memory),
    }
}

#[tactic(auto, unfolding(crate::specs::Output::answer_line), using(crate::proofs::Answering::clock_answered))]
fn set_clock(alloc: Global, client: &mut Client, now: Stamp) -> Result<Bytes, Memory>
    ensures line { IfOk result (λ t. t ≡ answer_line (answer_now client.old.machine (clock now))) }
    ensures state { OnOk result (client.new.machine ≡ next client.old.machine (clock now)) }
{
    client.set_clock(now);
    Bytes::of_slice(alloc, b"clocked")
}

/// Does what an event says, and gives the line that answers it, without its line feed. After `Memory` the client isn't
/// to be used again, since the event may have been taken and its answer lost.
pub fn step(alloc: Global, client: &mut Client, event: &Event) -> Result<Bytes, Memory>
    requires { IsEventOf (length client.old.machine.accounts) event.now }
    ensures line { IfOk result (λ t. IfSome (happening_of event.now)
        (λ e. t ≡ answer_line (answer_now client.old.machine e))) }
    ensures state { OnOk result (IfSome (happening_of event.now)
        (λ e. client.new.machine ≡ next client.old.machine e)) }
{
    match event {
        Event::Open {
            account,
            kind,
            session,
        } => open(alloc, client, *account, *kind, *session),
        Event::Msg { nonce, bytes } => deliver(alloc, client, bytes.as_slice(), nonce),
        Event::Loss => lose(alloc, client),
        Event::Act(ok) => act(alloc, client, *ok),
        Event::Clock(now) => set_clock(alloc, client, *now),
        Event::End => unreachable!(),
    }
}
