// What happens at one end: the messages that it sends by that are noted.
ghost use Rattle.std.specs.Prelude.{◌≡◌, ◌++◌, ◌<◌, ◌+◌, ◌^◌, length, option_map, IfOk, OnOk};
ghost use Rattle.std.specs.Int.{w128, to_be_bytes};
ghost use Rattle.syncml_codec.specs.Decoding.{read_of};
ghost use Rattle.dm_machine.specs.Events.{Answer as Answered, opened, message as came, loss, act as acts, ended};
ghost use Rattle.dm_machine.specs.History.{answer_now, next};
ghost use Rattle.dm_service.specs.Events.{Answer as Served};
ghost use Rattle.dm_service.specs.History as server_runs;
ghost use Rattle.dm_session.specs.View.{Tells};
ghost use Rattle.dm_server.specs.View.{Tells as TellsServed, arrival_of};
ghost use Rattle.dm_pair.specs.Pairing.{sent_up, sent_down};
ghost use Rattle.dm_pair.specs.Pairing as Spec;
ghost use Rattle.dm_pair.specs.Seen.{as_list};

use dm_base::{Bytes, List, Memory, Nonce};
use dm_machine::{End, Initiator};
use dm_server::{Server, ServerAnswer};
use dm_session::{Acted, Answer, BeginError, Client};
use std::alloc::Global;

/// What the challenges of a delivery tell, where so many came before it.
pub(crate) fn nonce_of(deliveries: u128) -> Nonce
    requires { deliveries + 1 < 2 ^ 128 }
    ensures { result.bytes ≡ to_be_bytes w128 (deliveries + 1) }
{
    Nonce {
        bytes: (deliveries + 1).to_be_bytes(),
    }
}

// Adds a message, where there is one, to those that an end has sent.
fn note(alloc: Global, messages: &mut List<Bytes>, message: Option<&[u8]>) -> Result<(), Memory>
    ensures { OnOk result (messages.new ≡ messages.old ++ as_list (option_map (λ m. m.now) message.entry)) }
{
    match message {
        None => Ok(()),
        Some(message) => messages.push(Bytes::of_slice(alloc, message)?),
    }
}

fn sent_at_end(client: &Client, end: End) -> Option<&[u8]>
    ensures { as_list (option_map (λ m. m.now) result) ≡ sent_up (ended end client.now.machine.farewell) }
{
    match end {
        End::Denied => client.farewell(),
        End::Finished => None,
        End::Aborted => None,
    }
}

// The message that the client sends with an answer, a farewell too.
fn sent_with(client: &Client, answer: Answer) -> Option<&[u8]>
    ensures { (a : Answered) → Tells answer client.now.machine a
        → as_list (option_map (λ m. m.now) result) ≡ sent_up a }
{
    match answer {
        Answer::Sent => client.again(),
        Answer::Ended(end) => sent_at_end(client, end),
        _ => None,
    }
}

/// A message comes to the client.
pub(crate) fn deliver_down(
    alloc: Global,
    client: &mut Client,
    ups: &mut List<Bytes>,
    bytes: &[u8],
    nonce: Nonce,
) -> Result<Answer, Memory>
    ensures answer { IfOk result (λ a. Tells a client.new.machine
        (answer_now client.old.machine (came (read_of bytes.now) nonce.bytes))) }
    ensures client { OnOk result (client.new.machine
        ≡ next client.old.machine (came (read_of bytes.now) nonce.bytes)) }
    ensures ups { OnOk result (ups.new
        ≡ ups.old ++ sent_up (answer_now client.old.machine (came (read_of bytes.now) nonce.bytes))) }
{
    let answer = client.deliver(bytes, nonce)?;
    note(alloc, ups, sent_with(client, answer))?;
    Ok(answer)
}

// The message that the server sends with an answer.
fn served_with(server: &Server, answer: ServerAnswer) -> Option<&[u8]>
    ensures { (a : Served) → TellsServed answer server.now a
        → as_list (option_map (λ m. m.now) result) ≡ sent_down a }
{
    match answer {
        ServerAnswer::Sent => server.again(),
        _ => None,
    }
}

/// A message comes to the server.
pub(crate) fn deliver_up(
    alloc: Global,
    server: &mut Server,
    downs: &mut List<Bytes>,
    bytes: &[u8],
    nonce: Nonce,
) -> Result<ServerAnswer, Memory>
    ensures answer { IfOk result (λ a. TellsServed a server.new
        (server_runs.answer_now server.old (arrival_of bytes.now nonce.bytes))) }
    ensures server { OnOk result (server.new ≡ server_runs.next server.old (arrival_of bytes.now nonce.bytes)) }
    ensures downs { OnOk result (downs.new
        ≡ downs.old ++ sent_down (server_runs.answer_now server.old (arrival_of bytes.now nonce.bytes))) }
{
    let answer = server.deliver(bytes, nonce)?;
    note(alloc, downs, served_with(server, answer))?;
    Ok(answer)
}

/// The client begins a session.
pub(crate) fn open(
    alloc: Global,
    client: &mut Client,
    ups: &mut List<Bytes>,
    account: usize,
    kind: Initiator,
    session: u32,
) -> Result<&'static [u8], Memory>
    requires { account < length client.old.machine.accounts }
    ensures words { IfOk result (λ words. words.now
        ≡ Spec.client_words (answer_now client.old.machine (opened account kind session))) }
    ensures client { OnOk result (client.new.machine ≡ next client.old.machine (opened account kind session)) }
    ensures ups { OnOk result (ups.new
        ≡ ups.old ++ sent_up (answer_now client.old.machine (opened account kind session))) }
{
    match client.begin(account, kind, session) {
        Ok(()) => {
            note(alloc, ups, client.again())?;
            Ok(b"sent")
        }
        Err(BeginError::Exhausted { .. }) => Ok(b"exhausted"),
        Err(BeginError::Memory) => Err(Memory),
    }
}

/// No reply came to the client.
pub(crate) fn lose(client: &Client) -> &'static [u8]
    ensures words { result.now ≡ Spec.client_words (answer_now client.now.machine loss) }
    ensures client { client.now.machine ≡ next client.now.machine loss }
{
    match client.again() {
        Some(_) => b"again",
        None => b"nosession",
    }
}

/// The update that runs at the client ended well, or failed.
pub(crate) fn act(client: &mut Client, ok: bool) -> Result<&'static [u8], Memory>
    ensures words { IfOk result (λ words. words.now ≡ Spec.client_words (answer_now client.old.machine (acts ok))) }
    ensures client { OnOk result (client.new.machine ≡ next client.old.machine (acts ok)) }
{
    match client.acted(ok)? {
        Acted::Done => Ok(b"acted"),
        Acted::NotNow => Ok(b"notnow"),
    }
}
