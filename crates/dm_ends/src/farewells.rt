// The message with which an end leaves a session.
ghost use Rattle.std.specs.Prelude.{◌≡◌, ◌<◌, ◌+◌, ◌∷◌, ◌++◌, [], true, None, length, IfOk, IfSome, OnOk};
ghost use Rattle.std.specs.Option.{option_to_list};
ghost use Rattle.syncml_types.specs.Canonical.{canonical};
ghost use Rattle.syncml_types.specs.Fitness.{IsFit};
ghost use Rattle.syncml_parts.specs.Numbering.{ids_in};
ghost use Rattle.dm_pack.specs.Filling.{numbered, IsReadyHeader};
ghost use Rattle.dm_ends.specs.Commands.{alert as alert_of};
ghost use Rattle.dm_ends.specs.Farewells.{farewell as farewell_of};
ghost use Rattle.dm_ends.specs.Ready.{IsReadyMessage};

use dm_base::{Boxed, Bytes, List, Memory, Nonce};
use dm_headers::header_status;
use std::alloc::Global;
use syncml_codec::encode;
use syncml_parts::set_ids;
use syncml_types::{AlertCmd, Command, Header, Item, Message};

/// The message that an end sent last, or its farewell, with its bytes.
#[derive(Drop)]
pub struct LastMessage {
    pub message: Message,
    pub bytes: Bytes,
}

/// An Alert whose CmdID isn't set yet.
pub fn alert(code: u32, correlator: Option<Bytes>, items: List<Item>) -> Command
    ensures { result ≡ alert_of code correlator items }
{
    Command::Alert(AlertCmd {
        id: 0,
        no_resp: false,
        code,
        correlator,
        items,
    })
}

// The Status of the header, where there is one. It tells the next CmdID.
fn push_status(body: &mut List<Command>, status: Option<Command>) -> Result<u32, Memory>
    requires one { IfSome status (λ s. ids_in s ≡ 1) }
    ensures ok { OnOk result (body.new ≡ body.old ++ numbered 1 (option_to_list status)) }
    ensures next { IfOk result (λ next. next ≡ 1 + length (option_to_list status)) }
{
    match status {
        None => Ok(1),
        Some(mut status) => {
            let next = set_ids(&mut status, 1);
            body.push(status)?;
            Ok(next)
        }
    }
}

// The header's Status where there is one, and an Alert 1223.
#[tactic(auto, using(crate::proofs::LastWords::numbered_last, crate::proofs::LastWords::few_numbers), unfolding(syncml_parts::specs::Numbering::ids_in))]
fn last_words(alloc: Global, status: Option<Command>) -> Result<List<Command>, Memory>
    requires one { IfSome status (λ s. ids_in s ≡ 1) }
    ensures { IfOk result (λ body. body ≡ numbered 1 (option_to_list status ++ alert_of 1223 None [] ∷ [])) }
{
    let mut body = List::new(alloc);
    let next = push_status(&mut body, status)?;
    let mut abort = alert(1223, None, List::new(alloc));
    set_ids(&mut abort, next);
    body.push(abort)?;
    Ok(body)
}

// The last words behind a header, spelled.
fn spelled(
    alloc: Global,
    header: Boxed<Header>,
    status: Option<Command>,
) -> Result<LastMessage, Memory>
    requires one { IfSome status (λ s. ids_in s ≡ 1) }
    requires fit { IsFit header (numbered 1 (option_to_list status ++ alert_of 1223 None [] ∷ [])) }
    ensures message { IfOk result (λ last. last.message ≡ record {
      header = header;
      body = numbered 1 (option_to_list status ++ alert_of 1223 None [] ∷ []);
      last = true;
    }) }
    ensures bytes { IfOk result (λ last. last.bytes ≡ canonical last.message) }
{
    let body = last_words(alloc, status)?;
    let message = Message::of_parts(header, body, true);
    let bytes = encode(alloc, &message)?;
    Ok(LastMessage { message, bytes })
}

/// The message with which an end leaves a session, behind this header: the Status of the header of `answered` with
/// `code`, where that isn't suppressed, an Alert 1223, and Final. `nonce` is told where the code
/// asks for a credential or accepts one.
pub fn farewell(
    alloc: Global,
    header: Boxed<Header>,
    answered: &Message,
    code: u32,
    nonce: &Nonce,
) -> Result<LastMessage, Memory>
    requires header { IsReadyHeader header }
    requires answered { IsReadyMessage answered.now nonce.now.bytes }
    ensures message { IfOk result
        (λ last. last.message ≡ farewell_of header answered.now code nonce.now.bytes) }
    ensures bytes { IfOk result (λ last. last.bytes ≡ canonical last.message) }
{
    let status = header_status(alloc, answered.header(), code, nonce)?;
    spelled(alloc, header, status)
}
