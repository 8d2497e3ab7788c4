// The Status that a message holds for the header of the last message of this end.
ghost use Rattle.std.specs.Prelude.{◌≡◌, IfOk, option_map};
ghost use Rattle.syncml_types.specs.declared.command.StatusCmd.{StatusCmd as AStatus};
ghost use Rattle.dm_headers.specs.Checks.{is_challenged as challenged, is_denied as denied, passes as passing};
ghost use Rattle.dm_headers.specs.Checks.{is_for_header as for_header, status_in as status_of, header_status};
ghost use Rattle.dm_headers.specs.Checks.{status_read, code_read as code_in, told_nonce, nonce_in as nonce_told_in};
ghost use Rattle.dm_headers.specs.Checks.{fault_of};

use dm_auth::nonce_of;
use dm_base::{Boxed, Bytes, List, Memory};
use std::alloc::Global;
use syncml_types::{Command, Message, Meta, StatusCmd};

pub(crate) fn is_challenged(code: u32) -> bool
    ensures { result ≡ challenged code }
{
    code == 212 || code == 401 || code == 407
}

/// Whether a credential was wanted, and wasn't shown or is wrong: 407 or 401.
pub fn is_denied(code: u32) -> bool
    ensures { result ≡ denied code }
{
    code == 401 || code == 407
}

/// Whether the commands of a message with this header code count: 200 or 212.
pub fn passes(code: u32) -> bool
    ensures { result ≡ passing code }
{
    code == 200 || code == 212
}

fn is_for_header(own: u32, status: &StatusCmd) -> bool
    ensures { result ≡ for_header own status.now }
{
    status.cmd_ref == 0 && status.msg_ref == own
}

fn status_in(own: u32, command: &Command) -> Option<&StatusCmd>
    ensures { option_map (λ c. c.now) result ≡ status_of own command.now }
{
    match command {
        Command::Status(status) if is_for_header(own, status) => Some(status),
        _ => None,
    }
}

#[tactic(auto, using(crate::proofs::Ahead::next_status))]
fn first_status(own: u32, body: &List<Command>) -> Option<&StatusCmd>
    ensures { option_map (λ c. c.now) result ≡ header_status own body.now }
{
    for command in body.as_slice() {
        if let Some(status) = status_in(own, command) {
            return Some(status);
        }
    }
    None
}

/// The Status for the header of the message with this MsgID, where `fault` is the message's first fault.
#[tactic(auto, unfolding(crate::specs::Checks::status_read))]
pub(crate) fn read_status(own: u32, message: &Message, fault: Option<u32>) -> Option<&StatusCmd>
    requires { fault ≡ fault_of message.now }
    ensures { option_map (λ c. c.now) result ≡ status_read own message.now }
{
    match fault {
        Some(_) => None,
        None => first_status(own, message.body()),
    }
}

fn nonce_told(alloc: Global, chal: &Option<Boxed<Meta>>) -> Result<Option<Bytes>, Memory>
    ensures { IfOk result (λ nonce. nonce ≡ told_nonce chal.now) }
{
    let Some(chal) = chal else {
        return Ok(None);
    };
    match &chal.inner.next_nonce {
        Some(text) => nonce_of(alloc, text.as_slice()),
        None => Ok(None),
    }
}

/// The nonce that a Status tells this end to use next.
pub(crate) fn nonce_in(alloc: Global, status: Option<&StatusCmd>) -> Result<Option<Bytes>, Memory>
    ensures { IfOk result (λ nonce. nonce ≡ nonce_told_in (option_map (λ c. c.now) status.entry)) }
{
    match status {
        Some(status) if is_challenged(status.code) => nonce_told(alloc, &status.chal),
        _ => Ok(None),
    }
}

/// The code of a Status; 0 where there is none.
pub(crate) fn code_of(status: Option<&StatusCmd>) -> u32
    ensures { result ≡ code_in (option_map (λ c. c.now) status.entry) }
{
    match status {
        Some(status) => status.code,
        None => 0,
    }
}
