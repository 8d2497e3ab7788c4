// A message's header, read whole.
ghost use Rattle.std.specs.Prelude.{◌≡◌, false, None, IfOk, unwrap_or, option_map};
ghost use Rattle.dm_headers.specs.Checks.{with_nonce, with_both, other as other_side};
ghost use Rattle.dm_headers.specs.Checks.{status_read, nonce_in as nonce_told_in, is_challenged as challenged};
ghost use Rattle.dm_headers.specs.Standings.{hears};
ghost use Rattle.dm_headers.specs.Views.{TellsHeard};

use crate::checks::{Side, fault, header_code};
use crate::standings::Standing;
use crate::statuses::{code_of, is_challenged, nonce_in, read_status};
use dm_auth::Account;
use dm_base::{Bytes, Memory, Nonce};
use std::alloc::Global;
use syncml_types::Message;

/// What a message's header comes to.
#[derive(Drop)]
pub struct Heard {
    /// 505, 513 or 400 for a fault, 407 or 401 where the credential is missing or wrong, 212 where it is accepted,
    /// else 200.
    pub code: u32,
    /// The code of the Status that the message holds for this end's last header; 0 where it holds none, or has a fault.
    pub status: u32,
    /// How the ends stand after the message.
    pub standing: Standing,
    /// The account with the nonces to use next, where one of them is new.
    pub account: Option<Account>,
    /// Whether it is the second time that a credential of one side is missing or wrong.
    pub second: bool,
}

fn set_nonce(side: Side, account: &mut Account, nonce: Bytes)
    ensures { account.new ≡ with_nonce side nonce account.old }
{
    match side {
        Side::Server => account.server_nonce = nonce,
        Side::User => account.user_nonce = nonce,
    }
}

fn other(side: Side) -> Side
    ensures { result ≡ other_side side }
{
    match side {
        Side::Server => Side::User,
        Side::User => Side::Server,
    }
}

// The account with the nonces to use next, where one of them is new: `told` for this end, `asked` for the other.
fn renew(
    alloc: Global,
    theirs: Side,
    account: &Account,
    told: Option<Bytes>,
    asked: Option<&Nonce>,
) -> Result<Option<Account>, Memory>
    ensures account { IfOk result (λ next. unwrap_or next account.now
        ≡ with_both theirs (option_map (λ n. n.now.bytes) asked.entry) told account.now) }
    ensures kept { told ≡ None → asked.entry ≡ None → IfOk result (λ next. next ≡ None) }
{
    if told.is_none() && asked.is_none() {
        return Ok(None);
    }
    let mut next = account.copy(alloc)?;
    if let Some(nonce) = told {
        set_nonce(other(theirs), &mut next, nonce);
    }
    if let Some(nonce) = asked {
        set_nonce(theirs, &mut next, Bytes::of_slice(alloc, &nonce.bytes)?);
    }
    Ok(Some(next))
}

/// Reads the header of a message of the side `theirs` of an account, and the Status for this end's last header. The
/// credential is judged only in a message without fault, and only until one was accepted in the session; a challenge
/// tells `nonce`. `Memory` is the only failure.
#[tactic(auto, unfolding(crate::specs::Standings::hears))]
#[inline(always)]
pub fn hear(
    alloc: Global,
    theirs: Side,
    account: &Account,
    standing: &Standing,
    message: &Message,
    nonce: &Nonce,
) -> Result<Heard, Memory>
    ensures tells { IfOk result (λ heard.
        TellsHeard heard account.now (hears theirs account.now standing.now message.now nonce.now.bytes)) }
    // Where no nonce is new, no account is told.
    ensures kept { IfOk result (λ heard. nonce_told_in (status_read standing.now.own message.now) ≡ None
        → challenged heard.code ≡ false → heard.account ≡ None) }
{
    let fault = fault(alloc, message)?;
    let code = header_code(theirs, account, standing.accepted, message, fault);
    let read = read_status(standing.own, message, fault);
    let status = code_of(read);
    let told = nonce_in(alloc, read)?;
    let asked = if is_challenged(code) {
        Some(nonce)
    } else {
        None
    };
    Ok(Heard {
        code,
        status,
        standing: standing.after(message, code, status),
        account: renew(alloc, theirs, account, told, asked)?,
        second: standing.is_second(code, status),
    })
}
