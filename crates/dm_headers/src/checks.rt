// The checks of a message's header, and the code that they come to.
ghost use Rattle.std.specs.Prelude.{◌≡◌, IfOk, bytes_eq, option_map};
ghost use Rattle.syncml_types.specs.declared.values.Cred.{Cred as ACred};
ghost use Rattle.dm_headers.specs.Checks.{fault_of, verdict_code, judged as judged_so, judged_by, login_of};
ghost use Rattle.dm_headers.specs.Checks.{header_code as code_of};

use crate::cmd_ids::has_twins;
use dm_auth::{Account, Verdict, judge};
use dm_base::{Bytes, Memory};
use std::alloc::Global;
use syncml_types::{Cred, Message};

/// One of the two sides of an account: each has a name, a password and a nonce there, or none.
#[derive(Clone, Copy, Debug, PartialEq, Eq)]
pub enum Side {
    /// The management server.
    Server,
    /// The user of the device.
    User,
}

// The first fault of a message: 505, 513 or 400.
pub(crate) fn fault(alloc: Global, message: &Message) -> Result<Option<u32>, Memory>
    ensures { IfOk result (λ code. code ≡ fault_of message.now) }
{
    let header = message.header();
    if header.dtd.as_slice() != b"1.2".as_slice() {
        return Ok(Some(505));
    }
    if header.proto.as_slice() != b"DM/1.2".as_slice() {
        return Ok(Some(513));
    }
    if has_twins(alloc, message.body())? {
        return Ok(Some(400));
    }
    Ok(None)
}

fn verdict_of(verdict: Verdict) -> u32
    ensures { result ≡ verdict_code verdict }
{
    match verdict {
        Verdict::Missing => 407,
        Verdict::Wrong => 401,
        Verdict::Accepted => 212,
    }
}

fn judged(
    accepted: bool,
    name: &Bytes,
    password: &Option<Bytes>,
    nonce: &Bytes,
    cred: &Option<Cred>,
) -> u32
    ensures { result ≡ judged_so accepted (Some name.now) password.now nonce.now cred.now }
{
    match password {
        Some(password) if !accepted => verdict_of(judge(
            name.as_slice(),
            password.as_slice(),
            nonce.as_slice(),
            cred.as_ref(),
        )),
        _ => 200,
    }
}

fn judged_side(side: Side, account: &Account, accepted: bool, cred: &Option<Cred>) -> u32
    ensures { result ≡ judged_by accepted (login_of side account.now) cred.now }
{
    match side {
        Side::Server => judged(
            accepted,
            &account.server,
            &account.server_password,
            &account.server_nonce,
            cred,
        ),
        Side::User => match &account.user {
            Some(user) => judged(
                accepted,
                user,
                &account.user_password,
                &account.user_nonce,
                cred,
            ),
            None => 200,
        },
    }
}

/// The code of a message's header, where `fault` is the message's first fault.
#[tactic(auto, unfolding(crate::specs::Checks::header_code))]
pub(crate) fn header_code(
    side: Side,
    account: &Account,
    accepted: bool,
    message: &Message,
    fault: Option<u32>,
) -> u32
    requires { fault ≡ fault_of message.now }
    ensures { result ≡ code_of accepted (login_of side account.now) message.now }
{
    match fault {
        Some(code) => code,
        None => judged_side(side, account, accepted, &message.header().cred),
    }
}
