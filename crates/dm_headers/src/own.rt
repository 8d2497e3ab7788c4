// What an end says of a header, and in its own.
ghost use Rattle.std.specs.Prelude.{◌≡◌, ◌+◌, ◌<◌, ◌^◌, Some, None, if◌then◌else◌, IfOk, option_to_list};
ghost use Rattle.std.specs.Fmt.{decimal as decimal_of};
ghost use Rattle.dm_auth.specs.Digests.{challenge as challenge_of};
ghost use Rattle.dm_headers.specs.Checks.{login_of, is_challenged as is_challenged_code};
ghost use Rattle.dm_headers.specs.Headers.{status_of as status_told, header_answer, credential_shown};
ghost use Rattle.dm_headers.specs.Headers.{cred_of as cred_then};
ghost use Rattle.dm_headers.specs.Headers.{limits_meta as limits_told, next_header as header_then};

use crate::checks::Side;
use crate::standings::Standing;
use crate::statuses::{is_challenged, is_denied};
use dm_auth::{Account, challenge, credential};
use dm_base::{Boxed, Bytes, Limits, List, Memory, Nonce};
use itoa::Buffer;
use std::alloc::Global;
use syncml_types::{Command, Cred, Header, Loc, Meta, StatusCmd};

fn challenge_for(alloc: Global, code: u32, nonce: &Nonce) -> Result<Option<Boxed<Meta>>, Memory>
    ensures { IfOk result (λ chal. chal ≡ (if is_challenged_code code then Some
        (challenge_of nonce.now.bytes) else None)) }
{
    if is_challenged(code) {
        Ok(Some(Boxed::new(alloc, challenge(alloc, nonce)?)?))
    } else {
        Ok(None)
    }
}

fn status_of(alloc: Global, header: &Header, code: u32, nonce: &Nonce) -> Result<Command, Memory>
    ensures { IfOk result (λ status. status ≡ status_told header.now code nonce.now.bytes) }
{
    Ok(Command::Status(StatusCmd {
        id: 0,
        msg_ref: header.msg,
        cmd_ref: 0,
        cmd: Bytes::of_slice(alloc, b"SyncHdr")?,
        target_refs: List::new(alloc),
        source_refs: List::new(alloc),
        chal: challenge_for(alloc, code, nonce)?,
        code,
        items: List::new(alloc),
    }))
}

/// The Status that tells the code of a header; none where NoResp in that header suppresses it, which it doesn't with
/// 401 and 407. With 212, 401 and 407 a challenge tells the nonce to use next.
#[tactic(auto, unfolding(crate::specs::Headers::header_answer))]
pub fn header_status(
    alloc: Global,
    header: &Header,
    code: u32,
    nonce: &Nonce,
) -> Result<Option<Command>, Memory>
    ensures { IfOk result (λ status. option_to_list status ≡ header_answer header.now code nonce.now.bytes) }
{
    if header.no_resp && !is_denied(code) {
        return Ok(None);
    }
    Ok(Some(status_of(alloc, header, code, nonce)?))
}

fn shown_by(
    alloc: Global,
    name: &Bytes,
    password: &Option<Bytes>,
    nonce: &Bytes,
) -> Result<Option<Cred>, Memory>
    ensures { IfOk result (λ cred. cred ≡ credential_shown (Some name.now) password.now nonce.now) }
{
    match password {
        Some(password) => {
            let cred = credential(
                alloc,
                name.as_slice(),
                password.as_slice(),
                nonce.as_slice(),
            )?;
            Ok(Some(cred))
        }
        None => Ok(None),
    }
}

fn cred_of(
    alloc: Global,
    own: Side,
    account: &Account,
    welcomed: bool,
) -> Result<Option<Cred>, Memory>
    ensures { IfOk result (λ cred. cred ≡ cred_then (login_of own account.now) welcomed) }
{
    if welcomed {
        return Ok(None);
    }
    match own {
        Side::Server => shown_by(
            alloc,
            &account.server,
            &account.server_password,
            &account.server_nonce,
        ),
        Side::User => match &account.user {
            Some(user) => shown_by(alloc, user, &account.user_password, &account.user_nonce),
            None => Ok(None),
        },
    }
}

fn limits_meta(limits: Limits) -> Meta
    ensures { result ≡ limits_told limits }
{
    Meta {
        max_msg: Some(u64::from(limits.max_msg)),
        max_obj: Some(u64::from(limits.max_obj)),
        ..Meta::empty()
    }
}

fn decimal(alloc: Global, number: u32) -> Result<Bytes, Memory>
    ensures { IfOk result (λ text. text ≡ decimal_of number) }
{
    let mut buffer = Buffer::new();
    Bytes::of_slice(alloc, buffer.format(number).as_bytes())
}

/// The header of this end's next message in a session, from the side `own` of an account: with its credential until the
/// other end told that it accepted one, and with this end's limits. `source` and `target` are given up after `Memory`.
#[tactic(auto, unfolding(crate::specs::Headers::next_header))]
#[inline(always)]
pub fn next_header(
    alloc: Global,
    own: Side,
    account: &Account,
    standing: &Standing,
    limits: Limits,
    session: u32,
    target: Loc,
    source: Loc,
) -> Result<Boxed<Header>, Memory>
    requires { standing.now.own + 1 < 2 ^ 32 }
    ensures { IfOk result (λ header.
        header ≡ header_then (login_of own account.now) standing.now limits session target source) }
{
    let header = Header {
        dtd: Bytes::of_slice(alloc, b"1.2")?,
        proto: Bytes::of_slice(alloc, b"DM/1.2")?,
        session: decimal(alloc, session)?,
        msg: standing.own + 1,
        target,
        source,
        resp_uri: None,
        no_resp: false,
        cred: cred_of(alloc, own, account, standing.welcomed)?,
        meta: Some(Boxed::new(alloc, limits_meta(limits))?),
    };
    Boxed::new(alloc, header)
}
