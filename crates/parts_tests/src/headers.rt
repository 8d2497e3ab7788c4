// Headers as both ends read and write them.
use dm_auth::Account;
use dm_base::{Bytes, Limits, Memory, Nonce};
use dm_headers::{Side, Standing, header_status, hear, next_header};
use std::alloc::Global;
use std::test::Fail;
use syncml_codec::decode;
use syncml_types::{Loc, Message};
use wbxml_tokens::FeedError;

const NONCE: Nonce = Nonce { bytes: [7; 16] };

const FRESH: Standing = Standing {
    last: 0,
    own: 1,
    heard: false,
    room: 16384,
    they_failed: false,
    we_failed: false,
    accepted: false,
    welcomed: false,
};

// From s1 to d1, with a Status 401 for the header of message 1, which tells a nonce of sixteen bytes 1, and Final.
const CHALLENGE: &[u8] =
    b"\x03\xa4\x01j\x00mlq\x031.2\x00\x01r\x03DM/1.2\x00\x01e\x031\x00\x01[\x031\x00\x01nW\x03d1\
    \x00\x01\x01gW\x03s1\x00\x01\x01\x01kiK\x031\x00\x01\x5c\x031\x00\x01L\x030\x00\x01J\x03Sync\
    Hdr\x00\x01IZ\x00\x01G\x03b64\x00\x01S\x03syncml:auth-md5\x00\x01P\x03AQEBAQEBAQEBAQEBAQEBAQ\
    ==\x00\x01\x01\x01\x00\x00O\x03401\x00\x01\x01\x12\x01\x01";

fn account(alloc: Global) -> Result<Account, Memory> {
    let server = Bytes::of_slice(alloc, b"s1")?;
    let user = Bytes::of_slice(alloc, b"u")?;
    let password = Bytes::of_slice(alloc, b"up")?;
    Ok(Account {
        server,
        server_password: None,
        server_nonce: Bytes::new(alloc),
        user: Some(user),
        user_password: Some(password),
        user_nonce: Bytes::new(alloc),
    })
}

// The code of the message and that of the Status in it, and whether the nonce that it tells is the one to use next.
fn heard(alloc: Global, account: &Account, message: &Message) -> Result<(u32, u32, bool), Memory> {
    let heard = hear(alloc, Side::Server, account, &FRESH, message, &NONCE)?;
    let is_new = match &heard.account {
        Some(renewed) => renewed.user_nonce.as_slice() == [1u8; 16].as_slice(),
        None => false,
    };
    Ok((heard.code, heard.status, is_new))
}

// Whether the header of a message with a wrong credential gets a Status.
fn is_told(alloc: Global, message: &Message) -> Result<bool, Memory> {
    let status = header_status(alloc, message.header(), 401, &NONCE)?;
    Ok(status.is_some())
}

fn challenge(alloc: Global) -> Result<Option<Message>, Memory> {
    match decode(alloc, CHALLENGE) {
        Ok(message) => Ok(Some(message)),
        Err(FeedError::Refused(_)) => Ok(None),
        Err(FeedError::Memory) => Err(Memory),
    }
}

#[test]
fn a_challenge_is_heard_and_answered(rt: HostRuntime) -> Result<(), Fail> {
    let account = account(rt.alloc())?;
    let message = challenge(rt.alloc())?;
    assert!(rt; message.is_some());
    if let Some(message) = &message {
        assert_eq!(rt; heard(rt.alloc(), &account, message)?, (200, 401, true));
        assert!(rt; is_told(rt.alloc(), message)?);
    }
    Ok(())
}

fn loc(alloc: Global, uri: &[u8]) -> Result<Loc, Memory> {
    Ok(Loc {
        uri: Bytes::of_slice(alloc, uri)?,
        name: None,
    })
}

// Whether a header to a server shows a credential.
fn shows(alloc: Global, account: &Account, welcomed: bool) -> Result<bool, Memory> {
    let standing = Standing { welcomed, ..FRESH };
    let limits = Limits {
        max_msg: 16384,
        max_obj: 4_194_304,
    };
    let target = loc(alloc, b"s1")?;
    let source = loc(alloc, b"d1")?;
    let header = next_header(
        alloc,
        Side::User,
        account,
        &standing,
        limits,
        7,
        target,
        source,
    )?;
    Ok(header.inner.cred.is_some())
}

#[test]
fn the_credential_stands_in_a_header_until_it_was_accepted(rt: HostRuntime) -> Result<(), Fail> {
    let account = account(rt.alloc())?;
    assert!(rt; shows(rt.alloc(), &account, false)?);
    assert!(rt; !shows(rt.alloc(), &account, true)?);
    Ok(())
}
