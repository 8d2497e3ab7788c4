// Calls of a client, and what it tells then. Of its answers and its messages a program that was written apart from
// this one gives the same.
use dm_machine::End;
use dm_session::{Acted, Answer};

/// The start section of the client.
pub(crate) const START: &[u8] = b"dm-trace 1
device d1 Acme Box 1.2 en
limits 16384 4194304
account s1 pw - - - -
acl . Add=*&Delete=*&Exec=*&Get=*&Replace=*
fumo ./FUMO
begin";

/// A call, and its answer.
#[derive(Clone, Copy)]
pub(crate) enum Call {
    /// A session of this number begins.
    Begin(u32),
    /// That number was used already: it is told, and it is this one.
    BeginAgain(u32),
    /// A message is delivered, with sixteen bytes of this value as the nonce.
    Deliver(u8, &'static [u8], Answer),
    Act(bool, Acted),
}

/// The session and its last MsgID, the MsgID of what was sent last, the RespURI, the package of the update, and the
/// farewell; an empty text for none.
pub(crate) type Known = (
    Option<(u32, u32)>,
    Option<u32>,
    &'static [u8],
    &'static [u8],
    &'static [u8],
);

// With a credential and a RespURI: Replace ./FUMO/Update/PkgData by aa, and Exec ./FUMO/Update.
#[rattlefmt::skip]
const UPDATE: &[u8] =
    b"\x03\xa4\x01j\x00mlq\x031.2\x00\x01r\x03DM/1.2\x00\x01e\x031\x00\x01[\x031\x00\x01nW\x03d1\x00\x01\x01gW\x03s1\
        \x00\x01\x01a\x03http://s1/a\x00\x01NZ\x00\x01G\x03b64\x00\x01S\x03syncml:auth-md5\x00\x01\x01\x00\x00O\x035\
        rkNg6zLJDmWhSXqPqkymQ==\x00\x01\x01\x01k`K\x031\x00\x01TnW\x03./FUMO/Update/PkgData\x00\x01\x01O\x03aa\x00\
        \x01\x01\x01QK\x032\x00\x01|\x03c7\x00\x01TnW\x03./FUMO/Update\x00\x01\x01\x01\x01\x12\x01\x01";

// No command, Final.
#[rattlefmt::skip]
const OVER: &[u8] =
    b"\x03\xa4\x01j\x00mlq\x031.2\x00\x01r\x03DM/1.2\x00\x01e\x031\x00\x01[\x032\x00\x01nW\x03d1\x00\x01\x01gW\x03s1\
        \x00\x01\x01\x01k\x12\x01\x01";

// In session 2 with the credential of a nonce that was used: MsgIDs 1 and 2.
#[rattlefmt::skip]
const WRONG: &[u8] =
    b"\x03\xa4\x01j\x00mlq\x031.2\x00\x01r\x03DM/1.2\x00\x01e\x032\x00\x01[\x031\x00\x01nW\x03d1\x00\x01\x01gW\x03s1\
        \x00\x01\x01NZ\x00\x01G\x03b64\x00\x01S\x03syncml:auth-md5\x00\x01\x01\x00\x00O\x035rkNg6zLJDmWhSXqPqkymQ==\
        \x00\x01\x01\x01k\x12\x01\x01";

#[rattlefmt::skip]
const WRONG_AGAIN: &[u8] =
    b"\x03\xa4\x01j\x00mlq\x031.2\x00\x01r\x03DM/1.2\x00\x01e\x032\x00\x01[\x032\x00\x01nW\x03d1\x00\x01\x01gW\x03s1\
        \x00\x01\x01NZ\x00\x01G\x03b64\x00\x01S\x03syncml:auth-md5\x00\x01\x01\x00\x00O\x035rkNg6zLJDmWhSXqPqkymQ==\
        \x00\x01\x01\x01k\x12\x01\x01";

// Status 401 for the header, which tells a nonce of sixteen bytes 3, and Alert 1223.
#[rattlefmt::skip]
const FAREWELL: &[u8] =
    b"\x03\xa4\x01j\x00mlq\x031.2\x00\x01r\x03DM/1.2\x00\x01e\x032\x00\x01[\x033\x00\x01nW\x03s1\x00\x01\x01gW\x03d1\
        \x00\x01\x01Z\x00\x01L\x0316384\x00\x01U\x034194304\x00\x01\x01\x01\x00\x00kiK\x031\x00\x01\\\x032\x00\x01L\
        \x030\x00\x01J\x03SyncHdr\x00\x01IZ\x00\x01G\x03b64\x00\x01S\x03syncml:auth-md5\x00\x01P\x03AwMDAwMDAwMDAwMD\
        AwMDAw==\x00\x01\x01\x01\x00\x00O\x03401\x00\x01\x01FK\x032\x00\x01O\x031223\x00\x01\x01\x12\x01\x01";

const URI: &[u8] = b"http://s1/a";

/// Calls in a row, and what is known behind each.
#[rattlefmt::skip]
pub(crate) const ROWS: [(Call, Known); 10] = [
    (Call::Begin(1), (Some((1, 0)), Some(1), b"", b"", b"")),
    (Call::Deliver(1, UPDATE, Answer::Sent), (Some((1, 1)), Some(2), URI, b"aa", b"")),
    // A session is open.
    (Call::Act(true, Acted::NotNow), (Some((1, 1)), Some(2), URI, b"aa", b"")),
    (Call::BeginAgain(1), (Some((1, 1)), Some(2), URI, b"aa", b"")),
    (Call::Deliver(0, OVER, Answer::Ended(End::Finished)), (None, None, URI, b"aa", b"")),
    (Call::Act(false, Acted::Done), (None, None, URI, b"", b"")),
    // No update runs.
    (Call::Act(true, Acted::NotNow), (None, None, URI, b"", b"")),
    (Call::Begin(2), (Some((2, 0)), Some(1), b"", b"", b"")),
    (Call::Deliver(2, WRONG, Answer::Sent), (Some((2, 1)), Some(2), b"", b"", b"")),
    (Call::Deliver(3, WRONG_AGAIN, Answer::Ended(End::Denied)), (None, None, b"", b"", FAREWELL)),
];
