// Whole start sections.
ghost use Rattle.std.specs.Prelude.{◌≡◌, false, IfOk};
ghost use Rattle.dm_start.specs.Start.{section_at, is_begun};

use dm_auth::Account;
use dm_base::{Bytes, LineReason, Memory};
use dm_fields::LineError;
use dm_start::{Start, StartReader, tree_text};
use std::alloc::Global;
use std::test::Fail;

/// The number of a line that isn't taken, and why; no reason where memory ran out.
#[derive(Clone, Copy, PartialEq, Eq)]
pub(crate) struct Bad {
    pub number: u64,
    pub reason: Option<LineReason>,
}

/// Has a reader take the lines of a text, and answers whether the section is whole then.
pub(crate) fn reading(reader: &mut StartReader, text: &[u8]) -> Result<bool, Bad>
    requires { is_begun (section_at reader.old) ≡ false }
    ensures { IfOk result (λ whole. whole ≡ is_begun (section_at reader.new)) }
{
    let mut number = 0u64;
    for line in text.split(|b| *b == b'\n') {
        number = number.saturating_add(1);
        let reason = match reader.line(line) {
            Ok(true) => return Ok(true),
            Ok(false) => continue,
            Err(LineError::Bad(reason)) => Some(reason),
            Err(LineError::Memory) => None,
        };
        return Err(Bad { number, reason });
    }
    Ok(false)
}

/// What a section tells. None where a line isn't taken, or it isn't whole.
pub(crate) fn start_of(alloc: Global, text: &[u8]) -> Option<Start> {
    let mut reader = StartReader::new(alloc);
    match reading(&mut reader, text) {
        Ok(true) => Some(reader.finish()),
        _ => None,
    }
}

const UPDATE: &[u8] = b"dm-trace 2
device d1 Acme Box 1.2 en
limits 65536 1
clock 20240101T000000Z
account s1 pw 00ff u up 0A
account s2 - - - - -
acl . Add=*&Delete=*&Exec=*&Get=*&Replace=*
interior ./N
permanent ./N
fumo ./N/F
title N/F C3a9
leaf A bin x -
begin";

const UPDATE_TREE: &[u8] = b"node . 0 20240101T000000Z p Add=*&Delete=*&Exec=*&Get=*&Replace=* - -
leaf ./A 0 20240101T000000Z - - - bin 78 -
node ./DevInfo 0 20240101T000000Z p - - -
leaf ./DevInfo/DevId 0 20240101T000000Z p - - chr 746578742f706c61696e 6431
leaf ./DevInfo/DmV 0 20240101T000000Z p - - chr 746578742f706c61696e 312e32
leaf ./DevInfo/Lang 0 20240101T000000Z p - - chr 746578742f706c61696e 656e
leaf ./DevInfo/Man 0 20240101T000000Z p - - chr 746578742f706c61696e 41636d65
leaf ./DevInfo/Mod 0 20240101T000000Z p - - chr 746578742f706c61696e 426f78
node ./N 0 20240101T000000Z p - - -
node ./N/F 0 20240101T000000Z p - c3a9 -
leaf ./N/F/PkgName 0 20240101T000000Z p - - chr 746578742f706c61696e -
leaf ./N/F/PkgVersion 0 20240101T000000Z p - - chr 746578742f706c61696e -
leaf ./N/F/State 0 20240101T000000Z p - - int 746578742f706c61696e 3130
node ./N/F/Update 0 20240101T000000Z p - - -
leaf ./N/F/Update/PkgData 0 20240101T000000Z p - - bin 746578742f706c61696e -
";

fn is_text(text: &Option<Bytes>, wanted: &[u8]) -> bool {
    match text {
        Some(text) => text.as_slice() == wanted,
        None => false,
    }
}

fn has_all_fields(account: &Account) -> bool {
    account.server.as_slice() == b"s1".as_slice()
        && is_text(&account.server_password, b"pw")
        && account.server_nonce.as_slice() == b"\x00\xff".as_slice()
        && is_text(&account.user, b"u")
        && is_text(&account.user_password, b"up")
        && account.user_nonce.as_slice() == b"\n".as_slice()
}

fn has_server_alone(account: &Account) -> bool {
    account.server.as_slice() == b"s2".as_slice()
        && account.server_password.is_none()
        && account.server_nonce.is_empty()
        && account.user.is_none()
        && account.user_password.is_none()
        && account.user_nonce.is_empty()
}

fn are_both(accounts: &[Account]) -> bool {
    match accounts {
        [first, second] => has_all_fields(first) && has_server_alone(second),
        _ => false,
    }
}

fn is_told(alloc: Global, start: &Start) -> Result<bool, Memory> {
    let text = tree_text(alloc, &start.tree, 2)?;
    Ok(
        start.version == 2
            && start.limits.max_msg == 65536
            && start.limits.max_obj == 1
            && start.tree.clock().bytes == *b"20240101T000000Z"
            && start.tree.update_ids().is_some()
            && are_both(start.accounts.as_slice())
            && text.as_slice() == UPDATE_TREE,
    )
}

fn is_as_said(alloc: Global) -> Result<bool, Memory> {
    match start_of(alloc, UPDATE) {
        Some(start) => {
            let is_told = is_told(alloc, &start);
            drop(start);
            is_told
        }
        None => Ok(false),
    }
}

#[test]
fn a_section_tells_what_its_lines_say(rt: HostRuntime) -> Result<(), Fail> {
    assert!(rt; is_as_said(rt.alloc())?);
    Ok(())
}
