// Access lists: where the first fault is told, which lists are the same, and copies. What is printed of a list, and
// whom it allows what, is shown by traces.
use crate::access_rows::FAULTS;
use crate::asserts::assert_none_wrong;
use dm_acl::{Acl, AclError};
use std::alloc::Global;

// Each of the helpers below that looks for a wrong row answers the text of the first, for the test to show.

fn refused_at(alloc: Global, text: &[u8]) -> Option<usize> {
    match Acl::parse(alloc, text) {
        Err(AclError::Malformed(at)) => Some(at),
        _ => None,
    }
}

fn wrong_fault(alloc: Global) -> Option<&'static [u8]> {
    for row in &FAULTS {
        if refused_at(alloc, row.text) != Some(row.at) {
            return Some(row.text);
        }
    }
    None
}

#[test]
fn the_first_fault_is_told(rt: HostRuntime) {
    assert_none_wrong(&rt, wrong_fault(rt.alloc()));
}

fn is_copied(alloc: Global, acl: &Acl) -> bool {
    match acl.copy(alloc) {
        Ok(copied) => copied.is_same(acl),
        Err(_) => false,
    }
}

fn is_the_same_as_its_copy(alloc: Global, text: &[u8]) -> bool {
    match Acl::parse(alloc, text) {
        Ok(acl) => is_copied(alloc, &acl),
        Err(_) => false,
    }
}

fn reads_as(alloc: Global, text: &[u8], acl: &Acl) -> Option<bool> {
    match Acl::parse(alloc, text) {
        Ok(other) => Some(acl.is_same(&other)),
        Err(_) => None,
    }
}

// None where one of the texts is refused.
fn are_same(alloc: Global, text: &[u8], other: &[u8]) -> Option<bool> {
    match Acl::parse(alloc, text) {
        Ok(acl) => reads_as(alloc, other, &acl),
        Err(_) => None,
    }
}

struct PairRow {
    text: &'static [u8],
    other: &'static [u8],
    are_same: bool,
}

const PAIRS: [PairRow; 4] = [
    PairRow {
        text: b"Get=*&Add=a+b",
        other: b"Add=a+b+a&Get=*",
        are_same: true,
    },
    PairRow {
        text: b"Add=a+b",
        other: b"Add=b+a",
        are_same: false,
    },
    PairRow {
        text: b"Add=a",
        other: b"Add=a&Get=",
        are_same: false,
    },
    PairRow {
        text: b"Add=*",
        other: b"Add=",
        are_same: false,
    },
];

fn wrong_pair(alloc: Global) -> Option<&'static [u8]> {
    for row in &PAIRS {
        if are_same(alloc, row.text, row.other) != Some(row.are_same) {
            return Some(row.text);
        }
    }
    None
}

#[test]
fn copies_are_the_same(rt: HostRuntime) {
    assert!(rt; is_the_same_as_its_copy(rt.alloc(), b"Get=*&Add=a+b&Exec="));
    assert_none_wrong(&rt, wrong_pair(rt.alloc()));
}
