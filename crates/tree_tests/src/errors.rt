// What the errors of the tree's crates say.
use crate::asserts::assert_no_text_wrong;
use dm_acl::AclError;
use dm_tree::TreeError;
use dm_uri::UriError;
use std::alloc::{AllocError, Global};

enum AnyError {
    Uri(UriError),
    Acl(AclError),
    Tree(TreeError),
}

struct ErrorRow {
    error: AnyError,
    text: &'static str,
}

#[rattlefmt::skip]
const ERRORS: [ErrorRow; 8] = [
    ErrorRow { error: AnyError::Uri(UriError::Malformed), text: "malformed URI" },
    ErrorRow { error: AnyError::Uri(UriError::TooLong), text: "URI too long" },
    ErrorRow { error: AnyError::Uri(UriError::UnknownQuery), text: "unknown query" },
    ErrorRow { error: AnyError::Uri(UriError::Memory), text: "out of memory" },
    ErrorRow { error: AnyError::Acl(AclError::Malformed(7)), text: "no access list from byte 7 on" },
    ErrorRow { error: AnyError::Acl(AclError::Memory), text: "out of memory" },
    ErrorRow { error: AnyError::Tree(TreeError::Full), text: "tree full" },
    ErrorRow { error: AnyError::Tree(TreeError::Memory), text: "out of memory" },
];

fn error_text(alloc: Global, error: &AnyError) -> Result<String, AllocError> {
    match error {
        AnyError::Uri(error) => format!(in alloc; "{error}"),
        AnyError::Acl(error) => format!(in alloc; "{error}"),
        AnyError::Tree(error) => format!(in alloc; "{error}"),
    }
}

fn is_told(alloc: Global, row: &ErrorRow) -> bool {
    match error_text(alloc, &row.error) {
        Ok(text) => text.as_str() == row.text,
        Err(_) => false,
    }
}

// The text of the first row that is told otherwise.
fn wrong_error(alloc: Global) -> Option<&'static str> {
    for row in &ERRORS {
        if !is_told(alloc, row) {
            return Some(row.text);
        }
    }
    None
}

#[test]
fn errors_are_told(rt: HostRuntime) {
    assert_no_text_wrong(&rt, wrong_error(rt.alloc()));
}
