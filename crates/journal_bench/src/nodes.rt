// The URIs and nodes of which the tree is made.
ghost use Rattle.std.specs.Prelude.{◌≡◌, ◌<◌, false, IfOk};
ghost use Rattle.dm_tree.specs.Nodes.{IsNewNode};

use dm_base::{Bytes, Memory};
use dm_tree::{NewNode, Role, Value};
use std::alloc::Global;

/// The URI of the node above all groups.
pub const BASE: &[u8] = b"./B";

fn digit(number: u32, place: u32) -> u8
    requires { 0 < place }
{
    b'0' + (number / place % 10) as u8
}

/// The URI of a group. The number counts modulo 100.
pub fn group_uri(group: u32) -> [u8; 7] {
    [
        b'.',
        b'/',
        b'B',
        b'/',
        b'g',
        digit(group, 10),
        digit(group, 1),
    ]
}

/// The URI of a leaf that stays, in a group. The numbers count modulo 100 and 1,000.
pub fn kept_uri(group: u32, leaf: u32) -> [u8; 12] {
    let mut uri = *b"./B/g00/n000";
    uri[5] = digit(group, 10);
    uri[6] = digit(group, 1);
    uri[9] = digit(leaf, 100);
    uri[10] = digit(leaf, 10);
    uri[11] = digit(leaf, 1);
    uri
}

/// The URI of what comes and goes in a group: of a leaf alone, or of the top of a subtree. The number counts modulo
/// 100.
pub fn moving_uri(group: u32, alone: bool) -> [u8; 12] {
    let mut uri = if alone {
        *b"./B/g00/leaf"
    } else {
        *b"./B/g00/tree"
    };
    uri[5] = digit(group, 10);
    uri[6] = digit(group, 1);
    uri
}

/// The URI of a leaf in the subtree that comes and goes in a group. The numbers count modulo 100.
pub fn below_uri(group: u32, leaf: u32) -> [u8; 16] {
    let mut uri = *b"./B/g00/tree/m00";
    uri[5] = digit(group, 10);
    uri[6] = digit(group, 1);
    uri[14] = digit(leaf, 10);
    uri[15] = digit(leaf, 1);
    uri
}

/// A node that may be removed: an interior one, or a leaf of five bytes.
pub fn new_node(alloc: Global, interior: bool) -> Result<NewNode, Memory>
    ensures may { IfOk result (λ new. IsNewNode new) }
    ensures dynamic { IfOk result (λ new. new.permanent ≡ false) }
{
    let value = if interior {
        Value {
            format: Bytes::of_slice(alloc, b"node")?,
            media: Bytes::new(alloc),
            bytes: Bytes::new(alloc),
        }
    } else {
        Value {
            format: Bytes::of_slice(alloc, b"chr")?,
            media: Bytes::of_slice(alloc, b"text/plain")?,
            bytes: Bytes::of_slice(alloc, b"value")?,
        }
    };
    Ok(NewNode {
        interior,
        value,
        acl: None,
        title: Bytes::new(alloc),
        permanent: false,
        role: Role::Plain,
    })
}
