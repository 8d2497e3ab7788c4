// The names and nodes of which a tree is built.
ghost use Rattle.std.specs.Prelude.{◌≡◌, ◌<◌, false, IfOk};
ghost use Rattle.dm_tree.specs.Nodes.{IsNewNode, IsValue};

use crate::fault::Fault;
use dm_base::{Bytes, Memory};
use dm_tree::{NewNode, Role, Value};
use dm_uri::{Name, parse_name};
use std::alloc::Global;

fn digit(number: u32, place: u32) -> u8
    requires { 0 < place }
{
    b'0' + (number / place % 10) as u8
}

// Each name of a kind has the same length, so that the order of the numbers is that of the names.
fn digits(number: u32) -> [u8; 5] {
    [
        digit(number, 10_000),
        digit(number, 1_000),
        digit(number, 100),
        digit(number, 10),
        digit(number, 1),
    ]
}

/// The name of the node above all groups.
pub fn base_name(alloc: Global) -> Result<Name, Fault> {
    Ok(parse_name(alloc, b"B")?)
}

/// The name of a group. The number counts modulo 1,000.
pub fn group_name(alloc: Global, group: u32) -> Result<Name, Fault> {
    let [_, _, hundreds, tens, ones] = digits(group);
    Ok(parse_name(alloc, &[b'g', hundreds, tens, ones])?)
}

/// The name of a leaf. The number counts modulo 100,000.
pub fn leaf_name(alloc: Global, leaf: u32) -> Result<Name, Fault> {
    let [first, second, third, fourth, fifth] = digits(leaf);
    Ok(parse_name(alloc, &[b'n', first, second, third, fourth, fifth])?)
}

/// A text of five bytes, for a leaf.
pub fn text_value(alloc: Global, number: u32) -> Result<Value, Memory>
    ensures { IfOk result (λ value. IsValue false value) }
{
    Ok(Value {
        format: Bytes::of_slice(alloc, b"chr")?,
        media: Bytes::of_slice(alloc, b"text/plain")?,
        bytes: Bytes::of_slice(alloc, &digits(number))?,
    })
}

/// A leaf that may be removed.
pub fn new_leaf(alloc: Global, leaf: u32) -> Result<NewNode, Memory>
    ensures may { IfOk result (λ new. IsNewNode new) }
    ensures dynamic { IfOk result (λ new. new.permanent ≡ false) }
{
    Ok(NewNode {
        interior: false,
        value: text_value(alloc, leaf)?,
        acl: None,
        title: Bytes::new(alloc),
        permanent: false,
        role: Role::Plain,
    })
}

/// An interior node that may be removed.
pub fn new_interior(alloc: Global) -> Result<NewNode, Memory>
    ensures may { IfOk result (λ new. IsNewNode new) }
    ensures dynamic { IfOk result (λ new. new.permanent ≡ false) }
{
    Ok(NewNode {
        interior: true,
        value: Value {
            format: Bytes::of_slice(alloc, b"node")?,
            media: Bytes::new(alloc),
            bytes: Bytes::new(alloc),
        },
        acl: None,
        title: Bytes::new(alloc),
        permanent: false,
        role: Role::Plain,
    })
}
