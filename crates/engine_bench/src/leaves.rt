// The URIs of the leaves, and the tree that they come into.
ghost use Rattle.std.specs.Prelude.{◌<◌, IfOk};
ghost use Rattle.dm_tree.specs.Nodes.{IsReadAgain};
ghost use Rattle.dm_tree.specs.Rows.{nodes};
ghost use Rattle.dm_tree.specs.Devices.{HasNoUpdate};

use crate::fault::Fault;
use dm_acl::Acl;
use dm_tree::Tree;
use std::alloc::Global;

/// How many leaves there are, all below the root.
pub const LEAVES: u32 = 1_000;

fn digit(number: u32, place: u32) -> u8
    requires { 0 < place }
{
    b'0' + (number / place % 10) as u8
}

/// The URI of a leaf. The number counts modulo 1,000.
pub fn leaf_uri(leaf: u32) -> [u8; 6] {
    let mut uri = *b"./n000";
    uri[3] = digit(leaf, 100);
    uri[4] = digit(leaf, 10);
    uri[5] = digit(leaf, 1);
    uri
}

fn root_acl(alloc: Global) -> Result<Acl, Fault>
    ensures { IfOk result (λ acl. IsReadAgain acl) }
{
    match Acl::parse(alloc, b"Add=*&Delete=*&Get=*&Replace=*") {
        Ok(acl) => match acl.print(alloc) {
            Ok(text) if text.len() <= 4_096 => Ok(acl),
            Ok(_) => Err(Fault::Lost),
            Err(_) => Err(Fault::Memory),
        },
        Err(_) => Err(Fault::Memory),
    }
}

/// A tree that is its root.
pub fn bare_tree(alloc: Global) -> Result<Tree, Fault>
    ensures { IfOk result (λ tree. HasNoUpdate (nodes tree.rows)) }
{
    let acl = root_acl(alloc)?;
    match Tree::new(alloc, acl) {
        Ok(tree) => Ok(tree),
        Err(error) => Err(Fault::from(error)),
    }
}
