// One round of each call over a tree.
ghost use Rattle.std.specs.Prelude.{◌≡◌, [], length, All, IfOk, is_some};
ghost use Rattle.std.specs.List.{count_by};
ghost use Rattle.std.specs.FinMap as map;
ghost use Rattle.dm_tree.specs.Rows.{nodes, ids, IsLive};

use crate::fault::Fault;
use crate::nodes::text_value;
use dm_tree::laws::{subtree_begins, top_is_below};
use dm_tree::{NodeId, Tree};
use dm_uri::Path;
use std::alloc::Global;

// The bytes of the value that is set for a while.
const OTHER: u32 = 7_919;

/// How many of these paths are those of nodes. Each is found from the root.
pub fn count_found(tree: &Tree, paths: &[Path]) -> usize
    ensures { result ≡ count_by (λ path. is_some (map.get (ids tree.now.rows) path)) paths.now }
{
    let mut found = 0;
    for path in paths {
        if tree.find(path).is_some() {
            found += 1;
        }
    }
    found
}

/// The numbers of the nodes at these paths.
pub fn ids_of(alloc: Global, tree: &Tree, paths: &[Path]) -> Result<Vec<NodeId>, Fault>
    ensures { IfOk result (λ found. All (IsLive tree.now.rows) found.items) }
{
    let mut found = Vec::new(alloc);
    for path in paths {
        match tree.find(path) {
            Some(id) => found.push(id)?,
            None => return Err(Fault::Lost),
        }
    }
    Ok(found)
}

// Sets a leaf's value, and takes that back.
fn set_and_back(alloc: Global, tree: &mut Tree, id: NodeId) -> Result<(), Fault>
    requires { IsLive tree.old.rows id }
    ensures { tree.new ≡ tree.old }
{
    if tree.view(id).interior {
        return Err(Fault::Lost);
    }
    let mut undo = tree.set_value(id, text_value(alloc, OTHER)?);
    tree.flip(&mut undo);
    Ok(())
}

/// Sets the value of each of these leaves, and takes that back. The tree is then as before.
pub fn set_each(alloc: Global, tree: &mut Tree, leaves: &[NodeId]) -> Result<(), Fault>
    requires { All (IsLive tree.old.rows) leaves.now }
    ensures { tree.new ≡ tree.old }
{
    for id in leaves {
        set_and_back(alloc, tree, *id)?;
    }
    Ok(())
}

// Takes a node out, and puts it in again.
fn detach_and_back(tree: &mut Tree, id: NodeId) -> Result<(), Fault>
    requires { IsLive tree.old.rows id }
    ensures { tree.new ≡ tree.old }
{
    if tree.view(id).permanent {
        return Err(Fault::Lost);
    }
    let mut held = tree.detach(id);
    tree.flip(&mut held);
    Ok(())
}

/// Takes each of these nodes out, and puts it in again. The tree is then as before.
pub fn detach_each(tree: &mut Tree, nodes: &[NodeId]) -> Result<(), Fault>
    requires { All (IsLive tree.old.rows) nodes.now }
    ensures { tree.new ≡ tree.old }
{
    for id in nodes {
        detach_and_back(tree, *id)?;
    }
    Ok(())
}

/// Sets and takes out each of the leaves at these paths, and takes that back.
pub fn edit_each(alloc: Global, tree: &mut Tree, paths: &[Path]) -> Result<(), Fault> {
    let leaves = ids_of(alloc, tree, paths)?;
    set_each(alloc, tree, leaves.as_slice())?;
    let nodes = ids_of(alloc, tree, paths)?;
    detach_each(tree, nodes.as_slice())
}

/// Goes through the whole tree, in the order of the tree text, and counts the nodes.
pub fn walk(tree: &Tree) -> usize
    ensures { result ≡ map.len (nodes tree.now.rows) }
{
    subtree_begins();
    top_is_below();
    let root = tree.root();
    let mut count = 0;
    let mut next = Some(root);
    while let Some(id) = next {
        count += 1;
        next = tree.next_below(root, id, false);
    }
    count
}

/// The names of the nodes in the order of the tree text, folded to a number.
pub fn fold_names(tree: &Tree) -> u64 {
    top_is_below();
    let root = tree.root();
    let mut sum = 0u64;
    let mut at = Some(root);
    for _ in 0..tree.count() {
        let Some(id) = at else {
            return sum;
        };
        if let Some(name) = tree.view(id).name {
            sum = with_bytes(sum, name.as_slice());
        }
        at = tree.next_below(root, id, false);
    }
    sum
}

fn with_bytes(sum: u64, bytes: &[u8]) -> u64 {
    let mut sum = sum;
    for byte in bytes {
        sum = sum.wrapping_mul(31).wrapping_add(u64::from(*byte));
    }
    sum
}
