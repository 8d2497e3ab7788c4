// Large trees: one that is full, and one that is filled and emptied again and again.
ghost use Rattle.std.specs.Prelude.{◌≡◌, ◌++◌, ◌∷◌, [], false, IsTrue, IfSome};
ghost use Rattle.dm_uri.specs.Names.{is_within_limits};
ghost use Rattle.dm_tree.specs.Nodes.{IsNewNode};

use crate::asserts::assert_holds;
use crate::rows::rows_of;
use crate::trees::{Start, add, at, grown};
use dm_base::Bytes;
use dm_tree::edits::NODE_LIMIT;
use dm_tree::{NewNode, Role, Tree, TreeError, Value};
use dm_uri::{Name, Path, parse};
use std::alloc::Global;

// How many leaves stand below one node.
const GROUP: u32 = 256;

// With these below `./B`, the tree of a few nodes has 65,536.
const GROUPS: u32 = 255;

const LEAVES: u32 = 65_271;

// The leaves come in an order in which each is far from the one before.
const STRIDE: u32 = 7_919;

const BASE: Start = Start {
    uri: b"./B",
    acl: b"",
    interior: true,
};

// Each of the helpers below answers None where memory runs out, or a node isn't where it has to be.

fn group_uri(alloc: Global, group: u32) -> Option<String> {
    format!(in alloc; "./B/g{}", 100 + u64::from(group)).ok()
}

// Numbers of one length, so that their order is that of the names.
fn leaf_uri(alloc: Global, leaf: u32) -> Option<String> {
    format!(in alloc;
        "./B/g{}/n{}",
        100 + u64::from(leaf / GROUP),
        100_000 + u64::from(leaf)
    )
    .ok()
}

fn new_node(alloc: Global, interior: bool) -> Option<NewNode>
    ensures may { IfSome result (λ new. IsNewNode new) }
    ensures dynamic { IfSome result (λ new. new.permanent ≡ false) }
{
    let format = if interior {
        Bytes::of_slice(alloc, b"node")
    } else {
        Bytes::of_slice(alloc, b"chr")
    };
    Some(NewNode {
        interior,
        value: Value {
            format: format.ok()?,
            media: Bytes::new(alloc),
            bytes: Bytes::new(alloc),
        },
        acl: None,
        title: Bytes::new(alloc),
        permanent: false,
        role: Role::Plain,
    })
}

// Adds a node; false where the tree is full.
fn add_below(
    alloc: Global,
    tree: &mut Tree,
    path: &Path,
    name: &Name,
    interior: bool,
) -> Option<bool>
    requires { IsTrue (is_within_limits (path.now ++ name.now ∷ [])) }
{
    let parent = tree.find(path)?;
    if !tree.view(parent).interior || tree.child(parent, name).is_some() {
        return None;
    }
    let name = name.copy(alloc).ok()?;
    match tree.insert(parent, name, new_node(alloc, interior)?) {
        Ok(_) => Some(true),
        Err(TreeError::Full) => Some(false),
        Err(TreeError::Memory) => None,
    }
}

pub(crate) fn add_at(alloc: Global, tree: &mut Tree, uri: &[u8], interior: bool) -> Option<bool> {
    match parse(alloc, uri) {
        Ok(uri) => {
            let mut path = uri.path;
            match path.pop() {
                Some(name) => add_below(alloc, tree, &path, &name, interior),
                None => None,
            }
        }
        Err(_) => None,
    }
}

fn add_groups(alloc: Global, tree: &mut Tree) -> Option<bool> {
    for group in 0..GROUPS {
        if !add_at(alloc, tree, group_uri(alloc, group)?.as_bytes(), true)? {
            return Some(false);
        }
    }
    Some(true)
}

fn add_leaves(alloc: Global, tree: &mut Tree) -> Option<bool> {
    for turn in 0..LEAVES {
        let leaf = turn * STRIDE % LEAVES;
        if !add_at(alloc, tree, leaf_uri(alloc, leaf)?.as_bytes(), false)? {
            return Some(false);
        }
    }
    Some(true)
}

fn fill(alloc: Global, tree: &mut Tree) -> Option<bool> {
    add(alloc, tree, &BASE, Role::Plain)?;
    Some(add_groups(alloc, tree)? && add_leaves(alloc, tree)?)
}

fn full(alloc: Global) -> Option<Tree> {
    let mut tree = grown(alloc)?;
    if fill(alloc, &mut tree)? {
        Some(tree)
    } else {
        None
    }
}

// Takes a node out for good, with all that stands below it.
pub(crate) fn give_up(alloc: Global, tree: &mut Tree, uri: &[u8]) -> Option<()> {
    let id = at(alloc, tree, uri)?;
    if tree.view(id).permanent {
        return None;
    }
    let undo = tree.detach(id);
    tree.discard(undo);
    Some(())
}

// Whether a leaf is added or not, as is wanted, and the tree is full then.
fn is_full_after(alloc: Global, tree: &mut Tree, uri: &[u8], is_added: bool) -> bool {
    add_at(alloc, tree, uri, false) == Some(is_added) && tree.count() == NODE_LIMIT
}

// Whether no node is added, then one in place of a leaf that is given up, and no further one.
fn takes_one_for_one(alloc: Global, tree: &mut Tree) -> Option<bool> {
    let refused = is_full_after(alloc, tree, b"./B/new", false);
    give_up(alloc, tree, b"./B/g101/n100256")?;
    let less = tree.count() == NODE_LIMIT - 1;
    let added = is_full_after(alloc, tree, b"./B/new", true);
    let again = is_full_after(alloc, tree, b"./B/newer", false);
    Some(refused && less && added && again)
}

#[test]
fn a_full_tree_takes_a_node_where_one_is_given_up(rt: HostRuntime) {
    let alloc = rt.alloc();
    let tree = full(alloc);
    assert!(rt; tree.is_some());
    if let Some(mut tree) = tree {
        assert_holds(&rt, takes_one_for_one(alloc, &mut tree));
    }
}

// Fills a tree of a few nodes.
fn fill_up(alloc: Global, tree: &mut Tree) -> Option<()> {
    if fill(alloc, tree)? && tree.count() == NODE_LIMIT {
        Some(())
    } else {
        None
    }
}

// Takes out again what filled it.
fn empty(alloc: Global, tree: &mut Tree) -> Option<()> {
    give_up(alloc, tree, b"./B")?;
    if tree.count() == 9 { Some(()) } else { None }
}

fn fill_and_empty(alloc: Global, tree: &mut Tree) -> Option<()> {
    fill_up(alloc, tree)?;
    empty(alloc, tree)
}

// How many rows a tree takes that is filled and emptied three times: those that it has when it is full for the last
// time.
fn rows_of_the_third(alloc: Global, tree: &mut Tree) -> Option<usize> {
    for _ in 0..2 {
        fill_and_empty(alloc, tree)?;
    }
    fill_up(alloc, tree)?;
    let rows = rows_of(alloc, tree)?;
    empty(alloc, tree)?;
    Some(rows)
}

fn rows_after_three(alloc: Global) -> Option<usize> {
    let mut tree = grown(alloc)?;
    rows_of_the_third(alloc, &mut tree)
}

#[test]
fn a_tree_is_filled_and_emptied_three_times(rt: HostRuntime) {
    let rows = rows_after_three(rt.alloc());
    assert_eq!(rt; rows, Some(NODE_LIMIT as usize));
}
