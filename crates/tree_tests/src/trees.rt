// A tree of a few nodes, and what is read of it.
ghost use Rattle.std.specs.Prelude.{◌≡◌, ◌≤◌, ◌++◌, ◌∷◌, [], false, length, IsTrue, IfSome};
ghost use Rattle.dm_uri.specs.Names.{is_within_limits};
ghost use Rattle.dm_tree.specs.Nodes.{IsNewNode, IsValue, IsReadAgain};
ghost use Rattle.dm_tree.specs.Rows.{IsLive};
ghost use Rattle.dm_tree.specs.Undos.{Fits, IsHeld};
ghost use Rattle.dm_tree.specs.Notes.{TakesEditBack};

use crate::asserts::assert_none_wrong;
use dm_acl::Acl;
use dm_base::Bytes;
use dm_tree::{NewNode, NodeId, Role, Tree, Undo, Value};
use dm_uri::{Name, Path, parse};
use std::alloc::Global;

// Each of the helpers below answers None where memory runs out, or a text or a node isn't what it has to be.

#[derive(Drop)]
pub(crate) struct Start {
    pub uri: &'static [u8],
    // The empty text for none.
    pub acl: &'static [u8],
    pub interior: bool,
}

const NODES: &[Start] = &[
    Start {
        uri: b"./P",
        acl: b"Get=s2&Exec=",
        interior: true,
    },
    Start {
        uri: b"./P/x",
        acl: b"",
        interior: false,
    },
    Start {
        uri: b"./T",
        acl: b"",
        interior: true,
    },
    Start {
        uri: b"./T/b",
        acl: b"",
        interior: false,
    },
    Start {
        uri: b"./T/a",
        acl: b"Replace=s1",
        interior: false,
    },
    Start {
        uri: b"./T/B",
        acl: b"",
        interior: true,
    },
    Start {
        uri: b"./T/B/c",
        acl: b"",
        interior: false,
    },
    Start {
        uri: b"./U",
        acl: b"",
        interior: false,
    },
];

fn acl(alloc: Global, text: &[u8]) -> Option<Acl>
    ensures { IfSome result (λ acl. IsReadAgain acl) }
{
    let acl = Acl::parse(alloc, text).ok()?;
    if acl.print(alloc).ok()?.len() > 4_096 {
        return None;
    }
    Some(acl)
}

pub(crate) fn chr(alloc: Global, bytes: &[u8]) -> Option<Value>
    requires { length bytes.now ≤ 4194304 }
    ensures { IfSome result (λ value. IsValue false value) }
{
    Some(Value {
        format: Bytes::of_slice(alloc, b"chr").ok()?,
        media: Bytes::of_slice(alloc, b"text/plain").ok()?,
        bytes: Bytes::of_slice(alloc, bytes).ok()?,
    })
}

fn node(alloc: Global, row: &Start, role: Role) -> Option<NewNode>
    ensures may { IfSome result (λ new. IsNewNode new) }
    ensures dynamic { IfSome result (λ new. new.permanent ≡ false) }
{
    let acl = if row.acl.is_empty() {
        None
    } else {
        Some(acl(alloc, row.acl)?)
    };
    let value = if row.interior {
        Value {
            format: Bytes::of_slice(alloc, b"node").ok()?,
            media: Bytes::new(alloc),
            bytes: Bytes::new(alloc),
        }
    } else {
        chr(alloc, b"v")?
    };
    Some(NewNode {
        interior: row.interior,
        value,
        acl,
        title: Bytes::new(alloc),
        permanent: false,
        role,
    })
}

// It makes the name and the node only where nothing but the want of memory can hinder them, for what is owned is to be
// dropped wherever the function ends.
fn put_below(
    alloc: Global,
    tree: &mut Tree,
    path: &Path,
    name: &Name,
    row: &Start,
    role: Role,
) -> Option<Undo>
    requires { IsTrue (is_within_limits (path.now ++ name.now ∷ [])) }
    ensures fits { IfSome result (λ undo. Fits tree.new.rows undo) }
    ensures free { IfSome result (λ undo. IsHeld tree.new.rows undo) }
    ensures edit { IfSome result (λ undo. TakesEditBack undo tree.old.rows tree.new.rows) }
{
    let parent = tree.find(path)?;
    if !tree.view(parent).interior || tree.child(parent, name).is_some() {
        return None;
    }
    let name = name.copy(alloc).ok()?;
    match tree.insert(parent, name, node(alloc, row, role)?) {
        Ok((_, undo)) => Some(undo),
        Err(_) => None,
    }
}

pub(crate) fn put(alloc: Global, tree: &mut Tree, row: &Start, role: Role) -> Option<Undo>
    ensures fits { IfSome result (λ undo. Fits tree.new.rows undo) }
    ensures free { IfSome result (λ undo. IsHeld tree.new.rows undo) }
    ensures edit { IfSome result (λ undo. TakesEditBack undo tree.old.rows tree.new.rows) }
{
    match parse(alloc, row.uri) {
        Ok(uri) => {
            let mut path = uri.path;
            match path.pop() {
                Some(name) => put_below(alloc, tree, &path, &name, row, role),
                None => None,
            }
        }
        Err(_) => None,
    }
}

pub(crate) fn bare_tree(alloc: Global) -> Option<Tree> {
    Tree::new(alloc, acl(alloc, b"Add=*&Get=s1&Exec=*")?).ok()
}

// Puts a node in for good.
pub(crate) fn add(alloc: Global, tree: &mut Tree, row: &Start, role: Role) -> Option<()> {
    let undo = put(alloc, tree, row, role)?;
    tree.discard(undo);
    Some(())
}

pub(crate) fn add_all(alloc: Global, tree: &mut Tree, rows: &[Start]) -> Option<()> {
    for row in rows {
        add(alloc, tree, row, Role::Plain)?;
    }
    Some(())
}

pub(crate) fn grown(alloc: Global) -> Option<Tree> {
    let mut tree = bare_tree(alloc)?;
    add_all(alloc, &mut tree, NODES)?;
    Some(tree)
}

pub(crate) fn at(alloc: Global, tree: &Tree, uri: &[u8]) -> Option<NodeId>
    ensures { IfSome result (λ id. IsLive tree.now.rows id) }
{
    let path = parse(alloc, uri).ok()?.path;
    tree.find(&path)
}

// Whether each node of the table is found, and again by its parent, its name and its path.
fn is_read(alloc: Global, tree: &Tree, row: &Start) -> Option<bool> {
    let id = at(alloc, tree, row.uri)?;
    let view = tree.view(id);
    let parent = tree.parent(id)?;
    let again = tree.child(parent, view.name?)?;
    let path = tree.path(id).ok()?;
    let found = tree.find(&path)?;
    Some(again == id && found == id && view.interior == row.interior && view.verno == 0)
}

fn unread(alloc: Global, tree: &Tree) -> Option<&'static [u8]> {
    for row in NODES {
        if is_read(alloc, tree, row) != Some(true) {
            return Some(row.uri);
        }
    }
    None
}

#[test]
fn what_is_there_is_read(rt: HostRuntime) {
    let alloc = rt.alloc();
    let tree = grown(alloc);
    assert!(rt; tree.is_some());
    if let Some(tree) = tree {
        assert_none_wrong(&rt, unread(alloc, &tree));
        assert!(rt; at(alloc, &tree, b"./T/c").is_none());
        assert!(rt; tree.parent(tree.root()).is_none());
        assert!(rt; tree.view(tree.root()).name.is_none());
    }
}
