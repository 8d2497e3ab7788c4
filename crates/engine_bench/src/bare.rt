// Edits of a tree that a journal notes, without an engine.
ghost use Rattle.std.specs.Prelude.{◌≡◌, [], false, codes, IsTrue, IfOk, OnOk};
ghost use Rattle.dm_uri.specs.Names.{is_within_limits};
ghost use Rattle.dm_tree.specs.Nodes.{IsValue};
ghost use Rattle.dm_tree.specs.Rows.{IsTree};
ghost use Rattle.dm_undo.specs.Sound.{IsSound};

use crate::fault::Fault;
use crate::leaves::{LEAVES, bare_tree, leaf_uri};
use dm_base::{Bytes, Memory};
use dm_tree::{NewNode, Role, Tree, Value};
use dm_undo::Journal;
use dm_uri::{Path, parse};
use std::alloc::Global;
use std::marker::Model;

/// A value for leaves, of which each edit sets a copy. It stands beside the tree, so that its bytes are looked at when
/// it is copied: the copy of a value that is made of constants is worked out by the compiler.
#[derive(Drop)]
pub struct Sample {
    value: Value,
}

impl Model for Sample {
    ghost use Rattle.std.specs.Prelude.{false};
    ghost use Rattle.dm_tree.specs.declared.nodes.Value.{Value as AValue};
    ghost use Rattle.dm_tree.specs.Nodes.{IsValue};

    ghost Value = { AValue };

    ghost view = { λ s. s.value };

    ghost invariant = { λ s. IsValue false s.value };
}

impl Sample {
    fn copy(&self, alloc: Global) -> Result<Value, Memory>
        ensures { IfOk result (λ value. IsValue false value) }
    {
        Ok(Value {
            format: self.value.format.copy(alloc)?,
            media: self.value.media.copy(alloc)?,
            bytes: self.value.bytes.copy(alloc)?,
        })
    }
}

/// A tree with its journal, the paths of its leaves, and the value that edits set.
#[derive(Drop)]
pub struct Bare {
    pub tree: Tree,
    pub journal: Journal,
    pub paths: Vec<Path>,
    pub sample: Sample,
}

fn path_of(alloc: Global, uri: &[u8]) -> Result<Path, Fault>
    ensures { IfOk result (λ path. IsTrue (is_within_limits path)) }
{
    match parse(alloc, uri) {
        Ok(uri) => Ok(uri.path),
        Err(error) => Err(Fault::from(error)),
    }
}

// A leaf's value of five bytes.
fn leaf_value(alloc: Global, byte: u8) -> Result<Value, Memory>
    ensures { IfOk result (λ value. IsValue false value) }
{
    Ok(Value {
        format: Bytes::of_slice(alloc, b"chr")?,
        media: Bytes::of_slice(alloc, b"text/plain")?,
        bytes: Bytes::of_slice(alloc, &[b'v', b'a', b'l', b'u', byte])?,
    })
}

fn add(alloc: Global, tree: &mut Tree, uri: &[u8]) -> Result<(), Fault>
    ensures { IsTree tree.new.rows }
{
    let root = tree.root();
    let mut path = path_of(alloc, uri)?;
    let Some(name) = path.pop() else {
        return Err(Fault::Lost);
    };
    if !tree.view(root).interior || !path.as_slice().is_empty() {
        return Err(Fault::Lost);
    }
    if tree.child(root, &name).is_some() {
        return Err(Fault::Lost);
    }
    let new = NewNode {
        interior: false,
        value: leaf_value(alloc, b'e')?,
        acl: None,
        title: Bytes::new(alloc),
        permanent: false,
        role: Role::Plain,
    };
    match tree.insert(root, name, new) {
        Ok((_, undo)) => {
            drop(undo);
            let _ = tree.root();
            Ok(())
        }
        Err(error) => Err(Fault::from(error)),
    }
}

fn full_tree(alloc: Global) -> Result<Tree, Fault>
    ensures { IfOk result (λ tree. IsTree tree.rows) }
{
    let mut tree = bare_tree(alloc)?;
    for leaf in 0..LEAVES {
        add(alloc, &mut tree, &leaf_uri(leaf))?;
    }
    let _ = tree.root();
    Ok(tree)
}

fn all_paths(alloc: Global) -> Result<Vec<Path>, Fault> {
    let mut paths = Vec::new(alloc);
    for leaf in 0..LEAVES {
        if paths.push(path_of(alloc, &leaf_uri(leaf))?).is_err() {
            return Err(Fault::Memory);
        }
    }
    Ok(paths)
}

impl Bare {
    /// A tree with its leaves, and a journal without entries.
    pub fn new(alloc: Global) -> Result<Bare, Fault>
        ensures sound { IfOk result (λ b. IsSound b.journal.entries b.tree.rows) }
        ensures settled { IfOk result (λ b. b.journal.entries ≡ []) }
    {
        Ok(Bare {
            tree: full_tree(alloc)?,
            journal: Journal::new(alloc)?,
            paths: all_paths(alloc)?,
            sample: Sample {
                value: leaf_value(alloc, b'b')?,
            },
        })
    }
}

/// Whether each leaf is found.
pub fn find_all(tree: &Tree, paths: &[Path]) -> bool {
    for path in paths {
        if tree.find(path).is_none() {
            return false;
        }
    }
    true
}

// Another value for a leaf, which the journal notes.
fn edit(
    alloc: Global,
    tree: &mut Tree,
    journal: &mut Journal,
    path: &Path,
    sample: &Sample,
) -> Result<(), Fault>
    requires { IsSound journal.old.entries tree.old.rows }
    ensures { OnOk result (IsSound journal.new.entries tree.new.rows) }
{
    let Some(id) = tree.find(path) else {
        return Err(Fault::Lost);
    };
    if tree.view(id).interior {
        return Err(Fault::Lost);
    }
    let value = sample.copy(alloc)?;
    journal.reserve(1)?;
    let undo = tree.set_value(id, value);
    journal.note(undo);
    Ok(())
}

/// Another value for each leaf, which the journal notes.
pub fn edit_all(
    alloc: Global,
    tree: &mut Tree,
    journal: &mut Journal,
    paths: &[Path],
    sample: &Sample,
) -> Result<(), Fault>
    requires { IsSound journal.old.entries tree.old.rows }
    ensures { OnOk result (IsSound journal.new.entries tree.new.rows) }
{
    for path in paths {
        edit(alloc, tree, journal, path, sample)?;
    }
    Ok(())
}

/// Drops all that the journal could go back to.
pub fn settle(tree: &mut Tree, journal: &mut Journal)
    requires { IsSound journal.old.entries tree.old.rows }
    ensures sound { IsSound journal.new.entries tree.new.rows }
    ensures empty { journal.new.entries ≡ [] }
{
    let mark = journal.mark();
    let _ = journal.settle(tree, mark);
}
