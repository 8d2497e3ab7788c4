// Edits that the journal notes.
ghost use Rattle.std.specs.Prelude.{◌≡◌, [], false, IsTrue, IfOk, OnOk};
ghost use Rattle.dm_uri.specs.Names.{is_within_limits};
ghost use Rattle.dm_tree.specs.Nodes.{IsNewNode};
ghost use Rattle.dm_tree.specs.Rows.{IsLive};
ghost use Rattle.dm_tree.specs.Notes.{TakesEditBack};
ghost use Rattle.dm_undo.specs.Sound.{IsSound};

use crate::fault::Fault;
use crate::nodes::new_node;
use dm_tree::{NewNode, NodeId, Tree, Undo};
use dm_undo::Journal;
use dm_uri::{Path, parse};
use std::alloc::Global;

/// The path of a URI.
pub fn path_of(alloc: Global, uri: &[u8]) -> Result<Path, Fault>
    ensures { IfOk result (λ path. IsTrue (is_within_limits path)) }
{
    match parse(alloc, uri) {
        Ok(uri) => Ok(uri.path),
        Err(error) => Err(Fault::from(error)),
    }
}

// Puts a node in, and gives what takes that back.
fn insert(tree: &mut Tree, path: Path, new: NewNode) -> Result<Undo, Fault>
    requires within { IsTrue (is_within_limits path) }
    requires may { IsNewNode new }
    requires dynamic { new.permanent ≡ false }
    ensures { IfOk result (λ undo. TakesEditBack undo tree.old.rows tree.new.rows) }
{
    let mut above = path;
    let Some(name) = above.pop() else {
        return Err(Fault::Lost);
    };
    let Some(parent) = tree.find(&above) else {
        return Err(Fault::Lost);
    };
    if !tree.view(parent).interior || tree.child(parent, &name).is_some() {
        return Err(Fault::Lost);
    }
    match tree.insert(parent, name, new) {
        Ok((_, undo)) => Ok(undo),
        Err(error) => Err(Fault::from(error)),
    }
}

/// Adds a node, which the journal notes. Room is made before, so that nothing can fail behind the edit.
pub fn add(
    alloc: Global,
    tree: &mut Tree,
    journal: &mut Journal,
    uri: &[u8],
    interior: bool,
) -> Result<(), Fault>
    requires { IsSound journal.old.entries tree.old.rows }
    ensures { OnOk result (IsSound journal.new.entries tree.new.rows) }
{
    let path = path_of(alloc, uri)?;
    let new = new_node(alloc, interior)?;
    journal.reserve(1)?;
    let undo = insert(tree, path, new)?;
    journal.note(undo);
    Ok(())
}

/// Takes a node out with all that stands below it, which the journal notes.
pub fn remove(tree: &mut Tree, journal: &mut Journal, id: NodeId) -> Result<(), Fault>
    requires live { IsLive tree.old.rows id }
    requires sound { IsSound journal.old.entries tree.old.rows }
    ensures { OnOk result (IsSound journal.new.entries tree.new.rows) }
{
    if tree.view(id).permanent {
        return Err(Fault::Lost);
    }
    journal.reserve(1)?;
    let undo = tree.detach(id);
    journal.note(undo);
    Ok(())
}

/// Drops all that the journal could go back to.
pub fn settle(tree: &mut Tree, journal: &mut Journal)
    requires { IsSound journal.old.entries tree.old.rows }
    ensures sound { IsSound journal.new.entries tree.new.rows }
    ensures empty { journal.new.entries ≡ [] }
{
    let mark = journal.mark();
    let _ = journal.settle(tree, mark);
}
