// The update part of a tree. Its nodes come in one after another; where one may not, or memory runs out, those before
// it are taken out again.
ghost use Rattle.std.specs.Prelude.{◌≡◌, ◌≤◌, ◌<◌, ◌+◌, ◌++◌, ◌∷◌, [], true, length, suc, IfOk, IsTrue};
ghost use Rattle.dm_uri.specs.Names.{is_name, is_within_limits};
ghost use Rattle.dm_tree.specs.Nodes.{IsNewNode};
ghost use Rattle.dm_tree.specs.Rows.{nodes};
ghost use Rattle.dm_undo.specs.Trees.{Maps};
ghost use Rattle.dm_start.specs.Fields.{is_leaf_format};
ghost use Rattle.dm_start.specs.Growing as Spec;
ghost use Rattle.dm_start.specs.Laying.{Lays, ParksNone, SaysAs, GoesBackTo};

use crate::new_nodes::{add, below, copy_path, interior_node, new_node, value_of};
use dm_base::Memory;
use dm_fields::{BAD_TREE, LineError};
use dm_tree::{NewNode, Role, Tree};
use dm_undo::Journal;
use dm_uri::Path;
use std::alloc::Global;

// How many nodes an update part has.
const NODES: usize = 6;

// A leaf below an update's nodes.
#[derive(Clone, Copy)]
struct UpdateLeaf {
    name: &'static [u8],
    format: &'static [u8],
    bytes: &'static [u8],
    role: Role,
}

const PKG_NAME: UpdateLeaf = UpdateLeaf {
    name: b"PkgName",
    format: b"chr",
    bytes: b"",
    role: Role::Plain,
};

const PKG_VERSION: UpdateLeaf = UpdateLeaf {
    name: b"PkgVersion",
    format: b"chr",
    bytes: b"",
    role: Role::Plain,
};

const PKG_DATA: UpdateLeaf = UpdateLeaf {
    name: b"PkgData",
    format: b"bin",
    bytes: b"",
    role: Role::PkgData,
};
// It is idle.
const STATE: UpdateLeaf = UpdateLeaf {
    name: b"State",
    format: b"int",
    bytes: b"10",
    role: Role::State,
};

fn update_leaf(alloc: Global, leaf: UpdateLeaf) -> Result<NewNode, Memory>
    ensures { IfOk result (λ node. node ≡ Spec.update_leaf leaf.format.now leaf.bytes.now leaf.role) }
{
    let value = value_of(alloc, leaf.format, b"text/plain", leaf.bytes)?;
    Ok(new_node(alloc, false, value, true, leaf.role))
}

// Adds a node, and notes it.
fn put(tree: &mut Tree, journal: &mut Journal, path: Path, node: NewNode) -> Result<(), LineError>
    requires within { IsTrue (is_within_limits path) }
    requires node { IsNewNode node }
    requires spare { length journal.old.entries < journal.old.room }
    ensures added { Lays (Spec.with_one tree.old.clock (nodes tree.old.rows) path node) tree.old tree.new result }
    ensures back { (m : Maps) → GoesBackTo m journal.old tree.old.rows → GoesBackTo m journal.new tree.new.rows }
    ensures room { journal.new.room ≡ journal.old.room }
    ensures entries { length journal.new.entries ≤ suc (length journal.old.entries) }
{
    match add(tree, path, node) {
        Ok(undo) => {
            journal.note(undo);
            Ok(())
        }
        Err(error) => Err(error),
    }
}

fn put_interior(
    alloc: Global,
    tree: &mut Tree,
    journal: &mut Journal,
    path: &Path,
    role: Role,
) -> Result<(), LineError>
    requires within { IsTrue (is_within_limits path.now) }
    requires spare { length journal.old.entries < journal.old.room }
    ensures added { Lays (Spec.with_one tree.old.clock (nodes tree.old.rows) path.now
        (Spec.new_node true Spec.interior_value true role)) tree.old tree.new result }
    ensures back { (m : Maps) → GoesBackTo m journal.old tree.old.rows → GoesBackTo m journal.new tree.new.rows }
    ensures room { journal.new.room ≡ journal.old.room }
    ensures entries { length journal.new.entries ≤ suc (length journal.old.entries) }
{
    let path = copy_path(alloc, path)?;
    let node = interior_node(alloc, true, role)?;
    put(tree, journal, path, node)?;
    Ok(())
}

fn put_leaf(
    alloc: Global,
    tree: &mut Tree,
    journal: &mut Journal,
    above: &Path,
    leaf: UpdateLeaf,
) -> Result<(), LineError>
    requires name { IsTrue (is_name leaf.name.now) }
    requires format { IsTrue (is_leaf_format leaf.format.now) }
    requires short { length leaf.bytes.now ≤ 255 }
    requires spare { length journal.old.entries < journal.old.room }
    ensures added { Lays (Spec.with_one tree.old.clock (nodes tree.old.rows) (above.now ++ leaf.name.now ∷ [])
        (Spec.update_leaf leaf.format.now leaf.bytes.now leaf.role)) tree.old tree.new result }
    ensures back { (m : Maps) → GoesBackTo m journal.old tree.old.rows → GoesBackTo m journal.new tree.new.rows }
    ensures room { journal.new.room ≡ journal.old.room }
    ensures entries { length journal.new.entries ≤ suc (length journal.old.entries) }
{
    let path = below(alloc, above, leaf.name)?;
    let node = update_leaf(alloc, leaf)?;
    put(tree, journal, path, node)?;
    Ok(())
}

fn put_update(
    alloc: Global,
    tree: &mut Tree,
    journal: &mut Journal,
    path: &Path,
) -> Result<(), LineError>
    requires within { IsTrue (is_within_limits path.now) }
    requires spare { length journal.old.entries + 6 ≤ journal.old.room }
    ensures said { SaysAs (λ _. nodes tree.new.rows)
        (Spec.with_all tree.old.clock (nodes tree.old.rows) (Spec.update_part path.now)) result }
    ensures back { (m : Maps) → GoesBackTo m journal.old tree.old.rows → GoesBackTo m journal.new tree.new.rows }
    ensures parked { ParksNone tree.old tree.new }
    ensures clock { tree.new.clock ≡ tree.old.clock }
{
    put_interior(alloc, tree, journal, path, Role::Plain)?;
    put_leaf(alloc, tree, journal, path, PKG_NAME)?;
    put_leaf(alloc, tree, journal, path, PKG_VERSION)?;
    let update = below(alloc, path, b"Update")?;
    put_interior(alloc, tree, journal, &update, Role::UpdateNode)?;
    put_leaf(alloc, tree, journal, &update, PKG_DATA)?;
    put_leaf(alloc, tree, journal, path, STATE)?;
    Ok(())
}

/// Adds the update part at a path, where the tree has none yet.
pub(crate) fn add_update(alloc: Global, tree: &mut Tree, path: &Path) -> Result<(), LineError>
    requires within { IsTrue (is_within_limits path.now) }
    ensures { Lays (Spec.with_update tree.old.clock (nodes tree.old.rows) path.now) tree.old tree.new result }
{
    if tree.update_node().is_some() {
        return Err(BAD_TREE);
    }
    // Its contract says that the tree is sound.
    let _ = tree.root();
    let mut journal = Journal::new(alloc)?;
    journal.reserve(NODES)?;
    let mark = journal.mark();
    match put_update(alloc, tree, &mut journal, path) {
        Ok(()) => Ok(()),
        Err(error) => {
            journal.unwind(tree, mark);
            Err(error)
        }
    }
}
