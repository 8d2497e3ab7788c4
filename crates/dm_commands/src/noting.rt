// Edits of the tree that are noted at once. Room for the note is made first, so nothing can fail behind an edit.
ghost use Rattle.std.specs.Prelude.{◌≡◌, ◌≢◌, ◌≤◌, ◌<◌, ◌+◌, ◌-◌, ◌^◌, ◌∷◌, ◌++◌, [], length, true, false, None};
ghost use Rattle.std.specs.Prelude.{IsTrue, IsSome, IfSome, OnOk, OnErr};
ghost use Rattle.std.specs.FinMap as map;
ghost use Rattle.dm_base.specs.Limits.{object_limit};
ghost use Rattle.dm_uri.specs.Names.{is_within_limits};
ghost use Rattle.dm_tree.specs.Nodes.{above, changed, made, with_value, with_bytes, with_acl, with_title, tree_order};
ghost use Rattle.dm_tree.specs.Nodes.{is_below, IsValue, IsReadAgain, IsNewNode};
ghost use Rattle.dm_tree.specs.Rows.{nodes, ids, node_of, path_of, IsLive};
ghost use Rattle.dm_tree.specs.Edits.{pruned, renamed, paths_fit};
ghost use Rattle.dm_undo.specs.Notes.{Notes};
ghost use Rattle.dm_commands.specs.Promises.{KeepIdsBut, none_moved, StaysAsBefore};

use dm_acl::Acl;
use dm_base::{Bytes, Memory};
use dm_tree::{NewNode, NodeId, Tree, Value};
use dm_undo::Journal;
use dm_uri::Name;

// Makes room for so many entries more than are spare.
fn make_room(journal: &mut Journal, count: usize) -> Result<(), Memory>
    requires few { count < 2 ^ 8 }
    ensures entries { journal.new.entries ≡ journal.old.entries }
    ensures more { journal.old.room ≤ journal.new.room }
    ensures room { OnOk result (journal.new.room - length journal.new.entries
        ≡ (journal.old.room - length journal.old.entries) + count) }
{
    journal.reserve(journal.spare() + count)
}

/// Sets the Format, Type and bytes of a leaf.
pub(crate) fn put_value(
    tree: &mut Tree,
    journal: &mut Journal,
    id: NodeId,
    value: Value,
) -> Result<(), Memory>
    requires live { IsLive tree.old.rows id }
    requires leaf { (node_of tree.old.rows id).interior ≡ false }
    requires value { IsValue false value }
    ensures nodes { OnOk result (nodes tree.new.rows ≡ map.insert (nodes tree.old.rows) (path_of tree.old.rows id)
        (changed tree.old.clock (with_value (node_of tree.old.rows id) value))) }
    ensures ids { OnOk result (ids tree.new.rows ≡ ids tree.old.rows) }
    ensures clock { tree.new.clock ≡ tree.old.clock }
    ensures notes { OnOk result (Notes journal.old tree.old.rows journal.new tree.new.rows) }
    ensures err { OnErr result (StaysAsBefore journal.old tree.old journal.new tree.new) }
{
    make_room(journal, 1)?;
    journal.note(tree.set_value(id, value));
    Ok(())
}

/// Sets the bytes of a leaf, whose Format and Type stay.
pub(crate) fn put_bytes(
    tree: &mut Tree,
    journal: &mut Journal,
    id: NodeId,
    bytes: Bytes,
) -> Result<(), Memory>
    requires live { IsLive tree.old.rows id }
    requires leaf { (node_of tree.old.rows id).interior ≡ false }
    requires short { length bytes ≤ object_limit }
    ensures nodes { OnOk result (nodes tree.new.rows ≡ map.insert (nodes tree.old.rows) (path_of tree.old.rows id)
        (changed tree.old.clock (with_bytes (node_of tree.old.rows id) bytes))) }
    ensures ids { OnOk result (ids tree.new.rows ≡ ids tree.old.rows) }
    ensures clock { tree.new.clock ≡ tree.old.clock }
    ensures notes { OnOk result (Notes journal.old tree.old.rows journal.new tree.new.rows) }
    ensures err { OnErr result (StaysAsBefore journal.old tree.old journal.new tree.new) }
{
    make_room(journal, 1)?;
    journal.note(tree.set_bytes(id, bytes));
    Ok(())
}

/// Sets a node's own access list, or takes it away.
pub(crate) fn put_acl(
    tree: &mut Tree,
    journal: &mut Journal,
    id: NodeId,
    acl: Option<Acl>,
) -> Result<(), Memory>
    requires live { IsLive tree.old.rows id }
    requires root { path_of tree.old.rows id ≡ [] → IsSome acl }
    requires again { IfSome acl IsReadAgain }
    ensures nodes { OnOk result (nodes tree.new.rows ≡ map.insert (nodes tree.old.rows) (path_of tree.old.rows id)
        (changed tree.old.clock (with_acl (node_of tree.old.rows id) acl))) }
    ensures ids { OnOk result (ids tree.new.rows ≡ ids tree.old.rows) }
    ensures clock { tree.new.clock ≡ tree.old.clock }
    ensures notes { OnOk result (Notes journal.old tree.old.rows journal.new tree.new.rows) }
    ensures err { OnErr result (StaysAsBefore journal.old tree.old journal.new tree.new) }
{
    make_room(journal, 1)?;
    journal.note(tree.set_acl(id, acl));
    Ok(())
}

/// Sets a node's title.
pub(crate) fn put_title(
    tree: &mut Tree,
    journal: &mut Journal,
    id: NodeId,
    title: Bytes,
) -> Result<(), Memory>
    requires live { IsLive tree.old.rows id }
    requires short { length title ≤ 255 }
    ensures nodes { OnOk result (nodes tree.new.rows ≡ map.insert (nodes tree.old.rows) (path_of tree.old.rows id)
        (changed tree.old.clock (with_title (node_of tree.old.rows id) title))) }
    ensures ids { OnOk result (ids tree.new.rows ≡ ids tree.old.rows) }
    ensures clock { tree.new.clock ≡ tree.old.clock }
    ensures notes { OnOk result (Notes journal.old tree.old.rows journal.new tree.new.rows) }
    ensures err { OnErr result (StaysAsBefore journal.old tree.old journal.new tree.new) }
{
    make_room(journal, 1)?;
    journal.note(tree.set_title(id, title));
    Ok(())
}

/// Gives a node another name, or the one that it has.
pub(crate) fn put_name(
    tree: &mut Tree,
    journal: &mut Journal,
    id: NodeId,
    name: Name,
) -> Result<(), Memory>
    requires live { IsLive tree.old.rows id }
    requires removable { (node_of tree.old.rows id).permanent ≡ false }
    requires free { IfSome (map.get (ids tree.old.rows) (above (path_of tree.old.rows id) ++ name ∷ []))
        (λ other. other ≡ id) }
    requires fits { IsTrue (paths_fit (nodes tree.old.rows) (path_of tree.old.rows id) name) }
    ensures nodes { OnOk result (nodes tree.new.rows
        ≡ map.insert (renamed (nodes tree.old.rows) (path_of tree.old.rows id) name)
        (above (path_of tree.old.rows id) ++ name ∷ []) (changed tree.old.clock (node_of tree.old.rows id))) }
    ensures ids { OnOk result
        (KeepIdsBut (is_below (path_of tree.old.rows id)) (ids tree.old.rows) (ids tree.new.rows)) }
    ensures clock { tree.new.clock ≡ tree.old.clock }
    ensures notes { OnOk result (Notes journal.old tree.old.rows journal.new tree.new.rows) }
    ensures err { OnErr result (StaysAsBefore journal.old tree.old journal.new tree.new) }
{
    make_room(journal, 1)?;
    journal.note(tree.rename(id, name));
    Ok(())
}

/// Takes a node out, with all that stands below it.
pub(crate) fn take_out(tree: &mut Tree, journal: &mut Journal, id: NodeId) -> Result<(), Memory>
    requires live { IsLive tree.old.rows id }
    requires removable { (node_of tree.old.rows id).permanent ≡ false }
    ensures nodes { OnOk result (nodes tree.new.rows ≡ pruned (nodes tree.old.rows) (path_of tree.old.rows id)) }
    ensures ids { OnOk result (ids tree.new.rows ≡ pruned (ids tree.old.rows) (path_of tree.old.rows id)) }
    ensures clock { tree.new.clock ≡ tree.old.clock }
    ensures notes { OnOk result (Notes journal.old tree.old.rows journal.new tree.new.rows) }
    ensures err { OnErr result (StaysAsBefore journal.old tree.old journal.new tree.new) }
{
    make_room(journal, 1)?;
    journal.note(tree.detach(id));
    Ok(())
}

/// Adds a node, where the tree has fewer than 65,536.
pub(crate) fn put_in(
    tree: &mut Tree,
    journal: &mut Journal,
    parent: NodeId,
    name: Name,
    node: NewNode,
) -> Result<(), Memory>
    requires live { IsLive tree.old.rows parent }
    requires interior { (node_of tree.old.rows parent).interior ≡ true }
    requires free { map.get (nodes tree.old.rows) (path_of tree.old.rows parent ++ name ∷ []) ≡ None }
    requires within { IsTrue (is_within_limits (path_of tree.old.rows parent ++ name ∷ [])) }
    requires permanent { node.permanent ≡ false }
    requires node { IsNewNode node }
    ensures nodes { OnOk result (nodes tree.new.rows ≡ map.insert (nodes tree.old.rows)
        (path_of tree.old.rows parent ++ name ∷ []) (made tree.old.clock node)) }
    ensures ids { OnOk result (KeepIdsBut none_moved (ids tree.old.rows) (ids tree.new.rows)) }
    ensures clock { tree.new.clock ≡ tree.old.clock }
    ensures notes { OnOk result (Notes journal.old tree.old.rows journal.new tree.new.rows) }
    ensures err { OnErr result (StaysAsBefore journal.old tree.old journal.new tree.new) }
{
    make_room(journal, 1)?;
    match tree.insert(parent, name, node) {
        Ok((_, undo)) => {
            journal.note(undo);
            Ok(())
        }
        Err(_) => Err(Memory),
    }
}

/// Sets two leaves, or neither of them.
pub(crate) fn put_values(
    tree: &mut Tree,
    journal: &mut Journal,
    first: (NodeId, Value),
    second: (NodeId, Value),
) -> Result<(), Memory>
    requires live { IsLive tree.old.rows first.0 × IsLive tree.old.rows second.0 }
    requires leaves { ((node_of tree.old.rows first.0).interior ≡ false)
        × ((node_of tree.old.rows second.0).interior ≡ false) }
    requires values { IsValue false first.1 × IsValue false second.1 }
    requires two { first.0 ≢ second.0 }
    ensures nodes { OnOk result (nodes tree.new.rows ≡ map.insert (map.insert (nodes tree.old.rows)
        (path_of tree.old.rows first.0) (changed tree.old.clock (with_value (node_of tree.old.rows first.0) first.1)))
        (path_of tree.old.rows second.0)
        (changed tree.old.clock (with_value (node_of tree.old.rows second.0) second.1))) }
    ensures ids { OnOk result (ids tree.new.rows ≡ ids tree.old.rows) }
    ensures clock { tree.new.clock ≡ tree.old.clock }
    ensures notes { OnOk result (Notes journal.old tree.old.rows journal.new tree.new.rows) }
    ensures err { OnErr result (StaysAsBefore journal.old tree.old journal.new tree.new) }
{
    make_room(journal, 2)?;
    journal.note(tree.set_value(first.0, first.1));
    journal.note(tree.set_value(second.0, second.1));
    Ok(())
}
