// The end of an update.
ghost use Rattle.std.specs.Prelude.{◌≡◌, [], false, IfOk, OnOk, OnErr};
ghost use Rattle.dm_fumo.specs.States.{progressing};
ghost use Rattle.dm_tree.specs.Nodes.{IsValue};
ghost use Rattle.dm_tree.specs.Rows.{nodes, ids, node_of, IsLive};
ghost use Rattle.dm_tree.specs.Devices.{IsUpdateInOrder};
ghost use Rattle.dm_undo.specs.Notes.{Notes};
ghost use Rattle.dm_commands.specs.Updates.{state_in_tree, update_ended};
ghost use Rattle.dm_commands.specs.Promises.{StaysAsBefore};

use crate::execs::restated;
use crate::noting::{put_value, put_values};
use crate::values::value_of;
use dm_base::Memory;
use dm_fumo::after_result;
use dm_tree::{NodeId, Tree, Value};
use dm_undo::Journal;
use std::alloc::Global;

// A leaf's value without its bytes.
fn emptied(alloc: Global, tree: &Tree, id: NodeId) -> Result<Value, Memory>
    requires live { IsLive tree.now.rows id }
    requires leaf { (node_of tree.now.rows id).interior ≡ false }
    ensures bytes { IfOk result (λ value. value ≡ record (node_of tree.now.rows id).value { bytes = [] }) }
    ensures value { IfOk result (λ value. IsValue false value) }
{
    // It tells that each node keeps to the limits.
    let _ = tree.root();
    let kept = tree.view(id).value;
    value_of(alloc, kept.format.as_slice(), kept.media.as_slice(), b"")
}

/// The end of the update that runs: State is 100 and the package is empty where it succeeded, else State is 70. Each
/// edit is noted, and no less is spare in the journal than before. `Memory` is the only error; the tree and the
/// journal's entries are then as before.
pub fn end_update(
    alloc: Global,
    tree: &mut Tree,
    journal: &mut Journal,
    ok: bool,
) -> Result<(), Memory>
    requires update { IsUpdateInOrder (nodes tree.old.rows) }
    requires running { state_in_tree (nodes tree.old.rows) ≡ progressing }
    ensures nodes { OnOk result (nodes tree.new.rows ≡ update_ended tree.old.clock (nodes tree.old.rows) ok) }
    ensures ids { OnOk result (ids tree.new.rows ≡ ids tree.old.rows) }
    ensures notes { OnOk result (Notes journal.old tree.old.rows journal.new tree.new.rows) }
    ensures clock { tree.new.clock ≡ tree.old.clock }
    ensures err { OnErr result (StaysAsBefore journal.old tree.old journal.new tree.new) }
{
    let _ = tree.root();
    let Some(found) = tree.update_ids() else {
        return Ok(());
    };
    let state = restated(alloc, tree, found.state, after_result(ok))?;
    if !ok {
        return put_value(tree, journal, found.state, state);
    }
    let written = emptied(alloc, tree, found.pkg_data)?;
    put_values(
        tree,
        journal,
        (found.pkg_data, written),
        (found.state, state),
    )
}
