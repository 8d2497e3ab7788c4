// Delete: a node goes, with all that stands below it.
ghost use Rattle.std.specs.Prelude.{◌≡◌, false, IfOk, OnErr};
ghost use Rattle.dm_tree.specs.Nodes.{is_below};
ghost use Rattle.dm_tree.specs.Rows.{nodes, node_of};
ghost use Rattle.dm_commands.specs.Outcomes.{asked_by, RefusesFirst};
ghost use Rattle.dm_commands.specs.Table.{delete as deleted, delete_refusals};
ghost use Rattle.dm_commands.specs.Places.{IsAt};
ghost use Rattle.dm_commands.specs.Promises.{CarriesOut, StaysAsBefore};

use crate::noting::take_out;
use crate::outcome::{Outcome, refuse};
use crate::targets::has_query;
use dm_acl::Right;
use dm_base::Memory;
use dm_tree::{NodeId, Tree};
use dm_undo::Journal;
use dm_uri::Uri;
use std::alloc::Global;

fn delete_place(tree: &Tree, caller: &[u8], uri: &Uri) -> Result<NodeId, u32>
    ensures judged { RefusesFirst
        (delete_refusals (asked_by caller.now tree.now.clock) (nodes tree.now.rows) uri.now) result }
    ensures place { IfOk result (λ id. IsAt tree.now.rows uri.now.path id
        × ((node_of tree.now.rows id).permanent ≡ false)) }
{
    if has_query(uri.query) {
        return Err(405);
    }
    let Some(id) = tree.find(&uri.path) else {
        return Err(404);
    };
    if !tree.allows(id, caller, Right::Delete) {
        return Err(425);
    }
    if tree.view(id).permanent {
        return Err(405);
    }
    Ok(id)
}

/// The target goes, with its subtree.
pub(crate) fn delete(
    alloc: Global,
    tree: &mut Tree,
    journal: &mut Journal,
    caller: &[u8],
    uri: &Uri,
) -> Result<Outcome, Memory>
    ensures ok { IfOk result (λ outcome. CarriesOut
        (deleted (asked_by caller.now tree.old.clock) (nodes tree.old.rows) uri.now) (is_below uri.now.path)
        journal.old tree.old journal.new tree.new outcome) }
    ensures err { OnErr result (StaysAsBefore journal.old tree.old journal.new tree.new) }
{
    let id = match delete_place(tree, caller, uri) {
        Ok(id) => id,
        Err(code) => return Ok(refuse(alloc, tree, journal, code)),
    };
    take_out(tree, journal, id)?;
    Ok(Outcome::of_code(alloc, 200))
}
