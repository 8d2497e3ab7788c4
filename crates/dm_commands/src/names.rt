// Replace of a name: the node and all that stands below it come to stand under other paths.
ghost use Rattle.std.specs.Prelude.{◌≡◌, false, Some, IfOk, IfSome, OnErr};
ghost use Rattle.std.specs.FinMap as map;
ghost use Rattle.dm_tree.specs.Nodes.{is_below, tree_order};
ghost use Rattle.dm_tree.specs.Rows.{nodes, ids, node_of, path_of, IsLive};
ghost use Rattle.dm_commands.specs.Outcomes.{asked_by, RefusesFirst};
ghost use Rattle.dm_commands.specs.Table.{replace_name as name_replaced, name_refusals, name_text_refusals};
ghost use Rattle.dm_commands.specs.Table.{rename_refusals, beside, is_taken_beside};
ghost use Rattle.dm_commands.specs.Places.{IsAt, IsRenaming};
ghost use Rattle.dm_commands.specs.Promises.{CarriesOut, StaysAsBefore};

use crate::noting::put_name;
use crate::outcome::{Outcome, refuse};
use crate::targets::node_above;
use dm_acl::Right;
use dm_base::Memory;
use dm_tree::{NodeId, Tree};
use dm_undo::Journal;
use dm_uri::{Name, Uri, UriError, parse_name};
use std::alloc::Global;
use syncml_types::Step;

/// A node, and the name that it is to have.
#[derive(Drop)]
pub(crate) struct Renaming {
    pub id: NodeId,
    pub name: Name,
}

// Whether another node beside this one has the name.
fn is_taken(tree: &Tree, id: NodeId, name: &Name) -> bool
    requires { IsLive tree.now.rows id }
    ensures taken { result ≡ is_taken_beside (nodes tree.now.rows) (path_of tree.now.rows id) name.now }
    ensures free { result ≡ false → IfSome (map.get (ids tree.now.rows) (beside (path_of tree.now.rows id) name.now))
        (λ other. other ≡ id) }
{
    match tree.child(node_above(tree, id), name) {
        Some(other) => other != id,
        None => false,
    }
}

// The name that a text gives, or the code of a text that is none.
#[tactic(auto, unfolding(dm_uri::specs::Reading::parse_name_of))]
fn given_name(alloc: Global, text: &[u8]) -> Result<Result<Name, u32>, Memory>
    ensures judged { IfOk result (λ name. RefusesFirst (name_text_refusals text.now) name) }
    ensures name { IfOk result (λ judged. IfOk judged (λ name. name ≡ text.now)) }
{
    match parse_name(alloc, text) {
        Ok(name) => Ok(Ok(name)),
        Err(UriError::Malformed) => Ok(Err(400)),
        Err(UriError::TooLong) => Ok(Err(414)),
        Err(UriError::UnknownQuery) => Ok(Err(400)),
        Err(UriError::Memory) => Err(Memory),
    }
}

// The target, where the caller may give it another name, or the code of the first refusal before the name is looked at.
fn name_place(tree: &Tree, caller: &[u8], uri: &Uri) -> Result<NodeId, u32>
    ensures judged { RefusesFirst
        (rename_refusals (asked_by caller.now tree.now.clock) (nodes tree.now.rows) uri.now) result }
    ensures place { IfOk result (λ id. IsAt tree.now.rows uri.now.path id
        × (map.get (nodes tree.now.rows) uri.now.path ≡ Some (node_of tree.now.rows id))
        × ((node_of tree.now.rows id).permanent ≡ false)) }
{
    let Some(id) = tree.find(&uri.path) else {
        return Err(404);
    };
    if !tree.allows(id, caller, Right::Replace) {
        return Err(425);
    }
    if tree.view(id).permanent {
        return Err(405);
    }
    Ok(id)
}

// The target and its new name, or the code of the first refusal.
fn given_renaming(
    alloc: Global,
    tree: &Tree,
    caller: &[u8],
    step: &Step,
    uri: &Uri,
) -> Result<Result<Renaming, u32>, Memory>
    ensures judged { IfOk result (λ renaming. RefusesFirst
        (name_refusals (asked_by caller.now tree.now.clock) (nodes tree.now.rows) step.now uri.now) renaming) }
    ensures place { IfOk result (λ judged. IfOk judged (IsRenaming tree.now.rows uri.now.path step.now.value)) }
{
    let id = match name_place(tree, caller, uri) {
        Ok(id) => id,
        Err(code) => return Ok(Err(code)),
    };
    let name = match given_name(alloc, step.value.as_slice()) {
        Ok(Ok(name)) => name,
        Ok(Err(code)) => return Ok(Err(code)),
        Err(memory) => return Err(memory),
    };
    if is_taken(tree, id, &name) {
        return Ok(Err(418));
    }
    if !tree.fits(id, &name) {
        return Ok(Err(414));
    }
    Ok(Ok(Renaming { id, name }))
}

/// The name of the target.
pub(crate) fn replace_name(
    alloc: Global,
    tree: &mut Tree,
    journal: &mut Journal,
    caller: &[u8],
    step: &Step,
    uri: &Uri,
) -> Result<Outcome, Memory>
    ensures ok { IfOk result (λ outcome. CarriesOut
        (name_replaced (asked_by caller.now tree.old.clock) (nodes tree.old.rows) step.now uri.now)
        (is_below uri.now.path) journal.old tree.old journal.new tree.new outcome) }
    ensures err { OnErr result (StaysAsBefore journal.old tree.old journal.new tree.new) }
{
    let renaming = match given_renaming(alloc, tree, caller, step, uri) {
        Ok(Ok(renaming)) => renaming,
        Ok(Err(code)) => return Ok(refuse(alloc, tree, journal, code)),
        Err(memory) => return Err(memory),
    };
    put_name(tree, journal, renaming.id, renaming.name)?;
    Ok(Outcome::of_code(alloc, 200))
}
