// Replace of an access list and of a title. No other property is written, but the name.
ghost use Rattle.std.specs.FinMap as map;
ghost use Rattle.std.specs.Prelude.{◌≡◌, ◌≤◌, true, Some, IfOk, IfSome, IsSome, OnErr, length};
ghost use Rattle.dm_tree.specs.Nodes.{tree_order, IsReadAgain};
ghost use Rattle.dm_tree.specs.Rows.{nodes, node_of, path_of, IsLive};
ghost use Rattle.dm_commands.specs.Outcomes.{asked_by, RefusesFirst};
ghost use Rattle.dm_commands.specs.Table.{replace_acl as acl_replaced, acl_refusals, acl_text_refusals, acl_given};
ghost use Rattle.dm_commands.specs.Table.{acl_decider as decider, replace_title as title_replaced, title_refusals};
ghost use Rattle.dm_commands.specs.Table.{replace_other as other_replaced};
ghost use Rattle.dm_commands.specs.Places.{IsAt, IsAclChange};
ghost use Rattle.dm_commands.specs.Promises.{CarriesOut, none_moved, StaysAsBefore};

use crate::noting::{put_acl, put_title};
use crate::outcome::{Outcome, refuse};
use crate::targets::node_above;
use dm_acl::{Acl, AclError, Right};
use dm_base::Memory;
use dm_tree::{NodeId, Tree};
use dm_undo::Journal;
use dm_uri::Uri;
use std::alloc::Global;
use syncml_types::Step;
use syncml_types::put_value::is_plain_text;

const TITLE_LIMIT: usize = 255;

/// A node, and the access list that it is to have, or none.
#[derive(Drop)]
pub(crate) struct AclChange {
    pub id: NodeId,
    pub acl: Option<Acl>,
}

// The node whose Replace decides on an access list.
fn acl_decider(tree: &Tree, id: NodeId) -> NodeId
    requires { IsLive tree.now.rows id }
    ensures { IsAt tree.now.rows (decider (nodes tree.now.rows) (path_of tree.now.rows id)) result }
{
    if tree.view(id).interior {
        id
    } else {
        node_above(tree, id)
    }
}

// The access list that a text gives a node, which the empty text takes away; or the code of a text that gives none.
fn given_acl(
    alloc: Global,
    id: NodeId,
    text: &[u8],
    at_root: bool,
) -> Result<Result<AclChange, u32>, Memory>
    ensures judged { IfOk result (λ given. RefusesFirst (acl_text_refusals text.now at_root) given) }
    ensures given { IfOk result (λ judged. IfOk judged (λ given. (given.id ≡ id) × (given.acl ≡ acl_given text.now)
        × IfSome given.acl IsReadAgain × (at_root ≡ true → IsSome given.acl))) }
{
    if text.is_empty() {
        if at_root {
            return Ok(Err(405));
        }
        return Ok(Ok(AclChange { id, acl: None }));
    }
    match Acl::parse(alloc, text) {
        Ok(acl) => Ok(Ok(AclChange { id, acl: Some(acl) })),
        Err(AclError::Malformed(_)) => Ok(Err(400)),
        Err(AclError::Memory) => Err(Memory),
    }
}

// The target and its new access list, or the code of the first refusal.
fn acl_place(
    alloc: Global,
    tree: &Tree,
    caller: &[u8],
    step: &Step,
    uri: &Uri,
) -> Result<Result<AclChange, u32>, Memory>
    ensures judged { IfOk result (λ given. RefusesFirst
        (acl_refusals (asked_by caller.now tree.now.clock) (nodes tree.now.rows) step.now uri.now) given) }
    ensures place { IfOk result (λ judged. IfOk judged (IsAclChange tree.now.rows uri.now.path step.now.value)) }
{
    let Some(id) = tree.find(&uri.path) else {
        return Ok(Err(404));
    };
    if !tree.allows(acl_decider(tree, id), caller, Right::Replace) {
        return Ok(Err(425));
    }
    given_acl(
        alloc,
        id,
        step.value.as_slice(),
        uri.path.as_slice().is_empty(),
    )
}

/// The access list of the target; the empty text takes it away.
pub(crate) fn replace_acl(
    alloc: Global,
    tree: &mut Tree,
    journal: &mut Journal,
    caller: &[u8],
    step: &Step,
    uri: &Uri,
) -> Result<Outcome, Memory>
    ensures ok { IfOk result (λ outcome. CarriesOut
        (acl_replaced (asked_by caller.now tree.old.clock) (nodes tree.old.rows) step.now uri.now) none_moved
        journal.old tree.old journal.new tree.new outcome) }
    ensures err { OnErr result (StaysAsBefore journal.old tree.old journal.new tree.new) }
{
    let given = match acl_place(alloc, tree, caller, step, uri) {
        Ok(Ok(given)) => given,
        Ok(Err(code)) => return Ok(refuse(alloc, tree, journal, code)),
        Err(memory) => return Err(memory),
    };
    put_acl(tree, journal, given.id, given.acl)?;
    Ok(Outcome::of_code(alloc, 200))
}

fn title_place(tree: &Tree, caller: &[u8], step: &Step, uri: &Uri) -> Result<NodeId, u32>
    ensures judged { RefusesFirst
        (title_refusals (asked_by caller.now tree.now.clock) (nodes tree.now.rows) step.now uri.now) result }
    ensures place { IfOk result (λ id. IsAt tree.now.rows uri.now.path id
        × (map.get (nodes tree.now.rows) uri.now.path ≡ Some (node_of tree.now.rows id))
        × (length step.now.value ≤ 255)) }
{
    let Some(id) = tree.find(&uri.path) else {
        return Err(404);
    };
    if !tree.allows(id, caller, Right::Replace) {
        return Err(425);
    }
    if step.value.len() > TITLE_LIMIT || !is_plain_text(step.value.as_slice()) {
        return Err(400);
    }
    Ok(id)
}

/// The title of the target.
pub(crate) fn replace_title(
    alloc: Global,
    tree: &mut Tree,
    journal: &mut Journal,
    caller: &[u8],
    step: &Step,
    uri: &Uri,
) -> Result<Outcome, Memory>
    ensures ok { IfOk result (λ outcome. CarriesOut
        (title_replaced (asked_by caller.now tree.old.clock) (nodes tree.old.rows) step.now uri.now) none_moved
        journal.old tree.old journal.new tree.new outcome) }
    ensures err { OnErr result (StaysAsBefore journal.old tree.old journal.new tree.new) }
{
    let id = match title_place(tree, caller, step, uri) {
        Ok(id) => id,
        Err(code) => return Ok(refuse(alloc, tree, journal, code)),
    };
    let title = step.value.copy(alloc)?;
    put_title(tree, journal, id, title)?;
    Ok(Outcome::of_code(alloc, 200))
}

/// What no command writes is refused.
pub(crate) fn replace_other(alloc: Global, tree: &Tree, journal: &Journal, uri: &Uri) -> Outcome
    ensures { CarriesOut (other_replaced (nodes tree.now.rows) uri.now) none_moved
        journal.now tree.now journal.now tree.now result }
{
    match tree.find(&uri.path) {
        Some(_) => refuse(alloc, tree, journal, 405),
        None => refuse(alloc, tree, journal, 404),
    }
}
