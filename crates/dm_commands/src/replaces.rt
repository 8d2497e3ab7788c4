// Replace of a leaf's value; a new package leads the update to another state.
ghost use Rattle.std.specs.Prelude.{◌≡◌, ◌≤◌, ◌==◌, [], false, None, length, IfOk, OnOk, OnErr};
ghost use Rattle.std.specs.Option.{option_map_or};
ghost use Rattle.std.specs.FinMap as map;
ghost use Rattle.dm_base.specs.Limits.{object_limit};
ghost use Rattle.dm_fumo.specs.States.{progressing};
ghost use Rattle.dm_tree.specs.declared.nodes.Role.TheVariants as role;
ghost use Rattle.dm_tree.specs.Nodes.{is_node_format as is_node, changed, with_value, tree_order, IsValue};
ghost use Rattle.dm_tree.specs.Rows.{nodes, ids, node_of, path_of, IsLive};
ghost use Rattle.dm_tree.specs.Devices.{IsUpdateInOrder};
ghost use Rattle.dm_undo.specs.Notes.{Notes};
ghost use Rattle.dm_commands.specs.Outcomes.{asked_by, RefusesFirst};
ghost use Rattle.dm_commands.specs.Updates.{state_in_tree, state_after_write, with_state};
ghost use Rattle.dm_commands.specs.Table.{replace_value as value_replaced, value_refusals, is_kept_from};
ghost use Rattle.dm_commands.specs.Table.{replaced_value as value_with};
ghost use Rattle.dm_commands.specs.Places.{IsAt};
ghost use Rattle.dm_commands.specs.Promises.{CarriesOut, none_moved, StaysAsBefore};

use crate::execs::restated;
use crate::noting::{put_bytes, put_value, put_values};
use crate::outcome::{Outcome, refuse};
use crate::updates::{state_above, state_written};
use crate::values::{given_or, has_bad_meta, is_node_format, is_role, take_value};
use dm_acl::Right;
use dm_base::{Bytes, Memory};
use dm_fumo::PROGRESSING;
use dm_tree::{NodeId, Role, Tree, Value};
use dm_undo::Journal;
use dm_uri::Uri;
use std::alloc::Global;
use syncml_types::Step;

fn gives_node_format(step: &Step) -> bool
    ensures { result ≡ option_map_or is_node step.now.format false }
{
    match &step.format {
        Some(format) => is_node_format(format.as_slice()),
        None => false,
    }
}

// Whether the update runs, and so keeps its package.
fn is_progressing(tree: &Tree, pkg_data: NodeId) -> bool
    requires place { IsLive tree.now.rows pkg_data }
    requires role { (node_of tree.now.rows pkg_data).role ≡ role.PkgData }
    requires update { IsUpdateInOrder (nodes tree.now.rows) }
    ensures { result ≡ (state_in_tree (nodes tree.now.rows) == progressing) }
{
    match state_above(tree, pkg_data) {
        Some(state) => state.state == PROGRESSING,
        None => false,
    }
}

// Whether only the device writes a node.
fn is_kept(tree: &Tree, id: NodeId) -> bool
    requires live { IsLive tree.now.rows id }
    requires update { IsUpdateInOrder (nodes tree.now.rows) }
    ensures { result ≡ is_kept_from (nodes tree.now.rows) (node_of tree.now.rows id) }
{
    let role = tree.view(id).role;
    is_role(role, Role::ReadOnly)
        || is_role(role, Role::State)
        || is_role(role, Role::PkgData) && is_progressing(tree, id)
}

fn value_place(tree: &Tree, caller: &[u8], step: &Step, uri: &Uri) -> Result<NodeId, u32>
    requires update { IsUpdateInOrder (nodes tree.now.rows) }
    ensures judged { RefusesFirst
        (value_refusals (asked_by caller.now tree.now.clock) (nodes tree.now.rows) step.now uri.now) result }
    ensures place { IfOk result (λ id. IsAt tree.now.rows uri.now.path id) }
{
    let Some(id) = tree.find(&uri.path) else {
        return Err(404);
    };
    if !tree.allows(id, caller, Right::Replace) {
        return Err(425);
    }
    let view = tree.view(id);
    if view.interior || gives_node_format(step) {
        return Err(405);
    }
    if is_kept(tree, id) {
        return Err(405);
    }
    let format = given_or(&step.format, view.value.format.as_slice());
    let media = given_or(&step.media, view.value.media.as_slice());
    if has_bad_meta(format, media) {
        return Err(415);
    }
    Ok(id)
}

fn replaced_value(alloc: Global, tree: &Tree, id: NodeId, step: &mut Step) -> Result<Value, Memory>
    requires { IsLive tree.now.rows id }
    ensures value { IfOk result (λ value. value ≡ value_with (node_of tree.now.rows id) step.old) }
    ensures step { step.new ≡ record step.old { value = step.new.value } }
    ensures value_gone { OnOk result (step.new.value ≡ []) }
{
    let kept = tree.view(id).value;
    let format = Bytes::of_slice(alloc, given_or(&step.format, kept.format.as_slice()))?;
    let media = Bytes::of_slice(alloc, given_or(&step.media, kept.media.as_slice()))?;
    let bytes = take_value(alloc, step);
    Ok(Value {
        format,
        media,
        bytes,
    })
}

// Sets the package, and State where it changes.
fn put_package(
    alloc: Global,
    tree: &mut Tree,
    journal: &mut Journal,
    id: NodeId,
    value: Value,
) -> Result<(), Memory>
    requires live { IsLive tree.old.rows id }
    requires role { (node_of tree.old.rows id).role ≡ role.PkgData }
    requires update { IsUpdateInOrder (nodes tree.old.rows) }
    requires leaf { (node_of tree.old.rows id).interior ≡ false }
    requires value { IsValue false value }
    ensures nodes { OnOk result (nodes tree.new.rows ≡ with_state (asked_by [] tree.old.clock) (nodes tree.old.rows)
        (map.insert (nodes tree.old.rows) (path_of tree.old.rows id)
        (changed tree.old.clock (with_value (node_of tree.old.rows id) value)))
        (state_after_write (nodes tree.old.rows) (length value.bytes == 0))) }
    ensures ids { OnOk result (ids tree.new.rows ≡ ids tree.old.rows) }
    ensures clock { tree.new.clock ≡ tree.old.clock }
    ensures notes { OnOk result (Notes journal.old tree.old.rows journal.new tree.new.rows) }
    ensures err { OnErr result (StaysAsBefore journal.old tree.old journal.new tree.new) }
{
    // It tells that the tree is in order.
    let _ = tree.root();
    let (state_id, state) = match state_above(tree, id) {
        Some(found) => (found.id, found.state),
        None => return put_value(tree, journal, id, value),
    };
    let next = state_written(state, value.bytes.is_empty());
    if next == state {
        return put_value(tree, journal, id, value);
    }
    let restated = restated(alloc, tree, state_id, next)?;
    put_values(tree, journal, (id, value), (state_id, restated))
}

// Sets what the step gives of a leaf's value. The rest stays, and isn't copied.
#[tactic(auto, using(crate::proofs::GivenValues::bytes_alone))]
fn put_given(
    alloc: Global,
    tree: &mut Tree,
    journal: &mut Journal,
    id: NodeId,
    step: &mut Step,
) -> Result<(), Memory>
    requires live { IsLive tree.old.rows id }
    requires leaf { (node_of tree.old.rows id).interior ≡ false }
    requires value { IsValue false (value_with (node_of tree.old.rows id) step.old) }
    ensures nodes { OnOk result (nodes tree.new.rows ≡ map.insert (nodes tree.old.rows) (path_of tree.old.rows id)
        (changed tree.old.clock
        (with_value (node_of tree.old.rows id) (value_with (node_of tree.old.rows id) step.old)))) }
    ensures ids { OnOk result (ids tree.new.rows ≡ ids tree.old.rows) }
    ensures clock { tree.new.clock ≡ tree.old.clock }
    ensures notes { OnOk result (Notes journal.old tree.old.rows journal.new tree.new.rows) }
    ensures err { OnErr result (StaysAsBefore journal.old tree.old journal.new tree.new) }
    ensures step { step.new ≡ record step.old { value = step.new.value } }
    ensures value_gone { OnOk result (step.new.value ≡ []) }
{
    match (&step.format, &step.media) {
        (None, None) => put_bytes(tree, journal, id, take_value(alloc, step)),
        _ => {
            let value = replaced_value(alloc, tree, id, step)?;
            put_value(tree, journal, id, value)
        }
    }
}

/// The value of the target, where it is a leaf that may be written.
pub(crate) fn replace_value(
    alloc: Global,
    tree: &mut Tree,
    journal: &mut Journal,
    caller: &[u8],
    step: &mut Step,
    uri: &Uri,
) -> Result<Outcome, Memory>
    requires update { IsUpdateInOrder (nodes tree.old.rows) }
    requires short { length step.old.value ≤ object_limit }
    ensures ok { IfOk result (λ outcome. CarriesOut
        (value_replaced (asked_by caller.now tree.old.clock) (nodes tree.old.rows) step.old uri.now) none_moved
        journal.old tree.old journal.new tree.new outcome) }
    ensures step { step.new ≡ record step.old { value = step.new.value } }
    ensures err { OnErr result (StaysAsBefore journal.old tree.old journal.new tree.new) }
{
    let _ = tree.root();
    let id = match value_place(tree, caller, step, uri) {
        Ok(id) => id,
        Err(code) => return Ok(refuse(alloc, tree, journal, code)),
    };
    if is_role(tree.view(id).role, Role::PkgData) {
        let value = replaced_value(alloc, tree, id, step)?;
        put_package(alloc, tree, journal, id, value)?;
    } else {
        put_given(alloc, tree, journal, id, step)?;
    }
    Ok(Outcome::of_code(alloc, 200))
}
