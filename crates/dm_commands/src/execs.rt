// Exec: the update starts.
ghost use Rattle.std.specs.Prelude.{◌≡◌, false, Some, length, IfOk, OnErr, nat_lt};
ghost use Rattle.std.specs.Option.{option_map_or};
ghost use Rattle.std.specs.Fmt.{decimal};
ghost use Rattle.dm_tree.specs.Nodes.{IsValue};
ghost use Rattle.dm_tree.specs.Rows.{nodes, node_of, IsLive};
ghost use Rattle.dm_tree.specs.Devices.{IsUpdateInOrder};
ghost use Rattle.dm_commands.specs.Outcomes.{asked_by, RefusesFirst};
ghost use Rattle.dm_commands.specs.Table.{exec as executed, exec_refusals};
ghost use Rattle.dm_commands.specs.Places.{IsState};
ghost use Rattle.dm_commands.specs.Promises.{CarriesOut, none_moved, StaysAsBefore};

use crate::noting::put_value;
use crate::outcome::{Outcome, refuse};
use crate::targets::has_query;
use crate::updates::{State, state_beside};
use crate::values::{decimal_text, is_role};
use dm_acl::Right;
use dm_base::{List, Memory};
use dm_fumo::{after_exec, may_exec};
use dm_tree::{NodeId, Role, Tree, Value};
use dm_undo::Journal;
use dm_uri::Uri;
use std::alloc::Global;
use syncml_types::Step;

const CORRELATOR_LIMIT: usize = 255;

fn is_long(step: &Step) -> bool
    ensures { result ≡ option_map_or (λ text. nat_lt 255 (length text)) step.now.correlator false }
{
    match &step.correlator {
        Some(text) => text.len() > CORRELATOR_LIMIT,
        None => false,
    }
}

// The State of the update that may start, or the code of the first refusal.
fn exec_place(tree: &Tree, caller: &[u8], step: &Step, uri: &Uri) -> Result<State, u32>
    requires update { IsUpdateInOrder (nodes tree.now.rows) }
    ensures judged { RefusesFirst
        (exec_refusals (asked_by caller.now tree.now.clock) (nodes tree.now.rows) step.now uri.now) result }
    ensures state { IfOk result (λ state. IsState tree.now.rows (Some state)) }
{
    if has_query(uri.query) {
        return Err(405);
    }
    let Some(id) = tree.find(&uri.path) else {
        return Err(404);
    };
    if !tree.allows(id, caller, Right::Exec) {
        return Err(425);
    }
    if !is_role(tree.view(id).role, Role::UpdateNode) {
        return Err(406);
    }
    match state_beside(tree, id) {
        Some(state) if may_exec(state.state) => {
            if is_long(step) {
                return Err(400);
            }
            Ok(state)
        }
        _ => Err(405),
    }
}

/// A leaf's value with a number in the place of its bytes.
pub(crate) fn restated(alloc: Global, tree: &Tree, id: NodeId, number: u8) -> Result<Value, Memory>
    requires live { IsLive tree.now.rows id }
    requires leaf { (node_of tree.now.rows id).interior ≡ false }
    ensures bytes { IfOk result (λ value. value ≡ record (node_of tree.now.rows id).value { bytes = decimal number }) }
    ensures value { IfOk result (λ value. IsValue false value) }
{
    // It tells that each node keeps to the limits.
    let _ = tree.root();
    let kept = tree.view(id).value;
    Ok(Value {
        format: kept.format.copy(alloc)?,
        media: kept.media.copy(alloc)?,
        bytes: decimal_text(alloc, number as u64)?,
    })
}

/// Starts the update that the target stands for.
pub(crate) fn exec(
    alloc: Global,
    tree: &mut Tree,
    journal: &mut Journal,
    caller: &[u8],
    step: &Step,
    uri: &Uri,
) -> Result<Outcome, Memory>
    requires update { IsUpdateInOrder (nodes tree.old.rows) }
    ensures ok { IfOk result (λ outcome. CarriesOut
        (executed (asked_by caller.now tree.old.clock) (nodes tree.old.rows) step.now uri.now) none_moved
        journal.old tree.old journal.new tree.new outcome) }
    ensures err { OnErr result (StaysAsBefore journal.old tree.old journal.new tree.new) }
{
    let _ = tree.root();
    let id = match exec_place(tree, caller, step, uri) {
        Ok(state) => state.id,
        Err(code) => return Ok(refuse(alloc, tree, journal, code)),
    };
    let value = restated(alloc, tree, id, after_exec())?;
    put_value(tree, journal, id, value)?;
    Ok(Outcome {
        code: 202,
        results: List::new(alloc),
        started: true,
    })
}
