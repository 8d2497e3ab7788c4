// Get: a node, one of its properties, or a list of what stands below it.
ghost use Rattle.std.specs.Prelude.{◌≡◌, ◌∷◌, [], Some, IfOk, IsSome};
ghost use Rattle.std.specs.FinMap.{get};
ghost use Rattle.dm_uri.specs.Grammar.{printed};
ghost use Rattle.dm_tree.specs.Views.{shown};
ghost use Rattle.dm_tree.specs.Rows.{nodes, path_of, IsLive};
ghost use Rattle.dm_commands.specs.Outcomes.{asked_by, node_at, RefusesFirst};
ghost use Rattle.dm_commands.specs.Table.{get_ as got, get_refusals, asks_size as is_size};
ghost use Rattle.dm_commands.specs.Finding.{found_node as found_of, found_by, node_value as value_of_node};
ghost use Rattle.dm_commands.specs.Finding.{prop_format as format_of, prop_found as prop_of};
ghost use Rattle.dm_commands.specs.Places.{IsAt};
ghost use Rattle.dm_commands.specs.Promises.{CarriesOut, none_moved};

use crate::lists::list_below;
use crate::outcome::{Found, Outcome, refuse};
use crate::prop_texts::prop_value;
use dm_acl::Right;
use dm_base::{Bytes, List, Memory};
use dm_tree::{NodeId, Tree, View};
use dm_undo::Journal;
use dm_uri::{Prop, Query, Uri, print};
use std::alloc::Global;

fn asks_size(query: Query) -> bool
    ensures { result ≡ is_size query }
{
    match query {
        Query::Prop(Prop::Size) => true,
        _ => false,
    }
}

fn get_place(tree: &Tree, caller: &[u8], uri: &Uri) -> Result<NodeId, u32>
    ensures judged { RefusesFirst (get_refusals (asked_by caller.now tree.now.clock) (nodes tree.now.rows) uri.now) result }
    ensures place { IfOk result (λ id. IsAt tree.now.rows uri.now.path id) }
    ensures there { IfOk result (λ _. IsSome (get (nodes tree.now.rows) uri.now.path)) }
{
    let Some(id) = tree.find(&uri.path) else {
        return Err(404);
    };
    if !tree.allows(id, caller, Right::Get) {
        return Err(425);
    }
    if asks_size(uri.query) && tree.view(id).interior {
        return Err(406);
    }
    Ok(id)
}

fn printed_uri(alloc: Global, uri: &Uri) -> Result<Bytes, Memory>
    ensures { IfOk result (λ text. text ≡ printed uri.now) }
{
    match print(alloc, uri) {
        Ok(text) => Ok(Bytes::of_vec(text)),
        Err(_) => Err(Memory),
    }
}

/// A node's Format, a leaf's Type, and a value.
#[inline(always)]
pub(crate) fn found_at(
    alloc: Global,
    uri: Bytes,
    view: View,
    value: Option<Bytes>,
) -> Result<Found, Memory>
    ensures { IfOk result (λ found. found ≡ found_of uri (shown view.entry) value) }
{
    let media = if view.interior {
        None
    } else {
        Some(view.value.media.copy(alloc)?)
    };
    Ok(Found {
        uri,
        format: view.value.format.copy(alloc)?,
        media,
        value,
    })
}

fn node_value(alloc: Global, tree: &Tree, id: NodeId) -> Result<Bytes, Memory>
    requires { IsLive tree.now.rows id }
    ensures { IfOk result (λ value. value ≡ value_of_node (nodes tree.now.rows) (path_of tree.now.rows id)) }
{
    let view = tree.view(id);
    if view.interior {
        tree.child_names(alloc, id)
    } else {
        view.value.bytes.copy(alloc)
    }
}

fn found_node(alloc: Global, tree: &Tree, id: NodeId, uri: &Uri) -> Result<List<Found>, Memory>
    requires { IsLive tree.now.rows id }
    ensures { IfOk result (λ found. found
        ≡ found_of (printed uri.now) (node_at (nodes tree.now.rows) (path_of tree.now.rows id))
        (Some (value_of_node (nodes tree.now.rows) (path_of tree.now.rows id))) ∷ []) }
{
    let text = printed_uri(alloc, uri)?;
    let value = node_value(alloc, tree, id)?;
    let found = found_at(alloc, text, tree.view(id), Some(value))?;
    let mut list = List::new(alloc);
    list.push(found)?;
    Ok(list)
}

// Size and VerNo are numbers.
fn prop_format(prop: Prop) -> &'static [u8]
    ensures { result.now ≡ format_of prop }
{
    match prop {
        Prop::Size | Prop::VerNo => b"int",
        _ => b"chr",
    }
}

fn found_prop(
    alloc: Global,
    tree: &Tree,
    id: NodeId,
    uri: &Uri,
    prop: Prop,
) -> Result<List<Found>, Memory>
    requires { IsLive tree.now.rows id }
    ensures { IfOk result (λ found. found ≡ prop_of (printed uri.now) (path_of tree.now.rows id)
        (node_at (nodes tree.now.rows) (path_of tree.now.rows id)) prop ∷ []) }
{
    let found = Found {
        uri: printed_uri(alloc, uri)?,
        format: Bytes::of_slice(alloc, prop_format(prop))?,
        media: None,
        value: Some(prop_value(alloc, tree.view(id), prop)?),
    };
    let mut list = List::new(alloc);
    list.push(found)?;
    Ok(list)
}

fn found_by_query(
    alloc: Global,
    tree: &Tree,
    caller: &[u8],
    id: NodeId,
    uri: &Uri,
) -> Result<List<Found>, Memory>
    requires place { IsAt tree.now.rows uri.now.path id }
    requires there { IsSome (get (nodes tree.now.rows) uri.now.path) }
    ensures { IfOk result (λ found. found
        ≡ found_by (asked_by caller.now tree.now.clock) (nodes tree.now.rows) uri.now uri.now.query) }
{
    match uri.query {
        Query::Plain => found_node(alloc, tree, id, uri),
        Query::Prop(prop) => found_prop(alloc, tree, id, uri, prop),
        Query::Struct => list_below(alloc, tree, caller, id, false),
        Query::StructData => list_below(alloc, tree, caller, id, true),
    }
}

/// What the target asks for.
pub(crate) fn get(
    alloc: Global,
    tree: &Tree,
    journal: &Journal,
    caller: &[u8],
    uri: &Uri,
) -> Result<Outcome, Memory>
    ensures { IfOk result (λ outcome. CarriesOut
        (got (asked_by caller.now tree.now.clock) (nodes tree.now.rows) uri.now) none_moved
        journal.now tree.now journal.now tree.now outcome) }
{
    let id = match get_place(tree, caller, uri) {
        Ok(id) => id,
        Err(code) => return Ok(refuse(alloc, tree, journal, code)),
    };
    let results = found_by_query(alloc, tree, caller, id, uri)?;
    Ok(Outcome {
        code: 200,
        results,
        started: false,
    })
}
