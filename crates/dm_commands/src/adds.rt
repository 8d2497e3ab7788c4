// Add: a new node below an interior one.
ghost use Rattle.std.specs.Prelude.{◌≡◌, ◌≤◌, ◌∷◌, ◌++◌, [], length, true, false, None, IfOk, OnOk, OnErr};
ghost use Rattle.std.specs.Prelude.{IsTrue, MatchOption};
ghost use Rattle.std.specs.FinMap as map;
ghost use Rattle.dm_base.specs.Limits.{object_limit};
ghost use Rattle.dm_uri.specs.Names.{is_within_limits};
ghost use Rattle.dm_tree.specs.declared.nodes.Stamp.{Stamp as Time};
ghost use Rattle.dm_tree.specs.Nodes.{above, made, tree_order};
ghost use Rattle.dm_tree.specs.Rows.{nodes, node_of, path_of, IsLive};
ghost use Rattle.dm_commands.specs.Outcomes.{asked_by, changed_to, first_refusal, RefusesFirst};
ghost use Rattle.dm_commands.specs.Table.{add as added, is_root_path, add_refusals, node_refusals};
ghost use Rattle.dm_commands.specs.Table.{added_format as format_of, added_media as media_of, added_node as node_for};
ghost use Rattle.dm_commands.specs.Promises.{CarriesOut, none_moved, StaysAsBefore};
ghost use Rattle.dm_commands.specs.Places.{IsDestination};

use crate::noting::put_in;
use crate::outcome::{Outcome, refuse};
use crate::targets::has_query;
use crate::values::{given_or, has_bad_meta, is_node_format, take_value};
use dm_acl::Right;
use dm_base::{Bytes, Memory};
use dm_tree::edits::NODE_LIMIT;
use dm_tree::{NewNode, NodeId, Role, Tree, Value};
use dm_undo::Journal;
use dm_uri::{Name, Path, Uri};
use std::alloc::Global;
use syncml_types::Step;

/// Where a new node comes.
#[derive(Drop)]
pub(crate) struct Destination {
    pub parent: NodeId,
    pub name: Name,
}

fn added_format(step: &Step) -> &[u8]
    ensures { result.now ≡ format_of step.now }
{
    given_or(&step.format, b"chr")
}

fn added_media(step: &Step) -> &[u8]
    ensures { result.now ≡ media_of step.now }
{
    if is_node_format(added_format(step)) {
        given_or(&step.media, b"")
    } else {
        given_or(&step.media, b"text/plain")
    }
}

fn added_node(alloc: Global, step: &mut Step) -> Result<NewNode, Memory>
    ensures node { IfOk result (λ node. (node.permanent ≡ false)
        × ((clock : Time) → made clock node ≡ node_for clock step.old)) }
    ensures step { step.new ≡ record step.old { value = step.new.value } }
    ensures value_gone { OnOk result (step.new.value ≡ []) }
{
    let interior = is_node_format(added_format(step));
    let format = Bytes::of_slice(alloc, added_format(step))?;
    let media = Bytes::of_slice(alloc, added_media(step))?;
    let bytes = take_value(alloc, step);
    Ok(NewNode {
        interior,
        value: Value {
            format,
            media,
            bytes,
        },
        acl: None,
        title: Bytes::new(alloc),
        permanent: false,
        role: Role::Plain,
    })
}

// What is refused of a new node, whatever its place.
fn node_refusal(tree: &Tree, step: &Step) -> Result<(), u32>
    ensures { RefusesFirst (node_refusals (nodes tree.now.rows) step.now) result }
{
    if has_bad_meta(added_format(step), added_media(step)) {
        return Err(415);
    }
    if is_node_format(added_format(step)) && !step.value.is_empty() {
        return Err(400);
    }
    if tree.count() == NODE_LIMIT {
        return Err(500);
    }
    Ok(())
}

// The path above, and the last name. None comes exactly at the root.
fn split(path: Path) -> Option<(Path, Name)>
    ensures { MatchOption result (is_root_path path ≡ true)
        (λ r. (is_root_path path ≡ false) × (above path ≡ r.0) × (path ≡ r.0 ++ r.1 ∷ [])) }
{
    let mut above = path;
    let name = above.pop()?;
    Some((above, name))
}

// The place of a new node, or the code of the first refusal.
fn add_place(tree: &Tree, caller: &[u8], step: &Step, uri: Uri) -> Result<Destination, u32>
    ensures judged { RefusesFirst
        (add_refusals (asked_by caller.now tree.now.clock) (nodes tree.now.rows) step.now uri) result }
    ensures place { IfOk result (λ place. IsDestination tree.now.rows uri.path place) }
{
    if has_query(uri.query) {
        return Err(405);
    }
    let Some((above, name)) = split(uri.path) else {
        return Err(418);
    };
    let Some(parent) = tree.find(&above) else {
        return Err(404);
    };
    if !tree.view(parent).interior {
        return Err(405);
    }
    if !tree.allows(parent, caller, Right::Add) {
        return Err(425);
    }
    if tree.child(parent, &name).is_some() {
        return Err(418);
    }
    match node_refusal(tree, step) {
        Ok(()) => Ok(Destination { parent, name }),
        Err(code) => Err(code),
    }
}

// Adds the node where nothing was refused.
fn add_at(
    alloc: Global,
    tree: &mut Tree,
    journal: &mut Journal,
    place: Destination,
    step: &mut Step,
) -> Result<Outcome, Memory>
    requires place { IsDestination tree.old.rows (path_of tree.old.rows place.parent ++ place.name ∷ []) place }
    requires within { IsTrue (is_within_limits (path_of tree.old.rows place.parent ++ place.name ∷ [])) }
    requires passed { first_refusal (node_refusals (nodes tree.old.rows) step.old) ≡ None }
    requires short { length step.old.value ≤ object_limit }
    ensures ok { IfOk result (λ outcome. CarriesOut (changed_to (map.insert (nodes tree.old.rows)
        (path_of tree.old.rows place.parent ++ place.name ∷ []) (node_for tree.old.clock step.old))) none_moved
        journal.old tree.old journal.new tree.new outcome) }
    ensures step { step.new ≡ record step.old { value = step.new.value } }
    ensures err { OnErr result (StaysAsBefore journal.old tree.old journal.new tree.new) }
{
    let node = added_node(alloc, step)?;
    put_in(tree, journal, place.parent, place.name, node)?;
    Ok(Outcome::of_code(alloc, 200))
}

/// A new node, at the target.
pub(crate) fn add(
    alloc: Global,
    tree: &mut Tree,
    journal: &mut Journal,
    caller: &[u8],
    step: &mut Step,
    uri: Uri,
) -> Result<Outcome, Memory>
    requires within { IsTrue (is_within_limits uri.path) }
    requires short { length step.old.value ≤ object_limit }
    ensures ok { IfOk result (λ outcome. CarriesOut
        (added (asked_by caller.now tree.old.clock) (nodes tree.old.rows) step.old uri) none_moved
        journal.old tree.old journal.new tree.new outcome) }
    ensures step { step.new ≡ record step.old { value = step.new.value } }
    ensures err { OnErr result (StaysAsBefore journal.old tree.old journal.new tree.new) }
{
    match add_place(tree, caller, step, uri) {
        Ok(place) => add_at(alloc, tree, journal, place, step),
        Err(code) => Ok(refuse(alloc, tree, journal, code)),
    }
}
