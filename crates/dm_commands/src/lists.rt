// The list of what stands at and below a node, in the order of the tree text.
ghost use Rattle.std.specs.Prelude.{◌≡◌, ◌∷◌, ◌++◌, [], IfOk, OnOk, IsSome, map};
ghost use Rattle.std.specs.FinMap.{get};
ghost use Rattle.dm_uri.specs.Names.{printed_path};
ghost use Rattle.dm_acl.specs.declared.values.Right.TheVariants.{Get};
ghost use Rattle.dm_tree.specs.Rows.{nodes, path_of, IsLive};
ghost use Rattle.dm_tree.specs.Rights.{allows};
ghost use Rattle.dm_commands.specs.Outcomes.{asked_by};
ghost use Rattle.dm_commands.specs.Finding.{listed, shown_below};

use crate::finds::found_at;
use crate::outcome::Found;
use dm_acl::Right;
use dm_base::{Bytes, List, Memory};
use dm_tree::{NodeId, Tree};
use std::alloc::Global;

fn printed_path_of(alloc: Global, tree: &Tree, id: NodeId) -> Result<Bytes, Memory>
    requires { IsLive tree.now.rows id }
    ensures { IfOk result (λ text. text ≡ printed_path (path_of tree.now.rows id)) }
{
    let mut text = Bytes::new(alloc);
    tree.print_path(id, &mut text)?;
    Ok(text)
}

fn listed_node(alloc: Global, tree: &Tree, id: NodeId, with_values: bool) -> Result<Found, Memory>
    requires { IsLive tree.now.rows id }
    ensures { IfOk result (λ found. found ≡ listed (nodes tree.now.rows) with_values (path_of tree.now.rows id)) }
{
    let uri = printed_path_of(alloc, tree, id)?;
    let view = tree.view(id);
    let value = if with_values && !view.interior {
        Some(view.value.bytes.copy(alloc)?)
    } else {
        None
    };
    found_at(alloc, uri, view, value)
}

fn put_listed(
    alloc: Global,
    tree: &Tree,
    id: NodeId,
    with_values: bool,
    out: &mut List<Found>,
) -> Result<(), Memory>
    requires { IsLive tree.now.rows id }
    ensures { OnOk result (out.new ≡ out.old
        ++ listed (nodes tree.now.rows) with_values (path_of tree.now.rows id) ∷ []) }
{
    let found = listed_node(alloc, tree, id, with_values)?;
    out.push(found)
}

/// The list from a node on that the caller may read. A node that it may not read is left out, with all that stands
/// below it, which isn't looked at.
pub(crate) fn list_below(
    alloc: Global,
    tree: &Tree,
    caller: &[u8],
    top: NodeId,
    with_values: bool,
) -> Result<List<Found>, Memory>
    requires live { IsLive tree.now.rows top }
    requires there { IsSome (get (nodes tree.now.rows) (path_of tree.now.rows top)) }
    ensures { IfOk result (λ found. found ≡ map (listed (nodes tree.now.rows) with_values)
        (shown_below (asked_by caller.now tree.now.clock) (nodes tree.now.rows) (path_of tree.now.rows top))) }
{
    let mut out = List::new(alloc);
    let mut at = Some(top);
    while let Some(here) = at {
        let shown = tree.allows(here, caller, Right::Get);
        if shown {
            put_listed(alloc, tree, here, with_values, &mut out)?;
        }
        at = tree.next_below(top, here, !shown);
    }
    Ok(out)
}
