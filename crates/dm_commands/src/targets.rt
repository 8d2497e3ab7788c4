// What a step is for: its target as a URI, or the code with which it is refused whatever the tree is; and the node
// above.
ghost use Rattle.std.specs.Prelude.{◌≡◌, IfOk, IsTrue};
ghost use Rattle.dm_uri.specs.Names.{is_within_limits};
ghost use Rattle.dm_tree.specs.Nodes.{above};
ghost use Rattle.dm_tree.specs.Rows.{path_of, IsLive, IsTree};
ghost use Rattle.dm_commands.specs.Places.{IsAt};
ghost use Rattle.dm_commands.specs.Table.{has_query, target_in, target_of};

use dm_base::{Bytes, Memory};
use dm_tree::{NodeId, Tree};
use dm_uri::{Query, Uri, UriError, parse};
use std::alloc::Global;
use syncml_types::{Step, Verb};

/// Whether a URI asks for more than a node.
pub(crate) fn has_query(query: Query) -> bool
    ensures { result ≡ has_query query }
{
    match query {
        Query::Plain => false,
        Query::Prop(_) | Query::Struct | Query::StructData => true,
    }
}

fn read_target(alloc: Global, target: &Option<Bytes>) -> Result<Result<Uri, u32>, Memory>
    ensures read { IfOk result (λ read. read ≡ target_in target.now) }
    ensures within { IfOk result (λ read. IfOk read (λ uri. IsTrue (is_within_limits uri.path))) }
{
    let Some(text) = target else {
        return Ok(Err(400));
    };
    match parse(alloc, text.as_slice()) {
        Ok(uri) => Ok(Ok(uri)),
        Err(UriError::Malformed) => Ok(Err(400)),
        Err(UriError::TooLong) => Ok(Err(414)),
        Err(UriError::UnknownQuery) => Ok(Err(406)),
        Err(UriError::Memory) => Err(Memory),
    }
}

/// The target of a step, or the code with which it is refused.
pub(crate) fn target_of(alloc: Global, step: &Step) -> Result<Result<Uri, u32>, Memory>
    ensures read { IfOk result (λ read. read ≡ target_of step.now) }
    ensures within { IfOk result (λ read. IfOk read (λ uri. IsTrue (is_within_limits uri.path))) }
{
    match step.verb {
        Verb::Copy => Ok(Err(406)),
        Verb::Exec if step.in_atomic => Ok(Err(405)),
        _ => read_target(alloc, &step.target),
    }
}

/// The node above a node; above the root, the root.
pub(crate) fn node_above(tree: &Tree, id: NodeId) -> NodeId
    requires live { IsLive tree.now.rows id }
    ensures at { IsAt tree.now.rows (above (path_of tree.now.rows id)) result }
    ensures sound { IsTree tree.now.rows }
{
    let root = tree.root();
    match tree.parent(id) {
        Some(parent) => parent,
        None => root,
    }
}
