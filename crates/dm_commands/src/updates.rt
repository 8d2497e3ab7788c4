// The update part of the tree, as steps find it.
ghost use Rattle.std.specs.Prelude.{◌≡◌, ◌<◌, IsTrue, unwrap_or};
ghost use Rattle.std.specs.Str.Parse.{digits_value};
ghost use Rattle.dm_tree.specs.declared.nodes.Role.TheVariants as role;
ghost use Rattle.dm_fumo.specs.States.{after_write as written};
ghost use Rattle.dm_tree.specs.Rows.{nodes, node_of, IsLive};
ghost use Rattle.dm_tree.specs.Devices.{is_update_state, IsUpdateInOrder};
ghost use Rattle.dm_commands.specs.Places.{IsState};

use dm_fumo::after_write;
use dm_tree::{NodeId, Role, Tree};

/// State, and the state that it tells.
#[derive(Clone, Copy)]
pub(crate) struct State {
    pub id: NodeId,
    pub state: u8,
}

fn state_number(text: &[u8]) -> u8
    requires { IsTrue (is_update_state text.now) }
    ensures { result ≡ digits_value 10 text.now }
{
    if text == b"10".as_slice() {
        dm_fumo::IDLE
    } else if text == b"50".as_slice() {
        dm_fumo::READY
    } else if text == b"60".as_slice() {
        dm_fumo::PROGRESSING
    } else if text == b"70".as_slice() {
        dm_fumo::FAILED
    } else {
        dm_fumo::SUCCESSFUL
    }
}

/// State, from the update node: beside it, so no further node is looked at.
pub(crate) fn state_beside(tree: &Tree, update: NodeId) -> Option<State>
    requires live { IsLive tree.now.rows update }
    requires role { (node_of tree.now.rows update).role ≡ role.UpdateNode }
    requires update { IsUpdateInOrder (nodes tree.now.rows) }
    ensures { IsState tree.now.rows result }
{
    // It tells that the tree is in order.
    let _ = tree.root();
    let above = tree.parent(update)?;
    let id = tree.child_of_role(above, Role::State)?;
    let state = state_number(tree.view(id).value.bytes.as_slice());
    Some(State { id, state })
}

/// State, from PkgData, which stands right below the update node.
pub(crate) fn state_above(tree: &Tree, pkg_data: NodeId) -> Option<State>
    requires live { IsLive tree.now.rows pkg_data }
    requires role { (node_of tree.now.rows pkg_data).role ≡ role.PkgData }
    requires update { IsUpdateInOrder (nodes tree.now.rows) }
    ensures { IsState tree.now.rows result }
{
    let _ = tree.root();
    let update = tree.parent(pkg_data)?;
    state_beside(tree, update)
}

/// The state after the package is written, where that isn't refused.
pub(crate) fn state_written(state: u8, empty: bool) -> u8
    ensures state { result ≡ unwrap_or (written state empty) state }
    ensures small { result < 256 }
{
    after_write(state, empty).unwrap_or(state)
}
