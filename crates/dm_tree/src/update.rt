// Where the update stands.
ghost use Rattle.std.specs.Prelude.{◌≡◌, ◌<◌, ◌^◌, ◌↔◌, ◌⊎◌, length, None, Some, IfSome, option_and_then};
ghost use Rattle.std.specs.FinMap as map;
ghost use Rattle.dm_tree.specs.declared.nodes.Role.TheVariants as role;
ghost use Rattle.dm_tree.specs.Rows.{nodes, ids, node_of, path_of, IsLive};
ghost use Rattle.dm_tree.specs.Devices.{update_node as update_path, pkg_data, state_node, child_of_role};
ghost use Rattle.dm_tree.specs.Devices.{is_role as is_one, IsUpdateRow, HaveOtherRoles};

use crate::nodes::Role;
use crate::rows::{NodeId, Row};
use crate::tree::Tree;
use crate::walks::is_in;

/// The nodes of the update: the update node, PkgData right below it, and State right beside it.
#[derive(Clone, Copy, Debug, PartialEq, Eq)]
pub struct UpdateIds {
    pub update: NodeId,
    pub pkg_data: NodeId,
    pub state: NodeId,
}

fn is_role(role: Role, wanted: Role) -> bool
    ensures { result ≡ is_one role wanted }
{
    role == wanted
}

// The first row from one on that has the role of an update node, in the tree or not.
fn update_row_from(rows: &[Row], from: u32) -> Option<u32>
    requires { length rows.now < 2 ^ 32 }
    ensures found { IfSome result (λ row. IsUpdateRow rows.now row × HaveOtherRoles rows.now from row) }
    ensures none { result ≡ None → HaveOtherRoles rows.now from (length rows.now) }
{
    let mut row = from;
    while (row as usize) < rows.len() {
        if is_role(rows[row as usize].node.role, Role::UpdateNode) {
            return Some(row);
        }
        row += 1;
    }
    None
}

impl Tree {
    /// Of the nodes right below, the first with this role, in byte order of their names. It goes through them, and
    /// takes no memory.
    pub fn child_of_role(&self, id: NodeId, role: Role) -> Option<NodeId>
        requires { IsLive self.now.rows id }
        ensures live { IfSome result (λ child. IsLive self.now.rows child
            × (child_of_role (nodes self.now.rows) (path_of self.now.rows id) role
            ≡ Some (path_of self.now.rows child))) }
        ensures none { result ≡ None
            → child_of_role (nodes self.now.rows) (path_of self.now.rows id) role ≡ None }
    {
        let _ = &self.rows;
        let mut at = self.first_child(id);
        while let Some(child) = at {
            if is_role(self.view(child).role, role) {
                return Some(child);
            }
            at = self.next_sibling(child);
        }
        None
    }

    /// The nodes of the update, each found by its role; None where one isn't there. Where the update part is in order,
    /// they are its nodes. It takes no memory.
    pub fn update_ids(&self) -> Option<UpdateIds>
        ensures live { IfSome result (λ found. IsLive self.now.rows found.update
            × (IsLive self.now.rows found.pkg_data × IsLive self.now.rows found.state)) }
        ensures found { IfSome result (λ found.
            (update_path (nodes self.now.rows) ≡ Some (path_of self.now.rows found.update))
            × ((pkg_data (nodes self.now.rows) ≡ Some (path_of self.now.rows found.pkg_data))
            × (state_node (nodes self.now.rows) ≡ Some (path_of self.now.rows found.state)))) }
        ensures none { result ≡ None
            → (pkg_data (nodes self.now.rows) ≡ None) ⊎ (state_node (nodes self.now.rows) ≡ None) }
    {
        let _ = &self.rows;
        let update = self.update_node()?;
        let pkg_data = self.child_of_role(update, Role::PkgData)?;
        let above = self.parent(update)?;
        let state = self.child_of_role(above, Role::State)?;
        Some(UpdateIds {
            update,
            pkg_data,
            state,
        })
    }

    /// The first node in the order of the tree text whose role is that of an update node; where the update part is in
    /// order, there is at most one. None comes exactly where there is none. It takes no memory.
    pub fn update_node(&self) -> Option<NodeId>
        ensures found { result ≡ option_and_then (map.get (ids self.now.rows)) (update_path (nodes self.now.rows)) }
        ensures live { IfSome result (λ id. IsLive self.now.rows id
            × (update_path (nodes self.now.rows) ≡ Some (path_of self.now.rows id))
            × ((node_of self.now.rows id).role ≡ role.UpdateNode)) }
        ensures none { (result ≡ None) ↔ (update_path (nodes self.now.rows) ≡ None) }
    {
        let rows = self.rows.as_slice();
        let first = update_row_from(rows, 0)?;
        // Where no other row has the role, be it in the tree or not, none has to be looked for before this one.
        if update_row_from(rows, first + 1).is_none() && is_in(rows, first) {
            return Some(NodeId::of(first));
        }
        self.walk_to_update()
    }

    // The same, by going through the tree.
    fn walk_to_update(&self) -> Option<NodeId>
        ensures found { result ≡ option_and_then (map.get (ids self.now.rows)) (update_path (nodes self.now.rows)) }
        ensures live { IfSome result (λ id. IsLive self.now.rows id
            × (update_path (nodes self.now.rows) ≡ Some (path_of self.now.rows id))
            × ((node_of self.now.rows id).role ≡ role.UpdateNode)) }
        ensures none { (result ≡ None) ↔ (update_path (nodes self.now.rows) ≡ None) }
    {
        let root = self.root();
        let mut at = Some(root);
        while let Some(here) = at {
            if is_role(self.view(here).role, Role::UpdateNode) {
                return Some(here);
            }
            at = self.next_below(root, here, false);
        }
        None
    }
}
