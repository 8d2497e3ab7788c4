// What a start lays: single things, set without a trace. No clause here speaks of an Undo that was given before.
ghost use Rattle.std.specs.Prelude.{◌≡◌, ◌<◌, ◌≤◌, ◌^◌, [], true, length, Some, IfSome};
ghost use Rattle.std.specs.FinMap as map;
ghost use Rattle.dm_tree.specs.Nodes.{above, with_acl, with_title, with_mark, counted, IsReadAgain, IsStamp};
ghost use Rattle.dm_tree.specs.Rows.{nodes, ids, node_of, path_of, IsLive, StayLive, IsNoneParked};
ghost use Rattle.dm_tree.specs.Edits.{with_node};
ghost use Rattle.dm_tree.specs.Fields.{with_field, IsField};

use crate::fields::Field;
use crate::nodes::Stamp;
use crate::rows::{NodeId, Row};
use crate::tree::Tree;
use dm_acl::Acl;
use dm_base::Bytes;

// Sets a field, and counts no change.
fn lay(rows: &mut Vec<Row>, id: u32, field: Field)
    requires { id < length rows.old.items }
    ensures { rows.new.items ≡ with_node rows.old.items id (with_field (node_of rows.old.items id) field) }
{
    let row = &mut rows[id as usize];
    match field {
        Field::Value(value) => row.node.value = value,
        Field::Bytes(bytes) => row.node.value.bytes = bytes,
        Field::Acl(acl) => row.node.acl = acl,
        Field::Title(title) => row.node.title = title,
    }
}

fn set_mark(rows: &mut Vec<Row>, id: u32)
    requires { id < length rows.old.items }
    ensures { rows.new.items ≡ with_node rows.old.items id (with_mark (node_of rows.old.items id)) }
{
    let row = &mut rows[id as usize];
    row.node.permanent = true;
}

fn set_counts(rows: &mut Vec<Row>, id: u32, verno: u16, stamp: Stamp)
    requires { id < length rows.old.items }
    ensures rows { rows.new.items ≡ with_node rows.old.items id (counted (node_of rows.old.items id) verno stamp) }
    ensures kept { (verno < 2 ^ 16) × IsStamp stamp }
{
    let row = &mut rows[id as usize];
    row.node.verno = verno;
    row.node.stamp = stamp;
}

impl Tree {
    // What the access list and the title have in common.
    fn lay_field(&mut self, id: NodeId, field: Field)
        requires live { IsLive self.old.rows id }
        requires field { IsField (node_of self.old.rows id) (path_of self.old.rows id) field }
        ensures nodes { nodes self.new.rows ≡ map.insert (nodes self.old.rows) (path_of self.old.rows id)
            (with_field (node_of self.old.rows id) field) }
        ensures ids { ids self.new.rows ≡ ids self.old.rows }
        ensures stays { StayLive self.old.rows self.new.rows }
        ensures parked { IsNoneParked self.old.rows → IsNoneParked self.new.rows }
        ensures clock { self.new.clock ≡ self.old.clock }
    {
        lay(&mut self.rows, id.row(), field);
    }

    /// Sets a node's own access list, and neither VerNo nor stamp. It takes no memory.
    pub fn lay_acl(&mut self, id: NodeId, acl: Acl)
        requires live { IsLive self.old.rows id }
        requires again { IsReadAgain acl }
        ensures nodes { nodes self.new.rows ≡ map.insert (nodes self.old.rows) (path_of self.old.rows id)
            (with_acl (node_of self.old.rows id) (Some acl)) }
        ensures ids { ids self.new.rows ≡ ids self.old.rows }
        ensures stays { StayLive self.old.rows self.new.rows }
        ensures parked { IsNoneParked self.old.rows → IsNoneParked self.new.rows }
        ensures clock { self.new.clock ≡ self.old.clock }
    {
        self.lay_field(id, Field::Acl(Some(acl)));
    }

    /// Sets a node's title, of at most 255 bytes, and neither VerNo nor stamp. It takes no memory.
    pub fn lay_title(&mut self, id: NodeId, title: Bytes)
        requires live { IsLive self.old.rows id }
        requires short { length title ≤ 255 }
        ensures nodes { nodes self.new.rows ≡ map.insert (nodes self.old.rows) (path_of self.old.rows id)
            (with_title (node_of self.old.rows id) title) }
        ensures ids { ids self.new.rows ≡ ids self.old.rows }
        ensures stays { StayLive self.old.rows self.new.rows }
        ensures parked { IsNoneParked self.old.rows → IsNoneParked self.new.rows }
        ensures clock { self.new.clock ≡ self.old.clock }
    {
        self.lay_field(id, Field::Title(title));
    }

    /// Makes a node permanent whose parent is, and sets neither VerNo nor stamp. It takes no memory.
    pub fn lay_permanent(&mut self, id: NodeId)
        requires live { IsLive self.old.rows id }
        requires parent { IfSome (map.get (nodes self.old.rows) (above (path_of self.old.rows id)))
            (λ parent. parent.permanent ≡ true) }
        ensures nodes { nodes self.new.rows ≡ map.insert (nodes self.old.rows) (path_of self.old.rows id)
            (with_mark (node_of self.old.rows id)) }
        ensures ids { ids self.new.rows ≡ ids self.old.rows }
        ensures stays { StayLive self.old.rows self.new.rows }
        ensures parked { IsNoneParked self.old.rows → IsNoneParked self.new.rows }
        ensures clock { self.new.clock ≡ self.old.clock }
    {
        set_mark(&mut self.rows, id.row());
    }

    /// Sets a node's VerNo and stamp alone. It takes no memory.
    pub fn reload(&mut self, id: NodeId, verno: u16, stamp: Stamp)
        requires { IsLive self.old.rows id }
        ensures nodes { nodes self.new.rows ≡ map.insert (nodes self.old.rows) (path_of self.old.rows id)
            (counted (node_of self.old.rows id) verno stamp) }
        ensures ids { ids self.new.rows ≡ ids self.old.rows }
        ensures stays { StayLive self.old.rows self.new.rows }
        ensures parked { IsNoneParked self.old.rows → IsNoneParked self.new.rows }
        ensures clock { self.new.clock ≡ self.old.clock }
    {
        set_counts(&mut self.rows, id.row(), verno, stamp);
    }
}
