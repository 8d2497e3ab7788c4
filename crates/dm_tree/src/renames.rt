// Another name for a node, and with it other paths for all that stand below it.
ghost use Rattle.std.specs.Prelude.{◌≡◌, ◌<◌, ◌+◌, ◌++◌, ◌∷◌, [], false, length, IsTrue, IfSome};
ghost use Rattle.std.specs.FinMap as map;
ghost use Rattle.dm_tree.specs.declared.rows.Change.TheVariants as change;
ghost use Rattle.dm_tree.specs.Nodes.{above, changed, counted};
ghost use Rattle.dm_tree.specs.Rows.{nodes, ids, row_at, node_of, path_of, IsLive, IsShaped, IsTree};
ghost use Rattle.dm_tree.specs.Index.{IsIndex};
ghost use Rattle.dm_tree.specs.Edits.{with_name, renamed, paths_fit as all_fit, StayRenamed};
ghost use Rattle.dm_tree.specs.Undos.{TakesBack};
ghost use Rattle.dm_tree.specs.Notes.{TakesEditBack};
ghost use Rattle.dm_tree.specs.Walks.{name_then, has_room as rows_have_room};

use crate::children::Children;
use crate::edits::{raised, swap_counts};
use crate::index::swap_name;
use crate::nodes::Stamp;
use crate::rows::{Change, NodeId, Row, Undo};
use crate::tree::Tree;
use dm_uri::Name;

// A path has at most 255 bytes in print, and the dot in front is one of them.
const ROOM: usize = 254;

// How many bytes a row's name has, once the row `id` bears the name.
fn name_length(rows: &[Row], id: u32, name: &Name, at: u32) -> usize
    requires { at < length rows.now }
    ensures { result ≡ length (name_then rows.now id name.now at) }
{
    if at == id {
        name.as_slice().len()
    } else {
        rows[at as usize].name.as_slice().len()
    }
}

// Whether the names from a row upwards, each with a `/` in front, have no more bytes than there is room for.
fn has_room(rows: &[Row], id: u32, name: &Name, at: u32, left: u32, room: usize) -> bool
    requires shaped { IsShaped rows.now }
    requires inside { at < length rows.now }
    ensures { result ≡ rows_have_room rows.now id name.now left at room }
{
    if left == 0 {
        return true;
    }
    let length = name_length(rows, id, name, at);
    let parent = rows[at as usize].parent;
    length < room && has_room(rows, id, name, parent, left - 1, room - length - 1)
}

// Whether the path of a row of the tree then keeps to the limit.
fn path_fits(rows: &[Row], id: u32, name: &Name, at: u32) -> bool
    requires shaped { IsShaped rows.now }
    requires inside { at < length rows.now }
    ensures { result ≡ rows_have_room rows.now id name.now (row_at rows.now at).depth at 254 }
{
    has_room(rows, id, name, at, rows[at as usize].depth, ROOM)
}

/// Exchanges the name of a row, and its node's VerNo and stamp. It takes no memory.
pub(crate) fn flip_name(
    rows: &mut Vec<Row>,
    index: &mut Vec<Children>,
    id: u32,
    name: &mut Name,
    verno: &mut u16,
    stamp: &mut Stamp,
)
    requires inside { id < length rows.old.items }
    requires tree { IsTree rows.old.items }
    requires after { IsShaped
        (with_name rows.old.items id name.old (counted (node_of rows.old.items id) verno.old stamp.old)) }
    requires index { IsIndex rows.old.items index.old.items }
    ensures rows { rows.new.items
        ≡ with_name rows.old.items id name.old (counted (node_of rows.old.items id) verno.old stamp.old) }
    ensures name { name.new ≡ (row_at rows.old.items id).name }
    ensures verno { verno.new ≡ (node_of rows.old.items id).verno }
    ensures stamp { stamp.new ≡ (node_of rows.old.items id).stamp }
    ensures index { IsIndex rows.new.items index.new.items }
{
    swap_name(rows, index, id, name);
    swap_counts(&mut rows[id as usize].node, verno, stamp);
}

fn put_name(
    rows: &mut Vec<Row>,
    index: &mut Vec<Children>,
    id: u32,
    name: Name,
    clock: Stamp,
) -> Change
    requires inside { id < length rows.old.items }
    requires tree { IsTree rows.old.items }
    requires after { IsShaped (with_name rows.old.items id name (changed clock (node_of rows.old.items id))) }
    requires index { IsIndex rows.old.items index.old.items }
    ensures rows { rows.new.items ≡ with_name rows.old.items id name (changed clock (node_of rows.old.items id)) }
    ensures change { result ≡ change.Name id (row_at rows.old.items id).name
        (node_of rows.old.items id).verno (node_of rows.old.items id).stamp }
    ensures index { IsIndex rows.new.items index.new.items }
{
    let (mut name, mut stamp) = (name, clock);
    let mut verno = raised(rows[id as usize].node.verno);
    flip_name(rows, index, id, &mut name, &mut verno, &mut stamp);
    Change::Name(id, name, verno, stamp)
}

impl Tree {
    /// Whether every path keeps to the limit of 255 bytes in print, once the node bears the name. It goes through the
    /// node's subtree once.
    pub fn fits(&self, id: NodeId, name: &Name) -> bool
        requires { IsLive self.now.rows id }
        ensures { result ≡ all_fit (nodes self.now.rows) (path_of self.now.rows id) name.now }
    {
        let mut at = Some(id);
        while let Some(here) = at {
            if !path_fits(&self.rows, id.row(), name, here.row()) {
                return false;
            }
            at = self.next_below(id, here, false);
        }
        true
    }

    /// Gives a node another name, or the one that it has. All that stands below it goes with it. Every node keeps its
    /// number. It takes no memory, and its time doesn't grow with the subtree.
    pub fn rename(&mut self, id: NodeId, name: Name) -> Undo
        requires live { IsLive self.old.rows id }
        requires removable { (node_of self.old.rows id).permanent ≡ false }
        requires free { IfSome (map.get (ids self.old.rows) (above (path_of self.old.rows id) ++ name ∷ []))
            (λ other. other ≡ id) }
        requires fits { IsTrue (all_fit (nodes self.old.rows) (path_of self.old.rows id) name) }
        ensures nodes { nodes self.new.rows ≡ map.insert (renamed (nodes self.old.rows) (path_of self.old.rows id) name)
            (above (path_of self.old.rows id) ++ name ∷ []) (changed self.old.clock (node_of self.old.rows id)) }
        ensures ids { ids self.new.rows ≡ renamed (ids self.old.rows) (path_of self.old.rows id) name }
        ensures stays { StayRenamed self.old.rows self.new.rows (path_of self.old.rows id) name }
        ensures rows { self.new ≡ record self.old {
          rows = with_name self.old.rows id name (changed self.old.clock (node_of self.old.rows id));
        } }
        ensures undo { TakesBack result self.old.rows self.new.rows }
        ensures edit { TakesEditBack result self.old.rows self.new.rows }
    {
        // Its contract says that the name keeps to the form and the limit.
        let _ = name.as_slice();
        let change = put_name(
            &mut self.rows,
            &mut self.index,
            id.row(),
            name,
            self.clock.stamp(),
        );
        Undo::of(change)
    }
}
