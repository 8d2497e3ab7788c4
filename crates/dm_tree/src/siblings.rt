// The order of the tree text: siblings by the bytes of their names, each node before all that stands below it.
ghost use Rattle.std.specs.Prelude.{◌≡◌, ◌<◌, ◌^◌, ◌∷◌, ◌++◌, [], length, false, Some, None, IsTrue, IfSome, IfOk};
ghost use Rattle.std.specs.Prelude.{OnOk, unwrap_or, option_and_then};
ghost use Rattle.std.specs.Option.{option_map_or};
ghost use Rattle.std.specs.FinMap as map;
ghost use Rattle.dm_uri.specs.Names.{joined};
ghost use Rattle.dm_tree.specs.Nodes.{last_name, is_below};
ghost use Rattle.dm_tree.specs.Rows.{nodes, ids, row_at, path_of, IsLive, IsShaped};
ghost use Rattle.dm_tree.specs.Order.{first_child as first_child_of, next_sibling as next_sibling_of};
ghost use Rattle.dm_tree.specs.Order.{next_below as next_path_below, children, children_behind, child_names, behind};
ghost use Rattle.dm_tree.specs.Walks.{least_child as least_child_of, next_past as next_row_past};
ghost use Rattle.dm_tree.specs.Walks.{next_on_walk as next_row_of};
ghost use Rattle.dm_tree.specs.Index.{IsIndex, AreRows, IsInOrder, IsPlacePast};

use crate::children::Children;
use crate::index::{id_at, place_past};
use crate::rows::{NodeId, Row};
use crate::tree::Tree;
use dm_base::{Bytes, Memory};
use std::alloc::Global;

// The place of the first child whose name stands behind that of a row. Where the row itself stands at the place that
// was noted of it, no name is looked at.
fn place_behind(rows: &[Row], ids: &[u32], keys: &[u64], row: u32, noted: usize) -> usize
    requires inside { AreRows rows.now ids.now }
    requires order { IsInOrder rows.now ids.now }
    requires row { row < length rows.now }
    ensures { IsPlacePast rows.now ids.now (row_at rows.now row).name result }
{
    if noted < ids.len() && ids[noted] == row {
        return noted + 1;
    }
    place_past(rows, ids, keys, &rows[row as usize].name)
}

// Of the children of `id` behind a row, the first by name.
fn least_child(rows: &[Row], index: &[Children], id: u32, after: Option<u32>) -> Option<u32>
    requires shaped { IsShaped rows.now }
    requires index { IsIndex rows.now index.now }
    requires inside { id < length rows.now }
    requires after { IfSome after (λ row. row < length rows.now) }
    ensures { result ≡ least_child_of rows.now id after (length rows.now) }
{
    let ids = index[id as usize].as_slice();
    match after {
        None => id_at(ids, 0),
        Some(row) => id_at(
            ids,
            place_behind(
                rows,
                ids,
                index[id as usize].keys(),
                row,
                index[row as usize].place(),
            ),
        ),
    }
}

// The first sibling behind a row or behind one of those above it, up to `top`.
fn next_past(rows: &[Row], index: &[Children], top: u32, at: u32, left: u32) -> Option<u32>
    requires shaped { IsShaped rows.now }
    requires index { IsIndex rows.now index.now }
    requires inside { at < length rows.now }
    ensures { result ≡ next_row_past rows.now top left at }
{
    if left == 0 || at == top {
        return None;
    }
    let parent = rows[at as usize].parent;
    match least_child(rows, index, parent, Some(at)) {
        Some(next) => Some(next),
        None => next_past(rows, index, top, parent, left - 1),
    }
}

fn next_row(rows: &[Row], index: &[Children], top: u32, id: u32, past: bool) -> Option<u32>
    requires shaped { IsShaped rows.now }
    requires index { IsIndex rows.now index.now }
    requires inside { id < length rows.now }
    ensures { result ≡ next_row_of rows.now top id past }
{
    if !past {
        let child = least_child(rows, index, id, None);
        if child.is_some() {
            return child;
        }
    }
    next_past(rows, index, top, id, rows[id as usize].depth)
}

impl Tree {
    /// Of the nodes right below, the first in byte order of their names. None comes exactly where there is none.
    pub fn first_child(&self, id: NodeId) -> Option<NodeId>
        requires { IsLive self.now.rows id }
        ensures found { result ≡ option_and_then (map.get (ids self.now.rows))
            (first_child_of (nodes self.now.rows) (path_of self.now.rows id)) }
        ensures live { IfSome result (λ child. IsLive self.now.rows child
            × (first_child_of (nodes self.now.rows) (path_of self.now.rows id) ≡ Some (path_of self.now.rows child))) }
        ensures children { children (nodes self.now.rows) (path_of self.now.rows id)
            ≡ option_map_or (λ child. path_of self.now.rows child
            ∷ children_behind (nodes self.now.rows) (path_of self.now.rows child)) result [] }
    {
        NodeId::of_row(least_child(&self.rows, &self.index, id.row(), None))
    }

    /// The node beside whose name comes next in byte order. None comes exactly at the last, and at the root.
    pub fn next_sibling(&self, id: NodeId) -> Option<NodeId>
        requires { IsLive self.now.rows id }
        ensures found { result ≡ option_and_then (map.get (ids self.now.rows))
            (next_sibling_of (nodes self.now.rows) (path_of self.now.rows id)) }
        ensures live { IfSome result (λ next. IsLive self.now.rows next
            × (next_sibling_of (nodes self.now.rows) (path_of self.now.rows id) ≡ Some (path_of self.now.rows next))) }

        // So the children may be gone through from the first on, and what has yet to come becomes less with each step.
        ensures behind { children_behind (nodes self.now.rows) (path_of self.now.rows id)
            ≡ option_map_or (λ next. path_of self.now.rows next
            ∷ children_behind (nodes self.now.rows) (path_of self.now.rows next)) result [] }
    {
        if id.row() == 0 {
            return None;
        }
        let parent = self.rows[id.row() as usize].parent;
        NodeId::of_row(least_child(&self.rows, &self.index, parent, Some(id.row())))
    }

    fn put_name(&self, id: NodeId, out: &mut Bytes) -> Result<(), Memory>
        requires { IsLive self.now.rows id }
        ensures { OnOk result (out.new ≡ out.old ++ unwrap_or (last_name (path_of self.now.rows id)) []) }
    {
        match self.view(id).name {
            None => Ok(()),
            Some(name) => out.extend(name.as_slice()),
        }
    }

    /// The names of the nodes right below, in byte order, with a `/` between each two. It is empty where there is none.
    #[tactic(auto, using(crate::proofs::ChildListing::first_joined, crate::proofs::ChildListing::next_joined, crate::proofs::ChildListing::all_joined))]
    pub fn child_names(&self, alloc: Global, id: NodeId) -> Result<Bytes, Memory>
        requires { IsLive self.now.rows id }
        ensures { IfOk result (λ text.
            text ≡ joined (child_names (nodes self.now.rows) (path_of self.now.rows id))) }
    {
        let mut out = Bytes::new(alloc);
        let Some(first) = self.first_child(id) else {
            return Ok(out);
        };
        self.put_name(first, &mut out)?;
        let mut at = first;
        while let Some(next) = self.next_sibling(at) {
            out.extend(b"/")?;
            self.put_name(next, &mut out)?;
            at = next;
        }
        Ok(out)
    }

    /// The node behind this one in the order of the tree text, among those at and below `top`; with `past`, the one
    /// behind all that stand below it. None comes exactly where there is none. From `top` on, it goes through the whole
    /// subtree.
    pub fn next_below(&self, top: NodeId, id: NodeId, past: bool) -> Option<NodeId>
        requires top { IsLive self.now.rows top }
        requires live { IsLive self.now.rows id }
        requires below { IsTrue (is_below (path_of self.now.rows top) (path_of self.now.rows id)) }
        ensures found { result ≡ option_and_then (map.get (ids self.now.rows))
            (next_path_below (nodes self.now.rows) (path_of self.now.rows top) (path_of self.now.rows id) past) }
        ensures live { IfSome result (λ next. IsLive self.now.rows next
            × (next_path_below (nodes self.now.rows) (path_of self.now.rows top) (path_of self.now.rows id) past
            ≡ Some (path_of self.now.rows next))) }

        // So it may be gone on from there, and what stands behind becomes less with each step.
        ensures within { IfSome result (λ next.
            IsTrue (is_below (path_of self.now.rows top) (path_of self.now.rows next))) }
        ensures behind { behind (nodes self.now.rows) (path_of self.now.rows top) (path_of self.now.rows id) past
            ≡ option_map_or (λ next. path_of self.now.rows next
            ∷ behind (nodes self.now.rows) (path_of self.now.rows top) (path_of self.now.rows next) false) result [] }
    {
        NodeId::of_row(next_row(&self.rows, &self.index, top.row(), id.row(), past))
    }
}
