// What is discarded is given back, row by row, and its rows are kept in mind for new nodes.
ghost use Rattle.std.specs.Prelude.{◌≡◌, ◌<◌, ◌-◌, length, slice_get, IfSome};
ghost use Rattle.dm_tree.specs.Rows.{IsTree, IsParkedTop};
ghost use Rattle.dm_tree.specs.Edits.{without_content};
ghost use Rattle.dm_tree.specs.Index.{children_at, IsIndex, IsKept};
ghost use Rattle.dm_tree.specs.Reuse.{IsFreeRow, IsLeftOver, freed};
ghost use Rattle.dm_tree.specs.Frees.{IsFreed};

use crate::children::Children;
use crate::index::{forget, id_at, take_out};
use crate::rows::Row;
use crate::sizes::count_out;
use dm_base::Bytes;
use std::alloc::Global;

/// The row of this number, where a new node may take it.
pub(crate) fn free_row(rows: &[Row], index: &[Children], at: u32) -> Option<u32>
    requires tree { IsTree rows.now }
    requires index { IsIndex rows.now index.now }
    ensures { IfSome result (λ id. IsFreeRow rows.now id) }
{
    let id = at as usize;
    if at > 0 && id < rows.len() && id < index.len() && rows[id].given_up && index[id].is_bare() {
        return Some(at);
    }
    None
}

// Keeps a row in mind for a new node, if nothing can come in below it any more. No clause speaks of which are kept.
fn offer(alloc: Global, rows: &[Row], index: &mut Vec<Children>, free: &mut u32, id: u32)
    requires inside { id < length rows.now }
    requires index { IsIndex rows.now index.old.items }
    ensures { IsIndex rows.now index.new.items }
{
    let children = &mut index[id as usize];
    if children.is_bare() {
        children.renew(alloc, *free);
        *free = id;
    }
}

/// Where the row above was given up, it may have waited for this one: nothing else could come in below it again.
pub(crate) fn offer_above(
    alloc: Global,
    rows: &[Row],
    index: &mut Vec<Children>,
    free: &mut u32,
    id: u32,
)
    requires inside { id < length rows.now }
    requires tree { IsTree rows.now }
    requires index { IsIndex rows.now index.old.items }
    ensures { IsIndex rows.now index.new.items }
{
    let above = rows[id as usize].parent;
    if rows[above as usize].given_up {
        offer(alloc, rows, index, free, above);
    }
}

fn give_up(alloc: Global, rows: &mut Vec<Row>, id: u32)
    requires { id < length rows.old.items }
    ensures { rows.new.items ≡ without_content rows.old.items id }
{
    let row = &mut rows[id as usize];
    row.given_up = true;
    row.node.value.media = Bytes::new(alloc);
    row.node.value.bytes = Bytes::new(alloc);
    row.node.acl = None;
    row.node.title = Bytes::new(alloc);
}

// Gives up a row that was taken out: what its node holds is freed, and its parent needs no room for it.
fn give_up_top(alloc: Global, rows: &mut Vec<Row>, index: &mut Vec<Children>, id: u32)
    requires parked { IsParkedTop rows.old.items id }
    requires tree { IsTree rows.old.items }
    requires index { IsIndex rows.old.items index.old.items }
    ensures rows { rows.new.items ≡ without_content rows.old.items id }
    ensures index { IsIndex rows.new.items index.new.items }
{
    forget(rows, index, id);
    give_up(alloc, rows, id);
}

// Takes a row out from below one that was given up, and gives it up too.
fn free_child(
    alloc: Global,
    rows: &mut Vec<Row>,
    index: &mut Vec<Children>,
    sizes: &mut Vec<u32>,
    id: u32,
)
    requires left { IsLeftOver rows.old.items id }
    requires kept { IsKept rows.old.items index.old.items sizes.old.items }
    ensures rows { rows.new.items ≡ freed rows.old.items id }
    ensures kept { IsKept rows.new.items index.new.items sizes.new.items }
{
    take_out(rows, index, id);
    count_out(rows, sizes, id);
    give_up_top(alloc, rows, index, id);
}

// The last of the rows right below a row.
fn last_child(index: &[Children], id: u32) -> Option<u32>
    requires { id < length index.now }
    ensures { result ≡ slice_get (children_at index.now id).ids (length (children_at index.now id).ids - 1) }
{
    let ids = index[id as usize].as_slice();
    id_at(ids, ids.len().saturating_sub(1))
}

/// Frees the subtree of a row that was taken out: goes down where a row is left, and up where none is.
pub(crate) fn free_subtree(
    alloc: Global,
    rows: &mut Vec<Row>,
    index: &mut Vec<Children>,
    sizes: &mut Vec<u32>,
    free: &mut u32,
    top: u32,
)
    requires parked { IsParkedTop rows.old.items top }
    requires kept { IsKept rows.old.items index.old.items sizes.old.items }
    ensures freed { IsFreed rows.old.items top rows.new.items }
    ensures kept { IsKept rows.new.items index.new.items sizes.new.items }
{
    give_up_top(alloc, rows, index, top);
    let mut at = top;
    loop {
        match last_child(index, at) {
            Some(child) => {
                free_child(alloc, rows, index, sizes, child);
                at = child;
            }
            None => {
                offer(alloc, rows, index, free, at);
                if at == top {
                    return;
                }
                at = rows[at as usize].parent;
            }
        }
    }
}
