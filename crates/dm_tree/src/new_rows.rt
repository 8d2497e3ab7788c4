// Where a new row comes: in place of a free one, or behind the others.
ghost use Rattle.std.specs.Prelude.{ℕ, List, ◌≡◌, ◌<◌, true, false, length, IfOk, IfErr, OnErr};
ghost use Rattle.dm_tree.specs.declared.edits.TreeError.TheVariants as error;
ghost use Rattle.dm_tree.specs.declared.rows.Row.{Row as ARow};
ghost use Rattle.dm_tree.specs.Rows.{row_at, IsTree};
ghost use Rattle.dm_tree.specs.Index.{IsIndex, IsSized, IsKept};
ghost use Rattle.dm_tree.specs.Edits.{new_row as new_row_below};
ghost use Rattle.dm_tree.specs.Reuse.{IsPlaced};

use crate::children::Children;
use crate::discards::free_row;
use crate::edits::TreeError;
use crate::index::{add_row, fill_row, put_in};
use crate::nodes::Node;
use crate::rows::Row;
use crate::sizes::count_in;
use dm_base::Memory;
use dm_uri::Name;
use std::alloc::Global;

/// The row of a new node. It isn't put in yet.
pub(crate) fn new_row(rows: &[Row], parent: u32, name: Name, node: Node) -> Row
    requires inside { parent < length rows.now }
    requires shallow { (row_at rows.now parent).depth < 16 }
    ensures { result ≡ record (new_row_below rows.now parent name node) { attached = false } }
{
    Row {
        parent,
        depth: rows[parent as usize].depth + 1,
        attached: false,
        given_up: false,
        name,
        node,
    }
}

// Finds a place for a row that isn't put in yet: a free one where there is one at hand, else behind the others. Its
// parent gets room for it.
#[tactic(auto, using(crate::proofs::IndexFills::filled_sizes, crate::proofs::IndexFills::added_sizes))]
fn add_or_fill(
    alloc: Global,
    rows: &mut Vec<Row>,
    index: &mut Vec<Children>,
    sizes: &mut Vec<u32>,
    free: &mut u32,
    row: Row,
) -> Result<u32, Memory>
    requires out { row.attached ≡ false }
    requires held { row.given_up ≡ false }
    requires parent { row.parent < length rows.old.items }
    requires kept { IsKept rows.old.items index.old.items sizes.old.items }
    ensures ok { IfOk result (λ id. IsPlaced rows.old.items rows.new.items id row) }
    ensures err { OnErr result (rows.new.items ≡ rows.old.items) }
    ensures index { IsIndex rows.new.items index.new.items }
    ensures sizes { IsSized rows.new.items sizes.new.items }
{
    match free_row(rows, index, *free) {
        Some(id) => {
            let next = index[id as usize].next();
            fill_row(rows, index, id, row)?;
            *free = next;
            Ok(id)
        }
        None => {
            if rows.len() >= u32::MAX as usize {
                return Err(Memory);
            }
            let id = rows.len() as u32;
            add_row(alloc, rows, index, sizes, row)?;
            Ok(id)
        }
    }
}

/// Finds a place for a row that isn't put in yet, puts it in there, and counts it in the rows above it.
pub(crate) fn place_row(
    alloc: Global,
    rows: &mut Vec<Row>,
    index: &mut Vec<Children>,
    sizes: &mut Vec<u32>,
    free: &mut u32,
    row: Row,
) -> Result<u32, TreeError>
    requires out { row.attached ≡ false }
    requires held { row.given_up ≡ false }
    requires parent { row.parent < length rows.old.items }
    requires after { (k : ℕ) → (now : List ARow) → IsPlaced rows.old.items now k (record row { attached = true })
        → IsTree now }
    requires kept { IsKept rows.old.items index.old.items sizes.old.items }
    ensures ok { IfOk result (λ id. IsPlaced rows.old.items rows.new.items id (record row { attached = true })) }
    ensures err { OnErr result (rows.new.items ≡ rows.old.items) }
    ensures memory { IfErr result (λ e. e ≡ error.Memory) }
    ensures kept { IsKept rows.new.items index.new.items sizes.new.items }
{
    match add_or_fill(alloc, rows, index, sizes, free, row) {
        Err(_) => Err(TreeError::Memory),
        Ok(id) => {
            put_in(rows, index, id);
            count_in(rows, sizes, id);
            Ok(id)
        }
    }
}
