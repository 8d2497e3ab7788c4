// The children of each row in the byte order of their names, so that no search looks at every row.
ghost use Rattle.std.specs.Prelude.{◌≡◌, ◌<◌, ◌≤◌, ◌&&◌, ◌+◌, ◌-◌, ◌^◌, ◌++◌, ◌∷◌, [], length, nat_lt, get_or};
ghost use Rattle.std.specs.Prelude.{slice_get, set, true, false, OnOk, OnErr};
ghost use Rattle.dm_tree.specs.Rows.{row_at, node_of, IsShaped, IsTree, IsParkedTop};
ghost use Rattle.dm_tree.specs.Edits.{attached_as, with_name, without_content};
ghost use Rattle.dm_tree.specs.Reuse.{IsFreeRow};
ghost use Rattle.dm_tree.specs.Index.{is_named_before, AreRows, IsInOrder, IsIndex, IsPut, CanBeTakenOut};
ghost use Rattle.dm_tree.specs.Index.{IsPlace, IsPlacePast};

use crate::children::Children;
use crate::rows::Row;
use crate::walks::is_named;
use dm_base::Memory;
use dm_uri::Name;
use std::alloc::Global;
use std::cmp::Ordering;
use std::mem;

// The first eight bytes of a name, as a number. Names stand in the order of these numbers, but for those that begin
// alike.
#[inline(always)]
pub(crate) fn key_of(name: &Name) -> u64 {
    let mut key = 0u64;
    for at in 0..8 {
        let byte = name.as_slice().get(at).copied().unwrap_or(0);
        key = key << 8 | u64::from(byte);
    }
    key
}

#[inline(always)]
fn is_before(rows: &[Row], id: u32, name: &Name) -> bool
    ensures { result ≡ (nat_lt id (length rows.now) && is_named_before rows.now name.now id) }
{
    let at = id as usize;
    at < rows.len() && rows[at].name.compare(name) == Ordering::Less
}

// Whether the child before a place stands before a name.
fn follows(rows: &[Row], ids: &[u32], place: usize, name: &Name) -> bool
    requires inside { AreRows rows.now ids.now }
    requires within { place ≤ length ids.now }
    ensures { result ≡ true → 0 < place → is_named_before rows.now name.now (get_or ids.now (place - 1) 0) ≡ true }
{
    if place == 0 {
        return true;
    }
    is_before(rows, ids[place - 1], name)
}

// Whether the child at a place doesn't stand before a name.
fn precedes(rows: &[Row], ids: &[u32], place: usize, name: &Name) -> bool
    requires inside { AreRows rows.now ids.now }
    requires within { place ≤ length ids.now }
    ensures { result ≡ true → place < length ids.now
        → is_named_before rows.now name.now (get_or ids.now place 0) ≡ false }
{
    if place == ids.len() {
        return true;
    }
    !is_before(rows, ids[place], name)
}

/// Where a name stands among the children of a row, or where it would. The keys tell the place, and two names confirm
/// it; where other names begin alike, the names alone tell it.
pub(crate) fn place_of(rows: &[Row], ids: &[u32], keys: &[u64], key: u64, name: &Name) -> usize
    requires inside { AreRows rows.now ids.now }
    requires order { IsInOrder rows.now ids.now }
    ensures { IsPlace rows.now ids.now name.now result }
{
    let guess = keys.partition_point(|other| *other < key);
    let within = guess <= ids.len();
    if within && follows(rows, ids, guess, name) && precedes(rows, ids, guess, name) {
        return guess;
    }
    ids.partition_point(|id| is_before(rows, *id, name))
}

/// The place of the first child whose name stands behind this one.
pub(crate) fn place_past(rows: &[Row], ids: &[u32], keys: &[u64], name: &Name) -> usize
    requires inside { AreRows rows.now ids.now }
    requires order { IsInOrder rows.now ids.now }
    ensures { IsPlacePast rows.now ids.now name.now result }
{
    let place = place_of(rows, ids, keys, key_of(name), name);
    match id_at(ids, place) {
        Some(id) if is_named(rows, id, name) => place + 1,
        _ => place,
    }
}

/// The row at a place; none at the end.
pub(crate) fn id_at(ids: &[u32], place: usize) -> Option<u32>
    ensures { result ≡ slice_get ids.now place }
{
    ids.get(place).copied()
}

// Puts a row among its parent's children, and tells the place. It takes no memory.
#[tactic(auto, using(crate::proofs::IndexLinks::read_inside))]
fn link(rows: &[Row], index: &mut Vec<Children>, id: u32) -> usize
    requires out { IsPut rows.now id }
    requires index { IsIndex rows.now index.old.items }
    ensures { IsIndex (attached_as rows.now id true) index.new.items }
{
    let row = &rows[id as usize];
    let parent = row.parent as usize;
    let key = key_of(&row.name);
    let place = place_of(
        rows,
        index[parent].as_slice(),
        index[parent].keys(),
        key,
        &row.name,
    );
    index[parent].put_in(place, id, key);
    place
}

// Takes a row out from among its parent's children. It takes no memory, and leaves room for it.
fn unlink(rows: &[Row], index: &mut Vec<Children>, id: u32)
    requires attached { CanBeTakenOut rows.now id }
    requires index { IsIndex rows.now index.old.items }
    ensures { IsIndex (attached_as rows.now id false) index.new.items }
{
    let row = &rows[id as usize];
    let parent = row.parent as usize;
    let place = place_of(
        rows,
        index[parent].as_slice(),
        index[parent].keys(),
        key_of(&row.name),
        &row.name,
    );
    index[parent].take_out(place);
}

fn set_attached(rows: &mut Vec<Row>, id: u32, attached: bool)
    requires { id < length rows.old.items }
    ensures { rows.new.items ≡ attached_as rows.old.items id attached }
{
    let row = &mut rows[id as usize];
    row.attached = attached;
}

/// Puts a row in, with all that stands below it. It takes no memory.
pub(crate) fn put_in(rows: &mut Vec<Row>, index: &mut Vec<Children>, id: u32)
    requires out { IsPut rows.old.items id }
    requires index { IsIndex rows.old.items index.old.items }
    ensures rows { rows.new.items ≡ attached_as rows.old.items id true }
    ensures index { IsIndex rows.new.items index.new.items }
{
    let place = link(rows, index, id);
    index[id as usize].set_place(place);
    set_attached(rows, id, true);
}

/// Takes a row out, with all that stands below it. It takes no memory.
pub(crate) fn take_out(rows: &mut Vec<Row>, index: &mut Vec<Children>, id: u32)
    requires attached { CanBeTakenOut rows.old.items id }
    requires index { IsIndex rows.old.items index.old.items }
    ensures rows { rows.new.items ≡ attached_as rows.old.items id false }
    ensures index { IsIndex rows.new.items index.new.items }
{
    unlink(rows, index, id);
    set_attached(rows, id, false);
}

/// Adds a row that isn't put in yet. Its parent gets room for it.
pub(crate) fn add_row(
    alloc: Global,
    rows: &mut Vec<Row>,
    index: &mut Vec<Children>,
    sizes: &mut Vec<u32>,
    row: Row,
) -> Result<(), Memory>
    requires tree { IsTree rows.old.items }
    requires few { length rows.old.items + 1 < 2 ^ 32 }
    requires out { row.attached ≡ false }
    requires held { row.given_up ≡ false }
    requires parent { row.parent < length rows.old.items }
    requires index { IsIndex rows.old.items index.old.items }
    ensures ok { OnOk result (rows.new.items ≡ rows.old.items ++ row ∷ []) }
    ensures err { OnErr result ((rows.new.items ≡ rows.old.items) × (sizes.new.items ≡ sizes.old.items)) }
    ensures sizes { OnOk result (sizes.new.items ≡ sizes.old.items ++ 1 ∷ []) }
    ensures index { IsIndex rows.new.items index.new.items }
{
    rows.reserve(1)?;
    index.reserve(1)?;
    sizes.reserve(1)?;
    index[row.parent as usize].expect()?;
    rows.push_reserved(row);
    index.push_reserved(Children::new(alloc));
    sizes.push_reserved(1);
    Ok(())
}

/// Puts a row that isn't put in yet in place of a free one. Its parent gets room for it.
#[tactic(auto, using(crate::proofs::IndexFills::room_below))]
pub(crate) fn fill_row(
    rows: &mut Vec<Row>,
    index: &mut Vec<Children>,
    id: u32,
    row: Row,
) -> Result<(), Memory>
    requires tree { IsTree rows.old.items }
    requires free { IsFreeRow rows.old.items id }
    requires out { row.attached ≡ false }
    requires held { row.given_up ≡ false }
    requires parent { row.parent < length rows.old.items }
    requires index { IsIndex rows.old.items index.old.items }
    ensures ok { OnOk result (rows.new.items ≡ set rows.old.items id row) }
    ensures err { OnErr result (rows.new.items ≡ rows.old.items) }
    ensures index { IsIndex rows.new.items index.new.items }
{
    index[row.parent as usize].expect()?;
    rows[id as usize] = row;
    Ok(())
}

fn exchange_name(rows: &mut Vec<Row>, id: u32, name: &mut Name)
    requires { id < length rows.old.items }
    ensures rows { rows.new.items ≡ with_name rows.old.items id name.old (node_of rows.old.items id) }
    ensures name { name.new ≡ (row_at rows.old.items id).name }
{
    mem::swap(&mut rows[id as usize].name, name);
}

// Exchanges the name of a row that is in the tree or in a subtree, which gives it another place among its parent's
// children.
fn move_name(rows: &mut Vec<Row>, index: &mut Vec<Children>, id: u32, name: &mut Name)
    requires attached { CanBeTakenOut rows.old.items id }
    requires after { IsShaped (with_name rows.old.items id name.old (node_of rows.old.items id)) }
    requires index { IsIndex rows.old.items index.old.items }
    ensures rows { rows.new.items ≡ with_name rows.old.items id name.old (node_of rows.old.items id) }
    ensures name { name.new ≡ (row_at rows.old.items id).name }
    ensures index { IsIndex rows.new.items index.new.items }
{
    take_out(rows, index, id);
    exchange_name(rows, id, name);
    put_in(rows, index, id);
}

/// Exchanges the name of a row. It takes no memory.
pub(crate) fn swap_name(rows: &mut Vec<Row>, index: &mut Vec<Children>, id: u32, name: &mut Name)
    requires inside { id < length rows.old.items }
    requires tree { IsTree rows.old.items }
    requires after { IsShaped (with_name rows.old.items id name.old (node_of rows.old.items id)) }
    requires index { IsIndex rows.old.items index.old.items }
    ensures rows { rows.new.items ≡ with_name rows.old.items id name.old (node_of rows.old.items id) }
    ensures name { name.new ≡ (row_at rows.old.items id).name }
    ensures index { IsIndex rows.new.items index.new.items }
{
    if rows[id as usize].attached {
        move_name(rows, index, id, name);
    } else {
        exchange_name(rows, id, name);
    }
}

/// A row that was taken out can't be put in again: its parent needs no room for it.
pub(crate) fn forget(rows: &[Row], index: &mut Vec<Children>, id: u32)
    requires parked { IsParkedTop rows.now id }
    requires shaped { IsShaped rows.now }
    requires index { IsIndex rows.now index.old.items }
    ensures { IsIndex (without_content rows.now id) index.new.items }
{
    let row = &rows[id as usize];
    index[row.parent as usize].give_up();
}
