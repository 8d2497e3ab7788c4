// Searches downwards by name, and upwards.
ghost use Rattle.std.specs.Prelude.{◌≡◌, ◌<◌, ◌≤◌, ◌+◌, ◌^◌, ◌++◌, length, bytes_eq, OnOk, OnErr, IfOk, is_some};
ghost use Rattle.dm_uri.specs.Names.{printed_path};
ghost use Rattle.dm_tree.specs.Rows.{IsShaped, row_at, path_below};
ghost use Rattle.dm_tree.specs.Index.{IsIndex};
ghost use Rattle.dm_tree.specs.Walks.{child_of, find_from, path_up, row_names as names_right};
ghost use Rattle.dm_tree.specs.Walks.{row_allows as row_allows_it, deciding_row};

use crate::children::Children;
use crate::index::{id_at, key_of, place_of};
use crate::rows::Row;
use dm_acl::Right;
use dm_base::{Bytes, Memory};
use dm_uri::{Name, Path};
use std::alloc::Global;

// Whether a row bears the name.
pub(crate) fn is_named(rows: &[Row], id: u32, name: &Name) -> bool
    requires { id < length rows.now }
    ensures { result ≡ bytes_eq (row_at rows.now id).name name.now }
{
    rows[id as usize].name.is_same(name)
}

pub(crate) fn child_row(rows: &[Row], index: &[Children], id: u32, name: &Name) -> Option<u32>
    requires shaped { IsShaped rows.now }
    requires index { IsIndex rows.now index.now }
    requires inside { id < length rows.now }
    ensures { result ≡ child_of rows.now id name.now }
{
    let ids = index[id as usize].as_slice();
    let keys = index[id as usize].keys();
    match id_at(ids, place_of(rows, ids, keys, key_of(name), name)) {
        Some(child) if is_named(rows, child, name) => Some(child),
        _ => None,
    }
}

pub(crate) fn found_row(rows: &[Row], index: &[Children], path: &[Name]) -> Option<u32>
    requires shaped { IsShaped rows.now }
    requires index { IsIndex rows.now index.now }
    ensures { result ≡ find_from rows.now 0 path.now }
{
    let mut at = 0;
    for name in path {
        match child_row(rows, index, at, name) {
            Some(child) => at = child,
            None => return None,
        }
    }
    Some(at)
}

// Whether a row lies below the root.
#[tactic(auto, using(crate::proofs::UpwardSearch::in_up, crate::proofs::UpwardSearch::in_at_end, crate::proofs::UpwardSearch::in_at_root, crate::proofs::UpwardSearch::not_in))]
pub(crate) fn is_in(rows: &[Row], id: u32) -> bool
    requires shaped { IsShaped rows.now }
    requires inside { id < length rows.now }
    ensures { result ≡ is_some (path_below rows.now 0 id) }
{
    let mut at = id;
    let mut left = rows[id as usize].depth;
    while left > 0 {
        if at == 0 {
            return true;
        }
        if !rows[at as usize].attached {
            return false;
        }
        at = rows[at as usize].parent;
        left -= 1;
    }
    at == 0
}

// Appends the names of the rows from this one upwards, the topmost first.
pub(crate) fn put_path(
    alloc: Global,
    rows: &[Row],
    id: u32,
    left: u32,
    out: &mut Path,
) -> Result<(), Memory>
    requires shaped { IsShaped rows.now }
    requires inside { id < length rows.now }
    requires room { length out.old + left ≤ 16 }
    ensures { OnOk result (out.new ≡ out.old ++ path_up rows.now left id) }
{
    if left == 0 {
        return Ok(());
    }
    let row = &rows[id as usize];
    put_path(alloc, rows, row.parent, left - 1, out)?;
    let name = row.name.copy(alloc)?;
    match out.push(name) {
        Ok(()) => Ok(()),
        Err(_) => Err(Memory),
    }
}

// Appends the written form of the path down to a row, which has so many rows above it.
pub(crate) fn print_up(rows: &[Row], id: u32, left: u32, out: &mut Bytes) -> Result<(), Memory>
    requires shaped { IsShaped rows.now }
    requires inside { id < length rows.now }
    ensures { OnOk result (out.new ≡ out.old ++ printed_path (path_up rows.now left id)) }
{
    if left == 0 {
        return out.push(b'.');
    }
    let row = &rows[id as usize];
    print_up(rows, row.parent, left - 1, out)?;
    out.push(b'/')?;
    out.extend(row.name.as_slice())
}

fn row_names(row: &Row, right: Right) -> bool
    ensures { result ≡ names_right row.now right }
{
    match &row.node.acl {
        None => false,
        Some(acl) => acl.names(right),
    }
}

// The nearest row upwards whose access list names the right.
#[tactic(auto, using(crate::proofs::UpwardSearch::decides_up, crate::proofs::UpwardSearch::decides_here, crate::proofs::UpwardSearch::decides_none))]
pub(crate) fn deciding_row(rows: &[Row], id: u32, right: Right) -> Option<u32>
    requires shaped { IsShaped rows.now }
    requires inside { id < length rows.now }
    ensures { result ≡ deciding_row rows.now right (row_at rows.now id).depth id }
{
    let mut at = id;
    let mut left = rows[id as usize].depth;
    while left > 0 {
        if row_names(&rows[at as usize], right) {
            return Some(at);
        }
        at = rows[at as usize].parent;
        left -= 1;
    }
    if row_names(&rows[at as usize], right) {
        Some(at)
    } else {
        None
    }
}

// Whether the row's own access list allows the right to the server.
pub(crate) fn row_allows(row: &Row, server: &[u8], right: Right) -> bool
    ensures { result ≡ row_allows_it row.now server.now right }
{
    match &row.node.acl {
        None => false,
        Some(acl) => acl.allows(server, right),
    }
}
