// URIs, names and paths: their orders, and how a path grows and shrinks. Which texts are read is shown by a trace.
ghost use Rattle.std.specs.Prelude.{◌<◌, ◌≤◌, ◌+◌, length};

use crate::asserts::assert_no_place_wrong;
use crate::uri_rows::{NAME_ORDERS, OrderRow, PATH_ORDERS};
use dm_uri::{Name, Path, Prop, Query, Uri, UriError, is_uri, parse, parse_name, print};
use std::alloc::Global;

fn is_written(alloc: Global, uri: &Uri, want: &[u8]) -> bool {
    match print(alloc, uri) {
        Ok(text) => text.as_slice() == want,
        Err(_) => false,
    }
}

fn is_name_in_order(alloc: Global, left: &Name, row: &OrderRow) -> bool {
    match parse_name(alloc, row.right) {
        Ok(right) => left.is_same(&right) == row.are_same && left.compare(&right) == row.order,
        Err(_) => false,
    }
}

fn is_name_row(alloc: Global, row: &OrderRow) -> bool {
    match parse_name(alloc, row.left) {
        Ok(left) => is_name_in_order(alloc, &left, row),
        Err(_) => false,
    }
}

// The place of the first wrong row.
fn wrong_name_order(alloc: Global) -> Option<usize> {
    for (i, row) in NAME_ORDERS.iter().enumerate() {
        if !is_name_row(alloc, row) {
            return Some(i);
        }
    }
    None
}

fn is_copied(alloc: Global, text: &[u8]) -> bool {
    match parse_name(alloc, text) {
        Ok(name) => name.copy(alloc).is_ok_and(|copy| copy.as_slice() == text),
        Err(_) => false,
    }
}

#[test]
fn compares_names(rt: HostRuntime) {
    assert_no_place_wrong(&rt, wrong_name_order(rt.alloc()));
    assert!(rt; is_copied(rt.alloc(), b"ab"));
}

fn is_path_in_order(alloc: Global, left: &Path, row: &OrderRow) -> bool {
    match parse(alloc, row.right) {
        Ok(right) => {
            left.is_same(&right.path) == row.are_same && left.compare(&right.path) == row.order
        }
        Err(_) => false,
    }
}

fn is_path_row(alloc: Global, row: &OrderRow) -> bool {
    if !is_uri(row.left) {
        return false;
    }
    match parse(alloc, row.left) {
        Ok(left) => is_path_in_order(alloc, &left.path, row),
        Err(_) => false,
    }
}

// The place of the first wrong row.
fn wrong_path_order(alloc: Global) -> Option<usize> {
    for (i, row) in PATH_ORDERS.iter().enumerate() {
        if !is_path_row(alloc, row) {
            return Some(i);
        }
    }
    None
}

#[test]
fn compares_paths(rt: HostRuntime) {
    assert_no_place_wrong(&rt, wrong_path_order(rt.alloc()));
}

fn pushed(alloc: Global, path: &mut Path, name: &[u8]) -> Result<(), UriError>
    requires { length path.old < 16 }
    ensures { length path.new ≤ length path.old + 1 }
{
    let name = parse_name(alloc, name)?;
    path.push(name)
}

fn path_of_two(alloc: Global) -> Result<Path, UriError> {
    let mut path = Path::new(alloc);
    pushed(alloc, &mut path, b"a")?;
    pushed(alloc, &mut path, b"b")?;
    Ok(path)
}

fn is_written_path(alloc: Global, path: Path, want: &[u8]) -> bool {
    let uri = Uri {
        path,
        query: Query::Prop(Prop::TStamp),
    };
    is_written(alloc, &uri, want)
}

fn takes_last(path: &mut Path, want: &[u8]) -> bool {
    match path.pop() {
        Some(name) => name.as_slice() == want,
        None => false,
    }
}

// Whether the last of two names is taken, and the first is left.
fn loses_its_last(alloc: Global) -> bool {
    match path_of_two(alloc) {
        Ok(mut path) => {
            let is_taken = takes_last(&mut path, b"b");
            let is_left = is_written_path(alloc, path, b"./a?prop=TStamp");
            is_taken && is_left
        }
        Err(_) => false,
    }
}

// Whether no name is left of two.
fn is_cleared(alloc: Global) -> bool {
    match path_of_two(alloc) {
        Ok(mut path) => {
            path.clear();
            let is_empty = path.pop().is_none();
            let is_root = is_written_path(alloc, path, b".?prop=TStamp");
            is_empty && is_root
        }
        Err(_) => false,
    }
}

#[test]
fn edits_paths(rt: HostRuntime) {
    assert!(rt; loses_its_last(rt.alloc()));
    assert!(rt; is_cleared(rt.alloc()));
}
