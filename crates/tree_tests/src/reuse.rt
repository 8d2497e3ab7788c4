// Rows that are used again: nodes come and go in all orders, beside a table of those that are there.
ghost use Rattle.dm_tree.specs.Undos.{Fits};

use crate::journals::rows_with_rolled_back;
use crate::large_trees::{add_at, give_up};
use crate::rows::rows_of;
use crate::trees::{Start, at, bare_tree, put};
use dm_tree::{Role, Tree, Undo};
use std::alloc::Global;

// Each of the helpers below answers None where memory runs out, or a node isn't where it has to be.

const PLACES: [Start; 4] = [
    Start {
        uri: b"./X",
        acl: b"",
        interior: true,
    },
    Start {
        uri: b"./X/y",
        acl: b"Get=*",
        interior: true,
    },
    Start {
        uri: b"./X/y/z",
        acl: b"",
        interior: false,
    },
    Start {
        uri: b"./W",
        acl: b"",
        interior: false,
    },
];

// The place above each; none below the root.
const ABOVE: [Option<usize>; 4] = [None, Some(0), Some(1), None];

// Which of the places a node has.
type Table = [bool; 4];

// Takes an edit back, does it again where it is to last, and gives the Undo up.
fn settle(tree: &mut Tree, mut undo: Undo, lasts: bool)
    requires { Fits tree.old.rows undo }
{
    tree.flip(&mut undo);
    if lasts {
        tree.flip(&mut undo);
        tree.discard(undo);
    } else {
        tree.discard(undo);
    }
}

// None comes where the node has a row behind those that the places and the root take.
fn come(alloc: Global, tree: &mut Tree, place: usize, lasts: bool) -> Option<()> {
    let undo = put(alloc, tree, PLACES.get(place)?, Role::Plain)?;
    let rows = rows_of(alloc, tree);
    settle(tree, undo, lasts);
    if rows? <= 1 + PLACES.len() {
        Some(())
    } else {
        None
    }
}

fn go(alloc: Global, tree: &mut Tree, place: usize, lasts: bool) -> Option<()> {
    let id = at(alloc, tree, PLACES.get(place)?.uri)?;
    if tree.view(id).permanent {
        return None;
    }
    let undo = tree.detach(id);
    settle(tree, undo, lasts);
    Some(())
}

// The table without a place and those below it.
fn cut(table: Table, place: usize) -> Option<Table> {
    let top = PLACES.get(place)?.uri;
    let mut left = table;
    for (row, there) in PLACES.iter().zip(left.iter_mut()) {
        if row.uri.starts_with(top) {
            *there = false;
        }
    }
    Some(left)
}

// One step in tree and table: what is there goes, and what isn't comes, where the node above is there.
fn step(alloc: Global, tree: &mut Tree, table: Table, place: usize, lasts: bool) -> Option<Table> {
    if *table.get(place)? {
        go(alloc, tree, place, lasts)?;
        return if lasts {
            cut(table, place)
        } else {
            Some(table)
        };
    }
    if let Some(above) = *ABOVE.get(place)? {
        if !*table.get(above)? {
            return Some(table);
        }
    }
    come(alloc, tree, place, lasts)?;
    let mut more = table;
    *more.get_mut(place)? = lasts;
    Some(more)
}

// Whether a tree has the nodes of a table, and no others.
fn is_as(alloc: Global, tree: &Tree, table: &Table) -> bool {
    for (row, there) in PLACES.iter().zip(table.iter()) {
        if at(alloc, tree, row.uri).is_some() != *there {
            return false;
        }
    }
    let nodes = 1 + table.iter().filter(|there| **there).count();
    tree.count() as usize == nodes
}

// Takes the steps that the digits of a word tell, to the base 8. None comes where tree and table differ.
fn runs(alloc: Global, word: u32) -> Option<()> {
    let mut tree = bare_tree(alloc)?;
    let mut table = [false; 4];
    let mut rest = word;
    for _ in 0..4 {
        let digit = rest % 8;
        rest /= 8;
        table = step(alloc, &mut tree, table, (digit % 4) as usize, digit < 4)?;
        if !is_as(alloc, &tree, &table) {
            return None;
        }
    }
    Some(())
}

// The first word at which tree and table differ.
fn wrong_word(alloc: Global) -> Option<u32> {
    (0..8 * 8 * 8 * 8).find(|word| runs(alloc, *word).is_none())
}

#[test]
fn nodes_come_and_go_in_all_orders(rt: HostRuntime) {
    assert_eq!(rt; wrong_word(rt.alloc()), None);
}

const DEEP: &[u8] = b"./a/b/c/d/e/f/g/h/i/j/k/l/m/n/o/p";

fn add_deep(alloc: Global, tree: &mut Tree) -> Option<()> {
    for depth in 1..17 {
        if !add_at(alloc, tree, DEEP.get(..1 + 2 * depth)?, true)? {
            return None;
        }
    }
    Some(())
}

// Puts a subtree of 16 levels in and takes it out again, and answers how many rows the tree had with it.
fn rows_with_deep(alloc: Global, tree: &mut Tree) -> Option<usize> {
    add_deep(alloc, tree)?;
    if tree.count() != 17 {
        return None;
    }
    let rows = rows_of(alloc, tree)?;
    give_up(alloc, tree, b"./a")?;
    if tree.count() == 1 { Some(rows) } else { None }
}

// How nodes that came in go again.
#[derive(Clone, Copy)]
enum Way {
    GivenUp,
    RolledBack,
}

fn rows_of_turn(alloc: Global, tree: &mut Tree, way: Way) -> Option<usize> {
    match way {
        Way::GivenUp => rows_with_deep(alloc, tree),
        Way::RolledBack => rows_with_rolled_back(alloc, tree),
    }
}

fn most_rows(alloc: Global, tree: &mut Tree, way: Way, turns: u32) -> Option<usize> {
    let mut rows = 0;
    for _ in 0..turns {
        rows = rows_of_turn(alloc, tree, way)?.max(rows);
    }
    Some(rows)
}

// How many rows a tree takes in which nodes come and go some times.
fn rows_after(alloc: Global, way: Way, turns: u32) -> Option<usize> {
    let mut tree = bare_tree(alloc)?;
    most_rows(alloc, &mut tree, way, turns)
}

#[test]
fn the_rows_of_a_deep_subtree_are_taken_again(rt: HostRuntime) {
    assert_eq!(rt; rows_after(rt.alloc(), Way::GivenUp, 1), Some(17));
    assert_eq!(rt; rows_after(rt.alloc(), Way::GivenUp, 10), Some(17));
}

#[test]
fn the_rows_of_what_was_rolled_back_are_taken_again(rt: HostRuntime) {
    assert_eq!(rt; rows_after(rt.alloc(), Way::RolledBack, 1), Some(4));
    assert_eq!(rt; rows_after(rt.alloc(), Way::RolledBack, 20), Some(4));
}
