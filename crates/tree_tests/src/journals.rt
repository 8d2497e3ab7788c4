// Nodes that a journal takes back.
ghost use Rattle.std.specs.Prelude.{◌≡◌, ◌≤◌, ◌<◌, ◌-◌, length, IfSome};
ghost use Rattle.dm_undo.specs.Entries.{AreRecords};
ghost use Rattle.dm_undo.specs.Sound.{IsSound};
ghost use Rattle.dm_undo.specs.Notes.{Notes};

use crate::rows::rows_of;
use crate::trees::{Start, put};
use dm_tree::{Role, Tree};
use dm_undo::{Journal, Mark};
use std::alloc::Global;

const X: Start = Start {
    uri: b"./X",
    acl: b"",
    interior: true,
};

const X_Y: Start = Start {
    uri: b"./X/y",
    acl: b"",
    interior: true,
};

const X_Y_Z: Start = Start {
    uri: b"./X/y/z",
    acl: b"",
    interior: false,
};

// Each of the helpers below answers None where memory runs out, or an edit can't be done.

// Room for one entry more than there is already.
fn make_room(journal: &mut Journal) -> Option<()>
    ensures entries { journal.new.entries ≡ journal.old.entries }
    ensures room { IfSome result (λ _. length journal.new.entries < journal.new.room) }
    ensures more { IfSome result (λ _. journal.old.room - length journal.old.entries
        < journal.new.room - length journal.new.entries) }
{
    match journal.reserve(journal.spare() + 1) {
        Ok(()) => Some(()),
        Err(_) => None,
    }
}

// Room is made before the edit, so that nothing can fail behind it.
fn noted(alloc: Global, tree: &mut Tree, journal: &mut Journal, row: &Start) -> Option<()>
    ensures { IfSome result (λ _. Notes journal.old tree.old.rows journal.new tree.new.rows) }
{
    make_room(journal)?;
    let undo = put(alloc, tree, row, Role::Plain)?;
    journal.note(undo);
    Some(())
}

fn back_to(tree: &mut Tree, journal: &mut Journal, mark: Mark) -> Option<()>
    requires held { mark ≤ length journal.old.entries }
    requires plain { AreRecords (length journal.old.entries - mark) journal.old.entries }
    requires sound { IsSound journal.old.entries tree.old.rows }
    ensures sound { IfSome result (λ _. IsSound journal.new.entries tree.new.rows) }
    ensures longer { IfSome result (λ _. length journal.old.entries ≤ length journal.new.entries) }
{
    make_room(journal)?;
    journal.roll_back(tree, mark);
    Some(())
}

fn forget(tree: &mut Tree, journal: &mut Journal)
    requires { IsSound journal.old.entries tree.old.rows }
    ensures { IsSound journal.new.entries tree.new.rows }
{
    let mark = journal.mark();
    let _ = journal.settle(tree, mark);
}

// Three nodes, each below the one before, are rolled back and then given up, the uppermost one first: the row of each
// but the last waits for the one below. The answer is how many rows the tree had with them.
fn rows_before_a_roll_back(alloc: Global, tree: &mut Tree, journal: &mut Journal) -> Option<usize>
    requires { IsSound journal.old.entries tree.old.rows }
{
    let first = journal.mark();
    noted(alloc, tree, journal, &X)?;
    noted(alloc, tree, journal, &X_Y)?;
    noted(alloc, tree, journal, &X_Y_Z)?;
    let rows = rows_of(alloc, tree)?;
    back_to(tree, journal, first)?;
    forget(tree, journal);
    Some(rows)
}

// The same with a journal of their own.
pub(crate) fn rows_with_rolled_back(alloc: Global, tree: &mut Tree) -> Option<usize> {
    let _ = tree.root();
    match Journal::new(alloc) {
        Ok(mut journal) => rows_before_a_roll_back(alloc, tree, &mut journal),
        Err(_) => None,
    }
}
