// The entries of a journal, flipped one after another. Here the newest one comes last, in contracts first.
ghost use Rattle.std.specs.Prelude.{ℕ, ◌≡◌, ◌≤◌, ◌-◌, length, reverse, suc, take, drop, vec_capacity};
ghost use Rattle.dm_tree.specs.Rows.{IsTree, IsParkedTop};
ghost use Rattle.dm_tree.specs.Undos.{Fits, flipped, turned};
ghost use Rattle.dm_tree.specs.Notes.{GoesAlike, Stays};
ghost use Rattle.dm_undo.specs.Entries.{AreAlike, AreRecords, StaysWithin};
ghost use Rattle.dm_undo.specs.Trees.{stage, flipped_back, flipped_forward, newest_first};
ghost use Rattle.dm_undo.specs.Sound.{FitForward, AreAllHeld, AreSoundStages};
ghost use Rattle.dm_undo.specs.Giving.{MayGiveUp, LeavesRow};

use dm_tree::{Tree, Undo};

/// What a journal keeps.
#[derive(Drop)]
pub enum Entry {
    /// What takes an edit back; or, after a roll back, what does it again.
    Record(Undo),
    /// The edits of so many entries before this one were taken back.
    Flipped(usize),
}

// Flips the entries from a place on back, the newest first.
pub(crate) fn flip_back(entries: &mut Vec<Entry>, tree: &mut Tree, from: usize)
    requires held { from ≤ length entries.old.items }
    requires records { AreRecords (length entries.old.items - from) (reverse entries.old.items) }
    requires sound { AreSoundStages (length entries.old.items) (reverse entries.old.items) tree.old.rows }
    ensures stage { flipped_back (length entries.old.items - from) (reverse entries.old.items) tree.old.rows
        ≡ stage (reverse entries.new.items) tree.new.rows }
    ensures len { length entries.new.items ≡ length entries.old.items }
    ensures room { vec_capacity entries.new ≡ vec_capacity entries.old }
    ensures clock { tree.new.clock ≡ tree.old.clock }
{
    let mut k = entries.len();
    while k > from {
        k -= 1;
        if let Entry::Record(undo) = &mut entries[k] {
            tree.flip(undo);
        }
    }
}

// Flips so many entries forward again, the newest last.
pub(crate) fn flip_forward(entries: &mut Vec<Entry>, tree: &mut Tree, count: usize)
    requires held { count ≤ length entries.old.items }
    requires fit { FitForward count (reverse entries.old.items) tree.old.rows }
    ensures stage { flipped_forward count (reverse entries.old.items) tree.old.rows
        ≡ stage (reverse entries.new.items) tree.new.rows }
    ensures len { length entries.new.items ≡ length entries.old.items }
    ensures room { vec_capacity entries.new ≡ vec_capacity entries.old }
    ensures clock { tree.new.clock ≡ tree.old.clock }
{
    let mut k = entries.len() - count;
    while k < entries.len() {
        let at = k;
        k += 1;
        if let Entry::Record(undo) = &mut entries[at] {
            tree.flip(undo);
        }
    }
}

// Takes an edit back for good.
pub(crate) fn take_back(tree: &mut Tree, undo: Undo)
    requires tree { IsTree tree.old.rows }
    requires fits { Fits tree.old.rows undo }
    ensures alike { GoesAlike (Stays (flipped tree.old.rows undo) (turned tree.old.rows undo))
        (flipped tree.old.rows undo) tree.new.rows }
    ensures parked { (k : ℕ) → IsParkedTop tree.new.rows k → IsParkedTop (flipped tree.old.rows undo) k
        × Stays (flipped tree.old.rows undo) (turned tree.old.rows undo) k }
    ensures clock { tree.new.clock ≡ tree.old.clock }
{
    let mut undo = undo;
    tree.flip(&mut undo);
    tree.discard(undo);
}

// Takes the entries from a place on off, the newest first.
pub(crate) fn unwind_to(entries: &mut Vec<Entry>, tree: &mut Tree, mark: usize)
    requires held { mark ≤ length entries.old.items }
    requires sound { AreSoundStages (length entries.old.items) (reverse entries.old.items) tree.old.rows }
    ensures sound { AreSoundStages mark (reverse entries.new.items) tree.new.rows }
    ensures trees { newest_first mark (reverse entries.new.items) tree.new.rows
        ≡ drop (length entries.old.items - mark)
        (newest_first (length entries.old.items) (reverse entries.old.items) tree.old.rows) }
    ensures entries { AreAlike (drop (length entries.old.items - mark) (reverse entries.old.items))
        (reverse entries.new.items) }
    ensures parked { AreAllHeld (reverse entries.old.items) tree.old.rows
        → AreAllHeld (reverse entries.new.items) tree.new.rows }
    ensures len { length entries.new.items ≡ mark }
    ensures room { vec_capacity entries.new ≡ vec_capacity entries.old }
    ensures clock { tree.new.clock ≡ tree.old.clock }
{
    while entries.len() > mark {
        match entries.take_last() {
            Entry::Record(undo) => take_back(tree, undo),
            Entry::Flipped(count) => flip_forward(entries, tree, count),
        }
    }
}

fn give_up(tree: &mut Tree, entry: Entry)
    requires held { MayGiveUp entry tree.old.rows }
    ensures alike { GoesAlike (LeavesRow tree.old.rows entry) tree.old.rows tree.new.rows }
    ensures parked { (k : ℕ) → IsParkedTop tree.new.rows k
        → IsParkedTop tree.old.rows k × LeavesRow tree.old.rows entry k }
    ensures clock { tree.new.clock ≡ tree.old.clock }
{
    match entry {
        Entry::Record(undo) => tree.discard(undo),
        Entry::Flipped(_) => {}
    }
}

// Gives up all but so many entries, the newest ones, with what they hold.
pub(crate) fn keep_newest(entries: &mut Vec<Entry>, tree: &mut Tree, count: usize)
    requires held { count ≤ length entries.old.items }
    requires sound { AreSoundStages (length entries.old.items) (reverse entries.old.items) tree.old.rows }
    requires within { StaysWithin (take count (reverse entries.old.items)) }
    ensures entries { reverse entries.new.items ≡ take count (reverse entries.old.items) }
    ensures sound { AreSoundStages count (reverse entries.new.items) tree.new.rows }
    ensures trees { newest_first count (reverse entries.new.items) tree.new.rows
        ≡ take (suc count)
        (newest_first (length entries.old.items) (reverse entries.old.items) tree.old.rows) }
    ensures parked { AreAllHeld (reverse entries.old.items) tree.old.rows
        → AreAllHeld (reverse entries.new.items) tree.new.rows }
    ensures room { vec_capacity entries.new ≡ vec_capacity entries.old }
    ensures clock { tree.new.clock ≡ tree.old.clock }
{
    if entries.len() == count {
        return;
    }
    // What goes stands in front; turned round, it is taken off the end.
    entries.reverse();
    while entries.len() > count {
        let entry = entries.take_last();
        give_up(tree, entry);
    }
    entries.reverse();
}
