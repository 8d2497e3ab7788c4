// A journal of what edits gave to take them back.
ghost use Rattle.std.specs.Prelude.{◌≡◌, ◌≤◌, ◌<◌, ◌+◌, ◌-◌, ◌^◌, ◌∷◌, ◌++◌, [], List as ListOf, IfOk, OnOk};
ghost use Rattle.std.specs.Prelude.{length, take, drop, suc, max, OnErr};
ghost use Rattle.dm_tree.specs.declared.rows.Row.{Row};
ghost use Rattle.dm_tree.specs.Rows.{IsTree};
ghost use Rattle.dm_tree.specs.Notes.{TakesEditBack};
ghost use Rattle.dm_undo.specs.declared.entries.Entry.TheVariants as entry;
ghost use Rattle.dm_undo.specs.Entries.{AreAlike, AreRecords, StaysWithin};
ghost use Rattle.dm_undo.specs.Trees.{maps_of, trees, tree_at};
ghost use Rattle.dm_undo.specs.Sound.{AreAllHeld, IsSound};
ghost use Rattle.dm_undo.specs.Marks.{RecallsTrees, RecallsFrom};

use crate::entries::{Entry, flip_back, keep_newest, unwind_to};
use dm_base::Memory;
use dm_tree::{Tree, Undo};
use std::alloc::Global;
use std::marker::Model;

/// A place between the entries of a journal, which contracts see as the number of entries before it. The condition on
/// each mark that is handed to a call is that it is held: the journal has so many entries.
#[derive(Clone, Copy, Debug, PartialEq, Eq)]
pub struct Mark {
    place: usize,
}

impl Model for Mark {
    ghost use Rattle.std.specs.Prelude.{ℕ};

    ghost Value = { ℕ };

    ghost view = { λ m. m.place };

    ghost inverse = { λ n. record { place = n } };
}

/// A journal of the edits of a tree. With that tree it stands for a list of trees to go back to, one for each place
/// between its entries; the last one is the tree now. Each has the nodes and their numbers at their paths. The clock
/// is no part of them, and stays.
///
/// The journal is sound from `new` on, as long as each edit of the tree is noted at once. Only `new` and `reserve`
/// take memory: an entry stands in room that was made before.
#[derive(Drop)]
pub struct Journal {
    entries: Vec<Entry>,
    // How many entries were made room for. The list may have more room than that: what grows it doubles it, and
    // who asks for one entry more than is spare, again and again, is to pay for one.
    room: usize,
}

impl Model for Journal {
    ghost use Rattle.std.specs.Prelude.{◌≤◌, length, vec_capacity, reverse};
    ghost use Rattle.dm_undo.specs.Journals.{Journal as Kept};

    ghost Value = { Kept };

    ghost view = { λ j. record { entries = reverse j.entries.items; room = j.room } };

    ghost invariant = { λ j. (length j.entries.items ≤ j.room) × (j.room ≤ vec_capacity j.entries) };
}

impl Journal {
    /// A journal without entries, for any tree. Its list is that tree alone.
    pub fn new(alloc: Global) -> Result<Journal, Memory>
        ensures entries { IfOk result (λ j. j.entries ≡ []) }
        ensures stands { IfOk result (λ j. (rows : ListOf Row) → IsTree rows
            → IsSound j.entries rows × (trees j.entries rows ≡ maps_of rows ∷ [])) }
    {
        Ok(Journal {
            entries: Vec::new(alloc),
            room: 0,
        })
    }

    /// The place behind all entries: where the journal stands now.
    pub fn mark(&self) -> Mark
        ensures place { result ≡ length self.now.entries }
        ensures there { (rows : ListOf Row) → tree_at self.now.entries rows result ≡ maps_of rows }
    {
        Mark {
            place: self.entries.len(),
        }
    }

    /// How many entries may be noted before more room is made: what was reserved and isn't used.
    pub fn spare(&self) -> usize
        ensures count { result ≡ self.now.room - length self.now.entries }
        ensures small { result < 2 ^ 63 }
    {
        self.room - self.entries.len()
    }

    /// Makes room for so many further entries, and no more, where there isn't yet. The only error is want of memory;
    /// all is as before then. The entries stay either way.
    pub fn reserve(&mut self, count: usize) -> Result<(), Memory>
        ensures ok { OnOk result (length self.new.entries + count ≤ self.new.room) }
        ensures entries { self.new.entries ≡ self.old.entries }
        ensures room { self.old.room ≤ self.new.room }
        ensures exact { OnOk result (self.new.room ≡ max self.old.room (length self.old.entries + count)) }
        ensures err { OnErr result (self.new ≡ self.old) }
    {
        self.entries.reserve(count)?;
        self.room = self.room.max(self.entries.len() + count);
        Ok(())
    }

    /// Keeps what takes the last edit back, and so adds the tree after it to the list. It takes one entry of what is
    /// spare, and no memory.
    pub fn note(&mut self, undo: Undo)
        requires spare { length self.old.entries < self.old.room }
        ensures entries { self.new ≡ record self.old { entries = entry.Record undo ∷ self.old.entries } }
        ensures sound { (before now : ListOf Row) → IsSound self.old.entries before → TakesEditBack undo before now
            → IsSound self.new.entries now }
        ensures trees { (before now : ListOf Row) → IsSound self.old.entries before → TakesEditBack undo before now
            → trees self.new.entries now ≡ trees self.old.entries before ++ maps_of now ∷ [] }
        ensures recalls { (before now : ListOf Row) → IsSound self.old.entries before → TakesEditBack undo before now
            → RecallsTrees (length self.old.entries) self.old.entries before self.new.entries now }
        ensures parked { (before now : ListOf Row) → TakesEditBack undo before now
            → AreAllHeld self.old.entries before → AreAllHeld self.new.entries now }
    {
        self.entries.push_reserved(Entry::Record(undo));
    }

    /// Makes the tree at the mark again, and adds it to the list: the edits after the mark are taken back, and kept,
    /// so that an unwind can do them again. Since the mark nothing may have been rolled back. All marks stay held. It
    /// takes one entry of what is spare, no memory, and time by the entries after the mark.
    pub fn roll_back(&mut self, tree: &mut Tree, mark: Mark)
        requires spare { length self.old.entries < self.old.room }
        requires held { mark ≤ length self.old.entries }
        requires plain { AreRecords (length self.old.entries - mark) self.old.entries }
        requires sound { IsSound self.old.entries tree.old.rows }
        ensures sound { IsSound self.new.entries tree.new.rows }
        ensures there { maps_of tree.new.rows ≡ tree_at self.old.entries tree.old.rows mark }
        ensures trees { trees self.new.entries tree.new.rows
            ≡ trees self.old.entries tree.old.rows ++ maps_of tree.new.rows ∷ [] }
        ensures recalls { RecallsTrees (length self.old.entries)
            self.old.entries tree.old.rows self.new.entries tree.new.rows }
        ensures parked { AreAllHeld self.old.entries tree.old.rows → AreAllHeld self.new.entries tree.new.rows }
        ensures entries { AreAlike (entry.Flipped (length self.old.entries - mark) ∷ self.old.entries)
            self.new.entries }
        ensures room { self.new.room ≡ self.old.room }
        ensures clock { tree.new.clock ≡ tree.old.clock }
    {
        let count = self.entries.len() - mark.place;
        flip_back(&mut self.entries, tree, mark.place);
        self.entries.push_reserved(Entry::Flipped(count));
    }

    /// Makes the tree at the mark again, and drops all trees after it: edits after the mark, and roll backs too, are
    /// taken back and forgotten, with what they alone held. The marks up to this one stay held. It takes no memory,
    /// and time by the entries from the mark on, or from the earliest place that one of these roll backs went to.
    pub fn unwind(&mut self, tree: &mut Tree, mark: Mark)
        requires held { mark ≤ length self.old.entries }
        requires sound { IsSound self.old.entries tree.old.rows }
        ensures sound { IsSound self.new.entries tree.new.rows }
        ensures there { maps_of tree.new.rows ≡ tree_at self.old.entries tree.old.rows mark }
        ensures trees { trees self.new.entries tree.new.rows
            ≡ take (suc mark) (trees self.old.entries tree.old.rows) }
        ensures recalls { RecallsTrees mark self.old.entries tree.old.rows self.new.entries tree.new.rows }
        ensures parked { AreAllHeld self.old.entries tree.old.rows → AreAllHeld self.new.entries tree.new.rows }
        ensures entries { AreAlike (drop (length self.old.entries - mark) self.old.entries) self.new.entries
            × (length self.new.entries ≡ mark) }
        ensures room { self.new.room ≡ self.old.room }
        ensures clock { tree.new.clock ≡ tree.old.clock }
    {
        unwind_to(&mut self.entries, tree, mark.place);
    }

    /// Drops all trees before the mark, with the subtrees that they alone need, and leaves the tree as it is. No roll
    /// back after the mark may have gone to a place before it. It answers the first place, where the mark now stands:
    /// of the marks taken so far that one alone is to be used. The room for spare entries stays, that of those given up
    /// goes. It takes no memory, and time by the entries; none where no tree is dropped.
    pub fn settle(&mut self, tree: &mut Tree, mark: Mark) -> Mark
        requires held { mark ≤ length self.old.entries }
        requires within { StaysWithin (take (length self.old.entries - mark) self.old.entries) }
        requires sound { IsSound self.old.entries tree.old.rows }
        ensures mark { result ≡ 0 }
        ensures sound { IsSound self.new.entries tree.new.rows }
        ensures there { maps_of tree.new.rows ≡ maps_of tree.old.rows }
        ensures trees { trees self.new.entries tree.new.rows ≡ drop mark (trees self.old.entries tree.old.rows) }
        ensures recalls { RecallsFrom mark self.old.entries tree.old.rows self.new.entries tree.new.rows }
        ensures parked { AreAllHeld self.old.entries tree.old.rows → AreAllHeld self.new.entries tree.new.rows }
        ensures entries { self.new ≡ record self.old {
          entries = take (length self.old.entries - mark) self.old.entries;
          room = self.old.room - mark;
        } }
        ensures clock { tree.new.clock ≡ tree.old.clock }
    {
        let count = self.entries.len() - mark.place;
        keep_newest(&mut self.entries, tree, count);
        self.room -= mark.place;
        Mark { place: 0 }
    }
}
