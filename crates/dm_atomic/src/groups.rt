// Groups that open, and end.
ghost use Rattle.std.specs.Prelude.{◌≡◌, ◌<◌, ◌∷◌, ◌++◌, [], None, true, false, vec_len, vec_capacity, OnOk, OnErr};
ghost use Rattle.dm_commands.specs.Promises.{none_moved};
ghost use Rattle.dm_atomic.specs.Run.{opened, opens};
ghost use Rattle.dm_atomic.specs.Engine.{state_of, IsSoundEngine};
ghost use Rattle.dm_atomic.specs.Marks.{whole_of, Holds};
ghost use Rattle.dm_atomic.specs.Stays.{StayBut, committed_ids};

use crate::engine::{EndedGroup, Engine};
use crate::reports::Part;
use dm_base::{List, Memory};
use std::mem;

impl Engine {
    // The open group is one that ended: its parts are kept, so that it can be gone back to.
    fn end_group(&mut self)
        requires room { vec_len self.old.ended < vec_capacity self.old.ended }
        ensures same { self.new ≡ record self.old { is_open = false; parts = self.new.parts; ended = self.new.ended } }
        ensures ended { self.new.ended.items
            ≡ self.old.ended.items ++ record { mark = self.old.mark; parts = self.old.parts } ∷ [] }
        ensures empty { self.new.parts ≡ [] }
        ensures capacity { vec_capacity self.new.ended ≡ vec_capacity self.old.ended }
    {
        let parts = mem::replace(&mut self.parts, List::new(self.alloc));
        let mark = self.mark;
        self.ended.push_reserved(EndedGroup { mark, parts });
        self.is_open = false;
    }

    /// No group is open any more, and the tree stays. It takes no memory.
    pub(crate) fn close_group(&mut self)
        requires sound { IsSoundEngine self.old }
        requires is_open { self.old.is_open ≡ true }
        ensures state { state_of self.new ≡ record (state_of self.old) { group = None } }
        ensures inbox { self.new.inbox ≡ self.old.inbox }
        ensures clock { self.new.tree.clock ≡ self.old.tree.clock }
        ensures ids { (whole_of self.new).ids ≡ (whole_of self.old).ids }
        ensures base { (whole_of self.new).base_ids ≡ None }
        ensures marks { Holds self.old self.new }
        ensures sound { IsSoundEngine self.new }
    {
        self.end_group();
    }

    /// The tree before the open group stands again, and no group is open. It takes no memory.
    pub(crate) fn roll_back(&mut self)
        requires sound { IsSoundEngine self.old }
        requires is_open { self.old.is_open ≡ true }
        ensures state { state_of self.new
            ≡ record (state_of self.old) { tree = (opened (state_of self.old)).base; group = None } }
        ensures inbox { self.new.inbox ≡ self.old.inbox }
        ensures clock { self.new.tree.clock ≡ self.old.tree.clock }
        ensures ids { (whole_of self.new).ids ≡ committed_ids (whole_of self.old) }
        ensures base { (whole_of self.new).base_ids ≡ None }
        ensures marks { Holds self.old self.new }
        ensures sound { IsSoundEngine self.new }
    {
        self.journal.roll_back(&mut self.tree, self.mark);
        self.end_group();
    }

    /// The open group has one more part. After `Memory` all is as before.
    #[tactic(auto, using(crate::proofs::Held::holds_part, crate::proofs::Held::holds_self, crate::proofs::Engines::part_sound, crate::proofs::Staying::stay_self))]
    pub(crate) fn push_part(&mut self, part: Part) -> Result<(), Memory>
        requires sound { IsSoundEngine self.old }
        requires is_open { self.old.is_open ≡ true }
        ensures ok { OnOk result (self.new ≡ record self.old { parts = self.old.parts ++ part ∷ [] }) }
        ensures err { OnErr result (self.new ≡ self.old) }
        ensures ids { StayBut none_moved (whole_of self.old) (whole_of self.new) }
        ensures marks { Holds self.old self.new }
        ensures sound { IsSoundEngine self.new }
    {
        self.parts.push(part)?;
        Ok(())
    }

    /// A group begins here, unless one is open. After `Memory` the state is as before.
    #[tactic(auto, using(crate::proofs::Held::holds_self, crate::proofs::Held::holds_reserved, crate::proofs::Held::holds_opened, crate::proofs::Engines::opening, crate::proofs::Staying::stay_self))]
    pub(crate) fn open_group(&mut self) -> Result<(), Memory>
        requires sound { IsSoundEngine self.old }
        ensures state { OnOk result (state_of self.new ≡ opens (state_of self.old)) }
        ensures is_open { OnOk result (self.new.is_open ≡ true) }
        ensures err { OnErr result (state_of self.new ≡ state_of self.old) }
        ensures inbox { self.new.inbox ≡ self.old.inbox }
        ensures clock { self.new.tree.clock ≡ self.old.tree.clock }
        ensures ids { StayBut none_moved (whole_of self.old) (whole_of self.new) }
        ensures committed { committed_ids (whole_of self.new) ≡ committed_ids (whole_of self.old) }
        ensures marks { Holds self.old self.new }
        ensures sound { IsSoundEngine self.new }
    {
        if !self.is_open {
            // What a roll back takes, and what stays spare behind it.
            self.journal.reserve(2)?;
            self.ended.reserve(1)?;
            self.mark = self.journal.mark();
            self.parts = List::new(self.alloc);
            self.is_open = true;
        }
        Ok(())
    }
}
