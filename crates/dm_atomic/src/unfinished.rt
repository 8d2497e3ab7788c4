// What is unfinished is given up, or broken.
ghost use Rattle.std.specs.Prelude.{◌≡◌, None, true, OnOk, OnErr};
ghost use Rattle.dm_commands.specs.Promises.{none_moved};
ghost use Rattle.dm_atomic.specs.Made.{IsInFront};
ghost use Rattle.dm_atomic.specs.Run.{abandoned, break_group as break_of, still as still_of};
ghost use Rattle.dm_atomic.specs.Engine.{state_of, IsSoundEngine, Gives};
ghost use Rattle.dm_atomic.specs.Marks.{whole_of, Holds};
ghost use Rattle.dm_atomic.specs.Stays.{StayBut, committed_ids};
ghost use Rattle.dm_atomic.specs.Updates.{clock_of, max_obj_of};

use crate::containers::put_parts_undone;
use crate::engine::Engine;
use crate::entries::put_notice;
use dm_base::{List, Memory};
use syncml_types::Command;

impl Engine {
    /// All that is unfinished is given up: the object, and the open group, before which the tree stands again. It takes
    /// no memory.
    #[tactic(auto, using(crate::proofs::Frames::holding_inbox, crate::proofs::GivenUps::cleared_sound, crate::proofs::GivenUps::abandoned_open, crate::proofs::GivenUps::abandoned_closed))]
    pub fn abandon(&mut self)
        requires sound { IsSoundEngine self.old }
        ensures state { state_of self.new ≡ abandoned (state_of self.old) }
        ensures clock { clock_of self.new ≡ clock_of self.old }
        ensures max_obj { max_obj_of self.new ≡ max_obj_of self.old }
        ensures ids { (whole_of self.new).ids ≡ committed_ids (whole_of self.old) }
        ensures base { (whole_of self.new).base_ids ≡ None }
        ensures marks { Holds self.old self.new }
        ensures sound { IsSoundEngine self.new }
    {
        self.inbox.clear();
        if self.is_open {
            self.roll_back();
        }
    }

    // The open group is broken.
    #[tactic(auto, using(crate::proofs::Frames::holding_inbox, crate::proofs::Frames::telling, crate::proofs::GivenUps::cleared_sound, crate::proofs::GivenUps::broken_gives, crate::proofs::Staying::stay_self))]
    fn break_open(&mut self, out: &mut List<Command>) -> Result<(), Memory>
        requires sound { IsSoundEngine self.old }
        requires is_open { self.old.is_open ≡ true }
        ensures gives { OnOk result (Gives (break_of (state_of self.old)) (state_of self.new) out.old out.new) }
        ensures err { OnErr result (IsInFront out.old out.new) }
        ensures clock { self.new.tree.clock ≡ self.old.tree.clock }
        ensures max_obj { self.new.inbox.max_obj ≡ self.old.inbox.max_obj }
        ensures ids { StayBut none_moved (whole_of self.old) (whole_of self.new) }
        ensures committed { OnOk result ((whole_of self.new).ids ≡ committed_ids (whole_of self.old)) }
        ensures base { OnOk result ((whole_of self.new).base_ids ≡ None) }
        ensures marks { Holds self.old self.new }
        ensures sound { IsSoundEngine self.new }
    {
        let lost = self.inbox.quiet()?;
        put_notice(self.alloc, &lost, out)?;
        put_parts_undone(self.alloc, &self.parts, out)?;
        self.roll_back();
        Ok(())
    }

    /// An open group is broken: its object is lost, which an Alert tells, its steps are undone, and the tree before it
    /// stands again. After `Memory` a part may be told.
    #[tactic(auto, using(crate::proofs::Frames::holding_inbox, crate::proofs::GivenUps::unbroken_gives, crate::proofs::Staying::stay_self))]
    pub(crate) fn break_group(&mut self, out: &mut List<Command>) -> Result<(), Memory>
        requires sound { IsSoundEngine self.old }
        ensures gives { OnOk result (Gives (break_of (state_of self.old)) (state_of self.new) out.old out.new) }
        ensures err { OnErr result (IsInFront out.old out.new) }
        ensures clock { self.new.tree.clock ≡ self.old.tree.clock }
        ensures max_obj { self.new.inbox.max_obj ≡ self.old.inbox.max_obj }
        ensures ids { StayBut none_moved (whole_of self.old) (whole_of self.new) }
        ensures committed { OnOk result (committed_ids (whole_of self.new) ≡ committed_ids (whole_of self.old)) }
        ensures marks { Holds self.old self.new }
        ensures sound { IsSoundEngine self.new }
    {
        if !self.is_open {
            return Ok(());
        }
        self.break_open(out)
    }

    /// A message with Final that has no step of a verb breaks what is unfinished: the object, which an Alert tells, and
    /// the open group. After `Memory` a part may be told, and a part given up: go back to a mark.
    #[tactic(auto, using(crate::proofs::Frames::holding_inbox, crate::proofs::GivenUps::cleared_sound, crate::proofs::GivenUps::still_open, crate::proofs::GivenUps::still_closed, crate::proofs::Telling::nothing_more, crate::proofs::Staying::stay_self))]
    pub fn still(&mut self, out: &mut List<Command>) -> Result<(), Memory>
        requires sound { IsSoundEngine self.old }
        ensures gives { OnOk result (Gives (still_of (state_of self.old)) (state_of self.new) out.old out.new) }
        ensures err { OnErr result (IsInFront out.old out.new) }
        ensures clock { clock_of self.new ≡ clock_of self.old }
        ensures max_obj { max_obj_of self.new ≡ max_obj_of self.old }
        ensures ids { StayBut none_moved (whole_of self.old) (whole_of self.new) }
        ensures committed { OnOk result ((whole_of self.new).ids ≡ committed_ids (whole_of self.old)) }
        ensures marks { Holds self.old self.new }
        ensures sound { IsSoundEngine self.new }
    {
        if self.is_open {
            self.break_open(out)?;
            return Ok(());
        }
        let target = self.inbox.quiet()?;
        put_notice(self.alloc, &target, out)?;
        Ok(())
    }
}
