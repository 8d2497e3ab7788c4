// Marks, which recall all of an engine.
ghost use Rattle.std.specs.Prelude.{◌≡◌, ◌≤◌, ◌∷◌, ◌++◌, [], if◌then◌else◌, None, take, length, get_or, vec_capacity};
ghost use Rattle.dm_atomic.specs.Engine.{state_of, IsSoundEngine};
ghost use Rattle.dm_atomic.specs.Updates.{clock_of, max_obj_of};
ghost use Rattle.dm_atomic.specs.Marks.{Whole, whole_of, past_of, past_at, no_past, groups, no_group, IsKnownStill};
ghost use Rattle.dm_atomic.specs.Marks.{IsEarlier, Recalls, LeavesNone};
ghost use Rattle.dm_atomic.specs.Run.{committed};
ghost use Rattle.dm_atomic.specs.Stays.{committed_ids};
ghost use Rattle.dm_atomic.specs.declared.marks.EngineMark.{EngineMark as AMark};

use crate::engine::{EndedGroup, Engine};
use crate::reports::{Part, Started};
use dm_base::List;
use dm_objects::InboxMark;
use dm_undo::Mark;

/// Where an engine stood. It is for the engine that it was taken of, until that is settled or goes back to an earlier
/// mark.
#[derive(Clone, Copy)]
pub struct EngineMark {
    journal: Mark,
    inbox: InboxMark,
    starts: usize,
    groups: usize,
    parts: usize,
    is_open: bool,
}

impl Engine {
    /// Where the engine stands. It takes no memory.
    pub fn mark(&self) -> EngineMark
        requires sound { IsSoundEngine self.now }
        ensures recalls { Recalls self.now result (whole_of self.now) }
        ensures past { past_at self.now result ≡ past_of self.now }
        ensures latest { (k : AMark) → IsKnownStill self.now k → IsEarlier k result }
    {
        EngineMark {
            journal: self.journal.mark(),
            inbox: self.inbox.mark(),
            starts: self.starts.len(),
            groups: self.ended.len(),
            parts: self.parts.len(),
            is_open: self.is_open,
        }
    }

    /// All but the clock is as it was where the mark was taken, also a group that ended since then. The mark is one
    /// that was taken since the engine was settled last, and no later than one that was gone back to. It takes no
    /// memory.
    pub fn back(&mut self, mark: EngineMark)
        requires sound { IsSoundEngine self.old }
        requires held { IsKnownStill self.old mark }
        ensures whole { (w : Whole) → Recalls self.old mark w → whole_of self.new ≡ w }
        ensures past { past_of self.new ≡ past_at self.old mark }
        ensures earlier { (k : AMark) (w : Whole) → Recalls self.old k w → IsEarlier k mark → Recalls self.new k w }
        ensures clock { clock_of self.new ≡ clock_of self.old }
        ensures max_obj { max_obj_of self.new ≡ max_obj_of self.old }
        ensures parked { LeavesNone self.old → LeavesNone self.new }
        ensures sound { IsSoundEngine self.new }
    {
        self.journal.unwind(&mut self.tree, mark.journal);
        self.inbox.back(mark.inbox);
        reach_start(&mut self.started, &mut self.starts, mark.starts);
        reach_group(
            &mut self.mark,
            &mut self.parts,
            &mut self.ended,
            mark.groups,
        );
        self.parts.cut_to(mark.parts);
        self.is_open = mark.is_open;
    }

    /// Makes the tree the one that counts if nothing more comes: that before an open group. It takes no memory. Until
    /// the mark is handed to `hide_committed` only `tree` is to be called.
    #[tactic(auto, using(crate::proofs::Committed::closed_tree, crate::proofs::Committed::open_tree, crate::proofs::Committed::closed_ids, crate::proofs::Held::holds_self))]
    pub fn show_committed(&mut self) -> EngineMark
        requires sound { IsSoundEngine self.old }
        ensures tree { (state_of self.new).tree ≡ committed (state_of self.old) }
        ensures ids { (whole_of self.new).ids ≡ committed_ids (whole_of self.old) }
        ensures recalls { Recalls self.new result (whole_of self.old) }
        ensures past { past_at self.new result ≡ past_of self.old }
        ensures clock { clock_of self.new ≡ clock_of self.old }
        ensures max_obj { max_obj_of self.new ≡ max_obj_of self.old }
        ensures parked { LeavesNone self.old → LeavesNone self.new }
        ensures sound { IsSoundEngine self.new }
    {
        let mark = self.mark();
        if self.is_open {
            self.roll_back();
        }
        mark
    }

    /// Gives the working tree back, as it was when `show_committed` gave the mark. It takes no memory.
    pub fn hide_committed(&mut self, mark: EngineMark)
        requires sound { IsSoundEngine self.old }
        requires held { IsKnownStill self.old mark }
        ensures whole { (w : Whole) → Recalls self.old mark w → whole_of self.new ≡ w }
        ensures past { past_of self.new ≡ past_at self.old mark }
        ensures clock { clock_of self.new ≡ clock_of self.old }
        ensures max_obj { max_obj_of self.new ≡ max_obj_of self.old }
        ensures parked { LeavesNone self.old → LeavesNone self.new }
        ensures sound { IsSoundEngine self.new }
    {
        self.back(mark);
    }

    // The oldest place that is needed further.
    fn first_place(&self) -> Mark
        ensures { result ≡ (if self.now.is_open then self.now.mark else length self.now.journal.entries) }
    {
        if self.is_open {
            self.mark
        } else {
            self.journal.mark()
        }
    }

    /// What stood here before is given up: entries of the journal, objects, what was started, and groups that ended. It
    /// can't be gone back to any more; the marks taken so far are at their end. All stays as it is, also an open group
    /// with what it takes to roll it back. It takes no memory.
    pub fn settle(&mut self)
        requires sound { IsSoundEngine self.old }
        ensures whole { whole_of self.new ≡ whole_of self.old }
        ensures past { past_of self.new ≡ no_past }
        ensures gone { (state_of self.new).group ≡ None
            → (k : AMark) (w : Whole) → Recalls self.new k w → w ≡ whole_of self.new }
        ensures clock { clock_of self.new ≡ clock_of self.old }
        ensures max_obj { max_obj_of self.new ≡ max_obj_of self.old }
        ensures parked { LeavesNone self.old → LeavesNone self.new }
        ensures sound { IsSoundEngine self.new }
    {
        let first = self.first_place();
        self.mark = self.journal.settle(&mut self.tree, first);
        self.inbox.settle();
        self.starts.clear();
        self.ended.clear();
    }
}

// What was started there is again what was started.
fn reach_start(started: &mut Option<Started>, starts: &mut Vec<Option<Started>>, count: usize)
    requires held { count ≤ length starts.old.items }
    ensures starts { starts.new.items ≡ take count starts.old.items }
    ensures started { started.new ≡ get_or (starts.old.items ++ started.old ∷ []) count None }
{
    if starts.len() > count {
        starts.truncate(count + 1);
        *started = starts.take_last();
    }
}

// The group there, which may have ended since, is again the last one.
fn reach_group(mark: &mut Mark, parts: &mut List<Part>, ended: &mut Vec<EndedGroup>, count: usize)
    requires held { count ≤ length ended.old.items }
    ensures ended { ended.new.items ≡ take count ended.old.items }
    ensures room { vec_capacity ended.new ≡ vec_capacity ended.old }
    ensures mark { mark.new ≡ (get_or (groups ended.old.items mark.old parts.old) count no_group).mark }
    ensures parts { parts.new ≡ (get_or (groups ended.old.items mark.old parts.old) count no_group).parts }
{
    if ended.len() > count {
        ended.truncate(count + 1);
        let group = ended.take_last();
        *mark = group.mark;
        *parts = group.parts;
    }
}
