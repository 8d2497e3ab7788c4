// An Atomic, which joins the open group or opens one, and how a group ends.
ghost use Rattle.std.specs.Prelude.{◌≡◌, [], None, Some, IsSome, true, OnOk, OnErr};
ghost use Rattle.dm_commands.specs.Promises.{none_moved};
ghost use Rattle.dm_atomic.specs.Made.{IsInFront};
ghost use Rattle.dm_atomic.specs.Run.{opened, stays_open, succeeds, fails, closes, tried, in_group, joins as joins_of};
ghost use Rattle.dm_atomic.specs.Run.{join_or_break as join_or_break_of, atomically};
ghost use Rattle.dm_atomic.specs.Engine.{state_of, running, IsSoundEngine, Gives};
ghost use Rattle.dm_atomic.specs.Laws.{attempt};
ghost use Rattle.dm_atomic.specs.Marks.{whole_of, Holds};
ghost use Rattle.dm_atomic.specs.Stays.{tasks_cover, StayBut, committed_ids};

use crate::attempts::{first_continues, skip_left};
use crate::containers::{put_failed, put_own_container, put_parts_done, put_parts_undone};
use crate::engine::Engine;
use crate::reports::{Part, Report};
use crate::tasks::{Post, Task};
use dm_base::{List, Memory};
use syncml_types::Command;

impl Engine {
    // A step failed: the group is closed, and the tree before its first part stands again.
    #[tactic(auto, using(crate::proofs::Frames::keeping, crate::proofs::Held::holds_objects, crate::proofs::Closings::skipped_sound, crate::proofs::Telling::some_more, crate::proofs::Telling::told_both))]
    fn fail(
        &mut self,
        post: &Post,
        done: &List<Report>,
        failed: &Report,
        unrun: &[Task],
        out: &mut List<Command>,
    ) -> Result<(), Memory>
        requires sound { IsSoundEngine self.old }
        requires is_open { self.old.is_open ≡ true }
        ensures gives { OnOk result (Gives
            (fails (opened (state_of self.old)) post.now (record {
              state = state_of self.old;
              notices = [];
              done = done.now;
              failed = Some failed.now;
              unrun = unrun.now;
            }) failed.now) (state_of self.new) out.old out.new) }
        ensures err { OnErr result (IsInFront out.old out.new) }
        ensures clock { self.new.tree.clock ≡ self.old.tree.clock }
        ensures max_obj { self.new.inbox.max_obj ≡ self.old.inbox.max_obj }
        ensures ids { StayBut none_moved (whole_of self.old) (whole_of self.new) }
        ensures committed { OnOk result ((whole_of self.new).ids ≡ committed_ids (whole_of self.old)) }
        ensures marks { Holds self.old self.new }
        ensures sound { IsSoundEngine self.new }
    {
        put_parts_undone(self.alloc, &self.parts, out)?;
        put_failed(self.alloc, post, done, failed, unrun, out)?;
        skip_left(&mut self.inbox, unrun)?;
        self.roll_back();
        Ok(())
    }

    // All steps succeeded and no object is being buffered: the answers of all parts are told, and the group is closed.
    #[tactic(auto, using(crate::proofs::Frames::keeping, crate::proofs::Closings::succeed_gives, crate::proofs::Telling::some_more))]
    fn succeed(
        &mut self,
        post: &Post,
        done: List<Report>,
        out: &mut List<Command>,
    ) -> Result<(), Memory>
        requires sound { IsSoundEngine self.old }
        requires is_open { self.old.is_open ≡ true }
        ensures gives { OnOk result (Gives
            (succeeds (opened (state_of self.old)) post.now (record {
              state = state_of self.old;
              notices = [];
              done = done;
              failed = None;
              unrun = [];
            })) (state_of self.new) out.old out.new) }
        ensures err { OnErr result (IsInFront out.old out.new) }
        ensures clock { self.new.tree.clock ≡ self.old.tree.clock }
        ensures max_obj { self.new.inbox.max_obj ≡ self.old.inbox.max_obj }
        ensures ids { StayBut none_moved (whole_of self.old) (whole_of self.new) }
        ensures marks { Holds self.old self.new }
        ensures sound { IsSoundEngine self.new }
    {
        put_parts_done(self.alloc, &self.parts, out)?;
        put_own_container(self.alloc, post, 200, done, out)?;
        self.close_group();
        Ok(())
    }

    // An object is being buffered: the group stays open with one more part, whose answers wait.
    #[tactic(auto, using(crate::proofs::Frames::keeping, crate::proofs::Closings::stay_state, crate::proofs::Closings::stay_same))]
    fn stay(&mut self, post: Post, done: List<Report>) -> Result<(), Memory>
        requires sound { IsSoundEngine self.old }
        requires is_open { self.old.is_open ≡ true }
        ensures state { OnOk result (state_of self.new
            ≡ (stays_open (opened (state_of self.old)) post (record {
              state = state_of self.old;
              notices = [];
              done = done;
              failed = None;
              unrun = [];
            })).state) }
        ensures clock { self.new.tree.clock ≡ self.old.tree.clock }
        ensures max_obj { self.new.inbox.max_obj ≡ self.old.inbox.max_obj }
        ensures ids { StayBut none_moved (whole_of self.old) (whole_of self.new) }
        ensures marks { Holds self.old self.new }
        ensures sound { IsSoundEngine self.new }
    {
        self.push_part(Part {
            post,
            reports: done,
        })?;
        Ok(())
    }

    // No step failed.
    #[tactic(auto, using(crate::proofs::Frames::keeping, crate::proofs::Closings::stay_closes, crate::proofs::Closings::succeed_closes, crate::proofs::Telling::nothing_more))]
    fn close(
        &mut self,
        post: Post,
        done: List<Report>,
        out: &mut List<Command>,
    ) -> Result<(), Memory>
        requires sound { IsSoundEngine self.old }
        requires is_open { self.old.is_open ≡ true }
        ensures gives { OnOk result (Gives
            (closes (opened (state_of self.old)) post (record {
              state = state_of self.old;
              notices = [];
              done = done;
              failed = None;
              unrun = [];
            }) None) (state_of self.new) out.old out.new) }
        ensures err { OnErr result (IsInFront out.old out.new) }
        ensures clock { self.new.tree.clock ≡ self.old.tree.clock }
        ensures max_obj { self.new.inbox.max_obj ≡ self.old.inbox.max_obj }
        ensures ids { StayBut none_moved (whole_of self.old) (whole_of self.new) }
        ensures marks { Holds self.old self.new }
        ensures sound { IsSoundEngine self.new }
    {
        if self.inbox.buffering_inside() {
            self.stay(post, done)?;
            return Ok(());
        }
        self.succeed(&post, done, out)?;
        Ok(())
    }

    // The tasks of an Atomic in its open group.
    #[tactic(auto, using(crate::proofs::Frames::keeping, crate::proofs::Closings::group_is_open, crate::proofs::Telling::some_more))]
    fn run_open(
        &mut self,
        caller: &[u8],
        post: Post,
        tasks: &mut [Task],
        out: &mut List<Command>,
    ) -> Result<(), Memory>
        requires sound { IsSoundEngine self.old }
        requires is_open { self.old.is_open ≡ true }
        ensures gives { OnOk result (Gives
            (in_group (running self.old caller.now) (state_of self.old) post tasks.old) (state_of self.new)
            out.old out.new) }
        ensures err { OnErr result (IsInFront out.old out.new) }
        ensures clock { self.new.tree.clock ≡ self.old.tree.clock }
        ensures max_obj { self.new.inbox.max_obj ≡ self.old.inbox.max_obj }
        ensures ids { StayBut (tasks_cover tasks.old) (whole_of self.old) (whole_of self.new) }
        ensures committed { OnOk result
            (IsSome (tried (running self.old caller.now) (state_of self.old) tasks.old).failed
            → (whole_of self.new).ids ≡ committed_ids (whole_of self.old)) }
        ensures marks { Holds self.old self.new }
        ensures sound { IsSoundEngine self.new }
    {
        let mut done = List::with_room(self.alloc, tasks.len())?;
        match self.try_all(caller, tasks, &mut done, out)? {
            Some((failed, ran)) => {
                let tasks: &[Task] = tasks;
                self.fail(&post, &done, &failed, &tasks[ran..], out)?;
                Ok(())
            }
            None => {
                self.close(post, done, out)?;
                Ok(())
            }
        }
    }

    // Whether these continue the open group.
    fn joins(&self, tasks: &[Task]) -> bool
        ensures { result ≡ joins_of (state_of self.now) tasks.now }
    {
        if self.is_open {
            return first_continues(&self.inbox, tasks);
        }
        false
    }

    // An open group that these don't continue is broken.
    #[tactic(auto, using(crate::proofs::Frames::keeping, crate::proofs::Closings::joins_gives, crate::proofs::Closings::breaks_gives, crate::proofs::Telling::nothing_more))]
    fn join_or_break(&mut self, tasks: &[Task], out: &mut List<Command>) -> Result<(), Memory>
        requires sound { IsSoundEngine self.old }
        ensures gives { OnOk result (Gives (join_or_break_of (state_of self.old) tasks.now) (state_of self.new)
            out.old out.new) }
        ensures err { OnErr result (IsInFront out.old out.new) }
        ensures clock { self.new.tree.clock ≡ self.old.tree.clock }
        ensures max_obj { self.new.inbox.max_obj ≡ self.old.inbox.max_obj }
        ensures ids { StayBut none_moved (whole_of self.old) (whole_of self.new) }
        ensures committed { OnOk result (committed_ids (whole_of self.new) ≡ committed_ids (whole_of self.old)) }
        ensures marks { Holds self.old self.new }
        ensures sound { IsSoundEngine self.new }
    {
        if self.joins(tasks) {
            return Ok(());
        }
        self.break_group(out)?;
        Ok(())
    }

    /// An Atomic of these tasks: all are run or none, and the answers wait where its object goes on. After `Memory` a
    /// part may be told.
    #[tactic(auto, using(crate::proofs::Frames::keeping, crate::proofs::Giving::gives_in_front, crate::proofs::Giving::gives_more))]
    pub(crate) fn atomic(
        &mut self,
        caller: &[u8],
        post: Post,
        tasks: &mut [Task],
        out: &mut List<Command>,
    ) -> Result<(), Memory>
        requires sound { IsSoundEngine self.old }
        ensures gives { OnOk result (Gives
            (atomically (running self.old caller.now) (state_of self.old) post tasks.old) (state_of self.new)
            out.old out.new) }
        ensures err { OnErr result (IsInFront out.old out.new) }
        ensures clock { self.new.tree.clock ≡ self.old.tree.clock }
        ensures max_obj { self.new.inbox.max_obj ≡ self.old.inbox.max_obj }
        ensures ids { StayBut (tasks_cover tasks.old) (whole_of self.old) (whole_of self.new) }
        ensures committed { OnOk result (IsSome (attempt (running self.old caller.now) (state_of self.old) tasks.old)
            → (whole_of self.new).ids ≡ committed_ids (whole_of self.old)) }
        ensures marks { Holds self.old self.new }
        ensures sound { IsSoundEngine self.new }
    {
        self.join_or_break(tasks, out)?;
        self.open_group()?;
        self.run_open(caller, post, tasks, out)?;
        Ok(())
    }
}
