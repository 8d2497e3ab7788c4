// Tasks in order, up to the first that fails.
ghost use Rattle.std.specs.Prelude.{◌≡◌, [], IfOk, OnOk, OnErr};
ghost use Rattle.dm_objects.specs.Inside.{stays};
ghost use Rattle.dm_objects.specs.Seen.{present};
ghost use Rattle.dm_commands.specs.Outcomes.{is_success as is_success_of};
ghost use Rattle.dm_atomic.specs.Made.{IsInFront};
ghost use Rattle.dm_atomic.specs.Run.{tried, first_continues as continues_first, left_by, left_object};
ghost use Rattle.dm_atomic.specs.Engine.{state_of, running, FitsObject, IsSoundEngine, Only, Tries};
ghost use Rattle.dm_atomic.specs.Marks.{whole_of, Holds, ObjectsGo};
ghost use Rattle.dm_atomic.specs.Stays.{tasks_cover, StayBut};

use crate::engine::Engine;
use crate::reports::Report;
use crate::tasks::{Task, Work};
use dm_base::{List, Memory};
use dm_objects::Inbox;
use syncml_types::Command;

fn is_success(code: u32) -> bool
    ensures { result ≡ is_success_of code }
{
    200 <= code && code <= 299
}

/// Whether the first step of a verb continues the unfinished object.
#[tactic(auto, using(crate::proofs::Tried::next_continues, crate::proofs::Tried::none_continues))]
pub(crate) fn first_continues(inbox: &Inbox, tasks: &[Task]) -> bool
    ensures { result ≡ continues_first (present inbox.now.objects) tasks.now }
{
    for task in tasks {
        if let Work::Piece(piece) = &task.work {
            return inbox.continues(piece);
        }
    }
    false
}

// A piece with MoreData that was not run: what continues it is refused.
#[tactic(auto, using(crate::proofs::Held::objects_self, crate::proofs::Held::objects_next, crate::proofs::Held::objects_same, crate::proofs::Skips::held_object, crate::proofs::Skips::skipping_fits))]
fn skip_one(inbox: &mut Inbox, work: &Work) -> Result<(), Memory>
    ensures object { OnOk result (present inbox.new.objects ≡ left_by (present inbox.old.objects) work.now) }
    ensures fits { FitsObject inbox.old.max_obj (present inbox.old.objects)
        → FitsObject inbox.new.max_obj (present inbox.new.objects) }
    ensures max_obj { inbox.new.max_obj ≡ inbox.old.max_obj }
    ensures seen { ObjectsGo inbox.old inbox.new }
{
    if let Work::Piece(piece) = work {
        if piece.more {
            inbox.skip(piece)?;
            return Ok(());
        }
    }
    Ok(())
}

/// After a failure what continues the object that is being buffered inside is refused, and so is what continues the
/// last piece with MoreData that was not run. After `Memory` a part may have been skipped.
#[tactic(auto, using(crate::proofs::Held::objects_then, crate::proofs::Held::objects_failed, crate::proofs::Held::objects_same, crate::proofs::Skips::failing, crate::proofs::Tried::leaving))]
pub(crate) fn skip_left(inbox: &mut Inbox, unrun: &[Task]) -> Result<(), Memory>
    ensures object { OnOk result
        (present inbox.new.objects ≡ left_object (stays (present inbox.old.objects)) unrun.now) }
    ensures fits { FitsObject inbox.old.max_obj (present inbox.old.objects)
        → FitsObject inbox.new.max_obj (present inbox.new.objects) }
    ensures max_obj { inbox.new.max_obj ≡ inbox.old.max_obj }
    ensures seen { ObjectsGo inbox.old inbox.new }
{
    inbox.skip_inside()?;
    for task in unrun {
        skip_one(inbox, &task.work)?;
    }
    Ok(())
}

impl Engine {
    /// Runs tasks up to the first that fails: its report, and how many were run. `done` gets the reports of those
    /// before it. None of the reports is told. The values of tasks that were run may be moved into the tree. After
    /// `Memory` a notice may be told.
    #[tactic(auto, using(crate::proofs::Frames::holding, crate::proofs::Engines::only_then, crate::proofs::Tried::trying, crate::proofs::Staying::stay_self, crate::proofs::Staying::stay_then))]
    pub(crate) fn try_all(
        &mut self,
        caller: &[u8],
        tasks: &mut [Task],
        done: &mut List<Report>,
        out: &mut List<Command>,
    ) -> Result<Option<(Report, usize)>, Memory>
        requires sound { IsSoundEngine self.old }
        requires empty { done.old ≡ [] }
        ensures tried { IfOk result (λ failed. Tries
            (tried (running self.old caller.now) (state_of self.old) tasks.old) (state_of self.new) done.new tasks.new
            failed out.old out.new) }
        ensures err { OnErr result (IsInFront out.old out.new) }
        ensures only { Only self.old self.new }
        ensures ids { StayBut (tasks_cover tasks.old) (whole_of self.old) (whole_of self.new) }
        ensures marks { Holds self.old self.new }
        ensures sound { IsSoundEngine self.new }
    {
        for place in 0..tasks.len() {
            let report = self.one_step(caller, &mut tasks[place], out)?;
            if !is_success(report.code) {
                return Ok(Some((report, place + 1)));
            }
            done.push(report)?;
        }
        Ok(None)
    }
}
