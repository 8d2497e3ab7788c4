// One task.
ghost use Rattle.std.specs.Prelude.{◌≡◌, ◌++◌, [], None, Some, IfOk, OnOk, OnErr, if◌then◌else◌};
ghost use Rattle.dm_uri.specs.Reading.{parse_of};
ghost use Rattle.dm_objects.specs.Gathering.{gather as gathered};
ghost use Rattle.dm_objects.specs.Seen.{present, holding};
ghost use Rattle.dm_objects.specs.InPlace.{what_of};
ghost use Rattle.dm_commands.specs.Promises.{IsShortStep, is_moved, none_moved};
ghost use Rattle.dm_atomic.specs.Made.{IsInFront, told, notice};
ghost use Rattle.dm_atomic.specs.Run.{one_step as step_run, one_piece as piece_run, by_what as what_run};
ghost use Rattle.dm_atomic.specs.Run.{step_ran as whole_run, alert_code as code_of_alert, uri_path as path_in};
ghost use Rattle.dm_atomic.specs.Run.{started_by as start_by};
ghost use Rattle.dm_atomic.specs.Engine.{state_of, running, IsSoundEngine, IsShortWhat, Only, Acts, RunsStep, RunsTask};
ghost use Rattle.dm_atomic.specs.Marks.{whole_of, Holds};
ghost use Rattle.dm_atomic.specs.Stays.{work_covers, what_covers, StayBut};

use crate::engine::Engine;
use crate::entries::put_notice;
use crate::reports::{Report, Started};
use crate::tasks::{Post, Task, Work};
use dm_base::{Bytes, List, Memory};
use dm_commands::{Outcome, act};
use dm_objects::{Piece, Sort, TakenOver};
use dm_uri::{Path, UriError, parse};
use std::alloc::Global;
use syncml_types::copies::copy_bytes;
use syncml_types::{Command, Step};

pub(crate) fn copy_post(alloc: Global, post: &Post) -> Result<Post, Memory>
    ensures { IfOk result (λ copy. copy ≡ post.now) }
{
    Ok(Post {
        msg: post.msg,
        command: post.command,
        place: post.place,
        name: post.name,
        target: copy_bytes(alloc, &post.target)?,
        quiet: post.quiet,
    })
}

fn alert_code(code: u32) -> u32
    ensures { result ≡ code_of_alert code }
{
    if code == 1222 || code == 1225 {
        200
    } else {
        406
    }
}

// The path that a target is; the root's where it is no URI.
fn path_of(alloc: Global, text: &[u8]) -> Result<Path, Memory>
    ensures { IfOk result (λ path. path ≡ path_in (parse_of text.now)) }
{
    match parse(alloc, text) {
        Ok(uri) => Ok(uri.path),
        Err(UriError::Memory) => Err(Memory),
        Err(_) => Ok(Path::new(alloc)),
    }
}

fn started_by(alloc: Global, step: &Step) -> Result<Started, Memory>
    ensures { IfOk result (λ started. started ≡ start_by step.now) }
{
    let node = match &step.target {
        None => path_of(alloc, b"")?,
        Some(text) => path_of(alloc, text.as_slice())?,
    };
    Ok(Started {
        node,
        correlator: copy_bytes(alloc, &step.correlator)?,
    })
}

// A report without found values.
pub(crate) fn report_of(alloc: Global, post: &Post, code: u32) -> Result<Report, Memory>
    ensures { IfOk result (λ report. report ≡ record { post = post.now; code = code; found = [] }) }
{
    Ok(Report {
        post: copy_post(alloc, post)?,
        code,
        found: List::new(alloc),
    })
}

impl Engine {
    fn act(&mut self, caller: &[u8], step: &mut Step) -> Result<Outcome, Memory>
        requires sound { IsSoundEngine self.old }
        requires short { IsShortStep step.old }
        ensures ok { IfOk result (λ outcome. Acts self.old self.new caller.now step.old outcome) }
        ensures only { Only self.old self.new }
        ensures ids { StayBut (is_moved step.old) (whole_of self.old) (whole_of self.new) }
        ensures marks { Holds self.old self.new }
        ensures sound { IsSoundEngine self.new }
        ensures step { step.new ≡ record step.old { value = step.new.value } }
    {
        // It tells that the tree is well formed.
        let _ = self.tree.root();
        act(self.alloc, &mut self.tree, &mut self.journal, caller, step)
    }

    #[tactic(auto, using(crate::proofs::Frames::keeping_in_step, crate::proofs::Held::holds_room, crate::proofs::Held::holds_started, crate::proofs::Engines::starting))]
    fn start(&mut self, started: bool, step: &Step) -> Result<(), Memory>
        requires sound { IsSoundEngine self.old }
        ensures ok { OnOk result (self.new ≡ record self.old {
          started = if started then Some (start_by step.now) else self.old.started;
          starts = self.new.starts;
        }) }
        ensures only { Only self.old self.new }
        ensures ids { StayBut none_moved (whole_of self.old) (whole_of self.new) }
        ensures marks { Holds self.old self.new }
        ensures sound { IsSoundEngine self.new }
    {
        if started {
            let next = started_by(self.alloc, step)?;
            self.starts.reserve(1)?;
            self.put_started(Some(next));
        }
        Ok(())
    }

    // A whole step, by the step table.
    #[tactic(auto, using(crate::proofs::Frames::keeping_in_step, crate::proofs::Engines::only_then, crate::proofs::Engines::stepped))]
    fn whole_step(&mut self, caller: &[u8], post: &Post, step: &mut Step) -> Result<Report, Memory>
        requires sound { IsSoundEngine self.old }
        requires short { IsShortStep step.old }
        ensures ok { IfOk result (λ report. RunsStep
            (whole_run (running self.old caller.now) (state_of self.old) post.now None step.old) (state_of self.new)
            report) }
        ensures only { Only self.old self.new }
        ensures ids { StayBut (is_moved step.old) (whole_of self.old) (whole_of self.new) }
        ensures marks { Holds self.old self.new }
        ensures sound { IsSoundEngine self.new }
    {
        let post = copy_post(self.alloc, post)?;
        let Outcome {
            code,
            results,
            started,
        } = self.act(caller, step)?;
        self.start(started, step)?;
        Ok(Report {
            post,
            code,
            found: results,
        })
    }

    #[tactic(auto, using(crate::proofs::Frames::staying_in_step, crate::proofs::Held::holds_self))]
    fn by_sort(
        &mut self,
        caller: &[u8],
        post: &Post,
        sort: Sort,
        step: &mut Step,
    ) -> Result<Report, Memory>
        requires sound { IsSoundEngine self.old }
        requires short { IsShortWhat (what_of sort step.old) }
        ensures ok { IfOk result (λ report. RunsStep
            (what_run (running self.old caller.now) (state_of self.old) post.now None (what_of sort step.old))
            (state_of self.new) report) }
        ensures only { Only self.old self.new }
        ensures ids { StayBut (what_covers (what_of sort step.old)) (whole_of self.old) (whole_of self.new) }
        ensures marks { Holds self.old self.new }
        ensures sound { IsSoundEngine self.new }
    {
        match sort {
            Sort::Whole => self.whole_step(caller, post, step),
            Sort::Buffered => report_of(self.alloc, post, 213),
            Sort::Refused(code) => report_of(self.alloc, post, code),
        }
    }

    // A piece, gathered first, unless it is a whole step as it stands.
    #[tactic(auto, using(crate::proofs::Frames::staying_in_step, crate::proofs::Held::holds_then, crate::proofs::Engines::only_then, crate::proofs::Telling::nothing_more, crate::proofs::Telling::some_more))]
    fn one_piece(
        &mut self,
        caller: &[u8],
        post: &Post,
        piece: &mut Piece,
        out: &mut List<Command>,
    ) -> Result<Report, Memory>
        requires sound { IsSoundEngine self.old }
        ensures ok { IfOk result (λ report. RunsTask
            (piece_run (running self.old caller.now) (state_of self.old) post.now piece.old) (state_of self.new) report
            out.old out.new) }
        ensures err { OnErr result (IsInFront out.old out.new) }
        ensures only { Only self.old self.new }
        ensures ids { StayBut (is_moved piece.old.step) (whole_of self.old) (whole_of self.new) }
        ensures marks { Holds self.old self.new }
        ensures sound { IsSoundEngine self.new }
    {
        if self.inbox.passes(piece) {
            return self.whole_step(caller, post, &mut piece.step);
        }
        let sort = self.gather(piece, out)?;
        self.by_sort(caller, post, sort, &mut piece.step)
    }

    // What a piece comes to; of an object that it broke is told.
    #[tactic(auto, using(crate::proofs::Frames::staying_in_step, crate::proofs::Held::holds_inbox))]
    fn gather(&mut self, piece: &mut Piece, out: &mut List<Command>) -> Result<Sort, Memory>
        requires sound { IsSoundEngine self.old }
        ensures object { OnOk result (self.new ≡ record self.old {
          inbox = holding self.old.inbox
              (gathered self.old.inbox.max_obj (present self.old.inbox.objects) piece.old).object;
        }) }
        ensures what { IfOk result (λ sort. what_of sort piece.new.step
            ≡ (gathered self.old.inbox.max_obj (present self.old.inbox.objects) piece.old).what) }
        ensures told { OnOk result (out.new ≡ out.old
            ++ told (notice (gathered self.old.inbox.max_obj (present self.old.inbox.objects) piece.old).broken)) }
        ensures short { IfOk result (λ sort. IsShortWhat (what_of sort piece.new.step)) }
        ensures err { OnErr result (out.new ≡ out.old) }
        ensures only { Only self.old self.new }
        ensures ids { StayBut none_moved (whole_of self.old) (whole_of self.new) }
        ensures marks { Holds self.old self.new }
        ensures sound { IsSoundEngine self.new }
    {
        let TakenOver { broken, sort } = self.inbox.take_over(piece)?;
        put_notice(self.alloc, &broken, out)?;
        Ok(sort)
    }

    /// One task. The report isn't told. The task's value may be moved into the tree.
    #[tactic(auto, using(crate::proofs::Frames::staying_in_step, crate::proofs::Held::holds_self), unfolding(crate::specs::Run::one_step))]
    pub(crate) fn one_step(
        &mut self,
        caller: &[u8],
        task: &mut Task,
        out: &mut List<Command>,
    ) -> Result<Report, Memory>
        requires sound { IsSoundEngine self.old }
        ensures ok { IfOk result (λ report. RunsTask
            (step_run (running self.old caller.now) (state_of self.old) task.old) (state_of self.new) report
            out.old out.new) }
        ensures err { OnErr result (IsInFront out.old out.new) }
        ensures only { Only self.old self.new }
        ensures ids { StayBut (work_covers task.old.work) (whole_of self.old) (whole_of self.new) }
        ensures marks { Holds self.old self.new }
        ensures sound { IsSoundEngine self.new }
    {
        match &mut task.work {
            Work::Piece(piece) => self.one_piece(caller, &task.post, piece, out),
            Work::Alert(code) => report_of(self.alloc, &task.post, alert_code(*code)),
        }
    }
}
