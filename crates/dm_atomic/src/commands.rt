// Commands of a message's body.
ghost use Rattle.std.specs.Prelude.{◌≡◌, true, false, [], ◌∷◌, None, IsSome, OnOk, OnErr};
ghost use Rattle.std.specs.List.{list_any};
ghost use Rattle.syncml_types.specs.declared.command.Command.TheVariants as commands;
ghost use Rattle.dm_commands.specs.Promises.{none_moved, KeepIdsBut};
ghost use Rattle.dm_atomic.specs.Tasks.{plain_tasks, member_tasks, alert_task as alert_task_of};
ghost use Rattle.dm_atomic.specs.Tasks.{members_tasks as members_tasks_of};
ghost use Rattle.dm_atomic.specs.Made.{IsInFront};
ghost use Rattle.dm_atomic.specs.Run.{breaks_first, one_alone as alone_of, in_sequence as sequence_of};
ghost use Rattle.dm_atomic.specs.Run.{run_atomic as atomic_of, run_member as member_of, run_members as members_of};
ghost use Rattle.dm_atomic.specs.Run.{run_sequence as whole_sequence_of, run_command};
ghost use Rattle.dm_atomic.specs.Engine.{state_of, running, IsSoundEngine, Gives};
ghost use Rattle.dm_atomic.specs.Laws.{attempt, IfAtomic};
ghost use Rattle.dm_atomic.specs.Marks.{whole_of, Holds};
ghost use Rattle.dm_atomic.specs.Stays.{work_covers, member_covers, seq_member_covers, covers, StayBut};
ghost use Rattle.dm_atomic.specs.Stays.{committed_ids};
ghost use Rattle.dm_atomic.specs.Updates.{clock_of, max_obj_of};

use crate::engine::Engine;
use crate::entries::{put_own_report, put_status};
use crate::task_lists::{alert_task, container_post, members_tasks, take_members, take_task};
use crate::tasks::{Named, Origin, Task, Work};
use dm_base::{List, Memory};
use syncml_types::{AlertCmd, Block, Command, Member, Plain, SeqMember};

impl Engine {
    // A step of a verb breaks an open group first.
    #[tactic(auto, using(crate::proofs::Frames::keeping, crate::proofs::Giving::gives_quietly, crate::proofs::Telling::nothing_more))]
    fn break_first(&mut self, work: &Work, out: &mut List<Command>) -> Result<(), Memory>
        requires sound { IsSoundEngine self.old }
        ensures gives { OnOk result (Gives (breaks_first (state_of self.old) work.now) (state_of self.new)
            out.old out.new) }
        ensures err { OnErr result (IsInFront out.old out.new) }
        ensures clock { self.new.tree.clock ≡ self.old.tree.clock }
        ensures max_obj { self.new.inbox.max_obj ≡ self.old.inbox.max_obj }
        ensures ids { StayBut none_moved (whole_of self.old) (whole_of self.new) }
        ensures marks { Holds self.old self.new }
        ensures sound { IsSoundEngine self.new }
    {
        match work {
            Work::Piece(_) => {
                self.break_group(out)?;
                Ok(())
            }
            Work::Alert(_) => Ok(()),
        }
    }

    // A task outside an Atomic.
    #[tactic(auto, using(crate::proofs::Frames::keeping, crate::proofs::Giving::gives_in_front, crate::proofs::Giving::gives_more))]
    fn one_alone(
        &mut self,
        caller: &[u8],
        task: &mut Task,
        out: &mut List<Command>,
    ) -> Result<(), Memory>
        requires sound { IsSoundEngine self.old }
        ensures gives { OnOk result (Gives (alone_of (running self.old caller.now) (state_of self.old) task.old)
            (state_of self.new) out.old out.new) }
        ensures err { OnErr result (IsInFront out.old out.new) }
        ensures clock { self.new.tree.clock ≡ self.old.tree.clock }
        ensures max_obj { self.new.inbox.max_obj ≡ self.old.inbox.max_obj }
        ensures ids { StayBut (work_covers task.old.work) (whole_of self.old) (whole_of self.new) }
        ensures marks { Holds self.old self.new }
        ensures sound { IsSoundEngine self.new }
    {
        self.break_first(&task.work, out)?;
        let report = self.one_step(caller, task, out)?;
        put_own_report(self.alloc, report, out)?;
        Ok(())
    }

    // The items of a command outside an Atomic, whatever their codes.
    #[tactic(auto, using(crate::proofs::Frames::keeping, crate::proofs::Giving::giving, crate::proofs::Giving::items_over))]
    fn run_plain(
        &mut self,
        caller: &[u8],
        origin: Origin,
        command: &mut Plain,
        out: &mut List<Command>,
    ) -> Result<(), Memory>
        requires sound { IsSoundEngine self.old }
        ensures gives { OnOk result (Gives
            (sequence_of (running self.old caller.now) (state_of self.old) (plain_tasks origin false command.old))
            (state_of self.new) out.old out.new) }
        ensures err { OnErr result (IsInFront out.old out.new) }
        ensures clock { self.new.tree.clock ≡ self.old.tree.clock }
        ensures max_obj { self.new.inbox.max_obj ≡ self.old.inbox.max_obj }
        ensures ids { StayBut (covers (commands.Plain command.old)) (whole_of self.old) (whole_of self.new) }
        ensures marks { Holds self.old self.new }
        ensures sound { IsSoundEngine self.new }
    {
        for place in 0..command.items.len() {
            let mut task = take_task(self.alloc, origin, false, command, place)?;
            self.one_alone(caller, &mut task, out)?;
        }
        Ok(())
    }

    #[tactic(auto, using(crate::proofs::Frames::keeping, crate::proofs::Giving::lone_gives))]
    fn run_alert(
        &mut self,
        caller: &[u8],
        origin: Origin,
        alert: &AlertCmd,
        out: &mut List<Command>,
    ) -> Result<(), Memory>
        requires sound { IsSoundEngine self.old }
        ensures gives { OnOk result (Gives
            (sequence_of (running self.old caller.now) (state_of self.old) (alert_task_of origin alert.now ∷ []))
            (state_of self.new) out.old out.new) }
        ensures err { OnErr result (IsInFront out.old out.new) }
        ensures clock { self.new.tree.clock ≡ self.old.tree.clock }
        ensures max_obj { self.new.inbox.max_obj ≡ self.old.inbox.max_obj }
        ensures ids { StayBut none_moved (whole_of self.old) (whole_of self.new) }
        ensures marks { Holds self.old self.new }
        ensures sound { IsSoundEngine self.new }
    {
        let mut task = alert_task(origin, alert);
        self.one_alone(caller, &mut task, out)?;
        Ok(())
    }

    #[tactic(auto, using(crate::proofs::Frames::keeping, crate::proofs::Telling::nothing_more))]
    fn run_single(
        &mut self,
        caller: &[u8],
        origin: Origin,
        member: &mut Member,
        out: &mut List<Command>,
    ) -> Result<(), Memory>
        requires sound { IsSoundEngine self.old }
        ensures gives { OnOk result (Gives
            (sequence_of (running self.old caller.now) (state_of self.old) (member_tasks origin false member.old))
            (state_of self.new) out.old out.new) }
        ensures err { OnErr result (IsInFront out.old out.new) }
        ensures clock { self.new.tree.clock ≡ self.old.tree.clock }
        ensures max_obj { self.new.inbox.max_obj ≡ self.old.inbox.max_obj }
        ensures ids { StayBut (λ p. member_covers p member.old) (whole_of self.old) (whole_of self.new) }
        ensures marks { Holds self.old self.new }
        ensures sound { IsSoundEngine self.new }
    {
        match member {
            Member::One(command) => self.run_plain(caller, origin, command, out),
            Member::Alert(alert) => self.run_alert(caller, origin, alert, out),
        }
    }

    #[tactic(auto, using(crate::proofs::Frames::keeping, crate::proofs::Telling::nothing_more))]
    fn run_atomic(
        &mut self,
        caller: &[u8],
        origin: Origin,
        block: &mut Block<Member>,
        out: &mut List<Command>,
    ) -> Result<(), Memory>
        requires sound { IsSoundEngine self.old }
        ensures gives { OnOk result (Gives
            (atomic_of (running self.old caller.now) origin (state_of self.old) block.old) (state_of self.new)
            out.old out.new) }
        ensures err { OnErr result (IsInFront out.old out.new) }
        ensures clock { self.new.tree.clock ≡ self.old.tree.clock }
        ensures max_obj { self.new.inbox.max_obj ≡ self.old.inbox.max_obj }
        ensures ids { StayBut (covers (commands.Atomic block.old)) (whole_of self.old) (whole_of self.new) }
        ensures committed { OnOk result (IsSome (attempt (running self.old caller.now) (state_of self.old)
            (members_tasks_of origin true block.old.members))
            → (whole_of self.new).ids ≡ committed_ids (whole_of self.old)) }
        ensures marks { Holds self.old self.new }
        ensures sound { IsSoundEngine self.new }
    {
        let post = container_post(origin, block.id, block.no_resp, Named::Atomic);
        let mut members = take_members(self.alloc, block);
        let mut tasks = members_tasks(self.alloc, origin, true, members.as_mut_slice())?.into_vec();
        self.atomic(caller, post, tasks.as_mut_slice(), out)?;
        Ok(())
    }

    #[tactic(auto, using(crate::proofs::Frames::staying))]
    fn run_member(
        &mut self,
        caller: &[u8],
        origin: Origin,
        member: &mut SeqMember,
        out: &mut List<Command>,
    ) -> Result<(), Memory>
        requires sound { IsSoundEngine self.old }
        ensures gives { OnOk result (Gives
            (member_of (running self.old caller.now) origin (state_of self.old) member.old) (state_of self.new)
            out.old out.new) }
        ensures err { OnErr result (IsInFront out.old out.new) }
        ensures clock { self.new.tree.clock ≡ self.old.tree.clock }
        ensures max_obj { self.new.inbox.max_obj ≡ self.old.inbox.max_obj }
        ensures ids { StayBut (λ p. seq_member_covers p member.old) (whole_of self.old) (whole_of self.new) }
        ensures marks { Holds self.old self.new }
        ensures sound { IsSoundEngine self.new }
    {
        match member {
            SeqMember::Single(member) => self.run_single(caller, origin, member, out),
            SeqMember::Atomic(block) => self.run_atomic(caller, origin, block, out),
        }
    }

    #[tactic(auto, using(crate::proofs::Frames::keeping, crate::proofs::Giving::giving, crate::proofs::Giving::members_over))]
    fn run_members(
        &mut self,
        caller: &[u8],
        origin: Origin,
        members: &mut [SeqMember],
        out: &mut List<Command>,
    ) -> Result<(), Memory>
        requires sound { IsSoundEngine self.old }
        ensures gives { OnOk result (Gives
            (members_of (running self.old caller.now) origin (state_of self.old) members.old) (state_of self.new)
            out.old out.new) }
        ensures err { OnErr result (IsInFront out.old out.new) }
        ensures clock { self.new.tree.clock ≡ self.old.tree.clock }
        ensures max_obj { self.new.inbox.max_obj ≡ self.old.inbox.max_obj }
        ensures ids { StayBut (λ p. list_any (seq_member_covers p) members.old) (whole_of self.old)
            (whole_of self.new) }
        ensures marks { Holds self.old self.new }
        ensures sound { IsSoundEngine self.new }
    {
        for place in 0..members.len() {
            self.run_member(caller, origin, &mut members[place], out)?;
        }
        Ok(())
    }

    #[tactic(auto, using(crate::proofs::Frames::keeping, crate::proofs::Telling::nothing_more, crate::proofs::Telling::some_more, crate::proofs::Giving::sequence_gives))]
    fn run_sequence(
        &mut self,
        caller: &[u8],
        origin: Origin,
        block: &mut Block<SeqMember>,
        out: &mut List<Command>,
    ) -> Result<(), Memory>
        requires sound { IsSoundEngine self.old }
        ensures gives { OnOk result (Gives
            (whole_sequence_of (running self.old caller.now) origin (state_of self.old) block.old) (state_of self.new)
            out.old out.new) }
        ensures err { OnErr result (IsInFront out.old out.new) }
        ensures clock { self.new.tree.clock ≡ self.old.tree.clock }
        ensures max_obj { self.new.inbox.max_obj ≡ self.old.inbox.max_obj }
        ensures ids { StayBut (covers (commands.Sequence block.old)) (whole_of self.old) (whole_of self.new) }
        ensures marks { Holds self.old self.new }
        ensures sound { IsSoundEngine self.new }
    {
        let post = container_post(origin, block.id, block.no_resp, Named::Sequence);
        put_status(self.alloc, &post, 200, out)?;
        let mut members = take_members(self.alloc, block);
        self.run_members(caller, origin, members.as_mut_slice(), out)?;
        Ok(())
    }

    /// Runs one command of a message's body: what it comes to is put behind `out`, or waits where it joins a group that
    /// stays open. Statuses and Results aren't commands to run. The command's texts and values are moved out of it, and
    /// what is left of it is open. After `Memory` a part may be told, and the state may be anywhere on the way: go back
    /// to a mark.
    #[tactic(auto, unfolding(crate::specs::Run::run_command), using(crate::proofs::Frames::staying, crate::proofs::Held::holds_self, crate::proofs::Giving::gives_quietly, crate::proofs::Telling::nothing_more))]
    pub fn run(
        &mut self,
        caller: &[u8],
        origin: Origin,
        command: &mut Command,
        out: &mut List<Command>,
    ) -> Result<(), Memory>
        requires sound { IsSoundEngine self.old }
        ensures gives { OnOk result (Gives
            (run_command (running self.old caller.now) origin (state_of self.old) command.old) (state_of self.new)
            out.old out.new) }
        ensures err { OnErr result (IsInFront out.old out.new) }
        ensures clock { clock_of self.new ≡ clock_of self.old }
        ensures max_obj { max_obj_of self.new ≡ max_obj_of self.old }
        ensures ids { StayBut (covers command.old) (whole_of self.old) (whole_of self.new) }
        ensures kept { (state_of self.old).group ≡ None
            → KeepIdsBut (covers command.old) (whole_of self.old).ids (whole_of self.new).ids }
        ensures failed { OnOk result (IfAtomic command.old (λ b. IsSome (attempt (running self.old caller.now)
            (state_of self.old) (members_tasks_of origin true b.members))
            → (whole_of self.new).ids ≡ committed_ids (whole_of self.old))) }
        ensures marks { Holds self.old self.new }
        ensures sound { IsSoundEngine self.new }
    {
        match command {
            Command::Plain(command) => self.run_plain(caller, origin, command, out),
            Command::Alert(alert) => self.run_alert(caller, origin, alert, out),
            Command::Atomic(block) => self.run_atomic(caller, origin, block, out),
            Command::Sequence(block) => self.run_sequence(caller, origin, block, out),
            Command::Status(_) => Ok(()),
            Command::Results(_) => Ok(()),
        }
    }
}
