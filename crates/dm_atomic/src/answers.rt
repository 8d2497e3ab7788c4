// What a command is answered that isn't executed.
ghost use Rattle.std.specs.Prelude.{◌≡◌, ◌++◌, true, false, OnOk, OnErr};
ghost use Rattle.syncml_types.specs.declared.command.Command.TheVariants as commands;
ghost use Rattle.dm_atomic.specs.Tasks.{plain_tasks, member_tasks, members_tasks};
ghost use Rattle.dm_atomic.specs.Made.{told, IsInFront};
ghost use Rattle.dm_atomic.specs.Posts.{task_posts, atomic_posts, member_posts, members_posts, asked_posts};
ghost use Rattle.dm_atomic.specs.Answers.{statuses};

use crate::entries::put_status;
use crate::task_lists::{alert_task, container_post, item_post};
use crate::tasks::{Named, Origin};
use dm_base::{List, Memory};
use std::alloc::Global;
use syncml_types::{Block, Command, Member, Plain, SeqMember};

// After `Memory` a part may be told.
#[tactic(auto, using(crate::proofs::Telling::telling_starts))]
fn answer_items(
    alloc: Global,
    origin: Origin,
    command: &Plain,
    code: u32,
    out: &mut List<Command>,
) -> Result<(), Memory>
    ensures ok { OnOk result
        (out.new ≡ out.old ++ told (statuses code (task_posts (plain_tasks origin false command.now)))) }
    ensures err { OnErr result (IsInFront out.old out.new) }
{
    for (place, item) in command.items.as_slice().iter().enumerate() {
        let post = item_post(alloc, origin, command, place, item)?;
        put_status(alloc, &post, code, out)?;
    }
    Ok(())
}

#[tactic(auto, using(crate::proofs::Telling::nothing_more))]
fn answer_member(
    alloc: Global,
    origin: Origin,
    member: &Member,
    code: u32,
    out: &mut List<Command>,
) -> Result<(), Memory>
    ensures ok { OnOk result
        (out.new ≡ out.old ++ told (statuses code (task_posts (member_tasks origin false member.now)))) }
    ensures err { OnErr result (IsInFront out.old out.new) }
{
    match member {
        Member::One(command) => answer_items(alloc, origin, command, code, out),
        Member::Alert(alert) => {
            let task = alert_task(origin, alert);
            put_status(alloc, &task.post, code, out)
        }
    }
}

#[tactic(auto, using(crate::proofs::Telling::telling_starts))]
fn answer_members(
    alloc: Global,
    origin: Origin,
    members: &List<Member>,
    code: u32,
    out: &mut List<Command>,
) -> Result<(), Memory>
    ensures ok { OnOk result
        (out.new ≡ out.old ++ told (statuses code (task_posts (members_tasks origin true members.now)))) }
    ensures err { OnErr result (IsInFront out.old out.new) }
{
    for member in members.as_slice() {
        answer_member(alloc, origin, member, code, out)?;
    }
    Ok(())
}

// The Atomic's Status, and then its members'.
#[tactic(auto, using(crate::proofs::Frames::telling))]
fn answer_atomic(
    alloc: Global,
    origin: Origin,
    block: &Block<Member>,
    code: u32,
    out: &mut List<Command>,
) -> Result<(), Memory>
    ensures ok { OnOk result (out.new ≡ out.old ++ told (statuses code (atomic_posts origin block.now))) }
    ensures err { OnErr result (IsInFront out.old out.new) }
{
    let post = container_post(origin, block.id, block.no_resp, Named::Atomic);
    put_status(alloc, &post, code, out)?;
    answer_members(alloc, origin, &block.members, code, out)
}

fn answer_seq_member(
    alloc: Global,
    origin: Origin,
    member: &SeqMember,
    code: u32,
    out: &mut List<Command>,
) -> Result<(), Memory>
    ensures ok { OnOk result (out.new ≡ out.old ++ told (statuses code (member_posts origin member.now))) }
    ensures err { OnErr result (IsInFront out.old out.new) }
{
    match member {
        SeqMember::Single(member) => answer_member(alloc, origin, member, code, out),
        SeqMember::Atomic(block) => answer_atomic(alloc, origin, block, code, out),
    }
}

#[tactic(auto, using(crate::proofs::Telling::telling_starts))]
fn answer_seq_members(
    alloc: Global,
    origin: Origin,
    members: &List<SeqMember>,
    code: u32,
    out: &mut List<Command>,
) -> Result<(), Memory>
    ensures ok { OnOk result (out.new ≡ out.old ++ told (statuses code (members_posts origin members.now))) }
    ensures err { OnErr result (IsInFront out.old out.new) }
{
    for member in members.as_slice() {
        answer_seq_member(alloc, origin, member, code, out)?;
    }
    Ok(())
}

// The Sequence's Status, and then its members'.
#[tactic(auto, unfolding(crate::specs::Posts::asked_posts), using(crate::proofs::Frames::telling))]
fn answer_sequence(
    alloc: Global,
    origin: Origin,
    block: &Block<SeqMember>,
    code: u32,
    out: &mut List<Command>,
) -> Result<(), Memory>
    ensures ok { OnOk result (out.new ≡ out.old ++ told (statuses code
        (asked_posts origin (commands.Sequence block.now)))) }
    ensures err { OnErr result (IsInFront out.old out.new) }
{
    let post = container_post(origin, block.id, block.no_resp, Named::Sequence);
    put_status(alloc, &post, code, out)?;
    answer_seq_members(alloc, origin, &block.members, code, out)
}

/// Answers a command that isn't executed: each of its steps and containers has this one code. Their Statuses are put
/// behind `out`, in document order, but those that are suppressed. Statuses and Results ask for none. After `Memory` a
/// part may be told, and what stood in `out` is still its beginning.
#[tactic(auto, unfolding(crate::specs::Posts::asked_posts), using(crate::proofs::Telling::nothing_more))]
pub fn answer_each(
    alloc: Global,
    origin: Origin,
    command: &Command,
    code: u32,
    out: &mut List<Command>,
) -> Result<(), Memory>
    ensures ok { OnOk result (out.new ≡ out.old ++ told (statuses code (asked_posts origin command.now))) }
    ensures err { OnErr result (IsInFront out.old out.new) }
{
    match command {
        Command::Plain(command) => answer_items(alloc, origin, command, code, out),
        Command::Alert(alert) => {
            let task = alert_task(origin, alert);
            put_status(alloc, &task.post, code, out)
        }
        Command::Atomic(block) => answer_atomic(alloc, origin, block, code, out),
        Command::Sequence(block) => answer_sequence(alloc, origin, block, code, out),
        Command::Status(_) => Ok(()),
        Command::Results(_) => Ok(()),
    }
}
