// Whether the CmdIDs, MsgIDs and MsgRefs of a message are 1 or more. Nothing here takes memory.
ghost use Rattle.std.specs.Prelude.{◌≡◌, ◌&&◌};
ghost use Rattle.std.specs.List.{list_all};
ghost use Rattle.syncml_types.specs.Fitness as Spec;
ghost use Rattle.syncml_types.specs.Fitness.{is_number, all_of, message_numbers};

use crate::command::{Block, Command, Member, SeqMember};
use crate::values::Header;

#[tactic(auto, unfolding(crate::specs::Fitness::member_numbers))]
fn member_numbers(member: &Member) -> bool
    ensures { result ≡ Spec.member_numbers member.now }
{
    match member {
        Member::One(c) => c.id != 0,
        Member::Alert(c) => c.id != 0,
    }
}

fn members_numbers(members: &[Member]) -> bool
    ensures { result ≡ list_all Spec.member_numbers members.now }
{
    members.iter().all(|member| member_numbers(member))
}

#[tactic(auto, unfolding(crate::specs::Fitness::atomic_numbers))]
fn atomic_numbers(block: &Block<Member>) -> bool
    ensures { result ≡ Spec.atomic_numbers block.now }
{
    block.id != 0 && members_numbers(block.members.as_slice())
}

#[tactic(auto, unfolding(crate::specs::Fitness::seq_member_numbers))]
fn seq_member_numbers(member: &SeqMember) -> bool
    ensures { result ≡ Spec.seq_member_numbers member.now }
{
    match member {
        SeqMember::Single(member) => member_numbers(member),
        SeqMember::Atomic(block) => atomic_numbers(block),
    }
}

fn seq_members_numbers(members: &[SeqMember]) -> bool
    ensures { result ≡ list_all Spec.seq_member_numbers members.now }
{
    members.iter().all(|member| seq_member_numbers(member))
}

fn sequence_numbers(block: &Block<SeqMember>) -> bool
    ensures { result ≡ (is_number block.now.id && list_all Spec.seq_member_numbers block.now.members) }
{
    block.id != 0 && seq_members_numbers(block.members.as_slice())
}

fn option_number(number: Option<u32>) -> bool
    ensures { result ≡ all_of is_number number }
{
    match number {
        None => true,
        Some(number) => number != 0,
    }
}

#[tactic(auto, unfolding(crate::specs::Fitness::command_numbers))]
fn command_numbers(command: &Command) -> bool
    ensures { result ≡ Spec.command_numbers command.now }
{
    match command {
        Command::Plain(c) => c.id != 0,
        Command::Alert(c) => c.id != 0,
        Command::Atomic(block) => atomic_numbers(block),
        Command::Sequence(block) => sequence_numbers(block),
        Command::Status(c) => c.id != 0 && c.msg_ref != 0,
        Command::Results(c) => c.id != 0 && option_number(c.msg_ref),
    }
}

fn commands_numbers(body: &[Command]) -> bool
    ensures { result ≡ list_all Spec.command_numbers body.now }
{
    body.iter().all(|command| command_numbers(command))
}

pub(crate) fn has_numbers(header: &Header, body: &[Command]) -> bool
    ensures { result ≡ message_numbers header.now body.now }
{
    header.msg != 0 && commands_numbers(body)
}
