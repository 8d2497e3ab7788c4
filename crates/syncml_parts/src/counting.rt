// How many CmdIDs a command has.
ghost use Rattle.std.specs.Prelude.{◌≡◌, ◌<◌, ◌+◌, ◌^◌, length};
ghost use Rattle.syncml_parts.specs.Numbering as Spec;

use syncml_types::{Command, SeqMember};

/// How many CmdIDs a member of a Sequence has.
pub(crate) fn ids_in_seq_member(member: &SeqMember) -> u32
    requires { Spec.ids_in_seq_member member.now < 2 ^ 32 }
    ensures { result ≡ Spec.ids_in_seq_member member.now }
{
    match member {
        SeqMember::Single(_) => 1,
        SeqMember::Atomic(block) => 1 + block.members.len() as u32,
    }
}

#[tactic(auto, unfolding(crate::specs::Numbering::ids_in_seq_members))]
fn ids_in_seq_members(members: &[SeqMember]) -> u32
    requires { Spec.ids_in_seq_members members.now < 2 ^ 32 }
    ensures { result ≡ Spec.ids_in_seq_members members.now }
{
    let mut count = 0;
    for member in members {
        count += ids_in_seq_member(member);
    }
    count
}

/// How many CmdIDs a command has: its own, and those of its members.
#[tactic(auto, unfolding(crate::specs::Numbering::ids_in))]
pub fn ids_in(command: &Command) -> u32
    requires { Spec.ids_in command.now < 2 ^ 32 }
    ensures { result ≡ Spec.ids_in command.now }
{
    match command {
        Command::Atomic(block) => 1 + block.members.len() as u32,
        Command::Sequence(block) => 1 + ids_in_seq_members(block.members.as_slice()),
        Command::Plain(_) | Command::Alert(_) | Command::Status(_) | Command::Results(_) => 1,
    }
}
