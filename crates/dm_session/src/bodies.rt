// What a message's body asks for, as a whole.
ghost use Rattle.std.specs.Prelude.{◌≡◌};
ghost use Rattle.std.specs.List.{list_any};
ghost use Rattle.dm_machine.specs.Messages as Spec;

use syncml_types::{Command, Member, Message, Plain, SeqMember};

fn has_items(command: &Plain) -> bool
    ensures { result ≡ Spec.has_items command.now }
{
    !command.items.is_empty()
}

fn member_has_step(member: &Member) -> bool
    ensures { result ≡ Spec.member_has_step member.now }
{
    match member {
        Member::One(command) => has_items(command),
        Member::Alert(_) => false,
    }
}

fn members_have_step(members: &[Member]) -> bool
    ensures { result ≡ list_any Spec.member_has_step members.now }
{
    members.iter().any(|member| member_has_step(member))
}

fn seq_member_has_step(member: &SeqMember) -> bool
    ensures { result ≡ Spec.seq_member_has_step member.now }
{
    match member {
        SeqMember::Single(member) => member_has_step(member),
        SeqMember::Atomic(block) => members_have_step(block.members.as_slice()),
    }
}

fn seq_members_have_step(members: &[SeqMember]) -> bool
    ensures { result ≡ list_any Spec.seq_member_has_step members.now }
{
    members.iter().any(|member| seq_member_has_step(member))
}

fn has_step(command: &Command) -> bool
    ensures { result ≡ Spec.has_step command.now }
{
    match command {
        Command::Plain(command) => has_items(command),
        Command::Atomic(block) => members_have_step(block.members.as_slice()),
        Command::Sequence(block) => seq_members_have_step(block.members.as_slice()),
        Command::Alert(_) | Command::Status(_) | Command::Results(_) => false,
    }
}

fn have_step(body: &[Command]) -> bool
    ensures { result ≡ list_any Spec.has_step body.now }
{
    body.iter().any(|command| has_step(command))
}

/// Whether a message ends its package without a step of a verb.
pub(crate) fn is_quiet(message: &Message) -> bool
    ensures { result ≡ Spec.is_quiet message.now }
{
    message.last() && !have_step(message.body().as_slice())
}
