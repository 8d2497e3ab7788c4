// Whether the lists of a message that the profile wants filled are, and an Exec alone has a correlator. Nothing here
// takes memory.
ghost use Rattle.std.specs.Prelude.{◌≡◌, ◌&&◌};
ghost use Rattle.std.specs.List.{list_all};
ghost use Rattle.syncml_types.specs.Fitness as Spec;
ghost use Rattle.syncml_types.specs.Fitness.{is_filled};
ghost use Rattle.syncml_types.specs.Verbs.{is_exec};

use crate::command::{Block, Command, Member, Plain, SeqMember, Verb};

fn is_exec_verb(verb: Verb) -> bool
    ensures { result ≡ is_exec verb }
{
    match verb {
        Verb::Exec => true,
        _ => false,
    }
}

#[tactic(auto, unfolding(crate::specs::Fitness::plain_filled))]
fn plain_filled(c: &Plain) -> bool
    ensures { result ≡ Spec.plain_filled c.now }
{
    if is_exec_verb(c.verb) {
        c.items.len() == 1
    } else {
        !c.items.is_empty()
    }
}

#[tactic(auto, unfolding(crate::specs::Fitness::member_filled))]
fn member_filled(member: &Member) -> bool
    ensures { result ≡ Spec.member_filled member.now }
{
    match member {
        Member::One(c) => plain_filled(c),
        Member::Alert(_) => true,
    }
}

fn members_filled(members: &[Member]) -> bool
    ensures { result ≡ list_all Spec.member_filled members.now }
{
    members.iter().all(|member| member_filled(member))
}

#[tactic(auto, unfolding(crate::specs::Fitness::atomic_filled))]
fn atomic_filled(block: &Block<Member>) -> bool
    ensures { result ≡ Spec.atomic_filled block.now }
{
    !block.members.is_empty() && members_filled(block.members.as_slice())
}

#[tactic(auto, unfolding(crate::specs::Fitness::seq_member_filled))]
fn seq_member_filled(member: &SeqMember) -> bool
    ensures { result ≡ Spec.seq_member_filled member.now }
{
    match member {
        SeqMember::Single(member) => member_filled(member),
        SeqMember::Atomic(block) => atomic_filled(block),
    }
}

fn seq_members_filled(members: &[SeqMember]) -> bool
    ensures { result ≡ list_all Spec.seq_member_filled members.now }
{
    members.iter().all(|member| seq_member_filled(member))
}

fn sequence_filled(block: &Block<SeqMember>) -> bool
    ensures { result ≡ (is_filled block.now.members && list_all Spec.seq_member_filled block.now.members) }
{
    !block.members.is_empty() && seq_members_filled(block.members.as_slice())
}

#[tactic(auto, unfolding(crate::specs::Fitness::command_filled))]
fn command_filled(command: &Command) -> bool
    ensures { result ≡ Spec.command_filled command.now }
{
    match command {
        Command::Plain(c) => plain_filled(c),
        Command::Alert(_) => true,
        Command::Atomic(block) => atomic_filled(block),
        Command::Sequence(block) => sequence_filled(block),
        Command::Status(_) => true,
        Command::Results(c) => !c.items.is_empty(),
    }
}

pub(crate) fn are_filled(body: &[Command]) -> bool
    ensures { result ≡ list_all Spec.command_filled body.now }
{
    body.iter().all(|command| command_filled(command))
}

#[tactic(auto, unfolding(crate::specs::Fitness::plain_correlates))]
fn plain_correlates(c: &Plain) -> bool
    ensures { result ≡ Spec.plain_correlates c.now }
{
    is_exec_verb(c.verb) || c.correlator.is_none()
}

#[tactic(auto, unfolding(crate::specs::Fitness::member_correlates))]
fn member_correlates(member: &Member) -> bool
    ensures { result ≡ Spec.member_correlates member.now }
{
    match member {
        Member::One(c) => plain_correlates(c),
        Member::Alert(_) => true,
    }
}

fn members_correlate(members: &[Member]) -> bool
    ensures { result ≡ list_all Spec.member_correlates members.now }
{
    members.iter().all(|member| member_correlates(member))
}

#[tactic(auto, unfolding(crate::specs::Fitness::seq_member_correlates))]
fn seq_member_correlates(member: &SeqMember) -> bool
    ensures { result ≡ Spec.seq_member_correlates member.now }
{
    match member {
        SeqMember::Single(member) => member_correlates(member),
        SeqMember::Atomic(block) => members_correlate(block.members.as_slice()),
    }
}

fn seq_members_correlate(members: &[SeqMember]) -> bool
    ensures { result ≡ list_all Spec.seq_member_correlates members.now }
{
    members.iter().all(|member| seq_member_correlates(member))
}

#[tactic(auto, unfolding(crate::specs::Fitness::command_correlates))]
fn command_correlates(command: &Command) -> bool
    ensures { result ≡ Spec.command_correlates command.now }
{
    match command {
        Command::Plain(c) => plain_correlates(c),
        Command::Alert(_) => true,
        Command::Atomic(block) => members_correlate(block.members.as_slice()),
        Command::Sequence(block) => seq_members_correlate(block.members.as_slice()),
        Command::Status(_) => true,
        Command::Results(_) => true,
    }
}

pub(crate) fn all_correlate(body: &[Command]) -> bool
    ensures { result ≡ list_all Spec.command_correlates body.now }
{
    body.iter().all(|command| command_correlates(command))
}
