// Whether the Data of a message have at most `TEXT_LIMIT` bytes each. Nothing here takes memory.
ghost use Rattle.std.specs.Prelude.{◌≡◌};
ghost use Rattle.std.specs.List.{list_all};
ghost use Rattle.syncml_types.specs.Fitness as Spec;
ghost use Rattle.syncml_types.specs.Fitness.{is_in_limit, all_of, message_data};

use crate::command::{Command, Member, SeqMember};
use crate::values::{Header, Item};
use dm_base::{Bytes, List, TEXT_LIMIT};

fn option_data(value: &Option<Bytes>) -> bool
    ensures { result ≡ all_of is_in_limit value.now }
{
    match value {
        None => true,
        Some(value) => value.len() <= TEXT_LIMIT as usize,
    }
}

#[tactic(auto, unfolding(crate::specs::Fitness::item_data))]
fn item_data(item: &Item) -> bool
    ensures { result ≡ Spec.item_data is_in_limit item.now }
{
    option_data(&item.value)
}

fn items_data(items: &List<Item>) -> bool
    ensures { result ≡ list_all (Spec.item_data is_in_limit) items.now }
{
    items.as_slice().iter().all(|item| item_data(item))
}

#[tactic(auto, unfolding(crate::specs::Fitness::header_data))]
fn header_data(h: &Header) -> bool
    ensures { result ≡ Spec.header_data is_in_limit h.now }
{
    match &h.cred {
        None => true,
        Some(cred) => cred.value.len() <= TEXT_LIMIT as usize,
    }
}

#[tactic(auto, unfolding(crate::specs::Fitness::member_data))]
fn member_data(member: &Member) -> bool
    ensures { result ≡ Spec.member_data is_in_limit member.now }
{
    match member {
        Member::One(c) => items_data(&c.items),
        Member::Alert(c) => items_data(&c.items),
    }
}

fn members_data(members: &[Member]) -> bool
    ensures { result ≡ list_all (Spec.member_data is_in_limit) members.now }
{
    members.iter().all(|member| member_data(member))
}

#[tactic(auto, unfolding(crate::specs::Fitness::seq_member_data))]
fn seq_member_data(member: &SeqMember) -> bool
    ensures { result ≡ Spec.seq_member_data is_in_limit member.now }
{
    match member {
        SeqMember::Single(member) => member_data(member),
        SeqMember::Atomic(block) => members_data(block.members.as_slice()),
    }
}

fn seq_members_data(members: &[SeqMember]) -> bool
    ensures { result ≡ list_all (Spec.seq_member_data is_in_limit) members.now }
{
    members.iter().all(|member| seq_member_data(member))
}

#[tactic(auto, unfolding(crate::specs::Fitness::command_data))]
fn command_data(command: &Command) -> bool
    ensures { result ≡ Spec.command_data is_in_limit command.now }
{
    match command {
        Command::Plain(c) => items_data(&c.items),
        Command::Alert(c) => items_data(&c.items),
        Command::Atomic(block) => members_data(block.members.as_slice()),
        Command::Sequence(block) => seq_members_data(block.members.as_slice()),
        Command::Status(c) => items_data(&c.items),
        Command::Results(c) => items_data(&c.items),
    }
}

fn commands_data(body: &[Command]) -> bool
    ensures { result ≡ list_all (Spec.command_data is_in_limit) body.now }
{
    body.iter().all(|command| command_data(command))
}

pub(crate) fn has_short_data(header: &Header, body: &[Command]) -> bool
    ensures { result ≡ message_data is_in_limit header.now body.now }
{
    header_data(header) && commands_data(body)
}
