// The CmdIDs of a message, and whether two of them are equal.
ghost use Rattle.std.specs.Prelude.{◌≡◌, ◌++◌, ◌∷◌, IfOk, OnOk, map};
ghost use Rattle.dm_headers.specs.CmdIds.{member_id as id_of, seq_member_ids, seq_members_ids, command_ids, body_ids};
ghost use Rattle.dm_headers.specs.CmdIds.{has_twins as twins_in};
ghost use Rattle.dm_headers.specs.Rising.{is_rising as rising};

use dm_base::{List, Memory};
use std::alloc::Global;
use syncml_types::{Block, Command, Member, SeqMember};

fn member_id(member: &Member) -> u32
    ensures { result ≡ id_of member.now }
{
    match member {
        Member::One(command) => command.id,
        Member::Alert(alert) => alert.id,
    }
}

#[tactic(auto, using(crate::proofs::Ahead::next_id))]
fn push_members(members: &List<Member>, ids: &mut List<u32>) -> Result<(), Memory>
    ensures { OnOk result (ids.new ≡ ids.old ++ map id_of members.now) }
{
    for member in members.as_slice() {
        ids.push(member_id(member))?;
    }
    Ok(())
}

fn push_atomic(block: &Block<Member>, ids: &mut List<u32>) -> Result<(), Memory>
    ensures { OnOk result (ids.new ≡ ids.old ++ block.now.id ∷ map id_of block.now.members) }
{
    ids.push(block.id)?;
    push_members(&block.members, ids)?;
    Ok(())
}

fn push_seq_member(member: &SeqMember, ids: &mut List<u32>) -> Result<(), Memory>
    ensures { OnOk result (ids.new ≡ ids.old ++ seq_member_ids member.now) }
{
    match member {
        SeqMember::Single(member) => ids.push(member_id(member))?,
        SeqMember::Atomic(block) => push_atomic(block, ids)?,
    }
    Ok(())
}

#[tactic(auto, using(crate::proofs::Ahead::next_seq_member))]
fn push_seq_members(members: &List<SeqMember>, ids: &mut List<u32>) -> Result<(), Memory>
    ensures { OnOk result (ids.new ≡ ids.old ++ seq_members_ids members.now) }
{
    for member in members.as_slice() {
        push_seq_member(member, ids)?;
    }
    Ok(())
}

fn push_sequence(block: &Block<SeqMember>, ids: &mut List<u32>) -> Result<(), Memory>
    ensures { OnOk result (ids.new ≡ ids.old ++ block.now.id ∷ seq_members_ids block.now.members) }
{
    ids.push(block.id)?;
    push_seq_members(&block.members, ids)?;
    Ok(())
}

fn push_command(command: &Command, ids: &mut List<u32>) -> Result<(), Memory>
    ensures { OnOk result (ids.new ≡ ids.old ++ command_ids command.now) }
{
    match command {
        Command::Plain(command) => ids.push(command.id)?,
        Command::Alert(alert) => ids.push(alert.id)?,
        Command::Atomic(block) => push_atomic(block, ids)?,
        Command::Sequence(block) => push_sequence(block, ids)?,
        Command::Status(status) => ids.push(status.id)?,
        Command::Results(results) => ids.push(results.id)?,
    }
    Ok(())
}

#[tactic(auto, using(crate::proofs::Ahead::next_command))]
fn push_body(body: &List<Command>, ids: &mut List<u32>) -> Result<(), Memory>
    ensures { OnOk result (ids.new ≡ ids.old ++ body_ids body.now) }
{
    for command in body.as_slice() {
        push_command(command, ids)?;
    }
    Ok(())
}

fn is_rising(ids: &[u32]) -> bool
    ensures { result ≡ rising ids.now }
{
    for at in 1..ids.len() {
        if ids[at] <= ids[at - 1] {
            return false;
        }
    }
    true
}

// Whether two are equal: numbers that rise, as most senders give them, are told without sorting.
#[tactic(auto, using(crate::proofs::Rises::rising_alone, crate::proofs::Rises::sorted_twins))]
fn twins(ids: &mut [u32]) -> bool
    ensures { result ≡ twins_in ids.old }
{
    if is_rising(ids) {
        return false;
    }
    ids.sort_unstable();
    !is_rising(ids)
}

/// Whether two CmdIDs of a body are equal.
pub(crate) fn has_twins(alloc: Global, body: &List<Command>) -> Result<bool, Memory>
    ensures { IfOk result (λ is. is ≡ twins_in (body_ids body.now)) }
{
    let mut ids = List::with_room(alloc, body.len())?;
    push_body(body, &mut ids)?;
    let mut ids = ids.into_vec();
    Ok(twins(ids.as_mut_slice()))
}
