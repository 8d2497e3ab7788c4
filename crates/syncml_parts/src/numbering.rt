// CmdIDs in document order, given to commands in place. Nothing here takes memory.
ghost use Rattle.std.specs.Prelude.{◌≡◌, ◌<◌, ◌+◌, ◌^◌, length, take, drop};
ghost use Rattle.syncml_parts.specs.Numbering as Spec;
ghost use Rattle.syncml_parts.specs.Numbering.{with_number, numbered_members, numbered_seq_member};
ghost use Rattle.syncml_parts.specs.Numbering.{numbered_seq_members, ids_in_seq_member, ids_in_seq_members, ids_in};
ghost use Rattle.syncml_parts.specs.Numbering.{with_numbers, first_numbered, first_seq_numbered};

use dm_base::List;
use syncml_types::{Block, Command, Member, SeqMember};

fn set_member_id(member: &mut Member, id: u32)
    ensures { member.new ≡ with_number id member.old }
{
    match member {
        Member::One(c) => c.id = id,
        Member::Alert(c) => c.id = id,
    }
}

// Numbers the member at a place.
fn set_id_at(members: &mut List<Member>, at: usize, id: u32)
    ensures front { take at members.new ≡ take at members.old }
    ensures rest { drop at members.new ≡ first_numbered id (drop at members.old) }
    ensures length { length members.new ≡ length members.old }
{
    if let Some(member) = members.get_mut(at) {
        set_member_id(member, id);
    }
}

fn set_members_ids(members: &mut List<Member>, first: u32)
    requires { first + length members.old < 2 ^ 32 }
    ensures { members.new ≡ numbered_members first members.old }
{
    let mut id = first;
    for at in 0..members.len() {
        set_id_at(members, at, id);
        id += 1;
    }
}

// It answers how many CmdIDs the Atomic has.
fn set_atomic_ids(block: &mut Block<Member>, first: u32) -> u32
    requires { first + (1 + length block.old.members) < 2 ^ 32 }
    ensures block { block.new
        ≡ record block.old { id = first; members = numbered_members (first + 1) block.old.members } }
    ensures count { result ≡ 1 + length block.old.members }
{
    let count = 1 + block.members.len() as u32;
    block.id = first;
    set_members_ids(&mut block.members, first + 1);
    count
}

fn set_seq_member_ids(member: &mut SeqMember, first: u32) -> u32
    requires { first + ids_in_seq_member member.old < 2 ^ 32 }
    ensures member { member.new ≡ numbered_seq_member first member.old }
    ensures count { result ≡ ids_in_seq_member member.old }
{
    match member {
        SeqMember::Single(member) => {
            set_member_id(member, first);
            1
        }
        SeqMember::Atomic(block) => set_atomic_ids(block, first),
    }
}

// Numbers the member at a place of a Sequence, and answers how many CmdIDs it has.
fn set_seq_ids_at(members: &mut List<SeqMember>, at: usize, first: u32) -> u32
    requires { first + ids_in_seq_members (drop at members.old) < 2 ^ 32 }
    ensures front { take at members.new ≡ take at members.old }
    ensures rest { drop at members.new ≡ first_seq_numbered first (drop at members.old) }
    ensures length { length members.new ≡ length members.old }
    ensures count { ids_in_seq_members (drop at members.old) ≡ result + ids_in_seq_members (drop (at + 1) members.old) }
{
    match members.get_mut(at) {
        Some(member) => set_seq_member_ids(member, first),
        None => 0,
    }
}

fn set_seq_members_ids(members: &mut List<SeqMember>, first: u32) -> u32
    requires { first + ids_in_seq_members members.old < 2 ^ 32 }
    ensures members { members.new ≡ numbered_seq_members first members.old }
    ensures next { result ≡ first + ids_in_seq_members members.old }
{
    let mut id = first;
    for at in 0..members.len() {
        id += set_seq_ids_at(members, at, id);
    }
    id
}

// It answers the number after the Sequence's last.
fn set_sequence_ids(block: &mut Block<SeqMember>, first: u32) -> u32
    requires { first + (1 + ids_in_seq_members block.old.members) < 2 ^ 32 }
    ensures block { block.new
        ≡ record block.old { id = first; members = numbered_seq_members (first + 1) block.old.members } }
    ensures next { result ≡ first + (1 + ids_in_seq_members block.old.members) }
{
    block.id = first;
    set_seq_members_ids(&mut block.members, first + 1)
}

// The number after one that a command takes.
fn taken(id: &mut u32, first: u32) -> u32
    requires { first + 1 < 2 ^ 32 }
    ensures id { id.new ≡ first }
    ensures next { result ≡ first + 1 }
{
    *id = first;
    first + 1
}

/// Numbers a command in document order from a CmdID on: a container before its members. It answers the next number.
#[tactic(auto, unfolding(crate::specs::Numbering::with_numbers, crate::specs::Numbering::ids_in))]
#[inline(always)]
pub fn set_ids(command: &mut Command, first: u32) -> u32
    requires { first + ids_in command.old < 2 ^ 32 }
    ensures command { command.new ≡ with_numbers first command.old }
    ensures next { result ≡ first + ids_in command.old }
{
    match command {
        Command::Plain(c) => taken(&mut c.id, first),
        Command::Alert(c) => taken(&mut c.id, first),
        Command::Atomic(block) => first + set_atomic_ids(block, first),
        Command::Sequence(block) => set_sequence_ids(block, first),
        Command::Status(c) => taken(&mut c.id, first),
        Command::Results(c) => taken(&mut c.id, first),
    }
}
