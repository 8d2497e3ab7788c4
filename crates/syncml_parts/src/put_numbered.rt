// The canonical tokens of commands with other CmdIDs than theirs, in document order, given to a writer of any kind.
ghost use Rattle.std.specs.Prelude.{◌≡◌, ◌<◌, ◌+◌, ◌^◌, length, OnOk};
ghost use Rattle.std.specs.List.{AllByRecursion};
ghost use Rattle.wbxml_tokens.specs.Spelling.{given, page_behind};
ghost use Rattle.syncml_types.specs.Message.{HasShortMember, HasShortSeqMember, HasShortItems};
ghost use Rattle.syncml_types.specs.Canonical.{member_tokens, members_tokens, atomic_tokens, seq_member_tokens};
ghost use Rattle.syncml_types.specs.Canonical.{seq_members_tokens, sequence_tokens, command_tokens};
ghost use Rattle.syncml_types.specs.Lengths.{spelled_length};
ghost use Rattle.syncml_parts.specs.Numbering as Spec;
ghost use Rattle.syncml_parts.specs.Numbering.{with_number, numbered_members, numbered_seq_member};
ghost use Rattle.syncml_parts.specs.Numbering.{numbered_seq_members, ids_in_seq_members, ids_in, with_numbers};

use crate::counting::ids_in_seq_member;
use dm_base::List;
use syncml_types::lengths::{Counter, Never};
use syncml_types::put_command::{
    put_alert_as, put_block_head, put_plain_as, put_results_as, put_status_as,
};
use syncml_types::{Block, Command, Member, SeqMember};
use wbxml_tables::Element;
use wbxml_tokens::Writer;

#[tactic(auto, unfolding(syncml_types::specs::Canonical::member_tokens))]
fn put_member_as<W: Writer>(w: &mut W, member: &Member, id: u32) -> Result<(), W::Error>
    requires { HasShortMember member.now }
    ensures { OnOk result (w.new ≡ given W.after w.old (member_tokens (with_number id member.now))) }
{
    match member {
        Member::One(c) => put_plain_as(w, c, id),
        Member::Alert(c) => put_alert_as(w, c, id),
    }
}

#[tactic(auto, using(syncml_types::proofs::Given::given_append), unfolding(syncml_types::specs::Canonical::members_tokens, crate::specs::Numbering::numbered_members))]
fn put_members_from<W: Writer>(
    w: &mut W,
    members: &List<Member>,
    first: u32,
) -> Result<(), W::Error>
    requires short { AllByRecursion HasShortMember members.now }
    requires room { first + length members.now < 2 ^ 32 }
    ensures { OnOk result (w.new ≡ given W.after w.old (members_tokens (numbered_members first members.now))) }
{
    let mut id = first;
    for member in members.as_slice() {
        put_member_as(w, member, id)?;
        id += 1;
    }
    Ok(())
}

#[tactic(auto, using(syncml_types::proofs::Given::given_append), unfolding(syncml_types::specs::Canonical::atomic_tokens))]
fn put_atomic_from<W: Writer>(w: &mut W, block: &Block<Member>, first: u32) -> Result<(), W::Error>
    requires short { AllByRecursion HasShortMember block.now.members }
    requires room { first + (1 + length block.now.members) < 2 ^ 32 }
    ensures { OnOk result (w.new ≡ given W.after w.old
        (atomic_tokens (record block.now { id = first; members = numbered_members (first + 1) block.now.members }))) }
{
    put_block_head(w, Element::EAtomic, block, first)?;
    put_members_from(w, &block.members, first + 1)?;
    w.end()
}

#[tactic(auto, unfolding(syncml_types::specs::Canonical::seq_member_tokens))]
fn put_seq_member_from<W: Writer>(w: &mut W, member: &SeqMember, first: u32) -> Result<(), W::Error>
    requires short { HasShortSeqMember member.now }
    requires room { first + Spec.ids_in_seq_member member.now < 2 ^ 32 }
    ensures { OnOk result (w.new ≡ given W.after w.old (seq_member_tokens (numbered_seq_member first member.now))) }
{
    match member {
        SeqMember::Single(member) => put_member_as(w, member, first),
        SeqMember::Atomic(block) => put_atomic_from(w, block, first),
    }
}

#[tactic(auto, using(syncml_types::proofs::Given::given_append), unfolding(syncml_types::specs::Canonical::seq_members_tokens, crate::specs::Numbering::numbered_seq_members, crate::specs::Numbering::ids_in_seq_members))]
fn put_seq_members_from<W: Writer>(
    w: &mut W,
    members: &List<SeqMember>,
    first: u32,
) -> Result<(), W::Error>
    requires short { AllByRecursion HasShortSeqMember members.now }
    requires room { first + ids_in_seq_members members.now < 2 ^ 32 }
    ensures { OnOk result (w.new ≡ given W.after w.old (seq_members_tokens (numbered_seq_members first members.now))) }
{
    let mut id = first;
    for member in members.as_slice() {
        put_seq_member_from(w, member, id)?;
        id += ids_in_seq_member(member);
    }
    Ok(())
}

#[tactic(auto, using(syncml_types::proofs::Given::given_append), unfolding(syncml_types::specs::Canonical::sequence_tokens))]
fn put_sequence_from<W: Writer>(
    w: &mut W,
    block: &Block<SeqMember>,
    first: u32,
) -> Result<(), W::Error>
    requires short { AllByRecursion HasShortSeqMember block.now.members }
    requires room { first + (1 + ids_in_seq_members block.now.members) < 2 ^ 32 }
    ensures { OnOk result (w.new ≡ given W.after w.old
        (sequence_tokens
        (record block.now { id = first; members = numbered_seq_members (first + 1) block.now.members }))) }
{
    put_block_head(w, Element::ESequence, block, first)?;
    put_seq_members_from(w, &block.members, first + 1)?;
    w.end()
}

/// Gives a command with CmdIDs from a number on.
#[tactic(auto, unfolding(syncml_types::specs::Canonical::command_tokens, crate::specs::Numbering::with_numbers, crate::specs::Numbering::ids_in))]
pub fn put_command_from<W: Writer>(w: &mut W, command: &Command, first: u32) -> Result<(), W::Error>
    requires short { HasShortItems command.now }
    requires room { first + ids_in command.now < 2 ^ 32 }
    ensures { OnOk result (w.new ≡ given W.after w.old (command_tokens (with_numbers first command.now))) }
{
    match command {
        Command::Plain(c) => put_plain_as(w, c, first),
        Command::Alert(c) => put_alert_as(w, c, first),
        Command::Atomic(block) => put_atomic_from(w, block, first),
        Command::Sequence(block) => put_sequence_from(w, block, first),
        Command::Status(c) => put_status_as(w, c, first),
        Command::Results(c) => put_results_as(w, c, first),
    }
}

/// How many bytes a command has in canonical spelling, where it begins on a page and is numbered from a CmdID on; and
/// the page after it. Nothing is numbered.
#[tactic(auto, using(syncml_types::proofs::Counts::given_counted))]
pub fn numbered_length(page: u8, first: u32, command: &Command) -> (u64, u8)
    requires short { HasShortItems command.now }
    requires room { first + ids_in command.now < 2 ^ 32 }
    ensures length { result.0 ≡ spelled_length 0 page (command_tokens (with_numbers first command.now)) }
    ensures page { result.1 ≡ page_behind page (command_tokens (with_numbers first command.now)) }
{
    let mut counter = Counter { count: 0, page };
    match put_command_from(&mut counter, command, first) {
        Ok(()) => (counter.count, counter.page),
        Err(never) => match never {},
    }
}
