// Commands: their copies, their numbers, and what packing asks of them.
ghost use Rattle.std.specs.Prelude.{◌≡◌, length, IfOk};
ghost use Rattle.std.specs.List.{AllByRecursion};
ghost use Rattle.syncml_types.specs.Message.{HasShortData, HasShortMember, HasShortSeqMember, HasShortItems};
ghost use Rattle.syncml_parts.specs.Packing.{cut_data};
ghost use Rattle.syncml_parts.specs.Numbering.{ids_in, ids_in_seq_members};

use dm_base::{Bytes, List, Memory};
use std::alloc::Global;
use std::test::Fail;
use syncml_parts::{cut_item, cut_item_mut, numbered_length, rest_length, set_ids};
use syncml_types::{Block, Command, Item, Loc, Member, Plain, SeqMember, Verb, command_length};

fn place(alloc: Global) -> Result<Loc, Memory> {
    Ok(Loc {
        uri: Bytes::of_slice(alloc, b"./x")?,
        name: None,
    })
}

// An item of two bytes.
fn item(alloc: Global) -> Result<Item, Memory>
    ensures { IfOk result HasShortData }
{
    let value = Bytes::of_slice(alloc, b"ab")?;
    Ok(Item {
        target: Some(place(alloc)?),
        source: None,
        meta: None,
        value: Some(value),
        more: false,
    })
}

fn items(alloc: Global) -> Result<List<Item>, Memory>
    ensures { IfOk result (AllByRecursion HasShortData) }
{
    let mut items = List::new(alloc);
    items.push(item(alloc)?)?;
    Ok(items)
}

fn replace(alloc: Global) -> Result<Plain, Memory>
    ensures { IfOk result (λ c. AllByRecursion HasShortData c.items) }
{
    Ok(Plain {
        verb: Verb::Replace,
        id: 3,
        no_resp: false,
        meta: None,
        correlator: None,
        items: items(alloc)?,
    })
}

fn members(alloc: Global) -> Result<List<Member>, Memory>
    ensures { IfOk result (λ ms. (length ms ≡ 1) × AllByRecursion HasShortMember ms) }
{
    let replace = replace(alloc)?;
    let mut members = List::new(alloc);
    members.push(Member::One(replace))?;
    Ok(members)
}

// An Atomic of a Replace, which wants no response.
fn block(alloc: Global) -> Result<Block<Member>, Memory>
    ensures { IfOk result (λ b. (length b.members ≡ 1) × AllByRecursion HasShortMember b.members) }
{
    Ok(Block {
        id: 2,
        no_resp: true,
        meta: None,
        members: members(alloc)?,
    })
}

// That Atomic and a Replace.
#[tactic(auto, unfolding(syncml_parts::specs::Numbering::ids_in_seq_members))]
fn seq_members(alloc: Global) -> Result<List<SeqMember>, Memory>
    ensures { IfOk result (λ ms. (ids_in_seq_members ms ≡ 3) × AllByRecursion HasShortSeqMember ms) }
{
    let mut members = List::new(alloc);
    members.push(SeqMember::Atomic(block(alloc)?))?;
    members.push(SeqMember::Single(Member::One(replace(alloc)?)))?;
    Ok(members)
}

#[tactic(auto, unfolding(syncml_parts::specs::Numbering::ids_in))]
fn sequence(alloc: Global) -> Result<Command, Memory>
    ensures { IfOk result (λ c. (ids_in c ≡ 4) × HasShortItems c) }
{
    Ok(Command::Sequence(Block {
        id: 1,
        no_resp: false,
        meta: None,
        members: seq_members(alloc)?,
    }))
}

// The CmdIDs of the Sequence and of its last member.
fn ids_of(command: &Command) -> Option<(u32, u32)> {
    match command {
        Command::Sequence(block) => match block.members.as_slice() {
            [_, SeqMember::Single(Member::One(last))] => Some((block.id, last.id)),
            _ => None,
        },
        _ => None,
    }
}

// The Data that may be cut, or nothing.
fn cut_value(command: &Command) -> &[u8]
    ensures { result.now ≡ cut_data command.now }
{
    match cut_item(command) {
        None => &[],
        Some(item) => match &item.value {
            None => &[],
            Some(value) => value.as_slice(),
        },
    }
}

fn is_copied(alloc: Global, command: &Command) -> Result<bool, Memory> {
    let copied = command.copy(alloc)?;
    let is_same = ids_of(&copied) == ids_of(command) && cut_value(&copied) == cut_value(command);
    drop(copied);
    Ok(is_same)
}

// How many bytes it has, and how many without its Data, where it begins on a page; and the pages after it.
fn lengths(page: u8, command: &Command) -> Option<((u64, u8), (u64, u8))>
    requires { HasShortItems command.now }
{
    let (whole, behind) = command_length(page, command);
    if 1000 <= whole || cut_value(command).is_empty() {
        return None;
    }
    Some(((whole, behind), rest_length(page, command)))
}

fn write_cut(command: &mut Command, value: Bytes) {
    if let Some(item) = cut_item_mut(command) {
        item.value = Some(value);
    }
}

// What is so of the Sequence.
#[derive(Clone, Copy)]
struct Told {
    copied: bool,
    lengths: Option<((u64, u8), (u64, u8))>,
    elsewhere: Option<((u64, u8), (u64, u8))>,
    // Numbered from 9 on.
    numbered: (u64, u8),
    next: u32,
    ids: Option<(u32, u32)>,
    // Other Data was written in place of its own.
    written: bool,
}

fn told_of(alloc: Global, command: &mut Command) -> Result<Told, Memory>
    requires ids { ids_in command.old ≡ 4 }
    requires short { HasShortItems command.old }
{
    let copied = is_copied(alloc, command)?;
    let lengths_here = lengths(0, command);
    let elsewhere = lengths(1, command);
    let numbered = numbered_length(0, 9, command);
    let had = cut_value(command) == b"ab".as_slice();
    let value = Bytes::of_slice(alloc, b"c")?;
    let next = set_ids(command, 9);
    write_cut(command, value);
    Ok(Told {
        copied,
        lengths: lengths_here,
        elsewhere,
        numbered,
        next,
        ids: ids_of(command),
        written: had && cut_value(command) == b"c".as_slice(),
    })
}

fn of_sequence(alloc: Global) -> Result<Told, Memory> {
    let mut command = sequence(alloc)?;
    let told = told_of(alloc, &mut command);
    drop(command);
    told
}

#[test]
fn a_sequence_is_copied_measured_numbered_and_written(rt: HostRuntime) -> Result<(), Fail> {
    let told = of_sequence(rt.alloc())?;
    assert!(rt; told.copied);
    assert_eq!(rt; told.lengths, Some(((63, 0), (59, 0))));
    assert_eq!(rt; told.elsewhere, Some(((65, 0), (61, 0))));
    assert_eq!(rt; told.numbered, (66, 0));
    assert_eq!(rt; (told.next, told.ids), (13, Some((9, 12))));
    assert!(rt; told.written);
    Ok(())
}
