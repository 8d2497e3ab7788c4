// The commands that the engine runs.
ghost use Rattle.std.specs.Prelude.{◌≡◌, ◌∷◌, [], length, IfOk};

use crate::leaves::{LEAVES, leaf_uri};
use dm_base::{Boxed, Bytes, List, Memory};
use std::alloc::Global;
use syncml_types::{Block, Command, Item, Loc, Member, Meta, Plain, Verb};

// A node that isn't there.
const MISSING: &[u8] = b"./none";

// An item, which may be a piece of an object of a Size.
fn item(
    alloc: Global,
    target: &[u8],
    value: &[u8],
    size: Option<u64>,
    more: bool,
) -> Result<Item, Memory>
    ensures more { IfOk result (λ item. item.more ≡ more) }
{
    let mut meta = Meta::empty();
    meta.size = size;
    Ok(Item {
        target: Some(Loc {
            uri: Bytes::of_slice(alloc, target)?,
            name: None,
        }),
        source: None,
        meta: Some(Boxed::new(alloc, meta)?),
        value: Some(Bytes::of_slice(alloc, value)?),
        more,
    })
}

fn plain(alloc: Global, verb: Verb, id: u32, item: Item) -> Result<Plain, Memory>
    ensures items { IfOk result (λ command. command.items ≡ item ∷ []) }
    ensures id { IfOk result (λ command. command.id ≡ id) }
{
    let mut items = List::new(alloc);
    items.push(item)?;
    Ok(Plain {
        verb,
        id,
        no_resp: false,
        meta: None,
        correlator: None,
        items,
    })
}

fn replace(alloc: Global, leaf: u32, id: u32, byte: u8) -> Result<Member, Memory> {
    let value = [b'v', b'a', b'l', b'u', byte];
    let item = item(alloc, &leaf_uri(leaf), &value, None, false)?;
    Ok(Member::One(plain(alloc, Verb::Replace, id, item)?))
}

/// An Add of each leaf.
pub fn all_leaves(alloc: Global) -> Result<Command, Memory> {
    let mut items = List::new(alloc);
    for leaf in 0..LEAVES {
        items.push(item(alloc, &leaf_uri(leaf), b"value", None, false)?)?;
    }
    Ok(Command::Plain(Plain {
        verb: Verb::Add,
        id: 1,
        no_resp: false,
        meta: None,
        correlator: None,
        items,
    }))
}

// Replaces of so many leaves.
fn replaces(alloc: Global, count: u32, byte: u8) -> Result<List<Member>, Memory>
    ensures { IfOk result (λ members. length members ≡ count) }
{
    let mut members = List::new(alloc);
    for leaf in 0..count {
        members.push(replace(alloc, leaf, leaf.saturating_add(2), byte)?)?;
    }
    Ok(members)
}

fn atomic_of(members: List<Member>) -> Command {
    Command::Atomic(Block {
        id: 1,
        no_resp: false,
        meta: None,
        members,
    })
}

/// An Atomic that has so many Replaces of leaves, and then one of a node that isn't there.
pub fn failing(alloc: Global, count: u32) -> Result<Command, Memory> {
    let mut members = replaces(alloc, count, b'f')?;
    let last = item(alloc, MISSING, b"value", None, false)?;
    members.push(Member::One(plain(alloc, Verb::Replace, count.saturating_add(2), last)?))?;
    Ok(atomic_of(members))
}

// Half of a leaf's value: the first half has MoreData and the Size of the whole.
fn half(alloc: Global, leaf: u32, first: bool) -> Result<Item, Memory>
    ensures { IfOk result (λ item. item.more ≡ first) }
{
    let size = if first { Some(10) } else { None };
    item(alloc, &leaf_uri(leaf), b"value", size, first)
}

// An Atomic of the second half of one leaf's value and the first half of the next one's. Of the first leaf there is no
// second half, and of the last no first one.
fn part(alloc: Global, number: u32, count: u32) -> Result<Command, Memory> {
    let next = number.saturating_add(1);
    let first = if number == 0 {
        item(alloc, &leaf_uri(0), b"value", None, false)?
    } else {
        half(alloc, number, false)?
    };
    let second = if next == count {
        item(alloc, &leaf_uri(next), b"value", None, false)?
    } else {
        half(alloc, next, true)?
    };
    let mut members = List::new(alloc);
    members.push(Member::One(plain(alloc, Verb::Replace, 2, first)?))?;
    members.push(Member::One(plain(alloc, Verb::Replace, 3, second)?))?;
    Ok(atomic_of(members))
}

/// The parts of a group: each replaces a leaf and has a piece of the next one's value, and the last closes the group.
pub fn parts(alloc: Global, count: u32) -> Result<List<Command>, Memory> {
    let mut commands = List::new(alloc);
    for number in 0..count {
        commands.push(part(alloc, number, count)?)?;
    }
    Ok(commands)
}
