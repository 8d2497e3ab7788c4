// The messages of the workload.
ghost use Rattle.std.specs.Prelude.{◌≡◌, ◌<◌, ◌%◌, IfOk, OnOk};
ghost use Rattle.std.specs.Fmt.{decimal};
ghost use Rattle.dm_bench.specs.Start.{leaf_uri};
ghost use Rattle.dm_bench.specs.Words;
ghost use Rattle.dm_bench.specs.Words.{state_after};
ghost use Rattle.dm_bench.specs.Messages as Spec;

use crate::names::add_leaf;
use dm_base::{Boxed, Bytes, List, Memory};
use dm_decimals::decimal_text;
use rand_core::utils::NextWord;
use rand_xoshiro::SplitMix64;
use std::alloc::Global;
use syncml_types::{Block, Command, Header, Item, Loc, Member, Message, Plain, Verb};

// The next word.
fn next(words: &mut SplitMix64) -> u64
    ensures word { result ≡ Words.word words.old }
    ensures rest { words.new ≡ Words.rest words.old }
{
    words.next_word()
}

// The URI of the leaf that the next word gives.
fn next_leaf(alloc: Global, nodes: u32, words: &mut SplitMix64) -> Result<Bytes, Memory>
    requires { 0 < nodes }
    ensures uri { IfOk result (λ uri. uri ≡ leaf_uri (Words.word words.old % nodes)) }
    ensures rest { words.new ≡ Words.rest words.old }
{
    let leaf = next(words) % nodes as u64;
    let mut uri = Bytes::new(alloc);
    add_leaf(&mut uri, leaf as u32)?;
    Ok(uri)
}

// The next word in digits.
fn next_value(alloc: Global, words: &mut SplitMix64) -> Result<Bytes, Memory>
    ensures value { IfOk result (λ value. value ≡ decimal (Words.word words.old)) }
    ensures rest { words.new ≡ Words.rest words.old }
{
    let word = next(words);
    decimal_text(alloc, word)
}

fn loc(uri: Bytes) -> Loc
    ensures { result ≡ Spec.loc uri }
{
    Loc { uri, name: None }
}

fn replace(alloc: Global, id: u32, target: Bytes, value: Bytes) -> Result<Member, Memory>
    ensures { IfOk result (λ member. member ≡ Spec.plain_replace id target value) }
{
    let mut items = List::with_room(alloc, 1)?;
    items.push(Item {
        target: Some(loc(target)),
        source: None,
        meta: None,
        value: Some(value),
        more: false,
    })?;
    Ok(Member::One(Plain {
        verb: Verb::Replace,
        id,
        no_resp: false,
        meta: None,
        correlator: None,
        items,
    }))
}

// A Replace of a leaf, which two words give.
fn leaf_write(alloc: Global, id: u32, nodes: u32, words: &mut SplitMix64) -> Result<Member, Memory>
    requires { 0 < nodes }
    ensures member { IfOk result (λ member. member ≡ Spec.leaf_write id nodes words.old) }
    ensures rest { OnOk result (words.new ≡ state_after 2 words.old) }
{
    let target = next_leaf(alloc, nodes, words)?;
    let value = next_value(alloc, words)?;
    replace(alloc, id, target, value)
}

// The target of the last Replace: where its first word says so, no node stands there.
fn last_target(alloc: Global, nodes: u32, words: &mut SplitMix64) -> Result<Bytes, Memory>
    requires { 0 < nodes }
    ensures uri { IfOk result (λ uri. uri ≡ Spec.last_target nodes words.old) }
    ensures rest { OnOk result (words.new ≡ state_after 2 words.old) }
{
    let decides = next(words);
    let leaf = next_leaf(alloc, nodes, words)?;
    if decides % 8 != 0 {
        return Ok(leaf);
    }
    Bytes::of_slice(alloc, b"./B/none")
}

// The last Replace, which three words give.
fn last_write(alloc: Global, id: u32, nodes: u32, words: &mut SplitMix64) -> Result<Member, Memory>
    requires { 0 < nodes }
    ensures member { IfOk result (λ member. member ≡ Spec.last_write id nodes words.old) }
    ensures rest { OnOk result (words.new ≡ state_after 3 words.old) }
{
    let target = last_target(alloc, nodes, words)?;
    let value = next_value(alloc, words)?;
    replace(alloc, id, target, value)
}

fn members(alloc: Global, nodes: u32, words: &mut SplitMix64) -> Result<List<Member>, Memory>
    requires { 0 < nodes }
    ensures members { IfOk result (λ members. members ≡ Spec.members nodes words.old) }
    ensures rest { OnOk result (words.new ≡ state_after 9 words.old) }
{
    let mut members = List::with_room(alloc, 4)?;
    members.push(leaf_write(alloc, 2, nodes, words)?)?;
    members.push(leaf_write(alloc, 3, nodes, words)?)?;
    members.push(leaf_write(alloc, 4, nodes, words)?)?;
    members.push(last_write(alloc, 5, nodes, words)?)?;
    Ok(members)
}

fn header(alloc: Global, number: u32) -> Result<Boxed<Header>, Memory>
    ensures { IfOk result (λ header. header ≡ Spec.header number) }
{
    let header = Header {
        dtd: Bytes::of_slice(alloc, b"1.2")?,
        proto: Bytes::of_slice(alloc, b"DM/1.2")?,
        session: Bytes::of_slice(alloc, b"1")?,
        msg: number,
        target: loc(Bytes::of_slice(alloc, b"d")?),
        source: loc(Bytes::of_slice(alloc, b"b")?),
        resp_uri: None,
        no_resp: false,
        cred: None,
        meta: None,
    };
    Boxed::new(alloc, header)
}

fn body(alloc: Global, members: List<Member>) -> Result<List<Command>, Memory>
    ensures { IfOk result (λ body. body ≡ Spec.body members) }
{
    let mut body = List::with_room(alloc, 1)?;
    body.push(Command::Atomic(Block {
        id: 1,
        no_resp: false,
        meta: None,
        members,
    }))?;
    Ok(body)
}

/// The message of this number, which nine words give. One that isn't fit would be `Memory`; none is, as runs show.
#[tactic(auto, unfolding(crate::specs::Messages::message_of))]
pub fn message(
    alloc: Global,
    nodes: u32,
    number: u32,
    words: &mut SplitMix64,
) -> Result<Message, Memory>
    requires { 0 < nodes }
    ensures message { IfOk result (λ m. m ≡ Spec.message_of nodes number words.old) }
    ensures rest { OnOk result (words.new ≡ state_after 9 words.old) }
{
    let members = members(alloc, nodes, words)?;
    match Message::new(header(alloc, number)?, body(alloc, members)?, true) {
        Ok(message) => Ok(message),
        Err(_) => Err(Memory),
    }
}
