// What packing needs: the item whose Data may be cut, and the length of Data.
ghost use Rattle.std.specs.Prelude.{◌≡◌, ◌<◌, ◌^◌, option_map, option_and_then, length};
ghost use Rattle.wbxml_tokens.specs.Spelling.{spelled, page_behind};
ghost use Rattle.syncml_types.specs.Message.{IsShortData, HasShortItems};
ghost use Rattle.syncml_types.specs.Canonical.{command_tokens};
ghost use Rattle.syncml_parts.specs.Packing as Spec;
ghost use Rattle.syncml_parts.specs.Packing.{list_last, only_item, write_item, BoundsData, RestAndData, SpellsCommands};
ghost use Rattle.syncml_parts.specs.Packing.{SpellsInParts};
ghost use Rattle.syncml_parts.specs.Pages.{PagesFollowElements, PageWithoutNumbers, PageWithoutData, HeaderPage};

use syncml_types::put_value::is_plain_text;
use syncml_types::{Command, Item, Member, SeqMember, Verb, command_length};
use wbxml_ints::write_mb;

/// How many bytes the token has that holds Data, which isn't empty: its text or its opaque bytes.
pub fn data_length(value: &[u8]) -> u64
    requires { IsShortData value.now }
    ensures { result ≡ Spec.data_length value.now }
{
    let length = value.len() as u64;
    if is_plain_text(value) {
        return length + 2;
    }
    let head = write_mb(value.len() as u32).as_slice().len();
    length + (1 + head) as u64
}

fn the_item(items: &[Item]) -> Option<&Item>
    ensures { option_map (λ item. item.now) result ≡ only_item items.now }
{
    match items {
        [item] => Some(item),
        _ => None,
    }
}

fn written_item(verb: Verb, items: &[Item]) -> Option<&Item>
    ensures { option_map (λ item. item.now) result ≡ write_item verb items.now }
{
    match verb {
        Verb::Add | Verb::Replace => the_item(items),
        _ => None,
    }
}

fn member_item(member: &Member) -> Option<&Item>
    ensures { option_map (λ item. item.now) result ≡ Spec.member_item member.now }
{
    match member {
        Member::One(c) => written_item(c.verb, c.items.as_slice()),
        Member::Alert(_) => None,
    }
}

fn seq_member_item(member: &SeqMember) -> Option<&Item>
    ensures { option_map (λ item. item.now) result ≡ Spec.seq_member_item member.now }
{
    match member {
        SeqMember::Single(member) => member_item(member),
        SeqMember::Atomic(_) => None,
    }
}

fn last_member(members: &[Member]) -> Option<&Member>
    ensures { option_map (λ member. member.now) result ≡ list_last members.now }
{
    members.last()
}

fn last_seq_member(members: &[SeqMember]) -> Option<&SeqMember>
    ensures { option_map (λ member. member.now) result ≡ list_last members.now }
{
    members.last()
}

fn atomic_item(members: &[Member]) -> Option<&Item>
    ensures { option_map (λ item. item.now) result ≡ option_and_then Spec.member_item (list_last members.now) }
{
    member_item(last_member(members)?)
}

fn sequence_item(members: &[SeqMember]) -> Option<&Item>
    ensures { option_map (λ item. item.now) result ≡ option_and_then Spec.seq_member_item (list_last members.now) }
{
    seq_member_item(last_seq_member(members)?)
}

/// The item whose Data may be cut: that of Results, of an Add or Replace, and of a container's last member where it is
/// an Add or Replace. None comes exactly where there is none of these, or where it hasn't exactly one item.
pub fn cut_item(command: &Command) -> Option<&Item>
    ensures { option_map (λ item. item.now) result ≡ Spec.cut_item command.now }
{
    match command {
        Command::Plain(c) => written_item(c.verb, c.items.as_slice()),
        Command::Atomic(block) => atomic_item(block.members.as_slice()),
        Command::Sequence(block) => sequence_item(block.members.as_slice()),
        Command::Results(c) => the_item(c.items.as_slice()),
        Command::Alert(_) => None,
        Command::Status(_) => None,
    }
}

// The Data of the item that may be cut, or nothing.
fn cut_data(command: &Command) -> &[u8]
    ensures { result.now ≡ Spec.cut_data command.now }
{
    match cut_item(command) {
        None => &[],
        Some(item) => match &item.value {
            None => &[],
            Some(value) => value.as_slice(),
        },
    }
}

/// How many bytes a command has in canonical spelling, where it begins on a page, all but the token of the Data that
/// may be cut (`data_length`); and the page after it.
#[tactic(auto, using(crate::proofs::Rest::rest_counted, crate::proofs::Short::short_cut))]
pub fn rest_length(page: u8, command: &Command) -> (u64, u8)
    requires short { HasShortItems command.now }
    requires some { 0 < length (Spec.cut_data command.now) }
    requires fits { length (spelled page (command_tokens command.now)) < 2 ^ 64 }
    ensures length { result.0 ≡ Spec.rest_length page command.now }
    ensures page { result.1 ≡ page_behind page (command_tokens command.now) }
{
    let (whole, behind) = command_length(page, command);
    let token = data_length(cut_data(command));
    (whole - token, behind)
}

/// A spelling is taken apart into those of its head, its commands and its tail, each from the page behind those before
/// it on.
#[tactic(auto, using(crate::proofs::Parted::spells_in_parts, crate::proofs::Parted::spells_commands))]
pub fn spellings_are_parted()
    ensures message { SpellsInParts }
    ensures commands { SpellsCommands }
{}

/// How much longer a token that holds Data is than the Data.
#[tactic(auto, using(crate::proofs::Parted::bounds_data))]
pub fn data_is_bounded()
    ensures { BoundsData }
{}

/// A command is as long as the token of the Data that may be cut, where that isn't empty, and all the rest, which
/// doesn't depend on it.
#[tactic(auto, using(crate::proofs::Rest::rest_and_data))]
pub fn rest_and_data()
    ensures { RestAndData }
{}

/// The page behind tokens depends on the elements alone that they open, so numbers, texts and Data don't change it:
/// neither the CmdIDs of a command nor the Data that may be cut, nor a header's session, number and secret.
#[tactic(auto, using(crate::proofs::Pages::pages_follow_elements, crate::proofs::Pages::page_without_numbers, crate::proofs::Pages::header_page))]
pub fn pages_follow_elements()
    ensures elements { PagesFollowElements }
    ensures numbers { PageWithoutNumbers }
    ensures data { PageWithoutData }
    ensures header { HeaderPage }
{}
