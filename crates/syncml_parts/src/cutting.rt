// The item that may be cut, for writing.
ghost use Rattle.std.specs.Prelude.{◌≡◌, option_and_then};
ghost use Rattle.std.specs.Option.{option_copied_mut};
ghost use Rattle.std.specs.Borrow.{sem};
ghost use Rattle.syncml_parts.specs.Lends.{lends_last, lends_only, lends_written, lends_in_member, lends_in_seq_member};
ghost use Rattle.syncml_parts.specs.Lends.{lends_in_members, lends_in_seq_members, lends_cut};
ghost use Rattle.syncml_parts.specs.Packing as Spec;
ghost use Rattle.syncml_parts.specs.Packing.{list_last, only_item, write_item};

use dm_base::List;
use syncml_types::{Command, Item, Member, SeqMember, Verb};

fn last_mut<T>(list: &mut List<T>) -> Option<&mut T>
    ensures* writes_back { sem 𝓛 (lends_last T.row list.entry result) }
    ensures value { option_copied_mut result ≡ list_last list.old }
{
    let count = list.len();
    if count == 0 {
        return None;
    }
    list.get_mut(count - 1)
}

fn the_item(items: &mut List<Item>) -> Option<&mut Item>
    ensures* writes_back { sem 𝓛 (lends_only items.entry result) }
    ensures value { option_copied_mut result ≡ only_item items.old }
{
    if items.len() != 1 {
        return None;
    }
    items.first_mut()
}

fn written_item(items: &mut List<Item>, verb: Verb) -> Option<&mut Item>
    ensures* writes_back { sem 𝓛 (lends_written verb items.entry result) }
    ensures value { option_copied_mut result ≡ write_item verb items.old }
{
    match verb {
        Verb::Add | Verb::Replace => the_item(items),
        _ => None,
    }
}

fn member_item(member: &mut Member) -> Option<&mut Item>
    ensures* writes_back { sem 𝓛 (lends_in_member member.entry result) }
    ensures value { option_copied_mut result ≡ Spec.member_item member.old }
{
    match member {
        Member::One(c) => {
            let verb = c.verb;
            written_item(&mut c.items, verb)
        }
        Member::Alert(_) => None,
    }
}

fn seq_member_item(member: &mut SeqMember) -> Option<&mut Item>
    ensures* writes_back { sem 𝓛 (lends_in_seq_member member.entry result) }
    ensures value { option_copied_mut result ≡ Spec.seq_member_item member.old }
{
    match member {
        SeqMember::Single(member) => member_item(member),
        SeqMember::Atomic(_) => None,
    }
}

fn atomic_item(members: &mut List<Member>) -> Option<&mut Item>
    ensures* writes_back { sem 𝓛 (lends_in_members members.entry result) }
    ensures value { option_copied_mut result ≡ option_and_then Spec.member_item (list_last members.old) }
{
    member_item(last_mut(members)?)
}

fn sequence_item(members: &mut List<SeqMember>) -> Option<&mut Item>
    ensures* writes_back { sem 𝓛 (lends_in_seq_members members.entry result) }
    ensures value { option_copied_mut result ≡ option_and_then Spec.seq_member_item (list_last members.old) }
{
    seq_member_item(last_mut(members)?)
}

/// The item whose Data may be cut, as `cut_item` says, for writing: the command ends with what was written and is
/// otherwise as before. It takes no memory.
pub fn cut_item_mut(command: &mut Command) -> Option<&mut Item>
    ensures* writes_back { sem 𝓛 (lends_cut command.entry result) }
    ensures value { option_copied_mut result ≡ Spec.cut_item command.old }
{
    match command {
        Command::Plain(c) => {
            let verb = c.verb;
            written_item(&mut c.items, verb)
        }
        Command::Atomic(block) => atomic_item(&mut block.members),
        Command::Sequence(block) => sequence_item(&mut block.members),
        Command::Results(c) => the_item(&mut c.items),
        Command::Alert(_) => None,
        Command::Status(_) => None,
    }
}
