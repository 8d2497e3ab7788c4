// The ranges of a message's numbers follow from the types that hold them. Nothing here takes memory.
ghost use Rattle.std.specs.Prelude.{IfSome};
ghost use Rattle.std.specs.List.{AllByRecursion};
ghost use Rattle.syncml_codec.specs.Ranges.{IsShortNumber, IsLongNumber, MetaRange, ItemRange, CredRange, HeaderRange};
ghost use Rattle.syncml_codec.specs.Ranges.{PlainRange};
ghost use Rattle.syncml_codec.specs.Ranges.{AlertRange, MemberRange, AtomicRange, SeqMemberRange, SequenceRange};
ghost use Rattle.syncml_codec.specs.Ranges.{StatusRange, ResultsRange, CommandRange, AreNumbers};

use dm_base::Boxed;
use syncml_types::{
    AlertCmd, Block, Command, Cred, Header, Item, Member, Message, Meta, Plain, ResultsCmd,
    SeqMember, StatusCmd,
};

fn is_short(number: Option<u32>)
    ensures { IfSome number IsShortNumber }
{}

fn is_long(number: Option<u64>)
    ensures { IfSome number IsLongNumber }
{}

fn meta_range(meta: &Meta)
    ensures { MetaRange meta.now }
{
    is_long(meta.size);
    is_long(meta.max_msg);
    is_long(meta.max_obj);
}

fn option_meta_range(meta: &Option<Boxed<Meta>>)
    ensures { IfSome meta.now MetaRange }
{
    match meta {
        None => {}
        Some(meta) => meta_range(&meta.inner),
    }
}

#[tactic(auto, using(crate::proofs::Walks::one_told, crate::proofs::Walks::all_told))]
fn items_range(items: &[Item])
    ensures { AllByRecursion ItemRange items.now }
{
    for item in items {
        option_meta_range(&item.meta);
    }
}

fn option_cred_range(cred: &Option<Cred>)
    ensures { IfSome cred.now CredRange }
{
    match cred {
        None => {}
        Some(cred) => option_meta_range(&cred.meta),
    }
}

fn header_range(header: &Header)
    ensures { HeaderRange header.now }
{
    let _msg = header.msg;
    option_cred_range(&header.cred);
    option_meta_range(&header.meta);
}

fn plain_range(command: &Plain)
    ensures { PlainRange command.now }
{
    let _id = command.id;
    option_meta_range(&command.meta);
    items_range(command.items.as_slice());
}

fn alert_range(alert: &AlertCmd)
    ensures { AlertRange alert.now }
{
    let _id = alert.id;
    let _code = alert.code;
    items_range(alert.items.as_slice());
}

fn member_range(member: &Member)
    ensures { MemberRange member.now }
{
    match member {
        Member::One(command) => plain_range(command),
        Member::Alert(alert) => alert_range(alert),
    }
}

#[tactic(auto, using(crate::proofs::Walks::one_told, crate::proofs::Walks::all_told))]
fn members_range(members: &[Member])
    ensures { AllByRecursion MemberRange members.now }
{
    for member in members {
        member_range(member);
    }
}

fn atomic_range(block: &Block<Member>)
    ensures { AtomicRange block.now }
{
    let _id = block.id;
    option_meta_range(&block.meta);
    members_range(block.members.as_slice());
}

fn seq_member_range(member: &SeqMember)
    ensures { SeqMemberRange member.now }
{
    match member {
        SeqMember::Single(member) => member_range(member),
        SeqMember::Atomic(block) => atomic_range(block),
    }
}

#[tactic(auto, using(crate::proofs::Walks::one_told, crate::proofs::Walks::all_told))]
fn seq_members_range(members: &[SeqMember])
    ensures { AllByRecursion SeqMemberRange members.now }
{
    for member in members {
        seq_member_range(member);
    }
}

fn sequence_range(block: &Block<SeqMember>)
    ensures { SequenceRange block.now }
{
    let _id = block.id;
    option_meta_range(&block.meta);
    seq_members_range(block.members.as_slice());
}

fn status_range(status: &StatusCmd)
    ensures { StatusRange status.now }
{
    let _id = status.id;
    let _msg_ref = status.msg_ref;
    let _cmd_ref = status.cmd_ref;
    let _code = status.code;
    option_meta_range(&status.chal);
    items_range(status.items.as_slice());
}

fn results_range(results: &ResultsCmd)
    ensures { ResultsRange results.now }
{
    let _id = results.id;
    let _cmd_ref = results.cmd_ref;
    is_short(results.msg_ref);
    option_meta_range(&results.meta);
    items_range(results.items.as_slice());
}

fn command_range(command: &Command)
    ensures { CommandRange command.now }
{
    match command {
        Command::Plain(command) => plain_range(command),
        Command::Alert(alert) => alert_range(alert),
        Command::Atomic(block) => atomic_range(block),
        Command::Sequence(block) => sequence_range(block),
        Command::Status(status) => status_range(status),
        Command::Results(results) => results_range(results),
    }
}

#[tactic(auto, using(crate::proofs::Walks::one_told, crate::proofs::Walks::all_told))]
fn commands_range(commands: &[Command])
    ensures { AllByRecursion CommandRange commands.now }
{
    for command in commands {
        command_range(command);
    }
}

/// A law over messages: each number of one is in the range of its type, which a walk over it tells.
pub fn numbers_are_in_range(message: &Message)
    ensures { AreNumbers message.now }
{
    header_range(message.header());
    commands_range(message.body().as_slice());
}
