// Whether the texts of a message, all but its Data, are UTF-8 without byte 00. Nothing here takes memory.
ghost use Rattle.std.specs.Prelude.{◌≡◌};
ghost use Rattle.std.specs.List.{list_all};
ghost use Rattle.syncml_types.specs.Canonical.{is_text};
ghost use Rattle.syncml_types.specs.Fitness as Spec;
ghost use Rattle.syncml_types.specs.Fitness.{all_of, message_texts};

use crate::command::{AlertCmd, Block, Command, Member, Plain, ResultsCmd, SeqMember, StatusCmd};
use crate::put_value::is_plain_text;
use crate::values::{Cred, Header, Item, Loc, Meta};
use dm_base::{Boxed, Bytes, List};

fn option_texts(text: &Option<Bytes>) -> bool
    ensures { result ≡ all_of is_text text.now }
{
    match text {
        None => true,
        Some(text) => is_plain_text(text.as_slice()),
    }
}

fn list_texts(texts: &List<Bytes>) -> bool
    ensures { result ≡ list_all is_text texts.now }
{
    texts
        .as_slice()
        .iter()
        .all(|text| is_plain_text(text.as_slice()))
}

#[tactic(auto, unfolding(crate::specs::Fitness::loc_texts))]
fn loc_texts(loc: &Loc) -> bool
    ensures { result ≡ Spec.loc_texts is_text loc.now }
{
    is_plain_text(loc.uri.as_slice()) && option_texts(&loc.name)
}

fn option_loc_texts(loc: &Option<Loc>) -> bool
    ensures { result ≡ all_of (Spec.loc_texts is_text) loc.now }
{
    match loc {
        None => true,
        Some(loc) => loc_texts(loc),
    }
}

#[tactic(auto, unfolding(crate::specs::Fitness::meta_texts))]
fn meta_texts(meta: &Meta) -> bool
    ensures { result ≡ Spec.meta_texts is_text meta.now }
{
    option_texts(&meta.format)
        && option_texts(&meta.media)
        && option_texts(&meta.next_nonce)
        && option_texts(&meta.mark)
        && option_texts(&meta.version)
}

fn option_meta_texts(meta: &Option<Boxed<Meta>>) -> bool
    ensures { result ≡ all_of (Spec.meta_texts is_text) meta.now }
{
    match meta {
        None => true,
        Some(meta) => meta_texts(&meta.inner),
    }
}

#[tactic(auto, unfolding(crate::specs::Fitness::item_texts))]
fn item_texts(item: &Item) -> bool
    ensures { result ≡ Spec.item_texts is_text item.now }
{
    option_loc_texts(&item.target)
        && option_loc_texts(&item.source)
        && option_meta_texts(&item.meta)
}

fn items_texts(items: &List<Item>) -> bool
    ensures { result ≡ list_all (Spec.item_texts is_text) items.now }
{
    items.as_slice().iter().all(|item| item_texts(item))
}

#[tactic(auto, unfolding(crate::specs::Fitness::cred_texts))]
fn option_cred_texts(cred: &Option<Cred>) -> bool
    ensures { result ≡ all_of (Spec.cred_texts is_text) cred.now }
{
    match cred {
        None => true,
        Some(cred) => option_meta_texts(&cred.meta),
    }
}

#[tactic(auto, unfolding(crate::specs::Fitness::header_texts))]
fn header_texts(h: &Header) -> bool
    ensures { result ≡ Spec.header_texts is_text h.now }
{
    is_plain_text(h.dtd.as_slice())
        && is_plain_text(h.proto.as_slice())
        && is_plain_text(h.session.as_slice())
        && loc_texts(&h.target)
        && loc_texts(&h.source)
        && option_texts(&h.resp_uri)
        && option_cred_texts(&h.cred)
        && option_meta_texts(&h.meta)
}

#[tactic(auto, unfolding(crate::specs::Fitness::plain_texts))]
fn plain_texts(c: &Plain) -> bool
    ensures { result ≡ Spec.plain_texts is_text c.now }
{
    option_meta_texts(&c.meta) && option_texts(&c.correlator) && items_texts(&c.items)
}

#[tactic(auto, unfolding(crate::specs::Fitness::alert_texts))]
fn alert_texts(c: &AlertCmd) -> bool
    ensures { result ≡ Spec.alert_texts is_text c.now }
{
    option_texts(&c.correlator) && items_texts(&c.items)
}

#[tactic(auto, unfolding(crate::specs::Fitness::member_texts))]
fn member_texts(member: &Member) -> bool
    ensures { result ≡ Spec.member_texts is_text member.now }
{
    match member {
        Member::One(c) => plain_texts(c),
        Member::Alert(c) => alert_texts(c),
    }
}

fn members_texts(members: &List<Member>) -> bool
    ensures { result ≡ list_all (Spec.member_texts is_text) members.now }
{
    members.as_slice().iter().all(|member| member_texts(member))
}

#[tactic(auto, unfolding(crate::specs::Fitness::atomic_texts))]
fn atomic_texts(block: &Block<Member>) -> bool
    ensures { result ≡ Spec.atomic_texts is_text block.now }
{
    option_meta_texts(&block.meta) && members_texts(&block.members)
}

#[tactic(auto, unfolding(crate::specs::Fitness::seq_member_texts))]
fn seq_member_texts(member: &SeqMember) -> bool
    ensures { result ≡ Spec.seq_member_texts is_text member.now }
{
    match member {
        SeqMember::Single(member) => member_texts(member),
        SeqMember::Atomic(block) => atomic_texts(block),
    }
}

fn seq_members_texts(members: &List<SeqMember>) -> bool
    ensures { result ≡ list_all (Spec.seq_member_texts is_text) members.now }
{
    members
        .as_slice()
        .iter()
        .all(|member| seq_member_texts(member))
}

#[tactic(auto, unfolding(crate::specs::Fitness::sequence_texts))]
fn sequence_texts(block: &Block<SeqMember>) -> bool
    ensures { result ≡ Spec.sequence_texts is_text block.now }
{
    option_meta_texts(&block.meta) && seq_members_texts(&block.members)
}

#[tactic(auto, unfolding(crate::specs::Fitness::status_texts))]
fn status_texts(c: &StatusCmd) -> bool
    ensures { result ≡ Spec.status_texts is_text c.now }
{
    is_plain_text(c.cmd.as_slice())
        && list_texts(&c.target_refs)
        && list_texts(&c.source_refs)
        && option_meta_texts(&c.chal)
        && items_texts(&c.items)
}

#[tactic(auto, unfolding(crate::specs::Fitness::results_texts))]
fn results_texts(c: &ResultsCmd) -> bool
    ensures { result ≡ Spec.results_texts is_text c.now }
{
    option_meta_texts(&c.meta)
        && option_texts(&c.target_ref)
        && option_texts(&c.source_ref)
        && items_texts(&c.items)
}

#[tactic(auto, unfolding(crate::specs::Fitness::command_texts))]
fn command_texts(command: &Command) -> bool
    ensures { result ≡ Spec.command_texts is_text command.now }
{
    match command {
        Command::Plain(c) => plain_texts(c),
        Command::Alert(c) => alert_texts(c),
        Command::Atomic(block) => atomic_texts(block),
        Command::Sequence(block) => sequence_texts(block),
        Command::Status(c) => status_texts(c),
        Command::Results(c) => results_texts(c),
    }
}

fn commands_texts(body: &[Command]) -> bool
    ensures { result ≡ list_all (Spec.command_texts is_text) body.now }
{
    body.iter().all(|command| command_texts(command))
}

pub(crate) fn has_plain_texts(header: &Header, body: &[Command]) -> bool
    ensures { result ≡ message_texts is_text header.now body.now }
{
    header_texts(header) && commands_texts(body)
}
