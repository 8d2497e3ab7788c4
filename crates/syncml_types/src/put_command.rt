// The canonical tokens of commands, given to a writer of any kind.
ghost use Rattle.std.specs.Prelude.{◌≡◌, OnOk};
ghost use Rattle.std.specs.List.{AllByRecursion};
ghost use Rattle.wbxml_tokens.specs.Spelling.{given};
ghost use Rattle.syncml_types.specs.Message.{HasShortData, HasShortMember, HasShortSeqMember, HasShortItems};
ghost use Rattle.syncml_types.specs.Canonical.{block_head, verb_element, plain_tokens, alert_tokens, member_tokens};
ghost use Rattle.syncml_types.specs.Canonical.{members_tokens, atomic_tokens, seq_member_tokens, seq_members_tokens};
ghost use Rattle.syncml_types.specs.Canonical.{sequence_tokens, status_tokens, results_tokens, command_tokens};
ghost use Rattle.syncml_types.specs.Canonical.{commands_tokens, number_tokens, optional};
ghost use Rattle.wbxml_tables.specs.declared.Element.TheVariants.{EMsgRef};

use crate::command::{
    AlertCmd, Block, Command, Member, Plain, ResultsCmd, SeqMember, StatusCmd, Verb,
};
use crate::put_value::{
    put_flag, put_items, put_number, put_option_chal, put_option_meta, put_option_text, put_text,
    put_texts,
};
use dm_base::List;
use wbxml_tables::Element;
use wbxml_tokens::Writer;

fn element_of(verb: Verb) -> Element
    ensures { result ≡ verb_element verb }
{
    match verb {
        Verb::Add => Element::EAdd,
        Verb::Copy => Element::ECopy,
        Verb::Delete => Element::EDelete,
        Verb::Exec => Element::EExec,
        Verb::Get => Element::EGet,
        Verb::Replace => Element::EReplace,
    }
}

/// Gives a command on the management tree, with a CmdID.
#[tactic(auto, using(crate::proofs::Given::given_append), unfolding(crate::specs::Canonical::plain_tokens))]
pub fn put_plain_as<W: Writer>(w: &mut W, c: &Plain, id: u32) -> Result<(), W::Error>
    requires { AllByRecursion HasShortData c.now.items }
    ensures { OnOk result (w.new ≡ given W.after w.old (plain_tokens (record c.now { id = id }))) }
{
    w.tag(element_of(c.verb), true)?;
    put_number(w, Element::ECmdID, id as u64)?;
    put_flag(w, Element::ENoResp, c.no_resp)?;
    put_option_meta(w, &c.meta)?;
    put_option_text(w, Element::ECorrelator, &c.correlator)?;
    put_items(w, &c.items)?;
    w.end()
}

/// Gives an Alert, with a CmdID.
#[tactic(auto, using(crate::proofs::Given::given_append), unfolding(crate::specs::Canonical::alert_tokens))]
pub fn put_alert_as<W: Writer>(w: &mut W, c: &AlertCmd, id: u32) -> Result<(), W::Error>
    requires { AllByRecursion HasShortData c.now.items }
    ensures { OnOk result (w.new ≡ given W.after w.old (alert_tokens (record c.now { id = id }))) }
{
    w.tag(Element::EAlert, true)?;
    put_number(w, Element::ECmdID, id as u64)?;
    put_flag(w, Element::ENoResp, c.no_resp)?;
    put_number(w, Element::EData, c.code as u64)?;
    put_option_text(w, Element::ECorrelator, &c.correlator)?;
    put_items(w, &c.items)?;
    w.end()
}

/// Gives a member of a container.
#[tactic(auto, unfolding(crate::specs::Canonical::member_tokens))]
pub fn put_member<W: Writer>(w: &mut W, member: &Member) -> Result<(), W::Error>
    requires { HasShortMember member.now }
    ensures { OnOk result (w.new ≡ given W.after w.old (member_tokens member.now)) }
{
    match member {
        Member::One(c) => put_plain_as(w, c, c.id),
        Member::Alert(c) => put_alert_as(w, c, c.id),
    }
}

// Gives the members of an Atomic.
#[tactic(auto, using(crate::proofs::Given::given_append), unfolding(crate::specs::Canonical::members_tokens))]
fn put_members<W: Writer>(w: &mut W, members: &List<Member>) -> Result<(), W::Error>
    requires { AllByRecursion HasShortMember members.now }
    ensures { OnOk result (w.new ≡ given W.after w.old (members_tokens members.now)) }
{
    for member in members.as_slice() {
        put_member(w, member)?;
    }
    Ok(())
}

/// Gives a container with a CmdID, up to its first member.
#[tactic(auto, using(crate::proofs::Given::given_append))]
pub fn put_block_head<W: Writer, M>(
    w: &mut W,
    element: Element,
    block: &Block<M>,
    id: u32,
) -> Result<(), W::Error>
    ensures { OnOk result (w.new ≡ given W.after w.old (block_head element id block.now)) }
{
    w.tag(element, true)?;
    put_number(w, Element::ECmdID, id as u64)?;
    put_flag(w, Element::ENoResp, block.no_resp)?;
    put_option_meta(w, &block.meta)
}

/// Gives an Atomic.
#[tactic(auto, using(crate::proofs::Given::given_append), unfolding(crate::specs::Canonical::atomic_tokens))]
pub fn put_atomic<W: Writer>(w: &mut W, block: &Block<Member>) -> Result<(), W::Error>
    requires { AllByRecursion HasShortMember block.now.members }
    ensures { OnOk result (w.new ≡ given W.after w.old (atomic_tokens block.now)) }
{
    put_block_head(w, Element::EAtomic, block, block.id)?;
    put_members(w, &block.members)?;
    w.end()
}

/// Gives a member of a Sequence.
#[tactic(auto, unfolding(crate::specs::Canonical::seq_member_tokens))]
pub fn put_seq_member<W: Writer>(w: &mut W, member: &SeqMember) -> Result<(), W::Error>
    requires { HasShortSeqMember member.now }
    ensures { OnOk result (w.new ≡ given W.after w.old (seq_member_tokens member.now)) }
{
    match member {
        SeqMember::Single(member) => put_member(w, member),
        SeqMember::Atomic(block) => put_atomic(w, block),
    }
}

// Gives the members of a Sequence.
#[tactic(auto, using(crate::proofs::Given::given_append), unfolding(crate::specs::Canonical::seq_members_tokens))]
fn put_seq_members<W: Writer>(w: &mut W, members: &List<SeqMember>) -> Result<(), W::Error>
    requires { AllByRecursion HasShortSeqMember members.now }
    ensures { OnOk result (w.new ≡ given W.after w.old (seq_members_tokens members.now)) }
{
    for member in members.as_slice() {
        put_seq_member(w, member)?;
    }
    Ok(())
}

/// Gives a Sequence.
#[tactic(auto, using(crate::proofs::Given::given_append), unfolding(crate::specs::Canonical::sequence_tokens))]
pub fn put_sequence<W: Writer>(w: &mut W, block: &Block<SeqMember>) -> Result<(), W::Error>
    requires { AllByRecursion HasShortSeqMember block.now.members }
    ensures { OnOk result (w.new ≡ given W.after w.old (sequence_tokens block.now)) }
{
    put_block_head(w, Element::ESequence, block, block.id)?;
    put_seq_members(w, &block.members)?;
    w.end()
}

/// Gives a Status, with a CmdID.
#[tactic(auto, using(crate::proofs::Given::given_append), unfolding(crate::specs::Canonical::status_tokens))]
pub fn put_status_as<W: Writer>(w: &mut W, c: &StatusCmd, id: u32) -> Result<(), W::Error>
    requires { AllByRecursion HasShortData c.now.items }
    ensures { OnOk result (w.new ≡ given W.after w.old (status_tokens (record c.now { id = id }))) }
{
    w.tag(Element::EStatus, true)?;
    put_number(w, Element::ECmdID, id as u64)?;
    put_number(w, Element::EMsgRef, c.msg_ref as u64)?;
    put_number(w, Element::ECmdRef, c.cmd_ref as u64)?;
    put_text(w, Element::ECmd, c.cmd.as_slice())?;
    put_texts(w, Element::ETargetRef, &c.target_refs)?;
    put_texts(w, Element::ESourceRef, &c.source_refs)?;
    put_option_chal(w, &c.chal)?;
    put_number(w, Element::EData, c.code as u64)?;
    put_items(w, &c.items)?;
    w.end()
}

// The number of a message that may be absent.
fn put_option_msg_ref<W: Writer>(w: &mut W, number: Option<u32>) -> Result<(), W::Error>
    ensures { OnOk result (w.new ≡ given W.after w.old (optional (number_tokens EMsgRef) number)) }
{
    match number {
        None => Ok(()),
        Some(number) => put_number(w, Element::EMsgRef, number as u64),
    }
}

/// Gives Results, with a CmdID.
#[tactic(auto, using(crate::proofs::Given::given_append), unfolding(crate::specs::Canonical::results_tokens))]
pub fn put_results_as<W: Writer>(w: &mut W, c: &ResultsCmd, id: u32) -> Result<(), W::Error>
    requires { AllByRecursion HasShortData c.now.items }
    ensures { OnOk result (w.new ≡ given W.after w.old (results_tokens (record c.now { id = id }))) }
{
    w.tag(Element::EResults, true)?;
    put_number(w, Element::ECmdID, id as u64)?;
    put_option_msg_ref(w, c.msg_ref)?;
    put_number(w, Element::ECmdRef, c.cmd_ref as u64)?;
    put_option_meta(w, &c.meta)?;
    put_option_text(w, Element::ETargetRef, &c.target_ref)?;
    put_option_text(w, Element::ESourceRef, &c.source_ref)?;
    put_items(w, &c.items)?;
    w.end()
}

/// Gives a command.
#[tactic(auto, unfolding(crate::specs::Canonical::command_tokens))]
pub fn put_command<W: Writer>(w: &mut W, c: &Command) -> Result<(), W::Error>
    requires { HasShortItems c.now }
    ensures { OnOk result (w.new ≡ given W.after w.old (command_tokens c.now)) }
{
    match c {
        Command::Plain(c) => put_plain_as(w, c, c.id),
        Command::Alert(c) => put_alert_as(w, c, c.id),
        Command::Atomic(block) => put_atomic(w, block),
        Command::Sequence(block) => put_sequence(w, block),
        Command::Status(c) => put_status_as(w, c, c.id),
        Command::Results(c) => put_results_as(w, c, c.id),
    }
}

/// Gives commands, one after the other.
#[tactic(auto, using(crate::proofs::Given::given_append), unfolding(crate::specs::Canonical::commands_tokens))]
pub fn put_commands<W: Writer>(w: &mut W, commands: &List<Command>) -> Result<(), W::Error>
    requires { AllByRecursion HasShortItems commands.now }
    ensures { OnOk result (w.new ≡ given W.after w.old (commands_tokens commands.now)) }
{
    for command in commands.as_slice() {
        put_command(w, command)?;
    }
    Ok(())
}
