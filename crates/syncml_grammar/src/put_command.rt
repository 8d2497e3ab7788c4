// What a command puts into the body or the block that it ends in. What a call takes from a box it replaces by what a
// new one has, in a function of its own, since each function pays at its entry for its largest locals.
ghost use Rattle.std.specs.Prelude.{◌≡◌, ◌∷◌, ◌++◌, [], false, OnOk};
ghost use Rattle.syncml_types.specs.declared.command.Command.TheVariants as command;
ghost use Rattle.syncml_types.specs.declared.command.Member.TheVariants as member;
ghost use Rattle.syncml_types.specs.declared.command.SeqMember.TheVariants as seq_member;
ghost use Rattle.syncml_grammar.specs.declared.draft.Draft.TheVariants as drafts;
ghost use Rattle.syncml_grammar.specs.Nodes.{with_inner, is_document};

use crate::draft::{Draft, new_alert, new_block, new_plain, new_results, new_status};
use crate::spare::Spares;
use dm_base::{Boxed, List, Memory};
use std::alloc::Global;
use std::mem;
use syncml_types::{AlertCmd, Block, Command, Member, Plain, ResultsCmd, SeqMember, StatusCmd};
use wbxml_tables::Element;

fn push_plain(alloc: Global, commands: &mut List<Command>, plain: &mut Plain) -> Result<(), Memory>
    ensures { OnOk result (commands.new ≡ commands.old ++ command.Plain plain.old ∷ []) }
{
    let verb = plain.verb;
    commands.push(Command::Plain(mem::replace(plain, new_plain(alloc, verb))))
}

fn push_one(alloc: Global, members: &mut List<Member>, plain: &mut Plain) -> Result<(), Memory>
    ensures { OnOk result (members.new ≡ members.old ++ member.One plain.old ∷ []) }
{
    let verb = plain.verb;
    members.push(Member::One(mem::replace(plain, new_plain(alloc, verb))))
}

fn push_single(
    alloc: Global,
    members: &mut List<SeqMember>,
    plain: &mut Plain,
) -> Result<(), Memory>
    ensures { OnOk result (members.new ≡ members.old ++ seq_member.Single (member.One plain.old) ∷ []) }
{
    let verb = plain.verb;
    let plain = mem::replace(plain, new_plain(alloc, verb));
    members.push(SeqMember::Single(Member::One(plain)))
}

pub(crate) fn put_plain(
    spares: &mut Spares,
    draft: &mut Draft,
    element: Element,
    mut plain: Boxed<Plain>,
) -> Result<(), Memory>
    requires { is_document draft.old ≡ false }
    ensures { OnOk result (draft.new ≡ with_inner draft.old element (drafts.Plain plain)) }
{
    let alloc = spares.alloc;
    match draft {
        Draft::Body(body) => push_plain(alloc, &mut body.inner.commands, &mut plain.inner)?,
        Draft::Atomic(block) => push_one(alloc, &mut block.inner.members, &mut plain.inner)?,
        Draft::Sequence(block) => push_single(alloc, &mut block.inner.members, &mut plain.inner)?,
        _ => {}
    }
    spares.plain = Some(plain);
    Ok(())
}

fn take_alert(alloc: Global, alert: &mut AlertCmd) -> AlertCmd
    ensures { result ≡ alert.old }
{
    mem::replace(alert, new_alert(alloc))
}

pub(crate) fn put_alert(
    spares: &mut Spares,
    draft: &mut Draft,
    element: Element,
    mut ended: Boxed<AlertCmd>,
) -> Result<(), Memory>
    requires { is_document draft.old ≡ false }
    ensures { OnOk result (draft.new ≡ with_inner draft.old element (drafts.Alert ended)) }
{
    let alert = take_alert(spares.alloc, &mut ended.inner);
    spares.alert = Some(ended);
    match draft {
        Draft::Body(body) => body.inner.commands.push(Command::Alert(alert)),
        Draft::Atomic(block) => block.inner.members.push(Member::Alert(alert)),
        Draft::Sequence(block) => block
            .inner
            .members
            .push(SeqMember::Single(Member::Alert(alert))),
        _ => {
            drop(alert);
            Ok(())
        }
    }
}

fn take_block<M: Drop>(alloc: Global, block: &mut Block<M>) -> Block<M>
    ensures { result ≡ block.old }
{
    mem::replace(block, new_block(alloc))
}

pub(crate) fn put_atomic(
    spares: &mut Spares,
    draft: &mut Draft,
    element: Element,
    mut ended: Boxed<Block<Member>>,
) -> Result<(), Memory>
    requires { is_document draft.old ≡ false }
    ensures { OnOk result (draft.new ≡ with_inner draft.old element (drafts.Atomic ended)) }
{
    let block = take_block(spares.alloc, &mut ended.inner);
    spares.atomic = Some(ended);
    match draft {
        Draft::Body(body) => body.inner.commands.push(Command::Atomic(block)),
        Draft::Sequence(sequence) => sequence.inner.members.push(SeqMember::Atomic(block)),
        _ => {
            drop(block);
            Ok(())
        }
    }
}

pub(crate) fn put_sequence(
    spares: &mut Spares,
    draft: &mut Draft,
    element: Element,
    mut ended: Boxed<Block<SeqMember>>,
) -> Result<(), Memory>
    requires { is_document draft.old ≡ false }
    ensures { OnOk result (draft.new ≡ with_inner draft.old element (drafts.Sequence ended)) }
{
    let block = take_block(spares.alloc, &mut ended.inner);
    spares.sequence = Some(ended);
    match draft {
        Draft::Body(body) => body.inner.commands.push(Command::Sequence(block)),
        _ => {
            drop(block);
            Ok(())
        }
    }
}

fn push_status(
    alloc: Global,
    commands: &mut List<Command>,
    status: &mut StatusCmd,
) -> Result<(), Memory>
    ensures { OnOk result (commands.new ≡ commands.old ++ command.Status status.old ∷ []) }
{
    commands.push(Command::Status(mem::replace(status, new_status(alloc))))
}

pub(crate) fn put_status(
    spares: &mut Spares,
    draft: &mut Draft,
    element: Element,
    mut status: Boxed<StatusCmd>,
) -> Result<(), Memory>
    requires { is_document draft.old ≡ false }
    ensures { OnOk result (draft.new ≡ with_inner draft.old element (drafts.Status status)) }
{
    let alloc = spares.alloc;
    match draft {
        Draft::Body(body) => push_status(alloc, &mut body.inner.commands, &mut status.inner)?,
        _ => {}
    }
    spares.status = Some(status);
    Ok(())
}

fn push_results(
    alloc: Global,
    commands: &mut List<Command>,
    results: &mut ResultsCmd,
) -> Result<(), Memory>
    ensures { OnOk result (commands.new ≡ commands.old ++ command.Results results.old ∷ []) }
{
    commands.push(Command::Results(mem::replace(results, new_results(alloc))))
}

pub(crate) fn put_results(
    spares: &mut Spares,
    draft: &mut Draft,
    element: Element,
    mut results: Boxed<ResultsCmd>,
) -> Result<(), Memory>
    requires { is_document draft.old ≡ false }
    ensures { OnOk result (draft.new ≡ with_inner draft.old element (drafts.Results results)) }
{
    let alloc = spares.alloc;
    match draft {
        Draft::Body(body) => push_results(alloc, &mut body.inner.commands, &mut results.inner)?,
        _ => {}
    }
    spares.results = Some(results);
    Ok(())
}
