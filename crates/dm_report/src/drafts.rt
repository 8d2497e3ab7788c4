// What a message tells, before it is put to what is kept.
ghost use Rattle.std.specs.Prelude.{◌≡◌, ◌<◌, IfOk, OnOk};
ghost use Rattle.dm_service.specs.Laws.{AreInOrder};
ghost use Rattle.dm_service.specs.Matching as Spec;
ghost use Rattle.dm_report.specs.declared.kept.Kept.{Kept as AKept};
ghost use Rattle.dm_objects.specs.Seen.{Seen};
ghost use Rattle.dm_report.specs.Known.{matched_of};
ghost use Rattle.dm_report.specs.Kept.{known_of};
ghost use Rattle.dm_report.specs.Receiving.{gathered_of, Comes, HoldsOn};
ghost use Rattle.dm_report.specs.Sending.{AreCommands};
ghost use Rattle.dm_report.specs.Notes.{NotesMatched, matched_by, on_finding};

use crate::kept::FoundValue;
use crate::pieces::{kept_alert, result_piece};
use crate::sending::{find_sent, sent_for};
use dm_base::{List, Memory};
use dm_objects::{Inbox, Piece, What};
use dm_service::{KeptAlert, Sent};
use std::alloc::Global;
use syncml_types::{AlertCmd, Command, Item, ResultsCmd, StatusCmd};

/// A code that a Status tells of the command at a place in the job, from 0.
#[derive(Drop)]
pub(crate) struct NewCode {
    pub place: usize,
    pub code: u32,
}

/// What the commands of a message tell.
#[derive(Drop)]
pub(crate) struct Findings {
    pub codes: List<NewCode>,
    pub found: List<FoundValue>,
    pub alerts: List<KeptAlert>,
}

// What a piece comes to. A whole value isn't copied where nothing is unfinished.
fn what_comes(inbox: &mut Inbox, piece: Piece) -> Result<What, Memory>
    ensures ok { IfOk result (λ what. Comes inbox.old inbox.new piece what) }
    ensures held { HoldsOn inbox.old inbox.new }
{
    if inbox.passes(&piece) {
        return Ok(What::Whole(piece.step));
    }
    let taken = inbox.take(&piece)?;
    Ok(taken.what)
}

fn note_value(draft: &mut Findings, number: u64, what: What) -> Result<(), Memory>
    requires { 0 < number }
    ensures { OnOk result ((s : Seen) → NotesMatched
        (on_finding (λ x. record x { told = Spec.found_in x.told number what })) draft.old draft.new s s) }
{
    match what {
        What::Whole(value) => draft.found.push(FoundValue {
            place: (number - 1) as usize,
            value,
        }),
        What::Buffered => Ok(()),
        What::Refused(_) => Ok(()),
    }
}

fn note_item(
    alloc: Global,
    draft: &mut Findings,
    inbox: &mut Inbox,
    number: u64,
    results: &ResultsCmd,
    item: &Item,
) -> Result<(), Memory>
    requires { 0 < number }
    ensures ok { OnOk result (NotesMatched
        (on_finding (λ x. Spec.takes_item inbox.old.max_obj number results.now x item.now))
        draft.old draft.new inbox.old inbox.new) }
    ensures held { HoldsOn inbox.old inbox.new }
{
    let piece = result_piece(alloc, results, item)?;
    let what = what_comes(inbox, piece)?;
    note_value(draft, number, what)
}

fn note_items(
    alloc: Global,
    draft: &mut Findings,
    inbox: &mut Inbox,
    number: u64,
    results: &ResultsCmd,
) -> Result<(), Memory>
    requires { 0 < number }
    ensures ok { OnOk result (NotesMatched
        (on_finding (λ x. Spec.takes_items inbox.old.max_obj number results.now x results.now.items))
        draft.old draft.new inbox.old inbox.new) }
    ensures held { HoldsOn inbox.old inbox.new }
{
    for item in results.items.as_slice() {
        note_item(alloc, draft, inbox, number, results, item)?;
    }
    Ok(())
}

// Results that are for no command of the job aren't gathered.
fn note_results(
    alloc: Global,
    draft: &mut Findings,
    inbox: &mut Inbox,
    sent: &[Sent],
    results: &ResultsCmd,
) -> Result<(), Memory>
    requires in_order { AreInOrder sent.now }
    requires numbered { AreCommands sent.now }
    ensures ok { OnOk result (NotesMatched
        (on_finding (λ x. Spec.takes_results inbox.old.max_obj sent.now x results.now))
        draft.old draft.new inbox.old inbox.new) }
    ensures held { HoldsOn inbox.old inbox.new }
{
    match sent_for(sent, results) {
        Some(command) => note_items(alloc, draft, inbox, command.number, results),
        None => Ok(()),
    }
}

// A part that more parts follow has no code.
fn note_status(draft: &mut Findings, sent: &[Sent], status: &StatusCmd) -> Result<(), Memory>
    requires in_order { AreInOrder sent.now }
    requires numbered { AreCommands sent.now }
    ensures { OnOk result ((s : Seen) → NotesMatched
        (on_finding (λ x. record x { told = Spec.takes_status sent.now x.told status.now })) draft.old draft.new s s) }
{
    match find_sent(sent, status.msg_ref, status.cmd_ref) {
        Some(command) if command.counts => draft.codes.push(NewCode {
            place: (command.number - 1) as usize,
            code: status.code,
        }),
        _ => Ok(()),
    }
}

fn note_alert(alloc: Global, draft: &mut Findings, alert: &AlertCmd) -> Result<(), Memory>
    ensures { OnOk result ((s : Seen) → NotesMatched
        (λ x. record x { alerts = Spec.takes_alert x.alerts alert.now }) draft.old draft.new s s) }
{
    if alert.code != 1226 {
        return Ok(());
    }
    draft
        .alerts
        .push(kept_alert(alloc, alert.items.as_slice())?)
}

fn note_command(
    alloc: Global,
    draft: &mut Findings,
    inbox: &mut Inbox,
    sent: &[Sent],
    command: &Command,
) -> Result<(), Memory>
    requires in_order { AreInOrder sent.now }
    requires numbered { AreCommands sent.now }
    ensures ok { OnOk result (NotesMatched
        (λ x. Spec.takes_command inbox.old.max_obj sent.now x command.now)
        draft.old draft.new inbox.old inbox.new) }
    ensures held { HoldsOn inbox.old inbox.new }
{
    match command {
        Command::Status(status) => note_status(draft, sent, status),
        Command::Results(results) => note_results(alloc, draft, inbox, sent, results),
        Command::Alert(alert) => note_alert(alloc, draft, alert),
        Command::Plain(_) | Command::Atomic(_) | Command::Sequence(_) => Ok(()),
    }
}

#[tactic(auto, unfolding(dm_service::specs::Matching::matched))]
fn note_commands(
    alloc: Global,
    draft: &mut Findings,
    inbox: &mut Inbox,
    sent: &[Sent],
    body: &[Command],
) -> Result<(), Memory>
    requires in_order { AreInOrder sent.now }
    requires numbered { AreCommands sent.now }
    ensures ok { OnOk result (NotesMatched
        (λ x. Spec.matched inbox.old.max_obj sent.now x body.now)
        draft.old draft.new inbox.old inbox.new) }
    ensures held { HoldsOn inbox.old inbox.new }
{
    for command in body {
        note_command(alloc, draft, inbox, sent, command)?;
    }
    Ok(())
}

/// What the commands of a message tell. What was received before can be gone back to, also after `Memory`.
pub(crate) fn draft_of(
    alloc: Global,
    inbox: &mut Inbox,
    sent: &[Sent],
    body: &[Command],
) -> Result<Findings, Memory>
    requires in_order { AreInOrder sent.now }
    requires numbered { AreCommands sent.now }
    ensures ok { IfOk result (λ draft. (k : AKept) → matched_by draft inbox.new k
        ≡ Spec.matched inbox.old.max_obj sent.now
        (matched_of (known_of k) (gathered_of inbox.old)) body.now) }
    ensures held { HoldsOn inbox.old inbox.new }
{
    let mut draft = Findings {
        codes: List::new(alloc),
        found: List::new(alloc),
        alerts: List::new(alloc),
    };
    note_commands(alloc, &mut draft, inbox, sent, body)?;
    Ok(draft)
}
