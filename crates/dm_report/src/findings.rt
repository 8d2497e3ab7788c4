// What is known of a job.
ghost use Rattle.std.specs.Prelude.{◌≡◌, ◌+◌, ◌∷◌, [], replicate, None, if◌then◌else◌, IfOk, OnOk, OnErr};
ghost use Rattle.dm_objects.specs.Seen.{present};
ghost use Rattle.dm_service.specs.Laws.{AreInOrder};
ghost use Rattle.dm_service.specs.Matching.{untold, matched};
ghost use Rattle.dm_report.specs.Known.{TellsOfJob, matched_of, is_within, forgotten_within, IsReport};
ghost use Rattle.dm_report.specs.Kept as Spec;
ghost use Rattle.dm_report.specs.Kept.{known_of};
ghost use Rattle.dm_report.specs.Receiving.{gathered_of, HoldsOn};
ghost use Rattle.dm_report.specs.Sending.{AreCommands};

use crate::copies::{copy_alerts, copy_found};
use crate::drafts::draft_of;
use crate::gathering::Gathering;
use crate::kept::{FoundValue, Kept, put_draft};
use crate::report::report_text;
use dm_base::{Bytes, List, Memory};
use dm_objects::Inbox;
use dm_service::Sent;
use std::alloc::Global;
use std::marker::Model;
use syncml_types::Command;

/// What is known of the commands of a job: a code or none for each, the values that each found, and the alerts that are
/// kept.
#[derive(Drop)]
pub struct Findings {
    alloc: Global,
    kept: Kept,
}

impl Model for Findings {
    ghost use Rattle.dm_report.specs.Known.{Known};
    ghost use Rattle.dm_report.specs.Kept.{known_of};

    ghost Value = { Known };

    ghost view = { λ f. known_of f.kept };
}

fn no_codes(alloc: Global, commands: usize) -> Result<List<Option<u32>>, Memory>
    ensures { IfOk result (λ codes. codes ≡ replicate commands None) }
{
    let mut codes = List::with_room(alloc, commands)?;
    while codes.len() < commands {
        codes.push(None)?;
    }
    Ok(codes)
}

// The draft of a message is put to what is kept.
fn draft_and_put(
    alloc: Global,
    kept: &mut Kept,
    inbox: &mut Inbox,
    sent: &[Sent],
    body: &[Command],
) -> Result<(), Memory>
    requires in_order { AreInOrder sent.now }
    requires numbered { AreCommands sent.now }
    ensures ok { OnOk result (matched_of (known_of kept.new) (gathered_of inbox.new)
        ≡ matched inbox.old.max_obj sent.now (matched_of (known_of kept.old) (gathered_of inbox.old))
        body.now) }
    ensures held { HoldsOn inbox.old inbox.new }
    ensures err { OnErr result (kept.new ≡ kept.old) }
{
    let draft = draft_of(alloc, inbox, sent, body)?;
    put_draft(kept, draft)
}

// Where a message can't be put to what is kept, all goes back.
fn take_body(
    alloc: Global,
    kept: &mut Kept,
    inbox: &mut Inbox,
    sent: &[Sent],
    body: &[Command],
) -> Result<(), Memory>
    requires in_order { AreInOrder sent.now }
    requires numbered { AreCommands sent.now }
    ensures ok { OnOk result (matched_of (known_of kept.new) (gathered_of inbox.new)
        ≡ matched inbox.old.max_obj sent.now (matched_of (known_of kept.old) (gathered_of inbox.old))
        body.now) }
    ensures max_obj { inbox.new.max_obj ≡ inbox.old.max_obj }
    ensures settled { OnOk result (inbox.new.objects ≡ present inbox.new.objects ∷ []) }
    ensures err_kept { OnErr result (kept.new ≡ kept.old) }
    ensures err_inbox { OnErr result (inbox.new ≡ inbox.old) }
{
    let mark = inbox.mark();
    match draft_and_put(alloc, kept, inbox, sent, body) {
        Ok(()) => {
            inbox.settle();
            Ok(())
        }
        Err(memory) => {
            inbox.back(mark);
            Err(memory)
        }
    }
}

// Whether a number is one of so many from the first on.
fn is_within(first: u64, count: u64, number: u128) -> bool
    ensures { result ≡ is_within first count number }
{
    let first = u128::from(first);
    first <= number && number - first < u128::from(count)
}

// The code that is known of the command at a place, from 0.
fn code_without(code: Option<u32>, first: u64, count: u64, place: usize) -> Option<u32>
    ensures { result ≡ (if is_within first count (place + 1) then None else code) }
{
    if is_within(first, count, place as u128 + 1) {
        None
    } else {
        code
    }
}

fn codes_without(
    alloc: Global,
    codes: &[Option<u32>],
    first: u64,
    count: u64,
) -> Result<List<Option<u32>>, Memory>
    ensures { IfOk result (λ kept. kept ≡ Spec.codes_without first count 0 codes.now) }
{
    let mut kept = List::with_room(alloc, codes.len())?;
    for (place, code) in codes.iter().enumerate() {
        kept.push(code_without(*code, first, count, place))?;
    }
    Ok(kept)
}

fn found_without(
    alloc: Global,
    found: &[FoundValue],
    first: u64,
    count: u64,
) -> Result<List<FoundValue>, Memory>
    ensures { IfOk result (λ kept. kept ≡ Spec.found_without first count found.now) }
{
    let mut kept = List::new(alloc);
    for value in found {
        if !is_within(first, count, value.place as u128 + 1) {
            kept.push(copy_found(alloc, value)?)?;
        }
    }
    Ok(kept)
}

impl Findings {
    /// Nothing is known of so many commands.
    #[tactic(auto, using(crate::proofs::ToldLemmas::told_replicate))]
    pub fn new(alloc: Global, commands: usize) -> Result<Findings, Memory>
        ensures { IfOk result (λ findings.
            findings ≡ record { told = replicate commands untold; alerts = [] }) }
    {
        Ok(Findings {
            alloc,
            kept: Kept {
                codes: no_codes(alloc, commands)?,
                found: List::new(alloc),
                alerts: List::new(alloc),
            },
        })
    }

    /// Takes what the commands of an accepted message tell, of those that were sent in the session: `sent` names these.
    /// The work grows with the message, and with the logarithm of their number. After `Memory` all is as before.
    pub fn take(
        &mut self,
        gathering: &mut Gathering,
        sent: &[Sent],
        body: &[Command],
    ) -> Result<(), Memory>
        requires in_order { AreInOrder sent.now }
        requires numbered { AreCommands sent.now }
        ensures ok { OnOk result (TellsOfJob sent.now body.now self.old self.new gathering.old gathering.new) }
        ensures err_findings { OnErr result (self.new ≡ self.old) }
        ensures err_gathering { OnErr result (gathering.new ≡ gathering.old) }
    {
        take_body(self.alloc, &mut self.kept, &mut gathering.inbox, sent, body)
    }

    /// What is known but of `count` commands, numbered from `first` on, of which nothing is known then. All else is
    /// copied.
    #[tactic(auto, using(crate::proofs::ToldLemmas::told_without))]
    pub fn without(&self, first: u64, count: u64) -> Result<Findings, Memory>
        ensures { IfOk result (λ findings.
            findings ≡ record self.now { told = forgotten_within first count 1 self.now.told }) }
    {
        Ok(Findings {
            alloc: self.alloc,
            kept: Kept {
                codes: codes_without(self.alloc, self.kept.codes.as_slice(), first, count)?,
                found: found_without(self.alloc, self.kept.found.as_slice(), first, count)?,
                alerts: copy_alerts(self.alloc, self.kept.alerts.as_slice())?,
            },
        })
    }

    /// The report, in one walk. `ran` tells whether a command of the job was sent.
    pub fn report(&self, ran: bool) -> Result<Bytes, Memory>
        ensures { IfOk result (λ text. IsReport self.now ran text) }
    {
        report_text(self.alloc, &self.kept, ran)
    }
}
