// The whole text.
ghost use Rattle.std.specs.Prelude.{◌≡◌, ◌<◌, ◌≤◌, ◌+◌, ◌*◌, ◌++◌, ◌^◌, false, length, IfOk, IfErr, IfSome, OnOk};
ghost use Rattle.dm_base.specs.Lines.{line_feed};
ghost use Rattle.dm_start.specs.declared.heads.Head.TheVariants.{Device};
ghost use Rattle.dm_start.specs.Start.{opening, told_of};
ghost use Rattle.dm_job.specs.declared.draft.Reading.TheVariants as reading;
ghost use Rattle.dm_job.specs.Sound.{IsSoundJob};
ghost use Rattle.dm_job.specs.Texts.{segments};
ghost use Rattle.dm_replay.specs.From.{CanBegin};
ghost use Rattle.dm_replay.specs.Trace.{servers_of};
ghost use Rattle.dm_pair.specs.Events.{IsPairEvent};
ghost use Rattle.dm_pair.specs.Pairing as Runs;
ghost use Rattle.dm_pair.specs.Texts as Spec;
ghost use Rattle.dm_pair.specs.Texts.{Written, starting, jobbing, happening, refuses, behind_text, ends_at, pairing_of};
ghost use Rattle.dm_pair.specs.Texts.{written};
ghost use Rattle.dm_pair.specs.From.{rest_written, HaltsAs};
ghost use Rattle.dm_pair.specs.Seen.{seen, wrote, all_written, written_in, after_said};

use crate::events::{PairEvent, read_event};
use crate::lines::{TextHalt, halt_at, next_line};
use crate::pairing::{Pairing, step};
use crate::reading::{JobRead, StartRead, read_first, read_job, read_start};
use dm_base::{Bytes, LineReason, List, Memory};
use dm_job::Job;
use dm_replay::ids_of;
use dm_server::Server;
use dm_session::Client;
use dm_start::{Start, tree_text};
use dm_texts::bad_line;
use std::alloc::Global;

/// What is written for a text, in three pieces that follow one another, so that none is copied: mostly the lines of its
/// events, the tree, and the report with `done`. Only the whole of them is promised.
#[derive(Drop)]
pub struct PairOut {
    pub lines: Bytes,
    pub tree: Bytes,
    pub report: Bytes,
    /// Whether a line of the text was refused, which the last line that is written tells.
    pub bad: bool,
}

// Behind what was written so far, the line that tells what is refused.
fn refused(
    alloc: Global,
    mut out: Bytes,
    number: u64,
    reason: LineReason,
) -> Result<PairOut, Memory>
    ensures { IfOk result (λ o. written_in o ≡ behind_text out (refuses (number, reason))) }
{
    let line = bad_line(alloc, number, reason)?;
    out.extend(line.as_slice())?;
    Ok(PairOut {
        lines: out,
        tree: Bytes::new(alloc),
        report: Bytes::new(alloc),
        bad: true,
    })
}

// Behind what was written so far, what is written where the reading halts.
fn halted(alloc: Global, out: Bytes, halt: TextHalt) -> Result<PairOut, Memory>
    ensures { IfOk result (λ o. (rest : Written) → HaltsAs rest halt → written_in o ≡ behind_text out rest) }
{
    match halt {
        TextHalt::Bad { number, reason } => refused(alloc, out, number, reason),
        TextHalt::Memory => Err(Memory),
    }
}

// Behind the lines of the events, the tree, the report and the last line.
fn whole(pairing: &Pairing, lines: Bytes) -> Result<PairOut, Memory>
    ensures { IfOk result (λ o. written_in o ≡ wrote (lines ++ Spec.whole_ending (seen pairing.now)) false) }
{
    let tree = tree_text(pairing.alloc, pairing.client.tree(), 1)?;
    let mut report = pairing.server.report()?;
    report.extend(b"done\n")?;
    Ok(PairOut {
        lines,
        tree,
        report,
        bad: false,
    })
}

// Behind the `end` line: nothing is to stand there.
fn end(pairing: &Pairing, out: Bytes, behind: &[u8], number: u64) -> Result<PairOut, Memory>
    ensures { IfOk result (λ o. written_in o
        ≡ behind_text out (ends_at number (seen pairing.now) (segments behind.now))) }
{
    if !behind.is_empty() {
        return refused(pairing.alloc, out, number, LineReason::Extra);
    }
    whole(pairing, out)
}

// The next event, and what stands behind its line. None comes at the `end` line.
fn next_event<'a>(
    pairing: &Pairing,
    ids: &List<Bytes>,
    text: &'a [u8],
    number: u64,
) -> Result<(Option<PairEvent>, &'a [u8]), TextHalt>
    ensures said { IfOk result (λ next. rest_written number (happening ids.now (seen pairing.now)) text.now
        ≡ after_said number ids.now (seen pairing.now) next.0 next.1.now) }
    ensures range { IfOk result (λ next. IfSome next.0 (IsPairEvent (length ids.now) (length pairing.now.ups)
        (length pairing.now.downs))) }
    ensures shorter { IfOk result (λ next. length next.1.now < length text.now) }
    ensures halt { IfErr result (HaltsAs (rest_written number (happening ids.now (seen pairing.now)) text.now)) }
{
    let (line, behind) = match next_line(text, number) {
        Ok(cut) => cut,
        Err(halt) => return Err(halt),
    };
    let event = match read_event(
        pairing.alloc,
        ids,
        pairing.ups.len(),
        pairing.downs.len(),
        line,
    ) {
        Ok(event) => event,
        Err(error) => return Err(halt_at(number, error)),
    };
    match event {
        PairEvent::End => Ok((None, behind)),
        _ => Ok((Some(event), behind)),
    }
}

// Does an event, and adds its line.
fn answer(pairing: &mut Pairing, event: PairEvent, out: &mut Bytes) -> Result<(), Memory>
    requires event { IsPairEvent (length pairing.old.client.machine.accounts) (length pairing.old.ups)
        (length pairing.old.downs) event }
    requires few { pairing.old.deliveries + 200000 < 2 ^ 128 }
    ensures told { OnOk result (out.new ≡ out.old ++ ((Runs.step_of (seen pairing.old) event).words ++ line_feed)) }
    ensures state { OnOk result (seen pairing.new ≡ (Runs.step_of (seen pairing.old) event).behind) }
    ensures count { OnOk result (pairing.new.deliveries ≤ pairing.old.deliveries + 200000) }
    ensures accounts { OnOk result (length pairing.new.client.machine.accounts
        ≡ length pairing.old.client.machine.accounts) }
{
    step(pairing, event, out)?;
    out.push(b'\n')
}

// The events, from line `first` on.
fn run_events(
    pairing: &mut Pairing,
    ids: &List<Bytes>,
    text: &[u8],
    first: u64,
) -> Result<PairOut, Memory>
    requires number { first + length text.now < 2 ^ 64 }
    requires few { pairing.old.deliveries ≤ 200000 * first }
    requires accounts { length ids.now ≡ length pairing.old.client.machine.accounts }
    ensures { IfOk result (λ o. written_in o ≡ rest_written first (happening ids.now (seen pairing.old)) text.now) }
{
    let alloc = pairing.alloc;
    let mut out = Bytes::new(alloc);
    let mut number = first;
    let mut rest = text;
    'events: loop {
        let (event, behind) = match next_event(pairing, ids, rest, number) {
            Ok(next) => next,
            Err(halt) => return halted(alloc, out, halt),
        };
        match event {
            None => return end(pairing, out, behind, number + 1),
            Some(event) => answer(pairing, event, &mut out)?,
        }
        rest = behind;
        number += 1;
    }
}

// Both ends before the first event.
fn pairing_from(alloc: Global, start: Start, job: Job) -> Result<Pairing, Memory>
    requires client { CanBegin start }
    requires job { IsSoundJob job }
    ensures begun { IfOk result (λ p. seen p ≡ pairing_of (told_of start) job) }
{
    Ok(Pairing {
        alloc,
        client: Client::new(alloc, start.accounts, start.tree, start.limits)?,
        server: Server::new(alloc, job)?,
        ups: List::new(alloc),
        downs: List::new(alloc),
        deliveries: 0,
    })
}

// What stands behind the job.
fn run_behind(
    alloc: Global,
    start: Start,
    job: Job,
    text: &[u8],
    number: u64,
) -> Result<PairOut, Memory>
    requires client { CanBegin start }
    requires job { IsSoundJob job }
    requires number { number + length text.now < 2 ^ 64 }
    ensures { IfOk result (λ o. written_in o
        ≡ rest_written number (happening (servers_of (told_of start).accounts) (pairing_of (told_of start) job)) text.now) }
{
    let ids = ids_of(alloc, &start.accounts)?;
    let mut pairing = pairing_from(alloc, start, job)?;
    run_events(&mut pairing, &ids, text, number)
}

// What stands behind the start section.
fn run_job(alloc: Global, start: Start, text: &[u8], number: u64) -> Result<PairOut, Memory>
    requires client { CanBegin start }
    requires number { number + length text.now < 2 ^ 64 }
    ensures { IfOk result (λ o. written_in o ≡ rest_written number (jobbing (told_of start) reading.First) text.now) }
{
    match read_job(alloc, text, number) {
        Ok(JobRead { job, rest, number }) => run_behind(alloc, start, job, rest, number),
        Err(halt) => halted(alloc, Bytes::new(alloc), halt),
    }
}

// What stands behind the first line.
fn run_start(alloc: Global, text: &[u8]) -> Result<PairOut, Memory>
    requires { length text.now < 2 ^ 63 }
    ensures { IfOk result (λ o. written_in o ≡ rest_written 2 (starting (opening (Device 1))) text.now) }
{
    match read_start(alloc, text) {
        Ok(
            StartRead {
                start,
                rest,
                number,
            },
        ) => run_job(alloc, start, rest, number),
        Err(halt) => halted(alloc, Bytes::new(alloc), halt),
    }
}

/// What is written for a text of both ends: the line of each event, and behind the last the tree, the report and
/// `done`; or, behind the lines of the events before it, which line is refused and why. The only error is want of
/// memory.
pub fn run_pair(alloc: Global, text: &[u8]) -> Result<PairOut, Memory>
    ensures text { IfOk result (λ o. all_written o ≡ (written text.now).text) }
    ensures bad { IfOk result (λ o. o.bad ≡ (written text.now).bad) }
{
    match read_first(text) {
        Ok(rest) => run_start(alloc, rest),
        Err(halt) => halted(alloc, Bytes::new(alloc), halt),
    }
}
