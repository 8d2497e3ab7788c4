// The server's next message.
ghost use Rattle.std.specs.Prelude.{◌≡◌, ◌≤◌, ◌<◌, ◌+◌, ◌^◌, ◌++◌, true, length, drop, take, List as ListOf};
ghost use Rattle.std.specs.Prelude.{Option as OptionOf, IfOk, OnOk, OnErr};
ghost use Rattle.syncml_types.specs.Message.{Parts};
ghost use Rattle.syncml_types.specs.Fitness.{IsFit};
ghost use Rattle.dm_headers.specs.Checks.{passes as passing};
ghost use Rattle.dm_pack.specs.Filling.{Filling};
ghost use Rattle.dm_report.specs.Sending.{AreCommands};
ghost use Rattle.dm_service.specs.declared.sent.Sent.{Sent as ASent};
ghost use Rattle.dm_service.specs.Service.{Service};
ghost use Rattle.dm_service.specs.Sending as Spec;
ghost use Rattle.dm_service.specs.Laws.{AreInOrder};
ghost use Rattle.dm_server.specs.Inside.{Stands};
ghost use Rattle.dm_server.specs.Working.{service_behind, machine_in, session_at_work, with_account, CanWork};
ghost use Rattle.dm_server.specs.Working.{HasSentMore};
ghost use Rattle.dm_server.specs.Working.{IsReply, ToldBy};

use crate::bodies::is_done_there;
use crate::drafts::Advance;
use crate::headers::header_for;
use crate::held::{Outbox, Run, ServerWork};
use dm_auth::Account;
use dm_base::{List, Memory};
use dm_ends::{LastMessage, all_reports};
use dm_headers::{Standing, passes};
use dm_pack::{Filled, Tail};
use dm_report::{Findings, Gathering};
use dm_service::{Sent, ServiceProgress};
use syncml_types::Message;

// Whether the client told that it accepted the server's credential, where it is shown one.
fn is_welcome(account: &Account, standing: &Standing) -> bool
    ensures { result ≡ Spec.is_welcome account.now standing.now }
{
    account.server_password.is_none() || standing.welcomed
}

// Whether the session is over with the message that answers one: nothing is left on either side.
fn is_last(work: &ServerWork, code: u32, filled: &Filled) -> bool
    ensures { (v : Service) (f : Filling) → v.job ≡ with_account work.now.plan.now.job work.now.account.now
        → v.packages ≡ drop work.now.run.next work.now.plan.now.job.packages
        → filled.now.message ≡ f.message → filled.now.tail ≡ f.tail
        → result ≡ Spec.is_last v work.now.progress.standing work.now.message.now code f }
{
    work.progress.standing.accepted
        && filled.tail == Tail::Final
        && all_reports(filled.message.body().as_slice())
        && work.run.next >= work.plan.job.packages.len()
        && is_done_there(work.message, code)
        && is_welcome(work.account, &work.progress.standing)
}

// How far the session is once a message was sent.
fn progress_after(progress: &ServiceProgress, tail: Tail, is_over: bool) -> ServiceProgress
    requires { progress.now.standing.own + 1 < 2 ^ 32 }
    ensures { (f : Filling) → tail ≡ f.tail → result ≡ record progress.now {
      standing = Spec.standing_sent progress.now.standing f;
      answered = true;
      is_over = is_over;
    } }
{
    let mut standing = progress.standing;
    standing.own += 1;
    if tail == Tail::Final {
        standing.heard = false;
    }
    ServiceProgress {
        standing,
        answered: true,
        is_over,
        ..*progress
    }
}

// The job runs in the session of this number where commands of it were sent behind the first so many.
fn runs_in(run: Run, number: u32, before: usize, sent: &List<Sent>) -> Option<u32>
    ensures { (old out : ListOf ASent) → sent.now ≡ old ++ out → length old ≡ before
        → result ≡ Spec.runs_in_after run.runs_in number out }
{
    if sent.len() > before {
        Some(number)
    } else {
        run.runs_in
    }
}

// Notes what the client told, where its message passes, of the first so many commands that were sent.
fn tell(
    findings: &mut Findings,
    gathering: &mut Gathering,
    outbox: &Outbox,
    sent: usize,
    message: &Message,
    code: u32,
) -> Result<(), Memory>
    requires within { sent ≤ length outbox.now.sent }
    requires commands { AreCommands (take sent outbox.now.sent) }
    requires order { AreInOrder (take sent outbox.now.sent) }
    ensures ok { OnOk result (ToldBy (passing code) (take sent outbox.now.sent) message.now.body findings.old
        findings.new gathering.old gathering.new) }
    ensures err_gathering { OnErr result (gathering.new ≡ gathering.old) }
    ensures err_findings { OnErr result (findings.new ≡ findings.old) }
{
    if !passes(code) {
        return Ok(());
    }
    findings.take(
        gathering,
        &outbox.sent.as_slice()[..sent],
        message.body().as_slice(),
    )
}

/// Notes what the client told, and sends the next message out of what waits. After `Memory` commands of the job may
/// stand behind those that were sent; all else is as before.
pub(crate) fn send(
    work: &ServerWork,
    outbox: &mut Outbox,
    gathering: &mut Gathering,
    findings: &mut Findings,
    code: u32,
) -> Result<Advance, Memory>
    requires can_work { CanWork work.now outbox.old gathering.old }
    requires fit { IsFit work.now.message.now.header work.now.message.now.body }
    ensures state { IfOk result (λ next. (before : OptionOf Parts)
        → service_behind work.now next outbox.new gathering.new findings.new before
        ≡ Spec.sends (machine_in work.now outbox.old gathering.new findings.new before)
        (session_at_work work.now outbox.old gathering.new) work.now.message.now code) }
    ensures told { IfOk result (λ next. ToldBy (passing code) outbox.old.sent work.now.message.now.body findings.old
        findings.new gathering.old gathering.new) }
    ensures stands { IfOk result (λ next. Stands work.now.plan.now.job next.run outbox.new gathering.new) }
    ensures reply { IfOk result (λ next. IsReply next.progress next.sent) }
    ensures err { OnErr result
        (HasSentMore outbox.old outbox.new gathering.old gathering.new findings.old findings.new) }
{
    let header = header_for(work.plan, work.account, &work.progress, work.message)?;
    let standing = &work.progress.standing;
    let sent = outbox.sent.len();
    let filled = outbox.queue.fill(
        header,
        standing.room,
        standing.heard,
        standing.own + 1,
        &mut outbox.sent,
    )?;
    tell(findings, gathering, outbox, sent, work.message, code)?;
    let is_over = is_last(work, code, &filled);
    outbox.queue.commit(&filled);
    Ok(Advance {
        run: Run {
            runs_in: runs_in(work.run, work.progress.number, sent, &outbox.sent),
            ..work.run
        },
        progress: progress_after(&work.progress, filled.tail, is_over),
        sent: Some(LastMessage {
            message: filled.message,
            bytes: filled.bytes,
        }),
    })
}
