// What a message that is accepted does.
ghost use Rattle.std.specs.Prelude.{◌≡◌, ◌<◌, ◌+◌, ◌^◌, ◌||◌, unwrap_or, Option as OptionOf, IfOk, OnErr};
ghost use Rattle.syncml_types.specs.Message.{Parts};
ghost use Rattle.dm_auth.specs.declared.accounts.Account.{Account as AnAccount};
ghost use Rattle.dm_ends.specs.Ready.{IsReadyAccount, IsReadyLimits, IsReadyMessage};
ghost use Rattle.dm_headers.specs.Checks.{is_denied as denied, passes as passing};
ghost use Rattle.dm_headers.specs.Standings;
ghost use Rattle.dm_job.specs.declared.job.Job.{Job as AJob};
ghost use Rattle.dm_report.specs.Known.{Known as AKnown, GatheredSoFar};
ghost use Rattle.dm_service.specs.Messages as Spec;
ghost use Rattle.dm_service.specs.Packages.{gives_up};
ghost use Rattle.dm_server.specs.declared.held.Outbox.{Outbox as AnOutbox};
ghost use Rattle.dm_server.specs.Inside.{at_work, session_in, session_with, Stands};
ghost use Rattle.dm_server.specs.Working.{machine_behind, by_header_after, drafted, service_behind, machine_in};
ghost use Rattle.dm_server.specs.Working.{session_at_work};
ghost use Rattle.dm_server.specs.Working.{with_account, CanAccept, CanWork, IsAsBefore, IsFaultTold, IsReadyWork};
ghost use Rattle.dm_server.specs.Working.{IsReply};

use crate::answering::answered;
use crate::drafts::{Advance, ServerChanges};
use crate::giving_up::give_up;
use crate::headers::header_for;
use crate::held::{Outbox, Plan, PresentSession, Run, ServerWork};
use dm_auth::Account;
use dm_base::{Memory, Nonce};
use dm_ends::{farewell, has_abort};
use dm_headers::{Heard, Side, hear, is_denied, passes};
use dm_report::{Findings, Gathering};
use dm_service::ServiceProgress;
use syncml_types::Message;

// The session is over without an answer.
fn ended(run: Run, progress: &ServiceProgress) -> Advance
    ensures state { (job : AJob) (account : AnAccount) (o : AnOutbox) (g : GatheredSoFar) (known : AKnown)
        (before : OptionOf Parts) → machine_behind job account result o g known before
        ≡ Spec.ended (at_work (with_account job account) run progress.now o g known before)
        (session_with progress.now o g) }
    ensures run { result.run ≡ run }
    ensures reply { IsReply result.progress result.sent }
{
    Advance {
        run,
        progress: ServiceProgress {
            answered: false,
            is_over: true,
            ..*progress
        },
        sent: None,
    }
}

// The session is over with a farewell.
fn denied(work: &ServerWork, code: u32) -> Result<Advance, Memory>
    requires limits { IsReadyLimits work.now.plan.now.job.limits }
    requires account { IsReadyAccount work.now.account.now }
    requires number { work.now.progress.number < 2 ^ 32 }
    requires own { work.now.progress.standing.own + 1 < 2 ^ 32 }
    requires message { IsReadyWork work.now }
    ensures state { IfOk result (λ next. (o : AnOutbox) (g : GatheredSoFar) (known : AKnown) (before : OptionOf Parts)
        → service_behind work.now next o g known before ≡ Spec.denies (machine_in work.now o g known before)
        (session_at_work work.now o g) work.now.message.now code work.now.nonce.now.bytes) }
    ensures run { IfOk result (λ next. next.run ≡ work.now.run) }
    ensures reply { IfOk result (λ next. IsReply next.progress next.sent) }
{
    let header = header_for(work.plan, work.account, &work.progress, work.message)?;
    let farewell = farewell(work.plan.alloc, header, work.message, code, work.nonce)?;
    let mut standing = work.progress.standing;
    standing.own += 1;
    Ok(Advance {
        run: work.run,
        progress: ServiceProgress {
            standing,
            answered: true,
            is_over: true,
            ..work.progress
        },
        sent: Some(farewell),
    })
}

// Whether the code of a header tells no fault of the message.
fn is_faultless(code: u32) -> bool
    ensures { result ≡ (passing code || denied code) }
{
    passes(code) || is_denied(code)
}

// A message whose header was heard. After `Memory` all is as before.
fn by_header(
    work: &ServerWork,
    outbox: &mut Outbox,
    gathering: &mut Gathering,
    findings: &mut Findings,
    heard: &Heard,
) -> Result<Advance, Memory>
    requires can_work { CanWork work.now outbox.old gathering.old }
    requires message { IsReadyWork work.now }
    requires code { IsFaultTold heard.now.code work.now.message.now }
    ensures state { IfOk result (λ next. (before : OptionOf Parts) (h : Standings.Heard)
        → h.code ≡ heard.now.code → h.second ≡ heard.now.second
        → service_behind work.now next outbox.new gathering.new findings.new before
        ≡ Spec.by_header (machine_in work.now outbox.old gathering.old findings.old before)
        (session_at_work work.now outbox.old gathering.old) work.now.message.now h work.now.nonce.now.bytes) }
    ensures stands { IfOk result (λ next. Stands work.now.plan.now.job next.run outbox.new gathering.new) }
    ensures reply { IfOk result (λ next. IsReply next.progress next.sent) }
    ensures err { OnErr result
        (IsAsBefore outbox.old outbox.new gathering.old gathering.new findings.old findings.new) }
{
    let code = heard.code;
    if is_faultless(code) && has_abort(work.message.body().as_slice()) {
        return Ok(ended(work.run, &work.progress));
    }
    if heard.second {
        return denied(work, code);
    }
    answered(work, outbox, gathering, findings, code)
}

// The same once the package that was queued last is given up.
fn by_header_anew(
    work: &ServerWork,
    outbox: &mut Outbox,
    gathering: &mut Gathering,
    findings: &mut Findings,
    heard: &Heard,
) -> Result<Advance, Memory>
    requires can_work { CanWork work.now outbox.old gathering.old }
    requires message { IsReadyWork work.now }
    requires code { IsFaultTold heard.now.code work.now.message.now }
    ensures state { IfOk result (λ next. (before : OptionOf Parts) (h : Standings.Heard)
        → h.code ≡ heard.now.code → h.second ≡ heard.now.second
        → service_behind work.now next outbox.new gathering.new findings.new before
        ≡ by_header_after (gives_up (machine_in work.now outbox.old gathering.old findings.old before)
        (session_at_work work.now outbox.old gathering.old)) (session_at_work work.now outbox.old gathering.old)
        work.now.message.now h work.now.nonce.now.bytes) }
    ensures stands { IfOk result (λ next. Stands work.now.plan.now.job next.run outbox.new gathering.new) }
    ensures reply { IfOk result (λ next. IsReply next.progress next.sent) }
    ensures err { OnErr result
        (IsAsBefore outbox.old outbox.new gathering.old gathering.new findings.old findings.new) }
{
    let mut left = give_up(work.plan, work.run, outbox, findings)?;
    let anew = ServerWork {
        run: left.run,
        ..*work
    };
    let next = by_header(
        &anew,
        &mut left.outbox,
        gathering,
        &mut left.findings,
        heard,
    )?;
    *outbox = left.outbox;
    *findings = left.findings;
    Ok(next)
}

// The same by the code of the Status for the server's last header, where the client refused a credential before or not.
fn by_status(
    failed: bool,
    work: &ServerWork,
    outbox: &mut Outbox,
    gathering: &mut Gathering,
    findings: &mut Findings,
    heard: &Heard,
) -> Result<Advance, Memory>
    requires can_work { CanWork work.now outbox.old gathering.old }
    requires message { IsReadyWork work.now }
    requires code { IsFaultTold heard.now.code work.now.message.now }
    ensures state { IfOk result (λ next. (before : OptionOf Parts) (h : Standings.Heard)
        → h.code ≡ heard.now.code → h.second ≡ heard.now.second
        → service_behind work.now next outbox.new gathering.new findings.new before
        ≡ by_header_after (Spec.after_status (machine_in work.now outbox.old gathering.old findings.old before)
        (session_at_work work.now outbox.old gathering.old) failed heard.now.status)
        (session_at_work work.now outbox.old gathering.old) work.now.message.now h work.now.nonce.now.bytes) }
    ensures stands { IfOk result (λ next. Stands work.now.plan.now.job next.run outbox.new gathering.new) }
    ensures reply { IfOk result (λ next. IsReply next.progress next.sent) }
    ensures err { OnErr result
        (IsAsBefore outbox.old outbox.new gathering.old gathering.new findings.old findings.new) }
{
    if !failed && is_denied(heard.status) {
        by_header_anew(work, outbox, gathering, findings, heard)
    } else {
        by_header(work, outbox, gathering, findings, heard)
    }
}

// The account with the nonces to use next.
fn renewed_by<'a>(heard: &'a Heard, account: &'a Account) -> &'a Account
    ensures { result.now ≡ unwrap_or heard.now.account account.now }
{
    match &heard.account {
        Some(renewed) => renewed,
        None => account,
    }
}

/// A message that is new to a session. After `Memory` all is as before.
pub(crate) fn accept(
    plan: &Plan,
    run: Run,
    session: &mut PresentSession,
    findings: &mut Findings,
    message: &Message,
    nonce: &Nonce,
) -> Result<ServerChanges, Memory>
    requires can_accept { CanAccept plan.now.job run session.old message.now.header.msg }
    requires message { IsReadyMessage message.now nonce.now.bytes }
    ensures state { IfOk result (λ draft. (before : OptionOf Parts)
        → drafted plan.now.job draft session.new findings.new before
        ≡ Spec.accepts (at_work plan.now.job run session.old.progress session.old.outbox session.old.gathering
        findings.old before) (session_in session.old) message.now nonce.now.bytes) }
    ensures stands { IfOk result (λ draft. Stands plan.now.job draft.run session.new.outbox session.new.gathering) }
    ensures reply { IfOk result (λ draft. IsReply session.new.progress draft.sent) }
    ensures err_session { OnErr result (session.new ≡ session.old) }
    ensures err_findings { OnErr result (findings.new ≡ findings.old) }
{
    let heard = hear(
        plan.alloc,
        Side::User,
        &plan.job.account,
        &session.progress.standing,
        message,
        nonce,
    )?;
    let work = ServerWork {
        plan,
        account: renewed_by(&heard, &plan.job.account),
        run,
        progress: ServiceProgress {
            standing: heard.standing,
            ..session.progress
        },
        message,
        nonce,
    };
    let next = by_status(
        session.progress.standing.we_failed,
        &work,
        &mut session.outbox,
        &mut session.gathering,
        findings,
        &heard,
    )?;
    session.progress = next.progress;
    Ok(ServerChanges {
        account: heard.account,
        run: next.run,
        sent: next.sent,
    })
}
