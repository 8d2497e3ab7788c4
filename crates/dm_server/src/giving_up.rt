// How a package is given up.
ghost use Rattle.std.specs.Prelude.{◌≡◌, ◌<◌, ◌-◌, true, if◌then◌else◌, Option as OptionOf, IfOk};
ghost use Rattle.std.specs.List.{AllByRecursion};
ghost use Rattle.syncml_types.specs.Message.{Parts};
ghost use Rattle.dm_auth.specs.declared.accounts.Account.{Account as AnAccount};
ghost use Rattle.dm_report.specs.Known.{GatheredSoFar, is_within};
ghost use Rattle.dm_service.specs.declared.progress.ServiceProgress.{ServiceProgress as AProgress};
ghost use Rattle.dm_service.specs.Packages.{gives_up, runs_after};
ghost use Rattle.dm_service.specs.Ready.{IsReadyEntry, AreReadyPackages};
ghost use Rattle.dm_server.specs.Inside.{at_work, newest_of, session_with, IsNumberedJob, IsWithinJob};
ghost use Rattle.dm_server.specs.Working.{with_account, sent_without, IsSendable, AreInARow, IsRange};

use crate::held::{Outbox, Plan, Run};
use crate::packages::commands_in;
use dm_base::{List, Memory};
use dm_job::JobEntry;
use dm_report::Findings;
use dm_service::Sent;
use std::alloc::Global;

/// What is left without a package.
#[derive(Drop)]
pub(crate) struct Left {
    pub run: Run,
    pub outbox: Outbox,
    pub findings: Findings,
}

// The package that was queued last in the present session.
fn newest(plan: &Plan, run: Run) -> &[JobEntry]
    requires { IsWithinJob plan.now.job run }
    ensures { result.now ≡ newest_of plan.now.job.packages run }
{
    if run.queued {
        plan.job.packages.as_slice()[run.next - 1].as_slice()
    } else {
        &[]
    }
}

// The number of a package's first command, and how many it holds.
fn row_of(entries: &[JobEntry]) -> Result<(u64, u64), Memory>
    requires ready { AllByRecursion IsReadyEntry entries.now }
    requires numbered { AreInARow entries.now }
    ensures { IfOk result (λ row. IsRange entries.now row.0 row.1) }
{
    match entries.first() {
        None => Ok((0, 0)),
        Some(entry) => {
            let count = commands_in(entries)?;
            Ok((entry.number, count))
        }
    }
}

fn is_within(first: u64, count: u64, number: u64) -> bool
    ensures { result ≡ is_within first count number }
{
    first <= number && number - first < count
}

fn sent_without(alloc: Global, first: u64, count: u64, sent: &[Sent]) -> Result<List<Sent>, Memory>
    ensures { IfOk result (λ left. left ≡ sent_without first count sent.now) }
{
    let mut left = List::new(alloc);
    for command in sent {
        if !is_within(first, count, command.number) {
            left.push(*command)?;
        }
    }
    Ok(left)
}

// The job doesn't run in a session where nothing is left that was sent in it.
fn runs_after(runs: Option<u32>, sent: &List<Sent>, left: &List<Sent>) -> Option<u32>
    ensures { result ≡ runs_after runs sent.now left.now }
{
    if !sent.is_empty() && left.is_empty() {
        None
    } else {
        runs
    }
}

// The package isn't queued.
fn place_before(run: Run) -> usize
    requires { (run.queued ≡ true) → 0 < run.next }
    ensures { result ≡ (if run.queued then run.next - 1 else run.next) }
{
    if run.queued { run.next - 1 } else { run.next }
}

/// Gives up the package that was queued last in the present session: it counts as not queued, none of its commands as
/// sent, and nothing is known of them. A value that is being gathered has no part in it.
pub(crate) fn give_up(
    plan: &Plan,
    run: Run,
    outbox: &Outbox,
    findings: &Findings,
) -> Result<Left, Memory>
    requires job { IsNumberedJob plan.now.job }
    requires packages { AreReadyPackages plan.now.job.packages }
    requires holds { IsSendable plan.now.job run outbox.now }
    ensures given_up { IfOk result (λ left. (account : AnAccount) (p : AProgress) (g : GatheredSoFar)
        (before : OptionOf Parts)
        → at_work (with_account plan.now.job account) left.run p left.outbox g left.findings before
        ≡ gives_up (at_work (with_account plan.now.job account) run p outbox.now g findings.now before)
        (session_with p outbox.now g)) }
    ensures holds { IfOk result (λ left. IsSendable plan.now.job left.run left.outbox) }
{
    let (first, count) = row_of(newest(plan, run))?;
    let sent = sent_without(plan.alloc, first, count, outbox.sent.as_slice())?;
    let run = Run {
        next: place_before(run),
        queued: false,
        runs_in: runs_after(run.runs_in, &outbox.sent, &sent),
    };
    Ok(Left {
        run,
        outbox: Outbox {
            queue: outbox.queue.without_job(plan.alloc)?,
            sent,
        },
        findings: findings.without(first, count)?,
    })
}
