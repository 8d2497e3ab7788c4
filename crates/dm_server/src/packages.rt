// The packages of the job: how many commands they hold, and when the next one is queued.
ghost use Rattle.std.specs.Prelude.{◌≡◌, ◌&&◌, not, length, take, Option as OptionOf, IfOk, OnOk};
ghost use Rattle.std.specs.List.{AllByRecursion, list_any};
ghost use Rattle.syncml_types.specs.Message.{Parts};
ghost use Rattle.dm_auth.specs.declared.accounts.Account.{Account as AnAccount};
ghost use Rattle.dm_job.specs.Sound.{all_entries};
ghost use Rattle.dm_report.specs.Known.{Known as AKnown};
ghost use Rattle.dm_service.specs.Service.{Session as ASession};
ghost use Rattle.dm_service.specs.Packages as Spec;
ghost use Rattle.dm_service.specs.Ready.{IsReadyEntry, AreReadyPackages, AreReadyWaiting};
ghost use Rattle.dm_server.specs.Inside.{service_of, IsNumberedJob, IsWithinJob};
ghost use Rattle.dm_server.specs.Working.{with_account};

use crate::held::{Plan, Run};
use dm_base::{List, Memory};
use dm_headers::Standing;
use dm_job::JobEntry;
use dm_waiting::WaitingList;
use syncml_parts::ids_in;

/// How many commands entries hold.
pub(crate) fn commands_in(entries: &[JobEntry]) -> Result<u64, Memory>
    requires { AllByRecursion IsReadyEntry entries.now }
    ensures { IfOk result (λ count. count ≡ Spec.commands_in entries.now) }
{
    let mut count = 0u64;
    for entry in entries {
        // As many commands as that can't be held.
        let Some(next) = count.checked_add(u64::from(ids_in(&entry.command))) else {
            return Err(Memory);
        };
        count = next;
    }
    Ok(count)
}

/// How many commands packages hold.
#[tactic(auto, using(crate::proofs::Rows::commands_both))]
pub(crate) fn commands_in_all(packages: &[List<JobEntry>]) -> Result<u64, Memory>
    requires { AreReadyPackages packages.now }
    ensures { IfOk result (λ count. count ≡ Spec.commands_in (all_entries packages.now)) }
{
    let mut count = 0u64;
    for package in packages {
        let more = commands_in(package.as_slice())?;
        let Some(next) = count.checked_add(more) else {
            return Err(Memory);
        };
        count = next;
    }
    Ok(count)
}

// Whether the next package may go behind what waits.
fn may_queue(standing: &Standing, queue: &WaitingList) -> bool
    ensures { result ≡ (standing.now.accepted && standing.now.heard && not (list_any Spec.is_of_job queue.now)) }
{
    standing.accepted && standing.heard && !queue.has_job()
}

/// Queues the next package where the client is accepted and its own is at its end, once nothing of the job waits. After
/// `Memory` a part of it may stand behind what waited.
#[tactic(auto, using(dm_waiting::proofs::Held::front_longer, dm_waiting::proofs::Held::front_self))]
pub(crate) fn queue_next(
    plan: &Plan,
    run: Run,
    standing: &Standing,
    queue: &mut WaitingList,
) -> Result<Run, Memory>
    requires job { IsNumberedJob plan.now.job }
    requires ready { AreReadyPackages plan.now.job.packages }
    requires place { IsWithinJob plan.now.job run }
    requires queue { AreReadyWaiting queue.old }
    ensures ok { IfOk result (λ next. (account : AnAccount) (known : AKnown) (session : OptionOf ASession)
        (sent : OptionOf Parts) → service_of (with_account plan.now.job account) next queue.new known session sent
        ≡ Spec.next_package (service_of (with_account plan.now.job account) run queue.old known session sent)
        standing.now) }
    ensures place { IfOk result (λ next. IsWithinJob plan.now.job next) }
    ensures queue { OnOk result (AreReadyWaiting queue.new) }
    ensures front { take (length queue.old) queue.new ≡ queue.old }
{
    let packages = plan.job.packages.as_slice();
    if run.next >= packages.len() || !may_queue(standing, queue) {
        return Ok(run);
    }
    queue.push_package(plan.alloc, packages[run.next].as_slice())?;
    Ok(Run {
        next: run.next + 1,
        queued: true,
        ..run
    })
}
