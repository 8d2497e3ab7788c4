// How another session begins.
ghost use Rattle.std.specs.Prelude.{◌≡◌, [], false, drop, if◌then◌else◌, is_some};
ghost use Rattle.dm_ends.specs.Beginning as Ends;
ghost use Rattle.dm_service.specs.Messages as Spec;
ghost use Rattle.dm_server.specs.Inside.{newest_of, session_in, IsWithinJob};

use crate::held::{Outbox, Plan, PresentSession, Run};
use dm_auth::Account;
use dm_base::List;
use dm_headers::Standing;
use dm_report::Gathering;
use dm_service::ServiceProgress;
use dm_waiting::WaitingList;

// A client with a name and a password has to show a credential.
fn asks_credential(account: &Account) -> bool
    ensures { result ≡ Spec.asks_credential account.now }
{
    account.user.is_some() && account.user_password.is_some()
}

// Before a message of either end, where the first package is the client's.
fn first_standing(accepted: bool) -> Standing
    ensures { result ≡ Ends.first_standing false accepted }
{
    Standing {
        last: 0,
        own: 0,
        heard: false,
        room: 16384,
        they_failed: false,
        we_failed: false,
        accepted,
        welcomed: false,
    }
}

/// A session that no message has come to yet.
pub(crate) fn first_session(plan: &Plan, number: u32) -> PresentSession
    ensures session { session_in result ≡ Spec.first_session plan.now.job.account number }
    ensures queue { result.outbox.queue ≡ [] }
    ensures max_obj { result.gathering.max_obj ≡ plan.now.job.limits.max_obj }
{
    PresentSession {
        progress: ServiceProgress {
            number,
            standing: first_standing(!asks_credential(&plan.job.account)),
            answered: false,
            is_over: false,
        },
        outbox: Outbox {
            queue: WaitingList::new(plan.alloc),
            sent: List::new(plan.alloc),
        },
        gathering: Gathering::new(plan.alloc, plan.job.limits.max_obj),
    }
}

/// How far the job is where a session begins: at its first package, unless a command of it was sent in an earlier one.
pub(crate) fn begun(plan: &Plan, run: Run) -> Run
    ensures packages { drop result.next plan.now.job.packages
        ≡ (if is_some run.runs_in then [] else plan.now.job.packages) }
    ensures newest { newest_of plan.now.job.packages result ≡ [] }
    ensures runs_in { result.runs_in ≡ run.runs_in }
    ensures place { IsWithinJob plan.now.job result }
{
    let next = if run.runs_in.is_some() {
        plan.job.packages.len()
    } else {
        0
    };
    Run {
        next,
        queued: false,
        runs_in: run.runs_in,
    }
}
