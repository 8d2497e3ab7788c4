// What a message that is accepted is answered.
ghost use Rattle.std.specs.Prelude.{◌≡◌, ◌++◌, [], length, map, take, if◌then◌else◌, Option as OptionOf};
ghost use Rattle.std.specs.Prelude.{IfOk, OnOk, OnErr};
ghost use Rattle.syncml_types.specs.Message.{Parts};
ghost use Rattle.dm_auth.specs.declared.accounts.Account.{Account as AnAccount};
ghost use Rattle.dm_headers.specs.Checks.{passes as passing};
ghost use Rattle.dm_report.specs.Known.{Known as AKnown};
ghost use Rattle.dm_service.specs.Answers.{command_answers};
ghost use Rattle.dm_service.specs.Messages.{answer_waiting, answers_message};
ghost use Rattle.dm_service.specs.Packages.{next_package};
ghost use Rattle.dm_service.specs.Ready.{AreReadyWaiting};
ghost use Rattle.dm_service.specs.Service.{Session as ASession};
ghost use Rattle.dm_server.specs.Inside.{service_of, IsWithinJob, Stands};
ghost use Rattle.dm_server.specs.Working.{answered_from, service_behind, machine_in, session_at_work, with_account};
ghost use Rattle.dm_server.specs.Working.{CanQueue, CanWork, HasMoreBehind, IsAsBefore, IsReadyBody, IsReadyWork};
ghost use Rattle.dm_server.specs.Working.{IsReply};

use crate::bodies::answers_to;
use crate::drafts::Advance;
use crate::held::{Outbox, Run, ServerWork};
use crate::packages::queue_next;
use crate::sending::send;
use dm_base::Memory;
use dm_headers::header_status;
use dm_report::{Findings, Gathering};
use dm_waiting::WaitingList;

// Puts behind what waits what the client's commands are answered, and the next package. After `Memory` a part of it may
// stand there.
#[tactic(auto, using(dm_waiting::proofs::Held::front_longer, dm_waiting::proofs::Held::front_again))]
fn queue_behind(work: &ServerWork, queue: &mut WaitingList, code: u32) -> Result<Run, Memory>
    requires can_queue { CanQueue work.now.plan.now.job work.now.run queue.old }
    requires message { IsReadyBody work.now.message.now }
    ensures ok { IfOk result (λ next. (account : AnAccount) (known : AKnown) (session : OptionOf ASession)
        (sent : OptionOf Parts)
        → service_of (with_account work.now.plan.now.job account) next queue.new known session sent
        ≡ next_package (service_of (with_account work.now.plan.now.job account) work.now.run
        (queue.old ++ map answer_waiting (if passing code then command_answers work.now.message.now else []))
        known session sent) work.now.progress.standing) }
    ensures place { IfOk result (λ next. IsWithinJob work.now.plan.now.job next) }
    ensures queue { OnOk result (AreReadyWaiting queue.new) }
    ensures front { take (length queue.old) queue.new ≡ queue.old }
{
    queue.push_answers(answers_to(work.plan.alloc, work.message, code)?)?;
    queue_next(work.plan, work.run, &work.progress.standing, queue)
}

// The answer where the Status of the message's header stands in front of what waits. After `Memory` answers and entries
// of the job may stand behind what waited, and commands of the job behind those that were sent.
#[tactic(auto, using(crate::proofs::Fillings::more_behind))]
fn answer_behind(
    work: &ServerWork,
    outbox: &mut Outbox,
    gathering: &mut Gathering,
    findings: &mut Findings,
    code: u32,
) -> Result<Advance, Memory>
    requires can_work { CanWork work.now outbox.old gathering.old }
    requires message { IsReadyBody work.now.message.now }
    ensures state { IfOk result (λ next. (before : OptionOf Parts)
        → service_behind work.now next outbox.new gathering.new findings.new before
        ≡ answered_from (machine_in work.now outbox.old gathering.old findings.old before)
        (session_at_work work.now outbox.old gathering.old) work.now.message.now code) }
    ensures stands { IfOk result (λ next. Stands work.now.plan.now.job next.run outbox.new gathering.new) }
    ensures reply { IfOk result (λ next. IsReply next.progress next.sent) }
    ensures err { OnErr result
        (HasMoreBehind outbox.old outbox.new gathering.old gathering.new findings.old findings.new) }
{
    let queued = ServerWork {
        run: queue_behind(work, &mut outbox.queue, code)?,
        ..*work
    };
    send(&queued, outbox, gathering, findings, code)
}

/// What is told is noted, what is asked is answered, the next package is queued, and a message is sent. After `Memory`
/// all is as before.
pub(crate) fn answered(
    work: &ServerWork,
    outbox: &mut Outbox,
    gathering: &mut Gathering,
    findings: &mut Findings,
    code: u32,
) -> Result<Advance, Memory>
    requires can_work { CanWork work.now outbox.old gathering.old }
    requires message { IsReadyWork work.now }
    ensures state { IfOk result (λ next. (before : OptionOf Parts)
        → service_behind work.now next outbox.new gathering.new findings.new before
        ≡ answers_message (machine_in work.now outbox.old gathering.old findings.old before)
        (session_at_work work.now outbox.old gathering.old) work.now.message.now code work.now.nonce.now.bytes) }
    ensures stands { IfOk result (λ next. Stands work.now.plan.now.job next.run outbox.new gathering.new) }
    ensures reply { IfOk result (λ next. IsReply next.progress next.sent) }
    ensures err { OnErr result
        (IsAsBefore outbox.old outbox.new gathering.old gathering.new findings.old findings.new) }
{
    let status = header_status(work.plan.alloc, work.message.header(), code, work.nonce)?;
    let waiting = outbox.queue.len();
    let sent = outbox.sent.len();
    let front = outbox.queue.push_status(status)?;
    match answer_behind(work, outbox, gathering, findings, code) {
        Ok(next) => Ok(next),
        Err(memory) => {
            outbox.queue.keep(front, waiting);
            outbox.sent.cut_to(sent);
            Err(memory)
        }
    }
}
