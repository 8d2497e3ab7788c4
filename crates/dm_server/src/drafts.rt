// What a message makes of a server, before it is made so.
ghost use Rattle.std.specs.Prelude.{◌≡◌, unwrap_or};
ghost use Rattle.std.specs.Option.{option_or};
ghost use Rattle.dm_server.specs.Working.{answer_with, with_account};

use crate::answers::ServerAnswer;
use crate::held::{Plan, Run};
use dm_auth::Account;
use dm_ends::LastMessage;
use dm_job::Job;
use dm_service::ServiceProgress;

/// How far the job and the session are then, and the message that answers, where one does.
#[derive(Drop)]
pub(crate) struct Advance {
    pub run: Run,
    pub progress: ServiceProgress,
    pub sent: Option<LastMessage>,
}

/// What is left to be made so once a session has taken a message. The account is told where it is new.
#[derive(Drop)]
pub(crate) struct ServerChanges {
    pub account: Option<Account>,
    pub run: Run,
    pub sent: Option<LastMessage>,
}

fn put_account(job: &mut Job, account: Option<Account>)
    ensures { job.new ≡ with_account job.old (unwrap_or account job.old.account) }
{
    if let Some(account) = account {
        job.account = account;
    }
}

fn put_message(sent: &mut Option<LastMessage>, message: Option<LastMessage>) -> ServerAnswer
    ensures sent { sent.new ≡ option_or message sent.old }
    ensures answer { result ≡ answer_with message }
{
    match message {
        None => ServerAnswer::Ended,
        Some(message) => {
            *sent = Some(message);
            ServerAnswer::Sent
        }
    }
}

/// Makes it so. It takes no memory.
pub(crate) fn take_up(
    plan: &mut Plan,
    run: &mut Run,
    sent: &mut Option<LastMessage>,
    draft: ServerChanges,
) -> ServerAnswer
    ensures plan { plan.new.job ≡ with_account plan.old.job (unwrap_or draft.account plan.old.job.account) }
    ensures run { run.new ≡ draft.run }
    ensures sent { sent.new ≡ option_or draft.sent sent.old }
    ensures answer { result ≡ answer_with draft.sent }
{
    *run = draft.run;
    put_account(&mut plan.job, draft.account);
    put_message(sent, draft.sent)
}
