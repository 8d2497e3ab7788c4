// What a message that is accepted does.
ghost use Rattle.std.specs.Prelude.{◌≡◌, ◌<◌, ◌^◌, List as ListOf, ℕ, Option as OptionOf, set, unwrap_or};
ghost use Rattle.std.specs.Prelude.{IfOk, OnErr};
ghost use Rattle.dm_auth.specs.declared.accounts.Account.{Account as AnAccount};
ghost use Rattle.dm_headers.specs.Standings;
ghost use Rattle.dm_atomic.specs.Engine.{state_of};
ghost use Rattle.dm_machine.specs.declared.progress.Progress.{Progress as AProgress};
ghost use Rattle.dm_machine.specs.Machine.{Machine as AMachine};
ghost use Rattle.dm_machine.specs.Messages as Spec;
ghost use Rattle.dm_machine.specs.Ready.{IsReadyMessage, IsReadyProgress};
ghost use Rattle.dm_session.specs.Frames.{CanAnswer, CanWork, KeepsBut};
ghost use Rattle.dm_session.specs.Inside.{machine_of, IsSpelled, CanWorkOn};
ghost use Rattle.dm_session.specs.Stays.{body_covers};
ghost use Rattle.dm_session.specs.Working.{rest_told, outcome, rest_behind, drafted, IsNextSpelled, HeardAs};

use crate::answering::answered;
use crate::drafts::{ClientChanges, Next};
use crate::ending::close;
use crate::headers::header_from;
use crate::rest::Rest;
use crate::work::ClientWork;
use dm_atomic::Engine;
use dm_auth::Account;
use dm_base::{Memory, Nonce};
use dm_ends::{LastMessage, farewell, has_abort};
use dm_headers::{Heard, Side, hear, passes};
use dm_machine::{End, Progress};
use dm_pack::Queue;
use syncml_types::Message;
use syncml_types::copies::copy_bytes;

// The message with which the session is denied.
fn denial(
    engine: &Engine,
    work: &ClientWork,
    message: &Message,
    nonce: &Nonce,
    code: u32,
) -> Result<LastMessage, Memory>
    requires can_answer { CanAnswer engine.now work.now }
    requires message { IsReadyMessage message.now nonce.now.bytes }
    ensures message { IfOk result (λ sent. (c : AMachine) → c.limits ≡ work.now.rest.now.limits
        → c.engine.tree ≡ (state_of engine.now).tree
        → sent.message
        ≡ Spec.farewell_of c work.now.progress work.now.account.now message.now code nonce.now.bytes) }
    ensures spelled { IfOk result IsSpelled }
{
    let rest = work.rest;
    let header = header_from(
        rest.alloc,
        rest.limits,
        engine.tree(),
        &rest.place,
        &work.progress,
        work.account,
    )?;
    let last = farewell(rest.alloc, header, message, code, nonce)?;
    Ok(last)
}

// A message whose header was heard.
#[tactic(auto, using(crate::proofs::Frames::keeps_self, crate::proofs::Frames::keeps_more))]
fn by_header(
    engine: &mut Engine,
    queue: &mut Queue,
    work: &ClientWork,
    message: Message,
    nonce: &Nonce,
    heard: &Heard,
) -> Result<Next, Memory>
    requires can_work { CanWork engine.old queue.old work.now }
    requires code { heard.now.code < 2 ^ 32 }
    requires message { IsReadyMessage message nonce.now.bytes }
    ensures state { IfOk result (λ next. (accounts : ListOf AnAccount) (uri : OptionOf (ListOf ℕ)) (p : AProgress)
        (h : Standings.Heard) → HeardAs heard.now work.now.account.now h
        → record p { standing = h.standing } ≡ work.now.progress
        → outcome (machine_of engine.new queue.new
        (rest_behind (rest_told work.now.rest.now (set accounts p.account work.now.account.now) uri) next)) next
        ≡ Spec.by_header (machine_of engine.old queue.old (rest_told work.now.rest.now accounts uri)) p message
        nonce.now.bytes h) }
    ensures spelled { IfOk result IsNextSpelled }
    ensures err { OnErr result (queue.new ≡ queue.old) }
    ensures keeps { KeepsBut (body_covers message.body) engine.old engine.new }
{
    if heard.second {
        let farewell = denial(engine, work, &message, nonce, heard.code)?;
        close(engine, queue);
        return Ok(Next::Ends(End::Denied, Some(farewell)));
    }
    if passes(heard.code) && has_abort(message.body().as_slice()) {
        close(engine, queue);
        return Ok(Next::Ends(End::Aborted, None));
    }
    answered(engine, queue, work, message, nonce, heard)
}

// The account with the nonces to use next.
fn renewed_by<'a>(heard: &'a Heard, account: &'a Account) -> &'a Account
    ensures { result.now ≡ unwrap_or heard.now.account account.now }
{
    match &heard.account {
        Some(renewed) => renewed,
        None => account,
    }
}

/// A message that is new to the session at its open progress. After `Memory` the queue is as before, and the engine may
/// be anywhere on the way: go back to a mark.
#[tactic(auto, using(crate::proofs::Frames::keeps_self, crate::proofs::Frames::keeps_more))]
pub(crate) fn accept(
    engine: &mut Engine,
    queue: &mut Queue,
    rest: &Rest,
    progress: &Progress,
    message: Message,
    nonce: &Nonce,
) -> Result<ClientChanges, Memory>
    requires goes_on { CanWorkOn engine.old queue.old rest.now }
    requires progress { IsReadyProgress (machine_of engine.old queue.old rest.now) progress.now }
    requires message { IsReadyMessage message nonce.now.bytes }
    ensures state { IfOk result
        (λ draft. outcome (machine_of engine.new queue.new (drafted rest.now progress.now.account draft)) draft.next
        ≡ Spec.accepts (machine_of engine.old queue.old rest.now) progress.now message nonce.now.bytes) }
    ensures spelled { IfOk result (λ draft. IsNextSpelled draft.next) }
    ensures err { OnErr result (queue.new ≡ queue.old) }
    ensures keeps { KeepsBut (body_covers message.body) engine.old engine.new }
{
    let resp_uri = copy_bytes(rest.alloc, &message.header().resp_uri)?;
    if progress.standing.own == u32::MAX {
        close(engine, queue);
        return Ok(ClientChanges {
            resp_uri,
            account: None,
            next: Next::Ends(End::Aborted, None),
        });
    }
    let account = &rest.accounts.as_slice()[progress.account];
    let heard = hear(
        rest.alloc,
        Side::Server,
        account,
        &progress.standing,
        &message,
        nonce,
    )?;
    let work = ClientWork {
        rest,
        account: renewed_by(&heard, account),
        progress: Progress {
            standing: heard.standing,
            ..*progress
        },
    };
    let next = by_header(engine, queue, &work, message, nonce, &heard)?;
    Ok(ClientChanges {
        resp_uri,
        account: heard.account,
        next,
    })
}
