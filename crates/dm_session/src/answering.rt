// What a message that is accepted is answered.
ghost use Rattle.std.specs.Prelude.{◌≡◌, ◌==◌, ◌&&◌, ◌≤◌, ◌<◌, ◌+◌, ◌^◌, ◌++◌, List as ListOf, ℕ};
ghost use Rattle.std.specs.Prelude.{Option as OptionOf, Some};
ghost use Rattle.std.specs.Prelude.{[], if◌then◌else◌, length, map, IfOk, OnErr};
ghost use Rattle.std.specs.List.{AllByRecursion, list_all};
ghost use Rattle.std.specs.Option.{option_to_list};
ghost use Rattle.dm_auth.specs.declared.accounts.Account.{Account as AnAccount};
ghost use Rattle.dm_headers.specs.Checks.{passes as passing};
ghost use Rattle.dm_headers.specs.Standings;
ghost use Rattle.dm_tree.specs.Devices.{IsUpdateInOrder};
ghost use Rattle.dm_pack.specs.Entries.{whole_entry, IsReady};
ghost use Rattle.dm_atomic.specs.Engine.{state_of, IsSoundEngine};
ghost use Rattle.dm_commands.specs.Promises.{none_moved};
ghost use Rattle.dm_atomic.specs.Updates.{clock_of, max_obj_of};
ghost use Rattle.dm_machine.specs.declared.progress.Progress.{Progress as AProgress};
ghost use Rattle.dm_machine.specs.Machine.{Machine as AMachine};
ghost use Rattle.dm_machine.specs.declared.kinds.End.TheVariants.{Finished};
ghost use Rattle.dm_machine.specs.Messages as Spec;
ghost use Rattle.dm_machine.specs.Messages.{goes_on, ends};
ghost use Rattle.dm_machine.specs.Sending.{sends};
ghost use Rattle.dm_machine.specs.Ready.{IsReadyMessage};
ghost use Rattle.dm_session.specs.Frames.{CanAnswer, CanWork, KeepsBut};
ghost use Rattle.dm_session.specs.Inside.{machine_of, IsSpelled};
ghost use Rattle.dm_session.specs.Stays.{body_covers};
ghost use Rattle.dm_session.specs.Working.{rest_told, outcome, rest_behind, waiting_with, behind_status};
ghost use Rattle.dm_session.specs.Working.{IsNextSpelled, HeardAs, Executed};

use crate::drafts::Next;
use crate::ending::close;
use crate::executing::execute;
use crate::headers::header_from;
use crate::opening::opening;
use crate::rest::Session;
use crate::sending::{push_all, send, session_after};
use crate::work::ClientWork;
use dm_atomic::Engine;
use dm_auth::Account;
use dm_base::{List, Memory, Nonce};
use dm_ends::all_reports;
use dm_headers::{Heard, header_status, is_denied, passes};
use dm_machine::{End, Progress};
use dm_pack::Queue;
use std::alloc::Global;
use syncml_types::{Command, Message};

// How far the session has come with so many entries more in front.
fn pushed_back(progress: &Progress, by: usize) -> Result<Progress, Memory>
    ensures { IfOk result (λ behind. behind ≡ record progress.now { opening_at = progress.now.opening_at + by }) }
{
    // As many entries as that can't be held.
    let Some(opening_at) = progress.opening_at.checked_add(by) else {
        return Err(Memory);
    };
    Ok(Progress {
        opening_at,
        ..*progress
    })
}

fn count_of(entry: &Option<Command>) -> usize
    ensures { result ≡ length (option_to_list entry.now) }
{
    match entry {
        None => 0,
        Some(_) => 1,
    }
}

// The message that answers: a Status for the header in front of what waits, and what was made behind it.
fn answer(
    engine: &Engine,
    queue: &mut Queue,
    work: &ClientWork,
    status: Option<Command>,
    made: List<Command>,
) -> Result<Session, Memory>
    requires can_answer { CanAnswer engine.now work.now }
    requires ready { AllByRecursion IsReady (waiting_with status queue.old made) }
    ensures state { IfOk result (λ session. (accounts : ListOf AnAccount) (uri : OptionOf (ListOf ℕ))
        → machine_of engine.now queue.new (record (rest_told work.now.rest.now accounts uri) { session = Some session })
        ≡ sends (machine_of engine.now (waiting_with status queue.old made) (rest_told work.now.rest.now accounts uri))
        (behind_status work.now.progress status) work.now.account.now) }
    ensures spelled { IfOk result (λ session. IsSpelled session.sent) }
    ensures err { OnErr result (queue.new ≡ queue.old) }
{
    let rest = work.rest;
    let behind = pushed_back(&work.progress, count_of(&status))?;
    let header = header_from(
        rest.alloc,
        rest.limits,
        engine.tree(),
        &rest.place,
        &work.progress,
        work.account,
    )?;
    let standing = &work.progress.standing;
    let filled = send(queue, status, made, header, standing.room, standing.heard)?;
    Ok(session_after(&behind, filled))
}

// The queue with the whole first package behind all else, in place of what waits of it; and how far the session has
// come then. The copy is made at most once in a session, since a second failure ends it.
fn queued_again(
    engine: &Engine,
    queue: &Queue,
    work: &ClientWork,
) -> Result<(Queue, Progress), Memory>
    requires update { IsUpdateInOrder (state_of engine.now).tree }
    requires opening { work.now.progress.opening_at + work.now.progress.opening_left ≤ length queue.now }
    ensures again { IfOk result (λ again. (c : AMachine) → c.results ≡ work.now.rest.now.results
        → c.engine.tree ≡ (state_of engine.now).tree
        → record { progress = again.1; queue = again.0 }
        ≡ Spec.queued_again c (record { progress = work.now.progress; queue = queue.now })) }
{
    let progress = work.progress;
    let first = opening(
        work.rest.alloc,
        engine.tree(),
        progress.kind,
        &work.rest.results,
    )?;
    let mut again = queue.copy()?;
    again.remove(progress.opening_at, progress.opening_left);
    let next = Progress {
        opening_at: again.len(),
        opening_left: first.len(),
        ..progress
    };
    push_all(&mut again, first)?;
    Ok((again, next))
}

// Whether a message passes, has Final, and holds nothing to execute.
fn has_nothing_more(message: &Message, code: u32) -> bool
    ensures { result ≡ (passing code && message.now.last && list_all Spec.is_report message.now.body) }
{
    passes(code) && message.last() && all_reports(message.body().as_slice())
}

// Such a message, where no entry waits.
fn is_over(nothing_more: bool, queue: &Queue, made: &List<Command>) -> bool
    ensures { result ≡ (nothing_more && length (queue.now ++ map whole_entry made.now) == 0) }
{
    nothing_more && queue.len() == 0 && made.is_empty()
}

// The commands of a message that passes: what they come to.
#[tactic(auto, using(crate::proofs::Frames::keeps_self))]
fn run(
    alloc: Global,
    engine: &mut Engine,
    account: &Account,
    message: Message,
    code: u32,
) -> Result<List<Command>, Memory>
    requires sound { IsSoundEngine engine.old }
    ensures ran { IfOk result (λ made. (c : AMachine) → c.engine ≡ state_of engine.old → c.clock ≡ clock_of engine.old
        → c.limits.max_obj ≡ max_obj_of engine.old
        → Executed (Spec.run_of c account.now message code) (state_of engine.new) made) }
    ensures keeps { KeepsBut (body_covers message.body) engine.old engine.new }
{
    if !passes(code) {
        return Ok(List::new(alloc));
    }
    // One entry a command, and one more for a found value and for the Status of the header.
    let mut made = List::with_room(alloc, message.body().len().saturating_add(2))?;
    execute(engine, account.server.as_slice(), message, &mut made)?;
    Ok(made)
}

// The answer out of the queue that holds the whole first package again.
fn answer_again(
    engine: &Engine,
    queue: &mut Queue,
    work: &ClientWork,
    again: (Queue, Progress),
    status: Option<Command>,
    made: List<Command>,
) -> Result<Next, Memory>
    requires can_answer { CanAnswer engine.now (record work.now { progress = again.1 }) }
    requires ready { AllByRecursion IsReady (waiting_with status again.0 made) }
    ensures state { IfOk result (λ next. (accounts : ListOf AnAccount) (uri : OptionOf (ListOf ℕ))
        → outcome (machine_of engine.now queue.new (rest_behind (rest_told work.now.rest.now accounts uri) next)) next
        ≡ goes_on (sends (machine_of engine.now (waiting_with status again.0 made)
        (rest_told work.now.rest.now accounts uri)) (behind_status again.1 status) work.now.account.now)) }
    ensures spelled { IfOk result IsNextSpelled }
    ensures err { OnErr result (queue.new ≡ queue.old) }
{
    let (mut waiting, progress) = again;
    let work = ClientWork { progress, ..*work };
    let session = answer(engine, &mut waiting, &work, status, made)?;
    *queue = waiting;
    Ok(Next::GoesOn(session))
}

// The answer, or the end of the session where nothing is left on either side: the message has nothing more, and no
// entry waits.
#[tactic(auto, using(crate::proofs::Frames::keeps_self))]
fn answer_or_end(
    engine: &mut Engine,
    queue: &mut Queue,
    work: &ClientWork,
    nothing_more: bool,
    status: Option<Command>,
    made: List<Command>,
) -> Result<Next, Memory>
    requires sound { IsSoundEngine engine.old }
    requires can_answer { CanAnswer engine.old work.now }
    requires ready { AllByRecursion IsReady (waiting_with status queue.old made) }
    ensures state { IfOk result (λ next. (accounts : ListOf AnAccount) (uri : OptionOf (ListOf ℕ))
        → outcome (machine_of engine.new queue.new (rest_behind (rest_told work.now.rest.now accounts uri) next)) next
        ≡ (if nothing_more && length (queue.old ++ map whole_entry made) == 0
        then ends (Spec.finished (machine_of engine.old queue.old (rest_told work.now.rest.now accounts uri))) Finished
        else goes_on (sends (machine_of engine.old (waiting_with status queue.old made)
        (rest_told work.now.rest.now accounts uri)) (behind_status work.now.progress status) work.now.account.now))) }
    ensures spelled { IfOk result IsNextSpelled }
    ensures err { OnErr result (queue.new ≡ queue.old) }
    ensures keeps { KeepsBut none_moved engine.old engine.new }
{
    if is_over(nothing_more, queue, &made) {
        close(engine, queue);
        return Ok(Next::Ends(End::Finished, None));
    }
    let session = answer(engine, queue, work, status, made)?;
    Ok(Next::GoesOn(session))
}

/// A message that is answered, or with which the session is finished.
#[tactic(auto, using(crate::proofs::Frames::keeps_self, crate::proofs::Frames::keeps_then_none))]
pub(crate) fn answered(
    engine: &mut Engine,
    queue: &mut Queue,
    work: &ClientWork,
    message: Message,
    nonce: &Nonce,
    heard: &Heard,
) -> Result<Next, Memory>
    requires can_work { CanWork engine.old queue.old work.now }
    requires code { heard.now.code < 2 ^ 32 }
    requires message { IsReadyMessage message nonce.now.bytes }
    ensures state { IfOk result (λ next. (accounts : ListOf AnAccount) (uri : OptionOf (ListOf ℕ)) (p : AProgress)
        (h : Standings.Heard) → HeardAs heard.now work.now.account.now h
        → record p { standing = h.standing } ≡ work.now.progress
        → outcome (machine_of engine.new queue.new (rest_behind (rest_told work.now.rest.now accounts uri) next)) next
        ≡ Spec.answered (machine_of engine.old queue.old (rest_told work.now.rest.now accounts uri))
        (Spec.waits_after (machine_of engine.old queue.old (rest_told work.now.rest.now accounts uri)) p h) message h
        nonce.now.bytes
        (Spec.run_of (machine_of engine.old queue.old (rest_told work.now.rest.now accounts uri)) h.account message
        h.code)) }
    ensures spelled { IfOk result IsNextSpelled }
    ensures err { OnErr result (queue.new ≡ queue.old) }
    ensures keeps { KeepsBut (body_covers message.body) engine.old engine.new }
{
    let alloc = work.rest.alloc;
    let status = header_status(alloc, message.header(), heard.code, nonce)?;
    if is_denied(heard.status) {
        let again = queued_again(engine, queue, work)?;
        let made = run(alloc, engine, work.account, message, heard.code)?;
        let next = answer_again(engine, queue, work, again, status, made)?;
        return Ok(next);
    }
    let nothing_more = has_nothing_more(&message, heard.code);
    let made = run(alloc, engine, work.account, message, heard.code)?;
    let next = answer_or_end(engine, queue, work, nothing_more, status, made)?;
    Ok(next)
}
