// The next message, out of what waits.
ghost use Rattle.std.specs.Prelude.{◌≡◌, ◌≤◌, ◌<◌, ◌+◌, ◌^◌, ◌++◌, [], length, map, take, IfOk, OnOk, OnErr};
ghost use Rattle.std.specs.List.{AllByRecursion};
ghost use Rattle.std.specs.Option.{option_to_list};
ghost use Rattle.dm_base.specs.Limits.{least_room, message_limit};
ghost use Rattle.dm_pack.specs.Entries.{whole_entry, IsReady, Entry as AnEntry};
ghost use Rattle.dm_pack.specs.Filling.{fill as fill_of, IsReadyHeader, Filling};
ghost use Rattle.dm_machine.specs.Sending.{moved_on as moved};
ghost use Rattle.dm_session.specs.Frames.{IsPackedAs};
ghost use Rattle.dm_session.specs.Working.{waiting_with};

use crate::rest::Session;
use dm_base::{Boxed, List, Memory};
use dm_ends::LastMessage;
use dm_machine::Progress;
use dm_pack::{Filled, Queue, Tail, fill, fill_at_once};
use syncml_types::{Command, Header};

// How many entries it is.
fn push_front(queue: &mut Queue, entry: Option<Command>) -> Result<usize, Memory>
    ensures ok { OnOk result (queue.new ≡ map whole_entry (option_to_list entry) ++ queue.old) }
    ensures count { IfOk result (λ count. count ≡ length (option_to_list entry)) }
    ensures err { OnErr result (queue.new ≡ queue.old) }
{
    match entry {
        None => Ok(0),
        Some(entry) => {
            queue.push_front(entry)?;
            Ok(1)
        }
    }
}

/// Puts entries behind the queue. After `Memory` some of them may stand there.
#[tactic(auto, using(crate::proofs::Queues::front_still))]
pub(crate) fn push_all(queue: &mut Queue, entries: List<Command>) -> Result<(), Memory>
    ensures ok { OnOk result (queue.new ≡ queue.old ++ map whole_entry entries) }
    ensures err { OnErr result (take (length queue.old) queue.new ≡ queue.old) }
{
    for entry in entries.into_vec() {
        queue.push_back(entry)?;
    }
    Ok(())
}

// After `Memory` some of the entries may stand behind the queue.
#[tactic(auto, using(crate::proofs::Queues::front_stays, crate::proofs::Queues::left_is))]
fn send_behind(
    queue: &mut Queue,
    entries: List<Command>,
    header: Boxed<Header>,
    room: u64,
    heard: bool,
) -> Result<Filled, Memory>
    requires ready { AllByRecursion IsReady (queue.old ++ map whole_entry entries) }
    requires header { IsReadyHeader header }
    requires room { (least_room ≤ room) × (room ≤ message_limit) }
    ensures packed { IfOk result (IsPackedAs (fill_of (queue.old ++ map whole_entry entries) header room heard) room) }
    ensures ok { OnOk result (queue.new ≡ (fill_of (queue.old ++ map whole_entry entries) header room heard).left) }
    ensures err { OnErr result (take (length queue.old) queue.new ≡ queue.old) }
{
    push_all(queue, entries)?;
    let filled = fill(queue, header, room, heard)?;
    queue.commit(&filled);
    Ok(filled)
}

/// Puts an entry in front of the queue, where there is one, and others behind it, and takes the next message out. After
/// `Memory` the queue is as before.
#[tactic(auto, using(crate::proofs::Queues::front_gone, crate::proofs::Queues::front_long, crate::proofs::Queues::none_waits))]
pub(crate) fn send(
    queue: &mut Queue,
    front: Option<Command>,
    entries: List<Command>,
    header: Boxed<Header>,
    room: u64,
    heard: bool,
) -> Result<Filled, Memory>
    requires ready { AllByRecursion IsReady (waiting_with front queue.old entries) }
    requires header { IsReadyHeader header }
    requires room { (least_room ≤ room) × (room ≤ message_limit) }
    ensures packed { IfOk result (IsPackedAs (fill_of (waiting_with front queue.old entries) header room heard) room) }
    ensures ok { OnOk result (queue.new ≡ (fill_of (waiting_with front queue.old entries) header room heard).left) }
    ensures err { OnErr result (queue.new ≡ queue.old) }
{
    if queue.len() == 0 {
        return fill_at_once(queue, front, entries, header, room, heard);
    }
    let fronts = push_front(queue, front)?;
    let waiting = queue.len();
    match send_behind(queue, entries, header, room, heard) {
        Ok(filled) => Ok(filled),
        Err(memory) => {
            queue.cut_to(waiting);
            queue.remove(0, fronts);
            Err(memory)
        }
    }
}

/// How far the session has come once a message is sent: what it takes leaves the queue, entries of the first package
/// too, and with Final it is the server's turn.
pub(crate) fn moved_on(progress: &Progress, filled: &Filled) -> Progress
    requires own { progress.now.standing.own + 1 < 2 ^ 32 }
    ensures { (f : Filling) → filled.now.whole ≡ f.whole → filled.now.tail ≡ f.tail → result ≡ moved progress.now f }
{
    let mut next = *progress;
    next.standing.own += 1;
    if filled.tail == Tail::Final {
        next.standing.heard = false;
    }
    let behind = filled.whole.saturating_sub(progress.opening_at);
    next.opening_at = progress.opening_at.saturating_sub(filled.whole);
    next.opening_left = progress.opening_left.saturating_sub(behind);
    next
}

/// The session once the message is sent.
pub(crate) fn session_after(progress: &Progress, filled: Filled) -> Session
    requires own { progress.now.standing.own + 1 < 2 ^ 32 }
    ensures progress { (f : Filling) → filled.whole ≡ f.whole → filled.tail ≡ f.tail
        → result.progress ≡ moved progress.now f }
    ensures message { result.sent.message ≡ filled.message }
    ensures bytes { result.sent.bytes ≡ filled.bytes }
{
    let progress = moved_on(progress, &filled);
    let Filled { message, bytes, .. } = filled;
    Session {
        progress,
        sent: LastMessage { message, bytes },
    }
}
