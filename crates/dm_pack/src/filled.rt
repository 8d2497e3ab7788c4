// One message filled from the entries that wait.
ghost use Rattle.std.specs.Prelude.{◌≡◌, ◌<◌, ◌≤◌, ◌+◌, ◌++◌, ◌∷◌, ◌^◌, [], length, drop, OnOk, IfOk};
ghost use Rattle.std.specs.List.{AllByRecursion};
ghost use Rattle.dm_base.specs.Limits.{least_room, message_limit};
ghost use Rattle.syncml_types.specs.Canonical.{canonical};
ghost use Rattle.syncml_types.specs.Lengths.{up_to_most};
ghost use Rattle.dm_pack.specs.Entries.{IsReady};
ghost use Rattle.dm_pack.specs.Filling as Spec;
ghost use Rattle.dm_pack.specs.Filling.{numbered, tail_commands, is_final, IsReadyHeader, CanBeTaken, fill as fill_of};

use crate::fitting::{push_next, take_entries};
use crate::place::asks_next;
use crate::queue::Queue;
use dm_base::{Boxed, Bytes, List, Memory};
use std::alloc::Global;
use syncml_codec::encode_with_length;
use syncml_parts::set_ids;
use syncml_types::{Command, Header, Message};

// About as many bytes as a Status takes; where entries take fewer, the list of a message's commands grows.
pub(crate) const ENTRY: usize = 64;

/// What stands at the end of a message.
#[derive(Clone, Copy, Debug, PartialEq, Eq)]
pub enum Tail {
    /// Final: nothing waits, and the package ends.
    Final,
    /// An Alert 1222: nothing waits, and the other side goes on.
    NextMessage,
    /// Neither: entries wait.
    Nothing,
}

/// A message and its spelling, how many entries it holds whole, how many bytes of the next entry's Data, and its end.
#[derive(Drop)]
pub struct Filled {
    pub message: Message,
    pub bytes: Bytes,
    pub whole: usize,
    pub cut: u64,
    pub tail: Tail,
}

#[tactic(auto, using(crate::proofs::Greatest::tail_done, crate::proofs::Greatest::tail_waits))]
fn tail_of(queue: &Queue, whole: usize, heard: bool) -> Tail
    ensures { result ≡ Spec.tail_of (drop whole queue.now) heard }
{
    if whole < queue.len() {
        Tail::Nothing
    } else if heard {
        Tail::Final
    } else {
        Tail::NextMessage
    }
}

pub(crate) fn is_final(tail: Tail) -> bool
    ensures { result ≡ Spec.is_final tail }
{
    match tail {
        Tail::Final => true,
        Tail::NextMessage | Tail::Nothing => false,
    }
}

#[tactic(auto, unfolding(syncml_parts::specs::Numbering::ids_in))]
fn push_asks(alloc: Global, next: u32, body: &mut List<Command>) -> Result<(), Memory>
    requires { next + 1 < 2 ^ 32 }
    ensures { OnOk result (body.new ≡ body.old ++ numbered next (Spec.asks_next ∷ [])) }
{
    let mut asks = asks_next(alloc);
    set_ids(&mut asks, next);
    body.push(asks)
}

pub(crate) fn push_tail(
    alloc: Global,
    tail: Tail,
    next: u32,
    body: &mut List<Command>,
) -> Result<(), Memory>
    requires { next + 1 < 2 ^ 32 }
    ensures { OnOk result (body.new ≡ body.old ++ numbered next (tail_commands tail)) }
{
    match tail {
        Tail::NextMessage => push_asks(alloc, next, body),
        Tail::Final | Tail::Nothing => Ok(()),
    }
}

pub(crate) fn spelled(
    alloc: Global,
    message: Message,
    message_length: u64,
    whole: usize,
    cut: u64,
    tail: Tail,
) -> Result<Filled, Memory>
    requires { message_length ≡ up_to_most (length (canonical message)) }
    ensures message { IfOk result (λ f. f.message ≡ message) }
    ensures bytes { IfOk result (λ f. f.bytes ≡ canonical message) }
    ensures counts { IfOk result (λ f. (f.whole ≡ whole) × (f.cut ≡ cut)) }
    ensures tail { IfOk result (λ f. f.tail ≡ tail) }
{
    match encode_with_length(alloc, &message, message_length) {
        Err(memory) => {
            drop(message);
            Err(memory)
        }
        Ok(bytes) => Ok(Filled {
            message,
            bytes,
            whole,
            cut,
            tail,
        }),
    }
}

/// The message that is sent next: as many entries from the front as fit into `room` bytes, measured as if an Alert 1222
/// and Final stood behind them, and a part of the next one where it may be cut, with the greatest number of bytes with
/// which the message fits so, fewer than are left. It ends with Final where nothing is left and the other side's
/// package has ended (`heard`), with an Alert 1222 where nothing is left and it hasn't, else with neither. Each entry
/// is measured once, and nothing is made or spelled to be measured.
pub fn fill(queue: &Queue, header: Boxed<Header>, room: u64, heard: bool) -> Result<Filled, Memory>
    requires ready { AllByRecursion IsReady queue.now }
    requires header { IsReadyHeader header }
    requires room { (least_room ≤ room) × (room ≤ message_limit) }
    ensures message { IfOk result (λ f. f.message ≡ (fill_of queue.now header room heard).message) }
    ensures bytes { IfOk result (λ f. f.bytes ≡ canonical (fill_of queue.now header room heard).message) }
    ensures whole { IfOk result (λ f. f.whole ≡ (fill_of queue.now header room heard).whole) }
    ensures cut { IfOk result (λ f. f.cut ≡ (fill_of queue.now header room heard).cut) }
    ensures tail { IfOk result (λ f. f.tail ≡ (fill_of queue.now header room heard).tail) }
    ensures within { IfOk result (λ f. length f.bytes ≤ room) }
    ensures taken { IfOk result (λ f. CanBeTaken queue.now f.whole f.cut) }
{
    let alloc = queue.alloc();
    let mut body = List::with_room(alloc, queue.len().min(room as usize / ENTRY))?;
    let taken = take_entries(queue, &header, room, &mut body)?;
    let (cut, place) = push_next(queue, taken, room, &mut body)?;
    let tail = tail_of(queue, taken.whole, heard);
    push_tail(alloc, tail, place.next, &mut body)?;
    let message_length = place.used.saturating_add(place.tail_length(tail));
    let message = Message::of_parts(header, body, is_final(tail));
    spelled(alloc, message, message_length, taken.whole, cut, tail)
}
