// One message filled out of a queue that gives its entries up. What is whole is moved into the message.
ghost use Rattle.std.specs.Prelude.{◌≡◌, ◌<◌, ◌≤◌, ◌+◌, ◌^◌, ◌∷◌, ◌++◌, [], List as ListOf, length, take, drop};
ghost use Rattle.std.specs.Prelude.{IfOk, OnOk};
ghost use Rattle.std.specs.List.{AllByRecursion};
ghost use Rattle.dm_base.specs.Limits.{least_room, message_limit};
ghost use Rattle.syncml_types.specs.Canonical.{canonical};
ghost use Rattle.syncml_parts.specs.Numbering.{with_numbers, ids_in};
ghost use Rattle.dm_pack.specs.Entries.{IsReady, Entry};
ghost use Rattle.dm_pack.specs.Filling as Spec;
ghost use Rattle.dm_pack.specs.Filling.{numbered, commands_of, taken, next_part, IsReadyHeader, fill as fill_of};
ghost use Rattle.dm_pack.specs.Measures.{place_of, behind_all, hollow_next, cut_at};

use crate::filled::{ENTRY, Filled, Tail, is_final, push_tail, spelled};
use crate::fitting::{Fitting, push_part};
use crate::place::Place;
use crate::queue::Queue;
use dm_base::{Boxed, List, Memory};
use syncml_types::{Command, Header, Message};

// Moves the first entry behind the commands of a message.
fn move_first(queue: &mut Queue, first: u32, body: &mut List<Command>) -> Result<(), Memory>
    requires some { 0 < length queue.old }
    requires room { (e : Entry) (es : ListOf Entry) → queue.old ≡ e ∷ es → first + ids_in e.command < 2 ^ 32 }
    ensures queue { (e : Entry) (es : ListOf Entry) → queue.old ≡ e ∷ es → queue.new ≡ es }
    ensures body { OnOk result ((e : Entry) (es : ListOf Entry) → queue.old ≡ e ∷ es
        → body.new ≡ body.old ++ with_numbers first e.command ∷ []) }
{
    let alloc = queue.alloc();
    match queue.pop_front() {
        None => unreachable!(),
        Some(entry) => body.push(entry.into_command(alloc, first)),
    }
}

// Takes entries out from the front while the message fits.
fn take_out(
    queue: &mut Queue,
    header: &Boxed<Header>,
    room: u64,
    body: &mut List<Command>,
) -> Result<Fitting, Memory>
    requires ready { AllByRecursion IsReady queue.old }
    requires header { IsReadyHeader header.now }
    requires room { room ≤ message_limit }
    requires empty { body.old ≡ [] }
    ensures whole { IfOk result (λ t. t.whole ≡ taken header.now room [] queue.old) }
    ensures place { IfOk result (λ t. t.place ≡ place_of header.now (commands_of (take t.whole queue.old))) }
    ensures hollow { IfOk result (λ t. t.hollow ≡ hollow_next t.place queue.new) }
    ensures body { IfOk result (λ t. body.new ≡ numbered 1 (commands_of (take t.whole queue.old))) }
    ensures queue { IfOk result (λ t. queue.new ≡ drop t.whole queue.old) }
    ensures low { IfOk result (λ t. (t.place.used ≤ message_limit) × (t.place.next ≤ 1 + t.place.used)) }
{
    let count = queue.len();
    let mut place = Place::start(header);
    for at in 0..count {
        let entry = queue.first();
        let hollow = place.with_hollow(entry);
        match hollow.with_data(entry.left(), room) {
            None => {
                return Ok(Fitting {
                    whole: at,
                    place,
                    hollow: Some(hollow),
                });
            }
            Some(next) => {
                move_first(queue, place.next, body)?;
                place = next;
            }
        }
    }
    Ok(Fitting {
        whole: count,
        place,
        hollow: None,
    })
}

// Adds a part of the first entry, where there is one.
fn push_first(
    queue: &Queue,
    taken: Fitting,
    room: u64,
    body: &mut List<Command>,
) -> Result<(u64, Place), Memory>
    requires ready { AllByRecursion IsReady queue.now }
    requires hollow { taken.hollow ≡ hollow_next taken.place queue.now }
    requires room { room ≤ message_limit }
    requires low { (taken.place.used ≤ message_limit) × (taken.place.next ≤ 1 + taken.place.used) }
    ensures number { IfOk result (λ r. r.0 ≡ cut_at taken.place room queue.now) }
    ensures place { IfOk result (λ r. r.1 ≡ behind_all taken.place (next_part r.0 queue.now)) }
    ensures body { IfOk result
        (λ r. body.new ≡ body.old ++ numbered taken.place.next (next_part r.0 queue.now)) }
    ensures low { IfOk result (λ r. r.1.next ≤ 70000) }
{
    match taken.hollow {
        None => Ok((0, taken.place)),
        Some(hollow) => {
            let entry = queue.first();
            push_part(queue.alloc(), taken.place, hollow, entry, room, body)
        }
    }
}

pub(crate) fn tail_behind(queue: &Queue, heard: bool) -> Tail
    ensures { result ≡ Spec.tail_of queue.now heard }
{
    if queue.len() > 0 {
        Tail::Nothing
    } else if heard {
        Tail::Final
    } else {
        Tail::NextMessage
    }
}

// The message, and what it takes off but the part of its last entry.
fn fill_by_move(
    queue: &mut Queue,
    header: Boxed<Header>,
    room: u64,
    heard: bool,
) -> Result<Filled, Memory>
    requires ready { AllByRecursion IsReady queue.old }
    requires header { IsReadyHeader header }
    requires room { (least_room ≤ room) × (room ≤ message_limit) }
    ensures message { IfOk result (λ f. f.message ≡ (fill_of queue.old header room heard).message) }
    ensures bytes { IfOk result (λ f. f.bytes ≡ canonical (fill_of queue.old header room heard).message) }
    ensures whole { IfOk result (λ f. f.whole ≡ (fill_of queue.old header room heard).whole) }
    ensures cut { IfOk result (λ f. f.cut ≡ (fill_of queue.old header room heard).cut) }
    ensures tail { IfOk result (λ f. f.tail ≡ (fill_of queue.old header room heard).tail) }
    ensures within { IfOk result (λ f. length f.bytes ≤ room) }
    ensures queue { IfOk result (λ f. queue.new ≡ drop f.whole queue.old) }
{
    let mut body = List::with_room(queue.alloc(), queue.len().min(room as usize / ENTRY))?;
    let taken = take_out(queue, &header, room, &mut body)?;
    let (cut, place) = push_first(queue, taken, room, &mut body)?;
    let tail = tail_behind(queue, heard);
    push_tail(queue.alloc(), tail, place.next, &mut body)?;
    let message_length = place.used.saturating_add(place.tail_length(tail));
    let message = Message::of_parts(header, body, is_final(tail));
    spelled(
        queue.alloc(),
        message,
        message_length,
        taken.whole,
        cut,
        tail,
    )
}

/// The message that `fill` would give, taken off the queue as `commit` does: the entries that go out whole are moved
/// into it, and not copied. After `Memory` the queue has lost some of them.
pub(crate) fn fill_out(
    queue: &mut Queue,
    header: Boxed<Header>,
    room: u64,
    heard: bool,
) -> Result<Filled, Memory>
    requires ready { AllByRecursion IsReady queue.old }
    requires header { IsReadyHeader header }
    requires room { (least_room ≤ room) × (room ≤ message_limit) }
    ensures message { IfOk result (λ f. f.message ≡ (fill_of queue.old header room heard).message) }
    ensures bytes { IfOk result (λ f. f.bytes ≡ canonical (fill_of queue.old header room heard).message) }
    ensures whole { IfOk result (λ f. f.whole ≡ (fill_of queue.old header room heard).whole) }
    ensures cut { IfOk result (λ f. f.cut ≡ (fill_of queue.old header room heard).cut) }
    ensures tail { IfOk result (λ f. f.tail ≡ (fill_of queue.old header room heard).tail) }
    ensures within { IfOk result (λ f. length f.bytes ≤ room) }
    ensures left { OnOk result (queue.new ≡ (fill_of queue.old header room heard).left) }
{
    let filled = fill_by_move(queue, header, room, heard)?;
    queue.go_on(filled.cut as usize);
    Ok(filled)
}
