// How many entries fit into a message, and how many bytes of the next one.
ghost use Rattle.std.specs.Prelude.{◌≡◌, ◌<◌, ◌≤◌, ◌+◌, ◌++◌, ◌∷◌, ◌^◌, [], length, take, drop, IfOk, OnOk};
ghost use Rattle.std.specs.List.{AllByRecursion};
ghost use Rattle.dm_base.specs.Limits.{message_limit};
ghost use Rattle.syncml_types.specs.Message.{IsShortData};
ghost use Rattle.syncml_parts.specs.Numbering.{with_numbers, ids_in};
ghost use Rattle.syncml_parts.specs.Packing;
ghost use Rattle.dm_pack.specs.Entries.{IsReady, data_left, part_of};
ghost use Rattle.dm_pack.specs.Filling.{IsReadyHeader, numbered, commands_of, taken, next_part};
ghost use Rattle.dm_pack.specs.Measures.{place_of, behind_all, behind_hollow, hollow_next, greatest_within};
ghost use Rattle.dm_pack.specs.Measures.{greatest_with, greatest_at, cut_at};

use crate::place::{Place, end_length};
use crate::queue::Queue;
use crate::waiting::Waiting;
use dm_base::{Boxed, List, Memory};
use std::alloc::Global;
use syncml_parts::data_length;
use syncml_types::{Command, Header};

// How many entries a message holds whole, where it has come to with them, and where it comes to with the next one
// without the Data that may be cut, which isn't measured again.
#[derive(Clone, Copy)]
pub(crate) struct Fitting {
    pub(crate) whole: usize,
    pub(crate) place: Place,
    pub(crate) hollow: Option<Place>,
}

// The greatest number of bytes from 1 on, fewer than all, that fit with their token, and how long the token is; 0 where
// none does. A token is at least two bytes longer than the Data, and at most four in a message, so few numbers are
// tried.
#[tactic(auto, using(crate::proofs::Greatest::from_below))]
fn greatest_part(value: &[u8], budget: u64) -> (u64, u64)
    requires { IsShortData value.now }
    ensures number { result.0 ≡ greatest_within value.now budget }
    ensures token { 0 < result.0 → result.1 ≡ Packing.data_length (take result.0 value.now) }
    ensures low { result.1 ≤ budget }
{
    let left = value.len() as u64;
    let mut n = left.saturating_sub(1).min(budget.saturating_sub(2));
    while n > 0 {
        let token = data_length(&value[..n as usize]);
        if token <= budget {
            return (n, token);
        }
        n -= 1;
    }
    (0, 0)
}

// With how many bytes of Data a message fits that has come so far with a part without it, and how long their token is.
fn bytes_that_fit(part: Place, value: &[u8], room: u64) -> (u64, u64)
    requires short { IsShortData value.now }
    requires room { room ≤ message_limit }
    requires low { part.next + 1 < 2 ^ 32 }
    ensures number { result.0 ≡ greatest_with part value.now room }
    ensures token { 0 < result.0 → result.1 ≡ Packing.data_length (take result.0 value.now) }
    ensures low { result.1 ≤ room }
{
    let end = end_length(part.page, part.next);
    let used = part.used.saturating_add(1).saturating_add(end);
    greatest_part(value, room.saturating_sub(used))
}

fn push_entry(
    alloc: Global,
    entry: &Waiting,
    first: u32,
    body: &mut List<Command>,
) -> Result<(), Memory>
    requires { first + ids_in entry.now.command < 2 ^ 32 }
    ensures { OnOk result (body.new ≡ body.old ++ with_numbers first entry.now.command ∷ []) }
{
    body.push(entry.to_command(alloc, first)?)
}

// Takes entries from the front while the message fits.
pub(crate) fn take_entries(
    queue: &Queue,
    header: &Boxed<Header>,
    room: u64,
    body: &mut List<Command>,
) -> Result<Fitting, Memory>
    requires ready { AllByRecursion IsReady queue.now }
    requires header { IsReadyHeader header.now }
    requires room { room ≤ message_limit }
    requires empty { body.old ≡ [] }
    ensures whole { IfOk result (λ t. t.whole ≡ taken header.now room [] queue.now) }
    ensures place { IfOk result (λ t. t.place ≡ place_of header.now (commands_of (take t.whole queue.now))) }
    ensures hollow { IfOk result (λ t. t.hollow ≡ hollow_next t.place (drop t.whole queue.now)) }
    ensures body { IfOk result (λ t. body.new ≡ numbered 1 (commands_of (take t.whole queue.now))) }
    ensures within { IfOk result (λ t. t.whole ≤ length queue.now) }
    ensures low { IfOk result (λ t. (t.place.used ≤ message_limit) × (t.place.next ≤ 1 + t.place.used)) }
{
    let alloc = queue.alloc();
    let mut place = Place::start(header);
    for at in 0..queue.len() {
        let entry = queue.entry(at);
        let hollow = place.with_hollow(entry);
        match hollow.with_data(entry.left(), room) {
            None => {
                return Ok(Fitting {
                    whole: at,
                    place,
                    hollow: Some(hollow),
                });
            }
            Some(next) => {
                push_entry(alloc, entry, place.next, body)?;
                place = next;
            }
        }
    }
    Ok(Fitting {
        whole: queue.len(),
        place,
        hollow: None,
    })
}

fn push_bytes(
    alloc: Global,
    entry: &Waiting,
    first: u32,
    bytes: u64,
    body: &mut List<Command>,
) -> Result<(), Memory>
    requires some { 0 < data_left entry.now }
    requires there { bytes ≤ data_left entry.now }
    requires room { first + ids_in entry.now.command < 2 ^ 32 }
    ensures { OnOk result (body.new ≡ body.old ++ with_numbers first (part_of entry.now bytes) ∷ []) }
{
    body.push(entry.to_part(alloc, first, bytes as usize)?)
}

// Adds a part of an entry with as many bytes of its Data as fit, where that is one at least and fewer than all. It
// gives the number, and where the message has come to.
pub(crate) fn push_part(
    alloc: Global,
    place: Place,
    hollow: Place,
    entry: &Waiting,
    room: u64,
    body: &mut List<Command>,
) -> Result<(u64, Place), Memory>
    requires ready { IsReady entry.now }
    requires hollow { hollow ≡ behind_hollow place entry.now }
    requires room { room ≤ message_limit }
    requires low { (place.used ≤ message_limit) × (place.next ≤ 1 + place.used) }
    ensures number { IfOk result (λ r. r.0 ≡ greatest_at place entry.now room) }
    ensures place { IfOk result (λ r. r.1 ≡ behind_all place (next_part r.0 (entry.now ∷ []))) }
    ensures body { IfOk result (λ r. body.new ≡ body.old ++ numbered place.next (next_part r.0 (entry.now ∷ []))) }
    ensures low { IfOk result (λ r. r.1.next ≤ 70000) }
{
    if entry.left().len() < 2 {
        return Ok((0, place));
    }
    let part = hollow.with_marks(entry);
    let (bytes, token) = bytes_that_fit(part, entry.left(), room);
    if bytes == 0 {
        return Ok((0, place));
    }
    push_bytes(alloc, entry, place.next, bytes, body)?;
    let used = part.used + 1 + token;
    Ok((
        bytes,
        Place {
            used,
            page: part.page,
            next: part.next,
        },
    ))
}

// Adds a part of the entry behind those that are taken, where there is one.
pub(crate) fn push_next(
    queue: &Queue,
    taken: Fitting,
    room: u64,
    body: &mut List<Command>,
) -> Result<(u64, Place), Memory>
    requires ready { AllByRecursion IsReady (drop taken.whole queue.now) }
    requires there { taken.whole ≤ length queue.now }
    requires hollow { taken.hollow ≡ hollow_next taken.place (drop taken.whole queue.now) }
    requires room { room ≤ message_limit }
    requires low { (taken.place.used ≤ message_limit) × (taken.place.next ≤ 1 + taken.place.used) }
    ensures number { IfOk result (λ r. r.0 ≡ cut_at taken.place room (drop taken.whole queue.now)) }
    ensures place { IfOk result (λ r. r.1 ≡ behind_all taken.place (next_part r.0 (drop taken.whole queue.now))) }
    ensures body { IfOk result
        (λ r. body.new ≡ body.old ++ numbered taken.place.next (next_part r.0 (drop taken.whole queue.now))) }
    ensures low { IfOk result (λ r. r.1.next ≤ 70000) }
{
    match taken.hollow {
        None => Ok((0, taken.place)),
        Some(hollow) => {
            let entry = queue.entry(taken.whole);
            push_part(queue.alloc(), taken.place, hollow, entry, room, body)
        }
    }
}
