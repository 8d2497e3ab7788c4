// A message of commands that stand in a list, where nothing waits. Where all of them fit they go out in that list: none
// is put into the queue, and none is moved.
ghost use Rattle.std.specs.Prelude.{◌≡◌, ◌<◌, ◌≤◌, ◌+◌, ◌++◌, ◌∷◌, ◌^◌, [], length, map, take, drop};
ghost use Rattle.std.specs.Prelude.{IfOk, OnOk, OnErr, IfSome};
ghost use Rattle.std.specs.List.{AllByRecursion};
ghost use Rattle.std.specs.Option.{option_to_list};
ghost use Rattle.dm_base.specs.Limits.{least_room, message_limit};
ghost use Rattle.syncml_types.specs.Canonical.{canonical};
ghost use Rattle.syncml_parts.specs.Packing.{cut_data, bytes_in};
ghost use Rattle.dm_pack.specs.Entries.{IsReady, whole_entry};
ghost use Rattle.dm_pack.specs.Filling.{numbered, taken, IsReadyHeader, fill as fill_of};
ghost use Rattle.dm_pack.specs.Measures.{ids_of, place_of};

use crate::emptying::{fill_out, tail_behind};
use crate::filled::{Filled, is_final, push_tail, spelled};
use crate::place::Place;
use crate::queue::Queue;
use dm_base::{Boxed, List, Memory};
use syncml_parts::{cut_item, set_ids};
use syncml_types::{Command, Header, Item, Message};

fn value_length(item: &Item) -> usize
    ensures { result ≡ length (bytes_in item.now.value) }
{
    match &item.value {
        None => 0,
        Some(value) => value.len(),
    }
}

// How long the Data is that may be cut.
fn data_size(command: &Command) -> usize
    ensures { result ≡ length (cut_data command.now) }
{
    match cut_item(command) {
        None => 0,
        Some(item) => value_length(item),
    }
}

fn command_at(commands: &List<Command>, at: usize) -> &Command
    requires { at < length commands.now }
    ensures { drop at commands.now ≡ result.now ∷ drop (at + 1) commands.now }
{
    &commands.as_slice()[at]
}

// How far a message comes with all of these commands, where it fits with each of them. Data that is as long as the room
// isn't looked at.
fn all_that_fit(commands: &List<Command>, header: &Boxed<Header>, room: u64) -> Option<Place>
    requires ready { AllByRecursion IsReady (map whole_entry commands.now) }
    requires header { IsReadyHeader header.now }
    requires room { room ≤ message_limit }
    ensures whole { IfSome result (λ place. taken header.now room [] (map whole_entry commands.now)
        ≡ length commands.now) }
    ensures place { IfSome result (λ place. place ≡ place_of header.now commands.now) }
    ensures low { IfSome result (λ place. (place.used ≤ message_limit) × (place.next ≤ 1 + place.used)) }
{
    let mut place = Place::start(header);
    for at in 0..commands.len() {
        let command = command_at(commands, at);
        if data_size(command) as u64 >= room {
            return None;
        }
        match place.with_command(command, room) {
            None => return None,
            Some(next) => place = next,
        }
    }
    Some(place)
}

// Numbers the command at a place, and answers the number for the one behind it.
fn set_ids_at(commands: &mut List<Command>, at: usize, first: u32) -> u32
    requires there { at < length commands.old }
    requires room { first + ids_of (drop at commands.old) < 2 ^ 32 }
    ensures numbers { take (at + 1) commands.new ++ numbered result (drop (at + 1) commands.new)
        ≡ take at commands.old ++ numbered first (drop at commands.old) }
    ensures ids { result + ids_of (drop (at + 1) commands.new) ≡ first + ids_of (drop at commands.old) }
    ensures length { length commands.new ≡ length commands.old }
{
    match commands.get_mut(at) {
        None => unreachable!(),
        Some(command) => set_ids(command, first),
    }
}

fn number_all(commands: &mut List<Command>)
    requires { 1 + ids_of commands.old < 2 ^ 32 }
    ensures { commands.new ≡ numbered 1 commands.old }
{
    let mut next = 1;
    for at in 0..commands.len() {
        next = set_ids_at(commands, at, next);
    }
}

// The same through the queue.
#[tactic(auto, using(crate::proofs::Listed::put_alone))]
fn fill_put(
    queue: &mut Queue,
    commands: List<Command>,
    header: Boxed<Header>,
    room: u64,
    heard: bool,
) -> Result<Filled, Memory>
    requires none { queue.old ≡ [] }
    requires ready { AllByRecursion IsReady (map whole_entry commands) }
    requires header { IsReadyHeader header }
    requires room { (least_room ≤ room) × (room ≤ message_limit) }
    ensures message { IfOk result (λ f. f.message ≡ (fill_of (map whole_entry commands) header room heard).message) }
    ensures bytes { IfOk result (λ f. f.bytes
        ≡ canonical (fill_of (map whole_entry commands) header room heard).message) }
    ensures whole { IfOk result (λ f. f.whole ≡ (fill_of (map whole_entry commands) header room heard).whole) }
    ensures cut { IfOk result (λ f. f.cut ≡ (fill_of (map whole_entry commands) header room heard).cut) }
    ensures tail { IfOk result (λ f. f.tail ≡ (fill_of (map whole_entry commands) header room heard).tail) }
    ensures within { IfOk result (λ f. length f.bytes ≤ room) }
    ensures left { OnOk result (queue.new ≡ (fill_of (map whole_entry commands) header room heard).left) }
{
    queue.push_all(commands)?;
    fill_out(queue, header, room, heard)
}

// What is sent of the commands of a list, in that list where all of them fit.
fn fill_listed(
    queue: &mut Queue,
    commands: List<Command>,
    header: Boxed<Header>,
    room: u64,
    heard: bool,
) -> Result<Filled, Memory>
    requires none { queue.old ≡ [] }
    requires ready { AllByRecursion IsReady (map whole_entry commands) }
    requires header { IsReadyHeader header }
    requires room { (least_room ≤ room) × (room ≤ message_limit) }
    ensures message { IfOk result (λ f. f.message ≡ (fill_of (map whole_entry commands) header room heard).message) }
    ensures bytes { IfOk result (λ f. f.bytes
        ≡ canonical (fill_of (map whole_entry commands) header room heard).message) }
    ensures whole { IfOk result (λ f. f.whole ≡ (fill_of (map whole_entry commands) header room heard).whole) }
    ensures cut { IfOk result (λ f. f.cut ≡ (fill_of (map whole_entry commands) header room heard).cut) }
    ensures tail { IfOk result (λ f. f.tail ≡ (fill_of (map whole_entry commands) header room heard).tail) }
    ensures within { IfOk result (λ f. length f.bytes ≤ room) }
    ensures left { OnOk result (queue.new ≡ (fill_of (map whole_entry commands) header room heard).left) }
{
    let Some(place) = all_that_fit(&commands, &header, room) else {
        return fill_put(queue, commands, header, room, heard);
    };
    let whole = commands.len();
    let mut body = commands;
    number_all(&mut body);
    let tail = tail_behind(queue, heard);
    push_tail(queue.alloc(), tail, place.next, &mut body)?;
    let message_length = place.used.saturating_add(place.tail_length(tail));
    let message = Message::of_parts(header, body, is_final(tail));
    spelled(queue.alloc(), message, message_length, whole, 0, tail)
}

// An entry in front of others, where there is one.
fn with_front(front: Option<Command>, entries: List<Command>) -> Result<List<Command>, Memory>
    ensures { IfOk result (λ all. all ≡ option_to_list front ++ entries) }
{
    match front {
        None => Ok(entries),
        Some(front) => {
            let mut all = entries;
            all.push_front(front)?;
            Ok(all)
        }
    }
}

/// The message that `fill` would give where an entry, if there is one, and others behind it were put into a queue in
/// which nothing waits; what doesn't go out waits then. After `Memory` nothing waits. Where all of them fit they
/// needn't go through the queue.
#[tactic(auto, using(crate::proofs::Listed::put_around))]
pub fn fill_at_once(
    queue: &mut Queue,
    front: Option<Command>,
    entries: List<Command>,
    header: Boxed<Header>,
    room: u64,
    heard: bool,
) -> Result<Filled, Memory>
    requires none { queue.old ≡ [] }
    requires ready { AllByRecursion IsReady (map whole_entry (option_to_list front)
        ++ (queue.old ++ map whole_entry entries)) }
    requires header { IsReadyHeader header }
    requires room { (least_room ≤ room) × (room ≤ message_limit) }
    ensures message { IfOk result (λ f. f.message
        ≡ (fill_of (map whole_entry (option_to_list front) ++ (queue.old ++ map whole_entry entries))
        header room heard).message) }
    ensures bytes { IfOk result (λ f. f.bytes ≡ canonical f.message) }
    ensures whole { IfOk result (λ f. f.whole
        ≡ (fill_of (map whole_entry (option_to_list front) ++ (queue.old ++ map whole_entry entries))
        header room heard).whole) }
    ensures cut { IfOk result (λ f. f.cut
        ≡ (fill_of (map whole_entry (option_to_list front) ++ (queue.old ++ map whole_entry entries))
        header room heard).cut) }
    ensures tail { IfOk result (λ f. f.tail
        ≡ (fill_of (map whole_entry (option_to_list front) ++ (queue.old ++ map whole_entry entries))
        header room heard).tail) }
    ensures within { IfOk result (λ f. length f.bytes ≤ room) }
    ensures ok { OnOk result (queue.new
        ≡ (fill_of (map whole_entry (option_to_list front) ++ (queue.old ++ map whole_entry entries))
        header room heard).left) }
    ensures err { OnErr result (queue.new ≡ queue.old) }
{
    let commands = with_front(front, entries)?;
    let filled = fill_listed(queue, commands, header, room, heard);
    if filled.is_err() {
        queue.cut_to(0);
    }
    filled
}
