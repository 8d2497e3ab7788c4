// How far a message has come.
ghost use Rattle.std.specs.Prelude.{◌≡◌, ◌<◌, ◌≤◌, ◌+◌, ◌^◌, length, [], true, IfSome, Some};
ghost use Rattle.dm_base.specs.Limits.{message_limit};
ghost use Rattle.wbxml_tokens.specs.Spelling.{spelled, page_behind};
ghost use Rattle.syncml_types.specs.Message.{IsShortData};
ghost use Rattle.syncml_types.specs.Canonical.{command_tokens};
ghost use Rattle.syncml_types.specs.Lengths.{up_to_most, spelled_length};
ghost use Rattle.syncml_parts.specs.Numbering.{with_numbers};
ghost use Rattle.syncml_parts.specs.Packing.{body_tag, tail_tokens};
ghost use Rattle.dm_pack.specs.Entries.{IsReady, data_left, whole_entry, part_of};
ghost use Rattle.dm_pack.specs.Filling;
ghost use Rattle.dm_pack.specs.Filling.{IsReadyHeader};
ghost use Rattle.dm_pack.specs.Measures as Spec;
ghost use Rattle.dm_pack.specs.Measures.{place_past, behind_hollow, within, with_cost, place_of, marks_of};

use crate::filled::Tail;
use crate::marks::decimal_length;
use crate::waiting::Waiting;
use dm_base::{Boxed, List};
use std::alloc::Global;
use syncml_parts::{data_length, ids_in, numbered_length};
use syncml_types::{AlertCmd, Command, Header, head_length};

/// The bytes of a message up to the end of its commands, the page behind them, and the next CmdID.
#[derive(Clone, Copy)]
pub(crate) struct Place {
    pub(crate) used: u64,
    pub(crate) page: u8,
    pub(crate) next: u32,
}

// The Alert 1222 that asks for the next message.
pub(crate) fn asks_next(alloc: Global) -> Command
    ensures { result ≡ Filling.asks_next }
{
    Command::Alert(AlertCmd {
        id: 0,
        no_resp: false,
        code: 1222,
        correlator: None,
        items: List::new(alloc),
    })
}

// How many bytes the Alert 1222 takes, and the page behind it. All but the digits of its CmdID is always the same.
#[tactic(auto, using(crate::proofs::Asking::asks_on_page, crate::proofs::Asking::asks_on_other, crate::proofs::Asking::page_behind_asks))]
fn asks_length(page: u8, next: u32) -> (u64, u8)
    requires { next + 1 < 2 ^ 32 }
    ensures length { result.0 ≡ spelled_length 0 page (command_tokens (with_numbers next Filling.asks_next)) }
    ensures page { result.1 ≡ page_behind page (command_tokens (with_numbers next Filling.asks_next)) }
{
    let digits = decimal_length(next as u64);
    if page == 0 {
        (14 + digits, 0)
    } else {
        (16 + digits, 0)
    }
}

// How many bytes Final takes, with what ends the message.
#[tactic(auto, using(crate::proofs::Measuring::tail_on_page, crate::proofs::Measuring::tail_on_other))]
fn final_length(page: u8) -> u64
    ensures { result ≡ length (spelled page (tail_tokens true)) }
{
    if page == 0 { 3 } else { 5 }
}

// How many bytes an Alert 1222 and Final would take, and what ends the message.
#[tactic(auto, unfolding(crate::specs::Measures::end_length))]
pub(crate) fn end_length(page: u8, next: u32) -> u64
    requires { next + 1 < 2 ^ 32 }
    ensures { result ≡ up_to_most (Spec.end_length page next) }
{
    let (bytes, behind) = asks_length(page, next);
    bytes.saturating_add(final_length(behind))
}

// What Data costs beside an empty Data element, where there is room for it. Data that is longer than the room isn't
// looked at.
#[tactic(auto, using(crate::proofs::Measuring::cost_none, crate::proofs::Measuring::cost_over, crate::proofs::Measuring::cost_under, crate::proofs::Measuring::cost_nothing, crate::proofs::Measuring::cost_of))]
fn cost_within(value: &[u8], room: u64) -> Option<u64>
    requires { IsShortData value.now }
    ensures { result ≡ Spec.cost_within value.now room }
{
    if value.is_empty() {
        return Some(0);
    }
    if value.len() as u64 >= room {
        return None;
    }
    let cost = 1 + data_length(value);
    if cost <= room { Some(cost) } else { None }
}

#[tactic(auto, using(crate::proofs::Measuring::tag_on_page, crate::proofs::Measuring::tag_on_other))]
fn tag_length(page: u8) -> u64
    ensures value { result ≡ length (spelled page body_tag) }
    ensures short { result ≤ 3 }
{
    if page == 0 { 1 } else { 3 }
}

// What stands in the box.
fn unboxed(header: &Boxed<Header>) -> &Header
    ensures { result.now ≡ header.now }
{
    &header.inner
}

impl Place {
    // Where the commands of a message with this header begin.
    fn behind_head(header: &Header) -> Place
        requires { IsReadyHeader header.now }
        ensures place { result ≡ place_of header.now [] }
        ensures low { result.used ≤ 612 }
    {
        let (bytes, page) = head_length(header);
        Place {
            used: bytes + tag_length(page),
            page: 0,
            next: 1,
        }
    }

    // The same of a header in its box.
    pub(crate) fn start(header: &Boxed<Header>) -> Place
        requires { IsReadyHeader header.now }
        ensures place { result ≡ place_of header.now [] }
        ensures low { result.used ≤ 612 }
    {
        Place::behind_head(unboxed(header))
    }

    // With one more entry, without the Data that may be cut.
    pub(crate) fn with_hollow(self, entry: &Waiting) -> Place
        requires ready { IsReady entry.now }
        requires low { (self.used ≤ message_limit) × (self.next ≤ 1 + self.used) }
        ensures place { result ≡ behind_hollow self entry.now }
        ensures low { (result.used ≤ 70000) × (result.next ≤ 70000) }
    {
        let (bytes, page) = entry.hollow_length(self.page, self.next);
        Place {
            used: self.used + bytes,
            page,
            next: self.next + entry.ids(),
        }
    }

    // With that Data, where the message fits then.
    pub(crate) fn with_data(self, value: &[u8], room: u64) -> Option<Place>
        requires short { IsShortData value.now }
        requires room { room ≤ message_limit }
        requires low { self.next + 1 < 2 ^ 32 }
        ensures { result ≡ within room (with_cost value.now self) }
    {
        let end = end_length(self.page, self.next);
        let least = self.used.saturating_add(end);
        if least > room {
            return None;
        }
        match cost_within(value, room - least) {
            None => None,
            Some(cost) => Some(Place {
                used: self.used + cost,
                page: self.page,
                next: self.next,
            }),
        }
    }

    // With one more command, where the message fits then.
    pub(crate) fn with_command(self, command: &Command, room: u64) -> Option<Place>
        requires ready { IsReady (whole_entry command.now) }
        requires room { room ≤ message_limit }
        requires low { (self.used ≤ message_limit) × (self.next ≤ 1 + self.used) }
        ensures { IfSome result (λ next. Some next ≡ within room (place_past self command.now)) }
    {
        let (bytes, page) = numbered_length(self.page, self.next, command);
        let used = self.used.saturating_add(bytes);
        let next = self.next + ids_in(command);
        if used.saturating_add(end_length(page, next)) > room {
            return None;
        }
        Some(Place { used, page, next })
    }

    // With the entry's next part in place of the whole entry, both without Data.
    pub(crate) fn with_marks(self, entry: &Waiting) -> Place
        requires some { 0 < data_left entry.now }
        requires marks { marks_of entry.now.command ≤ self.used + marks_of (part_of entry.now 0) }
        requires low { self.used ≤ 70000 }
        ensures place { result ≡ Spec.with_marks entry.now self }
        ensures low { result.used ≤ 70051 }
    {
        Place {
            used: entry.marked_length(self.used),
            page: self.page,
            next: self.next,
        }
    }

    // How many bytes stand behind the commands of a message.
    pub(crate) fn tail_length(self, tail: Tail) -> u64
        requires { self.next + 1 < 2 ^ 32 }
        ensures { result ≡ up_to_most (Spec.tail_length self tail) }
    {
        match tail {
            Tail::Final => final_length(self.page),
            Tail::NextMessage => asks_length(self.page, self.next).0.saturating_add(2),
            Tail::Nothing => 2,
        }
    }
}
