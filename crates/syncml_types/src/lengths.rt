// The lengths of canonical spellings, which take no memory.
ghost use Rattle.std.specs.Prelude.{◌≡◌, ◌<◌, ◌+◌, ◌^◌, IfSome, OnOk, length};
ghost use Rattle.wbxml_tokens.specs.Spelling.{given, page_behind};
ghost use Rattle.syncml_types.specs.Message.{IsShortData, HasShortItems, FitsSpelling};
ghost use Rattle.syncml_types.specs.Canonical.{canonical, command_tokens};
ghost use Rattle.syncml_types.specs.Lengths.{counter_after, head_tokens, spelled_length, up_to_most};

use crate::command::Command;
use crate::message::Message;
use crate::put_command::put_command;
use crate::put_whole::{put_header, put_parts};
use crate::values::Header;
use dm_base::List;
use wbxml_ints::write_mb;
use wbxml_tables::{Element, code_of};
use wbxml_tokens::Writer;

const PROLOGUE: u64 = 5;

/// The error of a writer that never refuses: it has no value.
#[derive(Drop)]
pub enum Never {}

/// A writer that keeps of the tokens only how many bytes they have, and the page behind them. The count stands still at
/// the greatest 64-bit number.
#[derive(Drop)]
pub struct Counter {
    pub count: u64,
    pub page: u8,
}

impl Writer for Counter {
    type Error = Never;

    ghost use Rattle.std.specs.Prelude.{None, ⊤};
    ghost use Rattle.syncml_types.specs.Lengths.{counter_after};

    ghost after = { counter_after };

    ghost refusal = { λ _ _. None };

    ghost told = { λ _. None };

    ghost left = { λ _ _. ⊤ };

    fn tag(&mut self, element: Element, content: bool) -> Result<(), Never> {
        let (page, _) = code_of(element);
        let bytes = if page == self.page { 1 } else { 3 };
        self.count = self.count.saturating_add(bytes);
        self.page = page;
        Ok(())
    }

    fn end(&mut self) -> Result<(), Never> {
        self.count = self.count.saturating_add(1);
        Ok(())
    }

    fn text(&mut self, text: &[u8]) -> Result<(), Never> {
        self.count = self
            .count
            .saturating_add(text.len() as u64)
            .saturating_add(2);
        Ok(())
    }

    fn leaf(&mut self, element: Element, text: &[u8]) -> Result<(), Never> {
        let (page, _) = code_of(element);
        let signs = if page == self.page { 4 } else { 6 };
        self.count = self
            .count
            .saturating_add(text.len() as u64)
            .saturating_add(signs);
        self.page = page;
        Ok(())
    }

    fn opaque(&mut self, bytes: &[u8]) -> Result<(), Never> {
        let length = write_mb(bytes.len() as u32).as_slice().len();
        let head = (1 + length) as u64;
        self.count = self
            .count
            .saturating_add(bytes.len() as u64)
            .saturating_add(head);
        Ok(())
    }
}

fn put_head(counter: &mut Counter, header: &Header) -> Result<(), Never>
    requires { IfSome header.now.cred (λ c. IsShortData c.value) }
    ensures { OnOk result (counter.new ≡ given counter_after counter.old (head_tokens header.now)) }
{
    counter.tag(Element::ESyncML, true)?;
    put_header(counter, header)
}

/// How many bytes the canonical spelling of a message of these parts has.
#[tactic(auto, using(crate::proofs::Counts::given_counted, crate::proofs::Counts::canonical_counted))]
pub(crate) fn parts_length(header: &Header, body: &List<Command>, last: bool) -> u64
    requires { FitsSpelling header.now body.now }
    ensures { result ≡ up_to_most (length
        (canonical (record { header = header.now; body = body.now; last = last }))) }
{
    let mut counter = Counter {
        count: PROLOGUE,
        page: 0,
    };
    match put_parts(&mut counter, header, body, last) {
        Ok(()) => counter.count,
        Err(never) => match never {},
    }
}

/// How many bytes the canonical spelling of a message has, in steps linear in it.
pub fn length(message: &Message) -> u64
    ensures { result ≡ up_to_most (length (canonical message.now)) }
{
    parts_length(message.header(), message.body(), message.last())
}

/// How many bytes stand before a message's body in canonical spelling: the prologue, the tag SyncML and the header; and
/// the page after them.
#[tactic(auto, using(crate::proofs::Counts::given_counted))]
pub fn head_length(header: &Header) -> (u64, u8)
    requires { IfSome header.now.cred (λ c. IsShortData c.value) }
    ensures length { result.0 ≡ spelled_length 5 0 (head_tokens header.now) }
    ensures page { result.1 ≡ page_behind 0 (head_tokens header.now) }
{
    let mut counter = Counter {
        count: PROLOGUE,
        page: 0,
    };
    match put_head(&mut counter, header) {
        Ok(()) => (counter.count, counter.page),
        Err(never) => match never {},
    }
}

/// How many bytes a command has in canonical spelling, where it begins on a page; and the page after it.
#[tactic(auto, using(crate::proofs::Counts::given_counted))]
pub fn command_length(page: u8, command: &Command) -> (u64, u8)
    requires { HasShortItems command.now }
    ensures length { result.0 ≡ spelled_length 0 page (command_tokens command.now) }
    ensures page { result.1 ≡ page_behind page (command_tokens command.now) }
{
    let mut counter = Counter { count: 0, page };
    match put_command(&mut counter, command) {
        Ok(()) => (counter.count, counter.page),
        Err(never) => match never {},
    }
}
