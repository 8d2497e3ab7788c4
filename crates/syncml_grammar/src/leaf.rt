// What elements without children hold.
ghost use Rattle.std.specs.Prelude.{◌≡◌, OnOk};
ghost use Rattle.syncml_types.specs.Canonical.{is_text as is_text_of_message};
ghost use Rattle.syncml_grammar.specs.Leaves.{fresh_leaf, with_piece, closed_leaf, closed_text, closed_number, ranged};
ghost use Rattle.syncml_grammar.specs.Leaves.{short_number};
ghost use Rattle.syncml_grammar.specs.Numbers.{number_in};

use crate::digits::Digits;
use dm_base::{Bytes, Memory};
use std::alloc::Global;
use std::mem;
use syncml_shape::Kind;
use syncml_types::put_value::is_plain_text;
use wbxml_tokens::Reason;

/// What has been read of an element without children.
#[derive(Drop)]
pub enum Leaf {
    /// The joined pieces of a text, or of Data.
    Text(Bytes),
    /// A number, of which no text is kept.
    Number(Digits),
    /// Nothing: the element's being there is all.
    Flag,
}

/// What an element without children holds.
#[derive(Drop)]
pub enum Simple {
    Text(Bytes),
    /// A number of 32 bits.
    Short(u32),
    /// A number of 64 bits.
    Long(u64),
    Flag,
}

// What elements of this kind hold before their first piece.
pub(crate) fn new_leaf(alloc: Global, kind: Kind) -> Leaf
    ensures { result ≡ fresh_leaf kind }
{
    match kind {
        Kind::Id | Kind::Code | Kind::Size => Leaf::Number(Digits::Start),
        Kind::Flag => Leaf::Flag,
        _ => Leaf::Text(Bytes::new(alloc)),
    }
}

fn close_text(kind: Kind, text: Bytes) -> Result<Simple, Reason>
    ensures { result ≡ closed_text kind text }
{
    match kind {
        Kind::Bytes => Ok(Simple::Text(text)),
        _ => {
            if is_plain_text(text.as_slice()) {
                Ok(Simple::Text(text))
            } else {
                Err(Reason::Text)
            }
        }
    }
}

fn short(least: u32, number: u64) -> Result<Simple, Reason>
    ensures { result ≡ short_number least number }
{
    match u32::try_from(number) {
        Ok(short) if least <= short => Ok(Simple::Short(short)),
        _ => Err(Reason::Number),
    }
}

fn in_range(kind: Kind, number: u64) -> Result<Simple, Reason>
    ensures { result ≡ ranged kind number }
{
    match kind {
        Kind::Size => Ok(Simple::Long(number)),
        Kind::Id => short(1, number),
        _ => short(0, number),
    }
}

fn close_number(kind: Kind, digits: Digits) -> Result<Simple, Reason>
    ensures { result ≡ closed_number kind (number_in digits) }
{
    match digits.number() {
        None => Err(Reason::Number),
        Some(number) => in_range(kind, number),
    }
}

impl Leaf {
    /// Takes one more piece. A number takes no memory.
    pub fn push(&mut self, piece: &[u8]) -> Result<(), Memory>
        ensures ok { OnOk result (self.new ≡ with_piece self.old piece.now) }
    {
        match self {
            Leaf::Text(text) => text.extend(piece),
            Leaf::Number(digits) => {
                *digits = digits.extend(piece);
                Ok(())
            }
            Leaf::Flag => Ok(()),
        }
    }

    /// What it reads as at its end: Text for a text that isn't UTF-8 without byte 00, Number for a number that isn't
    /// decimal without leading zeros or not in its range. It is left with anything.
    pub fn close(&mut self, alloc: Global, kind: Kind) -> Result<Simple, Reason>
        ensures { result ≡ closed_leaf kind self.old }
    {
        match self {
            Leaf::Text(text) => close_text(kind, mem::replace(text, Bytes::new(alloc))),
            Leaf::Number(digits) => close_number(kind, *digits),
            Leaf::Flag => Ok(Simple::Flag),
        }
    }
}
