// The listing of a message: one line for each element of its canonical spelling.
ghost use Rattle.std.specs.Prelude.{◌≡◌, ◌++◌, ◌∷◌, false, IfOk, OnOk};
ghost use Rattle.std.specs.List.{list_all};
ghost use Rattle.wbxml_tokens.specs.Spelling.{given};
ghost use Rattle.syncml_types.specs.Canonical.{message_tokens};
ghost use Rattle.syncml_codec.specs.Listing as Spec;
ghost use Rattle.syncml_codec.specs.Listing.{feed_where, value_text, listed_after, nothing_listed, listing_of};

use dm_base::{Bytes, Memory, hex_into};
use std::alloc::Global;
use std::marker::Model;
use syncml_types::{Message, put_message};
use wbxml_tables::{Element, name_of};
use wbxml_tokens::Writer;

/// Lists tokens, one line for each element.
#[derive(Drop)]
struct Lister {
    alloc: Global,
    text: Bytes,
    indent: Bytes,
    // Whether the line of the element that came last has no line feed yet.
    is_open: bool,
}

impl Model for Lister {
    ghost use Rattle.syncml_codec.specs.Listing.{Listed};

    ghost Value = { Listed };

    ghost view = { λ l. record { text = l.text; indent = l.indent; is_open = l.is_open } };
}

fn is_printable(byte: u8) -> bool
    ensures { result ≡ Spec.is_printable byte }
{
    32 <= byte && byte <= 126
}

fn all_printable(bytes: &[u8]) -> bool
    ensures { result ≡ list_all Spec.is_printable bytes.now }
{
    bytes.iter().all(|b| is_printable(*b))
}

fn begins_with_sign(bytes: &[u8]) -> bool
    ensures { result ≡ Spec.begins_with_sign bytes.now }
{
    match bytes {
        [first, ..] => *first == b'#',
        [] => false,
    }
}

// Whether a value is shown as it is.
fn is_shown(bytes: &[u8]) -> bool
    ensures { result ≡ Spec.is_plain_text bytes.now }
{
    all_printable(bytes) && !begins_with_sign(bytes)
}

impl Lister {
    // Ends the line that is open.
    fn end_line(&mut self) -> Result<(), Memory>
        ensures { OnOk result (self.new ≡ record self.old {
          text = self.old.text ++ feed_where self.old.is_open;
          is_open = false;
        }) }
    {
        if self.is_open {
            self.text.push(b'\n')?;
            self.is_open = false;
        }
        Ok(())
    }

    #[tactic(auto, unfolding(crate::specs::Listing::value_text))]
    fn value(&mut self, bytes: &[u8]) -> Result<(), Memory>
        ensures { OnOk result (self.new ≡ record self.old { text = self.old.text ++ 32 ∷ value_text bytes.now }) }
    {
        self.text.push(b' ')?;
        if is_shown(bytes) {
            return self.text.extend(bytes);
        }
        self.text.push(b'#')?;
        hex_into(&mut self.text, bytes)
    }
}

impl Writer for Lister {
    type Error = Memory;

    ghost use Rattle.std.specs.Prelude.{None, ⊤};
    ghost use Rattle.syncml_codec.specs.Listing.{listed_after};

    ghost after = { listed_after };

    ghost refusal = { λ _ _. None };

    ghost told = { λ _. None };

    ghost left = { λ _ _. ⊤ };

    fn tag(&mut self, element: Element, content: bool) -> Result<(), Memory> {
        self.end_line()?;
        self.text.extend(self.indent.as_slice())?;
        self.text.extend(name_of(element).as_bytes())?;
        if content {
            self.is_open = true;
            self.indent.extend(b"  ")
        } else {
            self.text.push(b'\n')
        }
    }

    fn end(&mut self) -> Result<(), Memory> {
        self.end_line()?;
        self.indent.cut_to(self.indent.len().saturating_sub(2));
        Ok(())
    }

    fn text(&mut self, text: &[u8]) -> Result<(), Memory> {
        self.value(text)
    }

    fn opaque(&mut self, bytes: &[u8]) -> Result<(), Memory> {
        self.value(bytes)
    }
}

fn list(alloc: Global, message: &Message) -> Result<Lister, Memory>
    ensures { IfOk result (λ l. l ≡ given listed_after nothing_listed (message_tokens message.now)) }
{
    let mut lister = Lister {
        alloc,
        text: Bytes::new(alloc),
        indent: Bytes::new(alloc),
        is_open: false,
    };
    put_message(&mut lister, message)?;
    Ok(lister)
}

/// The listing of a message: one line for each element of its canonical spelling, two spaces a depth, its name, and its
/// text, number or Data where it isn't empty: as it is where it has bytes of 20 to 7E alone and doesn't begin with `#`,
/// else `#` and its hexadecimal digits.
#[tactic(auto, using(crate::proofs::Listings::listed_text))]
pub fn listing(alloc: Global, message: &Message) -> Result<Bytes, Memory>
    ensures { IfOk result (λ text. text ≡ listing_of message.now) }
{
    Ok(list(alloc, message)?.text)
}
