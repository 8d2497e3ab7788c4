// The canonical spelling of tokens.
ghost use Rattle.std.specs.Prelude.{◌≡◌, ◌≤◌, ◌<◌, ◌+◌, ◌^◌, ◌∷◌, ◌++◌, [], length, vec_len, vec_capacity};
ghost use Rattle.std.specs.Prelude.{IfOk, OnOk, OnErr};
ghost use Rattle.wbxml_tokens.specs.declared.token.Token.TheVariants.{Tag, End, Text, Opaque};
ghost use Rattle.wbxml_tokens.specs.Spelling.{WrittenSoFar, written_after, given, leaf_tokens, prologue};

use crate::token::Writer;
use dm_base::{Bytes, Memory};
use std::alloc::Global;
use std::marker::Model;
use wbxml_ints::write_mb;
use wbxml_tables::{Element, code_of};

/// Writes the canonical prologue and then each token in its shortest form, with a page switch before a tag of another
/// page and nowhere else. After `Memory` it is as before.
#[derive(Drop)]
pub struct TokenWriter {
    bytes: Vec<u8>,
    page: u8,
}

impl Model for TokenWriter {
    ghost use Rattle.wbxml_tokens.specs.Spelling.{WrittenSoFar};

    ghost Value = { WrittenSoFar };

    ghost view = { λ w. record { bytes = w.bytes.items; page = w.page } };
}

impl TokenWriter {
    /// A writer that has written the prologue and stands on page 0.
    pub fn new(alloc: Global) -> Result<TokenWriter, Memory>
        ensures { IfOk result (λ w. w ≡ record { bytes = prologue; page = 0 }) }
    {
        Ok(TokenWriter {
            bytes: Vec::from_slice(alloc, &[0x03, 0xa4, 0x01, 0x6a, 0x00])?,
            page: 0,
        })
    }

    /// As `new`, with room for so many bytes in all, so that these are written without more memory.
    pub fn with_room(alloc: Global, room: usize) -> Result<TokenWriter, Memory>
        ensures { IfOk result (λ w. w ≡ record { bytes = prologue; page = 0 }) }
    {
        let mut bytes = Vec::with_capacity(alloc, room)?;
        bytes.extend_from_slice(&[0x03, 0xa4, 0x01, 0x6a, 0x00])?;
        Ok(TokenWriter { bytes, page: 0 })
    }

    /// All that was written.
    pub fn finish(self) -> Bytes
        ensures { result ≡ self.bytes }
    {
        Bytes::of_vec(self.bytes)
    }
}

// Takes room for so many bytes, and `more`.
fn make_room(out: &mut Vec<u8>, bytes: usize, more: usize) -> Result<(), Memory>
    ensures items { out.new.items ≡ out.old.items }
    ensures room { OnOk result (vec_len out.new + (bytes + more) ≤ vec_capacity out.new) }
{
    match bytes.checked_add(more) {
        Some(room) => {
            out.reserve(room)?;
            Ok(())
        }
        None => Err(Memory),
    }
}

// Appends bytes for which there is room.
fn extend_reserved(out: &mut Vec<u8>, bytes: &[u8])
    requires { vec_len out.old + length bytes.now ≤ vec_capacity out.old }
    ensures items { out.new.items ≡ out.old.items ++ bytes.now }
    ensures len { vec_len out.new ≡ vec_len out.old + length bytes.now }
    ensures capacity { vec_capacity out.old ≤ vec_capacity out.new }
{
    match out.extend_from_slice(bytes) {
        Ok(()) => {}
        Err(_) => unreachable!(),
    }
}

// Appends a text with its sign and the byte 00 behind it. There is room.
fn put_text(out: &mut Vec<u8>, text: &[u8])
    requires { vec_len out.old + (length text.now + 2) ≤ vec_capacity out.old }
    ensures items { out.new.items ≡ out.old.items ++ 3 ∷ text.now ++ 0 ∷ [] }
    ensures len { vec_len out.new ≡ vec_len out.old + (length text.now + 2) }
    ensures capacity { vec_capacity out.old ≤ vec_capacity out.new }
{
    out.push_reserved(0x03);
    extend_reserved(out, text);
    out.push_reserved(0x00);
}

impl Writer for TokenWriter {
    type Error = Memory;

    ghost use Rattle.std.specs.Prelude.{◌≡◌, None};
    ghost use Rattle.wbxml_tokens.specs.Spelling.{written_after};

    ghost after = { written_after };

    ghost refusal = { λ _ _. None };

    ghost told = { λ _. None };

    ghost left = { λ old new. new ≡ old };

    fn tag(&mut self, element: Element, content: bool) -> Result<(), Memory>
        ensures ok { OnOk result (self.new ≡ written_after self.old (Tag element content)) }
        ensures err { OnErr result (self.new ≡ self.old) }
    {
        let (page, code) = code_of(element);
        let tag = if content { code + 0x40 } else { code };
        if page == self.page {
            self.bytes.push(tag)?;
            return Ok(());
        }
        self.bytes.extend_from_slice(&[0, page, tag])?;
        self.page = page;
        Ok(())
    }

    fn end(&mut self) -> Result<(), Memory>
        ensures ok { OnOk result (self.new ≡ written_after self.old End) }
        ensures err { OnErr result (self.new ≡ self.old) }
    {
        self.bytes.push(0x01)?;
        Ok(())
    }

    fn text(&mut self, text: &[u8]) -> Result<(), Memory>
        ensures ok { OnOk result (self.new ≡ written_after self.old (Text text.now)) }
        ensures err { OnErr result (self.new ≡ self.old) }
    {
        make_room(&mut self.bytes, text.len(), 2)?;
        put_text(&mut self.bytes, text);
        Ok(())
    }

    // As the tag, the text and the end, into room that is taken once.
    #[inline(always)]
    fn leaf(&mut self, element: Element, text: &[u8]) -> Result<(), Memory>
        ensures ok { OnOk result (self.new ≡ given written_after self.old (leaf_tokens element text.now)) }
        ensures err { OnErr result (self.new ≡ self.old) }
    {
        let (page, code) = code_of(element);
        let head = if page == self.page { 2 } else { 4 };
        make_room(&mut self.bytes, text.len(), 2 + head)?;
        if page != self.page {
            self.bytes.push_reserved(0);
            self.bytes.push_reserved(page);
            self.page = page;
        }
        self.bytes.push_reserved(code + 0x40);
        put_text(&mut self.bytes, text);
        self.bytes.push_reserved(0x01);
        Ok(())
    }

    fn opaque(&mut self, bytes: &[u8]) -> Result<(), Memory>
        requires { length bytes.now < 2 ^ 32 }
        ensures ok { OnOk result (self.new ≡ written_after self.old (Opaque bytes.now)) }
        ensures err { OnErr result (self.new ≡ self.old) }
    {
        let length = write_mb(bytes.len() as u32);
        make_room(&mut self.bytes, bytes.len(), 1 + length.as_slice().len())?;
        self.bytes.push_reserved(0xc3);
        extend_reserved(&mut self.bytes, length.as_slice());
        extend_reserved(&mut self.bytes, bytes);
        Ok(())
    }
}
