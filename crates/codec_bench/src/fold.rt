// A taker that keeps no token.
ghost use Rattle.std.specs.Prelude.{◌≡◌};
ghost use Rattle.codec_bench.specs.Folding.{folded, with_number, with_bytes};
ghost use Rattle.wbxml_tokens.specs.declared.token.Token.TheVariants.{Tag};

use dm_base::Memory;
use wbxml_tables::{Element, code_of};
use wbxml_tokens::{Reason, Taker, Token, Writer};

/// The tokens or numbers so far, folded into two numbers of 64 bits: their count, and a sum in which each place counts.
#[derive(Clone, Copy, PartialEq, Eq)]
pub struct Fold {
    pub tokens: u64,
    pub sum: u64,
}

impl Fold {
    /// Takes a number, or a token that counts for this number.
    pub fn add(&mut self, number: u64)
        ensures { self.new ≡ with_number self.old number }
    {
        self.tokens = self.tokens.wrapping_add(1);
        self.sum = self.sum.wrapping_mul(31).wrapping_add(number);
    }

    /// Takes bytes, each as a number.
    pub fn add_bytes(&mut self, bytes: &[u8])
        ensures { self.new ≡ with_bytes self.old bytes.now }
    {
        for byte in bytes {
            self.add(u64::from(*byte));
        }
    }

    fn add_tag(&mut self, element: Element, content: bool)
        ensures { self.new ≡ folded self.old (Tag element content) }
    {
        let (_, code) = code_of(element);
        let bit: u64 = if content { 64 } else { 0 };
        self.add(u64::from(code) + bit);
    }

    /// Takes a token that a queue gave.
    pub fn add_token(&mut self, token: &Token)
        ensures { self.new ≡ folded self.old token.now }
    {
        match token {
            Token::Tag { element, content } => self.add_tag(*element, *content),
            Token::End => self.add(1),
            Token::Text(text) => self.add(text.len() as u64),
            Token::Opaque(bytes) => self.add(bytes.len() as u64),
        }
    }
}

impl Writer for Fold {
    // No token is refused, and none takes memory, so no error comes.
    type Error = Memory;

    ghost use Rattle.std.specs.Prelude.{None, ⊤};
    ghost use Rattle.codec_bench.specs.Folding.{folded};

    ghost after = { folded };

    ghost refusal = { λ _ _. None };

    ghost told = { λ _. None };

    ghost left = { λ _ _. ⊤ };

    fn tag(&mut self, element: Element, content: bool) -> Result<(), Memory> {
        self.add_tag(element, content);
        Ok(())
    }

    fn end(&mut self) -> Result<(), Memory> {
        self.add(1);
        Ok(())
    }

    fn text(&mut self, text: &[u8]) -> Result<(), Memory> {
        self.add(text.len() as u64);
        Ok(())
    }

    fn opaque(&mut self, bytes: &[u8]) -> Result<(), Memory> {
        self.add(bytes.len() as u64);
        Ok(())
    }
}

impl Taker for Fold {
    ghost placed = { λ f _. f };

    fn place(&mut self, _at: u64) {}

    fn reason(_error: Memory) -> Option<Reason> {
        None
    }
}
