// Tokens that wait, each with its place.
ghost use Rattle.std.specs.Prelude.{◌≡◌, ◌++◌, ◌∷◌, [], length, take, MatchOption, OnOk, OnErr};
ghost use Rattle.wbxml_tokens.specs.declared.token.Placed.{Placed as APlaced};
ghost use Rattle.wbxml_tokens.specs.Waiting.{waiting_after};

use crate::reason::Reason;
use crate::token::{Placed, Taker, Token, Writer};
use dm_base::{Bytes, Memory};
use std::alloc::Global;
use std::collections::VecDeque;
use std::marker::Model;
use wbxml_tables::Element;

/// Tokens that wait, in their order.
#[derive(Drop)]
pub(crate) struct TokenQueue {
    alloc: Global,
    at: u64,
    tokens: VecDeque<Placed>,
}

impl Model for TokenQueue {
    ghost use Rattle.wbxml_tokens.specs.Waiting.{WaitingTokens};

    ghost Value = { WaitingTokens };

    ghost view = { λ q. record { at = q.at; tokens = q.tokens.items } };
}

impl TokenQueue {
    /// A queue in which no token waits.
    pub fn new(alloc: Global) -> TokenQueue
        ensures { result.tokens ≡ [] }
    {
        TokenQueue {
            alloc,
            at: 0,
            tokens: VecDeque::new(alloc),
        }
    }

    /// How many tokens wait.
    pub fn len(&self) -> usize
        ensures { result ≡ length self.now.tokens }
    {
        self.tokens.len()
    }

    /// Keeps the first `count` tokens.
    pub fn cut_to(&mut self, count: usize)
        ensures { self.new.tokens ≡ take count self.old.tokens }
    {
        self.tokens.truncate(count);
    }

    /// The first token, which leaves.
    pub fn next(&mut self) -> Option<Placed>
        ensures { MatchOption result ((self.old.tokens ≡ []) × (self.new.tokens ≡ []))
            (λ p. self.old.tokens ≡ p ∷ self.new.tokens) }
    {
        self.tokens.pop_front()
    }

    fn push(&mut self, token: Token) -> Result<(), Memory>
        ensures ok { OnOk result (self.new ≡ waiting_after self.old token) }
        ensures err { OnErr result (self.new ≡ self.old) }
    {
        self.tokens.push_back(Placed { at: self.at, token })?;
        Ok(())
    }
}

impl Writer for TokenQueue {
    type Error = Memory;

    ghost use Rattle.std.specs.Prelude.{◌≡◌, None};
    ghost use Rattle.wbxml_tokens.specs.Waiting.{waiting_after};

    ghost after = { waiting_after };

    ghost refusal = { λ _ _. None };

    ghost told = { λ _. None };

    ghost left = { λ old new. new ≡ old };

    fn tag(&mut self, element: Element, content: bool) -> Result<(), Memory> {
        self.push(Token::Tag { element, content })
    }

    fn end(&mut self) -> Result<(), Memory> {
        self.push(Token::End)
    }

    fn text(&mut self, text: &[u8]) -> Result<(), Memory> {
        let text = Bytes::of_slice(self.alloc, text)?;
        self.push(Token::Text(text))
    }

    fn opaque(&mut self, bytes: &[u8]) -> Result<(), Memory> {
        let bytes = Bytes::of_slice(self.alloc, bytes)?;
        self.push(Token::Opaque(bytes))
    }
}

impl Taker for TokenQueue {
    ghost placed = { λ q at. record q { at = at } };

    fn place(&mut self, at: u64) {
        self.at = at;
    }

    fn reason(_error: Memory) -> Option<Reason> {
        None
    }
}
