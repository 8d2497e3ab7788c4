// The tokens of a document that comes in pieces.
ghost use Rattle.std.specs.Prelude.{◌≡◌, ◌++◌, ◌∷◌, [], ℕ, List, None as Nothing, Some as Just, Err as Bad};
ghost use Rattle.std.specs.Prelude.{MatchOption, IfSome};
ghost use Rattle.wbxml_tokens.specs.declared.reason.FeedError.TheVariants as errors;
ghost use Rattle.wbxml_tokens.specs.declared.reason.Refusal.{Refusal as ARefusal};
ghost use Rattle.wbxml_tokens.specs.declared.token.Placed.{Placed as APlaced};
ghost use Rattle.wbxml_tokens.specs.Reading.{reading, refusal_of};
ghost use Rattle.wbxml_tokens.specs.Waiting.{HasRead, TellsRefusal, LeavesHeld, IsRefusal};

use crate::queue::TokenQueue;
use crate::reader::Reader;
use crate::reason::{FeedError, Refusal};
use crate::token::Placed;
use std::alloc::Global;
use std::marker::Model;

/// The tokens of a document that comes in pieces, with their places.
#[derive(Drop)]
pub struct Tokens {
    reader: Reader,
    queue: TokenQueue,
    refused: Option<Refusal>,
}

impl Model for Tokens {
    ghost use Rattle.wbxml_tokens.specs.Waiting.{Held};

    ghost Value = { Held };

    ghost view = { λ t. record { waiting = t.queue.tokens; refused = t.refused; reader = t.reader } };
}

impl Tokens {
    /// Nothing is read.
    pub fn new(alloc: Global) -> Tokens
        ensures { HasRead result [] [] }
    {
        Tokens {
            reader: Reader::new(alloc),
            queue: TokenQueue::new(alloc),
            refused: None,
        }
    }

    // Reads a piece behind bytes of which none was refused.
    fn read(&mut self, piece: &[u8]) -> Result<(), FeedError>
        requires { self.old.refused ≡ Nothing }
        ensures refused { (bytes : List ℕ) (given : List APlaced) → HasRead self.old bytes given
            → TellsRefusal result (reading (bytes ++ piece.now)).refused }
        ensures read { (bytes : List ℕ) (given : List APlaced) → HasRead self.old bytes given
            → LeavesHeld result self.old self.new (bytes ++ piece.now) given }
        ensures kept { (refusal : ARefusal) → result ≡ Bad (errors.Refused refusal) → self.new.refused ≡ Just refusal }
        ensures memory { result ≡ Bad errors.Memory → self.new ≡ self.old }
    {
        let waiting = self.queue.len();
        match self.reader.feed(piece, &mut self.queue) {
            Ok(()) => Ok(()),
            Err(FeedError::Refused(refusal)) => {
                self.refused = Some(refusal);
                Err(FeedError::Refused(refusal))
            }
            Err(FeedError::Memory) => {
                self.queue.cut_to(waiting);
                Err(FeedError::Memory)
            }
        }
    }

    /// Reads the next piece of the document. However it is cut, the tokens are the same. `Refused` comes with the first
    /// refusal, and again at each later call; the tokens before it are still given by `next`. After `Memory` the object
    /// is as before, so the piece may be fed again.
    #[tactic(auto, using(crate::proofs::Queueing::still_refused))]
    pub fn feed(&mut self, piece: &[u8]) -> Result<(), FeedError>
        ensures refused { (bytes : List ℕ) (given : List APlaced) → HasRead self.old bytes given
            → TellsRefusal result (reading (bytes ++ piece.now)).refused }
        ensures read { (bytes : List ℕ) (given : List APlaced) → HasRead self.old bytes given
            → LeavesHeld result self.old self.new (bytes ++ piece.now) given }
        ensures kept { (refusal : ARefusal) → result ≡ Bad (errors.Refused refusal) → self.new.refused ≡ Just refusal }
        ensures again { IfSome self.old.refused (λ refusal.
            (result ≡ Bad (errors.Refused refusal)) × (self.new ≡ self.old)) }
        ensures memory { result ≡ Bad errors.Memory → self.new ≡ self.old }
    {
        match self.refused {
            Some(refusal) => Err(FeedError::Refused(refusal)),
            None => self.read(piece),
        }
    }

    /// The next token. None comes exactly where no whole token waits.
    pub fn next(&mut self) -> Option<Placed>
        ensures next { (bytes : List ℕ) (given : List APlaced) → HasRead self.old bytes given → MatchOption result
            (((reading bytes).tokens ≡ given) × HasRead self.new bytes given)
            (λ p. HasRead self.new bytes (given ++ p ∷ [])) }
        ensures refused { self.new.refused ≡ self.old.refused }
    {
        self.queue.next()
    }

    /// Refuses exactly where the document was refused, with that refusal, or isn't whole: then the place is the length,
    /// and the reason `Truncated`. It takes no memory.
    pub fn finish(self) -> Result<(), Refusal>
        ensures exact { (bytes : List ℕ) (given : List APlaced) → HasRead self bytes given
            → IsRefusal result (refusal_of bytes) }
        ensures refused { IfSome self.refused (λ refusal. result ≡ Bad refusal) }
    {
        if let Some(refusal) = self.refused {
            return Err(refusal);
        }
        match self.reader.refusal_at_end() {
            Some(refusal) => Err(refusal),
            None => Ok(()),
        }
    }
}
