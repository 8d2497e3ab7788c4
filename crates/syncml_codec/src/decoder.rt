// Bytes to messages, in pieces and at once.
ghost use Rattle.std.specs.Prelude.{◌≡◌, ◌++◌, ℕ, [], IfErr, OnOk, List as ListOf, Ok as Good, Err as Bad};
ghost use Rattle.wbxml_tokens.specs.declared.reason.Refusal.{Refusal as ARefusal};
ghost use Rattle.wbxml_tokens.specs.declared.reason.FeedError.{FeedError as Why};
ghost use Rattle.wbxml_tokens.specs.declared.reason.FeedError.TheVariants as errors;
ghost use Rattle.syncml_types.specs.Message.{Parts};
ghost use Rattle.syncml_codec.specs.Messages.{Spells, MessageRefusedAt};
ghost use Rattle.syncml_codec.specs.Decoding.{read_of, settled, IsRead, Decodes, TellsSettled, HasDecoded, IsGoing};
ghost use Rattle.syncml_codec.specs.Decoding.{HasAnswered};

use std::alloc::Global;
use std::marker::Model;
use syncml_grammar::Builder;
use syncml_types::Message;
use wbxml_tokens::{FeedError, Reader, Reason, Refusal};

/// A reader of one message in pieces. The message is built while its bytes come; beside it are kept the string table
/// and what a piece cut. A text is copied once, into the message.
#[derive(Drop)]
pub struct Decoder {
    reader: Reader,
    builder: Builder,
    length: u64,
    stopped: Option<FeedError>,
}

impl Model for Decoder {
    ghost use Rattle.syncml_codec.specs.Decoding.{Decoding};

    ghost Value = { Decoding };

    ghost view = { λ d. record { reader = d.reader; building = d.builder; length = d.length; stopped = d.stopped } };
}

impl Decoder {
    /// No byte was fed.
    #[tactic(auto, using(crate::proofs::Feeding::nothing_fed))]
    pub fn new(alloc: Global) -> Decoder
        ensures decoded { HasDecoded result [] }
        ensures going { IsGoing result }
    {
        Decoder {
            reader: Reader::new(alloc),
            builder: Builder::new(alloc),
            length: 0,
            stopped: None,
        }
    }

    // Reads a piece where nothing has stopped the decoder.
    fn read(&mut self, piece: &[u8]) -> Result<(), FeedError>
        requires { IsGoing self.old }
        ensures told { (bytes : ListOf ℕ) → HasDecoded self.old bytes
            → TellsSettled result (settled (bytes ++ piece.now)) }
        ensures decoded { (bytes : ListOf ℕ) → HasDecoded self.old bytes → HasDecoded self.new (bytes ++ piece.now) }
        ensures going { OnOk result (IsGoing self.new) }
        ensures stops { IfErr result (λ error. HasAnswered self.new error) }
    {
        match self.reader.feed(piece, &mut self.builder) {
            Ok(()) => {
                self.length = self.length.saturating_add(piece.len() as u64);
                Ok(())
            }
            Err(error) => {
                self.stopped = Some(error);
                Err(error)
            }
        }
    }

    /// Reads the next piece of the message, in work linear in it and in the texts that it stands for. A refusal is
    /// answered exactly where the bytes so far settle it, whatever follows. `Memory` may come in its place, since the
    /// message is built while its bytes are read. After either, each later call answers the same.
    pub fn feed(&mut self, piece: &[u8]) -> Result<(), FeedError>
        ensures told { (bytes : ListOf ℕ) → HasDecoded self.old bytes
            → TellsSettled result (settled (bytes ++ piece.now)) }
        ensures decoded { (bytes : ListOf ℕ) → HasDecoded self.old bytes → HasDecoded self.new (bytes ++ piece.now) }
        ensures going { OnOk result (IsGoing self.new) }
        ensures stops { IfErr result (λ error. HasAnswered self.new error) }
        ensures again { (error : Why) → HasAnswered self.old error → result ≡ Bad error }
    {
        match self.stopped {
            Some(error) => Err(error),
            None => self.read(piece),
        }
    }

    /// The message of the bytes that were fed, or their first refusal; `Truncated` comes from here alone. It takes no
    /// memory: `Memory` comes where a feed has answered it.
    pub fn finish(self) -> Result<Message, FeedError>
        ensures read { (bytes : ListOf ℕ) → HasDecoded self bytes → IsRead result (read_of bytes) }
        ensures again { (error : Why) → HasAnswered self error → result ≡ Bad error }
        ensures memory { result ≡ Bad errors.Memory → HasAnswered self errors.Memory }
    {
        if let Some(error) = self.stopped {
            drop(self);
            return Err(error);
        }
        self.builder.finish_or(FeedError::Refused(Refusal {
            at: self.length,
            reason: Reason::Truncated,
        }))
    }
}

// What is read of bytes.
fn decoded(alloc: Global, bytes: &[u8]) -> Result<Message, FeedError>
    ensures { IsRead result (read_of bytes.now) }
{
    let mut decoder = Decoder::new(alloc);
    // What a feed refuses, `finish` refuses too.
    let _ = decoder.feed(bytes);
    decoder.finish()
}

/// Reads a message: Ok exactly where the bytes spell it, and Refused exactly at the place and for the reason of the
/// first refusal. `Memory` may come in place of either, since the message is built while its bytes are read. The work
/// is linear in the bytes and in the texts that they stand for, where a string of the table counts at each use.
pub fn decode(alloc: Global, bytes: &[u8]) -> Result<Message, FeedError>
    ensures read { IsRead result (read_of bytes.now) }
    ensures exact { Decodes result bytes.now }
    ensures message { (parts : Parts) → Spells bytes.now parts → IsRead result (Good parts) }
    ensures refusal { (refusal : ARefusal) → MessageRefusedAt bytes.now refusal.at refusal.reason
        → IsRead result (Bad refusal) }
{
    decoded(alloc, bytes)
}
