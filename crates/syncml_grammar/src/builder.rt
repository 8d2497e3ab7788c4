// The builder: it takes the tokens of a body one after the other, and has the message at the end.
ghost use Rattle.std.specs.Prelude.{◌≡◌, ◌↔◌, Some, None as Nothing, Err as Bad, IfErr, OnOk, ok_or, List as ListOf};
ghost use Rattle.wbxml_tokens.specs.declared.token.Token.{Token as Piece};
ghost use Rattle.wbxml_tokens.specs.declared.token.Token.TheVariants.{Tag, End, Text, Opaque};
ghost use Rattle.wbxml_tokens.specs.Taking.{TakesToken};
ghost use Rattle.syncml_types.specs.Message.{Parts};
ghost use Rattle.syncml_grammar.specs.Reads.{SpellsParts};
ghost use Rattle.wbxml_tokens.specs.declared.reason.Stop.{Stop as Cause};
ghost use Rattle.syncml_grammar.specs.Building.{no_building, built_by, building_after, token_refusal};
ghost use Rattle.syncml_grammar.specs.Building.{reason_told as told_by};
ghost use Rattle.syncml_grammar.specs.Building.{HasBuilt, HasStopped, IsLacking};

use crate::stack::Stack;
use dm_base::TEXT_LIMIT;
use std::alloc::Global;
use std::marker::Model;
use syncml_types::Message;
use wbxml_tables::Element;
use wbxml_tokens::{Reason, Stop, Taker, Writer};

/// What has been built of the tokens that were taken. After an error it answers the same error for good. Want of memory
/// may come in place of a refusal, since what a token holds is kept before it is known whether the next is taken.
#[derive(Drop)]
pub struct Builder {
    stack: Stack,
    // How many bytes of text may still come: at first far more than a message has.
    room: usize,
    stopped: Option<Stop>,
}

impl Model for Builder {
    ghost use Rattle.syncml_grammar.specs.Building.{Building, IsBuilding};

    ghost Value = { Building };

    ghost view = { λ b. record { frames = b.stack; room = b.room; stopped = b.stopped } };

    ghost invariant = { λ b. IsBuilding (record { frames = b.stack; room = b.room; stopped = b.stopped }) };
}

impl Builder {
    /// No token was taken.
    pub fn new(alloc: Global) -> Builder
        ensures { result ≡ no_building }
    {
        Builder {
            stack: Stack::new(alloc),
            room: TEXT_LIMIT as usize,
            stopped: None,
        }
    }

    // Answers again the error that has stopped it.
    fn go_on(&self) -> Result<(), Stop>
        ensures going { OnOk result (self.now.stopped ≡ Nothing) }
        ensures stopped { IfErr result (λ stop. HasStopped self.now stop) }
    {
        match self.stopped {
            Some(stop) => Err(stop),
            None => Ok(()),
        }
    }

    /// The message of the tokens that were taken, as `finish` gives it, and this error in place of None.
    pub fn finish_or<E: Drop>(self, error: E) -> Result<Message, E>
        ensures { result ≡ ok_or (built_by self) error }
    {
        if let Some(_) = self.stopped {
            drop(self);
            return Err(error);
        }
        match self.stack.into_parts() {
            None => Err(error),
            Some(parts) => Ok(Message::of_parts(parts.header, parts.body, parts.last)),
        }
    }

    /// The message of the tokens that were taken. None comes exactly where they spell none, and after an error.
    pub fn finish(self) -> Option<Message>
        ensures value { result ≡ built_by self }
        ensures message { (tokens : ListOf Piece) (parts : Parts) → HasBuilt self tokens
            → (result ≡ Some parts) ↔ SpellsParts tokens parts }
    {
        self.finish_or(()).ok()
    }
}

impl Writer for Builder {
    type Error = Stop;

    ghost use Rattle.syncml_grammar.specs.Building.{building_after, token_refusal, reason_told as told_by, IsLacking};

    ghost after = { building_after };

    ghost refusal = { token_refusal };

    ghost told = { told_by };

    ghost left = { IsLacking };

    fn tag(&mut self, element: Element, content: bool) -> Result<(), Stop>
        ensures ok { OnOk result (self.new ≡ building_after self.old (Tag element content)) }
        ensures taken { TakesToken told_by IsLacking result self.old self.new (token_refusal self.old (Tag element content)) }
        ensures stops { IfErr result (λ stop. HasStopped self.new stop) }
        ensures again { (stop : Cause) → HasStopped self.old stop → result ≡ Bad stop }
    {
        self.go_on()?;
        match self.stack.tag(element, content) {
            Ok(()) => Ok(()),
            Err(stop) => {
                self.stopped = Some(stop);
                Err(stop)
            }
        }
    }

    fn end(&mut self) -> Result<(), Stop>
        ensures ok { OnOk result (self.new ≡ building_after self.old End) }
        ensures taken { TakesToken told_by IsLacking result self.old self.new (token_refusal self.old End) }
        ensures stops { IfErr result (λ stop. HasStopped self.new stop) }
        ensures again { (stop : Cause) → HasStopped self.old stop → result ≡ Bad stop }
    {
        self.go_on()?;
        match self.stack.end() {
            Ok(()) => Ok(()),
            Err(stop) => {
                self.stopped = Some(stop);
                Err(stop)
            }
        }
    }

    fn text(&mut self, text: &[u8]) -> Result<(), Stop>
        ensures ok { OnOk result (self.new ≡ building_after self.old (Text text.now)) }
        ensures taken { TakesToken told_by IsLacking result self.old self.new (token_refusal self.old (Text text.now)) }
        ensures stops { IfErr result (λ stop. HasStopped self.new stop) }
        ensures again { (stop : Cause) → HasStopped self.old stop → result ≡ Bad stop }
    {
        self.go_on()?;
        match self.stack.piece(&mut self.room, text) {
            Ok(()) => Ok(()),
            Err(stop) => {
                self.stopped = Some(stop);
                Err(stop)
            }
        }
    }

    fn opaque(&mut self, bytes: &[u8]) -> Result<(), Stop>
        ensures ok { OnOk result (self.new ≡ building_after self.old (Opaque bytes.now)) }
        ensures taken { TakesToken told_by IsLacking result self.old self.new (token_refusal self.old (Opaque bytes.now)) }
        ensures stops { IfErr result (λ stop. HasStopped self.new stop) }
        ensures again { (stop : Cause) → HasStopped self.old stop → result ≡ Bad stop }
    {
        self.go_on()?;
        match self.stack.piece(&mut self.room, bytes) {
            Ok(()) => Ok(()),
            Err(stop) => {
                self.stopped = Some(stop);
                Err(stop)
            }
        }
    }
}

impl Taker for Builder {
    ghost placed = { λ b _. b };

    fn place(&mut self, _at: u64) {}

    fn reason(error: Stop) -> Option<Reason> {
        match error {
            Stop::Memory => None,
            Stop::Refused(reason) => Some(reason),
        }
    }
}
