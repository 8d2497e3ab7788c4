// What tokens are: a message, the beginning of one, or refused.
ghost use Rattle.std.specs.Prelude.{◌≡◌, None, IfOk};
ghost use Rattle.syncml_grammar.specs.Refusals.{Verdict as Judgement, Judges, verdict_of};
ghost use Rattle.syncml_grammar.specs.Verdicts.{judgement, GivesOne};

use crate::builder::Builder;
use dm_base::Memory;
use std::alloc::Global;
use syncml_types::Message;
use wbxml_tokens::{Reason, Stop, Token, Writer};

/// What tokens are.
#[derive(Drop)]
pub enum MessageVerdict {
    /// They spell this message.
    Message(Message),
    /// They begin a message.
    Unfinished,
    /// The token at this place, counted from 0, is the first that is refused.
    Refused { at: usize, reason: Reason },
}

fn put(builder: &mut Builder, token: &Token) -> Result<(), Stop>
    requires { builder.old.stopped ≡ None }
    ensures { GivesOne result builder.old builder.new token.now }
{
    match token {
        Token::Tag { element, content } => builder.tag(*element, *content),
        Token::End => builder.end(),
        Token::Text(text) => builder.text(text.as_slice()),
        Token::Opaque(bytes) => builder.text(bytes.as_slice()),
    }
}

fn judged(alloc: Global, tokens: &[Token]) -> Result<MessageVerdict, Memory>
    ensures { IfOk result (λ verdict. judgement verdict ≡ verdict_of tokens.now) }
{
    let mut builder = Builder::new(alloc);
    for (at, token) in tokens.iter().enumerate() {
        match put(&mut builder, token) {
            Ok(()) => {}
            Err(Stop::Memory) => {
                drop(builder);
                return Err(Memory);
            }
            Err(Stop::Refused(reason)) => {
                drop(builder);
                return Ok(MessageVerdict::Refused { at, reason });
            }
        }
    }
    match builder.finish() {
        Some(message) => Ok(MessageVerdict::Message(message)),
        None => Ok(MessageVerdict::Unfinished),
    }
}

/// Says of tokens which message they spell, or that they begin one, or which is refused first and why: Leftout, Nested
/// or Misplaced where no document goes on with it, and Text or Number where it closes what doesn't read. Exactly one of
/// these is so. `Memory` may come in place of any of these, since the message is built as its tokens are judged. The
/// work is linear in the tokens and their texts.
pub fn judge(alloc: Global, tokens: &[Token]) -> Result<MessageVerdict, Memory>
    ensures exact { IfOk result (λ verdict. Judges tokens.now (judgement verdict)) }
    ensures only { (other : Judgement) → Judges tokens.now other → IfOk result (λ verdict. judgement verdict ≡ other) }
{
    judged(alloc, tokens)
}
