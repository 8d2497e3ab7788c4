//! Lines that several commands write: where bytes are no message, and which line of a text is refused.
#![tactic(auto)]

ghost use Rattle.std.specs.Prelude.{◌≡◌, IfOk};
ghost use Rattle.dm_texts.specs.Lines as Spec;

use dm_base::{Bytes, LineReason, Memory};
use dm_decimals::put_decimal;
use std::alloc::Global;
use wbxml_tokens::Refusal;

/// The line that tells where and why bytes are no message, without its line feed.
pub fn refused_line(alloc: Global, refusal: Refusal) -> Result<Bytes, Memory>
    ensures { IfOk result (λ line. line ≡ Spec.refused_line refusal) }
{
    let mut line = Bytes::of_slice(alloc, b"refused ")?;
    put_decimal(&mut line, refusal.at)?;
    line.push(b' ')?;
    line.extend(refusal.reason.word().as_bytes())?;
    Ok(line)
}

fn reason_word(reason: LineReason) -> &'static str
    ensures { result.now ≡ Spec.reason_word reason }
{
    match reason {
        LineReason::Cut => "cut",
        LineReason::Long => "long",
        LineReason::Word => "word",
        LineReason::Fields => "fields",
        LineReason::Account => "account",
        LineReason::Tree => "tree",
        LineReason::Extra => "extra",
        LineReason::Message => "message",
    }
}

/// The line that tells which line of a text is refused, counted from 1, and why, with its line feed.
pub fn bad_line(alloc: Global, number: u64, reason: LineReason) -> Result<Bytes, Memory>
    ensures { IfOk result (λ line. line ≡ Spec.bad_line number reason) }
{
    let mut line = Bytes::of_slice(alloc, b"bad ")?;
    put_decimal(&mut line, number)?;
    line.push(b' ')?;
    line.extend(reason_word(reason).as_bytes())?;
    line.push(b'\n')?;
    Ok(line)
}
