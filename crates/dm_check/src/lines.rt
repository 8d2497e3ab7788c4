// The lines that are written of what was received.
ghost use Rattle.std.specs.Prelude.{◌≡◌, ◌++◌, bytes_eq, length, IfOk};
ghost use Rattle.dm_base.specs.Lines.{line_feed};
ghost use Rattle.syncml_types.specs.Canonical.{canonical};
ghost use Rattle.syncml_types.specs.Lengths.{up_to_most};
ghost use Rattle.dm_texts.specs.Lines.{refused_line};
ghost use Rattle.dm_check.specs.Answers as Spec;
ghost use Rattle.dm_check.specs.Kept.{read_in, checked_in};

use crate::message::Received;
use dm_base::{Bytes, Memory};
use dm_decimals::put_decimal;
use dm_texts::refused_line;
use std::alloc::Global;
use syncml_codec::{encode, listing};
use syncml_types::{Message, length};
use wbxml_tokens::Refusal;

fn refusal_text(alloc: Global, refusal: Refusal) -> Result<Bytes, Memory>
    ensures { IfOk result (λ text. text ≡ refused_line refusal ++ line_feed) }
{
    let mut text = refused_line(alloc, refusal)?;
    text.push(b'\n')?;
    Ok(text)
}

fn ok_line(alloc: Global, bytes: u64, spelling: u64, same: bool) -> Result<Bytes, Memory>
    ensures { IfOk result (λ line. line ≡ Spec.ok_line bytes spelling same) }
{
    let mut line = Bytes::of_slice(alloc, b"ok ")?;
    put_decimal(&mut line, bytes)?;
    line.push(b' ')?;
    put_decimal(&mut line, spelling)?;
    line.extend(if same { b" canonical" } else { b" other" })?;
    line.push(b'\n')?;
    Ok(line)
}

// Whether the bytes are the canonical spelling, of which the length is known. Only where the lengths agree is it
// written: a string of the table may stand for a text at many places, so the spelling may be many times as long as the
// bytes.
#[tactic(auto, using(crate::proofs::Lengths::other_length))]
fn is_canonical(
    alloc: Global,
    message: &Message,
    bytes: &[u8],
    spelling: u64,
) -> Result<bool, Memory>
    requires { spelling ≡ up_to_most (length (canonical message.now)) }
    ensures { IfOk result (λ same. same ≡ bytes_eq bytes.now (canonical message.now)) }
{
    if spelling != bytes.len() as u64 {
        return Ok(false);
    }
    Ok(bytes == encode(alloc, message)?.as_slice())
}

/// The text of `show`.
pub fn show_lines(alloc: Global, received: &Received) -> Result<Bytes, Memory>
    ensures { IfOk result (λ text. text ≡ Spec.check_answer (read_in received.now)) }
{
    match received {
        Received::Message { message, .. } => listing(alloc, message),
        Received::Refused(refusal) => refusal_text(alloc, *refusal),
    }
}

/// The line of `check`.
pub fn check_line(alloc: Global, received: &Received) -> Result<Bytes, Memory>
    ensures { IfOk result (λ text. text ≡ checked_in received.now) }
{
    match received {
        Received::Message { message, bytes } => {
            let spelling = length(message);
            let same = is_canonical(alloc, message, bytes.as_slice(), spelling)?;
            ok_line(alloc, bytes.len() as u64, spelling, same)
        }
        Received::Refused(refusal) => refusal_text(alloc, *refusal),
    }
}
