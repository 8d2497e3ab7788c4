// The canonical spelling of a message.
ghost use Rattle.std.specs.Prelude.{◌≡◌, IfOk, length};
ghost use Rattle.syncml_types.specs.Canonical.{canonical};
ghost use Rattle.syncml_types.specs.Lengths.{up_to_most};

use dm_base::{Bytes, Memory};
use std::alloc::Global;
use syncml_types::{Message, length, put_message};
use wbxml_tokens::TokenWriter;

/// The canonical spelling of a message whose length is known, in one buffer whose room is reserved once. The message is
/// spelled, and not measured.
#[tactic(auto, using(crate::proofs::Written::bytes_written), unfolding(syncml_types::specs::Canonical::canonical))]
#[inline(always)]
pub fn encode_with_length(alloc: Global, message: &Message, bytes: u64) -> Result<Bytes, Memory>
    requires { bytes ≡ up_to_most (length (canonical message.now)) }
    ensures { IfOk result (λ spelling. spelling ≡ canonical message.now) }
{
    let mut writer = TokenWriter::with_room(alloc, bytes as usize)?;
    put_message(&mut writer, message)?;
    Ok(writer.finish())
}

/// The canonical spelling of a message, in one buffer whose room is reserved once.
pub fn encode(alloc: Global, message: &Message) -> Result<Bytes, Memory>
    ensures { IfOk result (λ bytes. bytes ≡ canonical message.now) }
{
    encode_with_length(alloc, message, length(message))
}
