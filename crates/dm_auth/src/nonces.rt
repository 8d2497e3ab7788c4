// The nonces that the ends tell each other, as base64 text.
ghost use Rattle.std.specs.Prelude.{◌≡◌, IfOk, option_map};
ghost use Rattle.dm_auth.specs.Digests.{decoded_nonce};

use base64::DecodeAllocError;
use base64::engine::general_purpose::STANDARD;
use dm_base::{Bytes, Memory};
use std::alloc::Global;

/// The bytes of a base64 text; the empty text has none. None comes exactly where the text isn't strict base64: its
/// padding is missing, a spare bit isn't zero, or another byte stands in it.
pub fn nonce_of(alloc: Global, text: &[u8]) -> Result<Option<Bytes>, Memory>
    ensures { IfOk result (λ bytes. bytes ≡ decoded_nonce text.now) }
{
    match STANDARD.decode(alloc, text) {
        Ok(bytes) => Ok(Some(Bytes::of_vec(bytes))),
        Err(DecodeAllocError::OutOfMemory) => Err(Memory),
        Err(_) => Ok(None),
    }
}
