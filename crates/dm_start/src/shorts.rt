// Short texts.
ghost use Rattle.std.specs.Prelude.{◌≡◌, IfOk, true};
ghost use Rattle.dm_base.specs.Fields.{is_short};

use dm_base::{Bytes, Memory};
use std::alloc::Global;
use std::marker::Model;

/// A text of 1 to 64 bytes of 21 to 7E.
#[derive(Drop)]
pub struct ShortText {
    bytes: Bytes,
}

impl Model for ShortText {
    ghost use Rattle.std.specs.Prelude.{List, ℕ, ◌≡◌, true};
    ghost use Rattle.dm_base.specs.Fields.{is_short};

    ghost Value = { List ℕ };

    ghost view = { λ t. t.bytes };

    ghost invariant = { λ t. is_short t.bytes ≡ true };
}

impl ShortText {
    /// A text of the bytes of a slice.
    pub(crate) fn of_slice(alloc: Global, text: &[u8]) -> Result<ShortText, Memory>
        requires { is_short text.now ≡ true }
        ensures { IfOk result (λ t. t ≡ text.now) }
    {
        Ok(ShortText {
            bytes: Bytes::of_slice(alloc, text)?,
        })
    }

    /// Its bytes. Each short text keeps to the form.
    pub fn as_slice(&self) -> &[u8]
        ensures value { result.now ≡ self.now }
        ensures short { is_short self.now ≡ true }
    {
        self.bytes.as_slice()
    }

    /// An equal text.
    pub(crate) fn copy(&self, alloc: Global) -> Result<ShortText, Memory>
        ensures { IfOk result (λ t. t ≡ self.now) }
    {
        ShortText::of_slice(alloc, self.bytes.as_slice())
    }
}
