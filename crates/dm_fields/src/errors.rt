// Why a line isn't taken.
ghost use Rattle.std.specs.Prelude.{◌≡◌};

use dm_base::{LineReason, Memory};
use thiserror::Error;

/// Why a line isn't taken.
#[derive(Clone, Copy, Debug, PartialEq, Eq, Error)]
pub enum LineError {
    /// The first reason that holds.
    #[error("a bad line")]
    Bad(LineReason),
    #[error("out of memory")]
    Memory,
}

impl From<Memory> for LineError {
    ghost use Rattle.std.specs.Prelude.{◌≡◌};
    ghost use Rattle.dm_fields.specs.declared.errors.LineError.TheVariants as error;

    ghost from_gives = { λ _ e. e ≡ error.Memory };

    fn from(_memory: Memory) -> LineError {
        LineError::Memory
    }
}

/// A line whose fields aren't those of its word.
pub const BAD_FIELDS: LineError = LineError::Bad(LineReason::Fields);

/// A line that the tree doesn't take.
pub const BAD_TREE: LineError = LineError::Bad(LineReason::Tree);

/// A line whose first word isn't one that may stand there.
pub const BAD_WORD: LineError = LineError::Bad(LineReason::Word);
