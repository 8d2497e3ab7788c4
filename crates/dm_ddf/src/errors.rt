// Why a text isn't a description.
use dm_base::LineReason;
use thiserror::Error;

/// Why a text isn't a description, or isn't what a command reads behind one.
#[derive(Clone, Copy, Debug, PartialEq, Eq, Error)]
pub enum DdfError {
    /// The first line that is refused, counted from 1, and the first reason that holds.
    #[error("a bad line")]
    Bad { line: u64, reason: LineReason },
    #[error("out of memory")]
    Memory,
}
