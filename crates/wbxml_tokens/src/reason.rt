// Why bytes are refused, and where.
ghost use Rattle.std.specs.Prelude.{◌≡◌};
ghost use Rattle.wbxml_tokens.specs.Reasons.{word_of};

use dm_base::Memory;
use std::fmt::{self, Display, Formatter};
use thiserror::Error;

/// Why the bytes of a message are refused, in the words of the tool.
#[derive(Clone, Copy, Debug, PartialEq, Eq)]
pub enum Reason {
    /// The document ends before it is whole.
    Truncated,
    /// Byte 65,537 comes and the document isn't whole.
    Toolong,
    /// The version isn't 1.1, 1.2 or 1.3.
    Version,
    /// The public identifier isn't SyncML 1.2's.
    Publicid,
    /// The charset isn't UTF-8.
    Charset,
    /// An integer has more than five bytes or more than 32 bits.
    Integer,
    /// A string of the table begins at no byte of it.
    Index,
    /// A byte begins no token of the profile.
    Token,
    /// A tag has no element, or a page isn't 0 or 1.
    Tag,
    /// An element that the profile leaves out.
    Leftout,
    /// An Atomic or a Sequence stands where none may be nested.
    Nested,
    /// A tag, a text or an END stands where the grammar has none.
    Misplaced,
    /// A text isn't UTF-8, or holds the byte 0.
    Text,
    /// A number isn't decimal, has leading zeros, or is out of its range.
    Number,
    /// A byte follows the whole document.
    Trailing,
}

impl Reason {
    /// The word of the reason, as the tool writes it.
    pub fn word(self) -> &'static str
        ensures { result.now ≡ word_of self }
    {
        match self {
            Reason::Truncated => "truncated",
            Reason::Toolong => "toolong",
            Reason::Version => "version",
            Reason::Publicid => "publicid",
            Reason::Charset => "charset",
            Reason::Integer => "integer",
            Reason::Index => "index",
            Reason::Token => "token",
            Reason::Tag => "tag",
            Reason::Leftout => "leftout",
            Reason::Nested => "nested",
            Reason::Misplaced => "misplaced",
            Reason::Text => "text",
            Reason::Number => "number",
            Reason::Trailing => "trailing",
        }
    }
}

impl Display for Reason {
    fn fmt<W: fmt::Write>(&self, f: &mut Formatter<W>) -> fmt::Result {
        f.write_str(self.word())
    }
}

/// A refusal: the place of the byte that it names, counted from 0, and the reason.
#[derive(Clone, Copy, Debug, PartialEq, Eq, Error)]
#[error("refused at {at}: {reason}")]
pub struct Refusal {
    pub at: u64,
    pub reason: Reason,
}

/// Why a part or a token isn't taken: a refusal at its own place, or want of memory. It is small, since each token's
/// answer may be one.
#[derive(Clone, Copy, Debug, PartialEq, Eq, Error)]
pub enum Stop {
    #[error("refused: {0}")]
    Refused(Reason),
    #[error("out of memory")]
    Memory,
}

impl From<Memory> for Stop {
    ghost use Rattle.std.specs.Prelude.{◌≡◌};
    ghost use Rattle.wbxml_tokens.specs.declared.reason.Stop.TheVariants as stops;

    ghost from_gives = { λ _ stop. stop ≡ stops.Memory };

    fn from(_memory: Memory) -> Stop {
        Stop::Memory
    }
}

/// Why a reader or a decoder answers no `Ok`: the first refusal of the bytes, or want of memory.
#[derive(Clone, Copy, Debug, PartialEq, Eq, Error)]
pub enum FeedError {
    #[error("{0}")]
    Refused(Refusal),
    #[error("out of memory")]
    Memory,
}

impl From<Memory> for FeedError {
    ghost use Rattle.std.specs.Prelude.{◌≡◌};
    ghost use Rattle.wbxml_tokens.specs.declared.reason.FeedError.TheVariants as errors;

    ghost from_gives = { λ _ error. error ≡ errors.Memory };

    fn from(_memory: Memory) -> FeedError {
        FeedError::Memory
    }
}
