// What a URI is made of, and why a text is none.
ghost use Rattle.std.specs.Prelude.{◌≡◌};

use crate::path::Path;
use dm_base::Memory;
use thiserror::Error;

/// A property of a node, which a query asks for: each by the word behind `prop=`, `Media` by `Type`.
#[derive(Clone, Copy, Debug, PartialEq, Eq)]
pub enum Prop {
    Acl,
    Format,
    Name,
    Size,
    Media,
    Title,
    VerNo,
    TStamp,
}

/// What a URI asks for: the node itself, one of its properties, or a list of what stands below it.
#[derive(Clone, Copy, Debug, PartialEq, Eq)]
pub enum Query {
    Plain,
    Prop(Prop),
    Struct,
    StructData,
}

/// A path and a query. The empty path is the root.
#[derive(Drop)]
pub struct Uri {
    pub path: Path,
    pub query: Query,
}

/// Why a text is no URI or no name.
#[derive(Clone, Copy, Debug, PartialEq, Eq, Error)]
pub enum UriError {
    /// The path part isn't of the form, lengths aside.
    #[error("malformed URI")]
    Malformed,
    /// A text of more than 255 bytes; or a name of more than 64, more than 16 names, or a path whose written form has
    /// more than 255 bytes.
    #[error("URI too long")]
    TooLong,
    /// A `?` stands there, and what follows isn't a known query.
    #[error("unknown query")]
    UnknownQuery,
    #[error("out of memory")]
    Memory,
}

impl From<Memory> for UriError {
    ghost use Rattle.std.specs.Prelude.{◌≡◌};
    ghost use Rattle.dm_uri.specs.declared.uri.UriError.TheVariants as error;

    ghost from_gives = { λ _ e. e ≡ error.Memory };

    fn from(_memory: Memory) -> UriError {
        UriError::Memory
    }
}
