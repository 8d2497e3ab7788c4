// What single fields say.
ghost use Rattle.std.specs.Prelude.{◌≡◌, ◌∷◌, [], IfOk, IfSome, IsTrue, codes};
ghost use Rattle.std.specs.Char.{is_ascii_digit};
ghost use Rattle.std.specs.List.{list_all};
ghost use Rattle.dm_uri.specs.Names.{is_within_limits};
ghost use Rattle.dm_tree.specs.Nodes.{is_format as is_one_of};
ghost use Rattle.dm_start.specs.Fields as Spec;

use dm_base::Memory;
use dm_tree::Stamp;
use dm_uri::{Path, Query, Uri, UriError, parse};
use std::alloc::Global;

fn plain_path(uri: Uri) -> Option<Path>
    ensures { result ≡ Spec.plain_path uri.query uri.path }
{
    match uri.query {
        Query::Plain => Some(uri.path),
        Query::Prop(_) => None,
        Query::Struct => None,
        Query::StructData => None,
    }
}

/// The path of a URI without a query. None comes exactly where the text is none.
pub fn path_in(alloc: Global, text: &[u8]) -> Result<Option<Path>, Memory>
    ensures path { IfOk result (λ path. path ≡ Spec.path_in text.now) }
    ensures within { IfOk result (λ path. IfSome path (λ p. IsTrue (is_within_limits p))) }
{
    match parse(alloc, text) {
        Ok(uri) => Ok(plain_path(uri)),
        Err(UriError::Malformed) => Ok(None),
        Err(UriError::TooLong) => Ok(None),
        Err(UriError::UnknownQuery) => Ok(None),
        Err(UriError::Memory) => Err(Memory),
    }
}

fn all_digits(text: &[u8]) -> bool
    ensures { result ≡ list_all is_ascii_digit text.now }
{
    text.iter().all(|b| b.is_ascii_digit())
}

fn is_stamp(text: &[u8]) -> bool
    ensures { result ≡ Spec.is_stamp text.now }
{
    text.len() == 16
        && all_digits(&text[..8])
        && text[8] == b'T'
        && all_digits(&text[9..15])
        && text[15] == b'Z'
}

/// The stamp that a text is: eight digits, `T`, six digits and `Z`. None comes exactly where it is none.
pub(crate) fn stamp_in(text: &[u8]) -> Option<Stamp>
    ensures { result ≡ Spec.stamp_in text.now }
{
    if !is_stamp(text) {
        return None;
    }
    let mut bytes = [0u8; 16];
    bytes.copy_from_slice(text);
    Some(Stamp { bytes })
}

/// Whether a text is a Format of leaves.
#[inline(always)]
pub(crate) fn is_leaf_format(text: &[u8]) -> bool
    ensures { result ≡ Spec.is_leaf_format text.now }
{
    matches!(
        text,
        b"b64" | b"bin" | b"bool" | b"chr" | b"int" | b"null" | b"xml"
    )
}
