// The name of a node, which contracts see as a list of bytes.
ghost use Rattle.std.specs.Prelude.{◌≡◌, ◌↔◌, IsTrue, IfOk, Result, Ok, bytes_eq, length, not};
ghost use Rattle.std.specs.Ordering.{nat_cmp};
ghost use Rattle.std.specs.Cmp.Lexicographic.{slice_cmp};
ghost use Rattle.std.specs.List.{list_all, position_or_len};
ghost use Rattle.dm_uri.specs.Names.{is_name_byte, has_name_form, is_short_name, is_name};
ghost use Rattle.dm_uri.specs.Reading.{IsAsRead, parse_name_of};

use crate::uri::UriError;
use dm_base::{Bytes, Memory};
use std::alloc::Global;
use std::cmp::Ordering;
use std::marker::Model;

/// A name: 1 to 64 bytes of 21 to 7E other than `/` and `?`, and neither `.` nor `..`.
#[derive(Drop)]
pub struct Name {
    bytes: Bytes,
}

impl Model for Name {
    ghost use Rattle.std.specs.Prelude.{List, ℕ, IsTrue};
    ghost use Rattle.dm_uri.specs.Names.{is_name};

    ghost Value = { List ℕ };

    ghost view = { λ n. n.bytes };

    ghost invariant = { λ n. IsTrue (is_name n.bytes) };
}

fn is_name_byte(byte: u8) -> bool
    ensures { result ≡ is_name_byte byte }
{
    0x21 <= byte && byte <= 0x7E && byte != b'/' && byte != b'?'
}

// Where the name bytes at the front of a text end.
pub(crate) fn name_end(text: &[u8]) -> usize
    ensures { result ≡ position_or_len (λ b. not (is_name_byte b)) text.now }
{
    text.iter()
        .position(|b| !is_name_byte(*b))
        .unwrap_or(text.len())
}

fn all_name_bytes(text: &[u8]) -> bool
    ensures { result ≡ list_all is_name_byte text.now }
{
    text.iter().all(|b| is_name_byte(*b))
}

pub(crate) fn has_name_form(text: &[u8]) -> bool
    ensures { result ≡ has_name_form text.now }
{
    !text.is_empty() && all_name_bytes(text) && text != b".".as_slice() && text != b"..".as_slice()
}

pub(crate) fn is_short_name(text: &[u8]) -> bool
    ensures { result ≡ is_short_name text.now }
{
    text.len() <= 64
}

// Whether a text of name bytes alone, which aren't looked at again, is a name.
pub(crate) fn is_name_of_bytes(text: &[u8]) -> bool
    requires { IsTrue (list_all is_name_byte text.now) }
    ensures { result ≡ is_name text.now }
{
    !text.is_empty() && text != b".".as_slice() && text != b"..".as_slice() && is_short_name(text)
}

/// The name that a text is. Malformed comes exactly where it isn't of the form, its length aside; TooLong exactly
/// where it is, and has more than 64 bytes. Memory comes only in place of a name.
#[tactic(auto, unfolding(crate::specs::Reading::parse_name_of))]
pub fn parse_name(alloc: Global, text: &[u8]) -> Result<Name, UriError>
    ensures exact { IsAsRead result (parse_name_of text.now) }
    ensures ok { IfOk result (λ name. (name ≡ text.now) × IsTrue (is_name text.now)) }

    // What is a name is read as this name, unless memory runs out.
    ensures only { IsTrue (is_name text.now) → IsAsRead result (Ok text.now) }
{
    if !has_name_form(text) {
        return Err(UriError::Malformed);
    }
    if !is_short_name(text) {
        return Err(UriError::TooLong);
    }
    match Name::of(alloc, text) {
        Ok(name) => Ok(name),
        Err(Memory) => Err(UriError::Memory),
    }
}

impl Name {
    pub(crate) fn of(alloc: Global, text: &[u8]) -> Result<Name, Memory>
        requires { IsTrue (is_name text.now) }
        ensures { IfOk result (λ name. name ≡ text.now) }
    {
        Ok(Name {
            bytes: Bytes::of_slice(alloc, text)?,
        })
    }

    /// Its bytes. Each name keeps to the form and the limit.
    pub fn as_slice(&self) -> &[u8]
        ensures bytes { result.now ≡ self.now }
        ensures name { IsTrue (is_name self.now) }
    {
        self.bytes.as_slice()
    }

    /// Whether two names have the same bytes, with case.
    pub fn is_same(&self, other: &Name) -> bool
        ensures { result ≡ bytes_eq self.now other.now }
    {
        self.as_slice() == other.as_slice()
    }

    /// The order of two names by their bytes.
    #[inline(always)]
    pub fn compare(&self, other: &Name) -> Ordering
        ensures { result ≡ slice_cmp nat_cmp self.now other.now }
    {
        self.as_slice().cmp(other.as_slice())
    }

    /// An equal name.
    pub fn copy(&self, alloc: Global) -> Result<Name, Memory>
        ensures { IfOk result (λ name. name ≡ self.now) }
    {
        Name::of(alloc, self.as_slice())
    }
}
