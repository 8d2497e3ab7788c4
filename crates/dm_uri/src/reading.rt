// A text is read.
ghost use Rattle.std.specs.Prelude.{◌≡◌, ◌≢◌, ◌≤◌, ◌&&◌, ◌∷◌, [], IsTrue, Ok, IfOk, IfErr, IfSome, MatchOption};
ghost use Rattle.std.specs.Prelude.{is_ok, nat_le, length};
ghost use Rattle.std.specs.List.{list_all, slice_split, position_or_len};
ghost use Rattle.dm_uri.specs.Names.{has_name_form, is_short_name, is_name, is_within_limits};
ghost use Rattle.dm_uri.specs.Grammar.{IsUriText};
ghost use Rattle.dm_uri.specs.Refusals.{is_question, IsRefusedUri};
ghost use Rattle.dm_uri.specs.Reading.{is_slash, is_root, without_front, names_in, query_of, read_path, parse_of};
ghost use Rattle.dm_uri.specs.Reading.{IsAsRead, FirstPart, BeginsWithNames, IsReadAsUri};
ghost use Rattle.dm_uri.specs.declared.uri.Uri.{Uri};
ghost use Rattle.dm_uri.specs.declared.uri.UriError.TheVariants as error;

use crate::name::{Name, has_name_form, is_name_of_bytes, is_short_name, name_end};
use crate::path::Path;
use crate::uri::{Prop, Query, Uri, UriError};
use crate::writing::query_text;
use dm_base::{List, Memory};
use std::alloc::Global;

const QUERIES: [Query; 11] = [
    Query::Plain,
    Query::Prop(Prop::Acl),
    Query::Prop(Prop::Format),
    Query::Prop(Prop::Name),
    Query::Prop(Prop::Size),
    Query::Prop(Prop::Media),
    Query::Prop(Prop::Title),
    Query::Prop(Prop::VerNo),
    Query::Prop(Prop::TStamp),
    Query::Struct,
    Query::StructData,
];

fn query_of(text: &[u8]) -> Option<Query>
    ensures { result ≡ query_of text.now }
{
    QUERIES
        .iter()
        .find(|query| query_text(**query) == text)
        .copied()
}

// The place of the first `?`, or the length.
fn path_end(text: &[u8]) -> usize
    ensures { result ≡ position_or_len is_question text.now }
{
    text.iter().position(|b| *b == b'?').unwrap_or(text.len())
}

fn is_root(part: &[u8]) -> bool
    ensures { result ≡ is_root part.now }
{
    part == b".".as_slice() || part == b"./".as_slice()
}

fn without_front(part: &[u8]) -> &[u8]
    ensures { result.now ≡ without_front part.now }
{
    part.strip_prefix(b"./".as_slice()).unwrap_or(part)
}

fn all_have_form(text: &[u8]) -> bool
    ensures { result ≡ list_all has_name_form (slice_split is_slash text.now) }
{
    text.split(|b| *b == b'/').all(has_name_form)
}

fn all_short(text: &[u8]) -> bool
    ensures { result ≡ list_all is_short_name (slice_split is_slash text.now) }
{
    text.split(|b| *b == b'/').all(is_short_name)
}

fn count_of(text: &[u8]) -> usize
    ensures { result ≡ length (slice_split is_slash text.now) }
{
    text.split(|b| *b == b'/').count()
}

// What stands before the first slash, and what behind it. None comes where there is no slash.
fn around_slash(text: &[u8]) -> Option<(&[u8], &[u8])>
    ensures { MatchOption result (slice_split is_slash text.now ≡ text.now ∷ [])
        (λ parts. FirstPart text.now parts.0.now parts.1.now) }
{
    match text.iter().position(|b| *b == b'/') {
        Some(at) => Some((text.split_at(at).0, text.split_at(at + 1).1)),
        None => None,
    }
}

// The names between the slashes of a text. Room for `count` is taken at once.
fn names_of(alloc: Global, text: &[u8], count: usize) -> Result<List<Name>, Memory>
    requires { IsTrue (list_all is_name (slice_split is_slash text.now)) }
    ensures { IfOk result (λ names. names ≡ slice_split is_slash text.now) }
{
    let mut names = List::with_room(alloc, count)?;
    let mut rest = text;
    while let Some((front, behind)) = around_slash(rest) {
        names.push(Name::of(alloc, front)?)?;
        rest = behind;
    }
    names.push(Name::of(alloc, rest)?)?;
    Ok(names)
}

// Whether names of the form, between the slashes of a text, are within the limits behind a `./`.
#[tactic(auto, using(crate::proofs::Limits::length_printed_split))]
fn is_within_limits(text: &[u8]) -> bool
    requires { length text.now ≤ 255 }
    ensures { result ≡ is_within_limits (slice_split is_slash text.now) }
{
    all_short(text) && count_of(text) <= 16 && text.len() + 2 <= 255
}

// Why a path part spells no path. It takes no memory.
fn path_refusal(part: &[u8]) -> Option<UriError>
    requires { length part.now ≤ 255 }
    ensures { MatchOption result (read_path (names_in part.now) ≡ Ok (names_in part.now))
        (λ e. read_path (names_in part.now) ≡ Err e) }
{
    if is_root(part) {
        return None;
    }
    let text = without_front(part);
    if !all_have_form(text) {
        return Some(UriError::Malformed);
    }
    if !is_within_limits(text) {
        return Some(UriError::TooLong);
    }
    None
}

// The path that a path part spells.
fn path_of(alloc: Global, part: &[u8]) -> Result<Path, Memory>
    requires { read_path (names_in part.now) ≡ Ok (names_in part.now) }
    ensures { IfOk result (λ path. path ≡ names_in part.now) }
{
    if is_root(part) {
        return Ok(Path::new(alloc));
    }
    let text = without_front(part);
    Ok(Path::of(names_of(alloc, text, count_of(text))?))
}

// The value of a text, or its first refusal. Each rule has a pass of its own, so that the refusals come in their order.
#[cold]
#[tactic(auto, unfolding(crate::specs::Reading::parse_of))]
fn read_by_rules(alloc: Global, text: &[u8]) -> Result<Uri, UriError>
    ensures { IsAsRead result (parse_of text.now) }
{
    if text.len() > 255 {
        return Err(UriError::TooLong);
    }
    let (part, query) = text.split_at(path_end(text));
    if let Some(refusal) = path_refusal(part) {
        return Err(refusal);
    }
    let Some(query) = query_of(query) else {
        return Err(UriError::UnknownQuery);
    };
    match path_of(alloc, part) {
        Ok(path) => Ok(Uri { path, query }),
        Err(Memory) => Err(UriError::Memory),
    }
}

// Whether a text keeps to the rules.
#[cold]
#[tactic(auto, unfolding(crate::specs::Reading::parse_of))]
fn keeps_rules(text: &[u8]) -> bool
    ensures { result ≡ is_ok (parse_of text.now) }
{
    let (part, query) = text.split_at(path_end(text));
    text.len() <= 255 && path_refusal(part).is_none() && query_of(query).is_some()
}

// How many names stand at the front of a text, and what stands behind them, found in one pass. None comes where what
// stands there is no name, or where a 17th would follow.
fn behind_names(text: &[u8]) -> Option<(usize, &[u8])>
    ensures names { IfSome result (λ found. BeginsWithNames text.now found.0 found.1.now) }
    ensures count { IfSome result (λ found. (1 ≤ found.0) × (found.0 ≤ 16)) }
{
    let mut rest = text;
    for before in 0..16 {
        let (name, behind) = rest.split_at(name_end(rest));
        if !is_name_of_bytes(name) {
            return None;
        }
        if behind.is_empty() || behind[0] != b'/' {
            return Some((before + 1, behind));
        }
        rest = &behind[1..];
    }
    None
}

// The part of a text with the names, their number, and the query. None comes for each text that is refused, and for a
// few others, as the root: those are left to the rules.
#[inline(always)]
fn parts_at_once(text: &[u8]) -> Option<(&[u8], usize, Query)>
    ensures { IfSome result (λ parts. IsReadAsUri text.now parts.0.now parts.2) }
{
    let text = without_front(text);
    // With two bytes more, for a `./`, it is still short enough, and so is the written form of its path.
    if text.len() > 253 {
        return None;
    }
    let (count, behind) = behind_names(text)?;
    let query = query_of(behind)?;
    Some((text.split_at(text.len() - behind.len()).0, count, query))
}

// The value of a text, or its first refusal.
fn read(alloc: Global, text: &[u8]) -> Result<Uri, UriError>
    ensures { IsAsRead result (parse_of text.now) }
{
    let Some((part, count, query)) = parts_at_once(text) else {
        return read_by_rules(alloc, text);
    };
    match names_of(alloc, part, count) {
        Ok(names) => Ok(Uri {
            path: Path::of(names),
            query,
        }),
        Err(Memory) => Err(UriError::Memory),
    }
}

/// Whether a text is read as a URI. It takes no memory.
pub fn is_uri(text: &[u8]) -> bool
    ensures { result ≡ is_ok (parse_of text.now) }
{
    parts_at_once(text).is_some() || keeps_rules(text)
}

/// The URI that a text spells, or the first refusal that holds.
///
/// - TooLong: the text has more than 255 bytes.
/// - Malformed: the path part, which ends at the first `?`, isn't of the form, lengths aside.
/// - TooLong: a name has more than 64 bytes, there are more than 16 names, or the written form of the path has more
///   than 255 bytes.
/// - UnknownQuery: a `?` stands there, and what follows isn't a query.
///
/// Memory comes only in place of a value: a text that is refused is refused without memory.
pub fn parse(alloc: Global, text: &[u8]) -> Result<Uri, UriError>
    ensures exact { IsAsRead result (parse_of text.now) }
    ensures ok { IfOk result (λ uri. IsUriText text.now uri) }

    // What is a URI's text is read as this URI, unless memory runs out.
    ensures only { (uri : Uri) → IsUriText text.now uri → IsAsRead result (Ok uri) }
    ensures err { IfErr result (λ e. e ≢ error.Memory → IsRefusedUri text.now e) }
{
    read(alloc, text)
}
