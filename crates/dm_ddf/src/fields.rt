// The fields of a rule's line.
ghost use Rattle.std.specs.Prelude.{◌≡◌, IfOk, codes, option_map};
ghost use Rattle.dm_base.specs.Fields.{parts};
ghost use Rattle.dm_ddf.specs.Fields as Spec;

use crate::members::{access_in, formats_in};
use crate::rules::{Occurs, RuleLine};
use dm_base::{Memory, num};
use dm_fields::seven_fields;
use dm_uri::{Name, UriError, parse_name};
use std::alloc::Global;

fn level_in(text: &[u8]) -> Option<u32>
    ensures { result ≡ Spec.level_in text.now }
{
    let depth = num(text)?;
    if 1 <= depth && depth <= 16 {
        Some((depth - 1) as u32)
    } else {
        None
    }
}

fn scope_in(text: &[u8]) -> Option<bool>
    ensures { result ≡ Spec.scope_in text.now }
{
    if text == b"perm".as_slice() {
        Some(true)
    } else if text == b"dyn".as_slice() {
        Some(false)
    } else {
        None
    }
}

fn behind_word<'a>(word: &[u8], text: &'a [u8]) -> Option<&'a [u8]>
    ensures { option_map (λ rest. rest.now) result ≡ Spec.behind_word word.now text.now }
{
    let (front, rest) = text.split_at(text.len().min(word.len()));
    if front == word { Some(rest) } else { None }
}

fn most_in(text: &[u8]) -> Option<u32>
    ensures { result ≡ Spec.most_in text.now }
{
    let most = num(text)?;
    if 1 <= most && most <= 65535 {
        Some(most as u32)
    } else {
        None
    }
}

fn occurs_by_number(text: &[u8]) -> Option<Occurs>
    ensures { result ≡ Spec.occurs_by_number (Spec.behind_word (codes "ZeroOrN:") text.now)
        (Spec.behind_word (codes "OneOrN:") text.now) }
{
    if let Some(most) = behind_word(b"ZeroOrN:", text) {
        return Some(Occurs::ZeroOrN(most_in(most)?));
    }
    if let Some(most) = behind_word(b"OneOrN:", text) {
        return Some(Occurs::OneOrN(most_in(most)?));
    }
    None
}

fn occurs_in(text: &[u8]) -> Option<Occurs>
    ensures { result ≡ Spec.occurs_in text.now }
{
    if text == b"One".as_slice() {
        Some(Occurs::One)
    } else if text == b"ZeroOrOne".as_slice() {
        Some(Occurs::ZeroOrOne)
    } else if text == b"ZeroOrMore".as_slice() {
        Some(Occurs::ZeroOrMore)
    } else if text == b"OneOrMore".as_slice() {
        Some(Occurs::OneOrMore)
    } else {
        occurs_by_number(text)
    }
}

fn name_in(alloc: Global, text: &[u8]) -> Result<Option<Name>, Memory>
    ensures { IfOk result (λ name. name ≡ Spec.name_in text.now) }
{
    match parse_name(alloc, text) {
        Ok(name) => Ok(Some(name)),
        Err(UriError::Memory) => Err(Memory),
        Err(UriError::Malformed) => Ok(None),
        Err(UriError::TooLong) => Ok(None),
        Err(UriError::UnknownQuery) => Ok(None),
    }
}

/// What the fields of a rule's line say. None comes exactly where they say none.
pub(crate) fn rule_in(alloc: Global, line: &[u8]) -> Result<Option<RuleLine>, Memory>
    ensures { IfOk result (λ said. said ≡ Spec.rule_in (parts line.now)) }
{
    let Some((_, depth, name, scope, access, formats, occurs)) = seven_fields(line) else {
        return Ok(None);
    };
    let Some(name) = name_in(alloc, name)? else {
        return Ok(None);
    };
    let Some(level) = level_in(depth) else {
        return Ok(None);
    };
    let Some(permanent) = scope_in(scope) else {
        return Ok(None);
    };
    let Some(access) = access_in(access) else {
        return Ok(None);
    };
    let Some(formats) = formats_in(alloc, formats)? else {
        return Ok(None);
    };
    let Some(occurs) = occurs_in(occurs) else {
        return Ok(None);
    };
    Ok(Some(RuleLine {
        level,
        name,
        permanent,
        access,
        formats,
        occurs,
    }))
}
