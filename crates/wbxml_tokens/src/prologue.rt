// The prologue of a document, read from its bytes.
ghost use Rattle.std.specs.Prelude.{◌≡◌, ◌<◌, ◌+◌, ◌^◌, Option as Maybe, Result as Either, ℕ, length};
ghost use Rattle.dm_base.specs.Limits.{text_limit};
ghost use Rattle.wbxml_ints.specs.Multibyte.{integer_at};
ghost use Rattle.wbxml_tokens.specs.Fronts as Spec;
ghost use Rattle.wbxml_tokens.specs.Parts.{GivesHead, Keeps};

use crate::part::string_at;
use crate::reason::{Reason, Refusal};
use wbxml_ints::{Mb, read_mb};

const IDENTIFIER_NUMBER: u32 = 0x1201;

const IDENTIFIER_TEXT: &[u8] = b"-//SYNCML//DTD SyncML 1.2//EN";

const UTF_8: u32 = 106;

/// A whole prologue.
#[derive(Clone, Copy)]
pub(crate) struct WholePrologue<'a> {
    /// The string table, which may be empty.
    pub table: &'a [u8],
    /// How many bytes the prologue has.
    pub size: usize,
}

type Answer<'a> = Result<Option<WholePrologue<'a>>, Refusal>;

fn refuse<'a>(at: usize, reason: Reason) -> Answer<'a>
    requires { at < 2 ^ 32 }
    ensures gives { GivesHead result (Spec.wrong at reason) }
    ensures bounds { Keeps result at }
{
    Err(Refusal {
        at: at as u64,
        reason,
    })
}

// Whether the identifier's index, where it has one, is that of its text.
fn is_identified(index: Option<u32>, table: &[u8]) -> bool
    ensures { result ≡ Spec.is_identified index table.now }
{
    match index {
        None => true,
        Some(index) => {
            let index = index as usize;
            index < table.len() && string_at(table, index) == IDENTIFIER_TEXT
        }
    }
}

fn table_in<'a>(index: Option<u32>, count: u32, at: usize, bytes: &'a [u8]) -> Answer<'a>
    requires { at + length bytes.now < 2 ^ 32 }
    ensures gives { GivesHead result (Spec.table_in index count at bytes.now) }
    ensures bounds { Keeps result (at + length bytes.now) }
{
    let count = count as usize;
    if count > bytes.len() {
        return Ok(None);
    }
    let table = &bytes[..count];
    if !is_identified(index, table) {
        return refuse(1, Reason::Publicid);
    }
    Ok(Some(WholePrologue {
        table,
        size: at + count,
    }))
}

fn charset_in<'a>(
    index: Option<u32>,
    place: usize,
    charset: u32,
    at: usize,
    bytes: &'a [u8],
) -> Answer<'a>
    requires room { at + length bytes.now < 2 ^ 32 }
    requires behind { place < at }
    ensures gives { GivesHead result (Spec.charset_in index place charset at bytes.now) }
    ensures bounds { Keeps result (at + length bytes.now) }
{
    if charset != UTF_8 {
        return refuse(place, Reason::Charset);
    }
    match read_mb(bytes) {
        Mb::More => Ok(None),
        Mb::TooBig => refuse(at, Reason::Integer),
        Mb::Value { number, used } => {
            let (_, rest) = bytes.split_at(used);
            table_in(index, number, at + used, rest)
        }
    }
}

fn behind_identifier<'a>(index: Option<u32>, at: usize, bytes: &'a [u8]) -> Answer<'a>
    requires { at + length bytes.now < 2 ^ 32 }
    ensures gives { GivesHead result (Spec.behind_identifier index at bytes.now) }
    ensures bounds { Keeps result (at + length bytes.now) }
{
    match read_mb(bytes) {
        Mb::More => Ok(None),
        Mb::TooBig => refuse(at, Reason::Integer),
        Mb::Value { number, used } => {
            let (_, rest) = bytes.split_at(used);
            charset_in(index, at, number, at + used, rest)
        }
    }
}

fn index_at<'a>(at: usize, bytes: &'a [u8]) -> Answer<'a>
    requires { at + length bytes.now < 2 ^ 32 }
    ensures gives { GivesHead result (Spec.integer_then at at (integer_at bytes.now) bytes.now Spec.index_in) }
    ensures bounds { Keeps result (at + length bytes.now) }
{
    match read_mb(bytes) {
        Mb::More => Ok(None),
        Mb::TooBig => refuse(at, Reason::Integer),
        Mb::Value { number, used } => {
            let (_, rest) = bytes.split_at(used);
            behind_identifier(Some(number), at + used, rest)
        }
    }
}

fn identifier_in<'a>(number: u32, at: usize, bytes: &'a [u8]) -> Answer<'a>
    requires { at + length bytes.now < 2 ^ 32 }
    ensures gives { GivesHead result (Spec.identifier_in number at bytes.now) }
    ensures bounds { Keeps result (at + length bytes.now) }
{
    match number {
        0 => index_at(at, bytes),
        IDENTIFIER_NUMBER => behind_identifier(None, at, bytes),
        _ => refuse(1, Reason::Publicid),
    }
}

/// The prologue at the front of bytes; None where it isn't whole. Its refusals name bytes from the front on.
#[tactic(auto, unfolding(crate::specs::Fronts::prologue_at))]
pub(crate) fn prologue(bytes: &[u8]) -> Answer<'_>
    requires { length bytes.now < text_limit }
    ensures gives { GivesHead result (Spec.prologue_at bytes.now) }
    ensures bounds { Keeps result (length bytes.now) }
{
    match bytes {
        [] => Ok(None),
        [1..=3, rest @ ..] => match read_mb(rest) {
            Mb::More => Ok(None),
            Mb::TooBig => refuse(1, Reason::Integer),
            Mb::Value { number, used } => {
                let (_, rest) = rest.split_at(used);
                identifier_in(number, 1 + used, rest)
            }
        },
        _ => refuse(0, Reason::Version),
    }
}
