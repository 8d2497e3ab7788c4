// The token or the page switch at the front of bytes, read and handed on.
ghost use Rattle.std.specs.Prelude.{◌≡◌, ◌<◌, ◌≤◌, ◌+◌, ◌∷◌, [], OnOk, OnErr, ◌%◌, ◌^◌, ◌-◌, ◌||◌, ℕ, List, length};
ghost use Rattle.std.specs.Prelude.{nat_le, nat_lt, if◌then◌else◌};
ghost use Rattle.wbxml_ints.specs.Multibyte.{integer_at};
ghost use Rattle.wbxml_tables.specs.Tables.{element_at};
ghost use Rattle.wbxml_tokens.specs.declared.reason.Reason.TheVariants as reasons;
ghost use Rattle.wbxml_tokens.specs.declared.token.Token.TheVariants as pieces;
ghost use Rattle.wbxml_tokens.specs.Fronts as Spec;
ghost use Rattle.wbxml_tokens.specs.Fronts.{front, until_zero, table_string};
ghost use Rattle.wbxml_tokens.specs.Reading.{depth_of};
ghost use Rattle.wbxml_tokens.specs.Taking.{taking, stopped_at, GivesPart};
ghost use Rattle.wbxml_tokens.specs.Parts.{reader_at, HasRoom};

use crate::reason::{Reason, Stop};
use crate::spot::{Spot, stop_of};
use crate::token::Taker;
use memchr::memchr;
use wbxml_ints::{Mb, read_mb};
use wbxml_tables::{Element, element_of};

// The bytes before the first 0, or all where there is none.
#[tactic(auto, using(crate::proofs::Zeros::before_zero))]
pub(crate) fn before_zero(bytes: &[u8]) -> &[u8]
    ensures { result.now ≡ until_zero bytes.now }
{
    match memchr(0, bytes) {
        Some(at) => &bytes[..at],
        None => bytes,
    }
}

// Hands on a tag.
fn hand_tag<T: Taker>(
    spot: &mut Spot,
    element: Element,
    content: bool,
    size: usize,
    taker: &mut T,
) -> Result<usize, Stop>
    requires room { HasRoom spot.old size }
    requires some { 0 < size }
    ensures gives { (table : List ℕ)
        → GivesPart (taking T.placed T.after T.refusal) T.left (stopped_at spot.old.place result)
        (reader_at spot.old table) (reader_at spot.new table) taker.old taker.new
        (Spec.token (pieces.Tag element content) size) }
    ensures room { OnOk result (depth_of spot.new.extent ≤ spot.new.place) }
    ensures place { OnErr result (spot.new.place ≡ spot.old.place) }
{
    taker.place(spot.place);
    match taker.tag(element, content) {
        Ok(()) => {
            spot.extent = spot.extent.behind_tag(content);
            spot.place += size as u64;
            Ok(size)
        }
        Err(error) => Err(stop_of::<T>(error)),
    }
}

// Hands on an END.
fn hand_end<T: Taker>(spot: &mut Spot, size: usize, taker: &mut T) -> Result<usize, Stop>
    requires room { HasRoom spot.old size }
    requires some { 0 < size }
    ensures gives { (table : List ℕ)
        → GivesPart (taking T.placed T.after T.refusal) T.left (stopped_at spot.old.place result)
        (reader_at spot.old table) (reader_at spot.new table) taker.old taker.new (Spec.token pieces.End size) }
    ensures room { OnOk result (depth_of spot.new.extent ≤ spot.new.place) }
    ensures place { OnErr result (spot.new.place ≡ spot.old.place) }
{
    taker.place(spot.place);
    match taker.end() {
        Ok(()) => {
            spot.extent = spot.extent.behind_end();
            spot.place += size as u64;
            Ok(size)
        }
        Err(error) => Err(stop_of::<T>(error)),
    }
}

// Hands on a text.
#[inline(always)]
fn hand_text<T: Taker>(
    spot: &mut Spot,
    text: &[u8],
    size: usize,
    taker: &mut T,
) -> Result<usize, Stop>
    requires room { HasRoom spot.old size }
    requires some { 0 < size }
    ensures gives { (table : List ℕ)
        → GivesPart (taking T.placed T.after T.refusal) T.left (stopped_at spot.old.place result)
        (reader_at spot.old table) (reader_at spot.new table) taker.old taker.new
        (Spec.token (pieces.Text text.now) size) }
    ensures room { OnOk result (depth_of spot.new.extent ≤ spot.new.place) }
    ensures place { OnErr result (spot.new.place ≡ spot.old.place) }
{
    taker.place(spot.place);
    match taker.text(text) {
        Ok(()) => {
            spot.extent = spot.extent.behind_bytes();
            spot.place += size as u64;
            Ok(size)
        }
        Err(error) => Err(stop_of::<T>(error)),
    }
}

// Hands on an opaque.
fn hand_opaque<T: Taker>(
    spot: &mut Spot,
    bytes: &[u8],
    size: usize,
    taker: &mut T,
) -> Result<usize, Stop>
    requires room { HasRoom spot.old size }
    requires some { 0 < size }
    requires short { length bytes.now < 2 ^ 32 }
    ensures gives { (table : List ℕ)
        → GivesPart (taking T.placed T.after T.refusal) T.left (stopped_at spot.old.place result)
        (reader_at spot.old table) (reader_at spot.new table) taker.old taker.new
        (Spec.token (pieces.Opaque bytes.now) size) }
    ensures room { OnOk result (depth_of spot.new.extent ≤ spot.new.place) }
    ensures place { OnErr result (spot.new.place ≡ spot.old.place) }
{
    taker.place(spot.place);
    match taker.opaque(bytes) {
        Ok(()) => {
            spot.extent = spot.extent.behind_bytes();
            spot.place += size as u64;
            Ok(size)
        }
        Err(error) => Err(stop_of::<T>(error)),
    }
}
// A byte that begins no other token.
fn tag<T: Taker>(spot: &mut Spot, byte: u8, taker: &mut T) -> Result<usize, Stop>
    requires room { HasRoom spot.old 1 }
    ensures gives { (table : List ℕ)
        → GivesPart (taking T.placed T.after T.refusal) T.left (stopped_at spot.old.place result)
        (reader_at spot.old table) (reader_at spot.new table) taker.old taker.new (Spec.tag_of spot.old.page byte) }
    ensures room { OnOk result (depth_of spot.new.extent ≤ spot.new.place) }
    ensures place { OnErr result (spot.new.place ≡ spot.old.place) }
{
    if byte >= 0x80 || byte % 0x40 < 5 {
        return Err(Stop::Refused(Reason::Token));
    }
    match element_of(spot.page, byte % 0x40) {
        None => Err(Stop::Refused(Reason::Tag)),
        Some(element) => hand_tag(spot, element, byte >= 0x40, 1, taker),
    }
}

// A text that ends with the byte 0.
fn text<T: Taker>(spot: &mut Spot, bytes: &[u8], taker: &mut T) -> Result<usize, Stop>
    requires room { HasRoom spot.old (length bytes.now + 1) }
    ensures gives { (table : List ℕ)
        → GivesPart (taking T.placed T.after T.refusal) T.left (stopped_at spot.old.place result)
        (reader_at spot.old table) (reader_at spot.new table) taker.old taker.new
        (Spec.text_in (until_zero bytes.now) bytes.now) }
    ensures room { OnOk result (depth_of spot.new.extent ≤ spot.new.place) }
    ensures place { OnErr result (spot.new.place ≡ spot.old.place) }
{
    let text = before_zero(bytes);
    if text.len() < bytes.len() {
        hand_text(spot, text, text.len() + 2, taker)
    } else {
        Ok(0)
    }
}

// The string of the table that begins at an index below its length.
pub(crate) fn string_at(table: &[u8], index: usize) -> &[u8]
    requires { index < length table.now }
    ensures { result.now ≡ table_string table.now index }
{
    let (_, from) = table.split_at(index);
    before_zero(from)
}

// A string of the table.
fn table_text<T: Taker>(
    spot: &mut Spot,
    table: &[u8],
    bytes: &[u8],
    taker: &mut T,
) -> Result<usize, Stop>
    requires room { HasRoom spot.old (length bytes.now + 1) }
    ensures gives { GivesPart (taking T.placed T.after T.refusal) T.left (stopped_at spot.old.place result)
        (reader_at spot.old table.now) (reader_at spot.new table.now) taker.old taker.new
        (Spec.integer_then 0 1 (integer_at bytes.now) bytes.now (Spec.table_text_in table.now)) }
    ensures room { OnOk result (depth_of spot.new.extent ≤ spot.new.place) }
    ensures place { OnErr result (spot.new.place ≡ spot.old.place) }
{
    match read_mb(bytes) {
        Mb::More => Ok(0),
        Mb::TooBig => Err(Stop::Refused(Reason::Integer)),
        Mb::Value { number, used } => {
            let index = number as usize;
            if index < table.len() {
                hand_text(spot, string_at(table, index), 1 + used, taker)
            } else {
                Err(Stop::Refused(Reason::Index))
            }
        }
    }
}

// Bytes behind their length.
fn opaque<T: Taker>(spot: &mut Spot, bytes: &[u8], taker: &mut T) -> Result<usize, Stop>
    requires room { HasRoom spot.old (length bytes.now + 1) }
    ensures gives { (table : List ℕ)
        → GivesPart (taking T.placed T.after T.refusal) T.left (stopped_at spot.old.place result)
        (reader_at spot.old table) (reader_at spot.new table) taker.old taker.new
        (Spec.integer_then 0 1 (integer_at bytes.now) bytes.now Spec.opaque_in) }
    ensures room { OnOk result (depth_of spot.new.extent ≤ spot.new.place) }
    ensures place { OnErr result (spot.new.place ≡ spot.old.place) }
{
    match read_mb(bytes) {
        Mb::More => Ok(0),
        Mb::TooBig => Err(Stop::Refused(Reason::Integer)),
        Mb::Value { number, used } => {
            let count = number as usize;
            let (_, from) = bytes.split_at(used);
            if count <= from.len() {
                hand_opaque(spot, &from[..count], 1 + used + count, taker)
            } else {
                Ok(0)
            }
        }
    }
}

/// Hands on the token at the front of bytes of the body, or takes the page switch there. It answers how many bytes that
/// has, or 0 where it isn't whole.
#[tactic(auto, unfolding(crate::specs::Fronts::front))]
pub(crate) fn part<T: Taker>(
    spot: &mut Spot,
    table: &[u8],
    bytes: &[u8],
    taker: &mut T,
) -> Result<usize, Stop>
    requires room { HasRoom spot.old (length bytes.now) }
    ensures gives { GivesPart (taking T.placed T.after T.refusal) T.left (stopped_at spot.old.place result)
        (reader_at spot.old table.now) (reader_at spot.new table.now) taker.old taker.new
        (front spot.old.page table.now bytes.now) }
    ensures room { OnOk result (depth_of spot.new.extent ≤ spot.new.place) }
    ensures place { OnErr result (spot.new.place ≡ spot.old.place) }
{
    match bytes {
        [] | [0x00] => Ok(0),
        [0x00, page, ..] if *page < 2 => {
            spot.page = *page;
            spot.place += 2;
            Ok(2)
        }
        [0x00, ..] => Err(Stop::Refused(Reason::Tag)),
        [0x01, ..] => hand_end(spot, 1, taker),
        [0x03, rest @ ..] => text(spot, rest, taker),
        [0x83, rest @ ..] => table_text(spot, table, rest, taker),
        [0xc3, rest @ ..] => opaque(spot, rest, taker),
        [byte, ..] => tag(spot, *byte, taker),
    }
}
