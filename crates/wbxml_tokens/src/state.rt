// The parts of a document, read one after the other.
ghost use Rattle.std.specs.Prelude.{◌≡◌, ◌<◌, ◌≤◌, ◌+◌, ◌-◌, [], true, false, ℕ, List, length, drop, IfOk, OnOk, OnErr};
ghost use Rattle.wbxml_tokens.specs.Reading.{is_whole};
ghost use Rattle.wbxml_tokens.specs.Fronts.{prologue_at};
ghost use Rattle.wbxml_tokens.specs.Taking.{taking, stopped_at, GivesFirst, GivesAll, GivesNoToken};
ghost use Rattle.wbxml_tokens.specs.Parts.{reader_at, HasRoom};

use crate::part::part;
use crate::prologue::prologue;
use crate::reason::{FeedError, Reason, Stop};
use crate::spot::Spot;
use crate::token::Taker;
use dm_base::Bytes;
use std::alloc::Global;

// The part at the front of bytes of the body, of which some are left.
fn next_part<T: Taker>(
    spot: &mut Spot,
    table: &[u8],
    bytes: &[u8],
    taker: &mut T,
) -> Result<usize, Stop>
    requires room { HasRoom spot.old (length bytes.now) }
    requires body { spot.old.is_in_body ≡ true }
    requires some { 0 < length bytes.now }
    ensures gives { GivesFirst (taking T.placed T.after T.refusal) T.left (stopped_at spot.old.place result)
        (reader_at spot.old table.now) (reader_at spot.new table.now) taker.old taker.new bytes.now }
    ensures room { IfOk result (λ size. HasRoom spot.new (length bytes.now - size)) }
    ensures place { OnErr result (spot.new.place ≡ spot.old.place) }
    ensures body { IfOk result (λ size. spot.new.is_in_body ≡ true) }
{
    if spot.extent.is_whole() {
        return Err(Stop::Refused(Reason::Trailing));
    }
    part(spot, table, bytes, taker)
}

// The parts of the body at the front of bytes; it answers how many bytes they have.
fn parts<T: Taker>(
    spot: &mut Spot,
    table: &[u8],
    bytes: &[u8],
    taker: &mut T,
) -> Result<usize, FeedError>
    requires room { HasRoom spot.old (length bytes.now) }
    requires body { spot.old.is_in_body ≡ true }
    ensures gives { GivesAll (taking T.placed T.after T.refusal) T.left result
        (reader_at spot.old table.now) (reader_at spot.new table.now) taker.old taker.new bytes.now }
    ensures room { IfOk result (λ used. HasRoom spot.new (length bytes.now - used)) }
    ensures body { OnOk result (spot.new.is_in_body ≡ true) }
{
    let mut at = 0;
    while at < bytes.len() {
        let (_, rest) = bytes.split_at(at);
        match next_part(spot, table, rest, taker) {
            Ok(0) => return Ok(at),
            Ok(size) => at += size,
            Err(stop) => return Err(stop.at(spot.place)),
        }
    }
    Ok(at)
}

// The prologue at the front of bytes, whose string table is kept; it answers how many bytes the prologue has, or 0
// where it isn't whole.
fn enter(
    alloc: Global,
    spot: &mut Spot,
    table: &mut Bytes,
    bytes: &[u8],
) -> Result<usize, FeedError>
    requires room { HasRoom spot.old (length bytes.now) }
    ensures gives { GivesNoToken result (reader_at spot.old table.old) (reader_at spot.new table.new)
        (prologue_at bytes.now) }
    ensures body { IfOk result (λ size. 0 < size → spot.new.is_in_body ≡ true) }
    ensures same { OnOk result (spot.new.is_in_body ≡ false → (spot.new ≡ spot.old) × (table.new ≡ table.old)) }
    ensures room { IfOk result (λ size. HasRoom spot.new (length bytes.now - size)) }
{
    match prologue(bytes) {
        Ok(None) => Ok(0),
        Ok(Some(head)) => {
            *table = Bytes::of_slice(alloc, head.table)?;
            spot.is_in_body = true;
            spot.place += head.size as u64;
            Ok(head.size)
        }
        Err(refusal) => Err(Stop::Refused(refusal.reason).at(spot.place + refusal.at)),
    }
}

// The parts of a document from its first byte on; it answers how many bytes they have.
fn begin<T: Taker>(
    alloc: Global,
    spot: &mut Spot,
    table: &mut Bytes,
    bytes: &[u8],
    taker: &mut T,
) -> Result<usize, FeedError>
    requires room { HasRoom spot.old (length bytes.now) }
    requires before { spot.old.is_in_body ≡ false }
    requires not_whole { is_whole spot.old.extent ≡ false }
    ensures gives { GivesAll (taking T.placed T.after T.refusal) T.left result
        (reader_at spot.old table.old) (reader_at spot.new table.new) taker.old taker.new bytes.now }
    ensures room { IfOk result (λ used. HasRoom spot.new (length bytes.now - used)) }
    ensures same { OnOk result (spot.new.is_in_body ≡ false → (spot.new ≡ spot.old) × (table.new ≡ table.old)) }
{
    match enter(alloc, spot, table, bytes) {
        Ok(0) => Ok(0),
        Ok(size) => {
            let (_, rest) = bytes.split_at(size);
            match parts(spot, table.as_slice(), rest, taker) {
                Ok(used) => Ok(size + used),
                Err(error) => Err(error),
            }
        }
        Err(error) => Err(error),
    }
}

// All whole parts at the front of bytes, where nothing is held; it answers how many bytes they have.
pub(crate) fn all_parts<T: Taker>(
    alloc: Global,
    spot: &mut Spot,
    table: &mut Bytes,
    bytes: &[u8],
    taker: &mut T,
) -> Result<usize, FeedError>
    requires room { HasRoom spot.old (length bytes.now) }
    requires before { spot.old.is_in_body ≡ false → is_whole spot.old.extent ≡ false }
    ensures gives { GivesAll (taking T.placed T.after T.refusal) T.left result
        (reader_at spot.old table.old) (reader_at spot.new table.new) taker.old taker.new bytes.now }
    ensures room { IfOk result (λ used. HasRoom spot.new (length bytes.now - used)) }
    ensures table { spot.old.is_in_body ≡ true → table.new ≡ table.old }
    ensures same { OnOk result (spot.new.is_in_body ≡ false → (spot.new ≡ spot.old) × (table.new ≡ table.old)) }
{
    if spot.is_in_body {
        parts(spot, table.as_slice(), bytes, taker)
    } else {
        begin(alloc, spot, table, bytes, taker)
    }
}
