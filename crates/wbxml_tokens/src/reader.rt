// A document read in pieces.
ghost use Rattle.std.specs.Prelude.{◌≡◌, ◌<◌, ◌≤◌, ◌+◌, ◌-◌, ◌++◌, [], true, None as Nothing, Err as Bad, ℕ, List};
ghost use Rattle.std.specs.Prelude.{length, take, drop, IfOk, IfErr, OnOk, OnErr};
ghost use Rattle.wbxml_tokens.specs.declared.reason.FeedError.TheVariants as errors;
ghost use Rattle.wbxml_tokens.specs.Fronts.{more};
ghost use Rattle.wbxml_tokens.specs.Reading.{most_bytes, found, taken_by, begun_by, first_reader, refused_at_end};
ghost use Rattle.wbxml_tokens.specs.Reading.{reads};
ghost use Rattle.wbxml_tokens.specs.Taking.{taking, Feeds};
ghost use Rattle.wbxml_tokens.specs.Parts.{reader_of, IsReached, IsBeyond, EndsPiece};

use crate::extent::Extent;
use crate::part::before_zero;
use crate::reason::{FeedError, Reason, Refusal, Stop};
use crate::spot::Spot;
use crate::state::all_parts;
use crate::token::Taker;
use dm_base::{Bytes, MESSAGE_LIMIT, Memory};
use std::alloc::Global;
use std::marker::Model;

const MOST_BYTES: u64 = MESSAGE_LIMIT as u64;

// What a reader keeps.
#[derive(Drop)]
struct State {
    alloc: Global,
    held: Bytes,
    table: Bytes,
    spot: Spot,
}

impl State {
    // Reads a piece behind no byte that is held.
    fn read_fresh<T: Taker>(&mut self, piece: &[u8], taker: &mut T) -> Result<(), FeedError>
        requires reached { IsReached (reader_of self.old) }
        requires room { taken_by (reader_of self.old) + length piece.now ≤ most_bytes }
        requires none { self.old.held ≡ [] }
        ensures feeds { Feeds (taking T.placed T.after T.refusal) T.left result taker.old taker.new
            (reads (begun_by (reader_of self.old)) piece.now) }
        ensures ok { OnOk result (reader_of self.new ≡ (reads (begun_by (reader_of self.old)) piece.now).reader) }
        ensures reached { OnOk result (IsReached (reader_of self.new)) }
        ensures held { OnErr result (take (length self.old.held) self.new.held ≡ self.old.held) }
        ensures table { OnErr result (self.old.spot.is_in_body ≡ true → self.new.table ≡ self.old.table) }
    {
        match all_parts(self.alloc, &mut self.spot, &mut self.table, piece, taker) {
            Ok(used) => {
                let (_, rest) = piece.split_at(used);
                match self.held.extend(rest) {
                    Ok(()) => Ok(()),
                    Err(Memory) => Err(FeedError::Memory),
                }
            }
            Err(error) => Err(error),
        }
    }

    // Whether the body's text that is held isn't ended by this piece.
    fn text_goes_on(&self, piece: &[u8]) -> bool
        requires { IsReached (reader_of self.now) }
        ensures { result ≡ true → found (reader_of self.now) (self.now.held ++ piece.now) ≡ more }
    {
        if !self.spot.is_in_body {
            return false;
        }
        match self.held.as_slice() {
            [first, ..] if *first == 0x03 => before_zero(piece).len() == piece.len(),
            _ => false,
        }
    }

    // Reads a piece that doesn't end the text that is held.
    fn read_text(&mut self, piece: &[u8]) -> Result<(), FeedError>
        requires reached { IsReached (reader_of self.old) }
        requires room { taken_by (reader_of self.old) + length piece.now ≤ most_bytes }
        requires some { 0 < length self.old.held }
        requires text { found (reader_of self.old) (self.old.held ++ piece.now) ≡ more }
        ensures ok { OnOk result (begun_by (reader_of self.new) ≡ reads (begun_by (reader_of self.old)) piece.now) }
        ensures reached { OnOk result (IsReached (reader_of self.new)) }
        ensures err { IfErr result (λ e. (e ≡ errors.Memory) × (self.new ≡ self.old)) }
    {
        self.held.extend(piece)?;
        Ok(())
    }

    // Reads a piece behind bytes that are held.
    fn read_held<T: Taker>(&mut self, piece: &[u8], taker: &mut T) -> Result<(), FeedError>
        requires reached { IsReached (reader_of self.old) }
        requires room { taken_by (reader_of self.old) + length piece.now ≤ most_bytes }
        requires some { 0 < length self.old.held }
        ensures feeds { Feeds (taking T.placed T.after T.refusal) T.left result taker.old taker.new
            (reads (begun_by (reader_of self.old)) piece.now) }
        ensures ok { OnOk result (reader_of self.new ≡ (reads (begun_by (reader_of self.old)) piece.now).reader) }
        ensures reached { OnOk result (IsReached (reader_of self.new)) }
        ensures held { OnErr result (take (length self.old.held) self.new.held ≡ self.old.held) }
        ensures table { OnErr result (self.old.spot.is_in_body ≡ true → self.new.table ≡ self.old.table) }
    {
        match self.held.extend(piece) {
            Ok(()) => match all_parts(
                self.alloc,
                &mut self.spot,
                &mut self.table,
                self.held.as_slice(),
                taker,
            ) {
                Ok(used) => {
                    self.held.drop_front(used);
                    Ok(())
                }
                Err(error) => Err(error),
            },
            Err(Memory) => Err(FeedError::Memory),
        }
    }
}

impl State {
    // Reads a piece that keeps the limit of a document.
    fn read_within<T: Taker>(&mut self, piece: &[u8], taker: &mut T) -> Result<(), FeedError>
        requires reached { IsReached (reader_of self.old) }
        requires room { taken_by (reader_of self.old) + length piece.now ≤ most_bytes }
        ensures feeds { Feeds (taking T.placed T.after T.refusal) T.left result taker.old taker.new
            (reads (begun_by (reader_of self.old)) piece.now) }
        ensures ok { OnOk result (reader_of self.new ≡ (reads (begun_by (reader_of self.old)) piece.now).reader) }
        ensures reached { OnOk result (IsReached (reader_of self.new)) }
        ensures held { OnErr result (take (length self.old.held) self.new.held ≡ self.old.held) }
        ensures table { OnErr result (self.old.spot.is_in_body ≡ true → self.new.table ≡ self.old.table) }
    {
        if self.held.is_empty() {
            self.read_fresh(piece, taker)
        } else if self.text_goes_on(piece) {
            self.read_text(piece)
        } else {
            self.read_held(piece, taker)
        }
    }

    // The refusal of a byte that comes behind as many bytes as a document may have.
    fn refusal_beyond(&self) -> FeedError
        requires reached { IsReached (reader_of self.now) }
        requires full { taken_by (reader_of self.now) ≡ most_bytes }
        ensures { IsBeyond result (reader_of self.now) }
    {
        if self.spot.extent.is_whole() {
            Stop::Refused(Reason::Trailing).at(self.spot.place)
        } else {
            Stop::Refused(Reason::Toolong).at(MOST_BYTES)
        }
    }
}

/// A reader of a document in pieces. It hands each token, with its place, to a taker as soon as the token is whole; a
/// text or opaque that lies in one piece is handed on as it lies there. It keeps the string table and the bytes of what
/// a piece cut.
#[derive(Drop)]
pub struct Reader {
    state: State,
}

impl Model for Reader {
    ghost use Rattle.wbxml_tokens.specs.Reading.{Reader as Known};
    ghost use Rattle.wbxml_tokens.specs.Parts.{reader_of, IsReached};

    ghost Value = { Known };

    ghost view = { λ r. reader_of r.state };

    ghost invariant = { λ r. IsReached (reader_of r.state) };
}

impl Reader {
    /// A reader that has read nothing.
    pub fn new(alloc: Global) -> Reader
        ensures { result ≡ first_reader }
    {
        Reader {
            state: State {
                alloc,
                held: Bytes::new(alloc),
                table: Bytes::new(alloc),
                spot: Spot {
                    place: 0,
                    is_in_body: false,
                    page: 0,
                    extent: Extent::Before,
                },
            },
        }
    }

    // How many bytes more the document may have.
    fn room(&self) -> usize
        ensures room { result ≡ most_bytes - taken_by self.now }
        ensures within { taken_by self.now ≤ most_bytes }
    {
        MOST_BYTES as usize - (self.state.spot.place as usize + self.state.held.len())
    }

    // Reads a piece that keeps the limit of a document. After an error the reader is as before.
    fn feed_within<T: Taker>(&mut self, piece: &[u8], taker: &mut T) -> Result<(), FeedError>
        requires room { taken_by self.old + length piece.now ≤ most_bytes }
        ensures feeds { Feeds (taking T.placed T.after T.refusal) T.left result taker.old taker.new
            (reads (begun_by self.old) piece.now) }
        ensures ok { OnOk result (self.new ≡ (reads (begun_by self.old) piece.now).reader) }
        ensures reached { IsReached self.new }
        ensures err { OnErr result (self.new ≡ self.old) }
    {
        let spot = self.state.spot;
        let held = self.state.held.len();
        match self.state.read_within(piece, taker) {
            Ok(()) => Ok(()),
            Err(error) => {
                self.state.spot = spot;
                self.state.held.cut_to(held);
                if !spot.is_in_body {
                    self.state.table.cut_to(0);
                }
                Err(error)
            }
        }
    }

    // The bytes of a piece behind as many as a document may have.
    fn end_piece(&self, beyond: &[u8]) -> Result<(), FeedError>
        requires { 0 < length beyond.now → taken_by self.now ≡ most_bytes }
        ensures { EndsPiece result self.now beyond.now }
    {
        if beyond.is_empty() {
            return Ok(());
        }
        Err(self.state.refusal_beyond())
    }

    /// Reads the next piece of the document, and hands on each token that ends in it. The work is linear in the piece.
    /// `Refused` comes with the first refusal, whether the taker's or the reader's own: the taker has the tokens before
    /// it. After `Memory` the reader is as before the piece. A refusal isn't kept here: what feeds a reader keeps it,
    /// and feeds no more, as `Tokens` does.
    pub fn feed<T: Taker>(&mut self, piece: &[u8], taker: &mut T) -> Result<(), FeedError>
        ensures feeds { Feeds (taking T.placed T.after T.refusal) T.left result taker.old taker.new
            (reads (begun_by self.old) piece.now) }
        ensures ok { OnOk result (self.new ≡ (reads (begun_by self.old) piece.now).reader) }
        ensures memory { result ≡ Bad errors.Memory → self.new ≡ self.old }
    {
        let (within, beyond) = piece.split_at(piece.len().min(self.room()));
        match self.feed_within(within, taker) {
            Ok(()) => self.end_piece(beyond),
            Err(error) => Err(error),
        }
    }

    /// Why the bytes so far are no whole document, where nothing follows them.
    pub fn refusal_at_end(&self) -> Option<Refusal>
        ensures { result ≡ refused_at_end Nothing self.now }
    {
        if self.state.spot.extent.is_whole() {
            return None;
        }
        Some(Refusal {
            at: self.state.spot.place + self.state.held.len() as u64,
            reason: Reason::Truncated,
        })
    }
}
