// Bytes that a source puts where they stay until they are given up: none is copied on the way.
ghost use Rattle.std.specs.Prelude.{◌≡◌, ◌<◌, ◌≤◌, ◌+◌, ◌++◌, [], length, take, drop, OnOk};
ghost use Rattle.dm_base.specs.Lines.{no_pending, PutsPending};
ghost use Rattle.dm_base.specs.Outside.{ReadCounts, TakeCounts, TakesSome};

use crate::bytes::Memory;
use crate::outside::{Failed, Source, TakeError};
use std::alloc::Global;
use std::marker::Model;

/// What was taken and not yet given up, in order, and the line that was given up last.
#[derive(Drop)]
pub(crate) struct PendingBytes {
    // The bytes before `given` are given up, and those from `end` on are room for the next piece.
    held: Vec<u8>,
    given: usize,
    end: usize,
    // Where the line stands in those that are given up.
    from: usize,
    to: usize,
}

impl Model for PendingBytes {
    ghost use Rattle.std.specs.Prelude.{slice_range, vec_len, ◌≤◌, ◌-◌};
    ghost use Rattle.dm_base.specs.Lines.{PendingState};

    ghost Value = { PendingState };

    ghost view = { λ p. record {
      line = slice_range p.held.items p.from p.to;
      bytes = slice_range p.held.items p.given p.end;
      given_up = p.given;
      room = vec_len p.held - p.end;
    } };

    ghost invariant = { λ p. (p.from ≤ p.to) × (p.to ≤ p.given) × (p.given ≤ p.end) × (p.end ≤ vec_len p.held) };
}

// Takes bytes of a source into this part of the room.
fn take_into<S: Source>(
    room: &mut [u8],
    at: usize,
    count: usize,
    src: &mut S,
) -> Result<usize, Failed>
    requires some { 0 < count }
    requires within { at + count ≤ length room.old }
    ensures front { take at room.new ≡ take at room.old }
    ensures length { length room.new ≡ length room.old }
    ensures bytes { TakesSome (S.left src.old) (S.left src.new) result (take count (drop at room.new)) }
    ensures count { TakeCounts (S.faults src.old) (S.faults src.new) result }
    ensures sink { S.as_sink src.new ≡ S.as_sink src.old }
{
    let (_, behind) = room.split_at_mut(at);
    let (part, _) = behind.split_at_mut(count);
    src.take(part)
}

impl PendingBytes {
    pub(crate) fn new(alloc: Global) -> PendingBytes
        ensures { result ≡ no_pending }
    {
        PendingBytes {
            held: Vec::new(alloc),
            given: 0,
            end: 0,
            from: 0,
            to: 0,
        }
    }

    pub(crate) fn len(&self) -> usize
        ensures { result ≡ length self.now.bytes }
    {
        self.end - self.given
    }

    pub(crate) fn as_slice(&self) -> &[u8]
        ensures { result.now ≡ self.now.bytes }
    {
        &self.held.as_slice()[self.given..self.end]
    }

    /// The line that was given up last, until more bytes come.
    pub(crate) fn line(&self) -> &[u8]
        ensures { result.now ≡ self.now.line }
    {
        &self.held.as_slice()[self.from..self.to]
    }

    // Moves the bytes to the front, where others were given up before them.
    fn close_gap(&mut self)
        ensures bytes { self.new.bytes ≡ self.old.bytes }
        ensures line { self.new.line ≡ [] }
        ensures freed { self.new.given_up ≡ 0 }
    {
        (self.from, self.to) = (0, 0);
        if self.given == 0 {
            return;
        }
        self.held
            .as_mut_slice()
            .copy_within(self.given..self.end, 0);
        self.end -= self.given;
        self.given = 0;
    }

    // Room for so many bytes behind the others.
    fn make_room(&mut self, count: usize) -> Result<(), Memory>
        ensures bytes { self.new.bytes ≡ self.old.bytes }
        ensures line { self.new.line ≡ self.old.line }
        ensures freed { self.new.given_up ≡ self.old.given_up }
        ensures room { OnOk result (count ≤ self.new.room) }
    {
        if self.held.len() - self.end >= count {
            return Ok(());
        }
        match self.end.checked_add(count) {
            Some(room) => {
                self.held.resize(room, 0)?;
                Ok(())
            }
            None => Err(Memory),
        }
    }

    /// Takes at most so many bytes of a source behind the others, and says how many; none at the end alone. Those that
    /// were given up take no room from then on. After an error the same are pending as before.
    pub(crate) fn fill<S: Source>(&mut self, src: &mut S, count: usize) -> Result<usize, TakeError>
        requires { 0 < count }
        ensures bytes { PutsPending self.old.bytes self.new.bytes (S.left src.old) (S.left src.new) count result }
        ensures line { self.new.line ≡ [] }
        ensures freed { self.new.given_up ≡ 0 }
        ensures count { ReadCounts (S.faults src.old) (S.faults src.new) result }
        ensures sink { S.as_sink src.new ≡ S.as_sink src.old }
    {
        self.close_gap();
        if self.make_room(count).is_err() {
            return Err(TakeError::Memory);
        }
        match take_into(self.held.as_mut_slice(), self.end, count, src) {
            Ok(taken) => {
                self.end += taken;
                Ok(taken)
            }
            Err(Failed) => Err(TakeError::Read),
        }
    }

    /// Gives up the first `count` bytes, which are the line then, and the line feed behind them. It moves none.
    pub(crate) fn give_line(&mut self, count: usize)
        requires { count < length self.old.bytes }
        ensures line { self.new.line ≡ take count self.old.bytes }
        ensures bytes { self.new.bytes ≡ drop (count + 1) self.old.bytes }
    {
        self.from = self.given;
        self.to = self.given + count;
        self.given += count + 1;
    }
}
