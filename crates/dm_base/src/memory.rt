// A source and a sink in memory, which tell all that they hold.
ghost use Rattle.std.specs.Prelude.{◌≡◌, ◌<◌, ◌≤◌, ◌+◌, ◌↔◌, ◌++◌, List, [], ℕ, Option, Some, length, take, drop};
ghost use Rattle.std.specs.Prelude.{Contains, IsErr, IsErrOf, IsOk, IsTrue, OnOk, OnErr, min};
ghost use Rattle.dm_base.specs.Outside.{TakeCounts, PutCounts, PutsSome, TakesSome};
ghost use Rattle.dm_base.specs.Memory.{SourceState, SinkState, SinkPuts, one_more};

use crate::bytes::Bytes;
use crate::list::List;
use crate::outside::{Failed, Fault, Sink, Source};
use std::alloc::Global;
use std::marker::Model;

/// A source that gives the bytes it was made of, a piece at a time.
#[derive(Drop)]
pub struct MemSource {
    bytes: Bytes,
    at: usize,
    piece: usize,
    fails: List<u64>,
    calls: u64,
    faults: u64,
}

impl Model for MemSource {
    ghost use Rattle.std.specs.Prelude.{◌<◌, ◌≤◌, length, drop};
    ghost use Rattle.dm_base.specs.Memory.{SourceState};

    ghost Value = { SourceState };

    ghost view = { λ s. record {
      left = drop s.at s.bytes;
      piece = s.piece;
      fails = s.fails;
      calls = s.calls;
      faults = s.faults;
    } };

    ghost invariant = { λ s. (s.at ≤ length s.bytes) × (0 < s.piece) };
}

// Whether a number is one of the list.
fn is_among(number: u64, list: &[u64]) -> bool
    ensures { IsTrue result ↔ Contains list.now number }
{
    list.contains(&number)
}

// Copies what fits of the first `most` bytes of `rest` into the front of `buf`, and says how many.
fn fill_front(buf: &mut [u8], rest: &[u8], most: usize) -> usize
    ensures count { result ≡ min most (min (length buf.old) (length rest.now)) }
    ensures front { take result buf.new ≡ take result rest.now }
{
    let count = most.min(buf.len().min(rest.len()));
    buf[..count].copy_from_slice(&rest[..count]);
    count
}

impl MemSource {
    /// Gives at most `piece` bytes a call. The calls whose numbers are in `fails`, counted from 1, fail.
    pub fn new(bytes: Bytes, piece: usize, fails: List<u64>) -> MemSource
        requires { 0 < piece }
        ensures { result ≡ record { left = bytes; piece = piece; fails = fails; calls = 0; faults = 0 } }
    {
        MemSource {
            bytes,
            at: 0,
            piece,
            fails,
            calls: 0,
            faults: 0,
        }
    }
}

impl Source for MemSource {
    ghost left = { λ s. Some s.left };

    ghost faults = { λ s. s.faults };

    fn take(&mut self, buf: &mut [u8]) -> Result<usize, Failed>
        requires { 0 < length buf.old }
        ensures bytes { TakesSome (Some self.old.left) (Some self.new.left) result buf.new }
        ensures count { TakeCounts self.old.faults self.new.faults result }
        ensures fails { IsErr result ↔ Contains self.old.fails (one_more self.old.calls) }
        ensures piece { OnOk result (length self.old.left ≤ length self.new.left + self.old.piece) }
        ensures calls { self.new.calls ≡ one_more self.old.calls }
        ensures rest { (self.new.fails ≡ self.old.fails) × (self.new.piece ≡ self.old.piece) }
    {
        self.calls = self.calls.saturating_add(1);
        if is_among(self.calls, self.fails.as_slice()) {
            self.faults = self.faults.saturating_add(1);
            return Err(Failed);
        }
        let count = fill_front(buf, &self.bytes.as_slice()[self.at..], self.piece);
        self.at += count;
        Ok(count)
    }
}

/// A sink that keeps what is put to it.
#[derive(Drop)]
pub struct MemSink {
    got: Bytes,
    fails: List<u64>,
    calls: u64,
    faults: u64,
}

impl Model for MemSink {
    ghost use Rattle.dm_base.specs.Memory.{SinkState};

    ghost Value = { SinkState };

    ghost view = { λ s. record { got = s.got; fails = s.fails; calls = s.calls; faults = s.faults } };
}

impl MemSink {
    /// The calls whose numbers are in `fails`, counted from 1, fail.
    pub fn new(alloc: Global, fails: List<u64>) -> MemSink
        ensures { result ≡ record { got = []; fails = fails; calls = 0; faults = 0 } }
    {
        MemSink {
            got: Bytes::new(alloc),
            fails,
            calls: 0,
            faults: 0,
        }
    }

    /// All that was put.
    pub fn bytes(&self) -> &[u8]
        ensures { result.now ≡ self.now.got }
    {
        self.got.as_slice()
    }
}

impl Sink for MemSink {
    ghost got = { λ s. Some s.got };

    ghost faults = { λ s. s.faults };

    fn put(&mut self, piece: &[u8]) -> Result<usize, Fault>
        requires { 0 < length piece.now }
        ensures bytes { PutsSome (Some self.old.got) (Some self.new.got) result piece.now }
        ensures count { PutCounts self.old.faults self.new.faults result }
        ensures fails { IsErrOf result Fault.Failed ↔ Contains self.old.fails (one_more self.old.calls) }
        ensures state { SinkPuts self.old self.new piece.now result }
    {
        let call = self.calls.saturating_add(1);
        if is_among(call, self.fails.as_slice()) {
            self.calls = call;
            self.faults = self.faults.saturating_add(1);
            return Err(Fault::Failed);
        }
        match self.got.extend(piece) {
            Ok(()) => {
                self.calls = call;
                Ok(piece.len())
            }
            Err(_) => Err(Fault::Memory),
        }
    }
}
