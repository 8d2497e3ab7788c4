// A stream in memory, which tells all that it holds.
ghost use Rattle.std.specs.Prelude.{◌≡◌, ◌<◌, ◌+◌, ◌↔◌, Some, refl, length, take};
ghost use Rattle.std.specs.Prelude.{Contains, IsTrue, IsErr, IsErrOf, min, nat_lt};
ghost use Rattle.dm_base.specs.Outside.{TakeCounts, PutCounts, PutsSome, TakesSome};
ghost use Rattle.dm_base.specs.Memory.{one_more};
ghost use Rattle.dm_outside.specs.Streams.{stream_of, StreamTakes, StreamPuts};

use dm_base::{Bytes, Failed, Fault, List, Sink, Source, Stream};
use std::alloc::Global;
use std::marker::Model;

// Copies what fits of the first `most` bytes of `rest` into the front of `buf`, and says how many.
fn fill_front(buf: &mut [u8], rest: &[u8], most: usize) -> usize
    ensures count { result ≡ min most (min (length buf.old) (length rest.now)) }
    ensures front { take result buf.new ≡ take result rest.now }
{
    let count = most.min(buf.len().min(rest.len()));
    buf[..count].copy_from_slice(&rest[..count]);
    count
}

/// A stream that gives the bytes it was made of and keeps what it gets, a piece at a time.
#[derive(Drop)]
pub struct MemStream {
    reply: Bytes,
    at: usize,
    got: Bytes,
    piece: usize,
    fails: List<u64>,
    calls: u64,
    takes: u64,
    puts: u64,
}

impl Model for MemStream {
    ghost use Rattle.std.specs.Prelude.{◌<◌, ◌≤◌, length, drop};
    ghost use Rattle.dm_outside.specs.Streams.{StreamState};

    ghost Value = { StreamState };

    ghost view = { λ s. record {
      left = drop s.at s.reply;
      got = s.got;
      piece = s.piece;
      fails = s.fails;
      calls = s.calls;
      takes = s.takes;
      puts = s.puts;
    } };

    ghost invariant = { λ s. (s.at ≤ length s.reply) × (0 < s.piece) };
}

impl MemStream {
    /// Gives the bytes of `reply`. Each take and each put moves at most `piece` bytes. The calls whose numbers are in
    /// `fails` fail: takes and puts are counted together, from 1.
    pub fn new(alloc: Global, reply: Bytes, piece: usize, fails: List<u64>) -> MemStream
        requires { 0 < piece }
        ensures { result ≡ stream_of (record { held = reply; piece = piece; fails = fails }) }
    {
        MemStream {
            reply,
            at: 0,
            got: Bytes::new(alloc),
            piece,
            fails,
            calls: 0,
            takes: 0,
            puts: 0,
        }
    }

    /// What it has got.
    pub fn got(&self) -> &[u8]
        ensures { result.now ≡ self.now.got }
    {
        self.got.as_slice()
    }

    // What is left of the bytes that it gives.
    pub(crate) fn left(&self) -> &[u8]
        ensures { result.now ≡ self.now.left }
    {
        &self.reply.as_slice()[self.at..]
    }

    // Whether a take or a put has failed.
    pub(crate) fn has_failed(&self) -> bool
        ensures { result ≡ nat_lt 0 (self.now.takes + self.now.puts) }
    {
        self.takes > 0 || self.puts > 0
    }

    // Whether the call that comes is one of those that fail.
    fn fails_now(&self) -> bool
        ensures { IsTrue result ↔ Contains self.now.fails (one_more self.now.calls) }
    {
        self.fails
            .as_slice()
            .contains(&self.calls.saturating_add(1))
    }
}

impl Source for MemStream {
    ghost left = { λ s. Some s.left };

    ghost faults = { λ s. s.takes };

    ghost as_sink = { λ s. (Some s.got, s.puts) };

    fn take(&mut self, buf: &mut [u8]) -> Result<usize, Failed>
        requires { 0 < length buf.old }
        ensures bytes { TakesSome (Some self.old.left) (Some self.new.left) result buf.new }
        ensures count { TakeCounts self.old.takes self.new.takes result }
        ensures fails { IsErr result ↔ Contains self.old.fails (one_more self.old.calls) }
        ensures state { StreamTakes self.old self.new (length buf.old) result }
    {
        let fails = self.fails_now();
        self.calls = self.calls.saturating_add(1);
        if fails {
            self.takes = self.takes.saturating_add(1);
            return Err(Failed);
        }
        let count = fill_front(buf, &self.reply.as_slice()[self.at..], self.piece);
        self.at += count;
        Ok(count)
    }
}

impl Sink for MemStream {
    ghost got = { λ s. Some s.got };

    ghost faults = { λ s. s.puts };

    ghost as_source = { λ s. (Some s.left, s.takes) };

    fn put(&mut self, piece: &[u8]) -> Result<usize, Fault>
        requires { 0 < length piece.now }
        ensures bytes { PutsSome (Some self.old.got) (Some self.new.got) result piece.now }
        ensures count { PutCounts self.old.puts self.new.puts result }
        ensures fails { IsErrOf result Fault.Failed ↔ Contains self.old.fails (one_more self.old.calls) }
        ensures state { StreamPuts self.old self.new piece.now result }
    {
        if self.fails_now() {
            self.calls = self.calls.saturating_add(1);
            self.puts = self.puts.saturating_add(1);
            return Err(Fault::Failed);
        }
        let count = self.piece.min(piece.len());
        match self.got.extend(&piece[..count]) {
            Ok(()) => {
                self.calls = self.calls.saturating_add(1);
                Ok(count)
            }
            Err(_) => Err(Fault::Memory),
        }
    }
}

impl Stream for MemStream {
    ghost sink_seen = { λ s. refl };

    ghost source_seen = { λ s. refl };
}
