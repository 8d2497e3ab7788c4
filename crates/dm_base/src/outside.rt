// What is outside: sources and sinks of bytes, each with a count of its faults.
ghost use Rattle.std.specs.Prelude.{◌≡◌, ◌<◌, List, ℕ, Option, None, length};
ghost use Rattle.dm_base.specs.Outside.{TakeCounts, PutCounts, PutsSome, TakesSome};

use thiserror::Error;

/// A fault of what is outside.
#[derive(Clone, Copy, Debug, PartialEq, Eq, Error)]
#[error("a fault of what is outside")]
pub struct Failed;

/// A fault of what is outside, or want of memory.
#[derive(Clone, Copy, Debug, PartialEq, Eq, Error)]
pub enum Fault {
    #[error("a fault of what is outside")]
    Failed,
    #[error("out of memory")]
    Memory,
}

/// Why no more bytes were taken.
#[derive(Clone, Copy, Debug, PartialEq, Eq, Error)]
pub enum TakeError {
    #[error("the source failed")]
    Read,
    #[error("more bytes than are taken")]
    TooLong,
    #[error("out of memory")]
    Memory,
}

/// Something that gives bytes up to an end.
pub trait Source {
    /// The bytes that are left, where it tells them.
    ghost left: { Self → Option (List ℕ) };

    /// How often it has failed. The count never falls.
    ghost faults: { Self → ℕ };

    /// What it is besides a source: what it has got as a sink, and how often it failed as one.
    ghost as_sink: { Self → Option (List ℕ) × ℕ } = { λ _. (None, 0) };

    /// Takes the next bytes into the front of the buffer, and says how many. It takes none at the end alone.
    fn take(&mut self, buf: &mut [u8]) -> Result<usize, Failed>
        requires { 0 < length buf.old }
        ensures bytes { TakesSome (left self.old) (left self.new) result buf.new }
        ensures count { TakeCounts (faults self.old) (faults self.new) result }
        ensures sink { as_sink self.new ≡ as_sink self.old };
}

/// Something that bytes are put to.
pub trait Sink {
    /// The bytes so far, where it tells them.
    ghost got: { Self → Option (List ℕ) };

    /// How often it has failed. The count never falls.
    ghost faults: { Self → ℕ };

    /// What it is besides a sink: what it has left as a source, and how often it failed as one.
    ghost as_source: { Self → Option (List ℕ) × ℕ } = { λ _. (None, 0) };

    /// Puts the front of a piece, at least one byte, and says how much. After an error nothing of it was put.
    fn put(&mut self, piece: &[u8]) -> Result<usize, Fault>
        requires { 0 < length piece.now }
        ensures bytes { PutsSome (got self.old) (got self.new) result piece.now }
        ensures count { PutCounts (faults self.old) (faults self.new) result }
        ensures source { as_source self.new ≡ as_source self.old };
}

/// A source and a sink in one, which leave each other as they are.
pub trait Stream: Source + Sink {
    ghost sink_seen: { (s : Self) → Self.Source.as_sink s ≡ (Self.Sink.got s, Self.Sink.faults s) };

    ghost source_seen: { (s : Self)
        → Self.Sink.as_source s ≡ (Self.Source.left s, Self.Source.faults s) };
}
