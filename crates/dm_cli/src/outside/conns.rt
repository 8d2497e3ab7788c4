// A connection over TCP, with counts of its faults and a time for the whole of it.
ghost use Rattle.std.specs.Prelude.{◌≡◌, ◌+◌, None, refl, nat_lt};

use super::deadlines::Deadline;
use dm_base::{Failed, Fault, Sink, Source, Stream};
use std::io::{Read, Write};
use std::net::{OpenStream, Shutdown};
use std::time::Clock;

// The time of a connection ends its last reads sooner than this; but a loop has to have an end without a clock too.
const MOST_READS: u32 = 1_000_000;

/// A connection. A read or a write that waits past the connection's time is a fault, so a peer that says nothing, or
/// one byte now and then, holds it no longer.
#[derive(Drop)]
pub struct TcpConn<'a, C: Drop, R: Clock> {
    inner: C,
    deadline: Deadline<'a, R>,
    takes: u64,
    puts: u64,
}

impl<'a, C: Read + OpenStream + Drop, R: Clock> TcpConn<'a, C, R> {
    /// A connection up to this moment, with no fault so far.
    pub fn new(inner: C, deadline: Deadline<'a, R>) -> TcpConn<'a, C, R>
        ensures takes { result.takes ≡ 0 }
        ensures puts { result.puts ≡ 0 }
    {
        // What a reply waits for in one piece isn't kept back; a connection that can't do that is a slower one.
        let _ = inner.set_nodelay(true);
        TcpConn {
            inner,
            deadline,
            takes: 0,
            puts: 0,
        }
    }

    /// Whether a take or a put has failed.
    pub fn has_failed(&self) -> bool
        ensures { result ≡ nat_lt 0 (self.now.takes + self.now.puts) }
    {
        self.takes > 0 || self.puts > 0
    }

    /// Ends what is sent, and reads what the peer still sends, within the connection's time: a connection that is let
    /// go with bytes unread is reset, and the peer may lose a reply that is on its way.
    pub fn hang_up(&mut self) {
        if self.inner.shutdown(Shutdown::Write).is_err() {
            return;
        }
        let mut rest = [0u8; 4096];
        for _ in 0..MOST_READS {
            if !self.bound_read() {
                return;
            }
            match self.inner.read(&mut rest) {
                Ok(count) if count > 0 => {}
                _ => return,
            }
        }
    }

    // Bounds the wait of the next read; whether it may be made.
    fn bound_read(&self) -> bool {
        match self.deadline.left() {
            Some(left) => self.inner.set_read_timeout(Some(left)).is_ok(),
            None => false,
        }
    }

    fn bound_write(&self) -> bool {
        match self.deadline.left() {
            Some(left) => self.inner.set_write_timeout(Some(left)).is_ok(),
            None => false,
        }
    }
}

impl<C: Read + Write + OpenStream + Drop, R: Clock> Source for TcpConn<'_, C, R> {
    ghost left = { λ s. None };

    ghost faults = { λ s. s.takes };

    ghost as_sink = { λ s. (None, s.puts) };

    fn take(&mut self, buf: &mut [u8]) -> Result<usize, Failed> {
        if self.bound_read()
            && let Ok(count) = self.inner.read(buf)
        {
            return Ok(count);
        }
        self.takes = self.takes.saturating_add(1);
        Err(Failed)
    }
}

impl<C: Read + Write + OpenStream + Drop, R: Clock> Sink for TcpConn<'_, C, R> {
    ghost got = { λ s. None };

    ghost faults = { λ s. s.puts };

    ghost as_source = { λ s. (None, s.takes) };

    fn put(&mut self, piece: &[u8]) -> Result<usize, Fault> {
        if self.bound_write() {
            match self.inner.write(piece) {
                Ok(count) if count > 0 => return Ok(count),
                _ => {}
            }
        }
        self.puts = self.puts.saturating_add(1);
        Err(Fault::Failed)
    }
}

impl<C: Read + Write + OpenStream + Drop, R: Clock> Stream for TcpConn<'_, C, R> {
    ghost sink_seen = { λ s. refl };

    ghost source_seen = { λ s. refl };
}
