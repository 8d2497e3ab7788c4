// A connection that a script tells. It tells nothing to proofs.
ghost use Rattle.std.specs.Prelude.{◌≡◌, ◌<◌, ◌+◌, None, refl, length};
ghost use Rattle.std.specs.Prelude.{nat_lt};
ghost use Rattle.dm_base.specs.Outside.{TakeCounts, PutCounts, PutsSome, TakesSome};

use dm_base::{Bytes, Failed, Fault, Sink, Source, Stream};
use std::alloc::Global;

/// What a connection gives, and whether a read fails behind it.
#[derive(Drop)]
pub struct Reply {
    pub bytes: Bytes,
    pub is_cut: bool,
}

/// Gives its bytes and then ends, or fails there.
#[derive(Drop)]
pub struct ScriptConn {
    reply: Reply,
    at: usize,
    got: Bytes,
    takes: u64,
    puts: u64,
}

impl ScriptConn {
    /// A connection that was just made.
    pub fn new(alloc: Global, reply: Reply) -> ScriptConn
        ensures { (result.takes ≡ 0) × (result.puts ≡ 0) }
    {
        ScriptConn {
            reply,
            at: 0,
            got: Bytes::new(alloc),
            takes: 0,
            puts: 0,
        }
    }

    /// Whether a take or a put has failed.
    pub fn has_failed(&self) -> bool
        ensures { result ≡ nat_lt 0 (self.now.takes + self.now.puts) }
    {
        self.takes > 0 || self.puts > 0
    }

    /// What it has got.
    pub fn into_got(self) -> Bytes {
        self.got
    }
}

impl Source for ScriptConn {
    ghost left = { λ s. None };

    ghost faults = { λ s. s.takes };

    ghost as_sink = { λ s. (None, s.puts) };

    fn take(&mut self, buf: &mut [u8]) -> Result<usize, Failed> {
        let rest = self
            .reply
            .bytes
            .as_slice()
            .get(self.at..)
            .unwrap_or_default();
        if rest.is_empty() && self.reply.is_cut {
            self.takes = self.takes.saturating_add(1);
            return Err(Failed);
        }
        let count = buf.len().min(rest.len());
        buf[..count].copy_from_slice(&rest[..count]);
        self.at = self.at.saturating_add(count);
        Ok(count)
    }
}

impl Sink for ScriptConn {
    ghost got = { λ s. None };

    ghost faults = { λ s. s.puts };

    ghost as_source = { λ s. (None, s.takes) };

    fn put(&mut self, piece: &[u8]) -> Result<usize, Fault> {
        match self.got.extend(piece) {
            Ok(()) => Ok(piece.len()),
            Err(_) => Err(Fault::Memory),
        }
    }
}

impl Stream for ScriptConn {
    ghost sink_seen = { λ s. refl };

    ghost source_seen = { λ s. refl };
}
