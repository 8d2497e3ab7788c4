// The connections to come of a dialer or a door in memory, in the order in which they are handed out.
ghost use Rattle.std.specs.Prelude.{◌≡◌, drop, option_map, IfOk};
ghost use Rattle.dm_outside.specs.Told.{coming};
ghost use Rattle.dm_outside.specs.Streams.{AreUntouched, scripts_of, stream_of, bytes_held};

use crate::streams::MemStream;
use dm_base::{Bytes, List, Memory};
use std::alloc::Global;
use std::collections::VecDeque;
use std::marker::Model;

/// Streams that weren't used before; none where a call fails.
#[derive(Drop)]
pub(crate) struct Arrivals {
    streams: VecDeque<Option<MemStream>>,
}

impl Model for Arrivals {
    ghost use Rattle.std.specs.Prelude.{List, Option};
    ghost use Rattle.dm_outside.specs.Streams.{Script, AreUntouched, scripts_of};

    ghost Value = { List (Option Script) };

    ghost view = { λ a. scripts_of a.streams.items };

    ghost invariant = { λ a. AreUntouched a.streams.items };
}

impl Arrivals {
    pub(crate) fn new(conns: List<Option<MemStream>>) -> Arrivals
        requires { AreUntouched conns }
        ensures { result ≡ scripts_of conns }
    {
        Arrivals {
            streams: VecDeque::from_vec(conns.into_vec()),
        }
    }

    /// A copy of what the next stream holds, where there is one.
    pub(crate) fn next_held(&self, alloc: Global) -> Result<Option<Bytes>, Memory>
        ensures { IfOk result (λ held. held ≡ bytes_held (coming self.now)) }
    {
        match self.streams.front() {
            Some(Some(stream)) => Ok(Some(Bytes::of_slice(alloc, stream.left())?)),
            _ => Ok(None),
        }
    }

    /// Takes the next stream, where there is one, and what stands in its place where there is none.
    pub(crate) fn take_next(&mut self) -> Option<MemStream>
        ensures stream { result ≡ option_map stream_of (coming self.old) }
        ensures rest { self.new ≡ drop 1 self.old }
    {
        match self.streams.pop_front() {
            Some(next) => next,
            None => None,
        }
    }
}
