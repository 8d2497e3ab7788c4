// What makes connections, and its form in memory.
ghost use Rattle.std.specs.Prelude.{◌≡◌, ◌+◌, ℕ, Option, Some, option_map, option_copied, map, IfOk, OnErr};
ghost use Rattle.dm_base.specs.Outside.{PutCounts};
ghost use Rattle.dm_outside.specs.Told.{coming};
ghost use Rattle.dm_outside.specs.Streams.{AreUntouched, scripts_of, stream_of};
ghost use Rattle.dm_outside.specs.Calls.{Calls, calls_of, Dials, call_made, DialerCloses, closed_conn, HasOut};
ghost use Rattle.dm_outside.specs.Calls.{CloseCounts};
ghost use Rattle.dm_outside.specs.Calls.{closed_in, got_by};
ghost use Rattle.dm_outside.specs.Logs.{dial_of};

use crate::arrivals::Arrivals;
use crate::streams::MemStream;
use crate::told::Handed;
use dm_base::{Bytes, Fault, List, Memory, Stream};
use std::alloc::Global;
use std::collections::VecDeque;
use std::marker::Model;

/// Something that makes connections. Each is handed out by `dial` and owned by the caller until `close` takes it back.
pub trait Dialer {
    type Conn: Stream + Drop;

    /// What the connections to come hold and where they fail, those that are out, and the dials that are over; where it
    /// tells them.
    ghost told: { Self → Option Calls };

    /// How often it has failed, itself or in a connection that was given back. The count never falls.
    ghost faults: { Self → ℕ };

    /// Makes a connection to an address, whose counts are 0. After `Memory` it is no dial at all.
    fn dial(&mut self, address: &[u8]) -> Result<Self::Conn, Fault>
        ensures told { Dials (told self.old) (told self.new) address.now Self.Conn.Source.left Self.Conn.Sink.got result }
        ensures fresh { IfOk result (λ c. (Self.Conn.Source.faults c ≡ 0) × (Self.Conn.Sink.faults c ≡ 0)) }
        ensures count { PutCounts (faults self.old) (faults self.new) result };

    /// Takes a connection back. Where several are out they are noted in the order in which they were handed out. The
    /// count rises exactly where the connection's own is above 0.
    fn close(&mut self, conn: Self::Conn)
        requires out { HasOut (told self.old) }
        ensures told { DialerCloses (told self.old) (told self.new) (closed_conn Self.Conn.Source.left Self.Conn.Sink.got
            Self.Conn.Source.faults Self.Conn.Sink.faults conn) }
        ensures count { CloseCounts (faults self.old) (faults self.new)
            (Self.Conn.Source.faults conn + Self.Conn.Sink.faults conn) };
}

// A dial that is over: its address where it failed, else its connection as it was handed out and as it was given back.
#[derive(Drop)]
enum Over {
    Failed(Bytes),
    Talked(Handed, MemStream),
}

// What the connection that was given back n-th, from 0, has got.
fn nth_got(log: &[Over], n: usize) -> Option<&[u8]>
    ensures { option_map Some (option_copied result) ≡ got_by (closed_in (map dial_of log.now)) n }
{
    let mut left = n;
    for dial in log {
        if let Over::Talked(_, conn) = dial {
            if left == 0 {
                return Some(conn.got());
            }
            left -= 1;
        }
    }
    None
}

/// A dialer that hands out the streams it was made of, in order, and keeps those that are given back.
#[derive(Drop)]
pub struct MemDialer {
    alloc: Global,
    to_come: Arrivals,
    out: VecDeque<Handed>,
    // It has room for those that are out, so that `close` takes no memory.
    log: Vec<Over>,
    faults: u64,
}

impl Model for MemDialer {
    ghost use Rattle.std.specs.Prelude.{◌≤◌, ◌+◌, map, vec_len, vec_capacity};
    ghost use Rattle.std.specs.VecDeque.{deque_len};
    ghost use Rattle.dm_outside.specs.Memory.{DialerState};

    ghost Value = { DialerState };

    ghost use Rattle.dm_outside.specs.Logs.{dial_of};

    ghost view = { λ d. record {
      calls = record { to_come = d.to_come; out = d.out.items; log = map dial_of d.log.items };
      faults = d.faults;
    } };

    ghost invariant = { λ d. vec_len d.log + deque_len d.out ≤ vec_capacity d.log };
}

impl MemDialer {
    /// Hands out these streams, none of which was used before. A dial in whose place none stands fails, and so does each
    /// after the last.
    pub fn new(alloc: Global, conns: List<Option<MemStream>>) -> MemDialer
        requires { AreUntouched conns }
        ensures { result ≡ record { calls = calls_of (scripts_of conns); faults = 0 } }
    {
        MemDialer {
            alloc,
            to_come: Arrivals::new(conns),
            out: VecDeque::new(alloc),
            log: Vec::new(alloc),
            faults: 0,
        }
    }

    /// What the connection that was given back n-th, from 0, has got. None comes exactly where fewer were given back.
    pub fn got(&self, n: usize) -> Option<&[u8]>
        ensures { option_map Some (option_copied result) ≡ got_by (closed_in self.now.calls.log) n }
    {
        nth_got(&self.log, n)
    }

    // A dial, but for the count of faults: the next stream, where there is one.
    fn call(&mut self, address: &[u8]) -> Result<Option<MemStream>, Memory>
        ensures conn { IfOk result (λ conn. conn ≡ option_map stream_of (coming self.old.calls.to_come)) }
        ensures ok { IfOk result (λ conn. self.new ≡ record self.old {
          calls = call_made self.old.calls address.now (coming self.old.calls.to_come);
        }) }
        ensures err { OnErr result (self.new ≡ self.old) }
    {
        let address = Bytes::of_slice(self.alloc, address)?;
        self.log.reserve(self.out.len() + 1)?;
        match self.to_come.next_held(self.alloc)? {
            Some(held) => self.out.push_back(Handed { address, held })?,
            None => self.log.push_reserved(Over::Failed(address)),
        }
        Ok(self.to_come.take_next())
    }
}

impl Dialer for MemDialer {
    type Conn = MemStream;

    ghost told = { λ d. Some d.calls };

    ghost faults = { λ d. d.faults };

    fn dial(&mut self, address: &[u8]) -> Result<MemStream, Fault>
        ensures told { Dials (Some self.old.calls) (Some self.new.calls) address.now (λ c. Some c.left) (λ c. Some c.got) result }
        ensures conn { IfOk result (λ c. option_map stream_of (coming self.old.calls.to_come) ≡ Some c) }
        ensures count { PutCounts self.old.faults self.new.faults result }
    {
        match self.call(address) {
            Ok(Some(conn)) => Ok(conn),
            Ok(None) => {
                self.faults = self.faults.saturating_add(1);
                Err(Fault::Failed)
            }
            Err(Memory) => Err(Fault::Memory),
        }
    }

    fn close(&mut self, conn: MemStream) {
        if conn.has_failed() {
            self.faults = self.faults.saturating_add(1);
        }
        if let Some(handed) = self.out.pop_front() {
            self.log.push_reserved(Over::Talked(handed, conn));
        }
    }
}
