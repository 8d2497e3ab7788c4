// What connections come to, and its form in memory.
ghost use Rattle.std.specs.Prelude.{◌≡◌, ◌+◌, ℕ, Option, Some, option_map, option_copied, map, IfOk, OnErr, OnOk};
ghost use Rattle.dm_base.specs.Outside.{PutCounts};
ghost use Rattle.dm_outside.specs.Told.{coming};
ghost use Rattle.dm_outside.specs.Streams.{AreUntouched, scripts_of, stream_of};
ghost use Rattle.dm_outside.specs.Calls.{closed_conn, got_by};
ghost use Rattle.dm_outside.specs.Doors.{Doorway, doorway_of, Listens, Accepts, accept_made, DoorCloses, HasVisitor};
ghost use Rattle.dm_outside.specs.Doors.{visitors_in};
ghost use Rattle.dm_outside.specs.Doors.{told_to_listen};
ghost use Rattle.dm_outside.specs.Logs.{visit_of};

use crate::arrivals::Arrivals;
use crate::streams::MemStream;
use dm_base::{Bytes, Fault, List, Memory, Stream};
use std::alloc::Global;
use std::collections::VecDeque;
use std::marker::Model;

/// Something that connections come to. Each is handed out by `accept` and owned by the caller until `close` takes it
/// back.
pub trait Door {
    type Conn: Stream + Drop;

    /// Whether it can listen, where it was to, what the connections to come hold and where they fail, those that are
    /// out, and the calls of `accept` that are over; where it tells them.
    ghost told: { Self → Option Doorway };

    /// How often it has failed. The count never falls, and no connection's faults raise it.
    ghost faults: { Self → ℕ };

    /// Listens at an address. After `Memory` it wasn't asked at all.
    fn listen(&mut self, address: &[u8]) -> Result<(), Fault>
        ensures told { Listens (told self.old) (told self.new) address.now result }
        ensures count { PutCounts (faults self.old) (faults self.new) result };

    /// Waits for a connection, whose counts are 0. After `Memory` it wasn't asked at all.
    fn accept(&mut self) -> Result<Self::Conn, Fault>
        ensures told { Accepts (told self.old) (told self.new) Self.Conn.Source.left Self.Conn.Sink.got result }
        ensures fresh { IfOk result (λ c. (Self.Conn.Source.faults c ≡ 0) × (Self.Conn.Sink.faults c ≡ 0)) }
        ensures count { PutCounts (faults self.old) (faults self.new) result };

    /// Takes a connection back. Where several are out they are noted in the order in which they were let in.
    fn close(&mut self, conn: Self::Conn)
        requires out { HasVisitor (told self.old) }
        ensures told { DoorCloses (told self.old) (told self.new) (closed_conn Self.Conn.Source.left Self.Conn.Sink.got
            Self.Conn.Source.faults Self.Conn.Sink.faults conn) }
        ensures count { faults self.new ≡ faults self.old };
}

// A call of `accept` that is over: it failed, or its connection was given back, with all that it held before.
#[derive(Drop)]
enum Past {
    Missed,
    Visited(Bytes, MemStream),
}

// What the connection that was given back n-th, from 0, has got.
fn nth_got(log: &[Past], n: usize) -> Option<&[u8]>
    ensures { option_map Some (option_copied result) ≡ got_by (visitors_in (map visit_of log.now)) n }
{
    let mut left = n;
    for visit in log {
        if let Past::Visited(_, conn) = visit {
            if left == 0 {
                return Some(conn.got());
            }
            left -= 1;
        }
    }
    None
}

/// A door that lets in the streams it was made of, in order, and keeps those that are given back.
#[derive(Drop)]
pub struct MemDoor {
    alloc: Global,
    listens: bool,
    listened: List<Bytes>,
    to_come: Arrivals,
    out: VecDeque<Bytes>,
    // It has room for those that are out, so that `close` takes no memory.
    log: Vec<Past>,
    faults: u64,
}

impl Model for MemDoor {
    ghost use Rattle.std.specs.Prelude.{◌≤◌, ◌+◌, map, vec_len, vec_capacity};
    ghost use Rattle.std.specs.VecDeque.{deque_len};
    ghost use Rattle.dm_outside.specs.Memory.{DoorState};

    ghost Value = { DoorState };

    ghost use Rattle.dm_outside.specs.Logs.{visit_of};

    ghost view = { λ d. record {
      doorway = record {
        listens = d.listens;
        listened = d.listened;
        to_come = d.to_come;
        out = d.out.items;
        log = map visit_of d.log.items;
      };
      faults = d.faults;
    } };

    ghost invariant = { λ d. vec_len d.log + deque_len d.out ≤ vec_capacity d.log };
}

impl MemDoor {
    /// Whether `listen` succeeds, and the streams to let in, none of which was used before. An `accept` in whose place
    /// none stands fails, and so does each after the last.
    pub fn new(alloc: Global, listens: bool, conns: List<Option<MemStream>>) -> MemDoor
        requires { AreUntouched conns }
        ensures { result ≡ record { doorway = doorway_of listens (scripts_of conns); faults = 0 } }
    {
        MemDoor {
            alloc,
            listens,
            listened: List::new(alloc),
            to_come: Arrivals::new(conns),
            out: VecDeque::new(alloc),
            log: Vec::new(alloc),
            faults: 0,
        }
    }

    /// What the connection that was given back n-th, from 0, has got. None comes exactly where fewer were given back.
    pub fn got(&self, n: usize) -> Option<&[u8]>
        ensures { option_map Some (option_copied result) ≡ got_by (visitors_in self.now.doorway.log) n }
    {
        nth_got(&self.log, n)
    }

    // Notes the address of a call of `listen`.
    fn note(&mut self, address: &[u8]) -> Result<(), Memory>
        ensures ok { OnOk result (self.new ≡ record self.old { doorway = told_to_listen self.old.doorway address.now }) }
        ensures err { OnErr result (self.new ≡ self.old) }
    {
        let address = Bytes::of_slice(self.alloc, address)?;
        self.listened.push(address)
    }

    // A call of `accept`, but for the count of faults: the next stream, where there is one.
    fn let_in(&mut self) -> Result<Option<MemStream>, Memory>
        ensures conn { IfOk result (λ conn. conn ≡ option_map stream_of (coming self.old.doorway.to_come)) }
        ensures ok { IfOk result (λ conn. self.new ≡ record self.old {
          doorway = accept_made self.old.doorway (coming self.old.doorway.to_come);
        }) }
        ensures err { OnErr result (self.new ≡ self.old) }
    {
        self.log.reserve(self.out.len() + 1)?;
        match self.to_come.next_held(self.alloc)? {
            Some(held) => self.out.push_back(held)?,
            None => self.log.push_reserved(Past::Missed),
        }
        Ok(self.to_come.take_next())
    }
}

impl Door for MemDoor {
    type Conn = MemStream;

    ghost told = { λ d. Some d.doorway };

    ghost faults = { λ d. d.faults };

    fn listen(&mut self, address: &[u8]) -> Result<(), Fault> {
        match self.note(address) {
            Ok(()) if self.listens => Ok(()),
            Ok(()) => {
                self.faults = self.faults.saturating_add(1);
                Err(Fault::Failed)
            }
            Err(Memory) => Err(Fault::Memory),
        }
    }

    fn accept(&mut self) -> Result<MemStream, Fault>
        ensures told { Accepts (Some self.old.doorway) (Some self.new.doorway) (λ c. Some c.left) (λ c. Some c.got) result }
        ensures conn { IfOk result (λ c. option_map stream_of (coming self.old.doorway.to_come) ≡ Some c) }
        ensures count { PutCounts self.old.faults self.new.faults result }
    {
        match self.let_in() {
            Ok(Some(conn)) => Ok(conn),
            Ok(None) => {
                self.faults = self.faults.saturating_add(1);
                Err(Fault::Failed)
            }
            Err(Memory) => Err(Fault::Memory),
        }
    }

    fn close(&mut self, conn: MemStream) {
        if let Some(held) = self.out.pop_front() {
            self.log.push_reserved(Past::Visited(held, conn));
        }
    }
}
