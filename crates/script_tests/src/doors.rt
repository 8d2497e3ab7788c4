// What hands out the connections of a script. It tells nothing to proofs.
ghost use Rattle.std.specs.Prelude.{◌≡◌, None, IfOk};
ghost use Rattle.dm_base.specs.Outside.{PutCounts};

use crate::conns::{Reply, ScriptConn};
use dm_base::{Bytes, Fault, List, Memory};
use dm_outside::{Dialer, Door};
use std::alloc::Global;
use std::collections::VecDeque;

// What the connections to come give, and what those that are over got; none for a call that failed.
#[derive(Drop)]
struct Desk {
    alloc: Global,
    replies: VecDeque<Option<Reply>>,
    got: List<Option<Bytes>>,
    // Whether memory was lacking for what a connection got.
    is_short: bool,
    faults: u64,
}

impl Desk {
    fn new(alloc: Global, replies: List<Option<Reply>>) -> Desk {
        Desk {
            alloc,
            replies: VecDeque::from_vec(replies.into_vec()),
            got: List::new(alloc),
            is_short: false,
            faults: 0,
        }
    }

    fn hand_out(&mut self) -> Result<ScriptConn, Fault>
        ensures fresh { IfOk result (λ c. (c.takes ≡ 0) × (c.puts ≡ 0)) }
        ensures count { PutCounts self.old.faults self.new.faults result }
    {
        if let Some(Some(reply)) = self.replies.pop_front() {
            return Ok(ScriptConn::new(self.alloc, reply));
        }
        self.faults = self.faults.saturating_add(1);
        Err(Fault::Failed)
    }

    fn note(&mut self, got: Option<Bytes>)
        ensures { self.new.faults ≡ self.old.faults }
    {
        if self.got.push(got).is_err() {
            self.is_short = true;
        }
    }

    fn into_got(self) -> Result<List<Option<Bytes>>, Memory> {
        if self.is_short {
            return Err(Memory);
        }
        Ok(self.got)
    }
}

/// Hands out connections to whoever dials.
#[derive(Drop)]
pub struct ScriptDialer {
    desk: Desk,
}

impl ScriptDialer {
    /// Hands out connections that give these replies, in order; none where a dial is to fail.
    pub fn new(alloc: Global, replies: List<Option<Reply>>) -> ScriptDialer {
        ScriptDialer {
            desk: Desk::new(alloc, replies),
        }
    }

    /// What the connections got, in order; none for a dial that failed.
    pub fn into_got(self) -> Result<List<Option<Bytes>>, Memory> {
        self.desk.into_got()
    }
}

impl Dialer for ScriptDialer {
    type Conn = ScriptConn;

    ghost told = { λ d. None };

    ghost faults = { λ d. d.desk.faults };

    fn dial(&mut self, _address: &[u8]) -> Result<ScriptConn, Fault> {
        let dialled = self.desk.hand_out();
        if dialled.is_err() {
            self.desk.note(None);
        }
        dialled
    }

    fn close(&mut self, conn: ScriptConn) {
        if conn.has_failed() {
            self.desk.faults = self.desk.faults.saturating_add(1);
        }
        self.desk.note(Some(conn.into_got()));
    }
}

/// Lets connections in.
#[derive(Drop)]
pub struct ScriptDoor {
    desk: Desk,
}

impl ScriptDoor {
    /// Lets connections in that give these replies, in order; none where an accept is to fail.
    pub fn new(alloc: Global, replies: List<Option<Reply>>) -> ScriptDoor {
        ScriptDoor {
            desk: Desk::new(alloc, replies),
        }
    }

    /// What the connections got, in order.
    pub fn into_got(self) -> Result<List<Option<Bytes>>, Memory> {
        self.desk.into_got()
    }
}

impl Door for ScriptDoor {
    type Conn = ScriptConn;

    ghost told = { λ d. None };

    ghost faults = { λ d. d.desk.faults };

    fn listen(&mut self, _address: &[u8]) -> Result<(), Fault> {
        Ok(())
    }

    fn accept(&mut self) -> Result<ScriptConn, Fault> {
        self.desk.hand_out()
    }

    fn close(&mut self, conn: ScriptConn) {
        self.desk.note(Some(conn.into_got()));
    }
}
