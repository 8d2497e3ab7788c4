// A small core in memory.
ghost use Rattle.std.specs.Prelude.{◌≡◌, ◌++◌, [], None, option_map, IfOk, OnOk, OnErr};
ghost use Rattle.dm_core.specs.Machines.{CoreMachine, TellsReply};
ghost use Rattle.http_tests.specs.Echoes.{EchoState, echo_next, echo_reply};

use dm_base::{Bytes, Memory, Nonce};
use dm_core::{Core, ReplyKind};
use std::alloc::Global;
use std::marker::Model;

/// Sends each message of two bytes or more back behind its nonce, is over by one byte, and takes no message without
/// bytes.
#[derive(Drop)]
pub struct Echo {
    alloc: Global,
    taken: Bytes,
    last: Option<Bytes>,
}

impl Model for Echo {
    ghost use Rattle.http_tests.specs.Echoes.{EchoState};

    ghost Value = { EchoState };

    ghost view = { λ e. record { taken = e.taken; last = e.last } };
}

impl Echo {
    /// One to which nothing was delivered.
    pub fn new(alloc: Global) -> Echo
        ensures { result ≡ record { taken = []; last = None } }
    {
        Echo {
            alloc,
            taken: Bytes::new(alloc),
            last: None,
        }
    }

    /// All that was delivered: each nonce, and its message behind it.
    pub fn taken(&self) -> &[u8]
        ensures { result.now ≡ self.now.taken }
    {
        self.taken.as_slice()
    }
}

impl Core for Echo {
    ghost machine = { record { reply = λ s bytes nonce. echo_reply bytes nonce; next = echo_next } };

    ghost sent = { λ s. s.last };

    fn take(&mut self, bytes: &[u8], nonce: Nonce) -> Result<ReplyKind, Memory>
        ensures reply { IfOk result (λ kind. TellsReply kind self.new.last (echo_reply bytes.now nonce.bytes)) }
        ensures ok { OnOk result (self.new ≡ echo_next self.old bytes.now nonce.bytes) }
        ensures err { OnErr result (self.new ≡ self.old) }
    {
        let mut text = Bytes::of_slice(self.alloc, &nonce.bytes)?;
        text.extend(bytes)?;
        self.taken.extend(text.as_slice())?;
        match bytes {
            [] => Ok(ReplyKind::Bad),
            [_] => Ok(ReplyKind::Over),
            _ => {
                self.last = Some(text);
                Ok(ReplyKind::Message)
            }
        }
    }

    fn again(&self) -> Option<&[u8]> {
        match &self.last {
            None => None,
            Some(last) => Some(last.as_slice()),
        }
    }
}
