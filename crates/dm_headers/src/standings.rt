// How the two ends of a session stand to each other.
ghost use Rattle.std.specs.Prelude.{◌≡◌};
ghost use Rattle.dm_headers.specs.Standings.{room_told as room_counted, room_after as room_then, standing_after};
ghost use Rattle.dm_headers.specs.Standings.{is_second as second};

use crate::statuses::{is_denied, passes};
use dm_base::{LEAST_ROOM, MESSAGE_LIMIT};
use syncml_types::{Header, Message};

/// How the two ends of a session stand to each other.
#[derive(Clone, Copy, Debug, PartialEq, Eq)]
pub struct Standing {
    /// The MsgID of the last message that was accepted; 0 before one was.
    pub last: u32,
    /// The MsgID of the last message that was sent; 0 before one was.
    pub own: u32,
    /// Whether the other end's package is at its end, and none of this end has ended since.
    pub heard: bool,
    /// The longest message that the other end takes, in bytes: `LEAST_ROOM` to `MESSAGE_LIMIT`.
    pub room: u64,
    /// Whether a credential of the other end was missing or wrong.
    pub they_failed: bool,
    /// Whether the other end told so of this end's.
    pub we_failed: bool,
    /// Whether a message of the other end has passed: its credential was accepted, or none is wanted.
    pub accepted: bool,
    /// Whether the other end told that it accepted this end's credential.
    pub welcomed: bool,
}

fn room_told(told: u64) -> u64
    ensures { result ≡ room_counted told }
{
    told.clamp(LEAST_ROOM as u64, MESSAGE_LIMIT as u64)
}

fn room_after(room: u64, header: &Header) -> u64
    ensures { result ≡ room_then room header.now }
{
    let Some(meta) = &header.meta else {
        return room;
    };
    match meta.inner.max_msg {
        Some(told) => room_told(told),
        None => room,
    }
}

impl Standing {
    /// How the ends stand after a message of this header code, that holds a Status of this code for the last header.
    pub(crate) fn after(&self, message: &Message, code: u32, status: u32) -> Standing
        ensures { result ≡ standing_after self.now message.now code status }
    {
        let header = message.header();
        Standing {
            last: header.msg,
            own: self.own,
            heard: self.heard || message.last(),
            room: room_after(self.room, header),
            they_failed: self.they_failed || is_denied(code),
            we_failed: self.we_failed || is_denied(status),
            accepted: self.accepted || passes(code),
            welcomed: self.welcomed || status == 212,
        }
    }

    /// Whether this message tells a second failure of a side.
    pub(crate) fn is_second(&self, code: u32, status: u32) -> bool
        ensures { result ≡ second self.now code status }
    {
        (self.they_failed && is_denied(code)) || (self.we_failed && is_denied(status))
    }
}
