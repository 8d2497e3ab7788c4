// A client is called, and what it tells is compared.
ghost use Rattle.std.specs.Prelude.{◌<◌, length};

use crate::calls::is_answered;
use crate::rows::{Known, ROWS};
use crate::starts::client;
use dm_base::Memory;
use dm_session::Client;
use dm_tree::Stamp;
use std::alloc::Global;
use std::test::Fail;

fn number_sent(client: &Client) -> Option<u32> {
    match client.sent() {
        Some(message) => Some(message.header().msg),
        None => None,
    }
}

fn is_known(client: &Client, known: &Known) -> bool {
    client.last() == known.0
        && number_sent(client) == known.1
        && client.resp_uri().unwrap_or(&[]) == known.2
        && client.started().unwrap_or(&[]) == known.3
        && client.farewell().unwrap_or(&[]) == known.4
        && client.again().is_some() == known.1.is_some()
}

// The number of the first call behind which another thing is told.
fn wrong_call(client: &mut Client) -> Result<Option<usize>, Memory>
    requires { 0 < length client.old.machine.accounts }
{
    for (number, (call, known)) in ROWS.iter().enumerate() {
        if !is_answered(client, *call)? || !is_known(client, known) {
            return Ok(Some(number));
        }
    }
    Ok(None)
}

fn is_clock_set(client: &mut Client) -> bool {
    let stamp = Stamp {
        bytes: *b"20261128T140000Z",
    };
    client.set_clock(stamp);
    client.tree().clock().bytes == stamp.bytes
}

fn wrong_in(alloc: Global) -> Result<(Option<usize>, bool), Memory> {
    match client(alloc) {
        Some(mut client) => {
            let wrong = wrong_call(&mut client);
            let is_clock_set = is_clock_set(&mut client);
            drop(client);
            Ok((wrong?, is_clock_set))
        }
        None => Err(Memory),
    }
}

#[test]
fn each_call_is_told(rt: HostRuntime) -> Result<(), Fail> {
    assert_eq!(rt; wrong_in(rt.alloc())?, (None, true));
    Ok(())
}
