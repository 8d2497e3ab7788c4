// The client that is called.
ghost use Rattle.std.specs.Prelude.{◌<◌, length, IfSome};
ghost use Rattle.session_tests.specs.Starts.{MayBegin};

use crate::rows::START;
use dm_session::Client;
use dm_start::{Start, StartReader};
use std::alloc::Global;

#[tactic(auto, using(crate::proofs::Beginning::may_begin))]
fn start(alloc: Global) -> Option<Start>
    ensures { IfSome result MayBegin }
{
    let mut reader = StartReader::new(alloc);
    for line in START.split(|b| *b == b'\n') {
        match reader.line(line) {
            Ok(true) => return Some(reader.finish()),
            Ok(false) => {}
            Err(_) => return None,
        }
    }
    None
}

/// None where memory runs out.
pub(crate) fn client(alloc: Global) -> Option<Client>
    ensures { IfSome result (λ client. 0 < length client.machine.accounts) }
{
    let start = start(alloc)?;
    Client::new(alloc, start.accounts, start.tree, start.limits).ok()
}
