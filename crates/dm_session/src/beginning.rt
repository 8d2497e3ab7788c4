// How a session begins.
ghost use Rattle.std.specs.Prelude.{◌≡◌, ◌<◌, ◌^◌, Some, [], length, IfOk};
ghost use Rattle.std.specs.List.{AllByRecursion};
ghost use Rattle.dm_auth.specs.declared.accounts.Account.{Account as AnAccount};
ghost use Rattle.dm_atomic.specs.Engine.{state_of};
ghost use Rattle.dm_machine.specs.Messages as Spec;
ghost use Rattle.dm_machine.specs.Opening.{first_package};
ghost use Rattle.dm_machine.specs.Sending.{sends};
ghost use Rattle.dm_machine.specs.Ready.{IsDevice, IsReadyAccount, IsReadyLimits, AreReadyResults};
ghost use Rattle.dm_session.specs.Inside.{machine_of, IsSpelled};

use crate::headers::header_from;
use crate::opening::opening;
use crate::rest::{Rest, Session};
use crate::sending::{send, session_after};
use dm_atomic::Engine;
use dm_base::Memory;
use dm_headers::Standing;
use dm_machine::{Initiator, Progress};
use dm_pack::Queue;

// Before a message of either end: the first package is the client's, and ends with its first Final.
const FIRST: Standing = Standing {
    last: 0,
    own: 0,
    heard: true,
    room: 16384,
    they_failed: false,
    we_failed: false,
    accepted: false,
    welcomed: false,
};

/// The queue and the session with its first message, over an engine in which nothing is unfinished.
pub(crate) fn open(
    engine: &Engine,
    rest: &Rest,
    account: usize,
    kind: Initiator,
    number: u32,
) -> Result<(Queue, Session), Memory>
    requires limits { IsReadyLimits rest.now.limits }
    requires device { IsDevice (state_of engine.now).tree }
    requires accounts { AllByRecursion IsReadyAccount rest.now.accounts }
    requires account { account < length rest.now.accounts }
    requires results { AreReadyResults rest.now.results }
    ensures state { IfOk result (λ opened. machine_of engine.now opened.0 (record rest.now { session = Some opened.1 })
        ≡ sends (machine_of engine.now (first_package (machine_of engine.now [] rest.now) kind) rest.now)
        (Spec.first_progress account kind number (first_package (machine_of engine.now [] rest.now) kind))
        (Spec.account_at (machine_of engine.now [] rest.now) account)) }
    ensures spelled { IfOk result (λ opened. IsSpelled opened.1.sent) }
{
    let first = opening(rest.alloc, engine.tree(), kind, &rest.results)?;
    let progress = Progress {
        number,
        account,
        kind,
        standing: FIRST,
        opening_at: 0,
        opening_left: first.len(),
    };
    let header = header_from(
        rest.alloc,
        rest.limits,
        engine.tree(),
        &rest.place,
        &progress,
        &rest.accounts.as_slice()[account],
    )?;
    let mut queue = Queue::new(rest.alloc);
    let filled = send(&mut queue, None, first, header, FIRST.room, FIRST.heard)?;
    Ok((queue, session_after(&progress, filled)))
}
