// The commands of a message that passes, one after the other.
ghost use Rattle.std.specs.Prelude.{◌≡◌, OnOk, OnErr};
ghost use Rattle.dm_auth.specs.declared.accounts.Account.{Account as AnAccount};
ghost use Rattle.dm_atomic.specs.Run.{run_all};
ghost use Rattle.dm_atomic.specs.Engine.{state_of, running, IsSoundEngine, Gives};
ghost use Rattle.dm_atomic.specs.Made.{IsInFront};
ghost use Rattle.dm_ends.specs.Commands.{origin_of};
ghost use Rattle.dm_machine.specs.Messages as Spec;
ghost use Rattle.dm_session.specs.Frames.{KeepsBut};
ghost use Rattle.dm_session.specs.Stays.{body_covers};

use crate::bodies::is_quiet;
use dm_atomic::{Engine, Origin};
use dm_base::{List, Memory};
use syncml_types::{Command, Message};

#[tactic(auto, using(crate::proofs::Frames::keeps_self))]
fn run_all(
    engine: &mut Engine,
    caller: &[u8],
    origin: Origin,
    body: &mut [Command],
    out: &mut List<Command>,
) -> Result<(), Memory>
    requires sound { IsSoundEngine engine.old }
    ensures gives { OnOk result (Gives (run_all (running engine.old caller.now) origin (state_of engine.old) body.old)
        (state_of engine.new) out.old out.new) }
    ensures keeps { KeepsBut (body_covers body.old) engine.old engine.new }
{
    for place in 0..body.len() {
        engine.run(caller, origin, &mut body[place], out)?;
    }
    Ok(())
}

/// Executes a message's commands in document order, and breaks what it leaves unfinished where it is quiet. What they
/// come to is put behind `out`. Their texts and values are moved out of them. After `Memory` the engine may be anywhere
/// on the way: go back to a mark.
#[tactic(auto, using(crate::proofs::Frames::keeps_then_none))]
pub(crate) fn execute(
    engine: &mut Engine,
    caller: &[u8],
    message: Message,
    out: &mut List<Command>,
) -> Result<(), Memory>
    requires sound { IsSoundEngine engine.old }
    ensures gives { OnOk result (Gives (Spec.quiet_after message
        (run_all (running engine.old caller.now) (origin_of message) (state_of engine.old) message.body))
        (state_of engine.new) out.old out.new) }
    ensures keeps { KeepsBut (body_covers message.body) engine.old engine.new }
{
    let header = message.header();
    let origin = Origin {
        msg: header.msg,
        quiet: header.no_resp,
    };
    let quiet = is_quiet(&message);
    let mut body = message.into_body().into_vec();
    run_all(engine, caller, origin, body.as_mut_slice(), out)?;
    if quiet {
        engine.still(out)?;
    }
    Ok(())
}
