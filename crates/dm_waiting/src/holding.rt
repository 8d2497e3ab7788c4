// The commands of the job that an entry holds in a message.
ghost use Rattle.std.specs.Prelude.{◌≡◌, ◌==◌, ◌&&◌, ◌||◌, ◌≤◌, ◌<◌, ◌+◌, ◌++◌, true, not, length, take, OnOk};
ghost use Rattle.std.specs.Prelude.{OnErr, IfSome};
ghost use Rattle.dm_waiting.specs.Held.{row, ends, held, IsSmall};

use crate::loads::Load;
use dm_base::{List, Memory};
use dm_service::{Carried, Sent};

// Whether the Status of the command at a place counts: in a part that more parts follow, those of the first and the
// last don't.
fn tells_code(part: bool, at: u64, count: u64) -> bool
    requires { at < count }
    ensures { result ≡ not (part && (at == 0 || at + 1 == count)) }
{
    !(part && (at == 0 || at + 1 == count))
}

// Its commands in a row.
fn push_row(
    msg: u32,
    command: u32,
    carried: Carried,
    part: bool,
    out: &mut List<Sent>,
) -> Result<(), Memory>
    requires command { command ≤ 70000 }
    requires small { IsSmall carried }
    ensures ok { OnOk result (out.new ≡ out.old ++ row part true msg command carried.first carried.count) }
    ensures err { OnErr result (take (length out.old) out.new ≡ out.old) }
{
    for at in 0..carried.count {
        out.push(Sent {
            msg,
            command: command + at as u32,
            number: carried.first + at,
            counts: tells_code(part, at, carried.count),
        })?;
    }
    Ok(())
}

// A later part: the command itself, or the container and its last member.
#[tactic(auto, using(crate::proofs::Held::front_longer))]
fn push_ends(
    msg: u32,
    command: u32,
    carried: Carried,
    part: bool,
    out: &mut List<Sent>,
) -> Result<(), Memory>
    requires command { command ≤ 70000 }
    requires small { IsSmall carried }
    ensures ok { OnOk result (out.new ≡ out.old ++ ends part msg command carried) }
    ensures err { OnErr result (take (length out.old) out.new ≡ out.old) }
{
    let counts = !part;
    out.push(Sent {
        msg,
        command,
        number: carried.first,
        counts,
    })?;
    if carried.count > 1 {
        out.push(Sent {
            msg,
            command: command + 1,
            number: carried.first + carried.count - 1,
            counts,
        })?;
    }
    Ok(())
}

/// Puts behind `out` the commands of the job that an entry holds in a message of this MsgID, from a CmdID on: its whole
/// rest, or a part that more parts follow. After `Memory` some of them may stand there.
pub(crate) fn push_held(
    msg: u32,
    command: u32,
    load: Load,
    part: bool,
    out: &mut List<Sent>,
) -> Result<(), Memory>
    requires command { command ≤ 70000 }
    requires small { IfSome load.carries IsSmall }
    ensures ok { OnOk result (out.new ≡ out.old ++ held part msg command load.begun load.carries) }
    ensures err { OnErr result (take (length out.old) out.new ≡ out.old) }
{
    match load.carries {
        None => Ok(()),
        Some(carried) => {
            if load.begun {
                push_ends(msg, command, carried, part, out)
            } else {
                push_row(msg, command, carried, part, out)
            }
        }
    }
}
