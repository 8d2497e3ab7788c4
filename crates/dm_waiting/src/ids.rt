// The CmdIDs of commands.
ghost use Rattle.std.specs.Prelude.{◌≡◌, ◌<◌, length};
ghost use Rattle.dm_waiting.specs.Held.{id_in, IsIdAt};

use syncml_types::Command;

// A command's own CmdID.
fn id_of(command: &Command) -> u32
    ensures { result ≡ id_in command.now }
{
    match command {
        Command::Plain(command) => command.id,
        Command::Alert(alert) => alert.id,
        Command::Atomic(block) => block.id,
        Command::Sequence(block) => block.id,
        Command::Status(status) => status.id,
        Command::Results(results) => results.id,
    }
}

/// The CmdID of a command at a place.
pub(crate) fn id_at(body: &[Command], at: usize) -> u32
    requires { at < length body.now }
    ensures { IsIdAt body.now at result }
{
    id_of(&body[at])
}
