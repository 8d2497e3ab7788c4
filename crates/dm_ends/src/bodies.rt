// What both ends look for in a message's body.
ghost use Rattle.std.specs.Prelude.{◌≡◌};
ghost use Rattle.std.specs.List.{list_any, list_all};
ghost use Rattle.dm_ends.specs.Commands as Spec;

use syncml_types::Command;

fn is_abort(command: &Command) -> bool
    ensures { result ≡ Spec.is_abort command.now }
{
    match command {
        Command::Alert(alert) => alert.code == 1223,
        _ => false,
    }
}

/// Whether an Alert 1223, which ends the session, stands there, outside of containers.
pub fn has_abort(body: &[Command]) -> bool
    ensures { result ≡ list_any Spec.is_abort body.now }
{
    body.iter().any(|command| is_abort(command))
}

fn is_report(command: &Command) -> bool
    ensures { result ≡ Spec.is_report command.now }
{
    match command {
        Command::Status(_) | Command::Results(_) => true,
        _ => false,
    }
}

/// Whether nothing stands there but Statuses and Results.
pub fn all_reports(body: &[Command]) -> bool
    ensures { result ≡ list_all Spec.is_report body.now }
{
    body.iter().all(|command| is_report(command))
}
