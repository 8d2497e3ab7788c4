// What the client's commands are answered, and what a message asks for.
ghost use Rattle.std.specs.Prelude.{◌≡◌, ◌++◌, [], if◌then◌else◌, IfOk, OnOk};
ghost use Rattle.std.specs.List.{list_any};
ghost use Rattle.dm_atomic.specs.Made.{told};
ghost use Rattle.dm_headers.specs.Checks.{passes as passing};
ghost use Rattle.dm_service.specs.Answers as Spec;
ghost use Rattle.dm_service.specs.Sending;

use dm_atomic::{Origin, answer_each};
use dm_base::{List, Memory};
use dm_headers::passes;
use std::alloc::Global;
use syncml_types::{Command, Message, Verb};

fn verb_code(verb: Verb) -> u32
    ensures { result ≡ Spec.verb_code verb }
{
    match verb {
        Verb::Replace => 200,
        _ => 406,
    }
}

// The code of a command: none is executed.
fn code_for(command: &Command) -> u32
    ensures { result ≡ Spec.code_for command.now }
{
    match command {
        Command::Plain(command) => verb_code(command.verb),
        Command::Alert(_) => 200,
        _ => 406,
    }
}

fn answer_all(
    alloc: Global,
    origin: Origin,
    body: &[Command],
    out: &mut List<Command>,
) -> Result<(), Memory>
    ensures { OnOk result (out.new ≡ out.old ++ told (Spec.answers_all origin body.now)) }
{
    for command in body {
        answer_each(alloc, origin, command, code_for(command), out)?;
    }
    Ok(())
}

/// What the commands are answered of a message with this header code.
#[tactic(auto, unfolding(dm_service::specs::Answers::command_answers))]
pub(crate) fn answers_to(
    alloc: Global,
    message: &Message,
    code: u32,
) -> Result<List<Command>, Memory>
    ensures { IfOk result (λ made. made ≡ (if passing code then Spec.command_answers message.now else [])) }
{
    let mut made = List::new(alloc);
    if passes(code) {
        let header = message.header();
        let origin = Origin {
            msg: header.msg,
            quiet: header.no_resp,
        };
        answer_all(alloc, origin, message.body().as_slice(), &mut made)?;
    }
    Ok(made)
}

fn asks_next(command: &Command) -> bool
    ensures { result ≡ Sending.is_next_request command.now }
{
    match command {
        Command::Alert(alert) => alert.code == 1222,
        _ => false,
    }
}

fn any_asks_next(body: &[Command]) -> bool
    ensures { result ≡ list_any Sending.is_next_request body.now }
{
    body.iter().any(|command| asks_next(command))
}

/// Whether nothing waits at the client.
pub(crate) fn is_done_there(message: &Message, code: u32) -> bool
    ensures { result ≡ Sending.is_done_there message.now code }
{
    message.last() || (passes(code) && any_asks_next(message.body().as_slice()))
}
