// What clap is told of the forms, a piece a function.
ghost use Rattle.std.specs.Prelude.{◌≡◌, false, IfOk};
ghost use Rattle.clap.specs.Words.{app_of};
ghost use Rattle.clap.specs.declared.builder.command.Command.TheViews.{out-Command as fields_of};
ghost use Rattle.dm_words.specs.Commands.{bare, of_ends, of_works, tool};

use clap::Command;
use std::alloc::{AllocError, Global};

// The tool without its subcommands: one of them has to come, and none that clap would add.
fn bare_command<'a>(alloc: Global) -> Command<'a>
    ensures app { app_of result ≡ bare }
    ensures local { (fields_of result).has_globals ≡ false }
{
    Command::new(alloc, "dmtool")
        .no_binary_name(true)
        .disable_help_flag(true)
        .disable_help_subcommand(true)
        .subcommand_required(true)
}

// With those that read a trace or a job.
fn end_commands<'a>(alloc: Global) -> Result<Command<'a>, AllocError>
    ensures app { IfOk result (λ command. app_of command ≡ of_ends) }
    ensures local { IfOk result (λ command. (fields_of command).has_globals ≡ false) }
{
    let one = bare_command(alloc).subcommand(Command::new(alloc, "replay"))?;
    let two = one.subcommand(Command::new(alloc, "device"))?;
    let three = two.subcommand(Command::new(alloc, "serve"))?;
    three.subcommand(Command::new(alloc, "pair"))
}

// With those that read a message, or nothing.
fn work_commands<'a>(alloc: Global) -> Result<Command<'a>, AllocError>
    ensures app { IfOk result (λ command. app_of command ≡ of_works) }
    ensures local { IfOk result (λ command. (fields_of command).has_globals ≡ false) }
{
    let four = end_commands(alloc)?;
    let five = four.subcommand(Command::new(alloc, "show"))?;
    let six = five.subcommand(Command::new(alloc, "check"))?;
    six.subcommand(Command::new(alloc, "bench"))
}

/// The tool with its subcommands.
pub fn tool_command<'a>(alloc: Global) -> Result<Command<'a>, AllocError>
    ensures app { IfOk result (λ command. app_of command ≡ tool) }
{
    let seven = work_commands(alloc)?;
    let eight = seven.subcommand(Command::new(alloc, "conform"))?;
    eight.subcommand(Command::new(alloc, "make"))
}
