// What stands before a run and behind it: the words of its command line, and the program's status.
ghost use Rattle.std.specs.Prelude.{◌≡◌, ◌≢◌, [], ⊤, Result, Ok, Err, MatchResult, IfOk, IfErr};
ghost use Rattle.std.specs.IoError.{error_kind};
ghost use Rattle.std.specs.declared.io.ErrorKind.TheVariants.{InvalidData};
ghost use Rattle.std.specs.Process.{exit_status};
ghost use Rattle.dm_cli.specs.Forms.{process_status};

use dm_base::Memory;
use dm_exit::Exit;
use std::alloc::Global;
use std::io;
use std::io::ErrorKind;
use std::process::ExitCode;

/// The words of a command line as they were read. Words that aren't all UTF-8 are of no form, as no word is. `Memory`
/// comes where the words themselves found none.
pub fn given_words(alloc: Global, words: io::Result<Vec<String>>) -> Result<Vec<String>, Memory>
    ensures read { IfOk words (λ w. MatchResult result (λ v. v.items ≡ w.items) (λ e. ⊥)) }
    ensures unread { IfErr words (λ e. error_kind e ≡ InvalidData
        → MatchResult result (λ v. v.items ≡ []) (λ e. ⊥)) }
    ensures lacking { IfErr words (λ e. error_kind e ≢ InvalidData → MatchResult result (λ v. ⊥) (λ e. ⊤)) }
{
    match words {
        Ok(words) => Ok(words),
        Err(error) if error.kind() == ErrorKind::InvalidData => Ok(Vec::new(alloc)),
        Err(_) => Err(Memory),
    }
}

// The status that the program ends with.
fn status(exit: Exit) -> u8
    ensures { result ≡ process_status exit }
{
    match exit {
        Exit::Done => 0,
        Exit::Usage => 2,
        Exit::BadInput => 3,
        Exit::ReadFault => 4,
        Exit::WriteFault => 5,
        Exit::NoMemory => 6,
        Exit::GaveUp => 7,
        Exit::Denied => 8,
        Exit::TooLong => 9,
        Exit::DoorFault => 10,
        Exit::Peer => 11,
        Exit::DiskFault => 13,
        Exit::StoreFull => 14,
        Exit::BadStore => 15,
    }
}

/// What the program ends with.
pub fn ended(exit: Exit) -> ExitCode
    ensures { exit_status result ≡ process_status exit }
{
    ExitCode::from(status(exit))
}
