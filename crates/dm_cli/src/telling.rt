// What the program says on standard error of how a run ended, for whoever sits at the terminal. What goes to standard
// output and the status are the run's own, and tell the same to programs.
use dm_exit::Exit;
use std::io::Eprint;

const HELP: &str =
    "dmtool: these words are of no form, or SERVER has no account. The forms, what each reads and what it writes:
  replay                                     a trace; the device's answers, its tree
  device ADDRESS SERVER KIND SESSION PATH    a trace without events; how its sessions ended, its tree
  serve ADDRESS COUNT                        a job; behind COUNT connections the job's report
  pair                                       a text of both ends; what each does, the tree, the report
  show                                       a message; its elements, one a line
  check                                      a message; its length, and whether it is spelled canonically
  bench SEED NODES MESSAGES                  nothing; what a generated workload comes to
  conform                                    a description and a tree; whether the tree conforms
  make                                       a description; the least tree that conforms
Each reads standard input and writes standard output. The status is 0 where all was read and written, else README.md
tells what it means. docs/GUIDE.md goes from a message to a verdict; docs/PROTOCOL.md has each line's fields.";

/// What the program says where the system gives no seed for nonces.
pub const NO_SEED: &str = "dmtool: the system gives no random bytes for nonces; nothing was done";

/// The words for a person. None comes where all was done.
fn words_for(exit: Exit) -> Option<&'static str> {
    match exit {
        Exit::Done => None,
        Exit::Usage => Some(HELP),
        Exit::BadInput => Some(
            "dmtool: the input isn't taken: the last line written tells where and why; docs/PROTOCOL.md has the forms",
        ),
        Exit::ReadFault => Some("dmtool: standard input can't be read"),
        Exit::WriteFault => Some("dmtool: standard output can't be written"),
        Exit::NoMemory => Some(
            "dmtool: there is too little memory; what was written is the text's beginning",
        ),
        Exit::GaveUp => Some(
            "dmtool: five exchanges in a row were lost: nobody answers at the address, or not in time",
        ),
        Exit::Denied => Some(
            "dmtool: a session was denied: a name, a password or a nonce isn't what the other end has",
        ),
        Exit::TooLong => Some("dmtool: the input has more than 67,108,864 bytes"),
        Exit::DoorFault => Some(
            "dmtool: the address can't be listened at, or lets no more connections in",
        ),
        Exit::Peer => Some(
            "dmtool: five exchanges in a row were lost by what the server replied, or a session didn't end",
        ),
        Exit::DiskFault => Some("dmtool: the disk failed"),
        Exit::StoreFull => Some("dmtool: the tree has no room in the store"),
        Exit::BadStore => Some("dmtool: the store is damaged, or keeps no device's tree"),
    }
}

/// Says how a run ended, where it isn't all done. Where standard error can't be written, nothing is said.
pub fn tell_ending<E: Eprint>(error: &E, exit: Exit) {
    if let Some(words) = words_for(exit) {
        tell(error, words);
    }
}

/// Says a line on standard error, where it can be written.
pub fn tell<E: Eprint>(error: &E, words: &str) {
    let _ = error.eprintln(words);
}
