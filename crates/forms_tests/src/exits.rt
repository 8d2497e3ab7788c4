// What the ends of a run say.
use dm_exit::Exit;
use std::alloc::{AllocError, Global};

const EXITS: [(Exit, &str); 7] = [
    (Exit::Done, "done"),
    (Exit::Usage, "words of no form"),
    (Exit::BadInput, "bad input"),
    (Exit::ReadFault, "reading failed"),
    (Exit::WriteFault, "writing failed"),
    (Exit::NoMemory, "out of memory"),
    (Exit::TooLong, "more bytes than are taken"),
];

fn exit_text(alloc: Global, exit: Exit) -> Result<String, AllocError> {
    format!(in alloc; "{exit}")
}

fn is_told(alloc: Global, exit: Exit, want: &str) -> bool {
    match exit_text(alloc, exit) {
        Ok(text) => text.as_str() == want,
        Err(_) => false,
    }
}

// The text of the first row that is told otherwise.
fn wrong_exit(alloc: Global) -> Option<&'static str> {
    for (exit, text) in &EXITS {
        if !is_told(alloc, *exit, text) {
            return Some(*text);
        }
    }
    None
}

#[test]
fn exits_are_told(rt: HostRuntime) {
    assert_eq!(rt; wrong_exit(rt.alloc()), None);
}
