// What the error of a session that doesn't begin says.
use dm_session::BeginError;
use std::alloc::{AllocError, Global};

const EXHAUSTED: BeginError = BeginError::Exhausted { last: 7 };

const ERRORS: [(BeginError, &str); 2] = [
    (EXHAUSTED, "session 7 was begun already"),
    (BeginError::Memory, "out of memory"),
];

fn error_text(alloc: Global, error: BeginError) -> Result<String, AllocError> {
    format!(in alloc; "{error}")
}

fn is_told(alloc: Global, error: BeginError, want: &str) -> bool {
    match error_text(alloc, error) {
        Ok(text) => text.as_str() == want,
        Err(_) => false,
    }
}

// The text of the first row that is told otherwise.
fn wrong_error(alloc: Global) -> Option<&'static str> {
    for (error, text) in &ERRORS {
        if !is_told(alloc, *error, text) {
            return Some(*text);
        }
    }
    None
}

#[test]
fn errors_are_told(rt: HostRuntime) {
    assert_eq!(rt; wrong_error(rt.alloc()), None);
}
