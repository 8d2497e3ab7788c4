// What the errors of start sections say.
use dm_base::LineReason;
use dm_fields::LineError;
use std::alloc::{AllocError, Global};

const ERRORS: [(LineError, &str); 2] = [
    (LineError::Bad(LineReason::Cut), "a bad line"),
    (LineError::Memory, "out of memory"),
];

fn error_text(alloc: Global, error: LineError) -> Result<String, AllocError> {
    format!(in alloc; "{error}")
}

fn is_told(alloc: Global, error: LineError, want: &str) -> bool {
    match error_text(alloc, error) {
        Ok(text) => text.as_str() == want,
        Err(_) => false,
    }
}

// The text of the first row that is told otherwise.
fn wrong_error(alloc: Global) -> Option<&'static str> {
    for (error, text) in &ERRORS {
        if !is_told(alloc, *error, text) {
            return Some(*text);
        }
    }
    None
}

#[test]
fn errors_are_told(rt: HostRuntime) {
    assert_eq!(rt; wrong_error(rt.alloc()), None);
}
