// What the errors of jobs say.
use dm_base::LineReason;
use dm_job::JobError;
use std::alloc::{AllocError, Global};

const BAD: JobError = JobError::Bad {
    line: 7,
    reason: LineReason::Cut,
};

const ERRORS: [(JobError, &str); 2] = [(BAD, "a bad line"), (JobError::Memory, "out of memory")];

fn error_text(alloc: Global, error: JobError) -> Result<String, AllocError> {
    format!(in alloc; "{error}")
}

fn is_told(alloc: Global, error: JobError, want: &str) -> bool {
    match error_text(alloc, error) {
        Ok(text) => text.as_str() == want,
        Err(_) => false,
    }
}

// The text of the first row that is told otherwise.
fn wrong_error(alloc: Global) -> Option<&'static str> {
    for (error, text) in &ERRORS {
        if !is_told(alloc, *error, text) {
            return Some(*text);
        }
    }
    None
}

#[test]
fn errors_are_told(rt: HostRuntime) {
    assert_eq!(rt; wrong_error(rt.alloc()), None);
}
