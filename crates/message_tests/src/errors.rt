// What is said of bytes that are refused, and of want of memory.
use std::alloc::{AllocError, Global};
use wbxml_tokens::{FeedError, Reason, Refusal, Stop};

#[derive(Clone, Copy)]
enum AnyError {
    Reason(Reason),
    Refusal(Refusal),
    Stop(Stop),
    Feed(FeedError),
}

const REFUSAL: Refusal = Refusal {
    at: 7,
    reason: Reason::Misplaced,
};

const ERRORS: [(AnyError, &str); 7] = [
    (AnyError::Reason(Reason::Truncated), "truncated"),
    (AnyError::Reason(Reason::Trailing), "trailing"),
    (AnyError::Refusal(REFUSAL), "refused at 7: misplaced"),
    (AnyError::Stop(Stop::Refused(Reason::Tag)), "refused: tag"),
    (AnyError::Stop(Stop::Memory), "out of memory"),
    (
        AnyError::Feed(FeedError::Refused(REFUSAL)),
        "refused at 7: misplaced",
    ),
    (AnyError::Feed(FeedError::Memory), "out of memory"),
];

fn error_text(alloc: Global, error: AnyError) -> Result<String, AllocError> {
    match error {
        AnyError::Reason(error) => format!(in alloc; "{error}"),
        AnyError::Refusal(error) => format!(in alloc; "{error}"),
        AnyError::Stop(error) => format!(in alloc; "{error}"),
        AnyError::Feed(error) => format!(in alloc; "{error}"),
    }
}

fn is_told(alloc: Global, error: AnyError, want: &str) -> bool {
    match error_text(alloc, error) {
        Ok(text) => text.as_str() == want,
        Err(_) => false,
    }
}

// The text of the first row that is told otherwise.
fn wrong_error(alloc: Global) -> Option<&'static str> {
    for (error, text) in &ERRORS {
        if !is_told(alloc, *error, text) {
            return Some(*text);
        }
    }
    None
}

#[test]
fn errors_are_told(rt: HostRuntime) {
    assert_eq!(rt; wrong_error(rt.alloc()), None);
}
