// Why an exchange over HTTP brought no message.
use thiserror::Error;

/// Why an exchange over HTTP brought no message.
#[derive(Clone, Copy, Debug, PartialEq, Eq, Error)]
pub enum HttpError {
    /// Only where a count of faults rose.
    #[error("a fault of the connection")]
    Failed,
    #[error("a head that isn't read")]
    BadHead,
    #[error("a status other than 200")]
    NotOk(u16),
    #[error("a body of more than 65,536 bytes")]
    TooLong,
    #[error("the stream ended inside the message")]
    Cut,
    #[error("out of memory")]
    Memory,
}
