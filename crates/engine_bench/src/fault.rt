// Why something couldn't be done.

use dm_base::Memory;
use dm_tree::TreeError;
use dm_uri::UriError;
use std::io;

/// Why something couldn't be done.
#[derive(Clone, Copy, Debug, PartialEq, Eq)]
pub enum Fault {
    Memory,
    /// A node isn't where it belongs, or a text is no URI. It never comes.
    Lost,
}

impl From<Memory> for Fault {
    fn from(_memory: Memory) -> Fault {
        Fault::Memory
    }
}

impl From<TreeError> for Fault {
    fn from(error: TreeError) -> Fault {
        match error {
            TreeError::Full => Fault::Lost,
            TreeError::Memory => Fault::Memory,
        }
    }
}

impl From<UriError> for Fault {
    fn from(error: UriError) -> Fault {
        match error {
            UriError::Memory => Fault::Memory,
            _ => Fault::Lost,
        }
    }
}

/// The error that the program ends with.
pub fn told(fault: Fault) -> io::Error {
    match fault {
        Fault::Memory => io::Error::from(io::ErrorKind::OutOfMemory),
        Fault::Lost => io::Error::from(io::ErrorKind::InvalidData),
    }
}

/// Memory ran out.
pub fn of_memory(_error: Memory) -> io::Error {
    io::Error::from(io::ErrorKind::OutOfMemory)
}
