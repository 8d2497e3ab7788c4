// How a run ends.
use std::fmt;

/// How a run ended, which the program's status tells. A command that reads a text and writes one answers `Done`,
/// `BadInput`, `ReadFault`, `WriteFault`, `NoMemory` or `TooLong`; the others are of runs that reach further.
#[derive(Clone, Copy, Debug, PartialEq, Eq)]
pub enum Exit {
    /// The input was read to its end, and the whole text was written.
    Done,
    /// The words of the command line are of no form.
    Usage,
    /// The input is outside its grammar; the line or the place, and the reason, were written.
    BadInput,
    /// Reading failed; what was written is a prefix of the text.
    ReadFault,
    /// Writing failed; what was written is a prefix of the text.
    WriteFault,
    /// Memory was wanting; what was written is a prefix of the text.
    NoMemory,
    /// Exchanges with a server were lost, one after the other, until no other was tried.
    GaveUp,
    /// A session was denied.
    Denied,
    /// 67,108,864 bytes were taken and another byte came; of a trace no whole line was left in them.
    TooLong,
    /// The door, at which a server waits for connections, failed.
    DoorFault,
    /// The peer answered what is no answer, or didn't come to an end.
    Peer,
    /// The disk failed.
    DiskFault,
    /// The tree that was to be kept found no room in the store.
    StoreFull,
    /// The store is damaged, or keeps no device's tree.
    BadStore,
}

impl fmt::Display for Exit {
    fn fmt<W: fmt::Write>(&self, f: &mut fmt::Formatter<W>) -> fmt::Result {
        f.write_str(match self {
            Exit::Done => "done",
            Exit::Usage => "words of no form",
            Exit::BadInput => "bad input",
            Exit::ReadFault => "reading failed",
            Exit::WriteFault => "writing failed",
            Exit::NoMemory => "out of memory",
            Exit::GaveUp => "gave up",
            Exit::Denied => "denied",
            Exit::TooLong => "more bytes than are taken",
            Exit::DoorFault => "the door failed",
            Exit::Peer => "the peer is at fault",
            Exit::DiskFault => "the disk failed",
            Exit::StoreFull => "the store is full",
            Exit::BadStore => "the store is bad",
        })
    }
}
