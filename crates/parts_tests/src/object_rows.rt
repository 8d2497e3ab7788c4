// Pieces, and what each comes to.
use syncml_types::Verb;
use syncml_types::Verb::{Add, Delete, Get, Replace};

/// A piece: its verb, target, bytes and Size, and whether more follow. Then its code, the value of the whole object,
/// and the target of an object that it breaks. An empty target is none.
pub(crate) type Sent = (
    Verb,
    &'static [u8],
    &'static [u8],
    Option<u64>,
    bool,
    u32,
    &'static [u8],
    &'static [u8],
);

const NONE: &[u8] = b"";

/// Pieces one after another, to an inbox for ten bytes.
#[rattlefmt::skip]
pub(crate) const SENT: [Sent; 21] = [
    // One piece, at the limit of ten bytes and above it; its Size isn't looked at.
    (Add, b"./A", b"0123456789", Some(99), false, 200, b"0123456789", NONE),
    (Add, b"./A", b"0123456789a", None, false, 416, NONE, NONE),
    // Three pieces.
    (Add, b"./A", b"ab", Some(5), true, 213, NONE, NONE),
    (Add, b"./A", b"cd", None, true, 213, NONE, NONE),
    (Add, b"./A", b"e", None, false, 200, b"abcde", NONE),
    // Another verb breaks it, and another target does.
    (Add, b"./A", b"ab", Some(5), true, 213, NONE, NONE),
    (Replace, b"./A", b"ab", Some(3), true, 213, NONE, b"./A"),
    (Replace, b"./B", b"ab", Some(3), true, 213, NONE, b"./A"),
    // Too many bytes, and what follows is skipped up to the last.
    (Replace, b"./B", b"cd", None, true, 424, NONE, NONE),
    (Replace, b"./B", b"", None, true, 424, NONE, NONE),
    (Replace, b"./B", b"", None, false, 424, NONE, NONE),
    (Replace, b"./B", b"x", None, false, 200, b"x", NONE),
    // First pieces that are refused: no Size, one above the limit, and one that is passed at once.
    (Add, b"./A", b"a", None, true, 411, NONE, NONE),
    (Add, b"./A", b"a", Some(2), false, 411, NONE, NONE),
    (Add, b"./A", b"a", Some(11), true, 416, NONE, NONE),
    (Add, b"./C", b"abc", Some(2), true, 424, NONE, NONE),
    // A Get ends what is skipped; it has no pieces, and a write in pieces wants a target.
    (Get, b"./C", b"", None, true, 400, NONE, NONE),
    (Add, NONE, b"a", Some(2), true, 400, NONE, NONE),
    // The last piece is one byte short.
    (Add, b"./A", b"a", Some(3), true, 213, NONE, NONE),
    (Add, b"./A", b"b", None, false, 424, NONE, NONE),
    (Delete, b"./A", b"", None, false, 200, NONE, NONE),
];
