// Tokens of messages.
use wbxml_tables::Element;
use wbxml_tables::Element::{
    ECmdID, EData, EFinal, EGet, EItem, ELocURI, EMsgID, EReplace, ESequence, ESessionID, ESource,
    ESyncBody, ESyncHdr, ESyncML, ETarget, EVerDTD, EVerProto,
};

/// A token, or the three of an element with a text.
#[derive(Clone, Copy)]
pub(crate) enum Piece {
    Open(Element),
    Bare(Element),
    End,
    Text(&'static [u8]),
    Opaque(&'static [u8]),
    Leaf(Element, &'static [u8]),
}

use Piece::{Bare, End, Leaf, Opaque, Open, Text};

/// The 16 tokens up to the first command of a body.
#[rattlefmt::skip]
pub(crate) const HEAD: [Piece; 14] = [
    Open(ESyncML), Open(ESyncHdr), Bare(EVerDTD), Bare(EVerProto), Bare(ESessionID), Leaf(EMsgID, b"1"),
         Open(ETarget), Bare(ELocURI), End, Open(ESource), Bare(ELocURI), End, End, Open(ESyncBody),
];

/// Behind them a Sequence of a Replace, whose Data comes in pieces, and a Get, and the rest of the message: 32 tokens.
#[rattlefmt::skip]
pub(crate) const REST: [Piece; 24] = [
    Open(ESequence), Leaf(ECmdID, b"1"), Open(EReplace), Leaf(ECmdID, b"2"), Open(EItem), Open(EData), Text(b"a"),
         Opaque(b"b"), Text(b"c"), End, End, End, Open(EGet), Leaf(ECmdID, b"3"), Open(EItem), Open(ETarget),
         Leaf(ELocURI, b"./A"), End, End, End, End, Bare(EFinal), End, End,
];

/// The canonical spelling of that message.
pub(crate) const SPELLING: &[u8] =
    b"\x03\xa4\x01j\x00ml12%[\x031\x00\x01n\x17\x01g\x17\x01\x01kdK\x031\x00\x01`K\x032\x00\x01TO\x03abc\x00\x01\
      \x01\x01SK\x033\x00\x01TnW\x03./A\x00\x01\x01\x01\x01\x01\x12\x01\x01";
