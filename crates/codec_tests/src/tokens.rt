// Documents and pieces of them, with the tokens that they give and the refusals that end them.
use std::alloc::Global;
use std::test::Fail;
use wbxml_tables::Element;
use wbxml_tokens::{FeedError, Placed, Reason, Refusal, Token, Tokens};

// The message of one Get of ./A, from a server s1 to a device d1.
const ONE_GET: &[u8] =
    b"\x03\xa4\x01\x6a\x00\x6d\x6c\x71\x031.2\x00\x01\x72\x03DM/1.2\x00\x01\x65\x031\x00\x01\x5b\x031\x00\x01\
    \x6e\x57\x03d1\x00\x01\x01\x67\x57\x03s1\x00\x01\x01\x01\x6b\x53\x4b\x031\x00\x01\
    \x54\x6e\x57\x03./A\x00\x01\x01\x01\x01\x12\x01\x01";

// A document that is refused, and where and why.
struct Refused {
    bytes: &'static [u8],
    at: u64,
    reason: Reason,
}

const REFUSED: [Refused; 20] = [
    Refused {
        bytes: b"\x00",
        at: 0,
        reason: Reason::Version,
    },
    Refused {
        bytes: b"\x04",
        at: 0,
        reason: Reason::Version,
    },
    Refused {
        bytes: b"\x03\xa4\x02",
        at: 1,
        reason: Reason::Publicid,
    },
    Refused {
        bytes: b"\x03\x80\x80\x80\x80\x80",
        at: 1,
        reason: Reason::Integer,
    },
    Refused {
        bytes: b"\x03\x00\x90\x80\x80\x80\x00",
        at: 2,
        reason: Reason::Integer,
    },
    Refused {
        bytes: b"\x03\xa4\x01\x03",
        at: 3,
        reason: Reason::Charset,
    },
    Refused {
        bytes: b"\x03\x00\x00\x03",
        at: 3,
        reason: Reason::Charset,
    },
    Refused {
        bytes: b"\x03\x00\x00\x6a\x01A",
        at: 1,
        reason: Reason::Publicid,
    },
    Refused {
        bytes: b"\x03\x80\x00\x01\x6a\x01A",
        at: 1,
        reason: Reason::Publicid,
    },
    Refused {
        bytes: b"\x03\xa4\x01\x6a\x80\x80\x80\x80\x80",
        at: 4,
        reason: Reason::Integer,
    },
    Refused {
        bytes: b"\x03\xa4\x01\x6a\x00\x04",
        at: 5,
        reason: Reason::Token,
    },
    Refused {
        bytes: b"\x03\xa4\x01\x6a\x00\xc0",
        at: 5,
        reason: Reason::Token,
    },
    Refused {
        bytes: b"\x03\xa4\x01\x6a\x00\x70",
        at: 5,
        reason: Reason::Tag,
    },
    Refused {
        bytes: b"\x03\xa4\x01\x6a\x00\x6d\x00\x02",
        at: 6,
        reason: Reason::Tag,
    },
    Refused {
        bytes: b"\x03\xa4\x01\x6a\x00\x6d\x00\x01\x6d",
        at: 8,
        reason: Reason::Tag,
    },
    Refused {
        bytes: b"\x03\xa4\x01\x6a\x02AB\x6d\x83\x02",
        at: 8,
        reason: Reason::Index,
    },
    Refused {
        bytes: b"\x03\xa4\x01\x6a\x00\x6d\x83\x80\x80\x80\x80\x80",
        at: 6,
        reason: Reason::Integer,
    },
    Refused {
        bytes: b"\x03\xa4\x01\x6a\x00\x6d\xc3\x90\x80\x80\x80\x00",
        at: 6,
        reason: Reason::Integer,
    },
    Refused {
        bytes: b"\x03\xa4\x01\x6a\x00\x2d\x00",
        at: 6,
        reason: Reason::Trailing,
    },
    Refused {
        bytes: b"\x03\xa4\x01\x6a\x00\x6d\x01\xff",
        at: 7,
        reason: Reason::Trailing,
    },
];

fn is_refused(answer: Result<(), FeedError>, at: u64, reason: Reason) -> bool {
    answer == Err(FeedError::Refused(Refusal { at, reason }))
}

// It is refused for good.
fn is_refused_twice(alloc: Global, row: &Refused) -> bool {
    let mut tokens = Tokens::new(alloc);
    let at_first = tokens.feed(row.bytes);
    let again = tokens.feed(b"\x01");
    is_refused(at_first, row.at, row.reason) && is_refused(again, row.at, row.reason)
}

#[test]
fn refuses_at_the_place_and_for_the_reason(rt: HostRuntime) -> Result<(), Fail> {
    for row in &REFUSED {
        assert!(rt; is_refused_twice(rt.alloc(), row));
    }
    Ok(())
}

// Whether the document is not whole at its end.
fn is_cut(alloc: Global, bytes: &[u8]) -> bool {
    let mut tokens = Tokens::new(alloc);
    let fed = tokens.feed(bytes) == Ok(());
    let at = bytes.len() as u64;
    fed && tokens.finish()
        == Err(Refusal {
            at,
            reason: Reason::Truncated,
        })
}

#[test]
fn each_prefix_is_truncated_at_its_length(rt: HostRuntime) -> Result<(), Fail> {
    for length in 0..ONE_GET.len() {
        assert!(rt; is_cut(rt.alloc(), &ONE_GET[..length]));
    }
    Ok(())
}

// How many tokens wait.
fn count_of(tokens: &mut Tokens) -> u64 {
    let mut count = 0u64;
    for _ in 0..u64::MAX {
        match tokens.next() {
            Some(_) => count = count.saturating_add(1),
            None => break,
        }
    }
    count
}

fn feed_all(tokens: &mut Tokens, bytes: &[u8], piece: usize) -> Result<(), FeedError> {
    for part in bytes.chunks(piece.max(1)) {
        tokens.feed(part)?;
    }
    Ok(())
}

// The number of tokens of a document, where it is taken.
fn count_in_pieces(alloc: Global, bytes: &[u8], piece: usize) -> Option<u64> {
    let mut tokens = Tokens::new(alloc);
    let fed = feed_all(&mut tokens, bytes, piece);
    let count = count_of(&mut tokens);
    if fed == Ok(()) { Some(count) } else { None }
}

#[test]
fn one_get_has_41_tokens_in_any_pieces(rt: HostRuntime) -> Result<(), Fail> {
    for piece in [1, 2, 7, 73] {
        assert_eq!(rt; count_in_pieces(rt.alloc(), ONE_GET, piece), Some(41));
    }
    Ok(())
}

fn is_tag(placed: Option<Placed>, at: u64, element: Element, content: bool) -> bool {
    match placed {
        Some(
            Placed {
                at: place,
                token: Token::Tag {
                    element: found,
                    content: has,
                },
            },
        ) => { place == at && found == element && has == content }
        _ => false,
    }
}

fn is_text(placed: Option<Placed>, at: u64, text: &[u8]) -> bool {
    match placed {
        Some(
            Placed {
                at: place,
                token: Token::Text(found),
            },
        ) => place == at && found.as_slice() == text,
        _ => false,
    }
}

fn is_opaque(placed: Option<Placed>, at: u64, bytes: &[u8]) -> bool {
    match placed {
        Some(
            Placed {
                at: place,
                token: Token::Opaque(found),
            },
        ) => place == at && found.as_slice() == bytes,
        _ => false,
    }
}

fn is_fed(tokens: &mut Tokens, pieces: &[&'static [u8]]) -> bool {
    for piece in pieces {
        if tokens.feed(*piece) != Ok(()) {
            return false;
        }
    }
    true
}

fn page_lasts(tokens: &mut Tokens) -> bool {
    is_fed(tokens, &[b"\x03\xa4\x01\x6a\x00\x6d"])
        && is_tag(tokens.next(), 5, Element::ESyncML, true)
        && is_fed(tokens, &[b"\x00", b"\x01"])
        && tokens.next().is_none()
        && is_fed(tokens, &[b"\x53\x01\x13"])
        && is_tag(tokens.next(), 8, Element::EType, true)
        && tokens.next().is_some()
        && is_tag(tokens.next(), 10, Element::EType, false)
}

// A page switch gives no token, and the page lasts until the next one, over END too.
#[test]
fn a_page_lasts_until_the_next_switch(rt: HostRuntime) -> Result<(), Fail> {
    assert!(rt; page_lasts(&mut Tokens::new(rt.alloc())));
    Ok(())
}

// What the table of a document and its inline texts give.
fn texts_follow(tokens: &mut Tokens) -> bool {
    is_tag(tokens.next(), 9, Element::ESyncML, true)
        && is_text(tokens.next(), 10, b"A")
        && is_text(tokens.next(), 12, b"BC")
        && is_text(tokens.next(), 14, b"")
        && is_text(tokens.next(), 17, b"ab")
        && is_opaque(tokens.next(), 21, b"\x00\x01")
        && is_opaque(tokens.next(), 25, b"")
        && tokens.next().is_none()
}

fn texts_are_joined(tokens: &mut Tokens) -> bool {
    is_fed(
        tokens,
        &[
            b"\x02\xa4\x01\x6a\x04A\x00BC\x6d\x83\x00\x83\x02\x83\x80\x01\x03a",
            b"b\x00\xc3\x02\x00",
            b"\x01\xc3\x00",
        ],
    ) && texts_follow(tokens)
}

// Texts of the table end at its first 0 or with it; a text and bytes that a piece cuts are joined.
#[test]
fn texts_come_whole(rt: HostRuntime) -> Result<(), Fail> {
    assert!(rt; texts_are_joined(&mut Tokens::new(rt.alloc())));
    Ok(())
}

// Whether a document is one element, bare, at this place.
fn is_one_element(alloc: Global, bytes: &[u8], at: u64) -> bool {
    let mut tokens = Tokens::new(alloc);
    let fed = tokens.feed(bytes) == Ok(());
    let told = is_tag(tokens.next(), at, Element::ESyncML, false);
    fed && told && tokens.finish() == Ok(())
}

#[test]
fn the_identifier_may_be_a_text(rt: HostRuntime) -> Result<(), Fail> {
    let bytes = b"\x01\x00\x00\x6a\x1d-//SYNCML//DTD SyncML 1.2//EN\x2d".as_slice();
    assert!(rt; is_one_element(rt.alloc(), bytes, 34));
    Ok(())
}

// An END before the element is handed out, and the document never is whole by what follows.
fn end_stands_outside(alloc: Global) -> bool {
    let mut tokens = Tokens::new(alloc);
    let fed = tokens.feed(b"\x03\xa4\x01\x6a\x00\x01\x2d") == Ok(());
    let end = tokens.next().is_some();
    let tag = is_tag(tokens.next(), 6, Element::ESyncML, false);
    let refusal = Refusal {
        at: 7,
        reason: Reason::Truncated,
    };
    fed && end && tag && tokens.finish() == Err(refusal)
}

#[test]
fn nothing_stands_outside_the_element(rt: HostRuntime) -> Result<(), Fail> {
    assert!(rt; end_stands_outside(rt.alloc()));
    Ok(())
}

// Whether so many pieces of 64 bytes are taken.
fn takes_pieces(tokens: &mut Tokens, count: u32) -> bool {
    for _ in 0..count {
        if tokens.feed(&[0x41; 64]) != Ok(()) {
            return false;
        }
    }
    true
}

fn is_too_long(tokens: &mut Tokens) -> bool {
    let front =
        b"\x03\xa4\x01\x6a\x00\x6d\x03AAAAAAAAAAAAAAAAAAAAAAAAAAAAAAAAAAAAAAAAAAAAAAAAAAAAAAAAA".as_slice();
    tokens.feed(front) == Ok(())
        && takes_pieces(tokens, 1023)
        && is_refused(tokens.feed(b"\x04"), 65_536, Reason::Toolong)
}

// 65,536 bytes are taken: seven and a text of 65,529; the next byte is one too many.
#[test]
fn byte_65537_is_too_long(rt: HostRuntime) -> Result<(), Fail> {
    assert!(rt; is_too_long(&mut Tokens::new(rt.alloc())));
    Ok(())
}
