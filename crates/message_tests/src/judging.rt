// Lists of tokens with what they are judged.
use crate::pieces::Piece::{self, Bare, End, Leaf, Opaque, Open, Text};
use crate::pieces::{HEAD, REST};
use dm_base::{Bytes, Memory};
use std::alloc::Global;
use std::test::Fail;
use syncml_grammar::{MessageVerdict, judge};
use wbxml_tables::Element::{
    self, EAtomic, ECmdID, EGet, EItem, ELocURI, EMap, ESequence, ETarget,
};
use wbxml_tokens::{Reason, Token};

fn push_tag(tokens: &mut Vec<Token>, element: Element, content: bool) -> Result<(), Memory> {
    tokens.push(Token::Tag { element, content })?;
    Ok(())
}

fn push_text(alloc: Global, tokens: &mut Vec<Token>, text: &[u8]) -> Result<(), Memory> {
    let text = Bytes::of_slice(alloc, text)?;
    tokens.push(Token::Text(text))?;
    Ok(())
}

fn push_end(tokens: &mut Vec<Token>) -> Result<(), Memory> {
    tokens.push(Token::End)?;
    Ok(())
}

fn push(alloc: Global, tokens: &mut Vec<Token>, piece: Piece) -> Result<(), Memory> {
    match piece {
        Open(element) => push_tag(tokens, element, true),
        Bare(element) => push_tag(tokens, element, false),
        End => push_end(tokens),
        Text(text) | Opaque(text) => push_text(alloc, tokens, text),
        Leaf(element, text) => {
            push_tag(tokens, element, true)?;
            push_text(alloc, tokens, text)?;
            push_end(tokens)
        }
    }
}

fn push_all(alloc: Global, tokens: &mut Vec<Token>, pieces: &[Piece]) -> Result<(), Memory> {
    for piece in pieces {
        push(alloc, tokens, *piece)?;
    }
    Ok(())
}

/// What tokens are judged, whatever the message.
#[derive(Clone, Copy, PartialEq, Eq)]
enum Judged {
    Whole,
    Unfinished,
    Refused(usize, Reason),
}

fn judged_of(verdict: &MessageVerdict) -> Judged {
    match verdict {
        MessageVerdict::Message(_) => Judged::Whole,
        MessageVerdict::Unfinished => Judged::Unfinished,
        MessageVerdict::Refused { at, reason } => Judged::Refused(*at, *reason),
    }
}

fn judgement(alloc: Global, head: &[Piece], pieces: &[Piece]) -> Result<Judged, Memory> {
    let mut tokens = Vec::new(alloc);
    push_all(alloc, &mut tokens, head)?;
    push_all(alloc, &mut tokens, pieces)?;
    let verdict = judge(alloc, tokens.as_slice())?;
    let judged = judged_of(&verdict);
    drop(verdict);
    Ok(judged)
}

// What stands behind the head.
#[rattlefmt::skip]
const ROWS: [(&[Piece], Judged); 9] = [
    (&[], Judged::Unfinished),
    (&REST, Judged::Whole),
    // A token behind a whole document.
    (&[End, End, End], Judged::Refused(18, Reason::Misplaced)),
    (&[Open(EGet), End], Judged::Refused(17, Reason::Misplaced)),
    (&[Open(EMap)], Judged::Refused(16, Reason::Leftout)),
    (&[Open(EAtomic), Leaf(ECmdID, b"1"), Bare(ESequence)], Judged::Refused(20, Reason::Nested)),
    (&[Open(EGet), Leaf(ECmdID, b"4294967296")], Judged::Refused(19, Reason::Number)),
    // A byte 00 in a text that isn't opaque, which no bytes spell.
    (&[Open(EGet), Leaf(ECmdID, b"1"), Open(EItem), Open(ETarget), Open(ELocURI), Text(b"a\x00"), End],
        Judged::Refused(24, Reason::Text)),
    (&[Open(EGet), Leaf(ECmdID, b"1"), Bare(EItem), Bare(EItem), End, End, End], Judged::Whole),
];

// The number of the first row that is judged otherwise.
fn wrong_row(alloc: Global) -> Result<Option<usize>, Memory> {
    for (number, (pieces, wanted)) in ROWS.iter().enumerate() {
        if judgement(alloc, &HEAD, pieces)? != *wanted {
            return Ok(Some(number));
        }
    }
    Ok(None)
}

#[test]
fn tokens_are_judged(rt: HostRuntime) -> Result<(), Fail> {
    assert_eq!(rt; wrong_row(rt.alloc())?, None);
    Ok(())
}
