// Lists of tokens with their judgements. What the texts are plays no part here.
use dm_base::{Bytes, Memory};
use std::alloc::Global;
use std::test::Fail;
use syncml_shape::{ChildPlace, ShapeVerdict, judge, place_of};
use wbxml_tables::Element;
use wbxml_tables::Element::{
    EAlert, EAtomic, EChal, ECmd, ECmdID, ECmdRef, ECorrelator, ECred, EData, EEMI, EExec, EFinal,
    EFormat, EGet, EItem, ELang, ELocName, ELocURI, EMap, EMark, EMaxMsgSize, EMaxObjSize, EMetInf,
    EMeta, EMoreData, EMsgID, EMsgRef, ENextNonce, ENoResp, EPut, ERespURI, EResults, ESearch,
    ESequence, ESessionID, ESize, ESource, ESourceRef, EStatus, ESyncBody, ESyncHdr, ESyncML,
    ETarget, EType, EVerDTD, EVerProto, EVersion,
};
use wbxml_tokens::{Reason, Token};

/// A token, whatever its text.
#[derive(Clone, Copy)]
pub enum Piece {
    Open(Element),
    Bare(Element),
    End,
    Text,
}

use Piece::{Bare, End, Open, Text};

/// The tokens up to the first command of a body.
#[rattlefmt::skip]
pub const HEAD: [Piece; 14] = [
    Open(ESyncML), Open(ESyncHdr), Bare(EVerDTD), Bare(EVerProto), Bare(ESessionID), Bare(EMsgID),
         Open(ETarget), Bare(ELocURI), End, Open(ESource), Bare(ELocURI), End, End, Open(ESyncBody),
];

// The tokens up to the first child of the Meta of an Item.
#[rattlefmt::skip]
const META_HEAD: [Piece; 18] = [
    Open(ESyncML), Open(ESyncHdr), Bare(EVerDTD), Bare(EVerProto), Bare(ESessionID), Bare(EMsgID),
         Open(ETarget), Bare(ELocURI), End, Open(ESource), Bare(ELocURI), End, End, Open(ESyncBody),
         Open(EGet), Bare(ECmdID), Open(EItem), Open(EMeta),
];

pub fn token_of(alloc: Global, piece: Piece) -> Token {
    match piece {
        Open(element) => Token::Tag {
            element,
            content: true,
        },
        Bare(element) => Token::Tag {
            element,
            content: false,
        },
        End => Token::End,
        Text => Token::Text(Bytes::new(alloc)),
    }
}

fn push_all(alloc: Global, tokens: &mut Vec<Token>, pieces: &[Piece]) -> Result<(), Memory> {
    for piece in pieces {
        tokens.push(token_of(alloc, *piece))?;
    }
    Ok(())
}

fn judge_both(
    alloc: Global,
    tokens: &mut Vec<Token>,
    front: &[Piece],
    pieces: &[Piece],
) -> Result<ShapeVerdict, Memory> {
    push_all(alloc, tokens, front)?;
    push_all(alloc, tokens, pieces)?;
    judge(alloc, tokens.as_slice())
}

fn judged(alloc: Global, front: &[Piece], pieces: &[Piece]) -> Result<ShapeVerdict, Memory> {
    let mut tokens = Vec::new(alloc);
    let verdict = judge_both(alloc, &mut tokens, front, pieces);
    drop(tokens);
    verdict
}

// Whether the verdict is the wanted one, of which the place counts from behind a front.
fn is_wanted(verdict: ShapeVerdict, front: usize, wanted: ShapeVerdict) -> bool {
    match (verdict, wanted) {
        (
            ShapeVerdict::Refused { at, reason },
            ShapeVerdict::Refused {
                at: place,
                reason: why,
            },
        ) => { at >= front && at - front == place && reason == why }
        (ShapeVerdict::Whole, ShapeVerdict::Whole) => true,
        (ShapeVerdict::Unfinished, ShapeVerdict::Unfinished) => true,
        _ => false,
    }
}

struct Case {
    pieces: &'static [Piece],
    verdict: ShapeVerdict,
}

fn all_are(alloc: Global, front: &[Piece], cases: &[Case]) -> Result<bool, Memory> {
    for case in cases {
        if !is_wanted(
            judged(alloc, front, case.pieces)?,
            front.len(),
            case.verdict,
        ) {
            return Ok(false);
        }
    }
    Ok(true)
}

const WHOLE: ShapeVerdict = ShapeVerdict::Whole;

const UNFINISHED: ShapeVerdict = ShapeVerdict::Unfinished;

macro_rules! at {
    ($at:literal, $reason:ident) => {
        ShapeVerdict::Refused {
            at: $at,
            reason: Reason::$reason,
        }
    };
}

macro_rules! cases {
    ($([$($piece:expr),*] => $verdict:expr;)*) => {
        [$(Case { pieces: &[$($piece),*], verdict: $verdict }),*]
    };
}

// What may stand before, at and right behind the root.
const ROOTS: [Case; 13] = cases! {
    [] => UNFINISHED;
    [Open(ESyncML)] => UNFINISHED;
    [End] => at!(0, Misplaced);
    [Text] => at!(0, Misplaced);
    [Open(ESyncHdr)] => at!(0, Misplaced);
    [Open(EAtomic)] => at!(0, Misplaced);
    [Open(ECred)] => at!(0, Leftout);
    [Bare(EMap)] => at!(0, Leftout);
    [Bare(ESyncML)] => at!(0, Misplaced);
    [Open(ESyncML), End] => at!(1, Misplaced);
    [Open(ESyncML), Text] => at!(1, Misplaced);
    [Open(ESyncML), Open(ESyncBody)] => at!(1, Misplaced);
    [Open(ESyncML), Open(ESyncHdr), End] => at!(2, Misplaced);
};

#[test]
fn judges_the_root(rt: HostRuntime) -> Result<(), Fail> {
    assert!(rt; all_are(rt.alloc(), &[], &ROOTS)?);
    Ok(())
}

// The end of a document, its Final, and elements spelled bare and with END.
const BODIES: [Case; 19] = cases! {
    [] => UNFINISHED;
    [End] => UNFINISHED;
    [End, End] => WHOLE;
    [Bare(EFinal), End, End] => WHOLE;
    [Open(EFinal), End, End, End] => WHOLE;
    [Open(EFinal), Text] => at!(1, Misplaced);
    [Bare(EFinal), Bare(EFinal)] => at!(1, Misplaced);
    [Bare(EFinal), Open(EGet)] => at!(1, Misplaced);
    [Text] => at!(0, Misplaced);
    [End, End, End] => at!(2, Misplaced);
    [End, End, Open(ESyncML)] => at!(2, Misplaced);
    [End, End, Text] => at!(2, Misplaced);
    [End, Open(ESyncBody)] => at!(1, Misplaced);
    [Bare(EGet)] => at!(0, Misplaced);
    [Bare(EItem)] => at!(0, Misplaced);
    [Open(EGet), End] => at!(1, Misplaced);
    [Open(EGet), Bare(ECmdID), Bare(EItem), End, End, End] => WHOLE;
    [Open(EGet), Open(ECmdID), End, Open(EItem), End, End, End, End] => WHOLE;
    [Open(EGet), Open(ECmdID), Text, Text, End, Bare(EItem), End, End, End] => WHOLE;
};

#[test]
fn judges_a_body(rt: HostRuntime) -> Result<(), Fail> {
    assert!(rt; all_are(rt.alloc(), &HEAD, &BODIES)?);
    Ok(())
}

// A Meta in an Item: its children in any order, each once, or one MetInf that holds them.
const METAS: [Case; 20] = cases! {
    [End] => UNFINISHED;
    [Bare(EFormat), End] => UNFINISHED;
    [Bare(EMaxObjSize), Bare(EVersion), Bare(EMark), Bare(ESize), Bare(ENextNonce), Bare(EType), Bare(EFormat),
         Bare(EMaxMsgSize), End] => UNFINISHED;
    [Open(EMetInf), End, End] => UNFINISHED;
    [Bare(EMetInf), End] => UNFINISHED;
    [Open(EMetInf), Bare(EMaxObjSize), Bare(EVersion), Bare(EMark), Bare(ESize), Bare(ENextNonce), Bare(EType),
         Bare(EFormat), Bare(EMaxMsgSize), End, End] => UNFINISHED;
    [Bare(EFormat), Bare(EFormat)] => at!(1, Misplaced);
    [Bare(EFormat), Bare(EType), Bare(ESize), Bare(EType)] => at!(3, Misplaced);
    [Open(EMetInf), Bare(ESize), Bare(ESize)] => at!(2, Misplaced);
    [Bare(EFormat), Open(EMetInf)] => at!(1, Misplaced);
    [Open(EMetInf), End, Bare(EFormat)] => at!(2, Misplaced);
    [Open(EMetInf), End, Open(EMetInf)] => at!(2, Misplaced);
    [Bare(EMetInf), Bare(EMetInf)] => at!(1, Misplaced);
    [Open(EMetInf), Open(EMetInf)] => at!(1, Misplaced);
    [Bare(EData)] => at!(0, Misplaced);
    [Bare(EEMI)] => at!(0, Leftout);
    [Text] => at!(0, Misplaced);
    [Open(EMetInf), Text] => at!(1, Misplaced);
    [End, Bare(EMeta)] => at!(1, Misplaced);
    [End, Bare(EMetInf)] => at!(1, Misplaced);
};

#[test]
fn judges_a_meta(rt: HostRuntime) -> Result<(), Fail> {
    assert!(rt; all_are(rt.alloc(), &META_HEAD, &METAS)?);
    Ok(())
}

// Text stands in texts, numbers and Data alone.
const TEXTS: [Case; 13] = cases! {
    [Open(EGet), Text] => at!(1, Misplaced);
    [Open(EGet), Open(ECmdID), Text] => UNFINISHED;
    [Open(EGet), Open(ECmdID), Open(EItem)] => at!(2, Misplaced);
    [Open(EGet), Bare(ECmdID), Open(EItem), Text] => at!(3, Misplaced);
    [Open(EGet), Bare(ECmdID), Open(EItem), Open(EData), Text, Text, End] => UNFINISHED;
    [Open(EGet), Bare(ECmdID), Open(EItem), Open(EData), Bare(EData)] => at!(4, Misplaced);
    [Open(EGet), Bare(ECmdID), Open(EItem), Open(EMoreData), Text] => at!(4, Misplaced);
    [Open(EGet), Bare(ECmdID), Open(EItem), Open(ETarget), Text] => at!(4, Misplaced);
    [Open(EGet), Bare(ECmdID), Open(EItem), Bare(ETarget)] => at!(3, Misplaced);
    [Open(EGet), Bare(ECmdID), Open(EItem), Open(ETarget), Bare(ELocName)] => at!(4, Misplaced);
    [Open(EGet), Bare(ECmdID), Open(EItem), Open(ETarget), Bare(ELocURI), Open(ELocName), Text] => UNFINISHED;
    [Open(EAlert), Bare(ECmdID), Open(EData), Text] => UNFINISHED;
    [Open(EAlert), Bare(ECmdID), Open(ENoResp), Text] => at!(3, Misplaced);
};

#[test]
fn judges_texts(rt: HostRuntime) -> Result<(), Fail> {
    assert!(rt; all_are(rt.alloc(), &HEAD, &TEXTS)?);
    Ok(())
}

// Containers in containers, and elements that are left out.
const CONTAINERS: [Case; 20] = cases! {
    [Open(EAtomic), Bare(ECmdID), Open(EGet), Bare(ECmdID), Bare(EItem), End, End, End, End] => WHOLE;
    [Open(EAtomic), Bare(ECmdID), End] => at!(2, Misplaced);
    [Open(EAtomic), Bare(ECmdID), Open(EAtomic)] => at!(2, Nested);
    [Open(EAtomic), Bare(ECmdID), Bare(EAtomic)] => at!(2, Nested);
    [Open(EAtomic), Bare(ECmdID), Open(ESequence)] => at!(2, Nested);
    [Open(EAtomic), Bare(ECmdID), Open(EStatus)] => at!(2, Misplaced);
    [Open(EAtomic), Bare(ECmdID), Open(EResults)] => at!(2, Misplaced);
    [Open(EAtomic), Open(EAtomic)] => at!(1, Nested);
    [Open(ESequence), Bare(ECmdID), Open(EGet), Bare(ECmdID), Bare(EItem), End, Open(EAtomic), Bare(ECmdID),
         Open(EGet), Bare(ECmdID), Bare(EItem), End, End, Open(EGet), Bare(ECmdID), Bare(EItem), End, End, End,
         End] => WHOLE;
    [Open(ESequence), Bare(ECmdID), Open(ESequence)] => at!(2, Nested);
    [Open(ESequence), Bare(ECmdID), Open(EStatus)] => at!(2, Misplaced);
    [Open(ESequence), Bare(ECmdID), Open(EAtomic), Bare(ECmdID), Open(ESequence)] => at!(4, Nested);
    [Open(ESequence), Bare(ECmdID), Open(EAtomic), Bare(ECmdID), Open(EGet), Bare(ECmdID), Bare(EItem), End,
         End, End, Open(ESequence), Bare(ECmdID)] => UNFINISHED;
    [Open(EGet), Open(EAtomic)] => at!(1, Misplaced);
    [Open(EGet), Open(ECred)] => at!(1, Leftout);
    [Open(ECred)] => at!(0, Leftout);
    [Open(EStatus), Bare(ECmdID), Bare(EMsgRef), Bare(ECmdRef), Bare(ECmd), Open(EChal),
         Open(ECred)] => at!(6, Leftout);
    [Open(EPut)] => at!(0, Leftout);
    [Open(EGet), Bare(ELang)] => at!(1, Leftout);
    [Open(EGet), Bare(ECmdID), Open(ESearch)] => at!(2, Leftout);
};

#[test]
fn judges_names(rt: HostRuntime) -> Result<(), Fail> {
    assert!(rt; all_are(rt.alloc(), &HEAD, &CONTAINERS)?);
    Ok(())
}

// A header, its Cred, and a bare body.
const HEADERS: [Case; 10] = cases! {
    [Open(ESyncML), Open(ESyncHdr), Bare(EVerDTD), Bare(EVerProto), Bare(ESessionID), Bare(EMsgID),
         Open(ETarget), Bare(ELocURI), End, Open(ESource), Bare(ELocURI), End, End] => UNFINISHED;
    [Open(ESyncML), Open(ESyncHdr), Bare(EVerDTD), Bare(EVerProto), Bare(ESessionID), Bare(EMsgID),
         Open(ETarget), Bare(ELocURI), End, Open(ESource), Bare(ELocURI), End, Bare(ERespURI), Bare(ENoResp),
         Open(ECred), Bare(EData), End, Bare(EMeta), End] => UNFINISHED;
    [Open(ESyncML), Open(ESyncHdr), Bare(EVerDTD), Bare(EVerProto), Bare(ESessionID), Bare(EMsgID),
         Open(ETarget), Bare(ELocURI), End, Open(ESource), Bare(ELocURI), End, Bare(EMeta),
         Open(ECred)] => at!(13, Misplaced);
    [Open(ESyncML), Open(ESyncHdr), Bare(EVerDTD), Bare(EVerProto), Bare(ESessionID), Bare(EMsgID),
         Open(ETarget), Bare(ELocURI), End, Open(ESource), Bare(ELocURI), End, Open(ECred), Bare(EMeta),
         Bare(EData), End, Open(ECred)] => at!(16, Misplaced);
    [Open(ESyncML), Open(ESyncHdr), Bare(EVerDTD), Bare(EVerProto), Bare(ESessionID), Bare(EMsgID),
         Open(ETarget), Bare(ELocURI), End, Open(ESource), Bare(ELocURI), End, Bare(ECred)] => at!(12, Misplaced);
    [Open(ESyncML), Open(ESyncHdr), Bare(EVerDTD), Bare(EVerProto), Bare(ESessionID), Bare(EMsgID),
         Open(ETarget), Bare(ELocURI), End, Open(ESource), Bare(ELocURI), End, Open(ECred), Bare(EData),
         Bare(EMeta)] => at!(14, Misplaced);
    [Open(ESyncML), Open(ESyncHdr), Bare(EVerDTD), Bare(EVerProto), Bare(ESessionID), Bare(EMsgID),
         Open(ETarget), Bare(ELocURI), End, Open(ESource), Bare(ELocURI), End, Open(ECred),
         Open(ECred)] => at!(13, Leftout);
    [Open(ESyncML), Open(ESyncHdr), Open(ECred)] => at!(2, Misplaced);
    [Open(ESyncML), Open(ESyncHdr), Bare(EVerDTD), Bare(EVerProto), Bare(ESessionID), Bare(EMsgID),
         Open(ETarget), Bare(ELocURI), End, Open(ESource), Bare(ELocURI), End, End,
         Open(ESyncHdr)] => at!(13, Misplaced);
    [Open(ESyncML), Open(ESyncHdr), Bare(EVerDTD), Bare(EVerProto), Bare(ESessionID), Bare(EMsgID),
         Open(ETarget), Bare(ELocURI), End, Open(ESource), Bare(ELocURI), End, End, Bare(ESyncBody), End] => WHOLE;
};

#[test]
fn judges_a_header(rt: HostRuntime) -> Result<(), Fail> {
    assert!(rt; all_are(rt.alloc(), &[], &HEADERS)?);
    Ok(())
}

struct InParent {
    parent: Element,
    child: Element,
    place: Option<ChildPlace>,
}

macro_rules! place {
    ($parent:ident $child:ident) => {
        InParent {
            parent: $parent,
            child: $child,
            place: None,
        }
    };
    ($parent:ident $child:ident $order:literal $required:literal $many:literal) => {
        InParent {
            parent: $parent,
            child: $child,
            place: Some(ChildPlace {
                order: $order,
                required: $required,
                many: $many,
            }),
        }
    };
}

const PLACES: [InParent; 22] = [
    place!(EItem EData 4 false false),
    place!(EAtomic EGet 4 true true),
    place!(EItem EGet),
    place!(ESyncML ESyncBody 2 true false),
    place!(ESyncHdr ECred 9 false false),
    place!(ESyncBody EAtomic 1 false true),
    place!(ESyncBody EFinal 2 false false),
    place!(EGet EItem 4 true true),
    place!(EExec EItem 5 true false),
    place!(EGet ECorrelator),
    place!(EAlert EData 3 true false),
    place!(ESequence EAtomic 4 true true),
    place!(EAtomic EAtomic),
    place!(EStatus ESourceRef 6 false true),
    place!(EResults EMsgRef 2 false false),
    place!(ETarget ELocName 2 false false),
    place!(ESource ELocURI 1 true false),
    place!(ECred EData 2 true false),
    place!(EChal EMeta 1 true false),
    place!(EMeta EFormat),
    place!(EMetInf EFormat),
    place!(EData EData),
];

#[test]
fn tells_places(rt: HostRuntime) -> Result<(), Fail> {
    for row in &PLACES {
        assert_eq!(rt; place_of(row.parent, row.child), row.place);
    }
    Ok(())
}
