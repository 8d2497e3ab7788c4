// Each row of each element's children, in an element of its own: left out, repeated and out of order.
ghost use Rattle.std.specs.Prelude.{◌<◌, length};

use crate::shape::Piece::{self, Bare, End, Open};
use crate::shape::{HEAD, token_of};
use std::alloc::Global;
use std::test::Fail;
use syncml_shape::rows::{
    ALERT, ATOMIC, BODY, CHAL, CRED, EXEC, HEADER, ITEM, LOC, MESSAGE, PLAIN, RESULTS, SEQUENCE,
    STATUS,
};
use syncml_shape::{ChildRow, Choice, Kind, Outline};
use wbxml_tables::Element;
use wbxml_tables::Element::{
    EAdd, EAlert, EAnchor, EArchive, EAtomic, EChal, ECmd, ECmdID, ECmdRef, ECopy, ECred, EData,
    EDelete, EEMI, EExec, EField, EFieldLevel, EFilter, EFilterType, EFreeID, EFreeMem, EGet,
    EItem, ELang, ELast, ELocURI, EMap, EMapItem, EMem, EMeta, EMove, EMsgID, EMsgRef, ENext,
    ENoResults, ENumberOfChanges, EPut, ERecord, EReplace, EResults, ESearch, ESequence,
    ESessionID, ESftDel, ESharedMem, ESource, ESourceParent, EStatus, ESync, ESyncHdr, ESyncML,
    ETarget, ETargetParent, EVerDTD, EVerProto,
};
use wbxml_tokens::{Reason, Stop};

// An element that has just begun, behind the head or from the root on, and the rows of its children.
struct Context {
    in_body: bool,
    front: &'static [Piece],
    rows: &'static [ChildRow],
}

macro_rules! context {
    ($in_body:literal, [$($piece:expr),*], $rows:ident) => {
        Context {
            in_body: $in_body,
            front: &[$($piece),*],
            rows: &$rows,
        }
    };
}

#[rattlefmt::skip]
const CONTEXTS: [Context; 20] = [
    context!(false, [Open(ESyncML)], MESSAGE),
    context!(false, [Open(ESyncML), Open(ESyncHdr)], HEADER),
    context!(false, [Open(ESyncML), Open(ESyncHdr), Bare(EVerDTD), Bare(EVerProto), Bare(ESessionID), Bare(EMsgID),
        Open(ETarget), Bare(ELocURI), End, Open(ESource), Bare(ELocURI), End, Open(ECred)], CRED),
    context!(true, [], BODY),
    context!(true, [Open(EAdd)], PLAIN),
    context!(true, [Open(ECopy)], PLAIN),
    context!(true, [Open(EDelete)], PLAIN),
    context!(true, [Open(EGet)], PLAIN),
    context!(true, [Open(EReplace)], PLAIN),
    context!(true, [Open(EExec)], EXEC),
    context!(true, [Open(EAlert)], ALERT),
    context!(true, [Open(EAtomic)], ATOMIC),
    context!(true, [Open(ESequence)], SEQUENCE),
    context!(true, [Open(ESequence), Bare(ECmdID), Open(EAtomic)], ATOMIC),
    context!(true, [Open(EStatus)], STATUS),
    context!(true, [Open(EResults)], RESULTS),
    context!(true, [Open(EGet), Bare(ECmdID), Open(EItem)], ITEM),
    context!(true, [Open(EGet), Bare(ECmdID), Open(EItem), Open(ETarget)], LOC),
    context!(true, [Open(EGet), Bare(ECmdID), Open(EItem), Open(ESource)], LOC),
    context!(true, [Open(EStatus), Bare(ECmdID), Bare(EMsgRef), Bare(ECmdRef), Bare(ECmd), Open(EChal)], CHAL),
];

// A header and a body at their least.
#[rattlefmt::skip]
const LEAST_HEADER: [Piece; 10] = [
    Bare(EVerDTD), Bare(EVerProto), Bare(ESessionID), Bare(EMsgID), Open(ETarget), Bare(ELocURI), End,
    Open(ESource), Bare(ELocURI), End,
];

#[rattlefmt::skip]
const LEFT_OUT: [Element; 26] = [
    EAnchor, EArchive, EEMI, EField, EFieldLevel, EFilter, EFilterType, EFreeID, EFreeMem, ELang, ELast, EMap, EMapItem,
    EMem, EMove, ENext, ENoResults, ENumberOfChanges, EPut, ERecord, ESearch, ESftDel, ESharedMem, ESourceParent, ESync,
    ETargetParent,
];

// An element of a row.
fn element_in(choice: Choice) -> Element {
    match choice {
        Choice::One(element, _) => element,
        _ => EAlert,
    }
}

// The least that stands in an element of a row.
fn least_in(choice: Choice) -> &'static [Piece] {
    match choice {
        Choice::One(_, Kind::Header) => &LEAST_HEADER,
        Choice::One(_, Kind::Item) => &[],
        Choice::One(_, Kind::Loc) => &[Bare(ELocURI)],
        Choice::One(_, Kind::Cred) => &[Bare(EData)],
        Choice::One(_, Kind::Chal) => &[Bare(EMeta)],
        Choice::One(_, _) => &[],
        _ => &[Bare(ECmdID), Bare(EData)],
    }
}

fn take_all(outline: &mut Outline, alloc: Global, pieces: &[Piece]) -> bool {
    for piece in pieces {
        if outline.take(&token_of(alloc, *piece)).is_err() {
            return false;
        }
    }
    true
}

fn take_child(outline: &mut Outline, alloc: Global, row: &ChildRow) -> bool {
    take_all(outline, alloc, &[Open(element_in(row.choice))])
        && take_all(outline, alloc, least_in(row.choice))
        && take_all(outline, alloc, &[End])
}

fn take_required(outline: &mut Outline, alloc: Global, rows: &[ChildRow]) -> bool {
    for row in rows {
        if row.required && !take_child(outline, alloc, row) {
            return false;
        }
    }
    true
}

fn begin(alloc: Global, context: &Context) -> Outline {
    let mut outline = Outline::new(alloc);
    if context.in_body {
        let _ = take_all(&mut outline, alloc, &HEAD);
    }
    let _ = take_all(&mut outline, alloc, context.front);
    outline
}

fn is_misplaced(outline: &mut Outline, alloc: Global, piece: Piece) -> bool {
    matches!(
        outline.take(&token_of(alloc, piece)),
        Err(Stop::Refused(Reason::Misplaced))
    )
}

fn may_end(outline: &mut Outline, alloc: Global, rows: &[ChildRow]) -> bool {
    take_required(outline, alloc, rows) && take_all(outline, alloc, &[End])
}

// Where what is required before this row stands, neither END nor what comes behind it is taken.
fn needs_row(outline: &mut Outline, alloc: Global, rows: &[ChildRow], at: usize) -> bool
    requires { at < length rows.now }
{
    take_required(outline, alloc, &rows[..at])
        && is_misplaced(outline, alloc, End)
        && !takes_any(outline, alloc, &rows[at + 1..])
}

// With all that is required it may end; without one of these, neither END nor what is required behind it may come.
fn needs_its_children(alloc: Global, context: &Context) -> bool {
    let mut whole = begin(alloc, context);
    let mut holds = may_end(&mut whole, alloc, context.rows);
    for (at, row) in context.rows.iter().enumerate() {
        let mut outline = begin(alloc, context);
        if row.required {
            holds = needs_row(&mut outline, alloc, context.rows, at) && holds;
        }
    }
    holds
}

fn takes_any(outline: &mut Outline, alloc: Global, rows: &[ChildRow]) -> bool {
    for row in rows {
        if !is_misplaced(outline, alloc, Open(element_in(row.choice))) {
            return true;
        }
    }
    false
}

// A second child of a row is taken exactly where the row has many.
fn repeats(outline: &mut Outline, alloc: Global, before: &[ChildRow], row: &ChildRow) -> bool {
    take_required(outline, alloc, before)
        && take_child(outline, alloc, row)
        && take_child(outline, alloc, row) == row.many
}

fn repeats_by_its_rows(alloc: Global, context: &Context) -> bool {
    let mut holds = true;
    for (at, row) in context.rows.iter().enumerate() {
        let mut outline = begin(alloc, context);
        holds = repeats(&mut outline, alloc, &context.rows[..at], row) && holds;
    }
    holds
}

// Behind a child of a row none of the row before it comes.
fn keeps_behind(outline: &mut Outline, alloc: Global, before: &[ChildRow], row: &ChildRow) -> bool {
    match before.last() {
        None => true,
        Some(last) => {
            take_required(outline, alloc, before)
                && take_child(outline, alloc, row)
                && is_misplaced(outline, alloc, Open(element_in(last.choice)))
        }
    }
}

fn keeps_the_order(alloc: Global, context: &Context) -> bool {
    let mut holds = true;
    for (at, row) in context.rows.iter().enumerate() {
        let mut outline = begin(alloc, context);
        holds = keeps_behind(&mut outline, alloc, &context.rows[..at], row) && holds;
    }
    holds
}

// An element that is left out is told as such wherever it stands, bare or not.
fn leaves_out(alloc: Global, context: &Context) -> bool {
    let mut outline = begin(alloc, context);
    let mut holds = true;
    for element in &LEFT_OUT {
        holds = is_left_out(&mut outline, alloc, Open(*element))
            && is_left_out(&mut outline, alloc, Bare(*element))
            && holds;
    }
    holds
}

fn is_left_out(outline: &mut Outline, alloc: Global, piece: Piece) -> bool {
    matches!(
        outline.take(&token_of(alloc, piece)),
        Err(Stop::Refused(Reason::Leftout))
    )
}

#[test]
fn leaves_elements_out(rt: HostRuntime) -> Result<(), Fail> {
    for context in &CONTEXTS {
        assert!(rt; leaves_out(rt.alloc(), context));
    }
    Ok(())
}

#[test]
fn needs_what_is_required(rt: HostRuntime) -> Result<(), Fail> {
    for context in &CONTEXTS {
        assert!(rt; needs_its_children(rt.alloc(), context));
    }
    Ok(())
}

#[test]
fn repeats_what_is_many(rt: HostRuntime) -> Result<(), Fail> {
    for context in &CONTEXTS {
        assert!(rt; repeats_by_its_rows(rt.alloc(), context));
    }
    Ok(())
}

#[test]
fn keeps_the_order_of_rows(rt: HostRuntime) -> Result<(), Fail> {
    for context in &CONTEXTS {
        assert!(rt; keeps_the_order(rt.alloc(), context));
    }
    Ok(())
}
