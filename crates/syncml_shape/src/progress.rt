// What may still come in an open element.
ghost use Rattle.std.specs.Prelude.{◌≡◌, ◌&&◌, ◌+◌, ◌<◌, ◌≤◌, Some, None, false, length, drop, MatchOption, IfNone};
ghost use Rattle.syncml_shape.specs.Rows.{same, atomic_member, sequence_member, command, kind_in, next_row, meta_place};
ghost use Rattle.syncml_shape.specs.Rows.{after_meta, start as start_of, in_order as of_rows, next_child};
ghost use Rattle.syncml_shape.specs.Rows.{is_complete as may_end, takes_text as has_text, all_optional};
ghost use Rattle.syncml_shape.specs.Progress.{content_of, IsNextChild, IsNextInMeta};
ghost use Rattle.wbxml_tables.specs.declared.Element.TheVariants.{EMetInf};
ghost use Rattle.syncml_shape.specs.declared.rows.TheConstants.{META as META_ROWS};

use crate::rows::{
    ALERT, ATOMIC, BODY, CHAL, CRED, ChildRow, Choice, EXEC, HEADER, ITEM, Kind, LOC, MESSAGE,
    META, MetaRow, PLAIN, RESULTS, SEQUENCE, STATUS,
};
use wbxml_tables::Element;

/// What may still come in an open element.
#[derive(Clone, Copy, Debug)]
pub enum Expected {
    /// Children in the order of rows. `rows` begins with the row of the last child, and `came` says that one of it has
    /// come.
    InOrder {
        came: bool,
        rows: &'static [ChildRow],
    },
    /// The children of a Meta, or of its MetInf.
    InAnyOrder(MetaProgress),
    /// Pieces of text.
    Pieces,
}

/// What may still come in a Meta. `wrap` says that one MetInf may still stand for the rest, and `came` says of each row
/// of the table whether its child has come.
#[derive(Clone, Copy, Debug)]
pub struct MetaProgress {
    pub wrap: bool,
    pub came: [bool; 8],
}

fn atomic_member_of(element: Element) -> Option<Kind>
    ensures { result ≡ atomic_member element }
{
    match element {
        Element::EAdd | Element::ECopy | Element::EDelete | Element::EGet | Element::EReplace =>
            Some(Kind::Plain),
        Element::EAlert => Some(Kind::Alert),
        Element::EExec => Some(Kind::Exec),
        _ => None,
    }
}

fn sequence_member_of(element: Element) -> Option<Kind>
    ensures { result ≡ sequence_member element }
{
    match element {
        Element::EAtomic => Some(Kind::Atomic),
        other => atomic_member_of(other),
    }
}

fn command_of(element: Element) -> Option<Kind>
    ensures { result ≡ command element }
{
    match element {
        Element::EResults => Some(Kind::Results),
        Element::ESequence => Some(Kind::Sequence),
        Element::EStatus => Some(Kind::Status),
        other => sequence_member_of(other),
    }
}

/// What an element holds where a row allows it; None where the row doesn't.
pub fn kind_of(choice: Choice, element: Element) -> Option<Kind>
    ensures { result ≡ kind_in choice element }
{
    match choice {
        Choice::One(one, kind) => { if one == element { Some(kind) } else { None } }
        Choice::Commands => command_of(element),
        Choice::AtomicMembers => atomic_member_of(element),
        Choice::SequenceMembers => sequence_member_of(element),
    }
}

// What the child that comes next holds, and the index of its row.
fn row_of(rows: &[ChildRow], came: bool, element: Element) -> Option<(Kind, usize)>
    ensures { MatchOption result (next_row came rows.now element ≡ None)
        (λ x. (next_row came rows.now element ≡ Some (x.0, drop x.1 rows.now)) × (x.1 < length rows.now)) }
{
    let mut came_here = came;
    for (at, row) in rows.iter().enumerate() {
        if let Some(kind) = kind_of(row.choice, element) {
            if came_here && !row.many {
                return None;
            }
            return Some((kind, at));
        }
        if !came_here && row.required {
            return None;
        }
        came_here = false;
    }
    None
}

// What a child of a Meta holds, and its row, where it hasn't come yet.
fn meta_row_of(rows: &[MetaRow], came: &[bool], element: Element) -> Option<(Kind, usize)>
    requires { length rows.now ≤ length came.now }
    ensures { MatchOption result (meta_place 0 rows.now came.now element ≡ None)
        (λ x. (meta_place 0 rows.now came.now element ≡ Some x) × (x.1 < length rows.now)) }
{
    for (at, row) in rows.iter().enumerate() {
        if row.element == element {
            if came[at] {
                return None;
            }
            return Some((row.kind, at));
        }
    }
    None
}

fn may_wrap(meta: &MetaProgress, element: Element) -> bool
    ensures { result ≡ (meta.now.wrap && same element EMetInf) }
{
    meta.wrap && element == Element::EMetInf
}

// Goes on behind a child of a Meta other than MetInf.
fn next_in_meta(meta: &mut MetaProgress, element: Element) -> Option<Kind>
    ensures found { IsNextInMeta result meta.new
        (after_meta meta.old.came (meta_place 0 META_ROWS meta.old.came element)) }
    ensures none { IfNone result (meta.new ≡ meta.old) }
{
    match meta_row_of(&META, &meta.came, element) {
        None => None,
        Some((kind, at)) => {
            meta.wrap = false;
            meta.came[at] = true;
            Some(kind)
        }
    }
}

fn are_optional(rows: &[ChildRow]) -> bool
    ensures { result ≡ all_optional rows.now }
{
    for row in rows {
        if row.required {
            return false;
        }
    }
    true
}

fn in_order(rows: &'static [ChildRow]) -> Expected
    ensures { content_of result ≡ of_rows false rows.now }
{
    Expected::InOrder { came: false, rows }
}

impl Expected {
    /// What may come in an element that holds this and has just begun.
    pub fn start(kind: Kind) -> Expected
        ensures { content_of result ≡ start_of kind }
    {
        match kind {
            Kind::Message => in_order(&MESSAGE),
            Kind::Header => in_order(&HEADER),
            Kind::Body => in_order(&BODY),
            Kind::Plain => in_order(&PLAIN),
            Kind::Exec => in_order(&EXEC),
            Kind::Alert => in_order(&ALERT),
            Kind::Atomic => in_order(&ATOMIC),
            Kind::Sequence => in_order(&SEQUENCE),
            Kind::Status => in_order(&STATUS),
            Kind::Results => in_order(&RESULTS),
            Kind::Item => in_order(&ITEM),
            Kind::Loc => in_order(&LOC),
            Kind::Cred => in_order(&CRED),
            Kind::Chal => in_order(&CHAL),
            Kind::Meta => Expected::InAnyOrder(MetaProgress {
                wrap: true,
                came: [false; 8],
            }),
            Kind::MetInf => Expected::InAnyOrder(MetaProgress {
                wrap: false,
                came: [false; 8],
            }),
            Kind::Text | Kind::Bytes | Kind::Id | Kind::Code | Kind::Size => Expected::Pieces,
            Kind::Flag => in_order(&[]),
        }
    }

    /// Whether the element may end.
    pub fn is_complete(&self) -> bool
        ensures { result ≡ may_end (content_of self.now) }
    {
        match self {
            Expected::InOrder { came, rows } => match rows {
                [] => true,
                [row, rest @ ..] => (*came || !row.required) && are_optional(rest),
            },
            Expected::InAnyOrder(_) => true,
            Expected::Pieces => true,
        }
    }

    /// Whether a piece of text may come.
    pub fn takes_text(&self) -> bool
        ensures { result ≡ has_text (content_of self.now) }
    {
        match self {
            Expected::Pieces => true,
            _ => false,
        }
    }

    /// Goes on behind a child, and says what it holds. None where it may not come; then nothing is changed. The work is
    /// bounded by the number of rows, and it takes no memory.
    pub fn next(&mut self, element: Element) -> Option<Kind>
        ensures found { IsNextChild result self.new (next_child (content_of self.old) element) }
        ensures none { IfNone result (self.new ≡ self.old) }
    {
        match self {
            Expected::InOrder { came, rows } => match row_of(rows, *came, element) {
                None => None,
                Some((kind, at)) => {
                    *came = true;
                    *rows = &rows[at..];
                    Some(kind)
                }
            },
            Expected::InAnyOrder(meta) => {
                if may_wrap(meta, element) {
                    *self = in_order(&[]);
                    return Some(Kind::MetInf);
                }
                next_in_meta(meta, element)
            }
            Expected::Pieces => None,
        }
    }
}
