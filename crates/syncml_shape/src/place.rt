// The place of a child in its parent.
ghost use Rattle.std.specs.Prelude.{◌≡◌, ◌+◌, ◌<◌, ◌≤◌, ◌^◌, length, IfSome, IfNone};
ghost use Rattle.syncml_shape.specs.Places.{rows_of as rows_in_table, place_in, child_place as place_by_rows};
ghost use Rattle.syncml_shape.specs.Places.{IsChildPlace};
ghost use Rattle.syncml_shape.specs.Places.{NameNone};

use crate::progress::kind_of;
use crate::rows::{
    ALERT, ATOMIC, BODY, CHAL, CRED, ChildRow, EXEC, HEADER, ITEM, LOC, MESSAGE, PLAIN, RESULTS,
    SEQUENCE, STATUS,
};
use wbxml_tables::Element;

/// A child's place: its row's order, counted from 1, and whether one is required and more may stand there. All members
/// of a bracket have one place.
#[derive(Clone, Copy, Debug, PartialEq, Eq)]
pub struct ChildPlace {
    pub order: u8,
    pub required: bool,
    pub many: bool,
}

fn rows_of(parent: Element) -> &'static [ChildRow]
    ensures { result.now ≡ rows_in_table parent }
{
    match parent {
        Element::ESyncML => &MESSAGE,
        Element::ESyncHdr => &HEADER,
        Element::ESyncBody => &BODY,
        Element::EAdd | Element::ECopy | Element::EDelete | Element::EGet | Element::EReplace =>
            &PLAIN,
        Element::EExec => &EXEC,
        Element::EAlert => &ALERT,
        Element::EAtomic => &ATOMIC,
        Element::ESequence => &SEQUENCE,
        Element::EStatus => &STATUS,
        Element::EResults => &RESULTS,
        Element::EItem => &ITEM,
        Element::ETarget | Element::ESource => &LOC,
        Element::ECred => &CRED,
        Element::EChal => &CHAL,
        _ => &[],
    }
}

fn place_among(rows: &[ChildRow], child: Element) -> Option<ChildPlace>
    requires { length rows.now < 2 ^ 8 }
    ensures { result ≡ place_in 1 rows.now child }
{
    for (at, row) in rows.iter().enumerate() {
        if kind_of(row.choice, child).is_some() {
            return Some(ChildPlace {
                order: at as u8 + 1,
                required: row.required,
                many: row.many,
            });
        }
    }
    None
}

/// The place of a child in its parent; None exactly where the parent's rows don't name it. Elements that hold a text or
/// a number, and Meta and MetInf, have no rows. It takes no memory.
pub fn place_of(parent: Element, child: Element) -> Option<ChildPlace>
    ensures value { result ≡ place_by_rows parent child }
    ensures found { IfSome result (λ place. IsChildPlace (rows_in_table parent) child place) }
    ensures none { IfNone result (NameNone (rows_in_table parent) child) }
{
    place_among(rows_of(parent), child)
}
