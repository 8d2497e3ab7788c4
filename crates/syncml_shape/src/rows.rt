// The children of each element: the one table of the code, which a law holds to that of the definitions.
use wbxml_tables::Element;

/// What an element holds. It depends on the element and its parent: Data in an Item holds bytes, in an Alert a number.
#[derive(Clone, Copy, Debug, PartialEq, Eq)]
pub enum Kind {
    /// A whole message: SyncML.
    Message,
    Header,
    Body,
    /// A command with items: Add, Copy, Delete, Get, Replace.
    Plain,
    Exec,
    Alert,
    Atomic,
    Sequence,
    Status,
    Results,
    Item,
    /// A place: Target, Source.
    Loc,
    Cred,
    Chal,
    Meta,
    MetInf,
    /// UTF-8 without byte 00.
    Text,
    /// Any bytes.
    Bytes,
    /// A decimal number from 1 to 4,294,967,295.
    Id,
    /// A decimal number from 0 to 4,294,967,295.
    Code,
    /// A decimal number from 0 to 18,446,744,073,709,551,615.
    Size,
    /// Nothing: the element's being there is all.
    Flag,
}

/// The elements that one row allows.
#[derive(Clone, Copy, Debug, PartialEq, Eq)]
pub enum Choice {
    /// This element, which holds this there.
    One(Element, Kind),
    /// Any command of a body.
    Commands,
    /// Any command of an Atomic.
    AtomicMembers,
    /// Any command of a Sequence.
    SequenceMembers,
}

/// One row of an element's children, which stand in the order of its rows.
#[derive(Clone, Copy, Debug, PartialEq, Eq)]
pub struct ChildRow {
    pub choice: Choice,
    /// At least one is needed.
    pub required: bool,
    /// More than one may stand there, one after the other.
    pub many: bool,
}

/// A child of a Meta, and what it holds.
#[derive(Clone, Copy, Debug, PartialEq, Eq)]
pub struct MetaRow {
    pub element: Element,
    pub kind: Kind,
}

// One row as the grammar writes it: `?` at most once, `*` any number, `+` at least once, else once.
macro_rules! row {
    ($element:ident: $kind:ident) => {
        row!(Choice::One(Element::$element, Kind::$kind), true, false)
    };
    ($element:ident?: $kind:ident) => {
        row!(Choice::One(Element::$element, Kind::$kind), false, false)
    };
    ($element:ident*: $kind:ident) => {
        row!(Choice::One(Element::$element, Kind::$kind), false, true)
    };
    ($element:ident+: $kind:ident) => {
        row!(Choice::One(Element::$element, Kind::$kind), true, true)
    };
    ([$choice:ident]*) => {
        row!(Choice::$choice, false, true)
    };
    ([$choice:ident]+) => {
        row!(Choice::$choice, true, true)
    };
    ($choice:expr, $required:literal, $many:literal) => {
        ChildRow {
            choice: $choice,
            required: $required,
            many: $many,
        }
    };
}

/// What a document holds.
pub const DOCUMENT: [ChildRow; 1] = [row!(ESyncML: Message)];

/// The children of SyncML.
pub const MESSAGE: [ChildRow; 2] = [row!(ESyncHdr: Header), row!(ESyncBody: Body)];

/// The children of SyncHdr.
pub const HEADER: [ChildRow; 10] = [
    row!(EVerDTD: Text),
    row!(EVerProto: Text),
    row!(ESessionID: Text),
    row!(EMsgID: Id),
    row!(ETarget: Loc),
    row!(ESource: Loc),
    row!(ERespURI?: Text),
    row!(ENoResp?: Flag),
    row!(ECred?: Cred),
    row!(EMeta?: Meta),
];

/// The children of SyncBody.
pub const BODY: [ChildRow; 2] = [row!([Commands]*), row!(EFinal?: Flag)];

/// The children of Add, Copy, Delete, Get and Replace.
pub const PLAIN: [ChildRow; 4] = [
    row!(ECmdID: Id),
    row!(ENoResp?: Flag),
    row!(EMeta?: Meta),
    row!(EItem+: Item),
];

/// The children of Exec.
pub const EXEC: [ChildRow; 5] = [
    row!(ECmdID: Id),
    row!(ENoResp?: Flag),
    row!(EMeta?: Meta),
    row!(ECorrelator?: Text),
    row!(EItem: Item),
];

/// The children of Alert.
pub const ALERT: [ChildRow; 5] = [
    row!(ECmdID: Id),
    row!(ENoResp?: Flag),
    row!(EData: Code),
    row!(ECorrelator?: Text),
    row!(EItem*: Item),
];

/// The children of Atomic.
pub const ATOMIC: [ChildRow; 4] = [
    row!(ECmdID: Id),
    row!(ENoResp?: Flag),
    row!(EMeta?: Meta),
    row!([AtomicMembers]+),
];

/// The children of Sequence.
pub const SEQUENCE: [ChildRow; 4] = [
    row!(ECmdID: Id),
    row!(ENoResp?: Flag),
    row!(EMeta?: Meta),
    row!([SequenceMembers]+),
];

/// The children of Status.
pub const STATUS: [ChildRow; 9] = [
    row!(ECmdID: Id),
    row!(EMsgRef: Id),
    row!(ECmdRef: Code),
    row!(ECmd: Text),
    row!(ETargetRef*: Text),
    row!(ESourceRef*: Text),
    row!(EChal?: Chal),
    row!(EData: Code),
    row!(EItem*: Item),
];

/// The children of Results.
pub const RESULTS: [ChildRow; 7] = [
    row!(ECmdID: Id),
    row!(EMsgRef?: Id),
    row!(ECmdRef: Code),
    row!(EMeta?: Meta),
    row!(ETargetRef?: Text),
    row!(ESourceRef?: Text),
    row!(EItem+: Item),
];

/// The children of Item.
pub const ITEM: [ChildRow; 5] = [
    row!(ETarget?: Loc),
    row!(ESource?: Loc),
    row!(EMeta?: Meta),
    row!(EData?: Bytes),
    row!(EMoreData?: Flag),
];

/// The children of Target and Source.
pub const LOC: [ChildRow; 2] = [row!(ELocURI: Text), row!(ELocName?: Text)];

/// The children of Cred.
pub const CRED: [ChildRow; 2] = [row!(EMeta?: Meta), row!(EData: Bytes)];

/// The children of Chal.
pub const CHAL: [ChildRow; 1] = [row!(EMeta: Meta)];

macro_rules! meta_row {
    ($element:ident: $kind:ident) => {
        MetaRow {
            element: Element::$element,
            kind: Kind::$kind,
        }
    };
}

/// The children of Meta, or of the one MetInf in it: in any order, each at most once.
pub const META: [MetaRow; 8] = [
    meta_row!(EFormat: Text),
    meta_row!(EType: Text),
    meta_row!(ESize: Size),
    meta_row!(ENextNonce: Text),
    meta_row!(EMaxMsgSize: Size),
    meta_row!(EMaxObjSize: Size),
    meta_row!(EMark: Text),
    meta_row!(EVersion: Text),
];
