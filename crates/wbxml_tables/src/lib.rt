//! The code pages of SyncML 1.2: the elements that tags stand for.
#![tactic(auto)]

ghost use Rattle.std.specs.Prelude.{◌≡◌, true, IfSome, IfNone};
ghost use Rattle.wbxml_tables.specs.declared.Element.{Element};
ghost use Rattle.wbxml_tables.specs.declared.TheConstants as table;
ghost use Rattle.wbxml_tables.specs.Tables.{page_of, code_on_page, name_in_text, element_at, is_absent, are_distinct};
ghost use Rattle.wbxml_tables.specs.Tables.{HasCode, CodesAreDistinct, are_on_page};

/// An element of the representation protocol (page 0) or of the meta information (page 1), named with an E in front.
/// Its number is 256 times its page, plus its code on that page.
#[derive(Clone, Copy, Debug, PartialEq, Eq)]
pub enum Element {
    EAdd = 0x005,
    EAlert = 0x006,
    EArchive = 0x007,
    EAtomic = 0x008,
    EChal = 0x009,
    ECmd = 0x00a,
    ECmdID = 0x00b,
    ECmdRef = 0x00c,
    ECopy = 0x00d,
    ECred = 0x00e,
    EData = 0x00f,
    EDelete = 0x010,
    EExec = 0x011,
    EFinal = 0x012,
    EGet = 0x013,
    EItem = 0x014,
    ELang = 0x015,
    ELocName = 0x016,
    ELocURI = 0x017,
    EMap = 0x018,
    EMapItem = 0x019,
    EMeta = 0x01a,
    EMsgID = 0x01b,
    EMsgRef = 0x01c,
    ENoResp = 0x01d,
    ENoResults = 0x01e,
    EPut = 0x01f,
    EReplace = 0x020,
    ERespURI = 0x021,
    EResults = 0x022,
    ESearch = 0x023,
    ESequence = 0x024,
    ESessionID = 0x025,
    ESftDel = 0x026,
    ESource = 0x027,
    ESourceRef = 0x028,
    EStatus = 0x029,
    ESync = 0x02a,
    ESyncBody = 0x02b,
    ESyncHdr = 0x02c,
    ESyncML = 0x02d,
    ETarget = 0x02e,
    ETargetRef = 0x02f,
    EVerDTD = 0x031,
    EVerProto = 0x032,
    ENumberOfChanges = 0x033,
    EMoreData = 0x034,
    EField = 0x035,
    EFilter = 0x036,
    ERecord = 0x037,
    EFilterType = 0x038,
    ESourceParent = 0x039,
    ETargetParent = 0x03a,
    EMove = 0x03b,
    ECorrelator = 0x03c,
    EAnchor = 0x105,
    EEMI = 0x106,
    EFormat = 0x107,
    EFreeID = 0x108,
    EFreeMem = 0x109,
    ELast = 0x10a,
    EMark = 0x10b,
    EMaxMsgSize = 0x10c,
    EMem = 0x10d,
    EMetInf = 0x10e,
    ENext = 0x10f,
    ENextNonce = 0x110,
    ESharedMem = 0x111,
    ESize = 0x112,
    EType = 0x113,
    EVersion = 0x114,
    EMaxObjSize = 0x115,
    EFieldLevel = 0x116,
}

/// A row of a code page.
#[derive(Clone, Copy, Debug, PartialEq, Eq)]
pub struct CodeRow {
    pub page: u8,
    pub code: u8,
    pub element: Element,
}

/// A code page of `N` elements.
pub struct Table<const N: usize> {
    pub rows: [CodeRow; N],
}

// Whether no row has this page and code.
fn is_free(page: u8, code: u8, rows: &[CodeRow]) -> bool
    ensures { result ≡ is_absent page code rows.now }
{
    for row in rows {
        if row.page == page && row.code == code {
            return false;
        }
    }
    true
}

impl<const N: usize> Table<N> {
    /// Whether no two rows have the same page and code. The work grows with the square of `N`.
    pub fn has_distinct_codes(&self) -> bool
        ensures { result ≡ are_distinct self.now.rows }
    {
        let mut rows = self.rows.as_slice();
        while let [row, rest @ ..] = rows {
            if !is_free(row.page, row.code, rest) {
                return false;
            }
            rows = rest;
        }
        true
    }
}

/// The page of an element, which is 0 or 1, and its code on that page, which is from 05 to 3C.
#[inline(always)]
pub fn code_of(element: Element) -> (u8, u8)
    ensures page { result.0 ≡ page_of element }
    ensures code { result.1 ≡ code_on_page element }
{
    let number = element as u16;
    ((number / 256) as u8, (number % 256) as u8)
}

// Each element once, with its page, its code and its name: the rows of page 0 and those of page 1. The tables and the
// arms of both matches below are made of these rows, so that no element has a row in one and none in the other.
macro_rules! rows {
    ($arms:ident, $value:expr) => {
        $arms! {
            $value;
            {
                0 0x05 EAdd "Add";
                0 0x06 EAlert "Alert";
                0 0x07 EArchive "Archive";
                0 0x08 EAtomic "Atomic";
                0 0x09 EChal "Chal";
                0 0x0a ECmd "Cmd";
                0 0x0b ECmdID "CmdID";
                0 0x0c ECmdRef "CmdRef";
                0 0x0d ECopy "Copy";
                0 0x0e ECred "Cred";
                0 0x0f EData "Data";
                0 0x10 EDelete "Delete";
                0 0x11 EExec "Exec";
                0 0x12 EFinal "Final";
                0 0x13 EGet "Get";
                0 0x14 EItem "Item";
                0 0x15 ELang "Lang";
                0 0x16 ELocName "LocName";
                0 0x17 ELocURI "LocURI";
                0 0x18 EMap "Map";
                0 0x19 EMapItem "MapItem";
                0 0x1a EMeta "Meta";
                0 0x1b EMsgID "MsgID";
                0 0x1c EMsgRef "MsgRef";
                0 0x1d ENoResp "NoResp";
                0 0x1e ENoResults "NoResults";
                0 0x1f EPut "Put";
                0 0x20 EReplace "Replace";
                0 0x21 ERespURI "RespURI";
                0 0x22 EResults "Results";
                0 0x23 ESearch "Search";
                0 0x24 ESequence "Sequence";
                0 0x25 ESessionID "SessionID";
                0 0x26 ESftDel "SftDel";
                0 0x27 ESource "Source";
                0 0x28 ESourceRef "SourceRef";
                0 0x29 EStatus "Status";
                0 0x2a ESync "Sync";
                0 0x2b ESyncBody "SyncBody";
                0 0x2c ESyncHdr "SyncHdr";
                0 0x2d ESyncML "SyncML";
                0 0x2e ETarget "Target";
                0 0x2f ETargetRef "TargetRef";
                0 0x31 EVerDTD "VerDTD";
                0 0x32 EVerProto "VerProto";
                0 0x33 ENumberOfChanges "NumberOfChanges";
                0 0x34 EMoreData "MoreData";
                0 0x35 EField "Field";
                0 0x36 EFilter "Filter";
                0 0x37 ERecord "Record";
                0 0x38 EFilterType "FilterType";
                0 0x39 ESourceParent "SourceParent";
                0 0x3a ETargetParent "TargetParent";
                0 0x3b EMove "Move";
                0 0x3c ECorrelator "Correlator";
            }
            {
                1 0x05 EAnchor "Anchor";
                1 0x06 EEMI "EMI";
                1 0x07 EFormat "Format";
                1 0x08 EFreeID "FreeID";
                1 0x09 EFreeMem "FreeMem";
                1 0x0a ELast "Last";
                1 0x0b EMark "Mark";
                1 0x0c EMaxMsgSize "MaxMsgSize";
                1 0x0d EMem "Mem";
                1 0x0e EMetInf "MetInf";
                1 0x0f ENext "Next";
                1 0x10 ENextNonce "NextNonce";
                1 0x11 ESharedMem "SharedMem";
                1 0x12 ESize "Size";
                1 0x13 EType "Type";
                1 0x14 EVersion "Version";
                1 0x15 EMaxObjSize "MaxObjSize";
                1 0x16 EFieldLevel "FieldLevel";
            }
        }
    };
}

macro_rules! element_arms {
    ($value:expr;
        { $($page:literal $code:literal $element:ident $name:literal;)* }
        { $($page_1:literal $code_1:literal $element_1:ident $name_1:literal;)* }
    ) => {
        match $value {
            $(($page, $code) => Some(Element::$element),)*
            $(($page_1, $code_1) => Some(Element::$element_1),)*
            _ => None,
        }
    };
}

macro_rules! name_arms {
    ($value:expr;
        { $($page:literal $code:literal $element:ident $name:literal;)* }
        { $($page_1:literal $code_1:literal $element_1:ident $name_1:literal;)* }
    ) => {
        match $value {
            $(Element::$element => $name,)*
            $(Element::$element_1 => $name_1,)*
        }
    };
}

macro_rules! table_of_page_0 {
    ($value:expr; { $($page:literal $code:literal $element:ident $name:literal;)* } { $($rest:tt)* }) => {
        Table {
            rows: [$(CodeRow {
                page: $page,
                code: $code,
                element: Element::$element,
            }),*],
        }
    };
}

macro_rules! table_of_page_1 {
    ($value:expr; { $($rest:tt)* } { $($page:literal $code:literal $element:ident $name:literal;)* }) => {
        Table {
            rows: [$(CodeRow {
                page: $page,
                code: $code,
                element: Element::$element,
            }),*],
        }
    };
}

/// The code page of the representation protocol, page 0.
pub const PROTOCOL: Table<55> = rows!(table_of_page_0, ());

/// The code page of the meta information, page 1.
pub const META: Table<18> = rows!(table_of_page_1, ());

// The element whose page and code these are.
fn row_of(page: u8, code: u8) -> Option<Element>
    ensures found { IfSome result (λ e. HasCode page code e) }
    ensures none { IfNone result ((e : Element) → HasCode page code e → ⊥) }
{
    rows!(element_arms, (page, code))
}

/// The element of a code on a page. None comes exactly where no element has that code there, so on each page but 0 and
/// 1.
#[tactic(auto, using(crate::proofs::Rows::same_row))]
pub fn element_of(page: u8, code: u8) -> Option<Element>
    ensures row { result ≡ element_at page code }
    ensures found { IfSome result (λ e. HasCode page code e) }
    ensures none { IfNone result ((e : Element) → HasCode page code e → ⊥) }
{
    row_of(page, code)
}

/// The name of an element in SyncML 1.2, as it stands between the brackets of a tag.
pub fn name_of(element: Element) -> &'static str
    ensures { result.now ≡ name_in_text element }
{
    rows!(name_arms, element)
}

/// Law: no two rows of a table have the same page and code.
pub fn tables_are_distinct()
    ensures protocol { are_distinct table.PROTOCOL.rows ≡ true }
    ensures meta { are_distinct table.META.rows ≡ true }
{}

/// Law: each row of a table has the table's page.
pub fn tables_have_their_pages()
    ensures protocol { are_on_page 0 table.PROTOCOL.rows ≡ true }
    ensures meta { are_on_page 1 table.META.rows ≡ true }
{}

/// Law: no two elements have the same code on the same page. So `element_of`, called with the codes that `code_of`
/// answers for an element, answers that element.
pub fn codes_are_distinct()
    ensures { CodesAreDistinct }
{}
