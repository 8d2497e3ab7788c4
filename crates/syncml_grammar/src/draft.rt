// What elements with children hold, as their children come.
ghost use Rattle.std.specs.Prelude.{◌≡◌, IfOk, option_map};
ghost use Rattle.syncml_grammar.specs.declared.draft.Draft.TheVariants as draft;
ghost use Rattle.syncml_grammar.specs.Values.{of_draft};
ghost use Rattle.syncml_grammar.specs.Reads.{parts_from, parts_held};
ghost use Rattle.syncml_grammar.specs.Opens.{parts_from_whole};
ghost use Rattle.syncml_grammar.specs.Drafts.{no_item, no_loc, no_header, no_message, no_body, no_cred, no_plain};
ghost use Rattle.syncml_grammar.specs.Drafts.{no_alert, no_block, no_status, no_results, verb_of, fresh_draft};

use dm_base::{Boxed, Bytes, List};
use std::alloc::Global;
use syncml_types::{
    AlertCmd, Block, Command, Cred, Header, Item, Loc, Member, Meta, Plain, ResultsCmd, SeqMember,
    StatusCmd, Verb,
};
use wbxml_tables::Element;

/// The children of a SyncBody so far.
#[derive(Drop)]
pub struct BodyDraft {
    pub commands: List<Command>,
    pub last: bool,
}

/// The children of a SyncML so far.
#[derive(Drop)]
pub struct MessageDraft {
    pub header: Option<Boxed<Header>>,
    pub body: List<Command>,
    pub last: bool,
}

/// The parts of a whole message.
#[derive(Drop)]
pub struct WholeParts {
    pub header: Boxed<Header>,
    pub body: List<Command>,
    pub last: bool,
}

impl MessageDraft {
    /// The parts, where there is a header.
    pub(crate) fn into_parts(self) -> Option<WholeParts>
        ensures { option_map parts_from_whole result ≡ parts_from self self.header }
    {
        let MessageDraft { header, body, last } = self;
        match header {
            None => None,
            Some(header) => Some(WholeParts { header, body, last }),
        }
    }
}

/// What has been read of an element with children. Each stands in a box, so that only a pointer is moved where its
/// element opens and ends.
#[derive(Drop)]
pub enum Draft {
    /// A document before its SyncML.
    Document,
    Message(Boxed<MessageDraft>),
    Header(Boxed<Header>),
    Body(Boxed<BodyDraft>),
    Plain(Boxed<Plain>),
    Alert(Boxed<AlertCmd>),
    Atomic(Boxed<Block<Member>>),
    Sequence(Boxed<Block<SeqMember>>),
    Status(Boxed<StatusCmd>),
    Results(Boxed<ResultsCmd>),
    Item(Boxed<Item>),
    Loc(Boxed<Loc>),
    Cred(Boxed<Cred>),
    Chal(Boxed<Meta>),
    Meta(Boxed<Meta>),
}

impl Draft {
    /// The parts of a message that has ended.
    pub(crate) fn into_parts(self) -> Option<WholeParts>
        ensures { option_map parts_from_whole result ≡ parts_held (of_draft self) }
    {
        match self {
            Draft::Message(message) => message.into_inner().into_parts(),
            other => {
                drop(other);
                None
            }
        }
    }
}

pub(crate) fn new_loc(alloc: Global) -> Loc
    ensures { result ≡ no_loc }
{
    Loc {
        uri: Bytes::new(alloc),
        name: None,
    }
}

pub(crate) fn new_item() -> Item
    ensures { result ≡ no_item }
{
    Item {
        target: None,
        source: None,
        meta: None,
        value: None,
        more: false,
    }
}

pub(crate) fn new_header(alloc: Global) -> Header
    ensures { result ≡ no_header }
{
    Header {
        dtd: Bytes::new(alloc),
        proto: Bytes::new(alloc),
        session: Bytes::new(alloc),
        msg: 0,
        target: new_loc(alloc),
        source: new_loc(alloc),
        resp_uri: None,
        no_resp: false,
        cred: None,
        meta: None,
    }
}

pub(crate) fn new_message(alloc: Global) -> MessageDraft
    ensures { result ≡ no_message }
{
    MessageDraft {
        header: None,
        body: List::new(alloc),
        last: false,
    }
}

pub(crate) fn new_body(alloc: Global) -> BodyDraft
    ensures { result ≡ no_body }
{
    BodyDraft {
        commands: List::new(alloc),
        last: false,
    }
}

pub(crate) fn new_cred(alloc: Global) -> Cred
    ensures { result ≡ no_cred }
{
    Cred {
        meta: None,
        value: Bytes::new(alloc),
    }
}

// The verb of a command's element. Other elements than these aren't asked for.
pub(crate) fn verb_named(element: Element) -> Verb
    ensures { result ≡ verb_of element }
{
    match element {
        Element::EAdd => Verb::Add,
        Element::ECopy => Verb::Copy,
        Element::EDelete => Verb::Delete,
        Element::EExec => Verb::Exec,
        Element::EGet => Verb::Get,
        _ => Verb::Replace,
    }
}

pub(crate) fn new_plain(alloc: Global, verb: Verb) -> Plain
    ensures { result ≡ no_plain verb }
{
    Plain {
        verb,
        id: 0,
        no_resp: false,
        meta: None,
        correlator: None,
        items: List::new(alloc),
    }
}

pub(crate) fn new_alert(alloc: Global) -> AlertCmd
    ensures { result ≡ no_alert }
{
    AlertCmd {
        id: 0,
        no_resp: false,
        code: 0,
        correlator: None,
        items: List::new(alloc),
    }
}

pub(crate) fn new_block<M>(alloc: Global) -> Block<M>
    ensures { result ≡ no_block }
{
    Block {
        id: 0,
        no_resp: false,
        meta: None,
        members: List::new(alloc),
    }
}

pub(crate) fn new_status(alloc: Global) -> StatusCmd
    ensures { result ≡ no_status }
{
    StatusCmd {
        id: 0,
        msg_ref: 0,
        cmd_ref: 0,
        cmd: Bytes::new(alloc),
        target_refs: List::new(alloc),
        source_refs: List::new(alloc),
        chal: None,
        code: 0,
        items: List::new(alloc),
    }
}

pub(crate) fn new_results(alloc: Global) -> ResultsCmd
    ensures { result ≡ no_results }
{
    ResultsCmd {
        id: 0,
        msg_ref: None,
        cmd_ref: 0,
        meta: None,
        target_ref: None,
        source_ref: None,
        items: List::new(alloc),
    }
}
