// The commands of a message's body. `id` is a CmdID, which is 1 or more.
use crate::values::{Item, Meta};
use dm_base::{Boxed, Bytes, List};

/// The verbs of the commands on the management tree.
#[derive(Clone, Copy, Debug, PartialEq, Eq)]
pub enum Verb {
    Add,
    Copy,
    Delete,
    Exec,
    Get,
    Replace,
}

/// A command on the management tree. Only an Exec has a correlator.
#[derive(Drop)]
pub struct Plain {
    pub verb: Verb,
    pub id: u32,
    pub no_resp: bool,
    pub meta: Option<Boxed<Meta>>,
    pub correlator: Option<Bytes>,
    pub items: List<Item>,
}

/// An Alert and its code, as 1201.
#[derive(Drop)]
pub struct AlertCmd {
    pub id: u32,
    pub no_resp: bool,
    pub code: u32,
    pub correlator: Option<Bytes>,
    pub items: List<Item>,
}

/// A command on the management tree or an Alert, in a container.
#[derive(Drop)]
pub enum Member {
    One(Plain),
    Alert(AlertCmd),
}

/// A container: an Atomic of `Member`s, or a Sequence of `SeqMember`s. Its Meta isn't handed to its members.
#[derive(Drop)]
pub struct Block<M> {
    pub id: u32,
    pub no_resp: bool,
    pub meta: Option<Boxed<Meta>>,
    pub members: List<M>,
}

/// A member of a Sequence.
#[derive(Drop)]
pub enum SeqMember {
    Single(Member),
    Atomic(Block<Member>),
}

/// The answer to the command `cmd_ref` of the message `msg_ref`; 0 stands for that message's header. Statuses wait in
/// great numbers, so the four numbers stand together, where they leave no room unused.
#[derive(Drop)]
pub struct StatusCmd {
    pub id: u32,
    pub msg_ref: u32,
    pub cmd_ref: u32,
    pub code: u32,
    pub cmd: Bytes,
    pub target_refs: List<Bytes>,
    pub source_refs: List<Bytes>,
    pub chal: Option<Boxed<Meta>>,
    pub items: List<Item>,
}

/// What a Get found.
#[derive(Drop)]
pub struct ResultsCmd {
    pub id: u32,
    pub msg_ref: Option<u32>,
    pub cmd_ref: u32,
    pub meta: Option<Boxed<Meta>>,
    pub target_ref: Option<Bytes>,
    pub source_ref: Option<Bytes>,
    pub items: List<Item>,
}

/// A command of a body.
#[derive(Drop)]
pub enum Command {
    Plain(Plain),
    Alert(AlertCmd),
    Atomic(Block<Member>),
    Sequence(Block<SeqMember>),
    Status(StatusCmd),
    Results(ResultsCmd),
}

/// One command on one node, as it is run: the command of one item. An item without Data gives the empty `value`.
#[derive(Drop)]
pub struct Step {
    pub verb: Verb,
    pub target: Option<Bytes>,
    pub format: Option<Bytes>,
    pub media: Option<Bytes>,
    pub value: Bytes,
    pub correlator: Option<Bytes>,
    pub in_atomic: bool,
}
