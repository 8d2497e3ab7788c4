// Copies, each equal to what it copies.
ghost use Rattle.std.specs.Prelude.{◌≡◌, IfOk};

use crate::command::{AlertCmd, Block, Command, Member, Plain, ResultsCmd, SeqMember, StatusCmd};
use crate::values::{Cred, Header, Item, Loc, Meta};
use dm_base::{Boxed, Bytes, List, Memory};
use std::alloc::Global;

/// An equal copy of bytes that may be left out.
pub fn copy_bytes(alloc: Global, bytes: &Option<Bytes>) -> Result<Option<Bytes>, Memory>
    ensures { IfOk result (λ copied. copied ≡ bytes.now) }
{
    match bytes {
        None => Ok(None),
        Some(bytes) => Ok(Some(bytes.copy(alloc)?)),
    }
}

impl Loc {
    /// An equal place.
    pub fn copy(&self, alloc: Global) -> Result<Loc, Memory>
        ensures { IfOk result (λ copied. copied ≡ self.now) }
    {
        Ok(Loc {
            uri: self.uri.copy(alloc)?,
            name: copy_bytes(alloc, &self.name)?,
        })
    }
}

fn copy_loc(alloc: Global, loc: &Option<Loc>) -> Result<Option<Loc>, Memory>
    ensures { IfOk result (λ copied. copied ≡ loc.now) }
{
    match loc {
        None => Ok(None),
        Some(loc) => Ok(Some(loc.copy(alloc)?)),
    }
}

impl Meta {
    /// Equal meta information.
    pub fn copy(&self, alloc: Global) -> Result<Meta, Memory>
        ensures { IfOk result (λ copied. copied ≡ self.now) }
    {
        Ok(Meta {
            format: copy_bytes(alloc, &self.format)?,
            media: copy_bytes(alloc, &self.media)?,
            size: self.size,
            next_nonce: copy_bytes(alloc, &self.next_nonce)?,
            max_msg: self.max_msg,
            max_obj: self.max_obj,
            mark: copy_bytes(alloc, &self.mark)?,
            version: copy_bytes(alloc, &self.version)?,
        })
    }
}

fn copy_meta(alloc: Global, meta: &Option<Boxed<Meta>>) -> Result<Option<Boxed<Meta>>, Memory>
    ensures { IfOk result (λ copied. copied ≡ meta.now) }
{
    match meta {
        None => Ok(None),
        Some(meta) => Ok(Some(Boxed::new(alloc, meta.inner.copy(alloc)?)?)),
    }
}

fn copy_cred(alloc: Global, cred: &Option<Cred>) -> Result<Option<Cred>, Memory>
    ensures { IfOk result (λ copied. copied ≡ cred.now) }
{
    match cred {
        None => Ok(None),
        Some(cred) => Ok(Some(Cred {
            meta: copy_meta(alloc, &cred.meta)?,
            value: cred.value.copy(alloc)?,
        })),
    }
}

impl Header {
    /// An equal header.
    pub fn copy(&self, alloc: Global) -> Result<Header, Memory>
        ensures { IfOk result (λ copied. copied ≡ self.now) }
    {
        Ok(Header {
            dtd: self.dtd.copy(alloc)?,
            proto: self.proto.copy(alloc)?,
            session: self.session.copy(alloc)?,
            msg: self.msg,
            target: self.target.copy(alloc)?,
            source: self.source.copy(alloc)?,
            resp_uri: copy_bytes(alloc, &self.resp_uri)?,
            no_resp: self.no_resp,
            cred: copy_cred(alloc, &self.cred)?,
            meta: copy_meta(alloc, &self.meta)?,
        })
    }
}

impl Item {
    /// An equal item.
    pub fn copy(&self, alloc: Global) -> Result<Item, Memory>
        ensures { IfOk result (λ copied. copied ≡ self.now) }
    {
        Ok(Item {
            target: copy_loc(alloc, &self.target)?,
            source: copy_loc(alloc, &self.source)?,
            meta: copy_meta(alloc, &self.meta)?,
            value: copy_bytes(alloc, &self.value)?,
            more: self.more,
        })
    }
}

fn copy_items(alloc: Global, items: &List<Item>) -> Result<List<Item>, Memory>
    ensures { IfOk result (λ copied. copied ≡ items.now) }
{
    let mut copied = List::new(alloc);
    for item in items.as_slice() {
        copied.push(item.copy(alloc)?)?;
    }
    Ok(copied)
}

fn copy_texts(alloc: Global, texts: &List<Bytes>) -> Result<List<Bytes>, Memory>
    ensures { IfOk result (λ copied. copied ≡ texts.now) }
{
    let mut copied = List::new(alloc);
    for text in texts.as_slice() {
        copied.push(text.copy(alloc)?)?;
    }
    Ok(copied)
}

fn copy_plain(alloc: Global, command: &Plain) -> Result<Plain, Memory>
    ensures { IfOk result (λ copied. copied ≡ command.now) }
{
    Ok(Plain {
        verb: command.verb,
        id: command.id,
        no_resp: command.no_resp,
        meta: copy_meta(alloc, &command.meta)?,
        correlator: copy_bytes(alloc, &command.correlator)?,
        items: copy_items(alloc, &command.items)?,
    })
}

fn copy_alert(alloc: Global, command: &AlertCmd) -> Result<AlertCmd, Memory>
    ensures { IfOk result (λ copied. copied ≡ command.now) }
{
    Ok(AlertCmd {
        id: command.id,
        no_resp: command.no_resp,
        code: command.code,
        correlator: copy_bytes(alloc, &command.correlator)?,
        items: copy_items(alloc, &command.items)?,
    })
}

fn copy_member(alloc: Global, member: &Member) -> Result<Member, Memory>
    ensures { IfOk result (λ copied. copied ≡ member.now) }
{
    match member {
        Member::One(command) => Ok(Member::One(copy_plain(alloc, command)?)),
        Member::Alert(command) => Ok(Member::Alert(copy_alert(alloc, command)?)),
    }
}

fn copy_members(alloc: Global, members: &List<Member>) -> Result<List<Member>, Memory>
    ensures { IfOk result (λ copied. copied ≡ members.now) }
{
    let mut copied = List::new(alloc);
    for member in members.as_slice() {
        copied.push(copy_member(alloc, member)?)?;
    }
    Ok(copied)
}

// A container with these members, equal to another in all else.
fn copy_block<M: Drop>(
    alloc: Global,
    block: &Block<M>,
    members: List<M>,
) -> Result<Block<M>, Memory>
    ensures { IfOk result (λ copied. copied ≡ record block.now { members = members }) }
{
    Ok(Block {
        id: block.id,
        no_resp: block.no_resp,
        meta: copy_meta(alloc, &block.meta)?,
        members,
    })
}

fn copy_atomic(alloc: Global, block: &Block<Member>) -> Result<Block<Member>, Memory>
    ensures { IfOk result (λ copied. copied ≡ block.now) }
{
    copy_block(alloc, block, copy_members(alloc, &block.members)?)
}

fn copy_seq_member(alloc: Global, member: &SeqMember) -> Result<SeqMember, Memory>
    ensures { IfOk result (λ copied. copied ≡ member.now) }
{
    match member {
        SeqMember::Single(member) => Ok(SeqMember::Single(copy_member(alloc, member)?)),
        SeqMember::Atomic(block) => Ok(SeqMember::Atomic(copy_atomic(alloc, block)?)),
    }
}

fn copy_seq_members(alloc: Global, members: &List<SeqMember>) -> Result<List<SeqMember>, Memory>
    ensures { IfOk result (λ copied. copied ≡ members.now) }
{
    let mut copied = List::new(alloc);
    for member in members.as_slice() {
        copied.push(copy_seq_member(alloc, member)?)?;
    }
    Ok(copied)
}

fn copy_sequence(alloc: Global, block: &Block<SeqMember>) -> Result<Block<SeqMember>, Memory>
    ensures { IfOk result (λ copied. copied ≡ block.now) }
{
    copy_block(alloc, block, copy_seq_members(alloc, &block.members)?)
}

fn copy_status(alloc: Global, command: &StatusCmd) -> Result<StatusCmd, Memory>
    ensures { IfOk result (λ copied. copied ≡ command.now) }
{
    Ok(StatusCmd {
        id: command.id,
        msg_ref: command.msg_ref,
        cmd_ref: command.cmd_ref,
        cmd: command.cmd.copy(alloc)?,
        target_refs: copy_texts(alloc, &command.target_refs)?,
        source_refs: copy_texts(alloc, &command.source_refs)?,
        chal: copy_meta(alloc, &command.chal)?,
        code: command.code,
        items: copy_items(alloc, &command.items)?,
    })
}

fn copy_results(alloc: Global, command: &ResultsCmd) -> Result<ResultsCmd, Memory>
    ensures { IfOk result (λ copied. copied ≡ command.now) }
{
    Ok(ResultsCmd {
        id: command.id,
        msg_ref: command.msg_ref,
        cmd_ref: command.cmd_ref,
        meta: copy_meta(alloc, &command.meta)?,
        target_ref: copy_bytes(alloc, &command.target_ref)?,
        source_ref: copy_bytes(alloc, &command.source_ref)?,
        items: copy_items(alloc, &command.items)?,
    })
}

impl Command {
    /// An equal command.
    pub fn copy(&self, alloc: Global) -> Result<Command, Memory>
        ensures { IfOk result (λ copied. copied ≡ self.now) }
    {
        match self {
            Command::Plain(command) => Ok(Command::Plain(copy_plain(alloc, command)?)),
            Command::Alert(command) => Ok(Command::Alert(copy_alert(alloc, command)?)),
            Command::Atomic(block) => Ok(Command::Atomic(copy_atomic(alloc, block)?)),
            Command::Sequence(block) => Ok(Command::Sequence(copy_sequence(alloc, block)?)),
            Command::Status(command) => Ok(Command::Status(copy_status(alloc, command)?)),
            Command::Results(command) => Ok(Command::Results(copy_results(alloc, command)?)),
        }
    }
}
