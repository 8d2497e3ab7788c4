// A whole message.
ghost use Rattle.std.specs.Prelude.{◌≡◌, IfOk};
ghost use Rattle.syncml_types.specs.Message.{Parts, FitsSpelling};
ghost use Rattle.syncml_types.specs.Fitness.{IsFit, first_unfit as first_of, told_unfit};

use crate::command::Command;
use crate::fitness::first_unfit;
use crate::values::Header;
use dm_base::{Boxed, List};
use std::marker::Model;

/// Why parts make no message.
#[derive(Clone, Copy, Debug, PartialEq, Eq)]
pub enum Unfit {
    /// A text other than Data isn't UTF-8, or holds a byte 00.
    BadText,
    /// A CmdID, MsgID or MsgRef is 0.
    BadNumber,
    /// A list that has to be filled is empty, or an Exec hasn't exactly one item.
    NoItems,
    /// A command other than an Exec or an Alert has a correlator.
    BadCorrelator,
    /// The canonical spelling passes 65,536 bytes.
    TooLong,
}

/// A message that can be spelled. `last` is Final: no message of its package follows.
#[derive(Drop)]
pub struct Message {
    header: Boxed<Header>,
    body: List<Command>,
    last: bool,
}

impl Model for Message {
    ghost use Rattle.syncml_types.specs.Message.{Parts};
    ghost use Rattle.syncml_types.specs.Fitness.{IsFit};

    ghost Value = { Parts };

    ghost view = { λ m. record { header = m.header; body = m.body; last = m.last } };

    ghost invariant = { λ m. IsFit m.header m.body };
}

impl Message {
    /// The message of these parts. It answers the first reason why there is none, in the order of `Unfit`. It takes no
    /// memory.
    pub fn new(header: Boxed<Header>, body: List<Command>, last: bool) -> Result<Message, Unfit>
        ensures value { IfOk result (λ m. m ≡ record { header = header; body = body; last = last }) }
        ensures which { told_unfit result ≡ first_of (record { header = header; body = body; last = last }) }
    {
        match first_unfit(&header.inner, &body, last) {
            Some(unfit) => Err(unfit),
            None => Ok(Message { header, body, last }),
        }
    }

    /// The message of parts that are fit. Its spelling may be of any length.
    pub fn of_parts(header: Boxed<Header>, body: List<Command>, last: bool) -> Message
        requires { IsFit header body }
        ensures { result ≡ record { header = header; body = body; last = last } }
    {
        Message { header, body, last }
    }

    /// The header.
    #[tactic(auto, using(crate::proofs::Fitting::spellable))]
    pub fn header(&self) -> &Header
        ensures value { result.now ≡ self.now.header }
        ensures fit { IsFit self.now.header self.now.body }
        ensures spellable { FitsSpelling self.now.header self.now.body }
    {
        &self.header.inner
    }

    /// The commands.
    #[tactic(auto, using(crate::proofs::Fitting::spellable))]
    pub fn body(&self) -> &List<Command>
        ensures value { result.now ≡ self.now.body }
        ensures fit { IsFit self.now.header self.now.body }
        ensures spellable { FitsSpelling self.now.header self.now.body }
    {
        &self.body
    }

    /// The commands, which aren't copied. The header is given up.
    pub fn into_body(self) -> List<Command>
        ensures { result ≡ self.body }
    {
        self.body
    }

    /// Whether no message of its package follows.
    pub fn last(&self) -> bool
        ensures { result ≡ self.now.last }
    {
        self.last
    }
}
