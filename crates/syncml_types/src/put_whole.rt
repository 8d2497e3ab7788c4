// The canonical tokens of a whole message, given to a writer of any kind.
ghost use Rattle.std.specs.Prelude.{◌≡◌, OnOk, IfSome};
ghost use Rattle.std.specs.List.{AllByRecursion};
ghost use Rattle.wbxml_tokens.specs.Spelling.{given};
ghost use Rattle.syncml_types.specs.Message.{IsShortData, HasShortItems, FitsSpelling};
ghost use Rattle.syncml_types.specs.Canonical.{header_tokens, body_tokens, is_empty_body, message_tokens};

use crate::command::Command;
use crate::message::Message;
use crate::put_command::put_commands;
use crate::put_value::{
    put_flag, put_loc, put_number, put_option_cred, put_option_meta, put_option_text, put_text,
};
use crate::values::Header;
use dm_base::List;
use wbxml_tables::Element;
use wbxml_tokens::Writer;

/// Gives a header.
#[tactic(auto, using(crate::proofs::Given::given_append), unfolding(crate::specs::Canonical::header_tokens))]
pub fn put_header<W: Writer>(w: &mut W, h: &Header) -> Result<(), W::Error>
    requires { IfSome h.now.cred (λ c. IsShortData c.value) }
    ensures { OnOk result (w.new ≡ given W.after w.old (header_tokens h.now)) }
{
    w.tag(Element::ESyncHdr, true)?;
    put_text(w, Element::EVerDTD, h.dtd.as_slice())?;
    put_text(w, Element::EVerProto, h.proto.as_slice())?;
    put_text(w, Element::ESessionID, h.session.as_slice())?;
    put_number(w, Element::EMsgID, h.msg as u64)?;
    put_loc(w, Element::ETarget, &h.target)?;
    put_loc(w, Element::ESource, &h.source)?;
    put_option_text(w, Element::ERespURI, &h.resp_uri)?;
    put_flag(w, Element::ENoResp, h.no_resp)?;
    put_option_cred(w, &h.cred)?;
    put_option_meta(w, &h.meta)?;
    w.end()
}

fn is_bare_body(body: &List<Command>, last: bool) -> bool
    ensures { result ≡ is_empty_body body.now last }
{
    body.is_empty() && !last
}

/// Gives the body of a message. One without children is its tag alone.
#[tactic(auto, using(crate::proofs::Given::given_append, crate::proofs::Bare::bare_body, crate::proofs::Bare::full_body))]
pub fn put_body<W: Writer>(w: &mut W, body: &List<Command>, last: bool) -> Result<(), W::Error>
    requires { AllByRecursion HasShortItems body.now }
    ensures { OnOk result (w.new ≡ given W.after w.old (body_tokens body.now last)) }
{
    if is_bare_body(body, last) {
        return w.tag(Element::ESyncBody, false);
    }
    w.tag(Element::ESyncBody, true)?;
    put_commands(w, body)?;
    put_flag(w, Element::EFinal, last)?;
    w.end()
}

/// Gives a message by its parts. This one traversal serves every writer.
#[tactic(auto, using(crate::proofs::Given::given_append), unfolding(crate::specs::Canonical::message_tokens))]
pub fn put_parts<W: Writer>(
    w: &mut W,
    header: &Header,
    body: &List<Command>,
    last: bool,
) -> Result<(), W::Error>
    requires { FitsSpelling header.now body.now }
    ensures { OnOk result (w.new ≡ given W.after w.old
        (message_tokens (record { header = header.now; body = body.now; last = last }))) }
{
    w.tag(Element::ESyncML, true)?;
    put_header(w, header)?;
    put_body(w, body, last)?;
    w.end()
}

/// Gives a whole message.
pub fn put_message<W: Writer>(w: &mut W, message: &Message) -> Result<(), W::Error>
    ensures { OnOk result (w.new ≡ given W.after w.old (message_tokens message.now)) }
{
    put_parts(w, message.header(), message.body(), message.last())
}
