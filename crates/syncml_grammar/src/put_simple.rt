// What a child without children puts into its parent.
ghost use Rattle.std.specs.Prelude.{◌≡◌, true, OnOk};
ghost use Rattle.syncml_grammar.specs.Simples.{loc_with_text, meta_with_text, header_with_text, status_with_text};
ghost use Rattle.syncml_grammar.specs.Simples.{results_with_text, with_text, alert_with_number, status_with_number};
ghost use Rattle.syncml_grammar.specs.Simples.{results_with_number, with_short, meta_with_size, with_long, with_flag};
ghost use Rattle.syncml_grammar.specs.Simples.{with_simple};

use crate::draft::Draft;
use crate::leaf::Simple;
use dm_base::{Boxed, Bytes, Memory};
use syncml_types::{AlertCmd, Header, Loc, Meta, ResultsCmd, StatusCmd};
use wbxml_tables::Element;

fn put_loc(loc: &mut Loc, element: Element, text: Bytes)
    ensures { loc.new ≡ loc_with_text loc.old element text }
{
    match element {
        Element::ELocURI => loc.uri = text,
        Element::ELocName => loc.name = Some(text),
        _ => {}
    }
}

fn put_meta(meta: &mut Meta, element: Element, text: Bytes)
    ensures { meta.new ≡ meta_with_text meta.old element text }
{
    match element {
        Element::EFormat => meta.format = Some(text),
        Element::EType => meta.media = Some(text),
        Element::ENextNonce => meta.next_nonce = Some(text),
        Element::EMark => meta.mark = Some(text),
        Element::EVersion => meta.version = Some(text),
        _ => {}
    }
}

fn put_header(draft: &mut Boxed<Header>, element: Element, text: Bytes)
    ensures { draft.new ≡ header_with_text draft.old element text }
{
    match element {
        Element::EVerDTD => draft.inner.dtd = text,
        Element::EVerProto => draft.inner.proto = text,
        Element::ESessionID => draft.inner.session = text,
        Element::ERespURI => draft.inner.resp_uri = Some(text),
        _ => {}
    }
}

fn put_status(status: &mut StatusCmd, element: Element, text: Bytes) -> Result<(), Memory>
    ensures { OnOk result (status.new ≡ status_with_text status.old element text) }
{
    match element {
        Element::ECmd => {
            status.cmd = text;
            Ok(())
        }
        Element::ETargetRef => status.target_refs.push(text),
        Element::ESourceRef => status.source_refs.push(text),
        _ => Ok(()),
    }
}

fn put_results(results: &mut ResultsCmd, element: Element, text: Bytes)
    ensures { results.new ≡ results_with_text results.old element text }
{
    match element {
        Element::ETargetRef => results.target_ref = Some(text),
        Element::ESourceRef => results.source_ref = Some(text),
        _ => {}
    }
}

fn put_text(draft: &mut Draft, element: Element, text: Bytes) -> Result<(), Memory>
    ensures { OnOk result (draft.new ≡ with_text draft.old element text) }
{
    match draft {
        Draft::Loc(loc) => put_loc(&mut loc.inner, element, text),
        Draft::Meta(meta) => put_meta(&mut meta.inner, element, text),
        Draft::Header(header) => put_header(header, element, text),
        Draft::Status(status) => return put_status(&mut status.inner, element, text),
        Draft::Results(results) => put_results(&mut results.inner, element, text),
        Draft::Item(item) => item.inner.value = Some(text),
        Draft::Cred(cred) => cred.inner.value = text,
        Draft::Plain(plain) => plain.inner.correlator = Some(text),
        Draft::Alert(alert) => alert.inner.correlator = Some(text),
        _ => {}
    }
    Ok(())
}

fn put_alert_number(alert: &mut AlertCmd, element: Element, number: u32)
    ensures { alert.new ≡ alert_with_number alert.old element number }
{
    match element {
        Element::EData => alert.code = number,
        _ => alert.id = number,
    }
}

fn put_status_number(status: &mut StatusCmd, element: Element, number: u32)
    ensures { status.new ≡ status_with_number status.old element number }
{
    match element {
        Element::ECmdID => status.id = number,
        Element::EMsgRef => status.msg_ref = number,
        Element::ECmdRef => status.cmd_ref = number,
        _ => status.code = number,
    }
}

fn put_results_number(results: &mut ResultsCmd, element: Element, number: u32)
    ensures { results.new ≡ results_with_number results.old element number }
{
    match element {
        Element::ECmdID => results.id = number,
        Element::EMsgRef => results.msg_ref = Some(number),
        _ => results.cmd_ref = number,
    }
}

fn put_msg(draft: &mut Boxed<Header>, number: u32)
    ensures { draft.new ≡ record draft.old { msg = number } }
{
    draft.inner.msg = number;
}

fn put_short(draft: &mut Draft, element: Element, number: u32)
    ensures { draft.new ≡ with_short draft.old element number }
{
    match draft {
        Draft::Header(header) => put_msg(header, number),
        Draft::Plain(plain) => plain.inner.id = number,
        Draft::Alert(alert) => put_alert_number(&mut alert.inner, element, number),
        Draft::Atomic(block) => block.inner.id = number,
        Draft::Sequence(block) => block.inner.id = number,
        Draft::Status(status) => put_status_number(&mut status.inner, element, number),
        Draft::Results(results) => put_results_number(&mut results.inner, element, number),
        _ => {}
    }
}

fn put_size(meta: &mut Meta, element: Element, number: u64)
    ensures { meta.new ≡ meta_with_size meta.old element number }
{
    match element {
        Element::ESize => meta.size = Some(number),
        Element::EMaxMsgSize => meta.max_msg = Some(number),
        _ => meta.max_obj = Some(number),
    }
}

fn put_long(draft: &mut Draft, element: Element, number: u64)
    ensures { draft.new ≡ with_long draft.old element number }
{
    match draft {
        Draft::Meta(meta) => put_size(&mut meta.inner, element, number),
        _ => {}
    }
}

fn mark_no_resp(draft: &mut Boxed<Header>)
    ensures { draft.new ≡ record draft.old { no_resp = true } }
{
    draft.inner.no_resp = true;
}

fn put_flag(draft: &mut Draft)
    ensures { draft.new ≡ with_flag draft.old }
{
    match draft {
        Draft::Body(body) => body.inner.last = true,
        Draft::Item(item) => item.inner.more = true,
        Draft::Header(header) => mark_no_resp(header),
        Draft::Plain(plain) => plain.inner.no_resp = true,
        Draft::Alert(alert) => alert.inner.no_resp = true,
        Draft::Atomic(block) => block.inner.no_resp = true,
        Draft::Sequence(block) => block.inner.no_resp = true,
        _ => {}
    }
}

/// Puts what a child without children holds into its parent.
pub(crate) fn put_simple(draft: &mut Draft, element: Element, simple: Simple) -> Result<(), Memory>
    ensures { OnOk result (draft.new ≡ with_simple draft.old element simple) }
{
    match simple {
        Simple::Text(text) => return put_text(draft, element, text),
        Simple::Short(number) => put_short(draft, element, number),
        Simple::Long(number) => put_long(draft, element, number),
        Simple::Flag => put_flag(draft),
    }
    Ok(())
}
