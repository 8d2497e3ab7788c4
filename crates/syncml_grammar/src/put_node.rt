// What a child with children puts into its parent. The box of a header and of a Meta goes along; what a call takes from
// another child's box it replaces by what a new one has, in a function of its own, since each function pays at its
// entry for its largest locals.
ghost use Rattle.std.specs.Prelude.{◌≡◌, ◌∷◌, ◌++◌, [], false, Some, OnOk};
ghost use Rattle.syncml_types.specs.declared.values.Header.{Header};
ghost use Rattle.syncml_grammar.specs.declared.draft.Draft.TheVariants as drafts;
ghost use Rattle.syncml_grammar.specs.Nodes.{header_with_loc, item_with_loc, with_inner, is_document};

use crate::draft::{BodyDraft, Draft, new_item, new_loc};
use crate::put_command::{put_alert, put_atomic, put_plain, put_results, put_sequence, put_status};
use crate::spare::Spares;
use dm_base::{Boxed, List, Memory};
use std::alloc::Global;
use std::mem;
use syncml_types::{Cred, Header, Item, Loc, Meta};
use wbxml_tables::Element;

fn put_header(draft: &mut Draft, element: Element, header: Boxed<Header>)
    requires { is_document draft.old ≡ false }
    ensures { draft.new ≡ with_inner draft.old element (drafts.Header header) }
{
    match draft {
        Draft::Message(message) => message.inner.header = Some(header),
        _ => drop(header),
    }
}

fn put_body(
    spares: &mut Spares,
    draft: &mut Draft,
    element: Element,
    mut body: Boxed<BodyDraft>,
) -> Result<(), Memory>
    requires { is_document draft.old ≡ false }
    ensures { OnOk result (draft.new ≡ with_inner draft.old element (drafts.Body body)) }
{
    match draft {
        Draft::Message(message) => {
            message.inner.body = mem::replace(&mut body.inner.commands, List::new(spares.alloc));
            message.inner.last = body.inner.last;
        }
        _ => {}
    }
    spares.ended.push(Draft::Body(body))
}

fn push_item(items: &mut List<Item>, item: &mut Item) -> Result<(), Memory>
    ensures { OnOk result (items.new ≡ items.old ++ item.old ∷ []) }
{
    items.push(mem::replace(item, new_item()))
}

fn put_item(
    spares: &mut Spares,
    draft: &mut Draft,
    element: Element,
    mut item: Boxed<Item>,
) -> Result<(), Memory>
    requires { is_document draft.old ≡ false }
    ensures { OnOk result (draft.new ≡ with_inner draft.old element (drafts.Item item)) }
{
    match draft {
        Draft::Plain(plain) => push_item(&mut plain.inner.items, &mut item.inner)?,
        Draft::Alert(alert) => push_item(&mut alert.inner.items, &mut item.inner)?,
        Draft::Status(status) => push_item(&mut status.inner.items, &mut item.inner)?,
        Draft::Results(results) => push_item(&mut results.inner.items, &mut item.inner)?,
        _ => {}
    }
    spares.item = Some(item);
    Ok(())
}

fn put_loc_in_header(draft: &mut Boxed<Header>, element: Element, loc: Loc)
    ensures { draft.new ≡ header_with_loc draft.old element loc }
{
    match element {
        Element::ETarget => draft.inner.target = loc,
        _ => draft.inner.source = loc,
    }
}

fn put_loc_in_item(item: &mut Item, element: Element, loc: Loc)
    ensures { item.new ≡ item_with_loc item.old element loc }
{
    match element {
        Element::ETarget => item.target = Some(loc),
        _ => item.source = Some(loc),
    }
}

fn take_loc(alloc: Global, loc: &mut Loc) -> Loc
    ensures { result ≡ loc.old }
{
    mem::replace(loc, new_loc(alloc))
}

fn put_loc(spares: &mut Spares, draft: &mut Draft, element: Element, mut place: Boxed<Loc>)
    requires { is_document draft.old ≡ false }
    ensures { draft.new ≡ with_inner draft.old element (drafts.Loc place) }
{
    let loc = take_loc(spares.alloc, &mut place.inner);
    match draft {
        Draft::Header(header) => put_loc_in_header(header, element, loc),
        Draft::Item(item) => put_loc_in_item(&mut item.inner, element, loc),
        _ => drop(loc),
    }
    spares.loc = Some(place);
}

fn put_cred(draft: &mut Draft, element: Element, cred: Boxed<Cred>)
    requires { is_document draft.old ≡ false }
    ensures { draft.new ≡ with_inner draft.old element (drafts.Cred cred) }
{
    match draft {
        Draft::Header(header) => header.inner.cred = Some(cred.into_inner()),
        _ => drop(cred),
    }
}

fn put_chal(draft: &mut Draft, element: Element, meta: Boxed<Meta>)
    requires { is_document draft.old ≡ false }
    ensures { draft.new ≡ with_inner draft.old element (drafts.Chal meta) }
{
    match draft {
        Draft::Status(status) => status.inner.chal = Some(meta),
        _ => drop(meta),
    }
}

fn put_meta_in_header(draft: &mut Boxed<Header>, meta: Boxed<Meta>)
    ensures { draft.new ≡ record draft.old { meta = Some meta } }
{
    draft.inner.meta = Some(meta);
}

// The Meta of a Chal, or the MetInf of a Meta, stands for the whole, in its own box.
fn put_meta(spares: &mut Spares, draft: &mut Draft, element: Element, meta: Boxed<Meta>)
    requires { is_document draft.old ≡ false }
    ensures { draft.new ≡ with_inner draft.old element (drafts.Meta meta) }
{
    match draft {
        Draft::Header(header) => put_meta_in_header(header, meta),
        Draft::Plain(plain) => plain.inner.meta = Some(meta),
        Draft::Atomic(block) => block.inner.meta = Some(meta),
        Draft::Sequence(block) => block.inner.meta = Some(meta),
        Draft::Results(results) => results.inner.meta = Some(meta),
        Draft::Item(item) => item.inner.meta = Some(meta),
        Draft::Cred(cred) => cred.inner.meta = Some(meta),
        Draft::Chal(old) => spares.meta = Some(mem::replace(old, meta)),
        Draft::Meta(old) => spares.meta = Some(mem::replace(old, meta)),
        _ => drop(meta),
    }
}

#[tactic(auto, using(crate::proofs::Left::left_document, crate::proofs::Left::left_message))]
fn put_part(
    spares: &mut Spares,
    draft: &mut Draft,
    element: Element,
    child: Draft,
) -> Result<(), Memory>
    requires { is_document draft.old ≡ false }
    ensures { OnOk result (draft.new ≡ with_inner draft.old element child) }
{
    match child {
        Draft::Document => {}
        Draft::Message(message) => drop(message),
        Draft::Header(header) => put_header(draft, element, header),
        Draft::Body(body) => return put_body(spares, draft, element, body),
        Draft::Plain(plain) => return put_plain(spares, draft, element, plain),
        Draft::Alert(alert) => return put_alert(spares, draft, element, alert),
        Draft::Atomic(block) => return put_atomic(spares, draft, element, block),
        Draft::Sequence(block) => return put_sequence(spares, draft, element, block),
        Draft::Status(status) => return put_status(spares, draft, element, status),
        Draft::Results(results) => return put_results(spares, draft, element, results),
        Draft::Item(item) => return put_item(spares, draft, element, item),
        Draft::Loc(place) => put_loc(spares, draft, element, place),
        Draft::Cred(cred) => put_cred(draft, element, cred),
        Draft::Chal(meta) => put_chal(draft, element, meta),
        Draft::Meta(meta) => put_meta(spares, draft, element, meta),
    }
    Ok(())
}

impl Draft {
    fn is_document(&self) -> bool
        ensures { result ≡ is_document self.now }
    {
        matches!(self, Draft::Document)
    }
}

/// Puts what a child with children holds into its parent, and keeps its box where that doesn't go along.
#[tactic(auto, using(crate::proofs::Left::whole_child))]
pub(crate) fn put_node(
    spares: &mut Spares,
    draft: &mut Draft,
    element: Element,
    child: Draft,
) -> Result<(), Memory>
    ensures { OnOk result (draft.new ≡ with_inner draft.old element child) }
{
    if draft.is_document() {
        *draft = child;
        return Ok(());
    }
    put_part(spares, draft, element, child)
}
