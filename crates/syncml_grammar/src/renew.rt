// Boxes for new elements. What was put into a parent mostly left its box with a new value, which then need not be
// written again. The first box of a kind is filled in a function of its own, since each function pays at its entry for
// its largest locals.
ghost use Rattle.std.specs.Prelude.{◌≡◌, IfOk, IsTrue};
ghost use Rattle.syncml_grammar.specs.Drafts.{no_message, no_body, no_loc, no_header, no_alert, no_block};
ghost use Rattle.syncml_grammar.specs.Drafts.{no_cred, no_item, no_plain, no_status, no_results};
ghost use Rattle.syncml_types.specs.Message.{no_meta};

use crate::draft::{
    BodyDraft, MessageDraft, new_alert, new_block, new_body, new_cred, new_header, new_item,
    new_loc, new_message, new_plain, new_results, new_status,
};
use dm_base::{Boxed, Memory};
use std::alloc::Global;
use syncml_types::{
    AlertCmd, Block, Cred, Header, Item, Loc, Meta, Plain, ResultsCmd, StatusCmd, Verb,
};

fn is_new_loc(loc: &Loc) -> bool
    ensures { IsTrue result → loc.now ≡ no_loc }
{
    match loc {
        Loc { uri, name: None } => uri.is_empty(),
        _ => false,
    }
}

fn is_new_item(item: &Item) -> bool
    ensures { IsTrue result → item.now ≡ no_item }
{
    matches!(
        item,
        Item {
            target: None,
            source: None,
            meta: None,
            value: None,
            more: false,
        }
    )
}

fn is_new_plain(plain: &Plain, wanted: Verb) -> bool
    ensures { IsTrue result → plain.now ≡ no_plain wanted }
{
    match plain {
        Plain {
            verb,
            id: 0,
            no_resp: false,
            meta: None,
            correlator: None,
            items,
        } => *verb == wanted && items.is_empty(),
        _ => false,
    }
}

fn is_new_results(results: &ResultsCmd) -> bool
    ensures { IsTrue result → results.now ≡ no_results }
{
    match results {
        ResultsCmd {
            id: 0,
            msg_ref: None,
            cmd_ref: 0,
            meta: None,
            target_ref: None,
            source_ref: None,
            items,
        } => items.is_empty(),
        _ => false,
    }
}

fn become_loc(loc: &mut Loc, alloc: Global)
    ensures { loc.new ≡ no_loc }
{
    *loc = new_loc(alloc);
}

fn become_meta(meta: &mut Meta)
    ensures { meta.new ≡ no_meta }
{
    *meta = Meta::empty();
}

fn become_item(item: &mut Item)
    ensures { item.new ≡ no_item }
{
    *item = new_item();
}

fn become_plain(plain: &mut Plain, alloc: Global, verb: Verb)
    ensures { plain.new ≡ no_plain verb }
{
    *plain = new_plain(alloc, verb);
}

fn become_results(results: &mut ResultsCmd, alloc: Global)
    ensures { results.new ≡ no_results }
{
    *results = new_results(alloc);
}

pub(crate) fn first_header(alloc: Global) -> Result<Boxed<Header>, Memory>
    ensures { IfOk result (λ b. b ≡ no_header) }
{
    Boxed::new(alloc, new_header(alloc))
}

pub(crate) fn first_message(alloc: Global) -> Result<Boxed<MessageDraft>, Memory>
    ensures { IfOk result (λ b. b ≡ no_message) }
{
    Boxed::new(alloc, new_message(alloc))
}

pub(crate) fn first_body(alloc: Global) -> Result<Boxed<BodyDraft>, Memory>
    ensures { IfOk result (λ b. b ≡ no_body) }
{
    Boxed::new(alloc, new_body(alloc))
}

fn first_loc(alloc: Global) -> Result<Boxed<Loc>, Memory>
    ensures { IfOk result (λ b. b ≡ no_loc) }
{
    Boxed::new(alloc, new_loc(alloc))
}

// This value in the box that is kept, or in a new one.
fn filled<T: Drop>(alloc: Global, kept: Option<Boxed<T>>, value: T) -> Result<Boxed<T>, Memory>
    ensures { IfOk result (λ b. b ≡ value) }
{
    match kept {
        Some(mut boxed) => {
            *boxed.inner = value;
            Ok(boxed)
        }
        None => Boxed::new(alloc, value),
    }
}

/// A new Alert in the box that is kept, or in a new one.
pub(crate) fn renewed_alert(
    alloc: Global,
    kept: Option<Boxed<AlertCmd>>,
) -> Result<Boxed<AlertCmd>, Memory>
    ensures { IfOk result (λ b. b ≡ no_alert) }
{
    filled(alloc, kept, new_alert(alloc))
}

/// A new container in the box that is kept, or in a new one.
pub(crate) fn renewed_block<M: Drop>(
    alloc: Global,
    kept: Option<Boxed<Block<M>>>,
) -> Result<Boxed<Block<M>>, Memory>
    ensures { IfOk result (λ b. b ≡ no_block) }
{
    filled(alloc, kept, new_block(alloc))
}

/// A new Status in the box that is kept, or in a new one.
pub(crate) fn renewed_status(
    alloc: Global,
    kept: Option<Boxed<StatusCmd>>,
) -> Result<Boxed<StatusCmd>, Memory>
    ensures { IfOk result (λ b. b ≡ no_status) }
{
    filled(alloc, kept, new_status(alloc))
}

pub(crate) fn first_cred(alloc: Global) -> Result<Boxed<Cred>, Memory>
    ensures { IfOk result (λ b. b ≡ no_cred) }
{
    Boxed::new(alloc, new_cred(alloc))
}

fn first_meta(alloc: Global) -> Result<Boxed<Meta>, Memory>
    ensures { IfOk result (λ b. b ≡ no_meta) }
{
    Boxed::new(alloc, Meta::empty())
}

fn first_item(alloc: Global) -> Result<Boxed<Item>, Memory>
    ensures { IfOk result (λ b. b ≡ no_item) }
{
    Boxed::new(alloc, new_item())
}

fn first_plain(alloc: Global, verb: Verb) -> Result<Boxed<Plain>, Memory>
    ensures { IfOk result (λ b. b ≡ no_plain verb) }
{
    Boxed::new(alloc, new_plain(alloc, verb))
}

fn first_results(alloc: Global) -> Result<Boxed<ResultsCmd>, Memory>
    ensures { IfOk result (λ b. b ≡ no_results) }
{
    Boxed::new(alloc, new_results(alloc))
}

/// A new place in the box that is kept, or in a new one.
pub(crate) fn renewed_loc(alloc: Global, kept: Option<Boxed<Loc>>) -> Result<Boxed<Loc>, Memory>
    ensures { IfOk result (λ b. b ≡ no_loc) }
{
    let Some(mut loc) = kept else {
        return first_loc(alloc);
    };
    if !is_new_loc(&loc.inner) {
        become_loc(&mut loc.inner, alloc);
    }
    Ok(loc)
}

/// A new Meta in the box that is kept, or in a new one.
pub(crate) fn renewed_meta(alloc: Global, kept: Option<Boxed<Meta>>) -> Result<Boxed<Meta>, Memory>
    ensures { IfOk result (λ b. b ≡ no_meta) }
{
    let Some(mut meta) = kept else {
        return first_meta(alloc);
    };
    if !meta.inner.is_empty() {
        become_meta(&mut meta.inner);
    }
    Ok(meta)
}

/// A new Item in the box that is kept, or in a new one.
pub(crate) fn renewed_item(alloc: Global, kept: Option<Boxed<Item>>) -> Result<Boxed<Item>, Memory>
    ensures { IfOk result (λ b. b ≡ no_item) }
{
    let Some(mut item) = kept else {
        return first_item(alloc);
    };
    if !is_new_item(&item.inner) {
        become_item(&mut item.inner);
    }
    Ok(item)
}

/// A new command with items in the box that is kept, or in a new one.
pub(crate) fn renewed_plain(
    alloc: Global,
    kept: Option<Boxed<Plain>>,
    verb: Verb,
) -> Result<Boxed<Plain>, Memory>
    ensures { IfOk result (λ b. b ≡ no_plain verb) }
{
    let Some(mut plain) = kept else {
        return first_plain(alloc, verb);
    };
    if !is_new_plain(&plain.inner, verb) {
        become_plain(&mut plain.inner, alloc, verb);
    }
    Ok(plain)
}

/// A new Results in the box that is kept, or in a new one.
pub(crate) fn renewed_results(
    alloc: Global,
    kept: Option<Boxed<ResultsCmd>>,
) -> Result<Boxed<ResultsCmd>, Memory>
    ensures { IfOk result (λ b. b ≡ no_results) }
{
    let Some(mut results) = kept else {
        return first_results(alloc);
    };
    if !is_new_results(&results.inner) {
        become_results(&mut results.inner, alloc);
    }
    Ok(results)
}
