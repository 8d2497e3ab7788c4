// The canonical tokens of texts, numbers and the values of a message, given to a writer of any kind.
ghost use Rattle.std.specs.Prelude.{◌≡◌, ◌==◌, not, OnOk, IfSome};
ghost use Rattle.std.specs.List.{AllByRecursion, list_all};
ghost use Rattle.wbxml_tokens.specs.Spelling.{given};
ghost use Rattle.syncml_types.specs.Message.{IsShortData, HasShortData};
ghost use Rattle.syncml_types.specs.Canonical.{text_tokens, number_tokens, flag_tokens, data_tokens, is_text, optional};
ghost use Rattle.syncml_types.specs.Canonical.{loc_tokens, meta_tokens, meta_children, item_tokens};
ghost use Rattle.syncml_types.specs.Canonical.{item_children, is_empty_item, items_tokens, texts_tokens, cred_tokens};
ghost use Rattle.syncml_types.specs.Canonical.{chal_tokens};

use crate::values::{Cred, Item, Loc, Meta};
use dm_base::{Boxed, Bytes, List};
use itoa::Buffer;
use memchr::memchr;
use wbxml_tables::Element;
use wbxml_tokens::Writer;

/// Gives an element with a text. One without text is its tag alone.
#[tactic(auto, using(crate::proofs::Given::given_append), unfolding(crate::specs::Canonical::text_tokens))]
#[inline(always)]
pub fn put_text<W: Writer>(w: &mut W, element: Element, text: &[u8]) -> Result<(), W::Error>
    ensures { OnOk result (w.new ≡ given W.after w.old (text_tokens element text.now)) }
{
    if text.is_empty() {
        return w.tag(element, false);
    }
    w.leaf(element, text)
}

/// Gives an element with a number in decimal.
#[tactic(auto, unfolding(crate::specs::Canonical::number_tokens))]
#[inline(always)]
pub fn put_number<W: Writer>(w: &mut W, element: Element, number: u64) -> Result<(), W::Error>
    ensures { OnOk result (w.new ≡ given W.after w.old (number_tokens element number)) }
{
    let mut digits = Buffer::new();
    put_text(w, element, digits.format(number).as_bytes())
}

/// Gives an element without content, where the flag is set.
#[tactic(auto, unfolding(crate::specs::Canonical::flag_tokens))]
pub fn put_flag<W: Writer>(w: &mut W, element: Element, flag: bool) -> Result<(), W::Error>
    ensures { OnOk result (w.new ≡ given W.after w.old (flag_tokens element flag)) }
{
    if flag { w.tag(element, false) } else { Ok(()) }
}

#[tactic(auto, using(crate::proofs::Zeros::none_zero))]
fn has_no_zero(bytes: &[u8]) -> bool
    ensures { result ≡ list_all (λ b. not (b == 0)) bytes.now }
{
    memchr(0, bytes).is_none()
}

/// Whether bytes are UTF-8 without byte 00.
pub fn is_plain_text(bytes: &[u8]) -> bool
    ensures { result ≡ is_text bytes.now }
{
    match str::from_utf8(bytes) {
        Ok(_) => has_no_zero(bytes),
        Err(_) => false,
    }
}

/// Gives Data: as a text where it is one, and else as opaque bytes.
#[tactic(auto, using(crate::proofs::Given::given_append), unfolding(crate::specs::Canonical::data_tokens))]
pub fn put_data<W: Writer>(w: &mut W, value: &Bytes) -> Result<(), W::Error>
    requires { IsShortData value.now }
    ensures { OnOk result (w.new ≡ given W.after w.old (data_tokens value.now)) }
{
    let bytes = value.as_slice();
    if bytes.is_empty() {
        return w.tag(Element::EData, false);
    }
    if is_plain_text(bytes) {
        return w.leaf(Element::EData, bytes);
    }
    w.tag(Element::EData, true)?;
    w.opaque(bytes)?;
    w.end()
}

/// Gives a text that may be absent.
pub fn put_option_text<W: Writer>(
    w: &mut W,
    element: Element,
    text: &Option<Bytes>,
) -> Result<(), W::Error>
    ensures { OnOk result (w.new ≡ given W.after w.old (optional (text_tokens element) text.now)) }
{
    match text {
        None => Ok(()),
        Some(text) => put_text(w, element, text.as_slice()),
    }
}

/// Gives a number that may be absent.
pub fn put_option_number<W: Writer>(
    w: &mut W,
    element: Element,
    number: Option<u64>,
) -> Result<(), W::Error>
    ensures { OnOk result (w.new ≡ given W.after w.old (optional (number_tokens element) number)) }
{
    match number {
        None => Ok(()),
        Some(number) => put_number(w, element, number),
    }
}

/// Gives texts, each in an element of its own.
#[tactic(auto, using(crate::proofs::Given::given_append), unfolding(crate::specs::Canonical::texts_tokens))]
pub fn put_texts<W: Writer>(
    w: &mut W,
    element: Element,
    texts: &List<Bytes>,
) -> Result<(), W::Error>
    ensures { OnOk result (w.new ≡ given W.after w.old (texts_tokens element texts.now)) }
{
    for text in texts.as_slice() {
        put_text(w, element, text.as_slice())?;
    }
    Ok(())
}

/// Gives a place, as Target or Source.
#[tactic(auto, using(crate::proofs::Given::given_append), unfolding(crate::specs::Canonical::loc_tokens))]
pub fn put_loc<W: Writer>(w: &mut W, element: Element, loc: &Loc) -> Result<(), W::Error>
    ensures { OnOk result (w.new ≡ given W.after w.old (loc_tokens element loc.now)) }
{
    w.tag(element, true)?;
    put_text(w, Element::ELocURI, loc.uri.as_slice())?;
    put_option_text(w, Element::ELocName, &loc.name)?;
    w.end()
}

/// Gives a place that may be absent.
pub fn put_option_loc<W: Writer>(
    w: &mut W,
    element: Element,
    loc: &Option<Loc>,
) -> Result<(), W::Error>
    ensures { OnOk result (w.new ≡ given W.after w.old (optional (loc_tokens element) loc.now)) }
{
    match loc {
        None => Ok(()),
        Some(loc) => put_loc(w, element, loc),
    }
}

// The children of a Meta.
#[tactic(auto, using(crate::proofs::Given::given_append))]
fn put_meta_children<W: Writer>(w: &mut W, meta: &Meta) -> Result<(), W::Error>
    ensures { OnOk result (w.new ≡ given W.after w.old (meta_children meta.now)) }
{
    put_option_text(w, Element::EFormat, &meta.format)?;
    put_option_text(w, Element::EType, &meta.media)?;
    put_option_number(w, Element::ESize, meta.size)?;
    put_option_text(w, Element::ENextNonce, &meta.next_nonce)?;
    put_option_number(w, Element::EMaxMsgSize, meta.max_msg)?;
    put_option_number(w, Element::EMaxObjSize, meta.max_obj)?;
    put_option_text(w, Element::EMark, &meta.mark)?;
    put_option_text(w, Element::EVersion, &meta.version)
}

/// Gives a Meta. One without children is its tag alone.
#[tactic(auto, using(crate::proofs::Given::given_append, crate::proofs::Bare::bare_meta, crate::proofs::Bare::full_meta))]
pub fn put_meta<W: Writer>(w: &mut W, meta: &Meta) -> Result<(), W::Error>
    ensures { OnOk result (w.new ≡ given W.after w.old (meta_tokens meta.now)) }
{
    if meta.is_empty() {
        return w.tag(Element::EMeta, false);
    }
    w.tag(Element::EMeta, true)?;
    put_meta_children(w, meta)?;
    w.end()
}

/// Gives a Meta that may be absent.
pub fn put_option_meta<W: Writer>(w: &mut W, meta: &Option<Boxed<Meta>>) -> Result<(), W::Error>
    ensures { OnOk result (w.new ≡ given W.after w.old (optional meta_tokens meta.now)) }
{
    match meta {
        None => Ok(()),
        Some(meta) => put_meta(w, &meta.inner),
    }
}

// Data that may be absent.
fn put_option_data<W: Writer>(w: &mut W, value: &Option<Bytes>) -> Result<(), W::Error>
    requires { IfSome value.now IsShortData }
    ensures { OnOk result (w.new ≡ given W.after w.old (optional data_tokens value.now)) }
{
    match value {
        None => Ok(()),
        Some(value) => put_data(w, value),
    }
}

// The children of an item.
#[tactic(auto, using(crate::proofs::Given::given_append))]
fn put_item_children<W: Writer>(w: &mut W, item: &Item) -> Result<(), W::Error>
    requires { HasShortData item.now }
    ensures { OnOk result (w.new ≡ given W.after w.old (item_children item.now)) }
{
    put_option_loc(w, Element::ETarget, &item.target)?;
    put_option_loc(w, Element::ESource, &item.source)?;
    put_option_meta(w, &item.meta)?;
    put_option_data(w, &item.value)?;
    put_flag(w, Element::EMoreData, item.more)
}

fn is_bare_item(item: &Item) -> bool
    ensures { result ≡ is_empty_item item.now }
{
    item.target.is_none()
        && item.source.is_none()
        && item.meta.is_none()
        && item.value.is_none()
        && !item.more
}

/// Gives an item. One without children is its tag alone.
#[tactic(auto, using(crate::proofs::Given::given_append, crate::proofs::Bare::bare_item, crate::proofs::Bare::full_item))]
pub fn put_item<W: Writer>(w: &mut W, item: &Item) -> Result<(), W::Error>
    requires { HasShortData item.now }
    ensures { OnOk result (w.new ≡ given W.after w.old (item_tokens item.now)) }
{
    if is_bare_item(item) {
        return w.tag(Element::EItem, false);
    }
    w.tag(Element::EItem, true)?;
    put_item_children(w, item)?;
    w.end()
}

/// Gives items, one after the other.
#[tactic(auto, using(crate::proofs::Given::given_append), unfolding(crate::specs::Canonical::items_tokens))]
pub fn put_items<W: Writer>(w: &mut W, items: &List<Item>) -> Result<(), W::Error>
    requires { AllByRecursion HasShortData items.now }
    ensures { OnOk result (w.new ≡ given W.after w.old (items_tokens items.now)) }
{
    for item in items.as_slice() {
        put_item(w, item)?;
    }
    Ok(())
}

/// Gives credentials.
#[tactic(auto, using(crate::proofs::Given::given_append), unfolding(crate::specs::Canonical::cred_tokens))]
pub fn put_cred<W: Writer>(w: &mut W, cred: &Cred) -> Result<(), W::Error>
    requires { IsShortData cred.now.value }
    ensures { OnOk result (w.new ≡ given W.after w.old (cred_tokens cred.now)) }
{
    w.tag(Element::ECred, true)?;
    put_option_meta(w, &cred.meta)?;
    put_data(w, &cred.value)?;
    w.end()
}

/// Gives credentials that may be absent.
pub fn put_option_cred<W: Writer>(w: &mut W, cred: &Option<Cred>) -> Result<(), W::Error>
    requires { IfSome cred.now (λ c. IsShortData c.value) }
    ensures { OnOk result (w.new ≡ given W.after w.old (optional cred_tokens cred.now)) }
{
    match cred {
        None => Ok(()),
        Some(cred) => put_cred(w, cred),
    }
}

/// Gives a challenge by its Meta.
#[tactic(auto, using(crate::proofs::Given::given_append), unfolding(crate::specs::Canonical::chal_tokens))]
pub fn put_chal<W: Writer>(w: &mut W, chal: &Meta) -> Result<(), W::Error>
    ensures { OnOk result (w.new ≡ given W.after w.old (chal_tokens chal.now)) }
{
    w.tag(Element::EChal, true)?;
    put_meta(w, chal)?;
    w.end()
}

/// Gives a challenge that may be absent.
pub fn put_option_chal<W: Writer>(w: &mut W, chal: &Option<Boxed<Meta>>) -> Result<(), W::Error>
    ensures { OnOk result (w.new ≡ given W.after w.old (optional chal_tokens chal.now)) }
{
    match chal {
        None => Ok(()),
        Some(chal) => put_chal(w, &chal.inner),
    }
}
