// Fields that have members, with a `+` between each two.
ghost use Rattle.std.specs.Prelude.{◌≡◌, ◌<◌, ◌&&◌, ◌∷◌, [], not, length, MatchOption, IfSome, IfOk, option_and_then};
ghost use Rattle.dm_tree.specs.Nodes.{is_format, is_node_format};
ghost use Rattle.dm_ddf.specs.Fields as Spec;
ghost use Rattle.dm_ddf.specs.Fields.{plus_members};

use crate::rules::Access;
use dm_acl::Right;
use dm_base::{Bytes, List, Memory};
use memchr::memchr;
use std::alloc::Global;

pub(crate) const NO_ACCESS: Access = Access {
    add: false,
    delete: false,
    exec: false,
    get: false,
    replace: false,
};

// The first member, and what stands behind its `+`. None comes exactly where there is only one.
fn cut_member(text: &[u8]) -> Option<(&[u8], &[u8])>
    ensures members { MatchOption result (plus_members text.now ≡ text.now ∷ [])
        (λ cut. plus_members text.now ≡ cut.0.now ∷ plus_members cut.1.now) }
    ensures shorter { IfSome result (λ cut. length cut.1.now < length text.now) }
{
    match memchr(b'+', text) {
        Some(at) => Some((&text[..at], &text[at + 1..])),
        None => None,
    }
}

fn command_in(text: &[u8]) -> Option<Right>
    ensures { result ≡ Spec.command_in text.now }
{
    if text == b"Add".as_slice() {
        Some(Right::Add)
    } else if text == b"Delete".as_slice() {
        Some(Right::Delete)
    } else if text == b"Exec".as_slice() {
        Some(Right::Exec)
    } else if text == b"Get".as_slice() {
        Some(Right::Get)
    } else if text == b"Replace".as_slice() {
        Some(Right::Replace)
    } else {
        None
    }
}

impl Access {
    /// Whether a command is among them.
    pub fn has(self, command: Right) -> bool
        ensures { result ≡ Spec.has_access self command }
    {
        match command {
            Right::Add => self.add,
            Right::Delete => self.delete,
            Right::Exec => self.exec,
            Right::Get => self.get,
            Right::Replace => self.replace,
        }
    }

    fn with(self, command: Right) -> Access
        ensures { result ≡ Spec.with_access self command }
    {
        match command {
            Right::Add => Access { add: true, ..self },
            Right::Delete => Access {
                delete: true,
                ..self
            },
            Right::Exec => Access { exec: true, ..self },
            Right::Get => Access { get: true, ..self },
            Right::Replace => Access {
                replace: true,
                ..self
            },
        }
    }
}

fn with_command(access: Access, text: &[u8]) -> Option<Access>
    ensures { result ≡ option_and_then (Spec.with_command access) (Spec.command_in text.now) }
{
    let command = command_in(text)?;
    if access.has(command) {
        return None;
    }
    Some(access.with(command))
}

// The commands of a field behind those that it had so far.
fn with_commands(access: Access, text: &[u8]) -> Option<Access>
    ensures { result ≡ Spec.with_commands access (plus_members text.now) }
{
    let mut so_far = access;
    let mut rest = text;
    'members: loop {
        let Some((first, behind)) = cut_member(rest) else {
            return with_command(so_far, rest);
        };
        so_far = with_command(so_far, first)?;
        rest = behind;
    }
}

/// The commands of an ACCESS. None comes exactly where the text is none.
pub(crate) fn access_in(text: &[u8]) -> Option<Access>
    ensures { result ≡ Spec.access_in text.now }
{
    if text == b"-".as_slice() {
        return Some(NO_ACCESS);
    }
    with_commands(NO_ACCESS, text)
}

/// Whether a text is a Format of leaves.
pub(crate) fn is_leaf_format(text: &[u8]) -> bool
    ensures { result ≡ (is_format text.now && not (is_node_format text.now)) }
{
    matches!(
        text,
        b"b64" | b"bin" | b"bool" | b"chr" | b"int" | b"null" | b"xml"
    )
}

/// Whether a Format is among these.
pub(crate) fn has_format(formats: &[Bytes], text: &[u8]) -> bool
    ensures { result ≡ Spec.has_format formats.now text.now }
{
    formats.iter().any(|format| format.as_slice() == text)
}

// Adds a Format of leaves, and answers whether it is one that wasn't there.
fn push_format(alloc: Global, formats: &mut List<Bytes>, text: &[u8]) -> Result<bool, Memory>
    ensures { Spec.Pushes (Spec.with_format formats.old text.now) formats.new result }
{
    if !is_leaf_format(text) || has_format(formats.as_slice(), text) {
        return Ok(false);
    }
    formats.push(Bytes::of_slice(alloc, text)?)?;
    Ok(true)
}

fn leaf_formats(alloc: Global, text: &[u8]) -> Result<Option<List<Bytes>>, Memory>
    ensures { IfOk result (λ formats. formats ≡ Spec.with_formats [] (plus_members text.now)) }
{
    let mut formats = List::new(alloc);
    let mut rest = text;
    'members: loop {
        let Some((first, behind)) = cut_member(rest) else {
            if push_format(alloc, &mut formats, rest)? {
                return Ok(Some(formats));
            }
            return Ok(None);
        };
        if !push_format(alloc, &mut formats, first)? {
            return Ok(None);
        }
        rest = behind;
    }
}

/// The Formats of a FORMATS. None comes exactly where the text is none.
pub(crate) fn formats_in(alloc: Global, text: &[u8]) -> Result<Option<List<Bytes>>, Memory>
    ensures { IfOk result (λ formats. formats ≡ Spec.formats_in text.now) }
{
    if text != b"node".as_slice() {
        return leaf_formats(alloc, text);
    }
    let mut formats = List::new(alloc);
    formats.push(Bytes::of_slice(alloc, text)?)?;
    Ok(Some(formats))
}
