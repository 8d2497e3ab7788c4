// The lines that tell of the tree.
ghost use Rattle.std.specs.Prelude.{◌≡◌, ◌≤◌, length, option_map, IfOk, IsTrue};
ghost use Rattle.dm_base.specs.Fields.{parts, hex_of};
ghost use Rattle.dm_uri.specs.Names.{is_within_limits};
ghost use Rattle.dm_tree.specs.Rows.{nodes};
ghost use Rattle.dm_acl.specs.Reading.{parse_of as parse_acl};
ghost use Rattle.dm_start.specs.Fields;
ghost use Rattle.dm_start.specs.Fields.{is_leaf_format as is_of_leaf};
ghost use Rattle.dm_start.specs.Growing as Spec;
ghost use Rattle.dm_start.specs.Growing.{nodes_after as tree_after};
ghost use Rattle.dm_start.specs.Laying.{Lays, AnswersWanted};

use crate::forms::{is_leaf_format, path_in};
use crate::new_nodes::{add, interior_node, new_node};
use crate::updates::add_update;
use dm_acl::laws::lists_that_are_read_are_short;
use dm_acl::{Acl, AclError};
use dm_base::{Bytes, FieldForm, Memory, OBJECT_LIMIT, hex_bytes, is_field};
use dm_fields::{
    BAD_FIELDS, BAD_TREE, BAD_WORD, LineError, begins_with, five_fields, three_fields, two_fields,
};
use dm_tree::{Role, Tree, Value};
use dm_uri::Path;
use std::alloc::Global;
use syncml_types::put_value::is_plain_text;

const TITLE_LIMIT: usize = 255;

/// A leaf that a line tells, and where it is to stand.
#[derive(Drop)]
pub struct LeafLine {
    pub path: Path,
    pub value: Value,
}

// The path in a line of a word and a URI.
fn only_path(alloc: Global, line: &[u8]) -> Result<Path, LineError>
    ensures path { AnswersWanted (Spec.or_fields (Fields.only_path (parts line.now))) result }
    ensures within { IfOk result (λ path. IsTrue (is_within_limits path)) }
{
    let Some((_, uri)) = two_fields(line) else {
        return Err(BAD_FIELDS);
    };
    match path_in(alloc, uri)? {
        Some(path) => Ok(path),
        None => Err(BAD_FIELDS),
    }
}

fn interior_line(alloc: Global, tree: &mut Tree, line: &[u8]) -> Result<(), LineError>
    ensures { Lays (Spec.interior_line tree.old.clock (nodes tree.old.rows) (parts line.now)) tree.old tree.new result }
{
    let path = only_path(alloc, line)?;
    let node = interior_node(alloc, false, Role::Plain)?;
    add(tree, path, node)?;
    Ok(())
}

#[inline(always)]
fn value_in(
    alloc: Global,
    format: &[u8],
    media: &[u8],
    bytes: &[u8],
) -> Result<Option<Value>, Memory>
    ensures { IfOk result (λ value. value ≡ option_map (Spec.value_of format.now media.now) (hex_of bytes.now)) }
{
    let Some(bytes) = hex_bytes(alloc, bytes)? else {
        return Ok(None);
    };
    Ok(Some(Value {
        format: Bytes::of_slice(alloc, format)?,
        media: Bytes::of_slice(alloc, media)?,
        bytes,
    }))
}

fn leaf_in(alloc: Global, line: &[u8]) -> Result<LeafLine, LineError>
    ensures leaf { AnswersWanted (Spec.or_fields (Fields.leaf_in (parts line.now))) result }
    ensures within { IfOk result (λ leaf. IsTrue (is_within_limits leaf.path)) }
    ensures forms { IfOk result (λ leaf. IsTrue (is_of_leaf leaf.value.format) × (length leaf.value.media ≤ 255)) }
{
    let Some((_, uri, format, media, bytes)) = five_fields(line) else {
        return Err(BAD_FIELDS);
    };
    if !is_leaf_format(format) || !is_field(FieldForm::Word, media) {
        return Err(BAD_FIELDS);
    }
    let Some(path) = path_in(alloc, uri)? else {
        return Err(BAD_FIELDS);
    };
    match value_in(alloc, format, media, bytes)? {
        Some(value) => Ok(LeafLine { path, value }),
        None => Err(BAD_FIELDS),
    }
}

fn leaf_line(alloc: Global, tree: &mut Tree, line: &[u8]) -> Result<(), LineError>
    ensures { Lays (Spec.leaf_line tree.old.clock (nodes tree.old.rows) (parts line.now)) tree.old tree.new result }
{
    let leaf = leaf_in(alloc, line)?;
    if leaf.value.bytes.len() > OBJECT_LIMIT as usize {
        return Err(BAD_TREE);
    }
    let node = new_node(alloc, false, leaf.value, false, Role::Plain);
    add(tree, leaf.path, node)?;
    Ok(())
}

// Sets the access list of the node at a path.
fn lay_acl(alloc: Global, tree: &mut Tree, path: &Path, text: &[u8]) -> Result<(), LineError>
    ensures { Lays (Spec.with_acl_at (nodes tree.old.rows) path.now (parse_acl text.now)) tree.old tree.new result }
{
    lists_that_are_read_are_short();
    let Some(id) = tree.find(path) else {
        return Err(BAD_TREE);
    };
    match Acl::parse(alloc, text) {
        Ok(acl) => {
            tree.lay_acl(id, acl);
            Ok(())
        }
        Err(AclError::Malformed(_)) => Err(BAD_TREE),
        Err(AclError::Memory) => Err(LineError::Memory),
    }
}

fn acl_line(alloc: Global, tree: &mut Tree, line: &[u8]) -> Result<(), LineError>
    ensures { Lays (Spec.acl_line (nodes tree.old.rows) (parts line.now)) tree.old tree.new result }
{
    let Some((_, uri, text)) = three_fields(line) else {
        return Err(BAD_FIELDS);
    };
    if !is_field(FieldForm::Word, text) {
        return Err(BAD_FIELDS);
    }
    match path_in(alloc, uri)? {
        Some(path) => lay_acl(alloc, tree, &path, text),
        None => Err(BAD_FIELDS),
    }
}

fn is_title(text: &[u8]) -> bool
    ensures { result ≡ Spec.is_title text.now }
{
    text.len() <= TITLE_LIMIT && is_plain_text(text)
}

// Sets the title of the node at a path.
fn lay_title(tree: &mut Tree, path: &Path, title: Bytes) -> Result<(), LineError>
    ensures { Lays (Spec.with_title_at (nodes tree.old.rows) path.now title) tree.old tree.new result }
{
    if !is_title(title.as_slice()) {
        return Err(BAD_TREE);
    }
    match tree.find(path) {
        Some(id) => {
            tree.lay_title(id, title);
            Ok(())
        }
        None => Err(BAD_TREE),
    }
}

fn title_line(alloc: Global, tree: &mut Tree, line: &[u8]) -> Result<(), LineError>
    ensures { Lays (Spec.title_line (nodes tree.old.rows) (parts line.now)) tree.old tree.new result }
{
    let Some((_, uri, text)) = three_fields(line) else {
        return Err(BAD_FIELDS);
    };
    let Some(path) = path_in(alloc, uri)? else {
        return Err(BAD_FIELDS);
    };
    match hex_bytes(alloc, text)? {
        Some(title) => lay_title(tree, &path, title),
        None => Err(BAD_FIELDS),
    }
}

// Makes the node at a path permanent.
fn lay_permanent(tree: &mut Tree, path: &Path) -> Result<(), LineError>
    ensures { Lays (Spec.with_mark_at (nodes tree.old.rows) path.now) tree.old tree.new result }
{
    let Some(id) = tree.find(path) else {
        return Err(BAD_TREE);
    };
    let Some(parent) = tree.parent(id) else {
        return Err(BAD_TREE);
    };
    if !tree.view(parent).permanent {
        return Err(BAD_TREE);
    }
    tree.lay_permanent(id);
    Ok(())
}

fn permanent_line(alloc: Global, tree: &mut Tree, line: &[u8]) -> Result<(), LineError>
    ensures { Lays (Spec.permanent_line (nodes tree.old.rows) (parts line.now)) tree.old tree.new result }
{
    let path = only_path(alloc, line)?;
    lay_permanent(tree, &path)
}

fn update_line(alloc: Global, tree: &mut Tree, line: &[u8]) -> Result<(), LineError>
    ensures { Lays (Spec.update_line tree.old.clock (nodes tree.old.rows) (parts line.now)) tree.old tree.new result }
{
    let path = only_path(alloc, line)?;
    add_update(alloc, tree, &path)?;
    Ok(())
}

/// Takes a line that tells of the tree.
#[tactic(auto, unfolding(crate::specs::Growing::nodes_after))]
pub(crate) fn nodes_after(alloc: Global, tree: &mut Tree, line: &[u8]) -> Result<(), LineError>
    ensures { Lays (tree_after tree.old.clock (nodes tree.old.rows) line.now) tree.old tree.new result }
{
    if begins_with(b"interior", line) {
        interior_line(alloc, tree, line)
    } else if begins_with(b"leaf", line) {
        leaf_line(alloc, tree, line)
    } else if begins_with(b"acl", line) {
        acl_line(alloc, tree, line)
    } else if begins_with(b"title", line) {
        title_line(alloc, tree, line)
    } else if begins_with(b"permanent", line) {
        permanent_line(alloc, tree, line)
    } else if begins_with(b"fumo", line) {
        update_line(alloc, tree, line)
    } else {
        Err(BAD_WORD)
    }
}
