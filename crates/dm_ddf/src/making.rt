// The tree that a description asks for, made rule by rule.
ghost use Rattle.std.specs.Prelude.{ℕ, ◌≡◌, ◌&&◌, ◌<◌, ◌++◌, ◌∷◌, []};
ghost use Rattle.std.specs.Prelude.{length, get_or, None, Some, IfOk, IfSome, IsTrue, Option};
ghost use Rattle.std.specs.Prelude.{OnOk, true, false};
ghost use Rattle.dm_uri.specs.Names.{is_name, is_within_limits, printed_path};
ghost use Rattle.dm_tree.specs.Nodes.{IsNewNode, first_stamp};
ghost use Rattle.dm_tree.specs.Rows.{nodes, path_of, IsLive};
ghost use Rattle.dm_tree.specs.Views.{shown};
ghost use Rattle.dm_start.specs.Growing.{takes_child as takes_child_of, is_open};
ghost use Rattle.dm_ddf.specs.Rules.{is_inner};
ghost use Rattle.dm_ddf.specs.Making as Spec;
ghost use Rattle.dm_ddf.specs.Made.{making_of, AreLive, ComesAt, GoesThrough};

use crate::members::{has_format, is_leaf_format};
use crate::rules::{Ddf, Rule};
use crate::standing::{has_named, is_needed, is_wild};
use dm_acl::Acl;
use dm_acl::laws::lists_that_are_read_are_short;
use dm_base::{Bytes, List, Memory};
use dm_decimals::put_decimal;
use dm_tree::{NewNode, NodeId, Role, Tree, TreeError, Value, View};
use dm_uri::{Name, Path, Query, Uri, parse_name, print};
use std::alloc::Global;

// One more than there may be rules below another.
const NAMES_TRIED: u64 = 4_096;

const MOST_NAMES: usize = 16;

const PATH_LIMIT: usize = 255;

// The root alone.
fn bare_tree(alloc: Global) -> Result<Tree, Memory>
    ensures nodes { IfOk result (λ tree. nodes tree.rows ≡ Spec.only_root) }
    ensures clock { IfOk result (λ tree. tree.clock ≡ first_stamp) }
{
    lists_that_are_read_are_short();
    let Ok(acl) = Acl::parse(alloc, b"Add=*&Get=*") else {
        return Err(Memory);
    };
    let tree = Tree::new(alloc, acl)?;
    Ok(tree)
}

fn numbered_name(alloc: Global, number: u64) -> Result<Bytes, Memory>
    ensures { IfOk result (λ name. name ≡ Spec.numbered_name number) }
{
    let mut name = Bytes::of_slice(alloc, b"x")?;
    put_decimal(&mut name, number)?;
    Ok(name)
}

// The first of `x1`, `x2` and so on that no rule beside has. Each is held against all these rules: at most 17 million
// short names in all, some tens of milliseconds.
fn free_name(alloc: Global, rules: &[Rule], parent: u32) -> Result<Bytes, Memory>
    ensures { IfOk result (λ name. name ≡ Spec.free_name rules.now parent 1 4095) }
{
    for number in 1..NAMES_TRIED {
        let name = numbered_name(alloc, number)?;
        if !has_named(rules, parent, name.as_slice()) {
            return Ok(name);
        }
    }
    numbered_name(alloc, NAMES_TRIED)
}

fn name_for(alloc: Global, rules: &[Rule], rule: &Rule) -> Result<Name, Memory>
    ensures { IfOk result (λ name. name ≡ Spec.made_name rules.now rule.now) }
{
    if !is_wild(rule.name.as_slice()) {
        return rule.name.copy(alloc);
    }
    let text = free_name(alloc, rules, rule.parent)?;
    // An `x` with digits is a name.
    match parse_name(alloc, text.as_slice()) {
        Ok(name) => Ok(name),
        Err(_) => Err(Memory),
    }
}

fn first_format(rule: &Rule) -> &[u8]
    ensures { result.now ≡ Spec.first_format rule.now }
{
    match rule.formats.as_slice().get(0) {
        Some(format) => format.as_slice(),
        None => b"",
    }
}

fn value_of(alloc: Global, format: &[u8], media: &[u8]) -> Result<Value, Memory>
    ensures { IfOk result (λ value. value ≡ record { format = format.now; media = media.now; bytes = [] }) }
{
    Ok(Value {
        format: Bytes::of_slice(alloc, format)?,
        media: Bytes::of_slice(alloc, media)?,
        bytes: Bytes::new(alloc),
    })
}

fn value_for(alloc: Global, rule: &Rule, interior: bool) -> Result<Value, Memory>
    requires { interior ≡ is_inner rule.now }
    ensures { IfOk result (λ value. value ≡ Spec.made_value rule.now) }
{
    if interior {
        value_of(alloc, b"node", b"")
    } else {
        value_of(alloc, first_format(rule), b"text/plain")
    }
}

fn has_format_for(rule: &Rule) -> bool
    ensures { result ≡ Spec.has_format_for rule.now }
{
    has_format(rule.formats.as_slice(), b"node") || is_leaf_format(first_format(rule))
}

fn node_for(alloc: Global, rule: &Rule) -> Result<NewNode, Memory>
    ensures { IfOk result (λ node. node ≡ Spec.made_node rule.now) }
{
    let interior = has_format(rule.formats.as_slice(), b"node");
    Ok(NewNode {
        interior,
        value: value_for(alloc, rule, interior)?,
        acl: None,
        title: Bytes::new(alloc),
        permanent: rule.permanent,
        role: Role::Plain,
    })
}

fn takes_child(permanent: bool, above: View) -> bool
    ensures { result ≡ takes_child_of permanent (shown above.entry) }
{
    above.interior && (above.permanent || !permanent)
}

fn is_open_below(tree: &Tree, parent: NodeId, name: &Name, permanent: bool) -> bool
    requires { IsLive tree.now.rows parent }
    ensures { result ≡ is_open (nodes tree.now.rows) (path_of tree.now.rows parent ++ name.now ∷ []) permanent }
{
    takes_child(permanent, tree.view(parent)) && tree.child(parent, name).is_none()
}

fn push_name(path: &mut Path, name: Name) -> Result<(), Memory>
    requires few { length path.old < 16 }
    ensures ok { OnOk result (path.new ≡ path.old ++ name ∷ []) }
{
    match path.push(name) {
        Ok(()) => Ok(()),
        Err(_) => Err(Memory),
    }
}

// How many bytes a path has in print.
fn printed_length(alloc: Global, path: Path) -> Result<usize, Memory>
    ensures { IfOk result (λ n. n ≡ length (printed_path path)) }
{
    let uri = Uri {
        path,
        query: Query::Plain,
    };
    match print(alloc, &uri) {
        Ok(text) => Ok(text.len()),
        Err(_) => Err(Memory),
    }
}

// Whether the path one name below a node is within the limits.
fn is_within(alloc: Global, tree: &Tree, parent: NodeId, name: &Name) -> Result<bool, Memory>
    requires { IsLive tree.now.rows parent }
    ensures { IfOk result (λ b. b ≡ is_within_limits (path_of tree.now.rows parent ++ name.now ∷ [])) }
{
    // Its contract says that it is a name.
    let _ = name.as_slice();
    let mut path = tree.path(parent)?;
    if path.as_slice().len() >= MOST_NAMES {
        return Ok(false);
    }
    push_name(&mut path, name.copy(alloc)?)?;
    let length = printed_length(alloc, path)?;
    Ok(length <= PATH_LIMIT)
}

// Puts a node in right below another, where it may stand there.
fn put_below(
    alloc: Global,
    tree: &mut Tree,
    parent: NodeId,
    name: Name,
    node: NewNode,
) -> Result<Option<NodeId>, Memory>
    requires live { IsLive tree.old.rows parent }
    requires node { IsNewNode node }
    ensures { IfOk result (λ id.
        ComesAt tree.old tree.new (path_of tree.old.rows parent ++ name ∷ []) node id) }
{
    // Its contract says that the node above is there.
    let _ = tree.view(parent);
    if !is_open_below(tree, parent, &name, node.permanent) {
        return Ok(None);
    }
    if !is_within(alloc, tree, parent, &name)? {
        return Ok(None);
    }
    match tree.insert(parent, name, node) {
        Ok((id, undo)) => {
            drop(undo);
            Ok(Some(id))
        }
        Err(TreeError::Full) => Ok(None),
        Err(TreeError::Memory) => Err(Memory),
    }
}

// The number of the node that was made for the rule above.
fn made_above(made: &[Option<NodeId>], rule: &Rule) -> Option<NodeId>
    ensures { result ≡ get_or made.now rule.now.parent None }
{
    match made.get(rule.parent as usize) {
        Some(id) => *id,
        None => None,
    }
}

// Goes through a rule, and makes its node if one is needed and may stand there.
fn make_node(
    alloc: Global,
    tree: &mut Tree,
    rules: &[Rule],
    rule: &Rule,
    made: &[Option<NodeId>],
) -> Result<Option<NodeId>, Memory>
    requires live { AreLive tree.old.rows made.now }
    requires clock { tree.old.clock ≡ first_stamp }
    ensures { IfOk result (λ id. GoesThrough rules.now tree.old tree.new made.now rule.now id) }
{
    if !is_needed(rule.occurs) {
        return Ok(None);
    }
    let Some(parent) = made_above(made, rule) else {
        return Ok(None);
    };
    if !has_format_for(rule) {
        return Ok(None);
    }
    let name = name_for(alloc, rules, rule)?;
    let node = node_for(alloc, rule)?;
    put_below(alloc, tree, parent, name, node)
}

/// The tree that a description asks for: the root with the access list `Add=*&Get=*`, and below each node one
/// for each rule of which one at least is needed there. It takes the rule's name, or for `*` the first of `x1`, `x2`
/// and so on that no rule beside it has; the first of its Formats; as a leaf the Type text/plain and no byte; and no
/// access list and no title of its own. Of rules that no text can say, those are passed over whose node couldn't stand
/// in a tree. It goes through the rules once, and for each `*` through those beside it.
pub fn make_tree(alloc: Global, ddf: &Ddf) -> Result<Tree, Memory>
    ensures { IfOk result (λ tree. nodes tree.rows ≡ Spec.asked_tree ddf.now.rules) }
{
    let rules = ddf.rules.as_slice();
    let mut tree = bare_tree(alloc)?;
    let mut made = List::new(alloc);
    made.push(Some(tree.root()))?;
    for at in 1..rules.len() {
        let id = make_node(alloc, &mut tree, rules, &rules[at], made.as_slice())?;
        made.push(id)?;
    }
    Ok(tree)
}
