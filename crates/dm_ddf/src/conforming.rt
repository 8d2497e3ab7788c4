// Whether a tree conforms to a description.
ghost use Rattle.std.specs.Prelude.{◌≡◌, ◌≤◌, ◌+◌, [], true, if◌then◌else◌, unwrap_or, option_and_then};
ghost use Rattle.std.specs.Option.{option_map_or, option_copied};
ghost use Rattle.dm_tree.specs.Nodes.{last_name};
ghost use Rattle.dm_tree.specs.Rows.{nodes, node_of, path_of, IsLive};
ghost use Rattle.dm_tree.specs.Views.{shown};
ghost use Rattle.dm_ddf.specs.Breaches as Spec;
ghost use Rattle.dm_ddf.specs.Rules;
ghost use Rattle.dm_ddf.specs.Conforming.{TellsFirst};

use crate::members::has_format;
use crate::rules::{Access, Ddf, Occurs, Rule};
use crate::standing::{child_rule, children_of, is_needed, stands_for};
use dm_acl::{Acl, Right};
use dm_tree::{NodeId, Tree, View};

/// How a node breaks a description, by the first condition that it breaks. Rules are numbered from 1 by their lines.
#[derive(Clone, Copy, Debug, PartialEq, Eq)]
pub enum Why {
    /// It stands for no rule.
    NoRule,
    /// Its Format is none of the rule's.
    Format,
    /// It is permanent and the rule isn't, or the other way round.
    Scope,
    /// Its own access list has a command that isn't among the rule's.
    Access,
    /// Too few of its children stand for this rule.
    Few { rule: u32 },
    /// Too many of its children stand for this rule.
    Many { rule: u32 },
}

/// Whether a tree conforms to a description.
#[derive(Clone, Copy, Debug, PartialEq, Eq)]
pub enum Conformity {
    Yes,
    /// The first node in the order of the tree text that breaks it, and how.
    Breaks { node: NodeId, why: Why },
}

fn are_many(occurs: Occurs, count: u32) -> bool
    ensures { result ≡ Rules.are_many occurs count }
{
    match occurs {
        Occurs::One | Occurs::ZeroOrOne => count > 1,
        Occurs::ZeroOrMore | Occurs::OneOrMore => false,
        Occurs::ZeroOrN(most) => count > most,
        Occurs::OneOrN(most) => count > most,
    }
}

fn count_breach(rule: u32, occurs: Occurs, count: u32) -> Option<Why>
    ensures { result ≡ Spec.count_breach rule occurs count }
{
    if is_needed(occurs) && count == 0 {
        Some(Why::Few { rule })
    } else if are_many(occurs, count) {
        Some(Why::Many { rule })
    } else {
        None
    }
}

// ---- the node itself

fn may_have(access: Access, acl: &Acl, command: Right) -> bool
    ensures { result ≡ Spec.may_have access acl.now command }
{
    !acl.names(command) || access.has(command)
}

fn is_within_access(access: Access, acl: &Acl) -> bool
    ensures { result ≡ Spec.is_within_access access acl.now }
{
    may_have(access, acl, Right::Add)
        && may_have(access, acl, Right::Delete)
        && may_have(access, acl, Right::Exec)
        && may_have(access, acl, Right::Get)
        && may_have(access, acl, Right::Replace)
}

fn has_access(access: Access, acl: Option<&Acl>) -> bool
    ensures { result ≡ option_map_or (Spec.is_within_access access) (option_copied acl.entry) true }
{
    match acl {
        Some(acl) => is_within_access(access, acl),
        None => true,
    }
}

fn own_breach(rule: &Rule, view: View) -> Option<Why>
    ensures { result ≡ Spec.own_breach rule.now (shown view.entry) }
{
    if !has_format(rule.formats.as_slice(), view.value.format.as_slice()) {
        Some(Why::Format)
    } else if view.permanent != rule.permanent {
        Some(Why::Scope)
    } else if !has_access(rule.access, view.acl) {
        Some(Why::Access)
    } else {
        None
    }
}

// ---- its children

fn name_of(tree: &Tree, id: NodeId) -> &[u8]
    requires { IsLive tree.now.rows id }
    ensures { result.now ≡ unwrap_or (last_name (path_of tree.now.rows id)) [] }
{
    match tree.view(id).name {
        Some(name) => name.as_slice(),
        None => b"",
    }
}

fn count_if(count: u32, counts: bool) -> u32
    requires { count ≤ 65536 }
    ensures { result ≡ count + (if counts then 1 else 0) }
{
    if counts { count + 1 } else { count }
}

// How many children stand for the rule `child`, where the node stands for `rule`.
fn standing(tree: &Tree, rules: &[Rule], id: NodeId, rule: u32, child: u32) -> u32
    requires { IsLive tree.now.rows id }
    ensures { result ≡ Spec.standing (nodes tree.now.rows) rules.now (path_of tree.now.rows id) rule child }
{
    // Its contract says that the tree has at most 65,536 nodes.
    let _ = tree.root();
    let mut count = 0u32;
    let mut at = tree.first_child(id);
    while let Some(here) = at {
        count = count_if(count, stands_for(rules, rule, name_of(tree, here), child));
        at = tree.next_sibling(here);
    }
    count
}

fn occurs_of(rules: &[Rule], rule: u32) -> Occurs
    ensures { result ≡ (Rules.rule_at rules.now rule).occurs }
{
    match rules.get(rule as usize) {
        Some(found) => found.occurs,
        None => Occurs::One,
    }
}

fn counts_breach(tree: &Tree, rules: &[Rule], id: NodeId, rule: u32) -> Option<Why>
    requires { IsLive tree.now.rows id }
    ensures { result ≡ Spec.counts_breach (nodes tree.now.rows) rules.now (path_of tree.now.rows id) rule }
{
    for child in children_of(rules, rule) {
        let count = standing(tree, rules, id, rule, *child);
        let why = count_breach(*child, occurs_of(rules, *child), count);
        if why.is_some() {
            return why;
        }
    }
    None
}

// ---- a node

fn rule_below(rules: &[Rule], above: Option<u32>, name: &[u8]) -> Option<u32>
    ensures { result ≡ option_and_then (λ k. Rules.child_rule rules.now k name.now) above }
{
    match above {
        Some(above) => child_rule(rules, above, name),
        None => None,
    }
}

// The rule for which a node stands.
fn rule_for(tree: &Tree, rules: &[Rule], id: NodeId) -> Option<u32>
    requires { IsLive tree.now.rows id }
    ensures { result ≡ Spec.rule_for rules.now (path_of tree.now.rows id) }
{
    // Their contracts say that the tree is in order, and that the node is there.
    let _ = tree.root();
    let _ = tree.view(id);
    match tree.parent(id) {
        None => Some(0),
        Some(parent) => rule_below(rules, rule_for(tree, rules, parent), name_of(tree, id)),
    }
}

fn outer_breach(rules: &[Rule], rule: u32, view: View) -> Option<Why>
    ensures { result ≡ Spec.outer_breach rules.now (option_copied view.entry.name) (shown view.entry) rule }
{
    if view.name.is_none() {
        return None;
    }
    match rules.get(rule as usize) {
        Some(found) => own_breach(found, view),
        None => None,
    }
}

// The first breach of a node that stands for this rule, or for none.
fn rule_breach(tree: &Tree, rules: &[Rule], id: NodeId, rule: Option<u32>) -> Option<Why>
    requires { IsLive tree.now.rows id }
    ensures { result ≡ Spec.rule_breach (nodes tree.now.rows) rules.now (path_of tree.now.rows id)
        (node_of tree.now.rows id) rule }
{
    let Some(rule) = rule else {
        return Some(Why::NoRule);
    };
    let view = tree.view(id);
    let why = outer_breach(rules, rule, view);
    if why.is_some() {
        return why;
    }
    if !view.interior {
        return None;
    }
    counts_breach(tree, rules, id, rule)
}

// The first breach of a node.
fn breach_of(tree: &Tree, rules: &[Rule], id: NodeId) -> Option<Why>
    requires { IsLive tree.now.rows id }
    ensures { result ≡ Spec.breach_at (nodes tree.now.rows) rules.now (path_of tree.now.rows id) }
{
    // Its contract says that the node is there.
    let _ = tree.view(id);
    rule_breach(tree, rules, id, rule_for(tree, rules, id))
}

/// Whether a tree conforms to a description, or the first node in the order of the tree text that breaks it, and the
/// first condition that this node breaks. It takes no memory. It goes through the tree once: for each node it finds the
/// rule by those of the nodes above, at most 16, and at each interior node it compares the children with each of the
/// rules right below the node's.
pub fn conforms(tree: &Tree, ddf: &Ddf) -> Conformity
    ensures { TellsFirst tree.now.rows ddf.now.rules result }
{
    let rules = ddf.rules.as_slice();
    let root = tree.root();
    // Its contract says that the root is there.
    let _ = tree.view(root);
    let mut at = Some(root);
    while let Some(node) = at {
        match breach_of(tree, rules, node) {
            Some(why) => return Conformity::Breaks { node, why },
            None => {}
        }
        at = tree.next_below(root, node, false);
    }
    Conformity::Yes
}
