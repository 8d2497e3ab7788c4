// Rules by their numbers, and which of them a name stands for.
ghost use Rattle.std.specs.Prelude.{◌≡◌, bytes_eq, find};
ghost use Rattle.std.specs.List.{list_any};
ghost use Rattle.dm_ddf.specs.Rules as Spec;
ghost use Rattle.dm_ddf.specs.Rules.{rule_at, child_rules};

use crate::rules::{Occurs, Rule};

// The name of a rule.
fn name_at(rules: &[Rule], rule: u32) -> &[u8]
    ensures { result.now ≡ (rule_at rules.now rule).name }
{
    match rules.get(rule as usize) {
        Some(found) => found.name.as_slice(),
        None => b"top",
    }
}

/// Whether one node at least is to stand for a rule.
pub(crate) fn is_needed(occurs: Occurs) -> bool
    ensures { result ≡ Spec.is_needed occurs }
{
    match occurs {
        Occurs::One | Occurs::OneOrMore | Occurs::OneOrN(_) => true,
        Occurs::ZeroOrOne | Occurs::ZeroOrMore | Occurs::ZeroOrN(_) => false,
    }
}

/// The numbers of the rules right below a rule, in order.
pub(crate) fn children_of(rules: &[Rule], rule: u32) -> &[u32]
    ensures { result.now ≡ child_rules rules.now rule }
{
    match rules.get(rule as usize) {
        Some(found) => found.children.as_slice(),
        None => &[],
    }
}

/// Whether a rule right below another has this name.
pub(crate) fn has_named(rules: &[Rule], rule: u32, name: &[u8]) -> bool
    ensures { result ≡ Spec.has_named rules.now rule name.now }
{
    children_of(rules, rule)
        .iter()
        .any(|child| name_at(rules, *child) == name)
}

/// Whether a name is `*`.
pub(crate) fn is_wild(name: &[u8]) -> bool
    ensures { result ≡ Spec.is_wild name.now }
{
    name == b"*".as_slice()
}

/// Whether a child of this name of a node that stands for a rule stands for `child`, one of the rules right below. It
/// looks at all of these only where `child` is `*`.
pub(crate) fn stands_for(rules: &[Rule], rule: u32, name: &[u8], child: u32) -> bool
    ensures { result ≡ Spec.stands_for rules.now rule name.now child }
{
    let own = name_at(rules, child);
    own == name || (is_wild(own) && !has_named(rules, rule, name))
}

/// The rule that such a child stands for.
pub(crate) fn child_rule(rules: &[Rule], rule: u32, name: &[u8]) -> Option<u32>
    ensures { result ≡ Spec.child_rule rules.now rule name.now }
{
    children_of(rules, rule)
        .iter()
        .copied()
        .find(|child| stands_for(rules, rule, name, *child))
}
