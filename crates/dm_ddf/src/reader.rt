// A description, read line by line.
ghost use Rattle.std.specs.Prelude.{◌≡◌, ◌≤◌, length, IfOk, OnOk};
ghost use Rattle.dm_base.specs.Fields.{parts};
ghost use Rattle.dm_ddf.specs.Reading as Spec;
ghost use Rattle.dm_ddf.specs.Reading.{ReadsRules, SaysProgress};
ghost use Rattle.dm_ddf.specs.Rules.{top_rule as rule_of_top};

use crate::fields::rule_in;
use crate::members::{NO_ACCESS, has_format};
use crate::rules::{Ddf, Occurs, Rule, RuleLine};
use crate::standing::{has_named, is_wild};
use dm_base::{Bytes, List, Memory};
use dm_fields::{BAD_FIELDS, BAD_TREE, BAD_WORD, LineError, begins_with};
use dm_uri::parse_name;
use std::alloc::Global;

/// A description as far as its rules were read.
#[derive(Drop)]
pub struct RuleList {
    pub rules: List<Rule>,
    /// The numbers of the rules below which the next one may come, the top first.
    pub above: List<u32>,
}

/// How far a description was read.
#[derive(Drop)]
pub enum DdfProgress {
    First,
    Rules(RuleList),
    /// `end` came.
    End(Ddf),
}

const RULE_LIMIT: usize = 4_096;

const PATH_LIMIT: u64 = 255;

// Names below a `*` have no more bytes than this.
const WILD_LENGTH: u64 = 5;

fn top_rule(alloc: Global) -> Result<Rule, Memory>
    ensures { IfOk result (λ rule. rule ≡ rule_of_top) }
{
    // No one sees its name.
    let Ok(name) = parse_name(alloc, b"top") else {
        return Err(Memory);
    };
    let mut formats = List::new(alloc);
    formats.push(Bytes::of_slice(alloc, b"node")?)?;
    Ok(Rule {
        name,
        permanent: true,
        access: NO_ACCESS,
        formats,
        occurs: Occurs::One,
        parent: 0,
        children: List::new(alloc),
        written: 1,
    })
}

fn no_rules(alloc: Global) -> Result<RuleList, Memory>
    ensures { IfOk result (λ list. list ≡ Spec.no_rules) }
{
    let mut rules = List::new(alloc);
    rules.push(top_rule(alloc)?)?;
    let mut above = List::new(alloc);
    above.push(0)?;
    Ok(RuleList { rules, above })
}

fn is_single(occurs: Occurs) -> bool
    ensures { result ≡ Spec.is_single occurs }
{
    match occurs {
        Occurs::One => true,
        Occurs::ZeroOrOne => true,
        Occurs::ZeroOrMore => false,
        Occurs::OneOrMore => false,
        Occurs::ZeroOrN(_) => false,
        Occurs::OneOrN(_) => false,
    }
}

fn written_below(above: u32, name: &[u8]) -> u64
    ensures { result ≡ Spec.written_below above name.now }
{
    let length = if is_wild(name) {
        WILD_LENGTH
    } else {
        name.len() as u64
    };
    u64::from(above) + 1 + length
}

// Whether the new rule may stand right below this one, names beside it aside.
fn takes_rule(parent: &Rule, said: &RuleLine) -> bool
    ensures { result ≡ Spec.takes_rule parent.now said.now }
{
    has_format(parent.formats.as_slice(), b"node")
        && (is_wild(said.name.as_slice()) || is_single(said.occurs))
        && (parent.permanent || !said.permanent)
        && written_below(parent.written, said.name.as_slice()) <= PATH_LIMIT
}

// The new rule's `written`, where it may come right below the rule `parent`.
fn may_come(rules: &[Rule], parent: u32, said: &RuleLine) -> Option<u32>
    ensures { result ≡ Spec.may_come rules.now parent said.now }
{
    let above = rules.get(parent as usize)?;
    if !takes_rule(above, said) || has_named(rules, parent, said.name.as_slice()) {
        return None;
    }
    Some(written_below(above.written, said.name.as_slice()) as u32)
}

fn push_child(rule: &mut Rule, number: u32) -> Result<(), Memory>
    ensures { OnOk result (rule.new ≡ Spec.with_child_rule number rule.old) }
{
    rule.children.push(number)
}

// Tells a rule that another one stands right below it.
fn note_child(rules: &mut List<Rule>, parent: u32, number: u32) -> Result<(), Memory>
    ensures { OnOk result (rules.new ≡ Spec.with_child_at rules.old parent number) }
{
    match rules.get_mut(parent as usize) {
        Some(rule) => push_child(rule, number),
        None => Ok(()),
    }
}

// Adds a rule behind all others, right below the rule `parent`.
fn add_rule(
    alloc: Global,
    list: &mut RuleList,
    parent: u32,
    written: u32,
    said: RuleLine,
) -> Result<(), Memory>
    requires { length list.old.rules ≤ 4096 }
    ensures { OnOk result (list.new ≡ Spec.with_rule_line list.old parent written said) }
{
    let number = list.rules.len() as u32;
    note_child(&mut list.rules, parent, number)?;
    list.rules.push(Rule {
        name: said.name,
        permanent: said.permanent,
        access: said.access,
        formats: said.formats,
        occurs: said.occurs,
        parent,
        children: List::new(alloc),
        written,
    })?;
    list.above.cut_to(said.level as usize + 1);
    list.above.push(number)
}

fn place_rule(alloc: Global, list: &mut RuleList, said: RuleLine) -> Result<(), LineError>
    requires { length list.old.rules ≤ 4096 }
    ensures { ReadsRules (Spec.placed_rule list.old said) list.new result }
{
    let Some(parent) = list.above.as_slice().get(said.level as usize) else {
        return Err(BAD_TREE);
    };
    let parent = *parent;
    let Some(written) = may_come(list.rules.as_slice(), parent, &said) else {
        return Err(BAD_TREE);
    };
    add_rule(alloc, list, parent, written, said)?;
    Ok(())
}

fn rule_line(alloc: Global, list: &mut RuleList, line: &[u8]) -> Result<(), LineError>
    ensures { ReadsRules (Spec.rule_line list.old (parts line.now)) list.new result }
{
    if list.rules.len() > RULE_LIMIT {
        return Err(BAD_FIELDS);
    }
    match rule_in(alloc, line)? {
        Some(said) => place_rule(alloc, list, said),
        None => Err(BAD_FIELDS),
    }
}

fn ddf_first_line(alloc: Global, line: &[u8]) -> Result<DdfProgress, LineError>
    ensures { SaysProgress (Spec.ddf_first_line line.now) result }
{
    if line == b"dm-ddf 1".as_slice() {
        Ok(DdfProgress::Rules(no_rules(alloc)?))
    } else {
        Err(BAD_WORD)
    }
}

fn ddf_end_line(list: RuleList, line: &[u8]) -> Result<DdfProgress, LineError>
    ensures { SaysProgress (Spec.ddf_end_line list line.now) result }
{
    if line == b"end".as_slice() {
        Ok(DdfProgress::End(Ddf { rules: list.rules }))
    } else {
        Err(BAD_FIELDS)
    }
}

fn ddf_later_line(alloc: Global, list: RuleList, line: &[u8]) -> Result<DdfProgress, LineError>
    ensures { SaysProgress (Spec.ddf_later_line list line.now) result }
{
    if begins_with(b"rule", line) {
        let mut list = list;
        rule_line(alloc, &mut list, line)?;
        Ok(DdfProgress::Rules(list))
    } else if begins_with(b"end", line) {
        ddf_end_line(list, line)
    } else {
        Err(BAD_WORD)
    }
}

/// How far a description is read with its next line, without its line feed. It goes through the line a few times, and
/// through the rules beside a new one.
///
/// `Bad` tells the first reason that holds: `Word` for a first word that may not stand there, `Fields` for their number
/// or form and for a 4,097th rule, `Tree` for a rule that may not stand where it comes.
pub(crate) fn line_after(
    alloc: Global,
    progress: DdfProgress,
    line: &[u8],
) -> Result<DdfProgress, LineError>
    ensures { SaysProgress (Spec.progress_after progress line.now) result }
{
    match progress {
        DdfProgress::First => ddf_first_line(alloc, line),
        DdfProgress::Rules(list) => ddf_later_line(alloc, list, line),
        DdfProgress::End(_) => Err(BAD_WORD),
    }
}
